//! Vectors of whole numbers.
ghost use Rattle.std.specs.Prelude.{◌≡◌, ◌<◌, Some, length, IfOk, IfErr, slice_get};
ghost use Rattle.mi_base.specs.Vectors.{IsRefused, IsVector};

use crate::{MAX_COORDINATE, MAX_DIMS, VectorRefusal};
use arrayvec::ArrayVec;
use std::marker::Model;

/// A vector of 1 to 64 coordinates, each from -1,000,000 to 1,000,000.
#[derive(Drop)]
pub struct Vector {
    coordinates: ArrayVec<i32, MAX_DIMS>,
}

impl Model for Vector {
    ghost use Rattle.std.specs.Prelude.{List, ℤ};
    ghost use Rattle.mi_base.specs.Vectors.{IsVector};

    ghost Value = { List ℤ };

    ghost view = { λ v. v.coordinates.items };

    ghost invariant = { λ v. IsVector v.coordinates.items };
}

impl Vector {
    /// A vector of these coordinates. It takes no memory.
    pub fn new(items: &[i64]) -> Result<Vector, VectorRefusal>
        ensures ok { IfOk result (λ v. v ≡ items.now) }
        ensures err { IfErr result (IsRefused items.now) }
    {
        if items.is_empty() || items.len() > MAX_DIMS {
            return Err(VectorRefusal::Length { items: items.len() });
        }
        let most = i64::from(MAX_COORDINATE);
        let mut coordinates = ArrayVec::new();
        for (place, item) in items.iter().enumerate() {
            let value = *item;
            if value < -most || value > most {
                return Err(VectorRefusal::Coordinate { place, value });
            }
            coordinates.push(value as i32);
        }
        Ok(Vector { coordinates })
    }

    /// How many coordinates there are, from 1 to 64.
    pub fn len(&self) -> usize
        ensures { result ≡ length self.now }
    {
        self.coordinates.len()
    }

    /// The coordinate at a place, from 0.
    pub fn at(&self, place: usize) -> i32
        requires { place < length self.now }
        ensures { slice_get self.now place ≡ Some result }
    {
        self.coordinates[place]
    }

    /// The coordinates in their order.
    pub fn as_slice(&self) -> &[i32]
        ensures same { result.now ≡ self.now }
        ensures vector { IsVector self.now }
    {
        self.coordinates.as_slice()
    }

    /// The same vector again. It takes no memory.
    pub fn copy(&self) -> Vector
        ensures { result ≡ self.now }
    {
        let mut coordinates = ArrayVec::new();
        for x in self.coordinates.as_slice() {
            coordinates.push(*x);
        }
        Vector { coordinates }
    }
}
