//! The order in which a vector meets the pivots.
ghost use Rattle.std.specs.Prelude.{◌≡◌, ◌<◌, ◌==◌, Some, length, IfSome, IfNone, IsTrue, slice_get, false};
ghost use Rattle.mi_base.specs.Permutations.{is_permutation};

use crate::MAX_PIVOTS;
use arrayvec::ArrayVec;
use std::marker::Model;

/// The numbers of up to 32 pivots, each once.
#[derive(Drop)]
pub struct Perm {
    numbers: ArrayVec<u8, MAX_PIVOTS>,
}

impl Model for Perm {
    ghost use Rattle.std.specs.Prelude.{List, ℕ, IsTrue};
    ghost use Rattle.mi_base.specs.Permutations.{is_permutation};

    ghost Value = { List ℕ };

    ghost view = { λ p. p.numbers.items };

    ghost invariant = { λ p. IsTrue (is_permutation p.numbers.items) };
}

impl Perm {
    /// None exactly where there are more than 32 items, an item that isn't below their count, or a repeat. It takes no
    /// memory.
    pub fn new(items: &[u8]) -> Option<Perm>
        ensures some { IfSome result (λ p. (p ≡ items.now) × IsTrue (is_permutation items.now)) }
        ensures none { IfNone result (is_permutation items.now ≡ false) }
    {
        if items.len() > MAX_PIVOTS {
            return None;
        }
        let mut numbers = ArrayVec::new();
        for item in items {
            if usize::from(*item) >= items.len() || numbers.as_slice().contains(item) {
                return None;
            }
            numbers.push(*item);
        }
        Some(Perm { numbers })
    }

    /// How many pivots there are, at most 32.
    pub fn len(&self) -> usize
        ensures { result ≡ length self.now }
    {
        self.numbers.len()
    }

    /// There are no pivots.
    pub fn is_empty(&self) -> bool
        ensures { result ≡ (length self.now == 0) }
    {
        self.numbers.is_empty()
    }

    /// The number of the pivot at a place, from 0.
    pub fn at(&self, place: usize) -> u8
        requires { place < length self.now }
        ensures { slice_get self.now place ≡ Some result }
    {
        self.numbers[place]
    }

    /// The numbers of the pivots in their order.
    pub fn as_slice(&self) -> &[u8]
        ensures same { result.now ≡ self.now }
        ensures permutation { IsTrue (is_permutation self.now) }
    {
        self.numbers.as_slice()
    }
}
