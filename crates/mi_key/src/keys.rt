//! Keys: cluster number, key distance, identifier and birth number in 128 bits.
ghost use Rattle.std.specs.Prelude.{◌≡◌, ◌<◌, ◌^◌};
ghost use Rattle.std.specs.Ordering.{nat_cmp};
ghost use Rattle.mi_key.specs.Keys.{FitKey, key_of, parts_cmp, parts_of};

use mi_base::Id;
use std::cmp::Ordering;
use std::marker::Model;

const BIRTH_BITS: u32 = 30;

const ID_BITS: u32 = 40;

const DISTANCE_BITS: u32 = 27;

/// A key of 128 bits. Keys are ordered as their parts are.
#[derive(Clone, Copy, Debug, PartialEq, Eq, PartialOrd, Ord)]
pub struct Key {
    value: u128,
}

impl Model for Key {
    ghost use Rattle.std.specs.Prelude.{ℕ, ◌<◌, ◌^◌};

    ghost Value = { ℕ };

    ghost view = { λ k. k.value };

    ghost invariant = { λ k. k.value < 2 ^ 128 };

    ghost inverse = { λ n. record { value = n } };
}

/// What a key is made of: a cluster number below 2^31, a distance below 2^27, an identifier, and a birth number below
/// 2^30.
#[derive(Clone, Copy, Debug, PartialEq, Eq, PartialOrd, Ord)]
pub struct KeyParts {
    /// The number of the object's cluster.
    pub cluster: u32,
    /// The key distance.
    pub distance: u32,
    /// The object.
    pub id: Id,
    /// The number of the insert among the updates, from 1.
    pub birth: u32,
}

impl Key {
    /// The key of these parts.
    pub fn make(cluster: u32, distance: u32, id: Id, birth: u32) -> Key
        requires cluster { cluster < 2 ^ 31 }
        requires distance { distance < 2 ^ 27 }
        requires birth { birth < 2 ^ 30 }
        ensures number { result ≡ key_of (record { cluster = cluster; distance = distance; id = id; birth = birth }) }
        ensures parts { parts_of result ≡ record { cluster = cluster; distance = distance; id = id; birth = birth } }
    {
        let place = (u128::from(cluster) << DISTANCE_BITS) + u128::from(distance);
        let object = (place << ID_BITS) + u128::from(id.get());
        Key {
            value: (object << BIRTH_BITS) + u128::from(birth),
        }
    }

    /// What the key is made of.
    pub fn parts(&self) -> KeyParts
        ensures parts { result ≡ parts_of self.now }
        ensures number { key_of result ≡ self.now }
        ensures fit { FitKey result }
    {
        let object = self.value >> BIRTH_BITS;
        let place = object >> ID_BITS;
        let Ok(id) = Id::new((object % (1 << ID_BITS)) as u64) else {
            unreachable!();
        };
        KeyParts {
            cluster: (place >> DISTANCE_BITS) as u32,
            distance: (place % (1 << DISTANCE_BITS)) as u32,
            id,
            birth: (self.value % (1 << BIRTH_BITS)) as u32,
        }
    }

    /// How two keys stand: by cluster, then distance, then identifier, then birth.
    pub fn compare(&self, other: &Key) -> Ordering
        ensures numbers { result ≡ nat_cmp self.now other.now }
        ensures parts { result ≡ parts_cmp (parts_of self.now) (parts_of other.now) }
    {
        self.cmp(other)
    }
}
