//! Prefixes beside prefixes and permutations.
ghost use Rattle.std.specs.Prelude.{◌≡◌, ◌<◌, ◌++◌, [], ◌∷◌, length, IsTrue, false};
ghost use Rattle.mi_base.specs.Prefixes.{has, is_prefix};
ghost use Rattle.mi_tree.specs.Cells.{same_cell};
ghost use Rattle.mi_tree.specs.Order.{before};

use arrayvec::ArrayVec;
use mi_base::Prefix;

/// The prefix of these pivots.
fn prefix_of(pivots: &[u8]) -> Prefix
    requires { IsTrue (is_prefix pivots.now) }
    ensures { result ≡ pivots.now }
{
    Prefix::new(pivots).unwrap()
}

/// The prefix with one pivot more.
pub fn child_of(prefix: &Prefix, pivot: u8) -> Prefix
    requires short { length prefix.now < 6 }
    requires known { pivot < 32 }
    requires other { has pivot prefix.now ≡ false }
    ensures { result ≡ prefix.now ++ pivot ∷ [] }
{
    let mut pivots: ArrayVec<u8, 6> = ArrayVec::new();
    for earlier in prefix.as_slice() {
        pivots.push(*earlier);
    }
    pivots.push(pivot);
    prefix_of(pivots.as_slice())
}

/// The two prefixes are one: they name the same cell.
pub fn is_same(one: &Prefix, other: &Prefix) -> bool
    ensures { result ≡ same_cell one.now other.now }
{
    one.len() == other.len() && other.as_slice().starts_with(one.as_slice())
}

/// The pivots come before all that begin with the prefix, in dictionary order.
pub fn is_before(pivots: &[u8], prefix: &Prefix) -> bool
    ensures { result ≡ before pivots.now prefix.now }
{
    for (place, pivot) in prefix.as_slice().iter().enumerate() {
        if place >= pivots.len() {
            return false;
        }
        if pivots[place] != *pivot {
            return pivots[place] < *pivot;
        }
    }
    false
}
