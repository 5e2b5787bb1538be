//! The names of cells.
ghost use Rattle.std.specs.Prelude.{◌≡◌, ◌<◌, ◌≤◌, ◌==◌, Some, length, take, IfSome, IfNone, IsTrue, slice_get, false, []};
ghost use Rattle.mi_base.specs.Permutations.{begins};
ghost use Rattle.mi_base.specs.Prefixes.{is_prefix};

use crate::{MAX_LEVELS, MAX_PIVOTS, Perm};
use arrayvec::ArrayVec;
use std::marker::Model;

/// Up to 6 pivot numbers from 0 to 31, none twice.
#[derive(Drop)]
pub struct Prefix {
    pivots: ArrayVec<u8, MAX_LEVELS>,
}

impl Model for Prefix {
    ghost use Rattle.std.specs.Prelude.{List, ℕ, IsTrue};
    ghost use Rattle.mi_base.specs.Prefixes.{is_prefix};

    ghost Value = { List ℕ };

    ghost view = { λ p. p.pivots.items };

    ghost invariant = { λ p. IsTrue (is_prefix p.pivots.items) };
}

impl Prefix {
    /// The prefix of no pivots, which each permutation begins with.
    pub fn empty() -> Prefix
        ensures { result ≡ [] }
    {
        Prefix {
            pivots: ArrayVec::new(),
        }
    }

    /// None exactly where there are more than 6 items, an item above 31, or a repeat. It takes no memory.
    pub fn new(items: &[u8]) -> Option<Prefix>
        ensures some { IfSome result (λ p. (p ≡ items.now) × IsTrue (is_prefix items.now)) }
        ensures none { IfNone result (is_prefix items.now ≡ false) }
    {
        if items.len() > MAX_LEVELS {
            return None;
        }
        let mut pivots = ArrayVec::new();
        for item in items {
            if usize::from(*item) >= MAX_PIVOTS || pivots.as_slice().contains(item) {
                return None;
            }
            pivots.push(*item);
        }
        Some(Prefix { pivots })
    }

    /// The first `depth` pivots of the permutation. It takes no memory.
    pub fn of(perm: &Perm, depth: usize) -> Prefix
        requires few { depth ≤ MAX_LEVELS }
        requires within { depth ≤ length perm.now }
        ensures { result ≡ take depth perm.now }
    {
        let mut pivots = ArrayVec::new();
        for pivot in &perm.as_slice()[..depth] {
            pivots.push(*pivot);
        }
        Prefix { pivots }
    }

    /// The permutation begins with these pivots.
    pub fn begins(&self, perm: &Perm) -> bool
        ensures { result ≡ begins self.now perm.now }
    {
        perm.as_slice().starts_with(self.as_slice())
    }

    /// How many pivots there are, at most 6.
    pub fn len(&self) -> usize
        ensures { result ≡ length self.now }
    {
        self.pivots.len()
    }

    /// There are no pivots.
    pub fn is_empty(&self) -> bool
        ensures { result ≡ (length self.now == 0) }
    {
        self.pivots.is_empty()
    }

    /// The number of the pivot at a place, from 0.
    pub fn at(&self, place: usize) -> u8
        requires { place < length self.now }
        ensures { slice_get self.now place ≡ Some result }
    {
        self.pivots[place]
    }

    /// The numbers of the pivots in their order.
    pub fn as_slice(&self) -> &[u8]
        ensures same { result.now ≡ self.now }
        ensures prefix { IsTrue (is_prefix self.now) }
    {
        self.pivots.as_slice()
    }

    /// The same prefix again. It takes no memory.
    pub fn copy(&self) -> Prefix
        ensures { result ≡ self.now }
    {
        let mut pivots = ArrayVec::new();
        for pivot in self.pivots.as_slice() {
            pivots.push(*pivot);
        }
        Prefix { pivots }
    }
}
