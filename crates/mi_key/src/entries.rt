//! Entries, and what they are offered to.
ghost use Rattle.std.specs.Prelude.{◌≡◌, ℕ, ◌+◌, ◌≤◌, ◌↔◌, List, [], ◌∷◌, ◌++◌, OnOk, OnErr};
ghost use Rattle.mi_key.specs.declared.entries.Entry.{Entry};
ghost use Rattle.mi_key.specs.Entries.{Offering, offering_of};

use crate::Key;
use mi_base::{Dists, NoMemory, Vector};

/// An object under its key, with its distances to the pivots, the number of its insert, and that of its delete.
#[derive(Drop)]
pub struct Entry {
    /// The key that the entry stands under.
    pub key: Key,
    /// The object's vector.
    pub vector: Vector,
    /// The distances to the pivots, in the order of their numbers.
    pub dists: Dists,
    /// The number of the insert among the updates, from 1.
    pub birth: u32,
    /// The number of the delete among the updates, if there was one.
    pub death: Option<u32>,
}

/// What keeps of the entries that it is offered what it wants.
pub trait Sieve {
    /// How many entries it has room for.
    ghost spare: { Self → ℕ };

    /// Which entries it takes.
    ghost takes: { Self → Entry → Type 0 };

    /// What offering these in this order made of it.
    ghost offered: { Self → List Offering → Self → Type 0 };

    /// Makes room for 32 entries.
    fn room(&mut self) -> Result<(), NoMemory>
        ensures ok { OnOk result (32 ≤ spare self.new) }
        ensures err { OnErr result (spare self.new ≡ spare self.old) }
        ensures same { offered self.old [] self.new }
        ensures takes { (e : Entry) → takes self.new e ↔ takes self.old e };

    /// Takes no memory.
    fn offer(&mut self, entry: &Entry)
        requires spare { 1 ≤ spare self.old }
        requires taken { takes self.old entry.now }
        ensures used { spare self.old ≤ spare self.new + 1 }
        ensures offered { offered self.old (offering_of entry.now ∷ []) self.new }
        ensures takes { (e : Entry) → takes self.new e ↔ takes self.old e };

    ghost none: { (s : Self) → offered s [] s };

    ghost more: { (s t u : Self) (xs ys : List Offering) → offered s xs t → offered t ys u → offered s (xs ++ ys) u };

    ghost takes_on: { (s t : Self) (xs : List Offering) (e : Entry) → offered s xs t → takes s e → takes t e };
}
