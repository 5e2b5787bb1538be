//! Actors that are made from one another.
ghost use Rattle.std.specs.Prelude.{◌≡◌, IfOk, OnErr};
ghost use Rattle.mi_world.specs.Families.{Absorbs, ClaimsNothing, Forked, NotForked};

use crate::World;
use mi_base::NoMemory;
use std::alloc::Global;

/// An actor that makes others of the same opening, and ends them.
pub trait Forks: World + Sized {
    /// The two stem from one opening.
    ghost kin: { Self → Self → Type 0 };

    /// Another actor of the same opening, which has seen what this one has.
    fn fork(&mut self, alloc: Global) -> Result<Self, NoMemory>
        ensures ok { IfOk result (λ child. Forked (Self.view self.old) (Self.view self.new) (Self.view child)) }
        ensures kin { IfOk result (λ child. kin self.new child) }
        ensures err { OnErr result (NotForked (Self.view self.old) (Self.view self.new)) }
        ensures section { Self.section self.old self.new };

    /// Ends the other actor. This one has seen what both have.
    fn absorb(&mut self, other: Self)
        requires kin { kin self.old other }
        requires idle { ClaimsNothing (Self.view other) }
        ensures told { Absorbs (Self.view self.old) (Self.view other) (Self.view self.new) }
        ensures section { Self.section self.old self.new };

    /// A section leaves an actor of the same opening.
    ghost stays: { (v w : Self) → Self.World.section v w → kin v w };

    ghost back: { (v w : Self) → kin v w → kin w v };

    ghost on: { (u v w : Self) → kin u v → kin v w → kin u w };
}
