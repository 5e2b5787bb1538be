//! The rule of the table, and what its steps tell.
use crate::slots::Slot;
use crate::view::View;
use atomic_table::{Join, Play, Split, TableRule};
use mi_base::Settings;
use std::marker::{Brand, PhantomData};

/// The rule of the table of these settings.
pub struct Latches;

impl TableRule<Slot, View, Settings> for Latches {
    ghost use Rattle.mi_latch.specs.Views.{Latched, newcomer};

    ghost holds = { Latched };

    ghost first = { newcomer };
}

/// Which settings a table has. Each call picks it.
pub trait Of {
    ghost use Rattle.mi_base.specs.Configuration.{Configuration};

    ghost settings: { Configuration };
}

impl Of for Brand {
    ghost use Rattle.mi_latch.specs.Views.{no_settings};

    ghost settings = { no_settings };
}

/// A try to take a page or the board, of the table of these settings.
pub struct TryOpen<E>(PhantomData<E>);

impl<E: Of> Play<Slot, View> for TryOpen<E> {
    ghost use Rattle.mi_latch.specs.Shows.{Took};
    ghost use Rattle.mi_latch.specs.Takes.{Finds, miss_none, missed_none, see_none};

    ghost then = { λ st m found n. Took see_none (Finds E.settings) miss_none missed_none m st.word found n };
}

/// Which settings a table has, and which shard is tried. Each call picks it.
pub trait OfShard {
    ghost use Rattle.std.specs.Prelude.{ℕ};
    ghost use Rattle.mi_base.specs.Configuration.{Configuration};

    ghost settings: { Configuration };

    ghost shard: { ℕ };
}

impl OfShard for Brand {
    ghost use Rattle.mi_latch.specs.Views.{no_settings};

    ghost settings = { no_settings };

    ghost shard = { 0 };
}

/// A try to take a shard, of the table of these settings.
pub struct TryShard<E>(PhantomData<E>);

impl<E: OfShard> Play<Slot, View> for TryShard<E> {
    ghost use Rattle.mi_latch.specs.Shows.{Took};
    ghost use Rattle.mi_latch.specs.Takes.{Finds, miss_shard_at, missed_shard_at, see_shard};

    ghost then = { λ st m found n. Took (see_shard E.shard) (Finds E.settings) (miss_shard_at E.shard) missed_shard_at m st.word found n };
}

/// What a seat knows after a give. Each call picks it.
pub trait Aim {
    ghost use Rattle.mi_latch.specs.Views.{Sight};

    ghost next: { Sight };
}

impl Aim for Brand {
    ghost use Rattle.mi_latch.specs.Views.{newcomer, no_settings};

    ghost next = { newcomer no_settings };
}

/// A give, after which the seat knows what the call aimed at.
pub struct Give<E>(PhantomData<E>);

impl<E: Aim> Play<Slot, View> for Give<E> {
    ghost use Rattle.std.specs.Prelude.{◌≡◌};
    ghost use Rattle.atomic_table.specs.Table.{rest};

    ghost then = { λ st m found n. n ≡ (E.next, rest m.1) };
}

/// How the actor that a seat's actor made gets a seat of its own.
pub struct Parting;

impl Split<View> for Parting {
    ghost use Rattle.mi_latch.specs.Shows.{child, parting};

    ghost left = { parting };

    ghost right = { child };
}

/// How one seat takes in another, whose actor is over then.
pub struct Joining;

impl Join<View> for Joining {
    ghost use Rattle.mi_latch.specs.Ends.{blend, over};
    ghost use Rattle.mi_latch.specs.Shows.{joined, spent};
    ghost use Rattle.mi_latch.specs.Views.{first_mine, no_settings};

    ghost both = { joined blend over };

    ghost spent = { spent (first_mine no_settings) };
}
