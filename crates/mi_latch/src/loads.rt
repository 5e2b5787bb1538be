//! What a seat knows is so at any time, and a load tells it.
ghost use Rattle.std.specs.Prelude.{◌≡◌};
ghost use Rattle.mi_latch.specs.Learning.{IsSo};

use crate::latches::Of;
use crate::slots::Slot;
use crate::table::{LatchTable, Seat};
use crate::view::View;
use atomic_table::Play;
use std::marker::{Brand, PhantomData};

/// A load that changes nothing, at a table of these settings.
pub struct Learn<E>(PhantomData<E>);

impl<E: Of> Play<Slot, View> for Learn<E> {
    ghost use Rattle.std.specs.Prelude.{◌≡◌};
    ghost use Rattle.mi_latch.specs.Learning.{IsSo};

    ghost then = { λ st m found n. (n ≡ m) × IsSo E.settings m.0 };
}

impl LatchTable {
    // Learns that what the seat knows is so.
    fn load_board_word<E: Of>(&self, seat: &mut Seat)
        requires of { E.settings ≡ self.now.table.shared.key }
        requires table { seat.old.table_id ≡ self.now.table.shared.table_id }
        ensures table { (seat.new.table_id ≡ seat.old.table_id) × (seat.new.id ≡ seat.old.id) }
        ensures same { seat.new.me ≡ seat.old.me }
        ensures told { IsSo E.settings seat.old.me.0 }
    {
        self.table.shared.load::<Learn<E>>(seat, 0);
    }

    /// Learns that what the seat knows is so. It doesn't wait.
    pub fn learn(&self, seat: &mut Seat)
        requires table { seat.old.table_id ≡ self.now.table.shared.table_id }
        ensures table { (seat.new.table_id ≡ seat.old.table_id) × (seat.new.id ≡ seat.old.id) }
        ensures same { seat.new.me ≡ seat.old.me }
        ensures told { IsSo self.now.table.shared.key seat.old.me.0 }
    {
        self.load_board_word::<Brand>(seat);
    }
}
