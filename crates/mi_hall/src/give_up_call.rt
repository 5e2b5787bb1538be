//! A pass's section that gives a split up.
ghost use Rattle.std.specs.Prelude.{◌≡◌, IsSome, IsTrue};
ghost use Rattle.mi_world.specs.Splits.{GivesUp, copied_in};
ghost use Rattle.mi_hall.specs.Seats.{seat_view};

use crate::passes::{Pass, give_board};
use mi_latch::LatchTable;
use std::marker::Brand;
use std::sync::Wait;

impl Pass {
    /// Ends the split and the claim of the leaf, once the board is free. For want of pages the leaf
    /// is passed over from then on.
    pub(crate) fn give_up<R: Wait>(&mut self, rt: &R, latches: &LatchTable, pages: bool)
        requires table { self.old.table ≡ latches.now.table.shared.table_id }
        requires claimed { IsSome (seat_view self.old.sight).leaf }
        requires none { copied_in (seat_view self.old.sight) ≡ 0 }
        requires told { IsTrue pages → IsTrue (seat_view self.old.sight).told }
        ensures table { self.new.table ≡ self.old.table }
        ensures told { GivesUp (seat_view self.old.sight) (seat_view self.new.sight) pages }
    {
        let mut board = latches.take_board(rt, &mut self.seat, self.actor);
        board.give_up(self.actor, pages);
        self.row.end_split(&board);
        give_board::<Brand>(
            latches,
            &mut self.seat,
            &self.row,
            self.told,
            &mut self.at,
            board,
        );
    }
}
