//! A seat's section of the board that enters a split into the log.
ghost use Rattle.std.specs.Prelude.{◌≡◌, length};
ghost use Rattle.mi_world.specs.Splits.{IsGathered, Publishes};
ghost use Rattle.mi_hall.specs.Seats.{seat_view};

use crate::passes::{Pass, give_board};
use mi_base::{NoMemory, Position};
use mi_latch::LatchTable;
use mi_solo::board_rows::publish_row;
use std::alloc::Global;
use std::marker::Brand;
use std::sync::Wait;

impl Pass {
    /// Enters the split of the claimed leaf into the log, which ends the claim, once the board is
    /// free.
    pub(crate) fn publish<R: Wait>(
        &mut self,
        rt: &R,
        latches: &LatchTable,
        alloc: Global,
    ) -> Result<Position, NoMemory>
        requires table { self.old.table ≡ latches.now.table.shared.table_id }
        requires leaf { IsGathered (seat_view self.old.sight) }
        requires all { (seat_view self.old.sight).copied
            ≡ length (seat_view self.old.sight).copies }
        ensures table { self.new.table ≡ self.old.table }
        ensures told { Publishes (seat_view self.old.sight) (seat_view self.new.sight) result }
    {
        let mut board = latches.take_board(rt, &mut self.seat, self.actor);
        let result = publish_row(alloc, self.actor, &mut board, &mut self.row);
        give_board::<Brand>(
            latches,
            &mut self.seat,
            &self.row,
            self.told,
            &mut self.at,
            board,
        );
        result
    }
}
