//! A seat's sections of the board that claim a leaf, let go of one, and give a splitter its work.
ghost use Rattle.std.specs.Prelude.{◌≡◌, IsSome, None, false, length};
ghost use Rattle.mi_world.specs.Boards.{GivesWork};
ghost use Rattle.mi_world.specs.Claims.{ClaimsLeaf, ReleasesLeaf};
ghost use Rattle.mi_hall.specs.Seats.{seat_view};

use crate::passes::{Pass, give_board};
use mi_base::Perm;
use mi_latch::LatchTable;
use mi_solo::board_rows::{claim_row, work_row};
use mi_tree::{LeafClaim, Work};
use std::marker::Brand;
use std::sync::Wait;

impl Pass {
    /// Claims the leaf of the permutation, unless another actor does, once the board is free.
    pub(crate) fn claim_leaf<R: Wait>(
        &mut self,
        rt: &R,
        latches: &LatchTable,
        perm: &Perm,
    ) -> LeafClaim
        requires table { self.old.table ≡ latches.now.table.shared.table_id }
        requires long { length perm.now ≡ length (seat_view self.old.sight).settings.pivots }
        requires free { (seat_view self.old.sight).leaf ≡ None }
        requires idle { (seat_view self.old.sight).sweep ≡ None }
        ensures table { self.new.table ≡ self.old.table }
        ensures told { ClaimsLeaf (seat_view self.old.sight) (seat_view self.new.sight)
            perm.now result }
    {
        // What its numbers are is known of a permutation that is read.
        perm.as_slice();
        let mut board = latches.take_board(rt, &mut self.seat, self.actor);
        let claim = claim_row(self.actor, perm, &mut board, &mut self.row);
        give_board::<Brand>(
            latches,
            &mut self.seat,
            &self.row,
            self.told,
            &mut self.at,
            board,
        );
        claim
    }

    /// Ends the claim of the leaf, once the board is free.
    pub(crate) fn release_leaf<R: Wait>(&mut self, rt: &R, latches: &LatchTable)
        requires table { self.old.table ≡ latches.now.table.shared.table_id }
        requires claimed { IsSome (seat_view self.old.sight).leaf }
        requires whole { (seat_view self.old.sight).splitting ≡ false }
        ensures table { self.new.table ≡ self.old.table }
        ensures told { ReleasesLeaf (seat_view self.old.sight) (seat_view self.new.sight) }
    {
        let mut board = latches.take_board(rt, &mut self.seat, self.actor);
        board.release_leaf(self.actor);
        self.row.leave_leaf(&board);
        give_board::<Brand>(
            latches,
            &mut self.seat,
            &self.row,
            self.told,
            &mut self.at,
            board,
        );
    }

    /// Gives it what a splitter has to do next, once the board is free.
    pub(crate) fn next_work<R: Wait>(&mut self, rt: &R, latches: &LatchTable) -> Work
        requires table { self.old.table ≡ latches.now.table.shared.table_id }
        requires free { (seat_view self.old.sight).leaf ≡ None }
        requires idle { (seat_view self.old.sight).sweep ≡ None }
        ensures table { self.new.table ≡ self.old.table }
        ensures told { GivesWork (seat_view self.old.sight) (seat_view self.new.sight) result }
    {
        let mut board = latches.take_board(rt, &mut self.seat, self.actor);
        let work = work_row(self.actor, &mut board, &mut self.row);
        give_board::<Brand>(
            latches,
            &mut self.seat,
            &self.row,
            self.told,
            &mut self.at,
            board,
        );
        work
    }
}
