//! A pass's copies of what is gathered of a leaf, made and taken back.
ghost use Rattle.std.specs.Prelude.{◌≡◌, ◌<◌, ◌≤◌, ◌-◌, IsTrue, false, length, true};
ghost use Rattle.mi_world.specs.Splits.{CopiesIn, IsGathered, Uncopies, last_copy, next_copy};
ghost use Rattle.mi_hall.specs.Passes.{turning};
ghost use Rattle.mi_hall.specs.Seats.{seat_view};

use crate::page_calls::give_page;
use crate::passes::Pass;
use mi_latch::LatchTable;
use mi_solo::leaf_rows::{copy_row, uncopy_row};
use mi_world::Put;
use std::marker::Brand;
use std::sync::Wait;

impl Pass {
    /// Copies the next gathered entry into the page, once it is free, if the copy's key lies there.
    pub(crate) fn copy_in<R: Wait>(&mut self, rt: &R, latches: &LatchTable, page: u32) -> Put
        requires table { self.old.table ≡ latches.now.table.shared.table_id }
        requires leaf { IsGathered (seat_view self.old.sight) }
        requires more { (seat_view self.old.sight).copied
            < length (seat_view self.old.sight).copies }
        requires named { IsTrue ((seat_view self.old.sight).named page) }
        requires low { (seat_view self.old.sight).low page ≤ next_copy (seat_view self.old.sight) }
        ensures table { self.new.table ≡ self.old.table }
        ensures told { CopiesIn (seat_view self.old.sight) (seat_view self.new.sight) page result }
    {
        let mut node = latches.take_page(rt, &mut self.seat, page, self.actor);
        let answer = copy_row(&latches.settings, &mut node, &mut self.row, page);
        give_page::<Brand>(latches, &mut self.seat, &self.row, page, node);
        answer
    }

    /// Takes the last copy off the page, once it is free, if the copy's key lies there.
    pub(crate) fn uncopy<R: Wait>(&mut self, rt: &R, latches: &LatchTable, page: u32) -> Put
        requires table { self.old.table ≡ latches.now.table.shared.table_id }
        requires splitting { (seat_view self.old.sight).splitting ≡ true }
        requires some { 0 < (seat_view self.old.sight).copied }
        requires named { IsTrue ((seat_view self.old.sight).named page) }
        requires low { (seat_view self.old.sight).low page ≤ last_copy (seat_view self.old.sight) }
        ensures table { self.new.table ≡ self.old.table }
        ensures told { Uncopies (seat_view self.old.sight) (seat_view self.new.sight) page result }
    {
        let mut node = latches.take_page(rt, &mut self.seat, page, self.actor);
        let answer = uncopy_row(&latches.settings, &mut node, &mut self.row, page, self.told);
        give_page::<Brand>(latches, &mut self.seat, &self.row, page, node);
        answer
    }
}
