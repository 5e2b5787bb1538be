//! A pass's sweep of a page.
ghost use Rattle.std.specs.Prelude.{◌≡◌, ◌≤◌, IsSome, IsTrue};
ghost use Rattle.mi_world.specs.Splits.{Sweeps};
ghost use Rattle.mi_hall.specs.Passes.{turning};
ghost use Rattle.mi_hall.specs.Seats.{seat_view};

use crate::page_calls::give_page;
use crate::passes::Pass;
use mi_latch::LatchTable;
use mi_solo::leaf_rows::sweep_row;
use mi_world::Visit;
use std::marker::Brand;
use std::sync::Wait;

impl Pass {
    /// Takes the old entries of the leaf that is swept off the page, once it is free, if it is the
    /// next one that may have some.
    pub(crate) fn sweep<R: Wait>(&mut self, rt: &R, latches: &LatchTable, page: u32) -> Visit
        requires table { self.old.table ≡ latches.now.table.shared.table_id }
        requires given { IsSome (seat_view self.old.sight).sweep }
        requires named { IsTrue ((seat_view self.old.sight).named page) }
        requires low { (seat_view self.old.sight).low page ≤ (seat_view self.old.sight).swept }
        ensures table { self.new.table ≡ self.old.table }
        ensures told { Sweeps (seat_view self.old.sight) (seat_view self.new.sight) page result }
    {
        let mut node = latches.take_page(rt, &mut self.seat, page, self.actor);
        let answer = sweep_row(&latches.settings, &mut node, &mut self.row, page);
        give_page::<Brand>(latches, &mut self.seat, &self.row, page, node);
        answer
    }
}
