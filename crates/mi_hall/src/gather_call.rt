//! A pass's gather of a page.
ghost use Rattle.std.specs.Prelude.{◌≡◌, ◌≤◌, IsTrue};
ghost use Rattle.mi_world.specs.Splits.{Gathers, MayGather, gather_key};
ghost use Rattle.mi_hall.specs.Passes.{turning};
ghost use Rattle.mi_hall.specs.Seats.{seat_view};

use crate::page_calls::give_page;
use crate::passes::Pass;
use mi_base::NoMemory;
use mi_latch::LatchTable;
use mi_solo::gather_rows::gather_row;
use mi_world::Visit;
use std::marker::Brand;
use std::sync::Wait;

impl Pass {
    /// Gathers what the page has of the leaf that its actor claims, once the page is free, if it is
    /// the next one that may have some.
    pub(crate) fn gather<R: Wait>(
        &mut self,
        rt: &R,
        latches: &LatchTable,
        page: u32,
    ) -> Result<Visit, NoMemory>
        requires table { self.old.table ≡ latches.now.table.shared.table_id }
        requires leaf { MayGather (seat_view self.old.sight) }
        requires named { IsTrue ((seat_view self.old.sight).named page) }
        requires low { (seat_view self.old.sight).low page
            ≤ gather_key (seat_view self.old.sight) }
        ensures table { self.new.table ≡ self.old.table }
        ensures told { Gathers (seat_view self.old.sight) (seat_view self.new.sight) page result }
    {
        let node = latches.take_page(rt, &mut self.seat, page, self.actor);
        let answer = gather_row(self.alloc, &latches.settings, &node, &mut self.row, page);
        give_page::<Brand>(latches, &mut self.seat, &self.row, page, node);
        answer
    }
}
