//! A pass's section that makes its fresh page the root.
ghost use Rattle.std.specs.Prelude.{◌≡◌, ◌<◌, IsSome, Some};
ghost use Rattle.atomic_table.specs.Table.{rest};
ghost use Rattle.mi_board.specs.Boards.{BoardState};
ghost use Rattle.mi_latch.specs.Shows.{Returns};
ghost use Rattle.mi_latch.specs.Views.{Doing, HoldsLast};
ghost use Rattle.mi_world.specs.Boards.{Grew};
ghost use Rattle.mi_world.specs.Pages.{IsChildAt};
ghost use Rattle.mi_hall.specs.Roots.{GrowsRow, raising};
ghost use Rattle.mi_hall.specs.Seats.{seat_view};

use crate::page_calls::give_vacant;
use crate::passes::{Pass, give_board};
use mi_board::Board;
use mi_key::Key;
use mi_latch::{Aim, LatchTable, Seat, Slot};
use mi_page::Page;
use mi_solo::rows::ActorRow;
use std::marker::Brand;
use std::sync::Wait;

impl Pass {
    /// Makes the fresh page the root of this level, with the routes of the old root and of the
    /// child, once the board is free, if that root is of the level below.
    pub(crate) fn grow<R: Wait>(
        &mut self,
        rt: &R,
        latches: &LatchTable,
        level: u32,
        key: Key,
        child: u32,
    ) -> bool
        requires table { self.old.table ≡ latches.now.table.shared.table_id }
        requires route { IsChildAt (seat_view self.old.sight) level key child }
        requires fresh { IsSome (seat_view self.old.sight).fresh }
        ensures table { self.new.table ≡ self.old.table }
        ensures told { Grew (seat_view self.old.sight) (seat_view self.new.sight) level child
            result }
    {
        let Some(fresh) = self.row.hand.fresh_number() else {
            unreachable!();
        };
        let vacant = latches.take_fresh(rt, &mut self.seat, fresh, self.actor);
        let mut board = latches.take_board(rt, &mut self.seat, self.actor);
        let Some(root) = grow_row(&mut board, &mut self.row, fresh, level, key, child) else {
            give_board::<Brand>(
                latches,
                &mut self.seat,
                &self.row,
                self.told,
                &mut self.at,
                board,
            );
            give_vacant::<Brand>(latches, &mut self.seat, fresh, vacant);
            return false;
        };
        self.at = board.look().at;
        give_raised::<Brand>(latches, &mut self.seat, &self.row, board, fresh, &root);
        latches.give_page_back(&mut self.seat, fresh, root);
        true
    }
}

/// Makes the fresh page in hand the root of this level, if the board's root is of the level below.
fn grow_row(
    board: &mut Board,
    row: &mut ActorRow,
    fresh: u32,
    level: u32,
    key: Key,
    child: u32,
) -> Option<Page>
    requires fresh { row.old.hand.fresh ≡ Some fresh }
    requires later_key { 0 < key }
    ensures { GrowsRow fresh level key child board.old row.old result board.new row.new }
{
    let left = board.look().root;
    if !board.grow(level, fresh) {
        row.see(board);
        return None;
    }
    let root = row.hand.raise(level, left, key, child);
    row.see(board);
    Some(root)
}

/// Puts the board back, which is the event that leads to this row. The page of its new root lies
/// in the place of the fresh page's slot then.
fn give_raised<E: Aim>(
    latches: &LatchTable,
    seat: &mut Seat,
    row: &ActorRow,
    board: Board,
    fresh: u32,
    root: &Page,
)
    requires aim { E.next ≡ raising seat.old.me.0 row.now board fresh root.now }
    requires table { seat.old.table_id ≡ latches.now.table.shared.table_id }
    requires last { (was : BoardState) × HoldsLast seat.old.me 0 (Slot.OfBoard was) }
    requires returns { Returns seat.old.me.0
        (raising seat.old.me.0 row.now board fresh root.now) 0 }
    requires does { Doing latches.now.table.shared.key seat.old.me.0
        (raising seat.old.me.0 row.now board fresh root.now) 0 (Slot.OfBoard board) }
    ensures table { (seat.new.table_id ≡ seat.old.table_id) × (seat.new.id ≡ seat.old.id) }
    ensures gave { seat.new.me
        ≡ (raising seat.old.me.0 row.now board fresh root.now, rest seat.old.me.1) }
{
    let _row = row;
    let _fresh = fresh;
    let _root = root;
    latches.give::<E>(seat, 0, Slot::OfBoard(board));
}
