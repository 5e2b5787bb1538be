//! The commit of an insert by a pass.
ghost use Rattle.std.specs.Prelude.{◌≡◌};
ghost use Rattle.mi_base.specs.History.{end_of};
ghost use Rattle.atomic_table.specs.Table.{rest};
ghost use Rattle.mi_board.specs.Boards.{BoardState};
ghost use Rattle.mi_latch.specs.Shows.{Returns};
ghost use Rattle.mi_latch.specs.Views.{Doing, HoldsLast};
ghost use Rattle.mi_world.specs.Pages.{CommitsInsert, MayInsert, MaySeek};
ghost use Rattle.mi_hall.specs.CommitRows.{giving_beside};
ghost use Rattle.mi_hall.specs.Seats.{seat_view};

use crate::page_calls::give_page;
use crate::passes::Pass;
use mi_base::{Dists, Id, Position, Vector};
use mi_board::Board;
use mi_latch::{Aim, LatchTable, Seat, Slot};
use mi_page::Page;
use mi_shard::ShardRows;
use mi_solo::insert_rows::{insert_row, key_of_row};
use mi_solo::rows::ActorRow;
use mi_world::Commit;
use std::marker::Brand;
use std::sync::Wait;

impl Pass {
    /// Enters the insert into the log and its entry into the page, once page and board are free.
    pub(crate) fn commit_insert<R: Wait>(
        &mut self,
        rt: &R,
        latches: &LatchTable,
        page: u32,
        op: u32,
        id: Id,
        vector: &Vector,
        dists: &Dists,
    ) -> Commit
        requires table { self.old.table ≡ latches.now.table.shared.table_id }
        requires ready { MayInsert (seat_view self.old.sight) id vector.now dists.now.items }
        requires seeks { MaySeek (seat_view self.old.sight) page dists.now.items id }
        ensures table { self.new.table ≡ self.old.table }
        ensures told { CommitsInsert (seat_view self.old.sight) (seat_view self.new.sight) page op
            id vector.now dists.now.items result }
    {
        let mut node = latches.take_page(rt, &mut self.seat, page, self.actor);
        if node.level() > 0 {
            let key = key_of_row(&latches.settings, &self.row, dists, id, 0);
            let child = node.child(key);
            self.row.note(page);
            give_page::<Brand>(latches, &mut self.seat, &self.row, page, node);
            return Commit::Down { page: child };
        }
        let mut board = latches.take_board(rt, &mut self.seat, self.actor);
        let Some(rows) = &mut self.rows else {
            unreachable!();
        };
        let shard = (id.get() % 16) as u32;
        let row = &mut self.row;
        let answer = insert_row(
            self.actor, page, op, id, vector, dists, &mut board, &mut node, rows, row,
        );
        let at = &mut self.at;
        give_beside_page::<Brand>(
            latches,
            &mut self.seat,
            row,
            at,
            board,
            page,
            &node,
            shard,
            rows,
        );
        give_page::<Brand>(latches, &mut self.seat, row, page, node);
        answer
    }
}

/// Puts the board back, which is the event that leads to this row. The page and the rows of the
/// shard are still in hand, as they are after it.
fn give_beside_page<E: Aim>(
    latches: &LatchTable,
    seat: &mut Seat,
    row: &ActorRow,
    at: &mut Position,
    board: Board,
    page: u32,
    node: &Page,
    shard: u32,
    rows: &ShardRows,
)
    requires aim { E.next ≡ giving_beside seat.old.me.0 row.now board page node.now shard rows.now }
    requires table { seat.old.table_id ≡ latches.now.table.shared.table_id }
    requires last { (was : BoardState) × HoldsLast seat.old.me 0 (Slot.OfBoard was) }
    requires returns { Returns seat.old.me.0
        (giving_beside seat.old.me.0 row.now board page node.now shard rows.now) 0 }
    requires does { Doing latches.now.table.shared.key seat.old.me.0
        (giving_beside seat.old.me.0 row.now board page node.now shard rows.now) 0
        (Slot.OfBoard board) }
    ensures table { (seat.new.table_id ≡ seat.old.table_id) × (seat.new.id ≡ seat.old.id) }
    ensures gave { seat.new.me ≡ (giving_beside seat.old.me.0 row.now board page node.now shard rows.now, rest seat.old.me.1) }
    ensures at { at.new ≡ end_of board.log }
{
    let _row = row;
    let _page = page;
    let _node = node;
    let _shard = shard;
    let _rows = rows;
    *at = board.look().at;
    latches.give::<E>(seat, 0, Slot::OfBoard(board));
}
