//! The commit of a delete by a pass.
ghost use Rattle.std.specs.Prelude.{◌≡◌, ◌≤◌, ◌==◌, IsTrue};
ghost use Rattle.std.specs.List.{find};
ghost use Rattle.mi_solo.specs.Seeking.{HasSibling};
ghost use Rattle.mi_solo.specs.Viewing.{record_shown};
ghost use Rattle.mi_world.specs.Pages.{CommitsDelete, MayDelete, delete_key, key_of_record};
ghost use Rattle.mi_hall.specs.Commits.{DeletesRow, FitsKey, MayEnterDelete, SeeksRow};
ghost use Rattle.mi_hall.specs.Seats.{seat_view};

use crate::commit_gives::give_both;
use crate::page_calls::give_page;
use crate::passes::Pass;
use mi_base::{Id, Settings};
use mi_board::Board;
use mi_key::Key;
use mi_latch::LatchTable;
use mi_page::Page;
use mi_perm::permutation;
use mi_shard::ShardRows;
use mi_solo::keying::key_of_object;
use mi_solo::rows::ActorRow;
use mi_solo::seeking::{Way, seek};
use mi_tree::CommitRefusal;
use mi_world::Commit;
use std::marker::Brand;
use std::sync::Wait;

impl Pass {
    /// Enters the delete into the log and its number into the entry, once the page is free, and the
    /// board where the key lies in the page.
    pub(crate) fn commit_delete<R: Wait>(
        &mut self,
        rt: &R,
        latches: &LatchTable,
        page: u32,
        op: u32,
        id: Id,
    ) -> Commit
        requires table { self.old.table ≡ latches.now.table.shared.table_id }
        requires ready { MayDelete (seat_view self.old.sight) id }
        requires named { IsTrue ((seat_view self.old.sight).named page) }
        requires low { (seat_view self.old.sight).low page
            ≤ delete_key (seat_view self.old.sight) id }
        ensures table { self.new.table ≡ self.old.table }
        ensures told { CommitsDelete (seat_view self.old.sight) (seat_view self.new.sight) page op
            id result }
    {
        let Some(rows) = &mut self.rows else {
            unreachable!();
        };
        let mut node = latches.take_page(rt, &mut self.seat, page, self.actor);
        let key = kept_key(&latches.settings, &self.row, rows, id);
        if let Some(answer) = seek_row(&node, &mut self.row, page, key) {
            give_page::<Brand>(latches, &mut self.seat, &self.row, page, node);
            return answer;
        }
        let mut board = latches.take_board(rt, &mut self.seat, self.actor);
        let row = &mut self.row;
        let answer = delete_row(
            &mut board, &mut node, rows, row, self.actor, page, op, id, key,
        );
        self.at = board.look().at;
        give_both::<Brand>(
            latches,
            &mut self.seat,
            &self.row,
            board,
            page,
            node,
            id,
            rows,
        );
        answer
    }
}

/// The key of the identifier's record under the leaf that the row claims.
fn kept_key(settings: &Settings, row: &ActorRow, rows: &ShardRows, id: Id) -> Key
    requires { FitsKey settings.now row.now rows.now id }
    ensures { result ≡ key_of_record settings.now row.now.claim id
        (record_shown (find (λ x. x.id == id) rows.now.records)) }
{
    let Some(leaf) = &row.claim else {
        unreachable!();
    };
    let Some(kept) = rows.record(id) else {
        unreachable!();
    };
    key_of_object(settings, leaf, &kept.dists, id, kept.birth)
}

/// Where the way of the key goes on from the page in hand, which is noted then, if it goes on.
fn seek_row(node: &Page, row: &mut ActorRow, page: u32, key: Key) -> Option<Commit>
    requires low { node.now.low ≤ key }
    requires sibling { HasSibling node.now }
    ensures { SeeksRow page key node.now row.old result row.new }
{
    match seek(node, 0, key) {
        Way::Down { page: child } => {
            row.note(page);
            Some(Commit::Down { page: child })
        }
        Way::Right { page: next } => {
            row.note(page);
            Some(Commit::Right { page: next })
        }
        Way::Here => None,
    }
}

/// Enters the delete into the log and its number into the entry, if the log has room, and takes the
/// identifier's record out.
fn delete_row(
    board: &mut Board,
    node: &mut Page,
    rows: &mut ShardRows,
    row: &mut ActorRow,
    actor: u32,
    page: u32,
    op: u32,
    id: Id,
    key: Key,
) -> Commit
    requires { MayEnterDelete actor id key board.old node.old rows.old }
    ensures { DeletesRow actor page op id key board.old node.old rows.old row.old result board.new
        node.new rows.new row.new }
{
    let Some(kept) = rows.record(id) else {
        unreachable!();
    };
    let perm = permutation(&kept.dists);
    match board.commit_delete(actor, op, id, &perm) {
        Err(CommitRefusal::Full { limit }) => {
            row.meet(board, page);
            Commit::Full { limit }
        }
        Err(CommitRefusal::Crowded) => unreachable!(),
        Ok(number) => {
            node.mark_death(key, number);
            rows.remove(id);
            row.commit(board, page);
            Commit::Done { number }
        }
    }
}
