//! Sections of the board with a page and the rows of a shard in hand.
ghost use Rattle.std.specs.Prelude.{◌≡◌, ◌<◌, ◌+◌, ◌∷◌};
ghost use Rattle.atomic_table.specs.Table.{rest};
ghost use Rattle.mi_board.specs.Boards.{BoardState};
ghost use Rattle.mi_latch.specs.Boths.{HoldsCommit};
ghost use Rattle.mi_latch.specs.Views.{Doing};
ghost use Rattle.mi_page.specs.Nodes.{Node};
ghost use Rattle.mi_entries.specs.Records.{Rows, home};
ghost use Rattle.mi_hall.specs.Commits.{commits_to, committing};

use mi_base::Id;
use mi_board::Board;
use mi_latch::{Aim, LatchTable, Seat, Slot};
use mi_page::Page;
use mi_shard::ShardRows;
use mi_solo::rows::ActorRow;

/// Puts the board back beside a page and the rows of the identifier's shard, which is the event
/// that leads to this row, and then the page.
pub(crate) fn give_both<E: Aim>(
    latches: &LatchTable,
    seat: &mut Seat,
    row: &ActorRow,
    board: Board,
    page: u32,
    node: Page,
    id: Id,
    rows: &ShardRows,
)
    requires aim { E.next ≡ committing seat.old.me.0 row.now board page node (home id) rows.now }
    requires table { (seat.old.table_id ≡ latches.now.table.shared.table_id)
        × (page < latches.now.table.shared.key.pages) }
    requires held { (was : BoardState) × (had : Node) × (x : Rows)
        × HoldsCommit seat.old.me was page had (home id) x }
    requires also { rest seat.old.me.1 ≡ (page + 17, Slot.Vacant) ∷ rest (rest seat.old.me.1) }
    requires does { Doing latches.now.table.shared.key seat.old.me.0
        (committing seat.old.me.0 row.now board page node (home id) rows.now) 0
        (Slot.OfBoard board) }
    ensures table { (seat.new.table_id ≡ seat.old.table_id) × (seat.new.id ≡ seat.old.id) }
    ensures gave { seat.new.me ≡ (
      commits_to seat.old.me.0 row.now board node (home id) rows.now,
      rest (rest seat.old.me.1),
    ) }
{
    let _row = row;
    let _id = id;
    let _rows = rows;
    latches.give::<E>(seat, 0, Slot::OfBoard(board));
    latches.give_page_back(seat, page, node);
}
