//! A pass's sections of a shard, and of the board with a shard in hand.
ghost use Rattle.std.specs.Prelude.{◌≡◌, ◌<◌, ◌+◌, IsSome, None, Some, length};
ghost use Rattle.atomic_table.specs.Table.{rest};
ghost use Rattle.mi_board.specs.Boards.{BoardState};
ghost use Rattle.mi_latch.specs.Shows.{Returns};
ghost use Rattle.mi_latch.specs.Views.{Doing, HoldsLast};
ghost use Rattle.mi_world.specs.Boards.{Reserves};
ghost use Rattle.mi_world.specs.Claims.{ClaimsShard, ReleasesShard};
ghost use Rattle.mi_hall.specs.Passes.{giving};
ghost use Rattle.mi_hall.specs.Seats.{seat_view};
ghost use Rattle.mi_hall.specs.ShardHolds.{ReservesRow, holding, releasing};

use crate::passes::Pass;
use mi_base::Id;
use mi_board::Board;
use mi_latch::{Aim, LatchTable, Seat, Slot};
use mi_shard::ShardRows;
use mi_solo::rows::ActorRow;
use mi_solo::shards::{record_in, reserve_in};
use mi_tree::{Look, ReserveRefusal};
use mi_world::ShardClaim;
use std::marker::Brand;
use std::sync::Wait;

impl Pass {
    /// Takes the shard of the identifier, unless another actor holds it. It doesn't wait.
    pub(crate) fn claim_shard(&mut self, latches: &LatchTable, id: Id) -> ShardClaim
        requires table { self.old.table ≡ latches.now.table.shared.table_id }
        requires free { (seat_view self.old.sight).shard ≡ None }
        ensures table { self.new.table ≡ self.old.table }
        ensures told { ClaimsShard (seat_view self.old.sight) (seat_view self.new.sight) id result }
    {
        let number = (id.get() % 16) as u32;
        match latches.try_shard(&mut self.seat, number, self.actor) {
            Ok(rows) => {
                let kept = record_in(&rows, id);
                self.rows = Some(rows);
                self.row.take_shard(number);
                ShardClaim::Taken { kept }
            }
            Err(by) => {
                self.row.miss_shard(number, Some(by));
                ShardClaim::Held
            }
        }
    }

    /// Lets go of the shard.
    pub(crate) fn release_shard(&mut self, latches: &LatchTable)
        requires table { self.old.table ≡ latches.now.table.shared.table_id }
        requires held { IsSome (seat_view self.old.sight).shard }
        ensures table { self.new.table ≡ self.old.table }
        ensures told { ReleasesShard (seat_view self.old.sight) (seat_view self.new.sight) }
    {
        let Some(shard) = self.row.shard else {
            unreachable!();
        };
        let Some(rows) = self.rows.take() else {
            unreachable!();
        };
        // The shard is one of the sixteen.
        latches.learn(&mut self.seat);
        self.row.leave_shard();
        give_shard::<Brand>(latches, &mut self.seat, shard, rows);
    }

    /// Reserves room for one update, once the board is free.
    pub(crate) fn reserve<R: Wait>(
        &mut self,
        rt: &R,
        latches: &LatchTable,
    ) -> Result<Look, ReserveRefusal>
        requires table { self.old.table ≡ latches.now.table.shared.table_id }
        requires held { IsSome (seat_view self.old.sight).shard }
        ensures table { self.new.table ≡ self.old.table }
        ensures told { Reserves (seat_view self.old.sight) (seat_view self.new.sight) result }
    {
        let Some(rows) = &mut self.rows else {
            unreachable!();
        };
        let mut board = latches.take_board(rt, &mut self.seat, self.actor);
        let result = reserve_row(self.actor, &mut board, rows, &mut self.row);
        self.at = board.look().at;
        give_beside_rows::<Brand>(latches, &mut self.seat, &self.row, self.told, board, rows);
        result
    }
}

/// Puts the rows of its shard back, which nobody holds then.
fn give_shard<E: Aim>(latches: &LatchTable, seat: &mut Seat, shard: u32, rows: ShardRows)
    requires aim { E.next ≡ releasing seat.old.me.0 }
    requires table { seat.old.table_id ≡ latches.now.table.shared.table_id }
    requires near { shard < 16 }
    requires holds { seat.old.me.0.mine.part.shard ≡ Some shard }
    requires last { HoldsLast seat.old.me (shard + 1) (Slot.OfShard rows) }
    ensures table { (seat.new.table_id ≡ seat.old.table_id) × (seat.new.id ≡ seat.old.id) }
    ensures gave { seat.new.me ≡ (releasing seat.old.me.0, rest seat.old.me.1) }
{
    latches.give::<E>(seat, shard as usize + 1, Slot::OfShard(rows));
}

/// Takes room on the board and among the rows in hand for one update of the actor of the row.
fn reserve_row(
    actor: u32,
    board: &mut Board,
    rows: &mut ShardRows,
    row: &mut ActorRow,
) -> Result<Look, ReserveRefusal>
    requires known { actor < length board.old.actors }
    ensures { ReservesRow actor board.old rows.old row.old result board.new rows.new row.new }
{
    let floor = board.look().floor;
    match reserve_in(rows, board, actor) {
        Ok(look) => {
            row.reserve(board, floor);
            Ok(look)
        }
        Err(refusal) => {
            row.see(board);
            Err(refusal)
        }
    }
}

/// Puts the board back, which is the event that leads to this row and to these rows of the shard
/// in hand.
fn give_beside_rows<E: Aim>(
    latches: &LatchTable,
    seat: &mut Seat,
    row: &ActorRow,
    told: bool,
    board: Board,
    rows: &ShardRows,
)
    requires aim { E.next ≡ giving seat.old.me.0 row.now board told
        (holding row.now.shard rows.now) }
    requires table { seat.old.table_id ≡ latches.now.table.shared.table_id }
    requires last { (was : BoardState) × HoldsLast seat.old.me 0 (Slot.OfBoard was) }
    requires returns { Returns seat.old.me.0 (giving seat.old.me.0 row.now board told
        (holding row.now.shard rows.now)) 0 }
    requires does { Doing latches.now.table.shared.key seat.old.me.0
        (giving seat.old.me.0 row.now board told (holding row.now.shard rows.now))
        0 (Slot.OfBoard board) }
    ensures table { (seat.new.table_id ≡ seat.old.table_id) × (seat.new.id ≡ seat.old.id) }
    ensures gave { seat.new.me ≡ (
      giving seat.old.me.0 row.now board told
          (holding row.now.shard rows.now),
      rest seat.old.me.1,
    ) }
{
    let _row = row;
    let _told = told;
    let _rows = rows;
    latches.give::<E>(seat, 0, Slot::OfBoard(board));
}
