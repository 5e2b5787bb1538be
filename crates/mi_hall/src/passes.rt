//! A seat between two calls, and its sections of the board.
ghost use Rattle.std.specs.Prelude.{◌≡◌, ◌<◌, [], IsSome, None, false, is_some};
ghost use Rattle.atomic_table.specs.Table.{rest};
ghost use Rattle.mi_board.specs.Boards.{BoardState, cells_in};
ghost use Rattle.mi_latch.specs.Views.{Doing, HoldsLast};
ghost use Rattle.mi_hall.specs.Absorbed.{IsSpare};
ghost use Rattle.mi_hall.specs.Passes.{giving, told_after};
ghost use Rattle.mi_base.specs.Configuration.{Configuration};
ghost use Rattle.mi_base.specs.History.{end_of};
ghost use Rattle.mi_latch.specs.Views.{newcomer};
ghost use Rattle.mi_world.specs.Boards.{Allots, Looks, Pins, Unpins};
ghost use Rattle.mi_world.specs.Pages.{pinned};
ghost use Rattle.mi_world.specs.Splits.{copied_in, gathered_in};
ghost use Rattle.mi_hall.specs.Seats.{seat_view};

use crate::absorbed::Gone;
use mi_base::{NoMemory, Position};
use mi_board::Board;
use mi_latch::{Aim, LatchTable, Seat, Slot};
use mi_shard::ShardRows;
use mi_solo::board_rows::{allot_row, pin_row};
use mi_solo::rows::ActorRow;
use mi_tree::{AllotRefusal, Catalog, Look};
use std::alloc::Global;
use std::collections::LinkedList;
use std::marker::{Brand, Model};
use std::sync::Wait;
use std::sync::ledger::Blank;

/// A place without its loan of the hall: its seat, the number and the row of its actor, the rows of
/// the shard that it holds, whether it was told that all pages are allotted, the end of the log that
/// it has seen, the allocator of what it gathers, and the rows of the actors that were absorbed into
/// it, after a spare place.
#[derive(Drop)]
pub struct Pass {
    pub(crate) seat: Seat,
    pub(crate) actor: u32,
    pub(crate) row: ActorRow,
    pub(crate) rows: Option<ShardRows>,
    pub(crate) told: bool,
    pub(crate) at: Position,
    pub(crate) alloc: Global,
    pub(crate) gone: LinkedList<Gone>,
}

impl Model for Pass {
    ghost use Rattle.mi_hall.specs.Absorbed.{HasGone};
    ghost use Rattle.mi_hall.specs.Passes.{AreNear, HasCells, HasWord, IsAt, IsPass, PassState};

    ghost Value = { PassState };

    ghost view = { λ p. record { sight = p.seat.me.0; table = p.seat.table_id } };

    ghost invariant = { λ p. IsPass p.seat.me p.actor p.row p.rows p.told
        × AreNear p.seat.table_id.words p.seat.me.0.mine.named × HasCells p.seat.me.0.mine
        × HasWord p.seat.table_id.words p.row.hand.fresh × IsAt p.at p.seat.me.0.mine
        × HasGone p.seat.me.0.absorbed p.gone };
}

impl Pass {
    /// The pass of the first actor, which has the first seat.
    pub(crate) fn first(alloc: Global, seat: Seat, gone: LinkedList<Gone>) -> Pass
        requires first { (settings : Configuration) × (seat.me ≡ (newcomer settings, [])) }
        requires near { 17 < seat.table_id.words }
        requires spare { IsSpare gone }
        ensures { result ≡ record { sight = seat.me.0; table = seat.table_id } }
    {
        Pass {
            seat,
            actor: 0,
            row: ActorRow::first(alloc),
            rows: None,
            told: false,
            at: Position {
                updates: 0,
                splits: 0,
            },
            alloc,
            gone,
        }
    }

    /// Sees the whole log, once the board is free.
    pub(crate) fn look<R: Wait>(&mut self, rt: &R, latches: &LatchTable) -> Look
        requires table { self.old.table ≡ latches.now.table.shared.table_id }
        ensures table { self.new.table ≡ self.old.table }
        ensures told { Looks (seat_view self.old.sight) (seat_view self.new.sight) result }
    {
        let board = latches.take_board(rt, &mut self.seat, self.actor);
        let look = board.look();
        self.row.look(&board);
        give_board::<Brand>(
            latches,
            &mut self.seat,
            &self.row,
            self.told,
            &mut self.at,
            board,
        );
        look
    }

    /// Pins the whole log, once the board is free.
    pub(crate) fn pin<R: Wait>(
        &mut self,
        rt: &R,
        latches: &LatchTable,
        alloc: Global,
    ) -> Result<Look, NoMemory>
        requires table { self.old.table ≡ latches.now.table.shared.table_id }
        requires free { (seat_view self.old.sight).pin ≡ None }
        ensures table { self.new.table ≡ self.old.table }
        ensures told { Pins (seat_view self.old.sight) (seat_view self.new.sight) result }
    {
        let mut board = latches.take_board(rt, &mut self.seat, self.actor);
        let blank = Blank::new(1);
        let result = pin_row::<Brand>(alloc, self.actor, &mut board, &mut self.row, blank);
        give_board::<Brand>(
            latches,
            &mut self.seat,
            &self.row,
            self.told,
            &mut self.at,
            board,
        );
        result
    }

    /// The cells of the pinned log.
    pub(crate) fn pinned(&self) -> &Catalog
        requires { IsSome (seat_view self.now.sight).pin }
        ensures { result.now ≡ cells_in (seat_view self.now.sight).settings (pinned (seat_view self.now.sight)) }
    {
        let Some(pin) = &self.row.pin else {
            unreachable!();
        };
        &pin.cells
    }

    /// Ends the pin, once the board is free.
    pub(crate) fn unpin<R: Wait>(&mut self, rt: &R, latches: &LatchTable)
        requires table { self.old.table ≡ latches.now.table.shared.table_id }
        requires pinned { IsSome (seat_view self.old.sight).pin }
        ensures table { self.new.table ≡ self.old.table }
        ensures told { Unpins (seat_view self.old.sight) (seat_view self.new.sight) }
    {
        let mut board = latches.take_board(rt, &mut self.seat, self.actor);
        board.unpin(self.actor);
        self.row.unpin(&board);
        give_board::<Brand>(
            latches,
            &mut self.seat,
            &self.row,
            self.told,
            &mut self.at,
            board,
        );
    }

    /// The number of its actor.
    pub(crate) fn number(&self) -> u32
        ensures { result ≡ (seat_view self.now.sight).actor }
    {
        self.actor
    }

    /// How many entries its split has gathered, 0 without one.
    pub(crate) fn gathered(&self) -> usize
        ensures { result ≡ gathered_in (seat_view self.now.sight) }
    {
        match &self.row.split {
            Some(work) => work.gathered.as_slice().len(),
            None => 0,
        }
    }

    /// How many of these it has copied, 0 without a split.
    pub(crate) fn copied(&self) -> usize
        ensures { result ≡ copied_in (seat_view self.now.sight) }
    {
        match &self.row.split {
            Some(work) => work.copied,
            None => 0,
        }
    }

    /// The end of the log that it has seen.
    pub(crate) fn seen(&self) -> Position
        ensures { result ≡ end_of (seat_view self.now.sight).seen }
    {
        self.at
    }

    /// Memory was wanted for a page.
    pub(crate) fn lacked(&self) -> bool
        ensures { result ≡ (seat_view self.now.sight).lacked }
    {
        self.row.lacked
    }

    /// A fresh page is in its hand.
    pub(crate) fn fresh(&self) -> bool
        ensures { result ≡ is_some (seat_view self.now.sight).fresh }
    {
        self.row.hand.has_fresh()
    }

    /// Takes a fresh page in hand, once the board is free.
    pub(crate) fn allot<R: Wait>(
        &mut self,
        rt: &R,
        latches: &LatchTable,
        alloc: Global,
    ) -> Result<(), AllotRefusal>
        requires table { self.old.table ≡ latches.now.table.shared.table_id }
        requires free { is_some (seat_view self.old.sight).fresh ≡ false }
        ensures table { self.new.table ≡ self.old.table }
        ensures told { Allots (seat_view self.old.sight) (seat_view self.new.sight) result }
    {
        let mut board = latches.take_board(rt, &mut self.seat, self.actor);
        let result = allot_row(alloc, &mut board, &mut self.row);
        self.told = told_by(&result, self.told);
        give_board::<Brand>(
            latches,
            &mut self.seat,
            &self.row,
            self.told,
            &mut self.at,
            board,
        );
        result
    }
}

/// Whether an actor was told that all pages are allotted, after this answer.
fn told_by(answer: &Result<(), AllotRefusal>, told: bool) -> bool
    ensures { result ≡ told_after answer.now told }
{
    match answer {
        Err(AllotRefusal::PagesFull { .. }) => true,
        Ok(()) | Err(AllotRefusal::Memory) => told,
    }
}

/// Puts the board back, which is the event that leads to this row.
pub(crate) fn give_board<E: Aim>(
    latches: &LatchTable,
    seat: &mut Seat,
    row: &ActorRow,
    told: bool,
    at: &mut Position,
    board: Board,
)
    requires aim { E.next ≡ giving seat.old.me.0 row.now board told (rest seat.old.me.0.out) }
    requires table { seat.old.table_id ≡ latches.now.table.shared.table_id }
    requires last { (was : BoardState) × HoldsLast seat.old.me 0 (Slot.OfBoard was) }
    requires does { Doing latches.now.table.shared.key seat.old.me.0
        (giving seat.old.me.0 row.now board told (rest seat.old.me.0.out)) 0 (Slot.OfBoard board) }
    ensures table { (seat.new.table_id ≡ seat.old.table_id) × (seat.new.id ≡ seat.old.id) }
    ensures gave { seat.new.me ≡ (giving seat.old.me.0 row.now board told (rest seat.old.me.0.out), rest seat.old.me.1) }
    ensures at { at.new ≡ end_of board.log }
{
    let _row = row;
    let _told = told;
    *at = board.look().at;
    latches.give::<E>(seat, 0, Slot::OfBoard(board));
}
