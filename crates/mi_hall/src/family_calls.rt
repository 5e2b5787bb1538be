//! The making and the ending of actors.
ghost use Rattle.std.specs.Prelude.{◌≡◌, ◌||◌, ℕ, [], true, cond, nat_le, IfOk, OnErr, max};
ghost use Rattle.mi_base.specs.Configuration.{Configuration};
ghost use Rattle.mi_board.specs.Actors.{actor_at};
ghost use Rattle.mi_board.specs.Boards.{open_count};
ghost use Rattle.mi_core.specs.Events.{first_actor};
ghost use Rattle.mi_solo.specs.States.{actor_of};
ghost use Rattle.mi_world.specs.Families.{Absorbs, ClaimsNothing, Forked, NotForked};
ghost use Rattle.mi_hall.specs.Families.{Sees};
ghost use Rattle.mi_hall.specs.Seats.{seat_view};

use crate::absorbed::{keep, spare};
use crate::passes::{Pass, give_board};
use crate::places::Place;
use mi_base::{NoMemory, Position};
use mi_latch::{LatchTable, Slot};
use mi_solo::rows::ActorRow;
use std::alloc::Global;
use std::marker::Brand;
use std::sync::Wait;

impl Pass {
    /// Makes another actor, which has seen what this one has, and gets the pass of it.
    pub(crate) fn fork<R: Wait>(
        &mut self,
        alloc: Global,
        rt: &R,
        latches: &LatchTable,
    ) -> Result<Pass, NoMemory>
        requires table { self.old.table ≡ latches.now.table.shared.table_id }
        ensures table { self.new.table ≡ self.old.table }
        ensures kin { IfOk result (λ child. child.table ≡ self.old.table) }
        ensures ok { IfOk result (λ child. Forked (seat_view self.old.sight) (seat_view self.new.sight) (seat_view child.sight)) }
        ensures err { OnErr result (NotForked (seat_view self.old.sight) (seat_view self.new.sight)) }
    {
        let gone = spare(alloc)?;
        let mut board = latches.take_board(rt, &mut self.seat, self.actor);
        let added = board.add_actor();
        self.row.see(&board);
        let Ok(actor) = added else {
            give_board::<Brand>(
                latches,
                &mut self.seat,
                &self.row,
                self.told,
                &mut self.at,
                board,
            );
            return Err(NoMemory);
        };
        self.at = board.look().at;
        latches.give::<Brand>(&mut self.seat, 0, Slot::OfBoard(board));
        let seat = latches.split_seat(&mut self.seat);
        Ok(Pass {
            seat,
            actor,
            row: made_row(alloc, &self.row),
            rows: None,
            told: self.told,
            at: self.at,
            alloc: self.alloc,
            gone,
        })
    }

    /// Ends the actor of the other pass, which claims nothing. This one has seen what both have.
    pub(crate) fn absorb<R: Wait>(&mut self, rt: &R, latches: &LatchTable, other: Pass)
        requires table { (self.old.table ≡ latches.now.table.shared.table_id) × (other.table ≡ self.old.table) }
        requires idle { ClaimsNothing (seat_view other.sight) }
        ensures table { self.new.table ≡ self.old.table }
        ensures told { Absorbs (seat_view self.old.sight) (seat_view other.sight) (seat_view self.new.sight) }
    {
        let Pass {
            seat,
            actor,
            row,
            rows: _rows,
            told,
            at,
            alloc: _alloc,
            gone,
        } = other;
        let mut seat = seat;
        latches.learn(&mut seat);
        // With the board out, what both saw is a part of one log that is known.
        let board = latches.take_board(rt, &mut self.seat, self.actor);
        latches.join_seat(&mut self.seat, seat);
        latches.learn(&mut self.seat);
        latches.give_board_back(&mut self.seat, board);
        self.at = longer_end(self.row.seen, self.at, row.seen, at);
        join_rows(&mut self.row, &row);
        self.told = any_told(self.told, told);
        keep(rt, &mut self.gone, actor, row, gone);
    }

    /// Leaves: its actor isn't counted among the open ones any more.
    pub(crate) fn depart<R: Wait>(&mut self, rt: &R, latches: &LatchTable)
        requires table { self.old.table ≡ latches.now.table.shared.table_id }
        ensures table { self.new.table ≡ self.old.table }
        ensures told { Sees (seat_view self.old.sight) (seat_view self.new.sight) }
        ensures gone { (actor_at self.new.sight.mine.note.board.actors self.new.sight.actor).departed ≡ true }
    {
        let mut board = latches.take_board(rt, &mut self.seat, self.actor);
        board.depart(self.actor);
        self.row.see(&board);
        give_board::<Brand>(
            latches,
            &mut self.seat,
            &self.row,
            self.told,
            &mut self.at,
            board,
        );
    }

    /// How many of the actors haven't left.
    pub(crate) fn open_actors<R: Wait>(&mut self, rt: &R, latches: &LatchTable) -> u32
        requires table { self.old.table ≡ latches.now.table.shared.table_id }
        ensures table { self.new.table ≡ self.old.table }
        ensures told { Sees (seat_view self.old.sight) (seat_view self.new.sight) }
        ensures count { result ≡ open_count self.new.sight.mine.note.board.actors }
    {
        let board = latches.take_board(rt, &mut self.seat, self.actor);
        let count = board.open_actors();
        self.row.see(&board);
        give_board::<Brand>(
            latches,
            &mut self.seat,
            &self.row,
            self.told,
            &mut self.at,
            board,
        );
        count
    }
}

impl<'h, R: Wait> Place<'h, R> {
    /// Leaves: the actor isn't counted among the open ones any more.
    pub fn depart(&mut self)
        ensures table { self.new.table ≡ self.old.table }
        ensures told { Sees (seat_view self.old.sight) (seat_view self.new.sight) }
        ensures gone { (actor_at self.new.sight.mine.note.board.actors self.new.sight.actor).departed ≡ true }
    {
        let hall = self.hall;
        self.pass.depart(self.rt, &hall.latches);
    }

    /// How many of the actors haven't left.
    pub fn open_actors(&mut self) -> u32
        ensures table { self.new.table ≡ self.old.table }
        ensures told { Sees (seat_view self.old.sight) (seat_view self.new.sight) }
        ensures count { result ≡ open_count self.new.sight.mine.note.board.actors }
    {
        let hall = self.hall;
        self.pass.open_actors(self.rt, &hall.latches)
    }
}

/// The row of an actor that was just made, which has seen what its maker has.
fn made_row(alloc: Global, maker: &ActorRow) -> ActorRow
    ensures { (settings : Configuration) (a : ℕ) → actor_of settings [] a result ≡ record first_actor { seen = maker.now.seen; floor = maker.now.floor } }
{
    let mut row = ActorRow::first(alloc);
    row.seen = maker.seen;
    row.floor = maker.floor;
    row
}

/// The row of an actor that has seen what the other has, whose flags are its own now.
fn join_rows(row: &mut ActorRow, other: &ActorRow)
    ensures { row.new ≡ record row.old { seen = max row.old.seen other.now.seen; lacked = row.old.lacked || other.now.lacked; undone = row.old.undone || other.now.undone; early = row.old.early || other.now.early } }
{
    row.seen = row.seen.max(other.seen);
    row.lacked = row.lacked || other.lacked;
    row.undone = row.undone || other.undone;
    row.early = row.early || other.early;
}

/// The end of the longer of two logs, each with how many events it has.
fn longer_end(seen: usize, at: Position, other: usize, its: Position) -> Position
    ensures { result ≡ cond (nat_le seen other) its at }
{
    if seen <= other { its } else { at }
}

/// One of the two was told.
fn any_told(mine: bool, its: bool) -> bool
    ensures { result ≡ (mine || its) }
{
    mine || its
}
