//! The closing of a hall whose places were all absorbed into one.
ghost use Rattle.std.specs.Prelude.{◌≡◌, ◌≤◌, ◌+◌, [], IfErr, IfOk, drop, length, map, slice_index_or, take, vec_capacity, None};
ghost use Rattle.std.specs.List.{AllByRecursion};
ghost use Rattle.mi_core.specs.State.{State};
ghost use Rattle.mi_entries.specs.Records.{held_by};
ghost use Rattle.mi_latch.specs.Layout.{cells};
ghost use Rattle.mi_latch.specs.Takes.{IsShard};
ghost use Rattle.mi_world.specs.Families.{ClaimsNothing};
ghost use Rattle.mi_hall.specs.Absorbed.{most};
ghost use Rattle.mi_hall.specs.Closing.{Closes, HasRoom, IsLast, page_in};
ghost use Rattle.mi_hall.specs.Families.{board_in};
ghost use Rattle.mi_hall.specs.Seats.{rows_in, seat_view};

use crate::absorbed::{count_up, place};
use crate::passes::Pass;
use crate::places::Hall;
use mi_base::NoMemory;
use mi_board::Board;
use mi_latch::Slot;
use mi_page::Page;
use mi_shard::ShardRows;
use mi_solo::Solo;
use mi_solo::cores::Core;
use mi_solo::rows::ActorRow;
use mi_solo::shards::ShardRow;
use std::alloc::Global;

/// How many shards there are.
const SHARDS: usize = 16;

/// How many slots lie before the first page: the board, and the sixteen shards.
const BEFORE: usize = 17;

/// A hall that was not closed, with the pass that would have closed it.
#[derive(Drop)]
pub struct HallBack {
    pub hall: Hall,
    pub pass: Pass,
}

/// Where the values of a hall go that is closed.
struct Room {
    values: Vec<Slot>,
    shards: Vec<ShardRow>,
    pages: Vec<Option<Page>>,
    rows: Vec<ActorRow>,
}

impl Hall {
    /// The core, in the turn of the pass's actor, once all others were absorbed. Where memory is wanted,
    /// hall and pass stay as they are.
    pub fn close(self, alloc: Global, pass: Pass) -> Result<Solo, HallBack>
        requires hall { pass.table ≡ self }
        requires idle { ClaimsNothing (seat_view pass.sight) }
        requires last { IsLast (seat_view pass.sight) }
        ensures ok { IfOk result (λ solo. Closes (seat_view pass.sight) solo) }
        ensures err { IfErr result (λ back. (back.hall ≡ self) × (back.pass ≡ pass)) }
    {
        let count = count_up(pass.actor as usize + 1, &pass.gone);
        let Ok(room) = make_room(alloc, self.latches.slot_count(), count) else {
            return Err(HallBack { hall: self, pass });
        };
        let Room {
            values,
            shards,
            pages,
            rows,
        } = room;
        let Hall { latches } = self;
        let Pass {
            seat,
            actor,
            row,
            rows: _rows,
            told: _told,
            at: _at,
            alloc: _alloc,
            gone,
        } = pass;
        let rows = place(rows, gone, actor, row);
        let core = core_of(latches.close(seat, values), shards, pages, rows);
        Ok(Solo::of_core(alloc, core, actor))
    }
}

/// Takes the room for the values of so many slots, and for the rows of so many actors.
fn make_room(alloc: Global, slots: usize, actors: usize) -> Result<Room, NoMemory>
    requires { 17 ≤ slots }
    ensures { IfOk result (λ room. HasRoom slots actors room) }
{
    let mut rows = Vec::new(alloc);
    for _ in 0..actors {
        rows.push(ActorRow::first(alloc))?;
    }
    Ok(Room {
        values: Vec::with_capacity(alloc, slots)?,
        shards: Vec::with_capacity(alloc, SHARDS)?,
        pages: Vec::with_capacity(alloc, slots - BEFORE)?,
        rows,
    })
}

/// The core that has these values and rows. It takes no memory.
fn core_of(
    values: Vec<Slot>,
    shards: Vec<ShardRow>,
    pages: Vec<Option<Page>>,
    rows: Vec<ActorRow>,
) -> Core
    requires values { (c : State) × (values.items ≡ cells c) × (length c.shards ≡ 16) }
    requires shards { (shards.items ≡ []) × (16 ≤ vec_capacity shards) }
    requires pages { (pages.items ≡ []) × (length values.items ≤ vec_capacity pages + 17) }
    ensures board { result.board ≡ board_in (slice_index_or values.items 0 Slot.Vacant) }
    ensures shards { result.shards.items
        ≡ map (λ x. held_by None (rows_in x)) (take 16 (drop 1 values.items)) }
    ensures pages { result.pages.items ≡ map page_in (drop 17 values.items) }
    ensures actors { result.actors.items ≡ rows.items }
{
    let mut values = values;
    let mut shards = shards;
    let mut pages = pages;
    move_pages(&mut values, &mut pages);
    move_shards(&mut values, &mut shards);
    let Some(Slot::OfBoard(board)) = values.pop() else {
        unreachable!();
    };
    Core {
        board,
        shards,
        pages,
        actors: rows,
    }
}

/// Moves the pages out, which lie behind the shards.
fn move_pages(values: &mut Vec<Slot>, pages: &mut Vec<Option<Page>>)
    requires some { 17 ≤ length values.old.items }
    requires room { (pages.old.items ≡ [])
        × (length values.old.items ≤ vec_capacity pages.old + 17) }
    ensures stay { values.new.items ≡ take 17 values.old.items }
    ensures moved { pages.new.items ≡ map page_in (drop 17 values.old.items) }
{
    for value in values.drain(BEFORE..) {
        pages.push_reserved(page_of(value));
    }
}

/// Moves the shards out, which lie behind the board. Nobody holds them.
fn move_shards(values: &mut Vec<Slot>, shards: &mut Vec<ShardRow>)
    requires some { 1 ≤ length values.old.items }
    requires shards { AllByRecursion IsShard (drop 1 values.old.items) }
    requires room { (shards.old.items ≡ [])
        × (length values.old.items ≤ vec_capacity shards.old + 1) }
    ensures stay { values.new.items ≡ take 1 values.old.items }
    ensures moved { shards.new.items
        ≡ map (λ x. held_by None (rows_in x)) (drop 1 values.old.items) }
{
    for value in values.drain(1..) {
        shards.push_reserved(ShardRow::free(rows_of(value)));
    }
}

/// The page of a slot.
fn page_of(value: Slot) -> Option<Page>
    ensures { result ≡ page_in value }
{
    match value {
        Slot::OfPage(page) => Some(page),
        _ => None,
    }
}

/// The rows of a shard's slot.
fn rows_of(value: Slot) -> ShardRows
    requires { IsShard value }
    ensures { result ≡ rows_in value }
{
    match value {
        Slot::OfShard(rows) => rows,
        _ => unreachable!(),
    }
}
