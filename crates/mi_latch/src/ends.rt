//! The table is opened and closed, and seats are made and joined.
ghost use Rattle.std.specs.Prelude.{◌≡◌, ◌≤◌, ◌+◌, ◌-◌, ◌++◌, ℕ, [], ◌∷◌, true, IfOk, OnOk, length, replicate, slice_index_or, vec_capacity};
ghost use Rattle.std.specs.Mem.Slots.{slots_items, slots_len, IsFull};
ghost use Rattle.mi_base.specs.Configuration.{metric_space};
ghost use Rattle.mi_base.specs.Space.{IsMetric};
ghost use Rattle.mi_core.specs.Events.{opened};
ghost use Rattle.mi_latch.specs.Ends.{IsBare, Leaves, blend, over};
ghost use Rattle.mi_latch.specs.Layout.{cells, no_rows};
ghost use Rattle.mi_latch.specs.Shows.{Covers, child, joined, parting};
ghost use Rattle.mi_latch.specs.Views.{Mine, newcomer};

use crate::latches::{Joining, Parting};
use crate::slots::Slot;
use crate::table::{LatchTable, Seat};
use atomic_table::{Closed, Table};
use mi_base::{NoMemory, Settings};
use mi_board::Board;
use mi_page::Page;
use mi_shard::ShardRows;
use std::alloc::Global;

/// How many slots lie before the first page: the board, and the sixteen shards.
const BEFORE: usize = 17;

/// How many shards there are.
const SHARDS: usize = 16;

impl LatchTable {
    /// A table for these settings, with page 0 alone and an empty log, and the seat of its first
    /// actor.
    pub fn open(alloc: Global, settings: &Settings) -> Result<(LatchTable, Seat), NoMemory>
        requires metric { IsMetric (metric_space settings.now) }
        ensures table { IfOk result (λ t. (t.1.table_id ≡ t.0.table.shared.table_id) × (t.0.table.shared.key ≡ settings.now)) }
        ensures seat { IfOk result (λ t. t.1.me ≡ (newcomer settings.now, [])) }
    {
        let slots = first_slots(alloc, settings)?;
        let words = zeros(alloc, settings.pages as usize + BEFORE)?;
        let Ok((table, seat)) = Table::new(alloc, words.as_slice(), slots, settings) else {
            return Err(NoMemory);
        };
        let settings = settings.copy(alloc)?;
        Ok((LatchTable { table, settings }, seat))
    }

    /// The seat of the actor that this seat's actor made last.
    pub fn split_seat(&self, seat: &mut Seat) -> Seat
        requires table { seat.old.table_id ≡ self.now.table.shared.table_id }
        requires born { (seat.old.me.0.live ≡ true) × ((k : ℕ) × (m : Mine) × (seat.old.me.0.born ≡ (k, m) ∷ [])) }
        ensures table { (seat.new.table_id ≡ seat.old.table_id) × (seat.new.id ≡ seat.old.id) × (result.table_id ≡ seat.old.table_id) }
        ensures left { seat.new.me ≡ (parting seat.old.me.0, seat.old.me.1) }
        ensures right { result.me ≡ (child seat.old.me.0, []) }
    {
        self.table.shared.split_seat::<Parting>(seat)
    }

    /// Takes another seat in, whose actor holds nothing, and is over then.
    pub fn join_seat(&self, seat: &mut Seat, other: Seat)
        requires table { (seat.old.table_id ≡ self.now.table.shared.table_id) × (other.table_id ≡ self.now.table.shared.table_id) }
        requires live { (seat.old.me.0.live ≡ true) × (other.me.0.live ≡ true) }
        requires unborn { (seat.old.me.0.born ≡ []) × (other.me.0.born ≡ []) }
        requires bare { (other.me.0.out ≡ []) × (other.me.1 ≡ []) × IsBare other.me.0.mine.part }
        ensures table { (seat.new.table_id ≡ seat.old.table_id) × (seat.new.id ≡ seat.old.id) }
        ensures joined { seat.new.me ≡ (joined blend over seat.old.me.0 other.me.0, seat.old.me.1) }
    {
        self.table.shared.join_seat::<Joining>(seat, other);
    }

    /// Takes all values out, in the order of the slots, where the seat stands for every actor and
    /// has nothing out. It takes no memory.
    pub fn close(self, seat: Seat, values: Vec<Slot>) -> Vec<Slot>
        requires table { seat.table_id ≡ self.table.shared.table_id }
        requires room { (values.items ≡ []) × (self.table.shared.key.pages + 17 ≤ vec_capacity values) }
        requires last { (seat.me.0.live ≡ true) × (seat.me.0.born ≡ []) × (seat.me.0.out ≡ []) × Covers seat.me.0 }
        ensures count { length result.items ≡ self.table.shared.key.pages + 17 }
        ensures leaves { Leaves self.table.shared.key (λ i. slice_index_or result.items i Slot.Vacant) seat.me.0 }
    {
        let LatchTable {
            table,
            settings: _settings,
        } = self;
        take_all(table.close_with(seat), values)
    }
}

/// All values of a table that no thread shares any more, in the order of its slots. It takes no
/// memory.
fn take_all(closed: Closed<Slot, Global>, values: Vec<Slot>) -> Vec<Slot>
    requires full { IsFull closed.slots }
    requires room { (values.items ≡ []) × (slots_len closed.slots ≤ vec_capacity values) }
    ensures { result.items ≡ slots_items closed.slots }
{
    let mut closed = closed;
    let mut values = values;
    let mut slot = 0;
    while slot < closed.slot_count() {
        values.push_reserved(closed.take(slot));
        slot += 1;
    }
    closed.free();
    values
}

/// The values of the slots at the opening.
fn first_slots(alloc: Global, settings: &Settings) -> Result<Vec<Slot>, NoMemory>
    ensures { IfOk result (λ slots. slots.items ≡ cells (opened settings.now 1 (settings.now.pages - 1))) }
{
    let mut slots = Vec::with_capacity(alloc, settings.pages as usize + BEFORE)?;
    slots.push(Slot::OfBoard(Board::open(alloc, settings, 1)?))?;
    push_shards(alloc, &mut slots)?;
    slots.push(Slot::OfPage(Page::fresh(alloc)?))?;
    push_vacant(&mut slots, settings.pages as usize - 1)?;
    Ok(slots)
}

/// Sixteen shards without records.
fn push_shards(alloc: Global, slots: &mut Vec<Slot>) -> Result<(), NoMemory>
    ensures { OnOk result (slots.new.items ≡ slots.old.items ++ replicate 16 (Slot.OfShard no_rows)) }
{
    for _ in 0..SHARDS {
        slots.push(Slot::OfShard(ShardRows::new(alloc)))?;
    }
    Ok(())
}

/// So many slots without a page.
fn push_vacant(slots: &mut Vec<Slot>, count: usize) -> Result<(), NoMemory>
    ensures { OnOk result (slots.new.items ≡ slots.old.items ++ replicate count Slot.Vacant) }
{
    for _ in 0..count {
        slots.push(Slot::Vacant)?;
    }
    Ok(())
}

/// So many words that are free.
fn zeros(alloc: Global, count: usize) -> Result<Vec<u64>, NoMemory>
    ensures { IfOk result (λ words. words.items ≡ replicate count 0) }
{
    let mut words = Vec::with_capacity(alloc, count)?;
    for _ in 0..count {
        words.push(0)?;
    }
    Ok(words)
}
