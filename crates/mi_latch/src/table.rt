//! The table of latched values: takes, and gives.
ghost use Rattle.std.specs.Prelude.{◌≡◌, ◌≢◌, ◌<◌, ◌+◌, ℕ, [], ◌∷◌, true, None, MatchOption, MatchResult};
ghost use Rattle.atomic_table.specs.Table.{rest};
ghost use Rattle.mi_page.specs.Nodes.{Node};
ghost use Rattle.mi_latch.specs.Noting.{Notes};
ghost use Rattle.mi_latch.specs.Shows.{Returns, with_mine};
ghost use Rattle.mi_latch.specs.Takes.{Finds, IsBoard, IsPage, IsPlain, IsShard, noting_holder, see_none, see_shard, took};
ghost use Rattle.mi_latch.specs.Views.{Doing, HoldsLast, IsOne, now};
ghost use Rattle.mi_core.specs.Named.{Named};

use crate::latches::{Aim, Give, Latches, Of, OfShard, TryOpen, TryShard};
use crate::slots::Slot;
use crate::view::View;
use atomic_table::Table;
use mi_base::Settings;
use mi_board::Board;
use mi_page::Page;
use mi_shard::ShardRows;
use std::alloc::Global;
use std::marker::Brand;
use std::sync::Wait;
use std::thread;

/// A seat at the table.
pub type Seat = atomic_table::Seat<Slot, View>;

/// The table of latched values. Slot 0 has the board, slot k + 1 the shard k, slot p + 17 the page
/// p.
#[derive(Drop)]
pub struct LatchTable {
    // Nobody above makes steps of his own here: so what a seat notes is what a give told it.
    pub(crate) table: Table<Slot, View, Settings, Latches, Global>,
    /// The settings of its board, which need no take.
    pub settings: Settings,
    pub ghost words: { table.shared.table_id.words ≡ table.shared.key.pages + 17 },
    pub ghost slots: { table.shared.table_id.slots ≡ table.shared.key.pages + 17 },
    pub ghost same: { settings ≡ table.shared.key },
}

impl LatchTable {
    /// How many slots it has: one for the board, sixteen for the shards, one for each page.
    pub fn slot_count(&self) -> usize
        ensures { result ≡ self.now.table.shared.table_id.slots }
    {
        self.table.slot_count()
    }

    // Takes the value of a page or of the board out, where no seat has it.
    fn try_open<E: Of>(&self, seat: &mut Seat, slot: usize, actor: u32) -> Option<Slot>
        requires of { E.settings ≡ self.now.table.shared.key }
        requires table { (seat.old.table_id ≡ self.now.table.shared.table_id) × (slot < self.now.table.shared.key.pages + 17) }
        requires seat { (seat.old.me.0.live ≡ true) × (seat.old.me.0.actor ≡ actor) }
        requires plain { IsPlain slot }
        ensures table { (seat.new.table_id ≡ seat.old.table_id) × (seat.new.id ≡ seat.old.id) }
        ensures took { MatchOption result (seat.new.me ≡ seat.old.me) (λ x. (seat.new.me ≡ took see_none seat.old.me slot x) × Finds E.settings seat.old.me.0 slot x × HoldsLast seat.new.me slot x) }
    {
        let shared = &self.table.shared;
        if shared.compare_exchange::<TryOpen<E>>(seat, slot, 0, actor as u64 + 1) == 0 {
            Some(shared.exchange(seat, slot, Slot::Vacant))
        } else {
            None
        }
    }

    // Waits for a page or the board, and takes its value out.
    fn take_slot<E: Of, R: Wait>(&self, rt: &R, seat: &mut Seat, slot: usize, actor: u32) -> Slot
        requires of { E.settings ≡ self.now.table.shared.key }
        requires table { (seat.old.table_id ≡ self.now.table.shared.table_id) × (slot < self.now.table.shared.key.pages + 17) }
        requires seat { (seat.old.me.0.live ≡ true) × (seat.old.me.0.actor ≡ actor) }
        requires plain { IsPlain slot }
        ensures table { (seat.new.table_id ≡ seat.old.table_id) × (seat.new.id ≡ seat.old.id) }
        ensures took { seat.new.me ≡ took see_none seat.old.me slot result }
        ensures told { Finds E.settings seat.old.me.0 slot result }
        ensures last { HoldsLast seat.new.me slot result }
    {
        for _ in rt.forever() {
            if let Some(value) = self.try_open::<E>(seat, slot, actor) {
                return value;
            }
            thread::yield_now();
        }
        unreachable!()
    }

    /// Waits for the board, and takes it out.
    pub fn take_board<R: Wait>(&self, rt: &R, seat: &mut Seat, actor: u32) -> Board
        requires table { seat.old.table_id ≡ self.now.table.shared.table_id }
        requires seat { (seat.old.me.0.live ≡ true) × (seat.old.me.0.actor ≡ actor) }
        ensures table { (seat.new.table_id ≡ seat.old.table_id) × (seat.new.id ≡ seat.old.id) }
        ensures took { seat.new.me ≡ took see_none seat.old.me 0 (Slot.OfBoard result) }
        ensures told { Finds self.now.table.shared.key seat.old.me.0 0 (Slot.OfBoard result) }
        ensures last { HoldsLast seat.new.me 0 (Slot.OfBoard result) }
    {
        board_of(self.take_slot::<Brand, R>(rt, seat, 0, actor))
    }

    /// Waits for a page that the actor was told of, and takes it out.
    pub fn take_page<R: Wait>(&self, rt: &R, seat: &mut Seat, page: u32, actor: u32) -> Page
        requires table { (seat.old.table_id ≡ self.now.table.shared.table_id) × (page < self.now.table.shared.key.pages) }
        requires seat { (seat.old.me.0.live ≡ true) × (seat.old.me.0.actor ≡ actor) }
        requires named { (y : Named) × (y.page ≡ page) × IsOne y seat.old.me.0.mine.named }
        ensures table { (seat.new.table_id ≡ seat.old.table_id) × (seat.new.id ≡ seat.old.id) }
        ensures took { seat.new.me ≡ took see_none seat.old.me (page + 17) (Slot.OfPage result) }
        ensures told { Finds self.now.table.shared.key seat.old.me.0 (page + 17) (Slot.OfPage result) }
        ensures last { HoldsLast seat.new.me (page + 17) (Slot.OfPage result) }
    {
        page_of(self.take_slot::<Brand, R>(rt, seat, page as usize + 17, actor))
    }

    /// Waits for the slot of any page, and takes what lies there out: nothing, where the page isn't
    /// linked.
    pub fn take_fresh<R: Wait>(&self, rt: &R, seat: &mut Seat, page: u32, actor: u32) -> Slot
        requires table { (seat.old.table_id ≡ self.now.table.shared.table_id) × (page < self.now.table.shared.key.pages) }
        requires seat { (seat.old.me.0.live ≡ true) × (seat.old.me.0.actor ≡ actor) }
        ensures table { (seat.new.table_id ≡ seat.old.table_id) × (seat.new.id ≡ seat.old.id) }
        ensures took { seat.new.me ≡ took see_none seat.old.me (page + 17) result }
        ensures told { Finds self.now.table.shared.key seat.old.me.0 (page + 17) result }
        ensures last { HoldsLast seat.new.me (page + 17) result }
    {
        self.take_slot::<Brand, R>(rt, seat, page as usize + 17, actor)
    }

    // Takes the value of a shard out, where no seat has it; else who has it.
    fn try_rows<E: OfShard>(
        &self,
        seat: &mut Seat,
        shard: u32,
        actor: u32,
    ) -> Result<ShardRows, u32>
        requires of { (E.settings ≡ self.now.table.shared.key) × (E.shard ≡ shard) }
        requires table { seat.old.table_id ≡ self.now.table.shared.table_id }
        requires seat { (seat.old.me.0.live ≡ true) × (seat.old.me.0.actor ≡ actor) }
        requires idle { seat.old.me.0.mine.part.shard ≡ None }
        requires near { shard < 16 }
        ensures table { (seat.new.table_id ≡ seat.old.table_id) × (seat.new.id ≡ seat.old.id) }
        ensures took { MatchResult result
            (λ rows. (seat.new.me ≡ took (see_shard shard) seat.old.me (shard + 1) (Slot.OfShard rows)) × Finds E.settings seat.old.me.0 (shard + 1) (Slot.OfShard rows) × HoldsLast seat.new.me (shard + 1) (Slot.OfShard rows))
            (λ by. (seat.new.me ≡ (with_mine seat.old.me.0 (noting_holder shard by seat.old.me.0.mine), seat.old.me.1)) × (by ≢ actor)) }
    {
        let shared = &self.table.shared;
        let slot = shard as usize + 1;
        let found = shared.compare_exchange::<TryShard<E>>(seat, slot, 0, actor as u64 + 1);
        if found == 0 {
            Ok(rows_of(shared.exchange(seat, slot, Slot::Vacant)))
        } else {
            Err((found - 1) as u32)
        }
    }

    /// Takes a shard, which its actor claims then, or tells who has it. It doesn't wait.
    pub fn try_shard(&self, seat: &mut Seat, shard: u32, actor: u32) -> Result<ShardRows, u32>
        requires table { seat.old.table_id ≡ self.now.table.shared.table_id }
        requires seat { (seat.old.me.0.live ≡ true) × (seat.old.me.0.actor ≡ actor) }
        requires idle { seat.old.me.0.mine.part.shard ≡ None }
        requires near { shard < 16 }
        ensures table { (seat.new.table_id ≡ seat.old.table_id) × (seat.new.id ≡ seat.old.id) }
        ensures took { MatchResult result
            (λ rows. (seat.new.me ≡ took (see_shard shard) seat.old.me (shard + 1) (Slot.OfShard rows)) × Finds self.now.table.shared.key seat.old.me.0 (shard + 1) (Slot.OfShard rows) × HoldsLast seat.new.me (shard + 1) (Slot.OfShard rows))
            (λ by. (seat.new.me ≡ (with_mine seat.old.me.0 (noting_holder shard by seat.old.me.0.mine), seat.old.me.1)) × (by ≢ actor)) }
    {
        self.try_rows::<Brand>(seat, shard, actor)
    }

    /// Puts a value back. It is the event that leads to what the call aims at, or none.
    pub fn give<E: Aim>(&self, seat: &mut Seat, slot: usize, value: Slot)
        requires table { (seat.old.table_id ≡ self.now.table.shared.table_id) × (slot < self.now.table.shared.key.pages + 17) }
        requires held { seat.old.me.1 ≡ (slot, Slot.Vacant) ∷ rest seat.old.me.1 }
        requires returns { Returns seat.old.me.0 E.next slot }
        requires does { Doing self.now.table.shared.key seat.old.me.0 E.next slot value }
        // Of what it notes nothing is made up.
        requires notes { Notes seat.old.me.0 value E.next }
        ensures table { (seat.new.table_id ≡ seat.old.table_id) × (seat.new.id ≡ seat.old.id) }
        ensures gave { seat.new.me ≡ (E.next, rest seat.old.me.1) }
    {
        let shared = &self.table.shared;
        let _vacant = shared.exchange(seat, slot, value);
        shared.store::<Give<E>>(seat, slot, 0);
    }

    // The same, where nothing but the slots that are out changes in what the seat knows.
    fn give_back<E: Aim>(&self, seat: &mut Seat, slot: usize, value: Slot)
        requires aim { E.next ≡ now seat.old.me.0 seat.old.me.0.mine (rest seat.old.me.0.out) }
        requires table { (seat.old.table_id ≡ self.now.table.shared.table_id) × (slot < self.now.table.shared.key.pages + 17) }
        requires plain { IsPlain slot }
        requires last { HoldsLast seat.old.me slot value }
        ensures table { (seat.new.table_id ≡ seat.old.table_id) × (seat.new.id ≡ seat.old.id) }
        ensures gave { seat.new.me ≡ (now seat.old.me.0 seat.old.me.0.mine (rest seat.old.me.0.out), rest seat.old.me.1) }
    {
        self.give::<E>(seat, slot, value);
    }

    /// Puts the board back as it was taken: no event.
    pub fn give_board_back(&self, seat: &mut Seat, board: Board)
        requires table { seat.old.table_id ≡ self.now.table.shared.table_id }
        requires last { HoldsLast seat.old.me 0 (Slot.OfBoard board) }
        ensures table { (seat.new.table_id ≡ seat.old.table_id) × (seat.new.id ≡ seat.old.id) }
        ensures gave { seat.new.me ≡ (now seat.old.me.0 seat.old.me.0.mine (rest seat.old.me.0.out), rest seat.old.me.1) }
    {
        self.give_back::<Brand>(seat, 0, Slot::OfBoard(board));
    }

    /// Puts a page back as the seat's view has it: no event.
    pub fn give_page_back(&self, seat: &mut Seat, page: u32, value: Page)
        requires table { (seat.old.table_id ≡ self.now.table.shared.table_id) × (page < self.now.table.shared.key.pages) }
        requires last { HoldsLast seat.old.me (page + 17) (Slot.OfPage value) }
        ensures table { (seat.new.table_id ≡ seat.old.table_id) × (seat.new.id ≡ seat.old.id) }
        ensures gave { seat.new.me ≡ (now seat.old.me.0 seat.old.me.0.mine (rest seat.old.me.0.out), rest seat.old.me.1) }
    {
        self.give_back::<Brand>(seat, page as usize + 17, Slot::OfPage(value));
    }
}

fn board_of(value: Slot) -> Board
    requires { IsBoard value }
    ensures { value ≡ Slot.OfBoard result }
{
    match value {
        Slot::OfBoard(board) => board,
        Slot::OfShard(_) => unreachable!(),
        Slot::OfPage(_) => unreachable!(),
        Slot::Vacant => unreachable!(),
    }
}

fn rows_of(value: Slot) -> ShardRows
    requires { IsShard value }
    ensures { value ≡ Slot.OfShard result }
{
    match value {
        Slot::OfShard(rows) => rows,
        Slot::OfBoard(_) => unreachable!(),
        Slot::OfPage(_) => unreachable!(),
        Slot::Vacant => unreachable!(),
    }
}

fn page_of(value: Slot) -> Page
    requires { IsPage value }
    ensures { value ≡ Slot.OfPage result }
{
    match value {
        Slot::OfPage(page) => page,
        Slot::OfBoard(_) => unreachable!(),
        Slot::OfShard(_) => unreachable!(),
        Slot::Vacant => unreachable!(),
    }
}
