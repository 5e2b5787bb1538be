//! The records of live objects, in shards by identifier.
ghost use Rattle.std.specs.Prelude.{◌≡◌, ◌<◌, ◌==◌, None, length};
ghost use Rattle.std.specs.List.{find};
ghost use Rattle.mi_entries.specs.Records.{held_by, no_shard, with_record, without_id};
ghost use Rattle.mi_solo.specs.Sections.{Promises, PromisesRows};
ghost use Rattle.mi_solo.specs.Viewing.{record_shown};

use mi_base::{Dists, Id};
use mi_board::Board;
use mi_shard::{RecordRow, ShardRows};
use mi_tree::{Look, ReserveRefusal};
use mi_world::Record;
use std::alloc::Global;
use std::marker::Model;

/// The records of a shard, and who holds it.
#[derive(Drop)]
pub struct ShardRow {
    holder: Option<u32>,
    pub(crate) rows: ShardRows,
}

impl Model for ShardRow {
    ghost use Rattle.mi_entries.specs.Records.{Shard};

    ghost Value = { Shard };

    ghost view = { λ s. record { holder = s.holder; rows = s.rows } };
}

impl ShardRow {
    /// A shard that nobody holds, without records.
    pub fn new(alloc: Global) -> ShardRow
        ensures { result ≡ no_shard }
    {
        ShardRow {
            holder: None,
            rows: ShardRows::new(alloc),
        }
    }

    /// A shard that nobody holds, with these records.
    pub fn free(rows: ShardRows) -> ShardRow
        ensures { result ≡ held_by None rows }
    {
        ShardRow { holder: None, rows }
    }

    /// The actor that holds the shard.
    pub fn holder(&self) -> Option<u32>
        ensures { result ≡ self.now.holder }
    {
        self.holder
    }

    /// The record of an identifier.
    pub fn record(&self, id: Id) -> Option<Record>
        ensures { result ≡ record_shown (find (λ x. x.id == id) self.now.rows.records) }
    {
        record_in(&self.rows, id)
    }

    /// The shard is this actor's, or nobody's.
    pub fn give(&mut self, holder: Option<u32>)
        ensures { self.new ≡ held_by holder self.old.rows }
    {
        self.holder = holder;
    }

    /// Takes room on the board and in the shard for one update of the actor.
    pub fn reserve(&mut self, board: &mut Board, actor: u32) -> Result<Look, ReserveRefusal>
        requires { actor < length board.old.actors }
        ensures { Promises board.old self.old actor result board.new self.new }
    {
        reserve_in(&mut self.rows, board, actor)
    }

    /// Takes a record more, for which there is room. It takes no memory.
    pub fn insert(&mut self, id: Id, birth: u32, dists: &Dists)
        requires absent { find (λ x. x.id == id) self.old.rows.records ≡ None }
        requires room { length self.old.rows.records < self.old.rows.room }
        ensures { self.new ≡ held_by self.old.holder (with_record (record { id = id; birth = birth; dists = dists.now.items }) self.old.rows) }
    {
        self.rows.insert(RecordRow {
            id,
            birth,
            dists: copy_dists(dists),
        });
    }

    /// Takes the record of the identifier out.
    pub fn remove(&mut self, id: Id)
        ensures { self.new ≡ held_by self.old.holder (without_id id self.old.rows) }
    {
        self.rows.remove(id);
    }
}

/// The record of an identifier among those of its shard.
pub fn record_in(rows: &ShardRows, id: Id) -> Option<Record>
    ensures { result ≡ record_shown (find (λ x. x.id == id) rows.now.records) }
{
    let row = rows.record(id)?;
    Some(Record {
        birth: row.birth,
        dists: copy_dists(&row.dists),
    })
}

/// Takes room on the board and among the rows of a shard for one update of the actor.
pub fn reserve_in(
    rows: &mut ShardRows,
    board: &mut Board,
    actor: u32,
) -> Result<Look, ReserveRefusal>
    requires { actor < length board.old.actors }
    ensures { PromisesRows board.old rows.old actor result board.new rows.new }
{
    let limit = board.settings().updates;
    if board.look().at.updates >= limit {
        // The board tells that the log is full.
        return board.reserve(actor);
    }
    let promised = rows.room();
    let Ok(()) = rows.reserve() else {
        return Err(ReserveRefusal::Memory);
    };
    match board.reserve(actor) {
        Ok(look) => {
            let records = rows.len();
            rows.promise(records + 1);
            Ok(look)
        }
        Err(refusal) => {
            rows.promise(promised);
            Err(refusal)
        }
    }
}

/// The same distances again. It takes no memory.
pub fn copy_dists(dists: &Dists) -> Dists
    ensures { result ≡ dists.now }
{
    let mut copy = Dists::new();
    for distance in dists.as_slice() {
        copy.push(*distance);
    }
    copy
}
