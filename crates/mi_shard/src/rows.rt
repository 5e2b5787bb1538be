//! Records in the order of their inserts, with the room that is promised.
ghost use Rattle.std.specs.Prelude.{◌≡◌, ◌≤◌, ◌<◌, ◌+◌, ◌^◌, ◌==◌, [], None, OnOk, OnErr, length, max, option_copied, vec_capacity, vec_len};
ghost use Rattle.std.specs.HashMap.{hash_map_len, spare};
ghost use Rattle.std.specs.List.{IsDistinct, find};
ghost use Rattle.mi_entries.specs.Records.{with_record, without_id};
ghost use Rattle.mi_shard.specs.Places.{ArePlaces, present};

use mi_base::{Dists, Id, NoMemory};
use std::alloc::Global;
use std::collections::HashMap;
use std::marker::Model;

/// A live identifier with the number of its insert and its object's distances to the pivots.
#[derive(Drop)]
pub struct RecordRow {
    pub id: Id,
    pub birth: u32,
    pub dists: Dists,
}

impl Model for RecordRow {
    ghost use Rattle.mi_entries.specs.Records.{ShardRecord};

    ghost Value = { ShardRecord };

    ghost view = { λ r. record { id = r.id; birth = r.birth; dists = r.dists.items } };
}

/// Records of different identifiers in the order of their inserts, and how many are promised room.
/// No search and no removal walks them.
#[derive(Drop)]
pub struct ShardRows {
    // Where a record was taken out there is a gap.
    rows: Vec<Option<RecordRow>>,
    // Where the record of each identifier stands.
    places: HashMap<u64, usize>,
    room: usize,
}

impl Model for ShardRows {
    ghost use Rattle.mi_entries.specs.Records.{Rows};
    ghost use Rattle.mi_shard.specs.Places.{ArePlaces, HasRoom, present};

    ghost Value = { Rows };

    ghost view = { λ s. record { records = present s.rows.items; room = s.room } };

    ghost invariant = { λ s. ArePlaces s.rows.items s.places × HasRoom s.rows s.places s.room };
}

impl ShardRows {
    /// No records, and no room.
    pub fn new(alloc: Global) -> ShardRows
        ensures { result ≡ record { records = []; room = 0 } }
    {
        ShardRows {
            rows: Vec::new(alloc),
            places: HashMap::new(alloc),
            room: 0,
        }
    }

    /// How many records there are.
    pub fn len(&self) -> usize
        ensures count { result ≡ length self.now.records }
        ensures small { result < 2 ^ 63 }
    {
        self.places.len()
    }

    /// How many are promised room.
    pub fn room(&self) -> usize
        ensures { result ≡ self.now.room }
    {
        self.room
    }

    /// The record of an identifier.
    pub fn record(&self, id: Id) -> Option<&RecordRow>
        ensures { option_copied result ≡ find (λ x. x.id == id) self.now.records }
    {
        let place = *self.places.get(&id.get())?;
        self.rows[place].as_ref()
    }

    /// Takes room for one record more, beside what was promised. Where most places are gaps, these are closed.
    pub fn reserve(&mut self) -> Result<(), NoMemory>
        ensures ok { OnOk result (self.new ≡ record self.old { room = max self.old.room (length self.old.records + 1) }) }
        ensures err { OnErr result (self.new ≡ self.old) }
    {
        if self.places.len() < self.rows.len() / 2 {
            close_gaps(&mut self.rows, &mut self.places);
        }
        // A removal takes a second place, beside the one that is promised.
        self.rows.reserve(2)?;
        self.places.reserve(2)?;
        self.room = self.room.max(self.places.len() + 1);
        Ok(())
    }

    /// Promises room for so many, and no more than before.
    pub fn promise(&mut self, room: usize)
        requires { room ≤ self.old.room }
        ensures { self.new ≡ record self.old { room = room } }
    {
        self.room = room;
    }

    /// Takes a record more, for which there is room. It takes no memory.
    pub fn insert(&mut self, row: RecordRow)
        requires absent { find (λ x. x.id == row.id) self.old.records ≡ None }
        requires room { length self.old.records < self.old.room }
        ensures { self.new ≡ with_record row self.old }
    {
        let place = self.rows.len();
        let Ok(_) = self.places.insert(row.id.get(), place) else {
            unreachable!();
        };
        self.rows.push_reserved(Some(row));
    }

    /// Takes the record of the identifier out. What is promised stays.
    pub fn remove(&mut self, id: Id)
        ensures { self.new ≡ without_id id self.old }
    {
        let Some(place) = self.places.get(&id.get()).copied() else {
            return;
        };
        let gaps = self.rows.len() - self.places.len();
        let capacity = self.places.capacity().min(self.rows.capacity() - gaps);
        self.rows[place] = None;
        if self.room < capacity {
            self.places.remove(&id.get());
        } else {
            // The gap would take a place that is promised.
            close_gaps(&mut self.rows, &mut self.places);
        }
    }
}

/// Closes the gaps, and finds all places anew. It takes no memory.
fn close_gaps(rows: &mut Vec<Option<RecordRow>>, places: &mut HashMap<u64, usize>)
    requires single { IsDistinct (λ x y. x.id == y.id) (present rows.old.items) }
    requires room { length (present rows.old.items) ≤ hash_map_len places.old + spare places.old }
    ensures records { present rows.new.items ≡ present rows.old.items }
    ensures closed { vec_len rows.new ≡ length (present rows.old.items) }
    ensures capacity { vec_capacity rows.new ≡ vec_capacity rows.old }
    ensures places { ArePlaces rows.new.items places.new }
    ensures room { hash_map_len places.old + spare places.old ≤ hash_map_len places.new + spare places.new }
{
    rows.retain(|row| row.is_some());
    find_places(rows, places);
}

/// Finds the places of all records anew. It takes no memory.
fn find_places(rows: &[Option<RecordRow>], places: &mut HashMap<u64, usize>)
    requires single { IsDistinct (λ x y. x.id == y.id) (present rows.now) }
    requires room { length (present rows.now) ≤ hash_map_len places.old + spare places.old }
    ensures places { ArePlaces rows.now places.new }
    ensures room { hash_map_len places.old + spare places.old ≤ hash_map_len places.new + spare places.new }
{
    places.clear();
    for (place, row) in rows.iter().enumerate() {
        if let Some(row) = row {
            let Ok(_) = places.insert(row.id.get(), place) else {
                unreachable!();
            };
        }
    }
}
