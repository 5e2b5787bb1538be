//! Updates and queries, what is logged of them, and what is replied to them.

use crate::{Id, Prefix, Rows, Vector};

/// A change of the set of live objects.
#[derive(Drop)]
pub enum Update {
    Insert { id: Id, vector: Vector },
    Delete { id: Id },
}

/// An accepted update with its session and the operation's number there, or a published split.
#[derive(Drop)]
pub enum LogEvent {
    Update {
        session: u32,
        op: u32,
        update: Update,
    },
    Split {
        prefix: Prefix,
    },
}

/// Names the prefix of the log with so many updates and splits.
#[derive(Clone, Copy, Debug, PartialEq, Eq)]
pub struct Position {
    /// How many updates.
    pub updates: u32,
    /// How many splits.
    pub splits: u32,
}

/// A row of an answer. Rows are ordered by distance, then identifier.
#[derive(Clone, Copy, Debug, PartialEq, Eq, PartialOrd, Ord)]
pub struct Row {
    /// The distance from the query.
    pub distance: u32,
    /// The object.
    pub id: Id,
}

/// What a session asks for.
#[derive(Drop)]
pub enum Op {
    Insert { id: Id, vector: Vector },
    Delete { id: Id },
    /// Radii are from 0 to 2^31 - 1.
    Range { radius: u32, query: Vector },
    /// Counts are from 1 to 1,000,000.
    Nearest { count: u32, query: Vector },
}

/// What a session is told.
#[derive(Drop)]
pub enum Reply {
    Stored {
        number: u32,
    },
    Removed {
        number: u32,
    },
    Present {
        at: Position,
    },
    Absent {
        at: Position,
    },
    Full {
        limit: u32,
    },
    NoPages {
        limit: u32,
    },
    Memory,
    Range {
        at: Position,
        rows: Rows,
        cells: u32,
        distances: u64,
    },
    Nearest {
        at: Position,
        rows: Rows,
        cells: u32,
    },
}

/// Who takes a turn.
#[derive(Clone, Copy, Debug, PartialEq, Eq)]
pub enum Actor {
    Session { number: u32 },
    Splitter,
}

/// How much an actor is given.
#[derive(Clone, Copy, Debug, PartialEq, Eq)]
pub enum Take {
    Turns { count: u32 },
    Operation,
}

/// One record of a schedule.
#[derive(Clone, Copy, Debug, PartialEq, Eq)]
pub struct ScheduleItem {
    /// Who takes the turns.
    pub actor: Actor,
    /// How much that actor is given.
    pub take: Take,
}
