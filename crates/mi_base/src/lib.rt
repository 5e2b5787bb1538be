//! The values of the index: identifiers, vectors, prefixes, updates, replies and settings.
#![tactic(auto)]

mod copies;
mod counting;
mod ids;
mod limits;
mod lists;
mod permutations;
mod prefixes;
mod records;
mod refusals;
mod settings;
mod vectors;

use arrayvec::ArrayVec;
pub use copies::copy_rows;
pub use counting::Steps;
pub use ids::Id;
pub use limits::{
    MAX_CELL, MAX_COORDINATE, MAX_COUNT, MAX_DIMS, MAX_DISTANCE, MAX_FILE_SIZE, MAX_ID, MAX_ITEMS,
    MAX_LEVELS, MAX_OPS, MAX_PAGES, MAX_PIVOTS, MAX_RADIUS, MAX_ROWS, MAX_SESSIONS, MAX_TURNS,
    MAX_UPDATES,
};
pub use lists::{Sequence, sort_rows};
pub use permutations::Perm;
pub use prefixes::Prefix;
pub use records::{Actor, LogEvent, Op, Position, Reply, Row, ScheduleItem, Take, Update};
pub use refusals::{NoMemory, OutOfRange, VectorRefusal};
pub use settings::{MetricKind, Settings};
pub use vectors::Vector;

/// A list of bytes.
pub type Bytes = Sequence<u8>;
/// A list of vectors.
pub type VectorList = Sequence<Vector>;
/// The distances of a vector to up to 32 pivots, in the pivots' order.
pub type Dists = ArrayVec<u32, MAX_PIVOTS>;
/// One row of a distance table.
pub type TableRow = Sequence<u32>;
/// The rows of a distance table.
pub type TableRows = Sequence<TableRow>;
/// The rows of an answer.
pub type Rows = Sequence<Row>;
/// Updates and splits in the order in which they were accepted.
pub type Log = Sequence<LogEvent>;
/// The operations of one session, in order.
pub type Script = Sequence<Op>;
/// What the actors are given, in order.
pub type Schedule = Sequence<ScheduleItem>;
/// The replies to one script, in order.
pub type Replies = Sequence<Reply>;
/// The replies to each script.
pub type Transcript = Sequence<Replies>;
