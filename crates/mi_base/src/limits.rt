//! How large things may get.

/// The greatest number of coordinates of a vector.
pub const MAX_DIMS: usize = 64;
/// The greatest absolute value of a coordinate.
pub const MAX_COORDINATE: u32 = 1_000_000;
/// The greatest distance of two vectors.
pub const MAX_DISTANCE: u32 = 128_000_000;
/// The greatest number of rows of a table, and of values in a row.
pub const MAX_ROWS: usize = 128;
/// The greatest number of pivots.
pub const MAX_PIVOTS: usize = 32;
/// The greatest number of levels.
pub const MAX_LEVELS: usize = 6;
/// The greatest number of live objects that a cell holds before a split is wanted.
pub const MAX_CELL: u32 = 10_000;
/// The greatest number of updates that are accepted.
pub const MAX_UPDATES: u32 = 200_000;
/// The greatest number of pages that are allotted.
pub const MAX_PAGES: u32 = 200_000;
/// The greatest identifier.
pub const MAX_ID: u64 = (1 << 40) - 1;
/// The greatest number of operations in a script.
pub const MAX_OPS: u32 = 200_000;
/// The greatest radius of a range query.
pub const MAX_RADIUS: u32 = 2_147_483_647;
/// The greatest count of objects that a query for the nearest asks for.
pub const MAX_COUNT: u32 = 1_000_000;
/// The greatest number of sessions.
pub const MAX_SESSIONS: usize = 16;
/// The greatest number of records of a schedule.
pub const MAX_ITEMS: usize = 1_000_000;
/// The greatest number of turns that a schedule counts out.
pub const MAX_TURNS: u64 = 100_000_000;
/// The greatest size of a file in bytes.
pub const MAX_FILE_SIZE: usize = 67_108_864;
