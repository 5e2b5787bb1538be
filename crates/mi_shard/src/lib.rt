//! The records of the live objects of one shard, found by identifier.
#![tactic(auto)]

mod rows;

pub use rows::{RecordRow, ShardRows};
