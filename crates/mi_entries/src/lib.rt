//! The entries of all leaf pages as one list: what they are, what they show, and the splits and sweeps that
//! work on them; and the records of live objects in shards.
#![tactic(auto)]

mod laws;

pub use laws::{
    deletes_keep_entries, gathers_keep_splits, inserts_keep_entries, records_follow_updates,
    trims_keep_entries,
};
