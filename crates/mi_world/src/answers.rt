//! What sections answer.

use mi_base::Dists;

/// What a shard keeps of a live object: the number of its insert, and its distances to the pivots.
#[derive(Drop)]
pub struct Record {
    /// The number of the insert among the updates, from 1.
    pub birth: u32,
    /// The distances to the pivots, in the order of their numbers.
    pub dists: Dists,
}

/// What an actor is answered that asks for a shard.
#[derive(Drop)]
pub enum ShardClaim {
    /// The shard is claimed, and this is the identifier's record in it.
    Taken { kept: Option<Record> },
    /// Another actor holds the shard.
    Held,
}

/// What a visit of a page answers.
#[derive(Clone, Copy, Debug, PartialEq, Eq)]
pub enum Visit {
    /// The page is above the level sought: go on at this one, a level lower.
    Down { page: u32 },
    /// The key sought lies right of the page: go on at this one.
    Right { page: u32 },
    /// The page was read, and the next one where the interval goes on.
    Read { next: Option<u32> },
}

/// What a commit answers.
#[derive(Clone, Copy, Debug, PartialEq, Eq)]
pub enum Commit {
    Down { page: u32 },
    Right { page: u32 },
    /// The log has as many updates as it may have.
    Full { limit: u32 },
    /// The leaf has to be split first.
    Crowded,
    /// The page has to be halved first.
    PageFull,
    Done { number: u32 },
}

/// What a change of one page answers.
#[derive(Clone, Copy, Debug, PartialEq, Eq)]
pub enum Put {
    Down { page: u32 },
    Right { page: u32 },
    PageFull,
    Done,
}

/// What a halving of a page answers.
#[derive(Clone, Copy, Debug, PartialEq, Eq)]
pub enum Parted {
    /// The upper half is on this page now, which begins at this key.
    Parted { key: mi_key::Key, child: u32 },
    /// The page isn't full.
    Roomy,
}
