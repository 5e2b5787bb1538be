//! Cells, and what a run of scripts leaves.

use mi_base::{Log, Prefix, Sequence, Transcript};

/// A cell that isn't split: how many live objects belong to it, and the least interval of the key
/// distances of all objects that were put into it.
#[derive(Drop)]
pub struct Leaf {
    pub prefix: Prefix,
    pub count: u32,
    pub hull: Option<(u32, u32)>,
}

/// The cells in dictionary order of their prefixes.
pub type Leaves = Sequence<Leaf>;

/// What a run of scripts leaves.
#[derive(Drop)]
pub struct Outcome {
    pub replies: Transcript,
    pub log: Log,
    pub cells: Leaves,
    /// Entries in all leaf pages.
    pub entries: u64,
    /// Allotted pages.
    pub allotted: u32,
    /// How many pages may be allotted.
    pub limit: u32,
    /// True exactly where memory was wanted: an answer is missing for it, or a split was given up.
    pub short: bool,
}
