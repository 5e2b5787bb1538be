//! What the log and the cells answer to those who change them.

use crate::Leaf;
use mi_base::{Position, Prefix};

/// Where the log and the pages stand.
#[derive(Clone, Copy, Debug, PartialEq, Eq)]
pub struct Look {
    /// The end of the log.
    pub at: Position,
    /// The number of the page at which descents begin.
    pub root: u32,
    /// The level of that page.
    pub height: u32,
    /// The least position that is still read.
    pub floor: Position,
}

/// Why no update may be entered.
#[derive(Clone, Copy, Debug, PartialEq, Eq)]
pub enum ReserveRefusal {
    /// The log has as many updates as it may have.
    Full { limit: u32 },
    /// Memory was wanted and there was none.
    Memory,
}

/// Why an update was not entered.
#[derive(Clone, Copy, Debug, PartialEq, Eq)]
pub enum CommitRefusal {
    /// The log has as many updates as it may have.
    Full { limit: u32 },
    /// The leaf has to be split first.
    Crowded,
}

/// Why no page was allotted.
#[derive(Clone, Copy, Debug, PartialEq, Eq)]
pub enum AllotRefusal {
    /// As many pages are allotted as may be.
    PagesFull { limit: u32 },
    /// Memory was wanted and there was none.
    Memory,
}

/// What an actor is answered that asks for a leaf.
#[derive(Drop)]
pub enum LeafClaim {
    Taken { leaf: Leaf },
    /// The leaf is claimed by this other actor.
    Held { by: u32 },
}

/// What the splitter has to do.
#[derive(Drop)]
pub enum Work {
    /// Take the old keys of this leaf away, which was split.
    Sweep { prefix: Prefix },
    /// Split this leaf, which is now claimed.
    Split { leaf: Leaf },
    Idle,
}
