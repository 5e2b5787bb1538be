//! How updates end.
ghost use Rattle.std.specs.Prelude.{◌≡◌};
ghost use Rattle.mi_update.specs.Endings.{reply_of};

use mi_base::{Position, Reply};

/// How an update ends.
#[derive(Clone, Copy)]
pub enum Ending {
    Stored { number: u32 },
    Removed { number: u32 },
    Present { at: Position },
    Absent { at: Position },
    Full { limit: u32 },
    NoPages { limit: u32 },
    Memory,
}

impl Ending {
    /// The reply that tells it.
    pub fn reply(&self) -> Reply
        ensures { result ≡ reply_of self.now }
    {
        match *self {
            Ending::Stored { number } => Reply::Stored { number },
            Ending::Removed { number } => Reply::Removed { number },
            Ending::Present { at } => Reply::Present { at },
            Ending::Absent { at } => Reply::Absent { at },
            Ending::Full { limit } => Reply::Full { limit },
            Ending::NoPages { limit } => Reply::NoPages { limit },
            Ending::Memory => Reply::Memory,
        }
    }
}
