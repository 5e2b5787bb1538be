//! Why the files of a call are no inputs.

ghost use Rattle.std.specs.Prelude.{◌≡◌};
ghost use Rattle.mi_call.specs.declared.refusals.Stop.TheVariants.{Memory};

use mi_base::NoMemory;
use mi_input::Reason;
use mi_table::TableFault;

/// The first thing that is wrong with the files.
#[derive(Clone, Copy, Debug, PartialEq, Eq)]
pub enum Refusal {
    /// The first bad record of a file, which is named by its place among the names, from 0.
    Record { file: u32, number: u32, why: Reason },
    /// The first fault of the settings' table.
    Table(TableFault),
}

/// Why there are no inputs to run.
#[derive(Clone, Copy, Debug, PartialEq, Eq)]
pub enum Stop {
    Refused(Refusal),
    /// The file at this place among the names could not be read.
    Unread { file: u32 },
    /// Memory was wanted and there was none.
    Memory,
}

impl From<NoMemory> for Stop {
    ghost from_gives = { λ _ stop. stop ≡ Memory };

    fn from(_: NoMemory) -> Stop {
        Stop::Memory
    }
}
