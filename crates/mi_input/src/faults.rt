//! Why a file was refused.
ghost use Rattle.std.specs.Prelude.{◌≡◌};
ghost use Rattle.mi_input.specs.declared.faults.InputFault.TheVariants.{Memory};
ghost use Rattle.mi_input.specs.Faults.{ReadsAs, at_record};

use mi_base::NoMemory;
use thiserror::Error;

/// The first thing that is wrong with a record.
#[derive(Clone, Copy, Debug, PartialEq, Eq)]
pub enum Reason {
    /// The first field is no word that may stand here.
    Word,
    /// The record has another number of fields than its form.
    Fields,
    /// A field is no number.
    Number,
    /// A number is outside its bounds.
    Range,
    /// There are more records of a kind than may be.
    Limit,
    /// The file ends where a record must follow.
    End,
    /// A record follows the last one of a settings file.
    Extra,
    /// The file is too large. No reader answers it.
    Large,
}

/// Why a file was refused: the number of its first bad record, from 1, with the reason, or want of memory.
#[derive(Clone, Copy, Debug, PartialEq, Eq, Error)]
pub enum InputFault {
    #[error("record {number}: {why:?}")]
    Bad { number: u32, why: Reason },
    #[error("memory is wanted")]
    Memory,
}

impl From<NoMemory> for InputFault {
    ghost from_gives = { λ _ e. e ≡ Memory };

    fn from(_: NoMemory) -> InputFault {
        InputFault::Memory
    }
}

/// What was read of the record of this number, or its fault.
pub(crate) fn in_record<T: Drop>(number: u32, read: Result<T, Reason>) -> Result<T, InputFault>
    ensures { ReadsAs (λ x. x) result (at_record number read) }
{
    match read {
        Ok(value) => Ok(value),
        Err(why) => Err(InputFault::Bad { number, why }),
    }
}
