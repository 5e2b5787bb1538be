//! The statuses of a call.
ghost use Rattle.std.specs.Prelude.{◌≡◌};
ghost use Rattle.mi_call.specs.Statuses.{status_number};

/// How a call ended.
#[derive(Clone, Copy, Debug, PartialEq, Eq)]
pub enum Status {
    /// The whole text was written, and nothing is missing from it for want of memory.
    Done,
    /// The words are none of the forms.
    Usage,
    /// The settings file is not of its form, or its table has a fault.
    BadSettings,
    /// Another file is not of its form.
    BadFile,
    /// A file could not be read.
    Unread,
    /// A text could not be written whole.
    Unwritten,
    /// The whole text was written, and something is missing from it for want of memory.
    Short,
    /// Memory was wanted before there was a whole outcome.
    NoMemory,
}

impl Status {
    /// The number by which the system is told.
    pub fn number(self) -> u8
        ensures { result ≡ status_number self }
    {
        match self {
            Status::Done => 0,
            Status::Usage => 1,
            Status::BadSettings => 2,
            Status::BadFile => 3,
            Status::Unread => 4,
            Status::Unwritten => 5,
            Status::Short => 6,
            Status::NoMemory => 7,
        }
    }
}
