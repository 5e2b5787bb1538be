//! Files by name.
ghost use Rattle.std.specs.Prelude.{◌≡◌, ◌≤◌, IfErr, OnOk};

/// Why a file was not read.
#[derive(Clone, Copy, Debug, PartialEq, Eq)]
pub enum ReadRefusal {
    /// Reading failed, which the count of faults tells.
    Failed,
    /// The file has more bytes than a file may have.
    TooLarge,
    /// Memory was wanted and there was none.
    Memory,
}

/// Files that are read whole, by their names.
pub trait Files {
    ghost use Rattle.mi_outside.specs.Outside.{KeepsContents, Reads, RefusesRead};
    ghost use Rattle.mi_outside.specs.States.{FilesState};

    ghost state: { Self → FilesState };

    /// Adds the bytes of the file at the end of `into`. After a refusal `into` may hold more than
    /// before, and is of no use.
    fn read(&mut self, name: &str, into: &mut Vec<u8>) -> Result<(), ReadRefusal>
        ensures ok { OnOk result (Reads ((state self.old).content name.now) into.old.items into.new.items) }
        ensures uncounted { OnOk result ((state self.new).faults ≡ (state self.old).faults) }
        ensures err { IfErr result (RefusesRead ((state self.old).content name.now) (state self.old).faults (state self.new).faults) }
        ensures contents { KeepsContents (state self.old) (state self.new) }
        ensures count { (state self.old).faults ≤ (state self.new).faults };
}
