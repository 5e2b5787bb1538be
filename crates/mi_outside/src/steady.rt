//! Files and a sink that never fail.
ghost use Rattle.std.specs.Prelude.{◌≡◌, ◌≢◌, [], Some, None, Ok, Err, length, unwrap_or, IfErr, OnOk, OnErr};
ghost use Rattle.mi_outside.specs.Contents.{SetsContent, content_of};
ghost use Rattle.mi_outside.specs.Outside.{Reads, RefusesRead};

use crate::folder::{Folder, add_content};
use crate::{Files, ReadRefusal, Sink, SinkFailed};
use mi_base::NoMemory;
use std::alloc::Global;
use std::marker::Model;

/// Files by name whose reads don't fail. A name without content is an empty file.
#[derive(Drop)]
pub struct SteadyFiles {
    folder: Folder,
}

impl Model for SteadyFiles {
    ghost use Rattle.std.specs.Prelude.{ℕ, List};

    ghost Value = { List (List ℕ × List ℕ) };

    ghost view = { λ s. s.folder };
}

impl SteadyFiles {
    /// Files of which none has a content yet. It takes no memory.
    pub fn new(alloc: Global) -> SteadyFiles
        ensures { result ≡ [] }
    {
        SteadyFiles {
            folder: Folder::new(alloc),
        }
    }

    /// Gives the name this content, in place of an earlier one.
    pub fn add(&mut self, alloc: Global, name: &str, content: &[u8]) -> Result<(), NoMemory>
        ensures ok { OnOk result (SetsContent self.old self.new name.now content.now) }
        ensures err { OnErr result (self.new ≡ self.old) }
    {
        self.folder.put(alloc, name, content)
    }
}

impl Files for SteadyFiles {
    ghost state = { λ s. record { content = λ n. Some (unwrap_or (content_of s n) []); faults = 0 } };

    fn read(&mut self, name: &str, into: &mut Vec<u8>) -> Result<(), ReadRefusal>
        ensures ok { OnOk result (Reads (Some (unwrap_or (content_of self.old name.now) [])) into.old.items into.new.items) }
        ensures err { IfErr result (RefusesRead (Some (unwrap_or (content_of self.old name.now) [])) 0 0) }
        ensures steady { result ≢ Err ReadRefusal.Failed }
        ensures same { self.new ≡ self.old }
    {
        add_content(self.folder.get(name).unwrap_or(&[]), into)
    }
}

/// A sink that takes every piece whole, and keeps nothing.
#[derive(Clone, Copy, Debug, PartialEq, Eq)]
pub struct SteadySink;

impl SteadySink {
    /// The sink. It takes no memory.
    pub fn new() -> SteadySink {
        SteadySink
    }
}

impl Sink for SteadySink {
    ghost state = { λ s. record { written = None; faults = 0 } };

    fn write(&mut self, piece: &[u8]) -> Result<usize, SinkFailed>
        ensures { result ≡ Ok (length piece.now) }
    {
        Ok(piece.len())
    }
}
