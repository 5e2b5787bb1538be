//! Files in memory, some of whose reads fail.
ghost use Rattle.std.specs.Prelude.{◌≡◌, ◌≤◌, ◌↔◌, ℕ, List, [], IsTrue, IfOk, IfErr, OnOk, OnErr};
ghost use Rattle.mi_outside.specs.Contents.{SetsContent, content_of};
ghost use Rattle.mi_outside.specs.Kept.{KeptFiles, after_read, files_state, read_fails};
ghost use Rattle.mi_outside.specs.Outside.{KeepsContents, Reads, RefusesRead};

use crate::folder::{Folder, add_content};
use crate::{Files, ReadRefusal};
use mi_base::NoMemory;
use std::alloc::Global;
use std::marker::Model;

/// Files by name, with the numbers of the read calls that fail.
#[derive(Drop)]
pub struct MemoryFiles {
    folder: Folder,
    fails: Vec<u64>,
    calls: u64,
    faults: u64,
}

impl Model for MemoryFiles {
    ghost use Rattle.mi_outside.specs.Kept.{KeptFiles};

    ghost Value = { KeptFiles };

    ghost view = { λ m. record { files = m.folder; fails = m.fails.items; calls = m.calls; faults = m.faults } };
}

impl MemoryFiles {
    /// No name has a content yet. `fails` has the numbers of the read calls that fail, from 1.
    pub fn new(alloc: Global, fails: &[u64]) -> Result<MemoryFiles, NoMemory>
        ensures { IfOk result (λ m. m ≡ record { files = []; fails = fails.now; calls = 0; faults = 0 }) }
    {
        Ok(MemoryFiles {
            folder: Folder::new(alloc),
            fails: Vec::from_slice(alloc, fails)?,
            calls: 0,
            faults: 0,
        })
    }

    /// Gives the name this content, in place of an earlier one.
    pub fn add(&mut self, alloc: Global, name: &str, content: &[u8]) -> Result<(), NoMemory>
        ensures ok { OnOk result (SetsContent self.old.files self.new.files name.now content.now) }
        ensures rest { self.new ≡ record self.old { files = self.new.files } }
        ensures err { OnErr result (self.new ≡ self.old) }
    {
        self.folder.put(alloc, name, content)
    }
}

impl Files for MemoryFiles {
    ghost state = { λ m. files_state m };

    fn read(&mut self, name: &str, into: &mut Vec<u8>) -> Result<(), ReadRefusal>
        ensures ok { OnOk result (Reads (content_of self.old.files name.now) into.old.items into.new.items) }
        ensures err { IfErr result (RefusesRead (content_of self.old.files name.now) self.old.faults self.new.faults) }
        ensures uncounted { OnOk result (self.new.faults ≡ self.old.faults) }
        ensures contents { KeepsContents (files_state self.old) (files_state self.new) }
        ensures count { self.old.faults ≤ self.new.faults }

        // Which calls fail is determined, and so is what is kept.
        ensures failed { (result ≡ Err ReadRefusal.Failed) ↔ IsTrue (read_fails self.old name.now) }
        ensures after { self.new ≡ after_read self.old name.now }
    {
        self.calls = self.calls.saturating_add(1);
        let listed = self.fails.contains(&self.calls);
        match self.folder.get(name) {
            Some(content) if !listed => add_content(content, into),
            _ => {
                self.faults = self.faults.saturating_add(1);
                Err(ReadRefusal::Failed)
            }
        }
    }
}
