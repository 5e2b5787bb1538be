//! Contents by name, kept in memory.
ghost use Rattle.std.specs.Prelude.{◌≡◌, [], None, Some, OnOk, OnErr, IfErr, IfNone, IfSome};
ghost use Rattle.std.specs.Option.{option_copied};
ghost use Rattle.mi_outside.specs.Contents.{SetsContent, IsPlace, content_of};
ghost use Rattle.mi_outside.specs.Outside.{Reads, RefusesRead};

use crate::ReadRefusal;
use mi_base::{MAX_FILE_SIZE, NoMemory};
use std::alloc::Global;
use std::marker::Model;

#[derive(Drop)]
struct Held {
    name: String,
    content: Vec<u8>,
}

/// The contents of some files, few enough to be searched one after another.
#[derive(Drop)]
pub struct Folder {
    files: Vec<Held>,
}

impl Model for Folder {
    ghost use Rattle.std.specs.Prelude.{List, ℕ, map};
    ghost use Rattle.mi_outside.specs.Folders.{file_of};

    ghost Value = { List (List ℕ × List ℕ) };

    ghost view = { λ f. map file_of f.files.items };
}

impl Folder {
    /// A folder without files. It takes no memory.
    pub fn new(alloc: Global) -> Folder
        ensures { result ≡ [] }
    {
        Folder {
            files: Vec::new(alloc),
        }
    }

    /// The content of the file of this name, in bytes.
    pub fn get(&self, name: &str) -> Option<&[u8]>
        ensures { option_copied result ≡ content_of self.now name.now }
    {
        let place = self.place(name)?;
        Some(self.files[place].content.as_slice())
    }

    /// Gives the name this content.
    pub fn put(&mut self, alloc: Global, name: &str, content: &[u8]) -> Result<(), NoMemory>
        ensures ok { OnOk result (SetsContent self.old self.new name.now content.now) }
        ensures err { OnErr result (self.new ≡ self.old) }
    {
        let name_owned = String::from_str(alloc, name)?;
        let content = Vec::from_slice(alloc, content)?;
        let file = Held {
            name: name_owned,
            content,
        };
        match self.place(name) {
            Some(place) => self.files[place] = file,
            None => self.files.push(file)?,
        }
        Ok(())
    }

    fn place(&self, name: &str) -> Option<usize>
        ensures none { IfNone result (content_of self.now name.now ≡ None) }
        ensures some { IfSome result (IsPlace self.now name.now) }
    {
        for (place, file) in self.files.iter().enumerate() {
            if file.name.as_str() == name {
                return Some(place);
            }
        }
        None
    }
}

/// Adds the content at the end of `into`, unless it is too large for a file that is read.
pub fn add_content(content: &[u8], into: &mut Vec<u8>) -> Result<(), ReadRefusal>
    ensures ok { OnOk result (Reads (Some content.now) into.old.items into.new.items) }

    // A count that stays 0 didn't rise, so it never failed.
    ensures err { IfErr result (RefusesRead (Some content.now) 0 0) }
{
    if content.len() > MAX_FILE_SIZE {
        return Err(ReadRefusal::TooLarge);
    }
    match into.extend_from_slice(content) {
        Ok(()) => Ok(()),
        Err(_) => Err(ReadRefusal::Memory),
    }
}
