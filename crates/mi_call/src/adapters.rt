//! The trusted edge: files of the system and standard output, which tell no content.
ghost use Rattle.std.specs.Prelude.{◌≡◌, ◌+◌, None, IfOk, length};
ghost use Rattle.std.specs.Io.{StartsWith};

use mi_base::MAX_FILE_SIZE;
use mi_outside::{Files, ReadRefusal, Sink, SinkFailed};
use std::fs;
use std::io::{self, ErrorKind, Read, Write};
use std::rt::Files as SystemFiles;

/// The files of the system. A fault is counted at each error but want of memory.
#[derive(Drop)]
pub struct RealFiles<'a, R> {
    rt: &'a R,
    faults: u64,
}

impl<'a, R: SystemFiles> RealFiles<'a, R> {
    /// Files of which no read has failed yet.
    pub fn new(rt: &'a R) -> Self
        ensures { result.faults ≡ 0 }
    {
        RealFiles { rt, faults: 0 }
    }

    /// Reads one byte more than a file may have, and no more.
    fn read_bounded(&self, name: &str, into: &mut Vec<u8>) -> io::Result<usize>
        ensures appends { StartsWith into.new.items into.old.items }
        ensures count { IfOk result (λ n. length into.new.items ≡ length into.old.items + n) }
    {
        let file = fs::open(self.rt, name)?;
        file.take(MAX_FILE_SIZE as u64 + 1).read_to_end(into)
    }
}

impl<R: SystemFiles> Files for RealFiles<'_, R> {
    ghost state = { λ f. record { content = λ _. None; faults = f.faults } };

    fn read(&mut self, name: &str, into: &mut Vec<u8>) -> Result<(), ReadRefusal> {
        match self.read_bounded(name, into) {
            Ok(bytes) if bytes <= MAX_FILE_SIZE => Ok(()),
            Ok(_) => Err(ReadRefusal::TooLarge),
            Err(error) if error.kind() == ErrorKind::OutOfMemory => Err(ReadRefusal::Memory),
            Err(_) => {
                self.faults = self.faults.saturating_add(1);
                Err(ReadRefusal::Failed)
            }
        }
    }
}

/// Standard output. A fault is counted at each error, and where nothing is taken of a piece.
#[derive(Drop)]
pub struct RealOut<W> {
    writer: W,
    faults: u64,
}

impl<W: Write> RealOut<W> {
    /// An output of which no write has failed yet.
    pub fn new(writer: W) -> Self
        ensures { result.faults ≡ 0 }
    {
        RealOut { writer, faults: 0 }
    }
}

impl<W: Write> Sink for RealOut<W> {
    ghost state = { λ s. record { written = None; faults = s.faults } };

    fn write(&mut self, piece: &[u8]) -> Result<usize, SinkFailed> {
        match self.writer.write(piece) {
            Ok(taken) if taken > 0 || piece.is_empty() => Ok(taken),
            Ok(_) | Err(_) => {
                self.faults = self.faults.saturating_add(1);
                Err(SinkFailed)
            }
        }
    }
}
