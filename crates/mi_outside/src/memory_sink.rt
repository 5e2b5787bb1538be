//! A sink in memory, some of whose writes fail.
ghost use Rattle.std.specs.Prelude.{◌≡◌, ◌≤◌, ◌↔◌, [], IsTrue, IsErr, IfOk, OnErr};
ghost use Rattle.mi_outside.specs.Kept.{after_write, sink_state, taken_of, write_fails};
ghost use Rattle.mi_outside.specs.Outside.{Fails, Writes};

use crate::{Sink, SinkFailed};
use mi_base::NoMemory;
use std::alloc::Global;
use std::marker::Model;

/// A sink that keeps what it took.
#[derive(Drop)]
pub struct MemorySink {
    bytes: Vec<u8>,
    most: usize,
    room: usize,
    fails: Vec<u64>,
    calls: u64,
    faults: u64,
}

impl Model for MemorySink {
    ghost use Rattle.std.specs.Prelude.{◌≤◌, length, vec_capacity};
    ghost use Rattle.mi_outside.specs.Kept.{KeptBytes};

    ghost Value = { KeptBytes };

    ghost view = { λ m. record { bytes = m.bytes.items; most = m.most; room = m.room; fails = m.fails.items; calls = m.calls; faults = m.faults } };

    ghost invariant = { λ m. (1 ≤ m.most) × (length m.bytes.items ≤ m.room) × (m.room ≤ vec_capacity m.bytes) };
}

impl MemorySink {
    /// A sink that takes at most `most` bytes a call and `room` bytes in all, whose memory it takes now.
    /// `fails` has the numbers of the write calls that fail, from 1.
    pub fn new(
        alloc: Global,
        most: usize,
        fails: &[u64],
        room: usize,
    ) -> Result<MemorySink, NoMemory>
        requires { 1 ≤ most }
        ensures { IfOk result (λ m. m ≡ record { bytes = []; most = most; room = room; fails = fails.now; calls = 0; faults = 0 }) }
    {
        Ok(MemorySink {
            bytes: Vec::with_capacity(alloc, room)?,
            most,
            room,
            fails: Vec::from_slice(alloc, fails)?,
            calls: 0,
            faults: 0,
        })
    }

    /// What was written.
    pub fn bytes(&self) -> &[u8]
        ensures { result.now ≡ self.now.bytes }
    {
        self.bytes.as_slice()
    }
}

impl Sink for MemorySink {
    ghost state = { λ m. sink_state m };

    /// It takes no memory.
    fn write(&mut self, piece: &[u8]) -> Result<usize, SinkFailed>
        ensures ok { IfOk result (λ n. Writes (sink_state self.old) (sink_state self.new) n piece.now) }
        ensures err { OnErr result (Fails (sink_state self.old) (sink_state self.new)) }
        ensures count { self.old.faults ≤ self.new.faults }

        // Which calls fail and how much is taken is determined, and so is what is kept.
        ensures failed { IsErr result ↔ IsTrue (write_fails self.old piece.now) }
        ensures taken { IfOk result (λ n. n ≡ taken_of self.old piece.now) }
        ensures after { self.new ≡ after_write self.old piece.now }
    {
        self.calls = self.calls.saturating_add(1);
        let left = self.room - self.bytes.len();
        if self.fails.contains(&self.calls) || (left == 0 && !piece.is_empty()) {
            self.faults = self.faults.saturating_add(1);
            return Err(SinkFailed);
        }
        let taken = self.most.min(left.min(piece.len()));
        self.bytes.extend_from_slice(&piece[..taken]).unwrap();
        Ok(taken)
    }
}
