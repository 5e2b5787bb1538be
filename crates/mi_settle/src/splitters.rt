//! The splitter while scripts are run.
ghost use Rattle.std.specs.Prelude.{◌≡◌, ◌≤◌, None, false, is_some};
ghost use Rattle.mi_core.specs.Kept.{Kept};
ghost use Rattle.mi_settle.specs.Splitters.{SplitterFinished, SplitterGoing, SplitterTurned, SplitterTurnsMade, SplitterWaits};

use mi_job::{Care, CareTurn};
use mi_solo::Solo;
use std::alloc::Global;

/// The splitter with its operation, and whether a split was given up for want of memory.
#[derive(Drop)]
pub struct SplitterSeat {
    care: Care,
    wanted: bool,
}

impl SplitterSeat {
    /// No operation is under way, and none was given up.
    pub fn new() -> SplitterSeat
        ensures { result ≡ record { care = record { task = None }; wanted = false } }
    {
        SplitterSeat {
            care: Care::new(),
            wanted: false,
        }
    }

    /// An operation is under way.
    pub fn is_under_way(&self) -> bool
        ensures { result ≡ is_some self.now.care.task }
    {
        self.care.is_under_way()
    }

    /// A split was given up for want of memory.
    pub fn wants_memory(&self) -> bool
        ensures { result ≡ self.now.wanted }
    {
        self.wanted
    }

    /// A block of one operation: one has ended, or there is nothing to do.
    pub fn operation(&mut self, alloc: Global, solo: &mut Solo, actor: u32)
        requires waits { SplitterWaits solo.old.state actor self.old }
        ensures { SplitterGoing actor solo.old.state self.old solo.new.state self.new }
    {
        self.finish(alloc, solo, actor);
    }

    /// A block of so many turns. Those that would change nothing aren't made.
    pub fn turns(&mut self, alloc: Global, solo: &mut Solo, actor: u32, count: u32)
        requires waits { SplitterWaits solo.old.state actor self.old }
        requires some { 1 ≤ count }
        ensures { SplitterTurnsMade actor solo.old.state self.old count solo.new.state self.new }
    {
        for _ in 0..count {
            solo.turn_to(actor);
            if matches!(self.turn(alloc, solo), CareTurn::Idle) {
                return;
            }
        }
    }

    /// Turns until an operation has ended, which is told, or there is nothing to do.
    pub fn finish(&mut self, alloc: Global, solo: &mut Solo, actor: u32) -> CareTurn
        requires waits { SplitterWaits solo.old.state actor self.old }
        ensures { SplitterFinished actor solo.old.state self.old result solo.new.state self.new }
    {
        loop {
            solo.turn_to(actor);
            let turn = self.turn(alloc, solo);
            if !matches!(turn, CareTurn::More) {
                return turn;
            }
        }
    }

    /// One section.
    fn turn(&mut self, alloc: Global, solo: &mut Solo) -> CareTurn
        requires waits { SplitterWaits solo.old.state solo.old.turn self.old }
        ensures kept { Kept solo.old.state }
        ensures turned { SplitterTurned solo.old.turn solo.old.state self.old result self.new solo.new.state }
    {
        // The log tells that the core is kept.
        let _ = solo.log();
        let turn = self.care.step(alloc, solo);
        if matches!(turn, CareTurn::Memory) {
            self.wanted = true;
        }
        turn
    }
}
