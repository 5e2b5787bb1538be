//! The splitter's operations: each is one sweep or one split.
ghost use Rattle.std.specs.Prelude.{◌≡◌, None, Some, is_some};
ghost use Rattle.mi_job.specs.Caring.{Ready, Turned};

use mi_blink::{WalkTurn, Why};
use mi_split::{SplitOp, SplitTurn, SweepOp};
use mi_tree::Work;
use mi_world::World;
use std::alloc::Global;

/// What a section of the splitter answers.
#[derive(Clone, Copy, Debug, PartialEq, Eq)]
pub enum CareTurn {
    /// An operation has begun or goes on.
    More,
    /// Nothing is to be done, and no operation has begun.
    Idle,
    /// The operation has ended.
    Done,
    /// The operation was a split, which was given up for want of memory.
    Memory,
}

/// An operation of the splitter.
#[derive(Drop)]
enum Task {
    Sweep { sweep: SweepOp },
    Split { split: SplitOp },
}

/// The splitter, with its operation while one is under way.
#[derive(Drop)]
pub struct Care {
    task: Option<Task>,
}

impl Care {
    /// No operation is under way.
    pub fn new() -> Care
        ensures { result ≡ record { task = None } }
    {
        Care { task: None }
    }

    /// Whether an operation is under way.
    pub fn is_under_way(&self) -> bool
        ensures { result ≡ is_some self.now.task }
    {
        self.task.is_some()
    }

    /// Makes one section.
    pub fn step<W: World>(&mut self, alloc: Global, world: &mut W) -> CareTurn
        requires ready { Ready self.old (W.view world.old) }
        ensures turned { Turned self.old (W.view world.old) result self.new (W.view world.new) }
        ensures section { W.section world.old world.new }
    {
        match self.task.take() {
            None => self.begin(world),
            Some(Task::Sweep { sweep }) => self.sweep(world, sweep),
            Some(Task::Split { split }) => self.split(alloc, world, split),
        }
    }

    fn begin<W: World>(&mut self, world: &mut W) -> CareTurn
        requires ready { Ready self.old (W.view world.old) }
        requires none { self.old.task ≡ None }
        ensures turned { Turned self.old (W.view world.old) result self.new (W.view world.new) }
        ensures section { W.section world.old world.new }
    {
        match world.next_work() {
            Work::Sweep { prefix } => {
                self.task = Some(Task::Sweep {
                    sweep: SweepOp::new(prefix),
                });
                CareTurn::More
            }
            Work::Split { leaf } => {
                self.task = Some(Task::Split {
                    split: SplitOp::new(leaf),
                });
                CareTurn::More
            }
            Work::Idle => CareTurn::Idle,
        }
    }

    fn sweep<W: World>(&mut self, world: &mut W, mut sweep: SweepOp) -> CareTurn
        requires ready { Ready (record { task = Some (Task.Sweep sweep) }) (W.view world.old) }
        requires none { self.old.task ≡ None }
        ensures turned { Turned (record { task = Some (Task.Sweep sweep) }) (W.view world.old) result self.new (W.view world.new) }
        ensures section { W.section world.old world.new }
    {
        match sweep.step(world) {
            WalkTurn::More => {
                self.task = Some(Task::Sweep { sweep });
                CareTurn::More
            }
            WalkTurn::Done => CareTurn::Done,
        }
    }

    fn split<W: World>(&mut self, alloc: Global, world: &mut W, mut split: SplitOp) -> CareTurn
        requires ready { Ready (record { task = Some (Task.Split split) }) (W.view world.old) }
        requires none { self.old.task ≡ None }
        ensures turned { Turned (record { task = Some (Task.Split split) }) (W.view world.old) result self.new (W.view world.new) }
        ensures section { W.section world.old world.new }
    {
        match split.step(alloc, world) {
            SplitTurn::More => {
                self.task = Some(Task::Split { split });
                CareTurn::More
            }
            SplitTurn::Published { .. } => CareTurn::Done,
            SplitTurn::GivenUp {
                why: Why::NoPages { .. },
            } => CareTurn::Done,
            SplitTurn::GivenUp { why: Why::Memory } => CareTurn::Memory,
        }
    }
}
