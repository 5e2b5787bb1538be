//! An insert with the splits that it makes.
ghost use Rattle.std.specs.Prelude.{◌≡◌, None, Some};
ghost use Rattle.mi_job.specs.Inserts.{Ready, Turned};

use crate::JobTurn;
use mi_blink::Turn;
use mi_split::{SplitOp, SplitTurn};
use mi_update::InsertOp;
use mi_world::World;
use std::alloc::Global;

/// An insert, and the split of its leaf while one is under way.
#[derive(Drop)]
pub struct InsertJob {
    insert: InsertOp,
    split: Option<SplitOp>,
}

impl InsertJob {
    /// The insert, whose leaf is not under a split.
    pub fn new(insert: InsertOp) -> InsertJob
        ensures { result ≡ record { insert = insert; split = None } }
    {
        InsertJob {
            insert,
            split: None,
        }
    }

    /// Makes one section.
    pub fn step<W: World>(&mut self, alloc: Global, world: &mut W) -> JobTurn
        requires ready { Ready self.old (W.view world.old) }
        ensures turned { Turned self.old (W.view world.old) result self.new (W.view world.new) }
        ensures section { W.section world.old world.new }
    {
        match self.split.take() {
            None => self.go_on(alloc, world),
            Some(split) => self.divide(alloc, world, split),
        }
    }

    /// A section of the insert. Where its leaf is crowded, a split of that leaf begins.
    fn go_on<W: World>(&mut self, alloc: Global, world: &mut W) -> JobTurn
        requires ready { Ready self.old (W.view world.old) }
        requires none { self.old.split ≡ None }
        ensures turned { Turned self.old (W.view world.old) result self.new (W.view world.new) }
        ensures section { W.section world.old world.new }
    {
        match self.insert.step(alloc, world) {
            Turn::More => JobTurn::More,
            Turn::Held => JobTurn::Held,
            Turn::Crowded { leaf } => {
                self.split = Some(SplitOp::new(leaf));
                JobTurn::More
            }
            Turn::Done { reply } => JobTurn::Done { reply },
        }
    }

    /// A section of the split. At its end the insert goes on, or ends where the split was given up.
    fn divide<W: World>(&mut self, alloc: Global, world: &mut W, mut split: SplitOp) -> JobTurn
        requires ready { Ready (record { insert = self.old.insert; split = Some split }) (W.view world.old) }
        requires none { self.old.split ≡ None }
        ensures turned { Turned (record { insert = self.old.insert; split = Some split }) (W.view world.old) result self.new (W.view world.new) }
        ensures section { W.section world.old world.new }
    {
        match split.step(alloc, world) {
            SplitTurn::More => self.split = Some(split),
            SplitTurn::Published { .. } => self.insert.split_done(),
            SplitTurn::GivenUp { why } => self.insert.split_refused(why),
        }
        JobTurn::More
    }
}
