//! One operation of a script with its help.
ghost use Rattle.std.specs.Prelude.{◌≡◌, ◌+◌, IsTrue};
ghost use Rattle.std.specs.List.{AllByRecursion};
ghost use Rattle.mi_base.specs.Configuration.{metric_space};
ghost use Rattle.mi_base.specs.Scripts.{IsOpOver};
ghost use Rattle.mi_job.specs.Jobs.{Begun, IsNotCrowded, Ready, Tells, Ticks, Turned, measured_for};

use crate::JobTurn;
use crate::inserts::InsertJob;
use mi_base::{Op, Steps};
use mi_blink::Turn;
use mi_metric::Metric;
use mi_nearest::NearestOp;
use mi_perm::Pivots;
use mi_range::RangeOp;
use mi_update::{DeleteOp, InsertOp};
use mi_world::World;
use std::alloc::Global;
use std::sync::ledger::Ledger;

/// An operation under way.
#[derive(Drop)]
enum Operation {
    Insert { insert: InsertJob },
    Delete { delete: DeleteOp },
    Range { range: RangeOp, number: u32 },
    Nearest { nearest: NearestOp, number: u32 },
}

/// One operation of a script. An insert makes the splits that it needs by itself.
#[derive(Drop)]
pub struct Job {
    operation: Operation,
    /// A section of it was made.
    begun: bool,
}

impl Job {
    /// The operation of this number. Each distance of an insert's vector to a pivot counts as one step.
    pub fn new<M: Metric, L: Ledger>(
        op: &Op,
        number: u32,
        metric: &M,
        pivots: &Pivots,
        steps: &mut Steps<L>,
    ) -> Job
        requires fits { IsOpOver (M.space metric.now) op.now }
        requires pivots { AllByRecursion (λ p. IsTrue ((M.space metric.now).fits p)) pivots.now }
        ensures begun { Begun result op.now number (record { metric = M.space metric.now; pivots = pivots.now }) }
        ensures steps { steps.new ≡ steps.old + measured_for op.now pivots.now }
    {
        let operation = match op {
            Op::Insert { id, vector } => {
                let dists = pivots.measure(metric, vector, steps);
                Operation::Insert {
                    insert: InsertJob::new(InsertOp::new(*id, vector.copy(), dists, number)),
                }
            }
            Op::Delete { id } => Operation::Delete {
                delete: DeleteOp::new(*id, number),
            },
            Op::Range { radius, query } => Operation::Range {
                range: RangeOp::new(*radius, query.copy()),
                number,
            },
            Op::Nearest { count, query } => Operation::Nearest {
                nearest: NearestOp::new(*count, query.copy()),
                number,
            },
        };
        Job {
            operation,
            begun: false,
        }
    }

    /// Makes one section. Each distance that a query computes counts as one step.
    pub fn step<W: World, M: Metric, L: Ledger>(
        &mut self,
        alloc: Global,
        world: &mut W,
        metric: &M,
        pivots: &Pivots,
        steps: &mut Steps<L>,
    ) -> JobTurn
        requires space { M.space metric.now ≡ metric_space (W.view world.old).settings }
        requires pivots { pivots.now ≡ (W.view world.old).settings.pivots }
        requires ready { Ready self.old (W.view world.old) }
        ensures turned { Turned self.old (W.view world.old) result self.new (W.view world.new) }
        ensures ticks { Ticks self.old (W.view world.old) steps.old result self.new (W.view world.new) steps.new }
        ensures section { W.section world.old world.new }
    {
        self.begun = true;
        match &mut self.operation {
            Operation::Insert { insert } => insert.step(alloc, world),
            Operation::Delete { delete } => told(delete.step(world)),
            Operation::Range { range, .. } => {
                told(range.step(alloc, world, metric, pivots, steps))
            }
            Operation::Nearest { nearest, .. } => {
                told(nearest.step(alloc, world, metric, pivots, steps))
            }
        }
    }
}

/// The answer of an operation that splits no leaf.
fn told(turn: Turn) -> JobTurn
    requires { IsNotCrowded turn }
    ensures { Tells turn result }
{
    match turn {
        Turn::More => JobTurn::More,
        Turn::Held => JobTurn::Held,
        Turn::Crowded { .. } => unreachable!(),
        Turn::Done { reply } => JobTurn::Done { reply },
    }
}
