//! One actor's operations.
ghost use Rattle.std.specs.Prelude.{◌≡◌, ◌+◌, ◌<◌, ◌^◌, ◌-◌, IfOk, OnErr};
ghost use Rattle.mi_base.specs.Configuration.{IsWithinLimits, metric_space};
ghost use Rattle.mi_base.specs.History.{end_of};
ghost use Rattle.mi_base.specs.Scripts.{IsOpOver};
ghost use Rattle.mi_base.specs.declared.records.Op.TheVariants as op;
ghost use Rattle.mi_job.specs.Claims.{ClaimsNone};
ghost use Rattle.mi_legal.specs.Work.{TakesSteps};
ghost use Rattle.mi_session.specs.Sessions.{Answers};
ghost use Rattle.mi_world.specs.Families.{Absorbs, Forked, NotForked};

use mi_base::{Id, NoMemory, Op, Position, Reply, Steps, Vector};
use mi_job::{Job, JobTurn};
use mi_metric::Metric;
use mi_outside::{Gate, GatePoint, OpenGate};
use mi_perm::Pivots;
use mi_world::{Forks, World};
use std::alloc::Global;
use std::marker::{Brand, Model};
use std::sync::Wait;
use std::sync::ledger::{Blank, Ledger};
use std::thread;

/// One actor of an index, which makes whole operations, one after another. They count from 1.
pub struct Session<'a, W: Forks, M: Metric> {
    world: W,
    metric: &'a M,
    pivots: &'a Pivots,
    operations: u32,
}

impl<'a, W: Forks, M: Metric> Model for Session<'a, W, M> {
    ghost use Rattle.mi_session.specs.Sessions.{IsSeated, Sitting};

    ghost Value = { Sitting W };

    ghost view = { λ s. record { world = s.world; operations = s.operations } };

    ghost invariant = { λ s. IsSeated (M.space s.metric.now) s.pivots.now (W.view s.world) };
}

impl<'a, W: Forks, M: Metric> Session<'a, W, M> {
    /// A session of this actor, which claims nothing. No operation was made.
    pub fn new(world: W, metric: &'a M, pivots: &'a Pivots) -> Session<'a, W, M>
        requires space { M.space metric.now ≡ metric_space (W.view world).settings }
        requires pivots { pivots.now ≡ (W.view world).settings.pivots }
        requires limits { IsWithinLimits (W.view world).settings }
        requires claims { ClaimsNone (W.view world) }
        ensures { result ≡ record { world = world; operations = 0 } }
    {
        Session {
            world,
            metric,
            pivots,
            operations: 0,
        }
    }

    /// The position of the log that the session has seen.
    pub fn front(&self) -> Position
        ensures { result ≡ end_of (W.view self.now.world).seen }
    {
        self.world.seen()
    }

    /// How many operations were made.
    pub fn operations(&self) -> u32
        ensures { result ≡ self.now.operations }
    {
        self.operations
    }

    /// The actor again, which claims nothing.
    pub fn into_world(self) -> W
        ensures world { result ≡ self.entry.world }
        ensures claims { ClaimsNone (W.view result) }
    {
        let Session {
            world,
            metric: _,
            pivots: _,
            operations: _,
        } = self;
        world
    }

    /// Inserts the object. What another holds is tried again until it is free.
    pub fn insert<R: Wait>(&mut self, rt: &R, alloc: Global, id: Id, vector: &Vector) -> Reply
        requires fits { IsOpOver (metric_space (W.view self.old.world).settings) (op.Insert id vector.now) }
        requires few { self.old.operations < 2 ^ 32 - 1 }
        ensures answers { Answers (op.Insert id vector.now) (self.old.operations + 1) (W.view self.old.world) result (W.view self.new.world) }
        ensures kin { W.kin self.old.world self.new.world }
        ensures operations { self.new.operations ≡ self.old.operations + 1 }
    {
        let vector = vector.copy();
        self.update::<R, Brand>(rt, alloc, &Op::Insert { id, vector }, Blank::new(1))
    }

    /// Deletes the object of the identifier. What another holds is tried again until it is free.
    pub fn delete<R: Wait>(&mut self, rt: &R, alloc: Global, id: Id) -> Reply
        requires fits { IsOpOver (metric_space (W.view self.old.world).settings) (op.Delete id) }
        requires few { self.old.operations < 2 ^ 32 - 1 }
        ensures answers { Answers (op.Delete id) (self.old.operations + 1) (W.view self.old.world) result (W.view self.new.world) }
        ensures kin { W.kin self.old.world self.new.world }
        ensures operations { self.new.operations ≡ self.old.operations + 1 }
    {
        self.update::<R, Brand>(rt, alloc, &Op::Delete { id }, Blank::new(1))
    }

    /// The objects within the radius. Each distance that is computed counts as one step.
    pub fn range<R: Wait, L: Ledger>(
        &mut self,
        rt: &R,
        alloc: Global,
        radius: u32,
        query: &Vector,
        steps: &mut Steps<L>,
    ) -> Reply
        requires fits { IsOpOver (metric_space (W.view self.old.world).settings) (op.Range radius query.now) }
        requires few { self.old.operations < 2 ^ 32 - 1 }
        ensures answers { Answers (op.Range radius query.now) (self.old.operations + 1) (W.view self.old.world) result (W.view self.new.world) }
        ensures steps { TakesSteps (W.view self.new.world).settings (W.view self.new.world).seen (op.Range radius query.now) result steps.old steps.new }
        ensures kin { W.kin self.old.world self.new.world }
        ensures operations { self.new.operations ≡ self.old.operations + 1 }
    {
        let query = query.copy();
        self.drive(
            rt,
            alloc,
            &Op::Range { radius, query },
            &OpenGate::new(),
            steps,
        )
    }

    /// The nearest objects, so many. Each distance that is computed counts as one step.
    pub fn nearest<R: Wait, L: Ledger>(
        &mut self,
        rt: &R,
        alloc: Global,
        count: u32,
        query: &Vector,
        steps: &mut Steps<L>,
    ) -> Reply
        requires fits { IsOpOver (metric_space (W.view self.old.world).settings) (op.Nearest count query.now) }
        requires few { self.old.operations < 2 ^ 32 - 1 }
        ensures answers { Answers (op.Nearest count query.now) (self.old.operations + 1) (W.view self.old.world) result (W.view self.new.world) }
        ensures steps { TakesSteps (W.view self.new.world).settings (W.view self.new.world).seen (op.Nearest count query.now) result steps.old steps.new }
        ensures kin { W.kin self.old.world self.new.world }
        ensures operations { self.new.operations ≡ self.old.operations + 1 }
    {
        let query = query.copy();
        self.drive(
            rt,
            alloc,
            &Op::Nearest { count, query },
            &OpenGate::new(),
            steps,
        )
    }

    /// Makes one operation, section by section, and passes the gate before the first, between two
    /// and after the last. What another holds is tried again until it is free.
    pub fn drive<R: Wait, G: Gate, L: Ledger>(
        &mut self,
        rt: &R,
        alloc: Global,
        op: &Op,
        gate: &G,
        steps: &mut Steps<L>,
    ) -> Reply
        requires fits { IsOpOver (metric_space (W.view self.old.world).settings) op.now }
        requires few { self.old.operations < 2 ^ 32 - 1 }
        ensures answers { Answers op.now (self.old.operations + 1) (W.view self.old.world) result (W.view self.new.world) }
        ensures steps { TakesSteps (W.view self.new.world).settings (W.view self.new.world).seen op.now result steps.old steps.new }
        ensures kin { W.kin self.old.world self.new.world }
        ensures operations { self.new.operations ≡ self.old.operations + 1 }
    {
        self.operations += 1;
        let number = self.operations;
        let actor = self.world.actor();
        let mut job = Job::new(op, number, self.metric, self.pivots, steps);
        gate.pass(actor, GatePoint::Begin { op: number });
        for _ in rt.forever() {
            match job.step(alloc, &mut self.world, self.metric, self.pivots, steps) {
                JobTurn::More => {}
                JobTurn::Held => thread::yield_now(),
                JobTurn::Done { reply } => {
                    gate.pass(actor, GatePoint::End { op: number });
                    return reply;
                }
            }
            gate.pass(actor, GatePoint::Section { op: number });
        }
        unreachable!()
    }

    /// Makes an update, whose steps the caller doesn't count.
    fn update<R: Wait, L: Ledger>(&mut self, rt: &R, alloc: Global, op: &Op, blank: Blank) -> Reply
        requires name { blank.name ≡ L.name }
        requires parts { blank.parts ≡ L.parts }
        requires some { 0 < blank.parts }
        requires fits { IsOpOver (metric_space (W.view self.old.world).settings) op.now }
        requires few { self.old.operations < 2 ^ 32 - 1 }
        ensures answers { Answers op.now (self.old.operations + 1) (W.view self.old.world) result (W.view self.new.world) }
        ensures kin { W.kin self.old.world self.new.world }
        ensures operations { self.new.operations ≡ self.old.operations + 1 }
    {
        let mut steps = Steps::<L>::new(blank);
        self.drive(rt, alloc, op, &OpenGate::new(), &mut steps)
    }

    /// A session of another actor of the same opening, which has seen what this one has. It has
    /// made no operation.
    pub fn fork(&mut self, alloc: Global) -> Result<Session<'a, W, M>, NoMemory>
        ensures ok { IfOk result (λ child. Forked (W.view self.old.world) (W.view self.new.world) (W.view child.world) × (child.operations ≡ 0)) }
        ensures err { OnErr result (NotForked (W.view self.old.world) (W.view self.new.world)) }
        ensures child { IfOk result (λ child. W.kin self.new.world child.world) }
        ensures kin { W.kin self.old.world self.new.world }
        ensures operations { self.new.operations ≡ self.old.operations }
    {
        let world = self.world.fork(alloc)?;
        Ok(Session::new(world, self.metric, self.pivots))
    }

    /// Ends the other session, which stems from the same opening. This one has seen what both have.
    pub fn absorb(&mut self, other: Session<'a, W, M>)
        requires kin { W.kin self.old.world other.world }
        ensures told { Absorbs (W.view self.old.world) (W.view other.entry.world) (W.view self.new.world) }
        ensures kin { W.kin self.old.world self.new.world }
        ensures operations { self.new.operations ≡ self.old.operations }
    {
        self.world.absorb(other.into_world());
    }
}
