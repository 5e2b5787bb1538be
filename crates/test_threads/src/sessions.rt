//! Sessions in threads, by their own calls.
ghost use Rattle.std.specs.Prelude.{◌≡◌, ◌+◌, ◌<◌, ◌≤◌, ◌^◌, IsTrue, length};
ghost use Rattle.std.specs.List.{AllByRecursion, AllZip};
ghost use Rattle.mi_base.specs.Configuration.{metric_space};
ghost use Rattle.mi_base.specs.Space.{l1_metric};
ghost use Rattle.mi_latch.specs.Views.{newcomer};

use crate::opening::{line, seated};
use mi_base::{Id, NoMemory, Position, Reply, Settings, Steps, Vector};
use mi_hall::{Hall, Pass};
use mi_metric::{L1, Metric};
use mi_perm::Pivots;
use mi_session::Session;
use mi_world::Forks;
use std::alloc::Global;
use std::marker::Brand;
use std::process::Abort;
use std::sync::Wait;
use std::sync::ledger::{Blank, Ledger};
use std::test::Fail;
use std::thread::{self, Threads};

/// Inserts an object, asks for it, and deletes it. Whether each answer was of its kind.
fn visit<R: Wait, W: Forks, M: Metric, L: Ledger>(
    rt: &R,
    alloc: Global,
    session: &mut Session<'_, W, M>,
    id: Id,
    vector: &Vector,
    steps: &mut Steps<L>,
) -> bool
    requires fits { IsTrue ((metric_space (W.view session.old.world).settings).fits vector.now) }
    requires few { session.old.operations + 4 < 2 ^ 32 }
    ensures settings { (W.view session.new.world).settings ≡ (W.view session.old.world).settings }
    ensures kin { W.kin session.old.world session.new.world }
    ensures operations { session.new.operations ≡ session.old.operations + 4 }
{
    let stored = session.insert(rt, alloc, id, vector);
    let ball = session.range(rt, alloc, 1, vector, steps);
    let near = session.nearest(rt, alloc, 2, vector, steps);
    let removed = session.delete(rt, alloc, id);
    matches!(&stored, Reply::Stored { .. })
        && matches!(&ball, Reply::Range { .. })
        && matches!(&near, Reply::Nearest { .. })
        && matches!(&removed, Reply::Removed { .. })
}

/// Visits forty times, with identifiers from this one on. Whether all went well.
fn visit_all<R: Wait, W: Forks, M: Metric, L: Ledger>(
    rt: &R,
    alloc: Global,
    session: &mut Session<'_, W, M>,
    first: u64,
    vector: &Vector,
    blank: Blank,
) -> bool
    requires name { blank.name ≡ L.name }
    requires parts { blank.parts ≡ L.parts }
    requires some { 0 < blank.parts }
    requires fits { IsTrue ((metric_space (W.view session.old.world).settings).fits vector.now) }
    requires new { session.old.operations ≡ 0 }
    ensures { W.kin session.old.world session.new.world }
{
    let mut steps = Steps::<L>::new(blank);
    let mut all = true;
    for number in 0..40 {
        let Ok(id) = Id::new(first.saturating_add(number)) else {
            return false;
        };
        all &= visit(rt, alloc, session, id, vector, &mut steps);
    }
    all
}

/// Visits with this session, while another may visit with its own.
fn serve<R: Wait, W: Forks, M: Metric>(
    rt: &R,
    alloc: Global,
    session: &mut Session<'_, W, M>,
    first: u64,
    vector: &Vector,
) -> bool
    requires fits { IsTrue ((metric_space (W.view session.old.world).settings).fits vector.now) }
    requires new { session.old.operations ≡ 0 }
    ensures { W.kin session.old.world session.new.world }
{
    visit_all::<R, W, M, Brand>(rt, alloc, session, first, vector, Blank::new(1))
}

/// The position has all that the other has.
fn reaches(position: Position, other: Position) -> bool {
    position.updates >= other.updates && position.splits >= other.splits
}

/// A session that may be let go, whose actor ends with it.
struct Visitor<'a, W: Forks + Drop, M: Metric> {
    session: Session<'a, W, M>,
}

impl<'a, W: Forks + Drop, M: Metric> Drop for Visitor<'a, W, M> {
    fn drop(self) {
        let Visitor { session } = self;
        drop(session.into_world());
    }
}

impl<'a, W: Forks + Drop, M: Metric> Visitor<'a, W, M> {
    fn into_session(self) -> Session<'a, W, M>
        ensures { result ≡ self.entry.session }
    {
        let Visitor { session } = self;
        session
    }
}

/// Visits with each session, in threads.
fn serve_all<'a, R: Threads + Wait + Abort + Sync, W: Forks + Send + Drop, M: Metric + Sync>(
    rt: &R,
    alloc: Global,
    visitors: &mut [Visitor<'a, W, M>],
    vector: &Vector,
)
    requires { AllByRecursion (λ x. IsTrue ((metric_space (W.view x.session.world).settings).fits vector.now) × (x.session.operations ≡ 0)) visitors.old }
    ensures { AllZip (λ x y. W.kin x.session.world y.session.world) visitors.old visitors.new }
{
    thread::for_each_mut(
        rt,
        visitors,
        2,
        &|place, visitor: &mut Visitor<'_, W, M>|
            requires { IsTrue ((metric_space (W.view visitor.old.session.world).settings).fits vector.now) × (visitor.old.session.operations ≡ 0) }
            ensures { W.kin visitor.old.session.world visitor.new.session.world }
        {
            let first = (place as u64).saturating_mul(100);
            assert!(rt; serve(rt, alloc, &mut visitor.session, first, vector));
        },
    );
}

/// Absorbs the last visitor. Whether the front then reaches as far as its own did.
fn absorb_last<'a, W: Forks + Drop, M: Metric>(
    session: &mut Session<'a, W, M>,
    visitors: &mut Vec<Visitor<'a, W, M>>,
) -> bool
    requires some { 1 ≤ length visitors.old.items }
    requires kin { AllByRecursion (λ x. W.kin session.old.world x.session.world) visitors.old.items }
    ensures fewer { length visitors.new.items + 1 ≡ length visitors.old.items }
    ensures kin { AllByRecursion (λ x. W.kin session.new.world x.session.world) visitors.new.items }
{
    let other = visitors.pop().unwrap().into_session();
    let (made, front) = (other.operations(), other.front());
    session.absorb(other);
    made == 160 && reaches(session.front(), front)
}

/// Forks two sessions, uses both in threads, and absorbs them.
fn use_two<'a, R: Threads + Wait + Abort + Sync, W: Forks + Send + Drop, M: Metric + Sync>(
    rt: &R,
    alloc: Global,
    session: &mut Session<'a, W, M>,
    vector: &Vector,
) -> Result<(), NoMemory>
    requires { IsTrue ((metric_space (W.view session.old.world).settings).fits vector.now) }
{
    let mut visitors = Vec::new(alloc);
    let first = session.fork(alloc)?;
    visitors.push(Visitor { session: first })?;
    let second = session.fork(alloc)?;
    visitors.push(Visitor { session: second })?;
    serve_all(rt, alloc, &mut visitors, vector);
    let one = absorb_last(session, &mut visitors);
    let other = absorb_last(session, &mut visitors);
    assert!(rt; one && other && session.operations() == 0);
    Ok(())
}

/// The first actor's session, and two others.
fn use_hall<R: Threads + Wait + Abort + Sync>(
    rt: &R,
    alloc: Global,
    hall: &Hall,
    pass: Pass,
    settings: &Settings,
    vector: &Vector,
) -> Result<(), NoMemory>
    requires table { pass.table ≡ hall.now }
    requires new { pass.sight ≡ newcomer settings.now }
    requires line { metric_space settings.now ≡ l1_metric 1 }
    requires fits { IsTrue ((l1_metric 1).fits vector.now) }
{
    let pivots = Pivots::new(alloc, &settings.pivots)?;
    let metric = L1::new(1);
    let mut session = seated(rt, hall, pass, settings, &metric, &pivots);
    let used = use_two(rt, alloc, &mut session, vector);
    drop(session.into_world());
    used
}

#[test]
fn two_sessions_in_threads_are_absorbed(rt: HostRuntime) -> Result<(), Fail> {
    let alloc = rt.alloc();
    let settings = line(alloc, &[0, 10], 2, 40)?;
    let vector = Vector::new(&[2])?;
    assert!(rt; L1::new(1).fits(&vector));
    let (hall, pass) = Hall::open(alloc, &settings)?;
    use_hall(&rt, alloc, &hall, pass, &settings, &vector)?;
    Ok(())
}
