//! Whole runs, whose workers go on beside each other.
ghost use Rattle.std.specs.Prelude.{◌≡◌, ◌≤◌, IfOk, length};
ghost use Rattle.std.specs.List.{AllByRecursion};
ghost use Rattle.mi_base.specs.Configuration.{metric_space};
ghost use Rattle.mi_base.specs.Scripts.{IsScriptOver};
ghost use Rattle.mi_base.specs.Space.{l1_metric};

use crate::opening::line;
use mi_base::{Id, LogEvent, MAX_OPS, Op, Replies, Reply, Script, Settings, Update, Vector};
use mi_metric::{L1, Metric};
use mi_outside::OpenGate;
use mi_perm::Pivots;
use mi_run::run;
use mi_tree::{Leaf, Outcome};
use std::alloc::Global;
use std::sync::Wait;
use std::test::Fail;
use std::thread::Threads;

/// Inserts three objects, one behind the other.
fn three<M: Metric>(alloc: Global, metric: &M) -> Result<Script, Fail>
    ensures { IfOk result (IsScriptOver (M.space metric.now)) }
{
    let mut script = Script::new(alloc);
    for number in 1..4u32 {
        let id = Id::new(u64::from(number))?;
        let vector = Vector::new(&[i64::from(number)])?;
        if !metric.fits(&vector) {
            return Err("a place on the line".into());
        }
        script.push(Op::Insert { id, vector })?;
    }
    if script.len() > MAX_OPS as usize {
        return Err("a script of that length".into());
    }
    Ok(script)
}

/// Inserts eight pairs of objects at one place each, and deletes one of each pair.
fn script<M: Metric>(alloc: Global, metric: &M, first: u64) -> Result<Script, Fail>
    ensures { IfOk result (IsScriptOver (M.space metric.now)) }
{
    let mut script = Script::new(alloc);
    for number in 0..8u32 {
        let kept = Id::new(first.saturating_add(u64::from(number)))?;
        let gone = Id::new(first.saturating_add(u64::from(number)).saturating_add(100))?;
        let vector = Vector::new(&[i64::from(number)])?;
        if !metric.fits(&vector) {
            return Err("a place on the line".into());
        }
        let again = vector.copy();
        script.push(Op::Insert { id: gone, vector })?;
        script.push(Op::Insert {
            id: kept,
            vector: again,
        })?;
        script.push(Op::Delete { id: gone })?;
    }
    if script.len() > MAX_OPS as usize {
        return Err("a script of that length".into());
    }
    Ok(script)
}

/// The number of an accepted update, and 0 for another reply.
fn number_of(reply: &Reply) -> u32 {
    match reply {
        Reply::Stored { number } | Reply::Removed { number } => *number,
        _ => 0,
    }
}

/// Each reply names an update, of which the log has so many.
fn are_accepted(replies: &Replies, updates: usize) -> bool {
    replies.as_slice().iter().all(|reply| 0 < number_of(reply)
        && number_of(reply) as usize <= updates)
}

fn is_update(event: &LogEvent) -> bool {
    matches!(event, LogEvent::Update { .. })
}

/// How many updates the log has.
fn count_updates(log: &[LogEvent]) -> usize {
    log.iter().filter(|event| is_update(event)).count()
}

/// The operation of this number inserted the object of this number at that place.
fn is_insert(event: &LogEvent, number: u8) -> bool {
    match event {
        LogEvent::Update {
            session: 0,
            op,
            update: Update::Insert { id, vector },
        } => {
            *op == u32::from(number)
                && id.get() == u64::from(number)
                && vector.as_slice() == [i32::from(number)].as_slice()
        }
        _ => false,
    }
}

fn is_split(event: &LogEvent, prefix: &[u8]) -> bool {
    match event {
        LogEvent::Split { prefix: of } => of.as_slice() == prefix,
        LogEvent::Update { .. } => false,
    }
}

/// The log has the three inserts and a split of the first pivot's cell.
fn has_events(log: &[LogEvent]) -> bool {
    match log {
        [one, two, three, split] => {
            is_insert(one, 1) && is_insert(two, 2) && is_insert(three, 3) && is_split(split, &[0])
        }
        _ => false,
    }
}

fn is_leaf(leaf: &Leaf, prefix: &[u8], count: u32) -> bool {
    leaf.prefix.as_slice() == prefix && leaf.count == count
}

/// All three objects are in the cell of the first pivot and then the second.
fn has_cells(cells: &[Leaf]) -> bool {
    match cells {
        [near, far] => is_leaf(near, &[0, 1], 3) && is_leaf(far, &[1], 0),
        _ => false,
    }
}

/// What these scripts leave.
fn ran<R: Threads + Wait + Sync>(
    rt: &R,
    alloc: Global,
    settings: &Settings,
    metric: &L1,
    scripts: &[Script],
) -> Result<Outcome, Fail>
    requires space { l1_metric metric.now.dims ≡ metric_space settings.now }
    requires some { 1 ≤ length scripts.now }
    requires few { length scripts.now ≤ 2 }
    requires scripts { AllByRecursion (IsScriptOver (metric_space settings.now)) scripts.now }
{
    let pivots = Pivots::new(alloc, &settings.pivots)?;
    let gate = OpenGate::new();
    Ok(run(rt, alloc, settings, metric, &pivots, scripts, &gate)?)
}

/// What one script leaves.
fn ran_alone<R: Threads + Wait + Sync>(
    rt: &R,
    alloc: Global,
    settings: &Settings,
) -> Result<Outcome, Fail>
    requires { metric_space settings.now ≡ l1_metric 1 }
{
    let metric = L1::new(1);
    let scripts = [three(alloc, &metric)?];
    ran(rt, alloc, settings, &metric, &scripts)
}

/// What two scripts leave.
fn ran_beside<R: Threads + Wait + Sync>(
    rt: &R,
    alloc: Global,
    settings: &Settings,
) -> Result<Outcome, Fail>
    requires { metric_space settings.now ≡ l1_metric 1 }
{
    let metric = L1::new(1);
    let scripts = [script(alloc, &metric, 1000)?, script(alloc, &metric, 2000)?];
    ran(rt, alloc, settings, &metric, &scripts)
}

#[test]
fn a_cell_of_three_objects_is_split(rt: HostRuntime) -> Result<(), Fail> {
    let alloc = rt.alloc();
    let settings = line(alloc, &[0, 10], 2, 40)?;
    let outcome = ran_alone(&rt, alloc, &settings)?;
    assert!(rt; has_events(outcome.log.as_slice()));
    assert!(rt; has_cells(outcome.cells.as_slice()));
    assert_eq!(rt; outcome.entries, 3);
    Ok(())
}

#[test]
fn the_log_has_the_updates_that_the_replies_name(rt: HostRuntime) -> Result<(), Fail> {
    let alloc = rt.alloc();
    let settings = line(alloc, &[0, 10], 2, 40)?;
    let outcome = ran_beside(&rt, alloc, &settings)?;
    let updates = count_updates(outcome.log.as_slice());
    for replies in outcome.replies.as_slice() {
        assert!(rt; replies.len() == 24 && are_accepted(replies, updates));
    }
    assert_eq!(rt; updates, 48);
    assert_eq!(rt; outcome.entries, 16);
    Ok(())
}
