//! Scripts in threads, and what they leave.
ghost use Rattle.std.specs.Prelude.{◌≡◌, ◌≤◌, IfOk, List, Some, length};
ghost use Rattle.std.specs.List.{AllByRecursion};
ghost use Rattle.mi_base.specs.declared.limits.TheConstants.{MAX_SESSIONS};
ghost use Rattle.mi_base.specs.declared.records.Op.{Op};
ghost use Rattle.mi_base.specs.Configuration.{IsWithinLimits, metric_space};
ghost use Rattle.mi_base.specs.Scripts.{IsScriptOver};
ghost use Rattle.mi_hall.specs.Passes.{place_view};
ghost use Rattle.mi_run.specs.Crews.{HasAbsorbed, HaveWorked, IsGathered, IsNew, Tells};
ghost use Rattle.mi_run.specs.Workers.{HasWorked, MayWork};
ghost use Rattle.mi_settle.specs.Headlines.{Headline};

use crate::crews::{Left, gather, seat};
use crate::workers::Worker;
use mi_base::{NoMemory, Script, Settings, Transcript};
use mi_hall::{Hall, Pass};
use mi_metric::Metric;
use mi_outside::Gate;
use mi_perm::Pivots;
use mi_settle::{outcome_of, settle};
use mi_tree::Outcome;
use std::alloc::Global;
use std::sync::Wait;
use std::thread::{self, Threads};

/// Runs each script in a thread of its own, and beside them one that splits and sweeps, on an empty
/// index, which is then settled. Actor 0 serves the first script, and the last one is the splitter;
/// each passes the gate between its sections. Where a thread can't be made, its work is done by
/// another, that of the splitter last.
pub fn run<R: Threads + Wait + Sync, M: Metric + Sync, G: Gate>(
    rt: &R,
    alloc: Global,
    settings: &Settings,
    metric: &M,
    pivots: &Pivots,
    scripts: &[Script],
    gate: &G,
) -> Result<Outcome, NoMemory>
    requires space { M.space metric.now ≡ metric_space settings.now }
    requires pivots { pivots.now ≡ settings.now.pivots }
    requires some { 1 ≤ length scripts.now }
    requires few { length scripts.now ≤ MAX_SESSIONS }
    requires scripts { AllByRecursion (IsScriptOver (metric_space settings.now)) scripts.now }
    ensures { IfOk result (Headline settings.now scripts.now) }
{
    let pages = settings.pages;
    let (hall, pass) = Hall::open(alloc, settings)?;
    let left = in_hall(rt, alloc, &hall, pass, metric, pivots, scripts, gate)?;
    close(alloc, hall, left, pages)
}

/// Makes the places of all workers, lets them work, and absorbs all into the first.
fn in_hall<R: Threads + Wait + Sync, M: Metric + Sync, G: Gate>(
    rt: &R,
    alloc: Global,
    hall: &Hall,
    pass: Pass,
    metric: &M,
    pivots: &Pivots,
    scripts: &[Script],
    gate: &G,
) -> Result<Left, NoMemory>
    requires table { pass.table ≡ hall.now }
    requires new { IsNew (place_view pass).settings (place_view pass) }
    requires zero { (place_view pass).actor ≡ 0 }
    requires limits { IsWithinLimits (place_view pass).settings }
    requires space { M.space metric.now ≡ metric_space (place_view pass).settings }
    requires pivots { pivots.now ≡ (place_view pass).settings.pivots }
    requires some { 1 ≤ length scripts.now }
    requires scripts { AllByRecursion (IsScriptOver (metric_space (place_view pass).settings)) scripts.now }
    ensures { IfOk result (λ left. IsGathered (Some pass) scripts.now left.pass left.replies) }
{
    let mut workers = seat(alloc, hall.place(rt, pass), scripts)?;
    // Here, so that memory is wanted before the work and not behind it.
    let replies = Transcript::with_room(alloc, scripts.len())?;
    work_all(rt, alloc, &mut workers, metric, pivots, gate);
    gather(scripts, workers, replies)
}

/// Lets each worker work in a thread of its own, where one can be made.
fn work_all<'h, 's, R: Threads + Wait + Sync, M: Metric + Sync, G: Gate>(
    rt: &R,
    alloc: Global,
    workers: &mut [Worker<'h, 's, R>],
    metric: &M,
    pivots: &Pivots,
    gate: &G,
)
    requires some { 1 ≤ length workers.old }
    requires may { AllByRecursion (MayWork (M.space metric.now) pivots.now) workers.old }
    ensures { HaveWorked workers.old workers.new }
{
    // Where no thread can be made they work one after another, the last one first: so the splitter's,
    // which waits until all others have left, stands first meanwhile.
    workers.reverse();
    work_beside(rt, alloc, workers, metric, pivots, gate);
    workers.reverse();
}

/// Lets each of these workers work in a thread of its own, where one can be made.
fn work_beside<'h, 's, R: Threads + Wait + Sync, M: Metric + Sync, G: Gate>(
    rt: &R,
    alloc: Global,
    workers: &mut [Worker<'h, 's, R>],
    metric: &M,
    pivots: &Pivots,
    gate: &G,
)
    requires some { 1 ≤ length workers.old }
    requires may { AllByRecursion (MayWork (M.space metric.now) pivots.now) workers.old }
    ensures { HaveWorked workers.old workers.new }
{
    thread::for_each_mut(
        rt,
        workers,
        workers.len(),
        &|_, worker: &mut Worker<R>|
            requires { MayWork (M.space metric.now) pivots.now worker.old }
            ensures { HasWorked worker.old worker.new }
        { worker.work(rt, alloc, metric, pivots, gate) },
    );
}

/// Closes the hall, settles the core, and tells of it.
fn close(alloc: Global, hall: Hall, left: Left, pages: u32) -> Result<Outcome, NoMemory>
    requires table { left.pass.table ≡ hall }
    requires absorbed { (scripts : List (List Op)) × HasAbsorbed scripts (place_view left.pass) left.replies }
    ensures { IfOk result (Tells (place_view left.pass) left.replies left.wanted pages) }
{
    let Left {
        pass,
        replies,
        wanted,
    } = left;
    let Ok(mut solo) = hall.close(alloc, pass) else {
        return Err(NoMemory);
    };
    let unsettled = settle(alloc, &mut solo).is_err();
    outcome_of(alloc, &solo, replies, wanted | unsettled, pages)
}
