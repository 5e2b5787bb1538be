//! What scripts after a schedule leave.
ghost use Rattle.std.specs.Prelude.{◌≡◌, ◌<◌, ◌≤◌, ◌+◌, ◌||◌, ℕ, IfOk, false, length, map};
ghost use Rattle.std.specs.List.{AllByRecursion};
ghost use Rattle.mi_base.specs.declared.limits.TheConstants.{MAX_SESSIONS};
ghost use Rattle.mi_base.specs.Configuration.{metric_space};
ghost use Rattle.mi_base.specs.Scripts.{IsScriptOver};
ghost use Rattle.mi_legal.specs.Work.{AllTakeSteps};
ghost use Rattle.mi_replay.specs.Outcomes.{IsLeftBy, Played, SameButSeen, lacks_page};
ghost use Rattle.mi_replay.specs.Tables.{IsItemOver, IsOver, Waits};
ghost use Rattle.mi_settle.specs.Settling.{is_refused};
ghost use Rattle.mi_solo.specs.States.{actor_in};

use crate::replaying::finished;
use crate::seats::Seat;
use crate::tables::Table;
use mi_base::{NoMemory, Schedule, Script, Settings, Steps, Transcript};
use mi_metric::Metric;
use mi_perm::Pivots;
use mi_settle::{SplitterSeat, outcome_of, settle};
use mi_solo::Solo;
use mi_tree::Outcome;
use mi_world::World;
use std::alloc::Global;
use std::marker::Brand;
use std::sync::ledger::{Blank, Ledger};

/// Runs scripts after a schedule on one thread, on an empty index: the schedule's turns, then
/// rounds in which each session in ascending number and then the splitter finish one operation,
/// until all scripts have ended, and then the splitter alone until all leaves are settled.
pub fn replay<M: Metric>(
    alloc: Global,
    settings: &Settings,
    metric: &M,
    pivots: &Pivots,
    scripts: &[Script],
    schedule: &Schedule,
) -> Result<Outcome, NoMemory>
    requires space { M.space metric.now ≡ metric_space settings.now }
    requires pivots { pivots.now ≡ settings.now.pivots }
    requires few { length scripts.now ≤ MAX_SESSIONS }
    requires scripts { AllByRecursion (IsScriptOver (metric_space settings.now)) scripts.now }
    requires schedule { AllByRecursion (IsItemOver (length scripts.now)) schedule.now }
    ensures { IfOk result (Played settings.now scripts.now schedule.now) }
{
    let blank = Blank::new(1);
    counted::<M, Brand>(alloc, settings, metric, pivots, scripts, schedule, blank)
}

/// The same with the counter of steps that this blank opens.
fn counted<M: Metric, L: Ledger>(
    alloc: Global,
    settings: &Settings,
    metric: &M,
    pivots: &Pivots,
    scripts: &[Script],
    schedule: &Schedule,
    blank: Blank,
) -> Result<Outcome, NoMemory>
    requires name { blank.name ≡ L.name }
    requires parts { blank.parts ≡ L.parts }
    requires some { 0 < blank.parts }
    requires space { M.space metric.now ≡ metric_space settings.now }
    requires pivots { pivots.now ≡ settings.now.pivots }
    requires few { length scripts.now ≤ MAX_SESSIONS }
    requires scripts { AllByRecursion (IsScriptOver (metric_space settings.now)) scripts.now }
    requires schedule { AllByRecursion (IsItemOver (length scripts.now)) schedule.now }
    ensures { IfOk result (Played settings.now scripts.now schedule.now) }
{
    let mut steps = Steps::<L>::new(blank);
    replay_with(
        alloc, settings, metric, pivots, scripts, schedule, &mut steps,
    )
}

/// The same with the caller's counter, which is left as many steps further as the replies tell.
pub fn replay_with<M: Metric, L: Ledger>(
    alloc: Global,
    settings: &Settings,
    metric: &M,
    pivots: &Pivots,
    scripts: &[Script],
    schedule: &Schedule,
    steps: &mut Steps<L>,
) -> Result<Outcome, NoMemory>
    requires space { M.space metric.now ≡ metric_space settings.now }
    requires pivots { pivots.now ≡ settings.now.pivots }
    requires few { length scripts.now ≤ MAX_SESSIONS }
    requires scripts { AllByRecursion (IsScriptOver (metric_space settings.now)) scripts.now }
    requires schedule { AllByRecursion (IsItemOver (length scripts.now)) schedule.now }
    ensures played { IfOk result (Played settings.now scripts.now schedule.now) }
    ensures steps { IfOk result (λ o. AllTakeSteps settings.now o.log scripts.now o.replies steps.old steps.new) }
{
    let table = finished(alloc, settings, metric, pivots, scripts, schedule, steps)?;
    outcome(alloc, table, scripts, settings.pages)
}

/// The outcome where all scripts have ended: the splitter settles all leaves first.
fn outcome(alloc: Global, table: Table, scripts: &[Script], pages: u32) -> Result<Outcome, NoMemory>
    requires few { length scripts.now ≤ MAX_SESSIONS }
    requires waits { Waits scripts.now table }
    requires over { IsOver scripts.now table }
    ensures { IfOk result (IsLeftBy (length scripts.now) pages table) }
{
    let Table {
        mut solo,
        seats,
        splitter,
    } = table;
    let actor = scripts.len() as u32;
    solo.turn_to(actor);
    let settled = settle(alloc, &mut solo);
    let unsettled = lacks_split(&splitter, &settled);
    let replies = transcript(alloc, seats)?;
    let mut outcome = outcome_of(alloc, &solo, replies, unsettled, pages)?;
    outcome.short |= lacks_page(&mut solo, actor + 1);
    Ok(outcome)
}

/// The replies of all seats.
fn transcript(alloc: Global, seats: Vec<Seat>) -> Result<Transcript, NoMemory>
    ensures { IfOk result (λ replies. replies ≡ map (λ a. a.replies.items) seats.items) }
{
    let mut replies = Transcript::with_room(alloc, seats.len())?;
    for seat in seats {
        replies.push(seat.into_replies())?;
    }
    Ok(replies)
}

/// A split was given up for want of memory, while scripts ran or after.
fn lacks_split(splitter: &SplitterSeat, settled: &Result<(), NoMemory>) -> bool
    ensures { result ≡ (splitter.now.wanted || is_refused settled.now) }
{
    splitter.wants_memory() || settled.is_err()
}

/// Memory was wanted for a page of one of the actors, which are so many. Each comes to its turn.
fn lacks_page(solo: &mut Solo, actors: u32) -> bool
    requires all { actors ≡ length solo.old.state.actors }
    requires going { (a : ℕ) → a < actors → (actor_in solo.old.state a).ended ≡ false }
    ensures result { result ≡ lacks_page solo.old.state }
    ensures same { SameButSeen solo.old.state solo.new.state }
{
    for actor in 0..actors {
        solo.turn_to(actor);
        if solo.lacked() {
            return true;
        }
    }
    false
}
