//! Scripts after a schedule, and then in rounds until all have ended.
ghost use Rattle.std.specs.Prelude.{◌≡◌, ◌≤◌, IfOk, length};
ghost use Rattle.std.specs.List.{AllByRecursion};
ghost use Rattle.mi_base.specs.declared.limits.TheConstants.{MAX_SESSIONS};
ghost use Rattle.mi_base.specs.Configuration.{metric_space};
ghost use Rattle.mi_base.specs.Scripts.{IsScriptOver};
ghost use Rattle.mi_replay.specs.Spending.{HasSpent};
ghost use Rattle.mi_replay.specs.Tables.{HasFinished, HasRun, IsItemOver};

use crate::tables::Table;
use mi_base::{NoMemory, Schedule, Script, Settings, Steps};
use mi_metric::Metric;
use mi_perm::Pivots;
use std::alloc::Global;
use std::sync::ledger::Ledger;

/// The table after the schedule.
fn scheduled<M: Metric, L: Ledger>(
    alloc: Global,
    settings: &Settings,
    metric: &M,
    pivots: &Pivots,
    scripts: &[Script],
    schedule: &Schedule,
    steps: &mut Steps<L>,
) -> Result<Table, NoMemory>
    requires space { M.space metric.now ≡ metric_space settings.now }
    requires pivots { pivots.now ≡ settings.now.pivots }
    requires few { length scripts.now ≤ MAX_SESSIONS }
    requires scripts { AllByRecursion (IsScriptOver (metric_space settings.now)) scripts.now }
    requires schedule { AllByRecursion (IsItemOver (length scripts.now)) schedule.now }
    ensures run { IfOk result (HasRun settings.now scripts.now schedule.now) }
    ensures spent { IfOk result (HasSpent scripts.now steps.old steps.new) }
{
    let mut table = Table::open(alloc, settings, scripts)?;
    for place in 0..schedule.len() {
        let item = *schedule.at(place);
        table.item(alloc, scripts, item, metric, pivots, steps);
    }
    Ok(table)
}

/// The table after the schedule and the finishing rounds.
pub fn finished<M: Metric, L: Ledger>(
    alloc: Global,
    settings: &Settings,
    metric: &M,
    pivots: &Pivots,
    scripts: &[Script],
    schedule: &Schedule,
    steps: &mut Steps<L>,
) -> Result<Table, NoMemory>
    requires space { M.space metric.now ≡ metric_space settings.now }
    requires pivots { pivots.now ≡ settings.now.pivots }
    requires few { length scripts.now ≤ MAX_SESSIONS }
    requires scripts { AllByRecursion (IsScriptOver (metric_space settings.now)) scripts.now }
    requires schedule { AllByRecursion (IsItemOver (length scripts.now)) schedule.now }
    ensures finished { IfOk result (HasFinished settings.now scripts.now schedule.now) }
    ensures spent { IfOk result (HasSpent scripts.now steps.old steps.new) }
{
    let mut table = scheduled(alloc, settings, metric, pivots, scripts, schedule, steps)?;
    while !table.is_over(scripts) {
        table.round(alloc, scripts, metric, pivots, steps);
    }
    Ok(table)
}
