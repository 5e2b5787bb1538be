//! The workload of a number.
ghost use Rattle.std.specs.Prelude.{◌≡◌, ◌++◌, ◌≤◌, ◌<◌, IfOk, IfErr};
ghost use Rattle.mi_make.specs.Workloads.{IsMade, MayBeRun, after_item, after_objects, after_operations, item, operations, script, settings_with, share};
ghost use Rattle.mi_make.specs.Draws.{after_vector, drawn, left_by, vector};

use crate::draws::Draws;
use mi_base::{
    Actor, Id, MetricKind, NoMemory, Op, Schedule, ScheduleItem, Script, Settings, TableRows, Take,
    VectorList,
};
use std::alloc::Global;

/// Pivots.
pub const PIVOTS: u32 = 12;
/// Objects, in the two scripts by turns.
pub const OBJECTS: u32 = 5_000;
/// Records of the schedule.
pub const ITEMS: u32 = 4_000;

/// Settings, two scripts and a schedule for them.
#[derive(Drop)]
pub struct Workload {
    /// L1, 16 coordinates, 12 pivots.
    pub settings: Settings,
    /// The even objects and the odd ones, with the queries that follow them.
    pub scripts: [Script; 2],
    /// Turns of the two sessions and of the splitter.
    pub schedule: Schedule,
}

// The next vectors.
fn pivots(alloc: Global, draws: &mut Draws, count: u32) -> Result<VectorList, NoMemory>
    ensures value { IfOk result (λ list. list ≡ drawn vector after_vector count draws.old.state) }
    ensures state { IfOk result (λ list. draws.new.state ≡ left_by after_vector count draws.old.state) }
{
    let mut list = VectorList::new(alloc);
    for _ in 0..count {
        list.push(draws.vector())?;
    }
    Ok(list)
}

// The identifier of this number.
fn id(number: u32) -> Id
    ensures { result ≡ number }
{
    match Id::new(u64::from(number)) {
        Ok(id) => id,
        Err(_) => unreachable!(),
    }
}

// What comes with the object of a number.
fn push_operations(script: &mut Script, draws: &mut Draws, number: u32) -> Result<(), NoMemory>
    ensures value { IfOk result (λ done. script.new ≡ script.old ++ operations number draws.old.state) }
    ensures state { IfOk result (λ done. draws.new.state ≡ after_operations number draws.old.state) }
{
    let vector = draws.vector();
    script.push(Op::Insert {
        id: id(number),
        vector,
    })?;
    if number % 50 == 49 {
        script.push(Op::Delete {
            id: id(number - 24),
        })?;
    }
    if number % 25 == 24 {
        let query = draws.vector();
        script.push(Op::Range {
            radius: 3000,
            query,
        })?;
    }
    if number % 50 == 49 {
        let query = draws.vector();
        script.push(Op::Nearest { count: 10, query })?;
    }
    Ok(())
}

// What comes with the object of a number, in the script of its kind.
fn share(
    even: &mut Script,
    odd: &mut Script,
    draws: &mut Draws,
    number: u32,
) -> Result<(), NoMemory>
    ensures even { IfOk result (λ done. even.new ≡ even.old ++ share 0 number draws.old.state) }
    ensures odd { IfOk result (λ done. odd.new ≡ odd.old ++ share 1 number draws.old.state) }
    ensures state { IfOk result (λ done. draws.new.state ≡ after_operations number draws.old.state) }
{
    if number % 2 == 0 {
        push_operations(even, draws, number)
    } else {
        push_operations(odd, draws, number)
    }
}

// The scripts of the even objects and of the odd ones.
fn scripts(alloc: Global, draws: &mut Draws, count: u32) -> Result<(Script, Script), NoMemory>
    ensures even { IfOk result (λ both. both.0 ≡ script 0 count 0 draws.old.state) }
    ensures odd { IfOk result (λ both. both.1 ≡ script 1 count 0 draws.old.state) }
    ensures state { IfOk result (λ both. draws.new.state ≡ after_objects count 0 draws.old.state) }
{
    let mut even = Script::new(alloc);
    let mut odd = Script::new(alloc);
    for number in 0..count {
        share(&mut even, &mut odd, draws, number)?;
    }
    Ok((even, odd))
}

// The next record of the schedule.
fn next_item(draws: &mut Draws) -> ScheduleItem
    ensures value { result ≡ item draws.old.state }
    ensures state { draws.new.state ≡ after_item draws.old.state }
{
    let actor = match draws.below(3) {
        2 => Actor::Splitter,
        number => Actor::Session { number },
    };
    let count = draws.below(20) + 1;
    ScheduleItem {
        actor,
        take: Take::Turns { count },
    }
}

fn schedule(alloc: Global, draws: &mut Draws, count: u32) -> Result<Schedule, NoMemory>
    ensures { IfOk result (λ list. list ≡ drawn item after_item count draws.old.state) }
{
    let mut list = Schedule::new(alloc);
    for _ in 0..count {
        list.push(next_item(draws))?;
    }
    Ok(list)
}

fn settings(alloc: Global, pivots: VectorList, seed: u64) -> Settings
    requires { pivots ≡ drawn vector after_vector 12 seed }
    ensures { result ≡ settings_with (drawn vector after_vector 12 seed) }
{
    Settings {
        metric: MetricKind::L1,
        dims: 16,
        rows: TableRows::new(alloc),
        pivots,
        levels: 3,
        cell: 100,
        updates: 8_000,
        pages: 4_100,
    }
}

/// The workload of a number: 5,000 vectors of 16 coordinates in two scripts, with 100 deletes and 300 queries, under 12
/// pivots, and a schedule of 4,000 records. It may be run.
pub fn make(alloc: Global, seed: u64) -> Result<Workload, NoMemory>
    ensures made { IfOk result (IsMade seed) }
    ensures runs { IfOk result MayBeRun }
{
    let mut draws = Draws { state: seed };
    let list = pivots(alloc, &mut draws, PIVOTS)?;
    let settings = settings(alloc, list, seed);
    let (even, odd) = scripts(alloc, &mut draws, OBJECTS)?;
    let schedule = schedule(alloc, &mut draws, ITEMS)?;
    Ok(Workload {
        settings,
        scripts: [even, odd],
        schedule,
    })
}
