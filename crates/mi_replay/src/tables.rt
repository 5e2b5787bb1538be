//! All sessions and the splitter at one core.
ghost use Rattle.std.specs.Prelude.{◌≡◌, ◌<◌, ◌≤◌, ◌∷◌, [], IfOk, true, false, length};
ghost use Rattle.std.specs.List.{AllByRecursion};
ghost use Rattle.mi_base.specs.declared.limits.TheConstants.{MAX_SESSIONS};
ghost use Rattle.mi_base.specs.declared.records.Actor.TheVariants.{Session, Splitter};
ghost use Rattle.mi_base.specs.declared.records.Take.TheVariants.{Operation, Turns};
ghost use Rattle.mi_base.specs.Configuration.{metric_space};
ghost use Rattle.mi_base.specs.Scripts.{IsScriptOver};
ghost use Rattle.mi_base.specs.Space.{IsMetric};
ghost use Rattle.mi_replay.specs.InOrder.{round};
ghost use Rattle.mi_replay.specs.Rounds.{EasesAll, RelievesOne, Rests};
ghost use Rattle.mi_replay.specs.Spending.{Spends, SpendsNone};
ghost use Rattle.mi_replay.specs.Tables.{HasRun, IsItemOver, IsNotOver, IsOver, Makes, MakesOne};
ghost use Rattle.mi_replay.specs.Tables.{TakeIsOver, Waits, settings_of};

use crate::seats::Seat;
use mi_base::{Actor, NoMemory, ScheduleItem, Script, Settings, Steps, Take};
use mi_metric::Metric;
use mi_perm::Pivots;
use mi_settle::SplitterSeat;
use mi_solo::Solo;
use std::alloc::Global;
use std::sync::ledger::Ledger;

/// The core, what is kept of each session, and the splitter.
#[derive(Drop)]
pub struct Table {
    pub solo: Solo,
    pub seats: Vec<Seat>,
    pub splitter: SplitterSeat,
}

impl Table {
    /// Nothing was done. Room for all replies is taken.
    pub fn open(alloc: Global, settings: &Settings, scripts: &[Script]) -> Result<Table, NoMemory>
        requires metric { IsMetric (metric_space settings.now) }
        requires few { length scripts.now ≤ MAX_SESSIONS }
        requires scripts { AllByRecursion (IsScriptOver (metric_space settings.now)) scripts.now }
        ensures { IfOk result (HasRun settings.now scripts.now []) }
    {
        let solo = Solo::open(alloc, settings, scripts.len() as u32 + 1)?;
        // The log tells that the core is sound.
        let _ = solo.log();
        let mut seats = Vec::with_capacity(alloc, scripts.len())?;
        for script in scripts {
            seats.push(Seat::new(alloc, script.len())?)?;
        }
        Ok(Table {
            solo,
            seats,
            splitter: SplitterSeat::new(),
        })
    }

    /// Each script has ended, and the splitter has nothing under way.
    pub fn is_over(&self, scripts: &[Script]) -> bool
        requires { length self.now.seats.items ≡ length scripts.now }
        ensures over { result ≡ true → IsOver scripts.now self.now }
        ensures not { result ≡ false → IsNotOver scripts.now self.now }
    {
        if self.splitter.is_under_way() {
            return false;
        }
        for number in 0..scripts.len() {
            if !self.seats[number].is_over(&scripts[number]) {
                return false;
            }
        }
        true
    }

    /// The blocks of one finishing round, after which fewer are left.
    pub fn round<M: Metric, L: Ledger>(
        &mut self,
        alloc: Global,
        scripts: &[Script],
        metric: &M,
        pivots: &Pivots,
        steps: &mut Steps<L>,
    )
        requires space { M.space metric.now ≡ metric_space (settings_of self.old) }
        requires pivots { pivots.now ≡ (settings_of self.old).pivots }
        requires waits { Waits scripts.now self.old }
        requires few { length scripts.now ≤ MAX_SESSIONS }
        ensures made { Makes scripts.now (round (length scripts.now)) self.old self.new }
        ensures eases { EasesAll scripts.now self.old self.new }
        ensures spends { Spends scripts.now self.old steps.old self.new steps.new }
    {
        for number in 0..scripts.len() as u32 {
            self.session_operation(alloc, scripts, number, metric, pivots, steps);
        }
        self.splitter_operation(alloc, scripts);
    }

    /// The block of one item.
    pub fn item<M: Metric, L: Ledger>(
        &mut self,
        alloc: Global,
        scripts: &[Script],
        item: ScheduleItem,
        metric: &M,
        pivots: &Pivots,
        steps: &mut Steps<L>,
    )
        requires space { M.space metric.now ≡ metric_space (settings_of self.old) }
        requires pivots { pivots.now ≡ (settings_of self.old).pivots }
        requires waits { Waits scripts.now self.old }
        requires few { length scripts.now ≤ MAX_SESSIONS }
        requires item { IsItemOver (length scripts.now) item }
        ensures made { Makes scripts.now (item ∷ []) self.old self.new }
        ensures spends { Spends scripts.now self.old steps.old self.new steps.new }
    {
        match item.actor {
            Actor::Session { number } => {
                self.session(alloc, scripts, number, item.take, metric, pivots, steps)
            }
            Actor::Splitter => self.splitter(alloc, scripts, item.take),
        }
    }

    /// The same of a session.
    fn session<M: Metric, L: Ledger>(
        &mut self,
        alloc: Global,
        scripts: &[Script],
        number: u32,
        take: Take,
        metric: &M,
        pivots: &Pivots,
        steps: &mut Steps<L>,
    )
        requires space { M.space metric.now ≡ metric_space (settings_of self.old) }
        requires pivots { pivots.now ≡ (settings_of self.old).pivots }
        requires waits { Waits scripts.now self.old }
        requires there { number < length scripts.now }
        requires some { TakeIsOver take }
        ensures made { MakesOne scripts.now (Session number) take self.old self.new }
        ensures spends { Spends scripts.now self.old steps.old self.new steps.new }
    {
        match take {
            Take::Turns { count } => {
                self.session_turns(alloc, scripts, number, count, metric, pivots, steps)
            }
            Take::Operation => {
                self.session_operation(alloc, scripts, number, metric, pivots, steps)
            }
        }
    }

    fn session_turns<M: Metric, L: Ledger>(
        &mut self,
        alloc: Global,
        scripts: &[Script],
        number: u32,
        count: u32,
        metric: &M,
        pivots: &Pivots,
        steps: &mut Steps<L>,
    )
        requires space { M.space metric.now ≡ metric_space (settings_of self.old) }
        requires pivots { pivots.now ≡ (settings_of self.old).pivots }
        requires waits { Waits scripts.now self.old }
        requires there { number < length scripts.now }
        requires some { 1 ≤ count }
        ensures made { MakesOne scripts.now (Session number) (Turns count) self.old self.new }
        ensures spends { Spends scripts.now self.old steps.old self.new steps.new }
    {
        let script = &scripts[number as usize];
        let seat = &mut self.seats[number as usize];
        let solo = &mut self.solo;
        seat.turns(alloc, solo, number, script, metric, pivots, count, steps);
    }

    fn session_operation<M: Metric, L: Ledger>(
        &mut self,
        alloc: Global,
        scripts: &[Script],
        number: u32,
        metric: &M,
        pivots: &Pivots,
        steps: &mut Steps<L>,
    )
        requires space { M.space metric.now ≡ metric_space (settings_of self.old) }
        requires pivots { pivots.now ≡ (settings_of self.old).pivots }
        requires waits { Waits scripts.now self.old }
        requires there { number < length scripts.now }
        ensures made { MakesOne scripts.now (Session number) Operation self.old self.new }
        ensures relieved { RelievesOne scripts.now number self.old self.new }
        ensures splitter { self.new.splitter ≡ self.old.splitter }
        ensures spends { Spends scripts.now self.old steps.old self.new steps.new }
    {
        let script = &scripts[number as usize];
        let seat = &mut self.seats[number as usize];
        let solo = &mut self.solo;
        seat.operation(alloc, solo, number, script, metric, pivots, steps);
    }

    /// The same of the splitter.
    fn splitter(&mut self, alloc: Global, scripts: &[Script], take: Take)
        requires waits { Waits scripts.now self.old }
        requires few { length scripts.now ≤ MAX_SESSIONS }
        requires some { TakeIsOver take }
        ensures made { MakesOne scripts.now Splitter take self.old self.new }
        ensures spends { SpendsNone scripts.now self.old self.new }
    {
        match take {
            Take::Turns { count } => {
                let actor = scripts.len() as u32;
                self.splitter.turns(alloc, &mut self.solo, actor, count);
            }
            Take::Operation => self.splitter_operation(alloc, scripts),
        }
    }

    fn splitter_operation(&mut self, alloc: Global, scripts: &[Script])
        requires waits { Waits scripts.now self.old }
        requires few { length scripts.now ≤ MAX_SESSIONS }
        ensures made { MakesOne scripts.now Splitter Operation self.old self.new }
        ensures rested { Rests (length scripts.now) self.old self.new }
        ensures same { self.new.seats.items ≡ self.old.seats.items }
        ensures spends { SpendsNone scripts.now self.old self.new }
    {
        let actor = scripts.len() as u32;
        self.splitter.operation(alloc, &mut self.solo, actor);
    }
}
