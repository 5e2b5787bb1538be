//! What is kept of a session while its script is run, and its turns.
ghost use Rattle.std.specs.Prelude.{◌≡◌, ◌<◌, ◌≤◌, ◌+◌, [], IfOk, IsTrue, None, Some, length, vec_capacity};
ghost use Rattle.std.specs.List.{AllByRecursion};
ghost use Rattle.mi_base.specs.declared.limits.TheConstants.{MAX_LEVELS};
ghost use Rattle.mi_base.specs.Configuration.{metric_space};
ghost use Rattle.mi_base.specs.Scripts.{IsScriptOver};
ghost use Rattle.mi_replay.specs.Spending.{SeatSpends, measured_from};
ghost use Rattle.mi_replay.specs.Seats.{IsEmpty, Leaves, OperationMade, SeatReady, SeatTurned, SeatWaits, TakesUp, TurnMade, TurnsMade, is_more, is_over};

use mi_base::{NoMemory, Replies, Reply, Script, Steps};
use mi_job::{Job, JobTurn};
use mi_metric::Metric;
use mi_perm::Pivots;
use mi_solo::Solo;
use std::alloc::Global;
use std::sync::ledger::Ledger;

/// What a turn of a session came to.
#[derive(Clone, Copy, Debug, PartialEq, Eq)]
pub enum Taken {
    /// The operation goes on.
    More,
    /// Another actor holds what it wants.
    Held,
    /// The operation has ended.
    Ended,
}

impl Taken {
    /// The operation goes on.
    fn is_more(self) -> bool
        ensures { result ≡ is_more self }
    {
        matches!(self, Taken::More)
    }
}

/// The replies so far and the operation under way. Room for the replies was taken before the first.
#[derive(Drop)]
pub struct Seat {
    job: Option<Job>,
    replies: Vec<Reply>,
}

impl Seat {
    /// Nothing is under way, and nothing was replied. Room for so many replies is taken.
    pub fn new(alloc: Global, room: usize) -> Result<Seat, NoMemory>
        ensures { IfOk result (IsEmpty room) }
    {
        Ok(Seat {
            job: None,
            replies: Vec::with_capacity(alloc, room)?,
        })
    }

    /// The replies, where the seat is used up.
    pub fn into_replies(self) -> Replies
        ensures { result ≡ self.replies.items }
    {
        Replies::from_vec(self.replies)
    }

    /// Nothing is under way and nothing is left.
    pub fn is_over(&self, script: &Script) -> bool
        ensures { result ≡ is_over script.now self.now }
    {
        self.job.is_none() && self.replies.len() == script.len()
    }

    /// A block of one operation: it ends, or another actor holds what it wants, or none is left.
    pub fn operation<M: Metric, L: Ledger>(
        &mut self,
        alloc: Global,
        solo: &mut Solo,
        actor: u32,
        script: &Script,
        metric: &M,
        pivots: &Pivots,
        steps: &mut Steps<L>,
    )
        requires space { M.space metric.now ≡ metric_space solo.old.state.board.settings }
        requires pivots { pivots.now ≡ solo.old.state.board.settings.pivots }
        requires levels { solo.old.state.board.settings.levels ≤ MAX_LEVELS }
        requires waits { SeatWaits solo.old.state actor script.now self.old }
        ensures made { OperationMade actor script.now solo.old.state self.old solo.new.state self.new }
        ensures spends { SeatSpends actor script.now solo.old.state self.old steps.old solo.new.state self.new steps.new }
    {
        if self.is_over(script) {
            return;
        }
        let mut taken = self.turn(alloc, solo, actor, script, metric, pivots, steps);
        while taken.is_more() {
            taken = self.turn(alloc, solo, actor, script, metric, pivots, steps);
        }
    }

    /// A block of so many turns. Those after the script's end change nothing and take no time; nor
    /// do those after one that found the operation held up, since nobody else acts in the block.
    pub fn turns<M: Metric, L: Ledger>(
        &mut self,
        alloc: Global,
        solo: &mut Solo,
        actor: u32,
        script: &Script,
        metric: &M,
        pivots: &Pivots,
        count: u32,
        steps: &mut Steps<L>,
    )
        requires space { M.space metric.now ≡ metric_space solo.old.state.board.settings }
        requires pivots { pivots.now ≡ solo.old.state.board.settings.pivots }
        requires levels { solo.old.state.board.settings.levels ≤ MAX_LEVELS }
        requires waits { SeatWaits solo.old.state actor script.now self.old }
        requires some { 1 ≤ count }
        ensures made { TurnsMade actor script.now solo.old.state self.old count solo.new.state self.new }
        ensures spends { SeatSpends actor script.now solo.old.state self.old steps.old solo.new.state self.new steps.new }
    {
        let mut left = count;
        while left > 0 && !self.is_over(script) {
            let taken = self.turn(alloc, solo, actor, script, metric, pivots, steps);
            left -= 1;
            if taken == Taken::Held {
                return;
            }
        }
    }

    /// The session comes to its turn and makes one section.
    fn turn<M: Metric, L: Ledger>(
        &mut self,
        alloc: Global,
        solo: &mut Solo,
        actor: u32,
        script: &Script,
        metric: &M,
        pivots: &Pivots,
        steps: &mut Steps<L>,
    ) -> Taken
        requires space { M.space metric.now ≡ metric_space solo.old.state.board.settings }
        requires pivots { pivots.now ≡ solo.old.state.board.settings.pivots }
        requires ready { SeatReady solo.old.state actor script.now self.old }
        ensures made { TurnMade actor script.now solo.old.state self.old result self.new solo.new.state }
        ensures spends { SeatSpends actor script.now solo.old.state self.old steps.old solo.new.state self.new steps.new }
        ensures waits { SeatWaits solo.new.state actor script.now self.new }
    {
        solo.turn_to(actor);
        let taken = self.section(alloc, solo, script, metric, pivots, steps);
        // That the actor may take a turn again is known of a core that is read.
        solo.log();
        taken
    }

    /// One section of the session whose turn it is.
    fn section<M: Metric, L: Ledger>(
        &mut self,
        alloc: Global,
        solo: &mut Solo,
        script: &Script,
        metric: &M,
        pivots: &Pivots,
        steps: &mut Steps<L>,
    ) -> Taken
        requires space { M.space metric.now ≡ metric_space solo.old.state.board.settings }
        requires pivots { pivots.now ≡ solo.old.state.board.settings.pivots }
        requires ready { SeatReady solo.old.state solo.old.turn script.now self.old }
        ensures turned { SeatTurned solo.old.turn script.now solo.old.state self.old result self.new solo.new.state }
        ensures spends { SeatSpends solo.old.turn script.now solo.old.state self.old steps.old solo.new.state self.new steps.new }
        ensures turn { solo.new.turn ≡ solo.old.turn }
    {
        // That the settings are within their limits is known of a core that is read.
        solo.log();
        self.take_up(script, metric, pivots, steps);
        let Some(job) = &mut self.job else {
            unreachable!()
        };
        let answer = job.step(alloc, solo, metric, pivots, steps);
        self.leave(answer)
    }

    /// What an answer leaves: the operation is under way still, or its reply is kept.
    fn leave(&mut self, answer: JobTurn) -> Taken
        requires room { length self.old.replies.items < vec_capacity self.old.replies }
        ensures leaves { Leaves self.old answer result self.old.job self.new }
        ensures room { vec_capacity self.old.replies ≤ vec_capacity self.new.replies }
    {
        match answer {
            JobTurn::More => Taken::More,
            JobTurn::Held => Taken::Held,
            JobTurn::Done { reply } => {
                self.job = None;
                self.replies.push(reply).unwrap();
                Taken::Ended
            }
        }
    }

    /// The operation whose section is next is under way: the next one of the script where none is.
    fn take_up<M: Metric, L: Ledger>(
        &mut self,
        script: &Script,
        metric: &M,
        pivots: &Pivots,
        steps: &mut Steps<L>,
    )
        requires fits { IsScriptOver (M.space metric.now) script.now }
        requires pivots { AllByRecursion (λ p. IsTrue ((M.space metric.now).fits p)) pivots.now }
        requires left { length self.old.replies.items < length script.now }
        ensures next { TakesUp (record { metric = M.space metric.now; pivots = pivots.now }) script.now self.old self.new.job }
        ensures steps { steps.new ≡ steps.old + measured_from self.old.job self.new.job pivots.now }
        ensures same { self.new.replies ≡ self.old.replies }
    {
        if self.job.is_none() {
            let place = self.replies.len();
            let job = Job::new(script.at(place), place as u32 + 1, metric, pivots, steps);
            self.job = Some(job);
        }
    }
}
