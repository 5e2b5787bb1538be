//! The workers of a run: each has one actor's place, and what is to be done there.
ghost use Rattle.std.specs.Prelude.{◌≡◌, ◌<◌, ◌≤◌, [], IfOk, length, vec_capacity};
ghost use Rattle.mi_base.specs.Scripts.{IsScriptOver};
ghost use Rattle.mi_hall.specs.Passes.{place_view};
ghost use Rattle.mi_session.specs.Sessions.{IsSeated};
ghost use Rattle.mi_run.specs.Workers.{HasWorked, IsClientFor, MayWork, Serves};

use crate::tending::tend;
use mi_base::{NoMemory, Reply, Script, Steps};
use mi_hall::Place;
use mi_metric::Metric;
use mi_outside::Gate;
use mi_perm::Pivots;
use mi_session::Session;
use std::alloc::Global;
use std::marker::Brand;
use std::sync::Wait;
use std::sync::ledger::{Blank, Ledger};

/// What a worker is to do.
#[derive(Drop)]
pub enum Task<'s> {
    /// The operations of a script, for whose replies room was taken.
    Script {
        script: &'s Script,
        replies: Vec<Reply>,
    },
    /// Splits and sweeps, while others are at work. A split may be given up for want of memory.
    Tend {
        wanted: bool,
    },
}

/// A worker. Its place is away while it works there.
#[derive(Drop)]
pub struct Worker<'h, 's, R: Wait> {
    pub place: Option<Place<'h, R>>,
    pub task: Task<'s>,
}

impl<'h, 's, R: Wait> Worker<'h, 's, R> {
    /// One that makes the operations of this script. Room for the replies is taken.
    pub fn client(
        alloc: Global,
        place: Place<'h, R>,
        script: &'s Script,
    ) -> Result<Worker<'h, 's, R>, NoMemory>
        ensures { IfOk result (IsClientFor script.now place.entry) }
    {
        let replies = Vec::with_capacity(alloc, script.len())?;
        Ok(Worker {
            place: Some(place),
            task: Task::Script { script, replies },
        })
    }

    /// Does all that is to be done.
    pub fn work<M: Metric, G: Gate>(
        &mut self,
        rt: &R,
        alloc: Global,
        metric: &M,
        pivots: &Pivots,
        gate: &G,
    )
        requires may { MayWork (M.space metric.now) pivots.now self.old }
        ensures worked { HasWorked self.old self.new }
    {
        let Some(mut place) = self.place.take() else {
            unreachable!()
        };
        match &mut self.task {
            Task::Script { script, replies } => {
                place = serve::<R, M, G, Brand>(
                    rt,
                    alloc,
                    place,
                    metric,
                    pivots,
                    script,
                    replies,
                    gate,
                    Blank::new(1),
                );
            }
            Task::Tend { wanted } => *wanted = tend(rt, alloc, &mut place, gate),
        }
        self.place = Some(place);
    }
}

/// Makes the operations of a script, one after another, and leaves the hall.
fn serve<'h, R: Wait, M: Metric, G: Gate, L: Ledger>(
    rt: &R,
    alloc: Global,
    place: Place<'h, R>,
    metric: &M,
    pivots: &Pivots,
    script: &Script,
    replies: &mut Vec<Reply>,
    gate: &G,
    blank: Blank,
) -> Place<'h, R>
    requires name { blank.name ≡ L.name }
    requires parts { blank.parts ≡ L.parts }
    requires some { 0 < blank.parts }
    requires seated { IsSeated (M.space metric.now) pivots.now (place_view place) }
    requires fits { IsScriptOver (M.space metric.now) script.now }
    requires none { replies.old.items ≡ [] }
    requires room { length script.now ≤ vec_capacity replies.old }
    ensures { Serves script.now place.entry replies.new.items result }
{
    let mut steps = Steps::<L>::new(blank);
    let mut session = Session::new(place, metric, pivots);
    let ops = script.as_slice();
    for op in ops {
        let reply = session.drive(rt, alloc, op, gate, &mut steps);
        replies.push_reserved(reply);
    }
    let mut place = session.into_world();
    place.depart();
    place
}
