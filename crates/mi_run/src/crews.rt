//! The workers of a run at their places, before they work and after.
ghost use Rattle.std.specs.Prelude.{◌≡◌, ◌≤◌, ◌∷◌, ◌++◌, [], IfOk, Some, length};
ghost use Rattle.mi_hall.specs.Passes.{place_view};
ghost use Rattle.mi_run.specs.Crews.{IsClient, IsCrew, IsDone, IsGathered, IsNew, IsTender, first_place, replied};

use crate::workers::{Task, Worker};
use mi_base::{NoMemory, Replies, Script, Transcript};
use mi_hall::{Pass, Place};
use mi_world::{Forks, World};
use std::alloc::Global;
use std::sync::Wait;

/// What is left when all workers have ended: the pass of the first actor, into which all others
/// were absorbed, the replies to each script, and whether memory was wanted for a page or a split.
#[derive(Drop)]
pub struct Left {
    pub pass: Pass,
    pub replies: Transcript,
    pub wanted: bool,
}

/// A worker for each script, of which the first has the first actor's place, and then the one that
/// splits and sweeps.
pub fn seat<'h, 's, R: Wait>(
    alloc: Global,
    first: Place<'h, R>,
    scripts: &'s [Script],
) -> Result<Vec<Worker<'h, 's, R>>, NoMemory>
    requires new { IsNew (place_view first).settings (place_view first) }
    requires zero { (place_view first).actor ≡ 0 }
    requires some { 1 ≤ length scripts.now }
    ensures { IfOk result (λ workers. IsCrew (place_view first.entry).settings first.entry.table scripts.now workers.items) }
{
    let Some((script, others)) = scripts.split_first() else {
        unreachable!()
    };
    let mut first = first;
    let mut workers = Vec::with_capacity(alloc, scripts.len() + 1)?;
    for other in others {
        workers.push(Worker::client(alloc, first.fork(alloc)?, other)?)?;
    }
    workers.push(Worker {
        place: Some(first.fork(alloc)?),
        task: Task::Tend { wanted: false },
    })?;
    workers.insert(0, Worker::client(alloc, first, script)?)?;
    Ok(workers)
}

/// Absorbs all workers into the first, in their order, and puts their replies into the list that was
/// made for them.
pub fn gather<'h, 's, R: Wait>(
    scripts: &[Script],
    workers: Vec<Worker<'h, 's, R>>,
    replies: Transcript,
) -> Result<Left, NoMemory>
    requires done { IsDone scripts.now workers.items }
    requires none { replies ≡ [] }
    ensures { IfOk result (λ left. IsGathered (first_place workers.entry.items) scripts.now left.pass left.replies) }
{
    let _scripts = scripts;
    let mut replies = replies;
    let mut clients = workers;
    let (tender, wanted) = tended(clients.pop().unwrap());
    let mut place = leave(clients.remove(0), &mut replies)?;
    while !clients.is_empty() {
        place.absorb(leave(clients.remove(0), &mut replies)?);
    }
    place.absorb(tender);
    let lacked = place.lacked();
    Ok(Left {
        pass: place.into_pass(),
        replies,
        wanted: wanted || lacked,
    })
}

/// The place of a client, whose replies are put behind the others.
fn leave<'h, 's, R: Wait>(
    client: Worker<'h, 's, R>,
    replies: &mut Transcript,
) -> Result<Place<'h, R>, NoMemory>
    requires { IsClient client }
    ensures { IfOk result (λ place. (client.entry.place ≡ Some place) × (replies.new ≡ replies.old ++ replied client.entry.task ∷ [])) }
{
    let Worker { place, task } = client;
    let Task::Script {
        script: _,
        replies: own,
    } = task
    else {
        unreachable!()
    };
    replies.push(Replies::from_vec(own))?;
    Ok(place.unwrap())
}

/// The place of the worker that split and swept, and whether memory was wanted there.
fn tended<'h, 's, R: Wait>(worker: Worker<'h, 's, R>) -> (Place<'h, R>, bool)
    requires { IsTender worker }
    ensures { worker.entry.place ≡ Some result.0 }
{
    let Worker { place, task } = worker;
    let Task::Tend { wanted } = task else {
        unreachable!()
    };
    (place.unwrap(), wanted)
}
