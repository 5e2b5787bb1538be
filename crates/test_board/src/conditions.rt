//! The conditions of a board's calls, tried by reading its log and its cells.
ghost use Rattle.std.specs.Prelude.{◌≡◌, ◌<◌, ◌==◌, IfOk, OnOk, IsTrue, map};
ghost use Rattle.std.specs.List.{AllByRecursion, filter, list_any};
ghost use Rattle.mi_base.specs.Configuration.{metric_space};
ghost use Rattle.mi_base.specs.History.{live, live_after, updates_of};
ghost use Rattle.mi_base.specs.Permutations.{distances, key_distance, permutation_of};
ghost use Rattle.mi_base.specs.Space.{l1_metric};
ghost use Rattle.mi_base.specs.declared.records.LogEvent.TheVariants.{Split};
ghost use Rattle.mi_board.specs.Boards.{MayCommit, grid_in};
ghost use Rattle.mi_tree.specs.Counting.{belongs, placed_object};
ghost use Rattle.mi_tree.specs.Legal.{MayFollow};

use mi_base::{Id, LogEvent, MetricKind, NoMemory, Perm, Position, Prefix, Steps, Update, Vector};
use mi_board::{Board, Pinned};
use mi_metric::{L1, Metric};
use mi_perm::{Pivots, key_distance, permutation};
use mi_tree::{CommitRefusal, LeafClaim, Look, Placed, ReserveRefusal, Work, is_same};
use std::alloc::Global;
use std::marker::Brand;
use std::process::Abort;
use std::sync::ledger::{Blank, Ledger};

/// A live object.
#[derive(Drop)]
pub struct Live {
    pub id: Id,
    pub vector: Vector,
}

/// The live objects after a log, the latest first.
pub fn live_of(alloc: Global, log: &[LogEvent]) -> Result<Vec<Live>, NoMemory>
    ensures { IfOk result (λ objects. map (λ o. record { id = o.id; vector = o.vector }) objects.items ≡ live (updates_of log.now)) }
{
    let mut objects = Vec::new(alloc);
    for event in log {
        match event {
            LogEvent::Update { update, .. } => change(&mut objects, update)?,
            LogEvent::Split { .. } => {}
        }
    }
    Ok(objects)
}

fn change(objects: &mut Vec<Live>, update: &Update) -> Result<(), NoMemory>
    ensures { OnOk result (map (λ o. record { id = o.id; vector = o.vector }) objects.new.items ≡ live_after (map (λ o. record { id = o.id; vector = o.vector }) objects.old.items) update.now) }
{
    match update {
        Update::Insert { id, vector } => {
            objects.insert(
                0,
                Live {
                    id: *id,
                    vector: vector.copy(),
                },
            )?;
        }
        Update::Delete { id } => objects.retain(|object| object.id != *id),
    }
    Ok(())
}

/// The permutation and the key distance of a vector on the board's line.
pub fn placed_at(
    rt: &impl Abort,
    alloc: Global,
    board: &Board,
    vector: &Vector,
) -> Result<Placed, NoMemory>
    ensures fits { OnOk result (IsTrue ((metric_space board.now.settings).fits vector.now)) }
    ensures placed { IfOk result (λ place. place ≡ placed_object (grid_in board.now) (record { id = 0; vector = vector.now })) }
{
    let settings = board.settings();
    assert!(rt; settings.metric == MetricKind::L1);
    let metric = L1::new(settings.dims);
    let pivots = Pivots::new(alloc, &settings.pivots)?;
    assert!(rt; metric.fits(vector) && pivots.all_fit(&metric));
    Ok(place::<Brand>(Blank::new(1), &metric, &pivots, vector))
}

fn place<L: Ledger>(blank: Blank, metric: &L1, pivots: &Pivots, vector: &Vector) -> Placed
    requires name { blank.name ≡ L.name }
    requires parts { blank.parts ≡ L.parts }
    requires some { 0 < blank.parts }
    requires vector { IsTrue ((l1_metric metric.now.dims).fits vector.now) }
    requires pivots { AllByRecursion (λ p. IsTrue ((l1_metric metric.now.dims).fits p)) pivots.now }
    ensures perm { result.perm ≡ permutation_of (distances (record { metric = l1_metric metric.now.dims; pivots = pivots.now }) vector.now) }
    ensures distance { result.distance ≡ key_distance (distances (record { metric = l1_metric metric.now.dims; pivots = pivots.now }) vector.now) }
{
    let mut steps = Steps::<L>::new(blank);
    let dists = pivots.measure(metric, vector, &mut steps);
    let perm = permutation(&dists);
    let distance = key_distance(&dists, &perm);
    Placed { perm, distance }
}

/// An object with this identifier is among them.
fn is_among(objects: &[Live], id: Id) -> bool
    ensures { result ≡ list_any (λ o. o.id == id) objects.now }
{
    objects.iter().any(|object| object.id == id)
}

/// The members of a leaf among the objects, as a catalog is told of them.
fn members_of(
    rt: &impl Abort,
    alloc: Global,
    board: &Board,
    objects: &[Live],
    prefix: &Prefix,
) -> Result<Vec<Placed>, NoMemory>
    ensures { IfOk result (λ members. members.items ≡ map (placed_object (grid_in board.now)) (filter (belongs (grid_in board.now) prefix.now) (map (λ o. record { id = o.id; vector = o.vector }) objects.now))) }
{
    let mut members = Vec::new(alloc);
    for object in objects {
        let place = placed_at(rt, alloc, board, &object.vector)?;
        if prefix.begins(&place.perm) {
            members.push(place)?;
        }
    }
    Ok(members)
}

/// A leaf with this prefix is to be split.
fn is_wanted(board: &Board, prefix: &Prefix) -> bool
    ensures { IsTrue result → MayFollow board.now.settings board.now.log (Split prefix.now) }
{
    let settings = board.settings();
    let cells = board.catalog();
    for place in 0..cells.len() {
        let leaf = cells.leaf(place);
        if is_same(prefix, &leaf.prefix) && leaf.is_wanted(settings.levels, settings.cell) {
            return true;
        }
    }
    false
}

/// The actor claims the leaf of this permutation, and has reserved.
fn may_commit(board: &Board, actor: u32, perm: &Perm) -> bool
    ensures { IsTrue result → MayCommit board.now actor perm.now }
{
    if actor as usize >= board.actors() {
        return false;
    }
    match board.claim(actor) {
        Some(prefix) => prefix.begins(perm) && board.has_reserved(actor),
        None => false,
    }
}

pub fn reserve(board: &mut Board, actor: u32) -> Option<Result<Look, ReserveRefusal>> {
    if actor as usize >= board.actors() {
        return None;
    }
    Some(board.reserve(actor))
}

pub fn claim_leaf(board: &mut Board, actor: u32, perm: &Perm) -> Option<LeafClaim> {
    if actor as usize >= board.actors()
        || board.claim(actor).is_some()
        || perm.len() != board.settings().pivots.len()
    {
        return None;
    }
    Some(board.claim_leaf(actor, perm))
}

pub fn release_leaf(board: &mut Board, actor: u32) -> Option<()> {
    if actor as usize >= board.actors() || board.claim(actor).is_none() {
        return None;
    }
    board.release_leaf(actor);
    Some(())
}

pub fn next_work(board: &mut Board, actor: u32) -> Option<Work> {
    if actor as usize >= board.actors() || board.claim(actor).is_some() {
        return None;
    }
    Some(board.next_work(actor))
}

pub fn pin<L: Ledger>(
    alloc: Global,
    blank: Blank,
    board: &mut Board,
    actor: u32,
) -> Result<Option<Pinned>, NoMemory>
    requires name { blank.name ≡ L.name }
    requires parts { blank.parts ≡ L.parts }
    requires some { 0 < blank.parts }
{
    if actor as usize >= board.actors() || board.pin_of(actor).is_some() {
        return Ok(None);
    }
    let pinned = board.pin(alloc, actor, &mut Steps::<L>::new(blank))?;
    Ok(Some(pinned))
}

pub fn unpin(board: &mut Board, actor: u32) -> Option<()> {
    if actor as usize >= board.actors() || board.pin_of(actor).is_none() {
        return None;
    }
    board.unpin(actor);
    Some(())
}

pub fn give_up(board: &mut Board, actor: u32, pages: bool) -> Option<()> {
    if actor as usize >= board.actors() || board.claim(actor).is_none() {
        return None;
    }
    if pages && board.allotted() != board.settings().pages {
        return None;
    }
    board.give_up(actor, pages);
    Some(())
}

pub fn depart(board: &mut Board, actor: u32) -> Option<()> {
    if actor as usize >= board.actors() {
        return None;
    }
    board.depart(actor);
    Some(())
}

pub fn insert(
    rt: &impl Abort,
    alloc: Global,
    board: &mut Board,
    actor: u32,
    op: u32,
    object: &Live,
) -> Result<Option<Result<u32, CommitRefusal>>, NoMemory> {
    let place = placed_at(rt, alloc, board, &object.vector)?;
    let objects = live_of(alloc, board.log())?;
    if is_among(&objects, object.id) || !may_commit(board, actor, &place.perm) {
        return Ok(None);
    }
    let number = board.commit_insert(
        actor,
        op,
        object.id,
        &object.vector,
        &place.perm,
        place.distance,
    );
    Ok(Some(number))
}

pub fn delete(
    rt: &impl Abort,
    alloc: Global,
    board: &mut Board,
    actor: u32,
    op: u32,
    id: Id,
) -> Result<Option<Result<u32, CommitRefusal>>, NoMemory> {
    let objects = live_of(alloc, board.log())?;
    let place = objects
        .iter()
        .position(|object| object.id == id)
        .unwrap_or(0);
    if place >= objects.len() {
        return Ok(None);
    }
    let object = &objects[place];
    let placed = placed_at(rt, alloc, board, &object.vector)?;
    if object.id != id || !may_commit(board, actor, &placed.perm) {
        return Ok(None);
    }
    Ok(Some(board.commit_delete(actor, op, id, &placed.perm)))
}

pub fn publish(
    rt: &impl Abort,
    alloc: Global,
    board: &mut Board,
    actor: u32,
) -> Result<Option<Position>, NoMemory> {
    if actor as usize >= board.actors() {
        return Ok(None);
    }
    let Some(claim) = board.claim(actor) else {
        return Ok(None);
    };
    let prefix = claim.copy();
    if !is_wanted(board, &prefix) {
        return Ok(None);
    }
    let objects = live_of(alloc, board.log())?;
    let members = members_of(rt, alloc, board, &objects, &prefix)?;
    Ok(Some(board.publish(alloc, actor, &members)?))
}
