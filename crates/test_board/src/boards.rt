//! Random calls of a board by a fixed rule, beside a plain program that keeps a list of events.
ghost use Rattle.std.specs.Prelude.{◌<◌};

use crate::conditions::{self, Live};
use mi_base::{Id, MetricKind, Settings, TableRows, Vector, VectorList};
use mi_board::Board;
use mi_listed::{Event, Listed};
use mi_metric::L1;
use mi_perm::Pivots;
use mi_tree::{
    AllotRefusal, Catalog, CommitRefusal, LeafClaim, Look, Placed, ReserveRefusal, Work,
};
use std::alloc::Global;
use std::marker::Brand;
use std::process::Abort;
use std::sync::Arc;
use std::sync::ledger::Blank;
use std::test::Fail;

/// Numbers by a fixed rule.
#[derive(Drop)]
struct Draws {
    state: u64,
}

impl Draws {
    /// A number below the bound.
    fn below(&mut self, bound: u32) -> u32
        requires { 0 < bound }
        ensures { result < bound }
    {
        self.state = self
            .state
            .wrapping_mul(6364136223846793005)
            .wrapping_add(1442695040888963407);
        (self.state >> 33) as u32 % bound
    }
}

/// Which answers have come.
#[derive(Clone, Copy, Debug, Default, PartialEq, Eq)]
struct Seen {
    full: bool,
    late: bool,
    crowded: bool,
    held: bool,
    sweep: bool,
    split: bool,
    idle: bool,
    shared: bool,
    late_sweep: bool,
    pages_full: bool,
    passed: bool,
}

/// A catalog that a pin gave, with how many leaves it had and how many objects these counted.
#[derive(Drop)]
struct Given {
    actor: u32,
    catalog: Arc<Catalog, Global>,
    leaves: usize,
    objects: u64,
}

/// A board, and the plain program after the same calls.
#[derive(Drop)]
struct Trial {
    alloc: Global,
    board: Board,
    plain: Listed,
    given: Vec<Given>,
    draws: Draws,
    seen: Seen,
}

/// Settings for a line with these pivots.
fn line(
    rt: &impl Abort,
    alloc: Global,
    places: &[i64],
    levels: u32,
    cell: u32,
) -> Result<Settings, Fail> {
    let mut list = VectorList::new(alloc);
    for place in places {
        list.push(Vector::new(&[*place]).expect(rt, "a coordinate"))?;
    }
    assert!(rt; list.len() <= 32);
    assert!(rt; Pivots::new(alloc, &list)?.all_fit(&L1::new(1)));
    assert!(rt; levels as usize >= list.len().min(1) && levels as usize <= list.len().min(6));
    assert!(rt; cell >= 1 && cell <= 10_000);
    Ok(Settings {
        metric: MetricKind::L1,
        dims: 1,
        rows: TableRows::new(alloc),
        pivots: list,
        levels,
        cell,
        updates: 40,
        pages: 4,
    })
}

/// An object of a few places and a few identifiers.
fn object(rt: &impl Abort, draws: &mut Draws) -> Live {
    Live {
        id: Id::new(u64::from(draws.below(40))).expect(rt, "a small number"),
        vector: Vector::new(&[i64::from(draws.below(30))]).expect(rt, "a small place"),
    }
}

fn reserve(rt: &impl Abort, trial: &mut Trial, actor: u32) {
    match conditions::reserve(&mut trial.board, actor).expect(rt, "an actor") {
        Ok(look) => {
            assert!(rt; !trial.plain.is_full());
            assert_eq!(rt; look, trial.board.look());
            trial.plain.reserve(actor, true);
        }
        Err(refusal) => {
            assert_eq!(rt; refusal, ReserveRefusal::Full { limit: 40 });
            assert!(rt; trial.plain.is_full());
            trial.seen.full = true;
        }
    }
}

fn claim(rt: &impl Abort, trial: &mut Trial, actor: u32, place: &Placed) {
    let leaf = trial.plain.leaf_of(&place.perm);
    match conditions::claim_leaf(&mut trial.board, actor, &place.perm) {
        None => assert!(rt; trial.plain.claim(actor).is_some()),
        Some(LeafClaim::Taken { leaf: taken }) => {
            assert!(rt; trial.plain.claimant(leaf).is_none());
            assert_eq!(rt; taken.prefix.as_slice(), leaf);
            assert_eq!(rt; taken.count as usize, trial.plain.count(leaf));
            trial.plain.change_claim(actor, Some(taken.prefix));
        }
        Some(LeafClaim::Held { by }) => {
            assert_eq!(rt; trial.plain.claimant(leaf), Some(by));
            trial.seen.held = true;
        }
    }
}

fn release(rt: &impl Abort, trial: &mut Trial, actor: u32) {
    let claims = trial.plain.claim(actor).is_some();
    assert_eq!(rt;
        conditions::release_leaf(&mut trial.board, actor).is_some(),
        claims
    );
    trial.plain.change_claim(actor, None);
}

fn next_work(rt: &impl Abort, trial: &mut Trial, actor: u32) {
    match conditions::next_work(&mut trial.board, actor) {
        None => assert!(rt; trial.plain.claim(actor).is_some()),
        Some(Work::Sweep { prefix }) => {
            assert_eq!(rt; Some(prefix.as_slice()), trial.plain.retired());
            trial.seen.late_sweep = trial.seen.late_sweep
                || trial.plain.floor() < trial.plain.len();
            trial.plain.sweep();
            trial.seen.sweep = true;
        }
        Some(Work::Split { leaf }) => {
            assert!(rt; trial.plain.retired().is_none());
            assert_eq!(rt; Some(leaf.prefix.as_slice()), trial.plain.first_wanted());
            trial.plain.change_claim(actor, Some(leaf.prefix));
            trial.seen.split = true;
        }
        Some(Work::Idle) => {
            assert!(rt; trial.plain.retired().is_none() && trial.plain.first_wanted().is_none());
            trial.seen.idle = true;
        }
    }
}

/// Compares what a commit answered, and enters the event where it was accepted.
fn entered(
    rt: &impl Abort,
    trial: &mut Trial,
    actor: u32,
    answer: Result<u32, CommitRefusal>,
    crowded: bool,
    event: Event,
) -> Result<(), Fail> {
    match answer {
        Ok(number) => {
            assert!(rt; !trial.plain.is_full() && !crowded);
            trial.plain.enter(event)?;
            assert_eq!(rt; number as usize, trial.plain.updates());
            trial.plain.reserve(actor, false);
        }
        Err(CommitRefusal::Full { limit }) => {
            assert!(rt; trial.plain.is_full() && limit == 40);
            trial.seen.late = true;
        }
        Err(CommitRefusal::Crowded) => {
            assert!(rt; !trial.plain.is_full() && crowded);
            trial.seen.crowded = true;
        }
    }
    Ok(())
}

fn insert(
    rt: &impl Abort,
    trial: &mut Trial,
    actor: u32,
    op: u32,
    object: &Live,
) -> Result<(), Fail> {
    let place = conditions::placed_at(rt, trial.alloc, &trial.board, &object.vector)?;
    let answer = conditions::insert(rt, trial.alloc, &mut trial.board, actor, op, object)?;
    let may = trial.plain.may_commit(actor, &place.perm) && !trial.plain.is_live(object.id);
    assert_eq!(rt; answer.is_some(), may);
    let Some(answer) = answer else { return Ok(()) };
    let crowded = trial.plain.is_crowded(trial.plain.leaf_of(&place.perm));
    let event = Event::Insert {
        actor,
        op,
        id: object.id,
        vector: object.vector.copy(),
        perm: place.perm,
    };
    entered(rt, trial, actor, answer, crowded, event)
}

fn delete(rt: &impl Abort, trial: &mut Trial, actor: u32, op: u32, id: Id) -> Result<(), Fail> {
    let answer = conditions::delete(rt, trial.alloc, &mut trial.board, actor, op, id)?;
    assert_eq!(rt; answer.is_some(), trial.plain.may_delete(actor, id));
    let Some(answer) = answer else { return Ok(()) };
    entered(
        rt,
        trial,
        actor,
        answer,
        false,
        Event::Delete { actor, op, id },
    )
}

fn publish(rt: &impl Abort, trial: &mut Trial, actor: u32) -> Result<(), Fail> {
    let position = conditions::publish(rt, trial.alloc, &mut trial.board, actor)?;
    assert_eq!(rt; position.is_some(), trial.plain.may_publish(actor));
    let Some(position) = position else {
        return Ok(())
    };
    trial.plain.split(actor)?;
    assert_eq!(rt; position, trial.board.look().at);
    Ok(())
}

/// How many objects a catalog counts.
fn objects_of(catalog: &Catalog) -> u64 {
    let mut objects: u64 = 0;
    for place in 0..catalog.len() {
        objects = objects.saturating_add(u64::from(catalog.leaf(place).count));
    }
    objects
}

fn pin(rt: &impl Abort, trial: &mut Trial, actor: u32) -> Result<(), Fail> {
    let end = trial.plain.len();
    let pinned = conditions::pin::<Brand>(trial.alloc, Blank::new(1), &mut trial.board, actor)?;
    assert_eq!(rt; pinned.is_some(), trial.plain.pin(actor).is_none());
    let Some((look, catalog)) = pinned else {
        return Ok(())
    };
    trial.plain.change_pin(actor, Some(end));
    assert_eq!(rt; look, trial.board.look());
    trial.seen.shared = trial.seen.shared || trial.plain.kept == Some(end);
    trial.plain.kept = Some(end);
    let leaves = catalog.len();
    let objects = objects_of(&catalog);
    assert_eq!(rt;
        (leaves, objects),
        (trial.plain.leaves(), objects_of(trial.board.catalog()))
    );
    trial.given.push(Given {
        actor,
        catalog,
        leaves,
        objects,
    })?;
    Ok(())
}

fn unpin(rt: &impl Abort, trial: &mut Trial, actor: u32) {
    let pins = trial.plain.pin(actor).is_some();
    assert_eq!(rt; conditions::unpin(&mut trial.board, actor).is_some(), pins);
    trial.plain.change_pin(actor, None);
    for given in &trial.given {
        assert_eq!(rt; given.catalog.len(), given.leaves);
        assert_eq!(rt; objects_of(&given.catalog), given.objects);
    }
    trial.given.retain(|given| given.actor != actor);
}

/// A page, a root above the others, or none.
fn allot(rt: &impl Abort, trial: &mut Trial) {
    match trial.board.allot() {
        Ok(page) => {
            assert_eq!(rt; page, trial.plain.allotted);
            trial.plain.allotted = trial.plain.allotted.saturating_add(1);
        }
        Err(refusal) => {
            assert_eq!(rt; refusal, AllotRefusal::PagesFull { limit: 4 });
            assert_eq!(rt; trial.plain.allotted, 4);
            trial.seen.pages_full = true;
        }
    }
    let level = trial.draws.below(4);
    let grows = level == trial.plain.height.saturating_add(1);
    assert_eq!(rt; trial.board.grow(level, 9), grows);
    if grows {
        trial.plain.root = 9;
        trial.plain.height = level;
    }
}

fn give_up(rt: &impl Abort, trial: &mut Trial, actor: u32, pages: bool) -> Result<(), Fail> {
    let may = trial.plain.claim(actor).is_some() && (!pages || trial.plain.allotted == 4);
    assert_eq!(rt;
        conditions::give_up(&mut trial.board, actor, pages).is_some(),
        may
    );
    if may {
        trial.plain.give_up(actor, pages)?;
        trial.seen.passed = trial.seen.passed || pages;
    }
    Ok(())
}

/// One actor more, or one that departs.
fn come_or_go(rt: &impl Abort, trial: &mut Trial, actor: u32) -> Result<(), Fail> {
    if trial.plain.actors() < 3 {
        assert_eq!(rt; trial.board.add_actor()?, trial.plain.actors());
        trial.plain.add_actor()?;
    }
    assert!(rt; conditions::depart(&mut trial.board, actor).is_some());
    trial.plain.depart(actor);
    Ok(())
}

/// The board says the same of an actor.
fn has_actor(trial: &Trial, actor: u32) -> bool {
    let Trial { board, plain, .. } = trial;
    if actor as usize >= board.actors() {
        return false;
    }
    let claim = match board.claim(actor) {
        Some(prefix) => Some(prefix.as_slice()),
        None => None,
    };
    let pin = match board.pin_of(actor) {
        Some(at) => Some(at.updates as usize + at.splits as usize),
        None => None,
    };
    let held = claim == plain.claim(actor) && pin == plain.pin(actor);
    held && board.has_reserved(actor) == plain.has_reserved(actor)
}

/// The board is what the plain program says: its log, its leaves, its actors, its look.
fn same(rt: &impl Abort, trial: &Trial) {
    let look = trial.board.look();
    let floor = trial.plain.floor();
    assert_eq!(rt;
        (look.root, look.height),
        (trial.plain.root, trial.plain.height)
    );
    assert_eq!(rt; look.floor.updates as usize, trial.plain.updates_to(floor));
    assert_eq!(rt;
        look.floor.updates as usize + look.floor.splits as usize,
        floor
    );
    assert_eq!(rt; trial.board.allotted(), trial.plain.allotted);
    assert_eq!(rt;
        trial.board.open_actors() as usize,
        trial.plain.open_actors()
    );
    assert_eq!(rt;
        trial
            .board
            .kept_at()
            .map(|at| at.updates as usize + at.splits as usize),
        trial.plain.kept
    );
    assert_eq!(rt; look.at.updates as usize, trial.plain.updates());
    assert_eq!(rt; trial.board.log().len(), trial.plain.len());
    let splits = trial.plain.len().saturating_sub(trial.plain.updates());
    assert_eq!(rt; look.at.splits as usize, splits);
    for (place, event) in trial.board.log().iter().enumerate() {
        assert!(rt; trial.plain.has_event(place, event), "event {place}");
    }
    let cells = trial.board.catalog();
    assert_eq!(rt; cells.len(), trial.plain.leaves());
    for place in 0..cells.len() {
        let leaf = cells.leaf(place);
        let prefix = leaf.prefix.as_slice();
        assert!(rt; trial.plain.is_leaf(prefix), "leaf {place}");
        assert_eq!(rt;
            leaf.count as usize,
            trial.plain.count(prefix),
            "leaf {place}"
        );
    }
    for actor in 0..trial.plain.actors() {
        assert!(rt; has_actor(trial, actor), "actor {actor}");
    }
}

fn turn(rt: &impl Abort, trial: &mut Trial, op: u32) -> Result<(), Fail> {
    let actor = trial.draws.below(trial.plain.actors().max(1));
    let object = object(rt, &mut trial.draws);
    let place = conditions::placed_at(rt, trial.alloc, &trial.board, &object.vector)?;
    match trial.draws.below(24) {
        0 => release(rt, trial, actor),
        1 => next_work(rt, trial, actor),
        2 => publish(rt, trial, actor)?,
        10 => pin(rt, trial, actor)?,
        11 => unpin(rt, trial, actor),
        12 => allot(rt, trial),
        13 => give_up(rt, trial, actor, true)?,
        14 => come_or_go(rt, trial, actor)?,
        15 => give_up(rt, trial, actor, false)?,
        3..=5 => claim(rt, trial, actor, &place),
        6..=8 => reserve(rt, trial, actor),
        9 => delete(rt, trial, actor, op, object.id)?,
        _ => insert(rt, trial, actor, op, &object)?,
    }
    if op % 8 == 0 {
        same(rt, trial);
    }
    Ok(())
}

/// So many turns of two or three actors, and which answers have come by then.
fn run(
    rt: &impl Abort,
    alloc: Global,
    settings: &Settings,
    turns: u32,
    seen: Seen,
) -> Result<Seen, Fail> {
    let board = Board::open(alloc, settings, 2)?;
    let mut trial = Trial {
        alloc,
        board,
        plain: Listed::open(alloc, settings.pivots.len(), settings.levels, settings.cell)?,
        given: Vec::new(alloc),
        draws: Draws { state: 7 },
        seen,
    };
    same(rt, &trial);
    for op in 0..turns {
        turn(rt, &mut trial, op)?;
    }
    let log = trial.board.into_log();
    assert_eq!(rt; log.len(), trial.plain.len());
    Ok(trial.seen)
}

#[test]
fn random_calls_keep_the_definitions(rt: HostRuntime) -> Result<(), Fail> {
    let mut seen = Seen::default();
    let table: [(&[i64], u32, u32); 4] = [
        (&[], 0, 1),
        (&[0, 10], 2, 1),
        (&[0, 10, 20], 3, 2),
        (&[0, 10, 20], 2, 1),
    ];
    for (places, levels, cell) in table {
        let settings = line(&rt, rt.alloc(), places, levels, cell)?;
        seen = run(&rt, rt.alloc(), &settings, 3000, seen)?;
    }
    let all = Seen {
        full: true,
        late: true,
        crowded: true,
        held: true,
        sweep: true,
        split: true,
        idle: true,
        shared: true,
        late_sweep: true,
        pages_full: true,
        passed: true,
    };
    assert_eq!(rt; seen, all);
    Ok(())
}
