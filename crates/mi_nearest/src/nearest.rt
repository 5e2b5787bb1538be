//! A query for the nearest, section by section.
ghost use Rattle.std.specs.Prelude.{◌≡◌, ◌≤◌, IsTrue, length};
ghost use Rattle.std.specs.List.{AllByRecursion};
ghost use Rattle.mi_base.specs.Configuration.{metric_space, space_of};
ghost use Rattle.mi_base.specs.Permutations.{distances};
ghost use Rattle.mi_base.specs.Space.{IsMetric};
ghost use Rattle.mi_blink.specs.Walking.{Ready as WalkIsReady, Walked, so_far, so_far_after};
ghost use Rattle.mi_nearest.specs.Order.{IsRanked};
ghost use Rattle.mi_nearest.specs.Querying.{Begun, OpensNext, Ready, SiftsOn, Ticks, Turned};
ghost use Rattle.mi_tree.proofs.FitLemmas.{Fits};

use crate::{NearestSieve, NearestWork, Rank, ranked};
use mi_base::{Position, Reply, Steps, Vector};
use mi_blink::{Turn, Walk, WalkTurn};
use mi_metric::Metric;
use mi_perm::Pivots;
use mi_tree::Catalog;
use mi_world::World;
use std::alloc::Global;
use std::sync::ledger::Ledger;

/// What the next section of a query for the nearest is.
#[derive(Clone, Copy)]
enum NearestState {
    /// The pin.
    Begin,
    /// A visit for the leaf of the next rank, after so many leaves.
    Walking {
        opened: u32,
        root: u32,
        at: Position,
        walk: Walk,
    },
    /// The unpin: no leaf has to be opened any more.
    Ending {
        cells: u32,
        at: Position,
    },
    /// The unpin: there was no memory to rank the leaves.
    Refusing,
    Over,
}

/// The leaves in the order in which they are opened, and what is kept of their objects.
#[derive(Drop)]
struct Gathering {
    ranks: Vec<Rank>,
    work: NearestWork,
}

/// A query for the nearest.
#[derive(Drop)]
pub struct NearestOp {
    count: u32,
    query: Vector,
    state: NearestState,
    /// What there is from the pin on.
    found: Option<Gathering>,
}

impl NearestOp {
    /// The query for so many objects, from 1 to 1,000,000.
    pub fn new(count: u32, query: Vector) -> NearestOp
        ensures { Begun result count query }
    {
        NearestOp {
            count,
            query,
            state: NearestState::Begin,
            found: None,
        }
    }

    /// Makes one section.
    pub fn step<W: World, M: Metric, L: Ledger>(
        &mut self,
        alloc: Global,
        world: &mut W,
        metric: &M,
        pivots: &Pivots,
        steps: &mut Steps<L>,
    ) -> Turn
        requires space { M.space metric.now ≡ metric_space (W.view world.old).settings }
        requires pivots { pivots.now ≡ (W.view world.old).settings.pivots }
        requires ready { Ready self.old (W.view world.old) }
        ensures turned { Turned self.old (W.view world.old) result self.new (W.view world.new) }
        ensures ticks { Ticks self.old (W.view world.old) steps.old result self.new (W.view world.new) steps.new }
        ensures section { W.section world.old world.new }
    {
        match self.state {
            NearestState::Begin => self.begin(alloc, world, metric, pivots, steps),
            NearestState::Walking {
                opened,
                root,
                at,
                walk,
            } => self.walk(opened, root, at, walk, world, metric, steps),
            NearestState::Ending { cells, at } => self.end(cells, at, world),
            NearestState::Refusing => {
                world.unpin();
                self.give_up()
            }
            NearestState::Over => unreachable!(),
        }
    }

    fn begin<W: World, M: Metric, L: Ledger>(
        &mut self,
        alloc: Global,
        world: &mut W,
        metric: &M,
        pivots: &Pivots,
        steps: &mut Steps<L>,
    ) -> Turn
        requires space { M.space metric.now ≡ metric_space (W.view world.old).settings }
        requires pivots { pivots.now ≡ (W.view world.old).settings.pivots }
        requires state { self.old.state ≡ NearestState.Begin }
        requires ready { Ready self.old (W.view world.old) }
        ensures turned { Turned self.old (W.view world.old) result self.new (W.view world.new) }
        ensures ticks { Ticks self.old (W.view world.old) steps.old result self.new (W.view world.new) steps.new }
        ensures section { W.section world.old world.new }
    {
        match world.pin(alloc) {
            Ok(look) => {
                let dists = pivots.measure(metric, &self.query, steps);
                let Ok(ranks) = ranked(alloc, world.pinned(), &dists) else {
                    self.state = NearestState::Refusing;
                    return Turn::More;
                };
                let work = NearestWork::new(alloc, self.count, &dists);
                let found = Gathering { ranks, work };
                self.state = open_next(world.pinned(), &found, 0, look.root, look.at);
                self.found = Some(found);
                Turn::More
            }
            Err(_) => self.give_up(),
        }
    }

    #[allow(clippy::too_many_arguments)]
    fn walk<W: World, M: Metric, L: Ledger>(
        &mut self,
        opened: u32,
        root: u32,
        at: Position,
        mut walk: Walk,
        world: &mut W,
        metric: &M,
        steps: &mut Steps<L>,
    ) -> Turn
        requires space { M.space metric.now ≡ metric_space (W.view world.old).settings }
        requires state { self.old.state ≡ NearestState.Walking opened root at walk }
        requires ready { Ready self.old (W.view world.old) }
        ensures turned { Turned self.old (W.view world.old) result self.new (W.view world.new) }
        ensures ticks { Ticks self.old (W.view world.old) steps.old result self.new (W.view world.new) steps.new }
        ensures section { W.section world.old world.new }
    {
        let Some(mut found) = self.found.take() else {
            unreachable!();
        };
        if found.work.room().is_err() {
            world.unpin();
            return self.give_up();
        }
        match sift(
            &mut found.work,
            &mut walk,
            world,
            metric,
            &self.query,
            steps,
        ) {
            WalkTurn::More => {
                self.state = NearestState::Walking {
                    opened,
                    root,
                    at,
                    walk,
                };
                self.found = Some(found);
                Turn::More
            }
            WalkTurn::Done => {
                self.state = open_next(world.pinned(), &found, opened + 1, root, at);
                self.found = Some(found);
                Turn::More
            }
        }
    }

    fn end<W: World>(&mut self, cells: u32, at: Position, world: &mut W) -> Turn
        requires state { self.old.state ≡ NearestState.Ending cells at }
        requires ready { Ready self.old (W.view world.old) }
        requires metric { IsMetric (metric_space (W.view world.old).settings) }
        ensures turned { Turned self.old (W.view world.old) result self.new (W.view world.new) }
        ensures section { W.section world.old world.new }
    {
        world.unpin();
        let Some(found) = self.found.take() else {
            unreachable!();
        };
        self.state = NearestState::Over;
        let Gathering { work, .. } = found;
        Turn::Done {
            reply: work.finish(at, cells),
        }
    }

    /// The query ends for want of memory.
    fn give_up(&mut self) -> Turn
        ensures state { self.new ≡ record self.old { state = NearestState.Over } }
        ensures turn { result ≡ Turn.Done Reply.Memory }
    {
        self.state = NearestState::Over;
        Turn::Done {
            reply: Reply::Memory,
        }
    }
}

/// A visit, which offers the work what it reads.
fn sift<W: World, M: Metric, L: Ledger>(
    work: &mut NearestWork,
    walk: &mut Walk,
    world: &mut W,
    metric: &M,
    query: &Vector,
    steps: &mut Steps<L>,
) -> WalkTurn
    requires space { M.space metric.now ≡ metric_space (W.view world.old).settings }
    requires fits { IsTrue ((metric_space (W.view world.old).settings).fits query.now) }
    requires pivots { AllByRecursion (λ p. IsTrue ((metric_space (W.view world.old).settings).fits p)) (W.view world.old).settings.pivots }
    requires dists { work.old.dists ≡ distances (space_of (W.view world.old).settings) query.now }
    requires room { 32 ≤ work.old.spare }
    requires ready { WalkIsReady walk.old (W.view world.old) }
    ensures walked { Walked walk.old (W.view world.old) result walk.new (W.view world.new) }
    ensures sifted { SiftsOn (M.space metric.now) query.now work.old steps.old (so_far walk.old (W.view world.old)) work.new steps.new (so_far_after result walk.new (W.view world.new)) }
    ensures section { W.section world.old world.new }
{
    let mut sieve = NearestSieve {
        work,
        metric,
        query,
        steps,
    };
    walk.step(world, &mut sieve)
}

/// Where a query stands that goes on after so many leaves.
fn open_next(
    catalog: &Catalog,
    found: &Gathering,
    opened: u32,
    root: u32,
    at: Position,
) -> NearestState
    requires levels { catalog.now.levels ≤ 6 }
    requires fit { AllByRecursion (λ l. Fits (length found.now.work.dists) catalog.now.levels l.prefix) catalog.now.leaves }
    requires ranked { IsRanked found.now.work.dists catalog.now.leaves found.now.ranks.items }
    ensures { OpensNext found.now.work.dists catalog.now.levels catalog.now.leaves found.now.ranks.items found.now.work opened root at result }
{
    match found.ranks.get(opened as usize) {
        Some(rank) if !found.work.stops_at(rank.bound) => {
            let leaf = catalog.leaf(rank.place);
            let Some(span) = found.work.span(leaf, catalog.levels()) else {
                unreachable!();
            };
            NearestState::Walking {
                opened,
                root,
                at,
                walk: Walk::new(root, span),
            }
        }
        _ => NearestState::Ending { cells: opened, at },
    }
}
