//! A range query, section by section.
ghost use Rattle.std.specs.Prelude.{◌≡◌, ◌<◌, ◌≤◌, ◌^◌, ◌++◌, IsTrue, length};
ghost use Rattle.std.specs.List.{AllByRecursion};
ghost use Rattle.mi_base.specs.Configuration.{metric_space, space_of};
ghost use Rattle.mi_base.specs.Permutations.{distances};
ghost use Rattle.mi_base.specs.Space.{IsMetric};
ghost use Rattle.mi_blink.specs.Walking.{Ready as WalkIsReady, Walked, so_far, so_far_after};
ghost use Rattle.mi_range.specs.Leaves.{AreOfPivots};
ghost use Rattle.mi_range.specs.Querying.{Begun, OpensNext, Ready, SiftsOn, Ticks, Turned};

use crate::{RangeSieve, RangeWork};
use mi_base::{Position, Reply, Steps, Vector};
use mi_blink::{Turn, Walk, WalkTurn};
use mi_metric::Metric;
use mi_perm::Pivots;
use mi_tree::Catalog;
use mi_world::World;
use std::alloc::Global;
use std::sync::ledger::Ledger;

/// What the next section of a range query is.
#[derive(Clone, Copy)]
enum RangeState {
    /// The pin.
    Begin,
    /// A visit for the leaf at this place of the pinned catalog.
    Walking {
        place: usize,
        cells: u32,
        root: u32,
        at: Position,
        walk: Walk,
    },
    /// The unpin: no leaf is left that passes.
    Ending {
        cells: u32,
        at: Position,
    },
    Over,
}

/// A range query.
#[derive(Drop)]
pub struct RangeOp {
    radius: u32,
    query: Vector,
    state: RangeState,
    /// What is kept of the objects, from the pin on.
    work: Option<RangeWork>,
}

impl RangeOp {
    /// The query for all objects within a radius, which is at most 2^31 - 1.
    pub fn new(radius: u32, query: Vector) -> RangeOp
        ensures { Begun result radius query }
    {
        RangeOp {
            radius,
            query,
            state: RangeState::Begin,
            work: None,
        }
    }

    /// Makes one section.
    pub fn step<W: World, M: Metric, L: Ledger>(
        &mut self,
        alloc: Global,
        world: &mut W,
        metric: &M,
        pivots: &Pivots,
        steps: &mut Steps<L>,
    ) -> Turn
        requires space { M.space metric.now ≡ metric_space (W.view world.old).settings }
        requires pivots { pivots.now ≡ (W.view world.old).settings.pivots }
        requires ready { Ready self.old (W.view world.old) }
        ensures turned { Turned self.old (W.view world.old) result self.new (W.view world.new) }
        ensures ticks { Ticks self.old steps.old result self.new steps.new }
        ensures section { W.section world.old world.new }
    {
        match self.state {
            RangeState::Begin => self.begin(alloc, world, metric, pivots, steps),
            RangeState::Walking {
                place,
                cells,
                root,
                at,
                walk,
            } => self.walk(place, cells, root, at, walk, world, metric, steps),
            RangeState::Ending { cells, at } => self.end(cells, at, world),
            RangeState::Over => unreachable!(),
        }
    }

    fn begin<W: World, M: Metric, L: Ledger>(
        &mut self,
        alloc: Global,
        world: &mut W,
        metric: &M,
        pivots: &Pivots,
        steps: &mut Steps<L>,
    ) -> Turn
        requires space { M.space metric.now ≡ metric_space (W.view world.old).settings }
        requires pivots { pivots.now ≡ (W.view world.old).settings.pivots }
        requires state { self.old.state ≡ RangeState.Begin }
        requires ready { Ready self.old (W.view world.old) }
        ensures turned { Turned self.old (W.view world.old) result self.new (W.view world.new) }
        ensures ticks { Ticks self.old steps.old result self.new steps.new }
        ensures section { W.section world.old world.new }
    {
        match world.pin(alloc) {
            Ok(look) => {
                let dists = pivots.measure(metric, &self.query, steps);
                let work = RangeWork::new(alloc, &dists, self.radius);
                self.state = open_next(world.pinned(), &work, 0, 0, look.root, look.at);
                self.work = Some(work);
                Turn::More
            }
            Err(_) => self.give_up(),
        }
    }

    #[allow(clippy::too_many_arguments)]
    fn walk<W: World, M: Metric, L: Ledger>(
        &mut self,
        place: usize,
        cells: u32,
        root: u32,
        at: Position,
        mut walk: Walk,
        world: &mut W,
        metric: &M,
        steps: &mut Steps<L>,
    ) -> Turn
        requires space { M.space metric.now ≡ metric_space (W.view world.old).settings }
        requires state { self.old.state ≡ RangeState.Walking place cells root at walk }
        requires ready { Ready self.old (W.view world.old) }
        ensures turned { Turned self.old (W.view world.old) result self.new (W.view world.new) }
        ensures ticks { Ticks self.old steps.old result self.new steps.new }
        ensures section { W.section world.old world.new }
    {
        let Some(mut work) = self.work.take() else {
            unreachable!();
        };
        if work.room().is_err() {
            world.unpin();
            return self.give_up();
        }
        match sift(&mut work, &mut walk, world, metric, &self.query, steps) {
            WalkTurn::More => {
                self.state = RangeState::Walking {
                    place,
                    cells,
                    root,
                    at,
                    walk,
                };
                self.work = Some(work);
                Turn::More
            }
            WalkTurn::Done => {
                self.state = open_next(world.pinned(), &work, place + 1, cells + 1, root, at);
                self.work = Some(work);
                Turn::More
            }
        }
    }

    fn end<W: World>(&mut self, cells: u32, at: Position, world: &mut W) -> Turn
        requires state { self.old.state ≡ RangeState.Ending cells at }
        requires ready { Ready self.old (W.view world.old) }
        requires metric { IsMetric (metric_space (W.view world.old).settings) }
        ensures turned { Turned self.old (W.view world.old) result self.new (W.view world.new) }
        ensures section { W.section world.old world.new }
    {
        world.unpin();
        let Some(work) = self.work.take() else {
            unreachable!();
        };
        self.state = RangeState::Over;
        Turn::Done {
            reply: work.finish(at, cells),
        }
    }

    /// The query ends for want of memory.
    fn give_up(&mut self) -> Turn
        ensures state { self.new ≡ record self.old { state = RangeState.Over } }
        ensures turn { result ≡ Turn.Done Reply.Memory }
    {
        self.state = RangeState::Over;
        Turn::Done {
            reply: Reply::Memory,
        }
    }
}

/// A visit, which offers the work what it reads.
fn sift<W: World, M: Metric, L: Ledger>(
    work: &mut RangeWork,
    walk: &mut Walk,
    world: &mut W,
    metric: &M,
    query: &Vector,
    steps: &mut Steps<L>,
) -> WalkTurn
    requires space { M.space metric.now ≡ metric_space (W.view world.old).settings }
    requires fits { IsTrue ((metric_space (W.view world.old).settings).fits query.now) }
    requires pivots { AllByRecursion (λ p. IsTrue ((metric_space (W.view world.old).settings).fits p)) (W.view world.old).settings.pivots }
    requires dists { work.old.dists ≡ distances (space_of (W.view world.old).settings) query.now }
    requires room { 32 ≤ work.old.spare }
    requires ready { WalkIsReady walk.old (W.view world.old) }
    ensures walked { Walked walk.old (W.view world.old) result walk.new (W.view world.new) }
    ensures sifted { SiftsOn (M.space metric.now) query.now work.old steps.old (so_far walk.old (W.view world.old)) work.new steps.new (so_far_after result walk.new (W.view world.new)) }
    ensures section { W.section world.old world.new }
{
    let mut sieve = RangeSieve {
        work,
        metric,
        query,
        steps,
    };
    walk.step(world, &mut sieve)
}

/// Where a query stands that goes on at the first leaf from a place on that passes.
fn open_next(
    catalog: &Catalog,
    work: &RangeWork,
    from: usize,
    cells: u32,
    root: u32,
    at: Position,
) -> RangeState
    requires levels { catalog.now.levels ≤ 6 }
    requires fit { AreOfPivots (length work.now.dists) catalog.now.levels catalog.now.leaves }
    ensures { OpensNext work.now.dists work.now.radius catalog.now.levels catalog.now.leaves from cells root at result }
{
    match work.next_leaf(catalog, from) {
        Some(next) => RangeState::Walking {
            place: next.place,
            cells,
            root,
            at,
            walk: Walk::new(root, next.span),
        },
        None => RangeState::Ending { cells, at },
    }
}
