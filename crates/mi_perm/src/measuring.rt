//! The pivots, and a vector's distances to them.
ghost use Rattle.std.specs.Prelude.{◌≡◌, ◌+◌, ◌≤◌, ◌==◌, ◌↔◌, All, IfOk, IsTrue, length};
ghost use Rattle.std.specs.List.{AllByRecursion};
ghost use Rattle.arrayvec.specs.ArrayVec.{array_vec_len};
ghost use Rattle.mi_base.specs.Permutations.{distances};

use arrayvec::ArrayVec;
use mi_base::{Dists, NoMemory, Steps, Vector, VectorList};
use mi_metric::Metric;
use std::alloc::Global;
use std::marker::Model;
use std::sync::ledger::Ledger;

/// Up to 32 pivots, in the order of their numbers.
#[derive(Drop)]
pub struct Pivots {
    list: VectorList,
}

impl Model for Pivots {
    ghost use Rattle.std.specs.Prelude.{List, ℤ, ◌≤◌, length};

    ghost Value = { List (List ℤ) };

    ghost view = { λ p. p.list };

    ghost invariant = { λ p. length p.list ≤ 32 };
}

impl Pivots {
    /// A copy of these pivots.
    pub fn new(alloc: Global, list: &VectorList) -> Result<Pivots, NoMemory>
        requires { length list.now ≤ 32 }
        ensures { IfOk result (λ pivots. pivots ≡ list.now) }
    {
        let mut copy = VectorList::new(alloc);
        for pivot in list.as_slice() {
            copy.push(pivot.copy())?;
        }
        Ok(Pivots { list: copy })
    }

    /// How many pivots there are.
    pub fn len(&self) -> usize
        ensures value { result ≡ length self.now }
        ensures few { length self.now ≤ 32 }
    {
        self.list.len()
    }

    /// There are no pivots.
    pub fn is_empty(&self) -> bool
        ensures { result ≡ (length self.now == 0) }
    {
        self.list.is_empty()
    }

    /// Whether each pivot fits the metric.
    pub fn all_fit<M: Metric>(&self, metric: &M) -> bool
        ensures { IsTrue result ↔ AllByRecursion (λ p. IsTrue ((M.space metric.now).fits p)) self.now }
    {
        self.list.as_slice().iter().all(|pivot| metric.fits(pivot))
    }

    /// The vector's distances to the pivots, in the pivots' order. Each counts as one step. It takes no memory.
    pub fn measure<M: Metric, L: Ledger>(
        &self,
        metric: &M,
        v: &Vector,
        steps: &mut Steps<L>,
    ) -> Dists
        requires vector { IsTrue ((M.space metric.now).fits v.now) }
        requires pivots { AllByRecursion (λ p. IsTrue ((M.space metric.now).fits p)) self.now }
        ensures distances { result.items ≡ distances (record { metric = M.space metric.now; pivots = self.now }) v.now }
        ensures count { array_vec_len result ≡ length self.now }
        ensures bound { All (λ d. d ≤ 128000000) result.items }
        ensures steps { steps.new ≡ steps.old + length self.now }
    {
        let mut dists = ArrayVec::new();
        for pivot in self.list.as_slice() {
            dists.push(metric.distance(v, pivot, steps));
        }
        dists
    }
}
