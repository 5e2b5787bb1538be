//! The sum of the differences.
ghost use Rattle.std.specs.Prelude.{◌≡◌, ◌≤◌, IsTrue, length};
ghost use Rattle.mi_base.specs.declared.limits.TheConstants.{MAX_DIMS};
ghost use Rattle.mi_base.specs.Space.{l1_metric, sum_of_differences};
ghost use Rattle.mi_base.specs.Vectors.{all_coordinates};

use crate::Metric;
use crate::spaces::has_dims;
use mi_base::{Steps, Vector};
use std::sync::ledger::Ledger;

/// L1: the sum of the absolute differences, for vectors of `dims` coordinates.
#[derive(Clone, Copy, Debug, PartialEq, Eq)]
pub struct L1 {
    /// Coordinates a vector, from 1 to 64.
    pub dims: u32,
    ghost some: { 1 ≤ dims },
    ghost few: { dims ≤ MAX_DIMS },
}

impl L1 {
    /// The metric of vectors of so many coordinates.
    pub fn new(dims: u32) -> L1
        requires some { 1 ≤ dims }
        requires few { dims ≤ MAX_DIMS }
        ensures { result.dims ≡ dims }
    {
        L1 { dims }
    }
}

impl Metric for L1 {
    ghost use Rattle.mi_metric.specs.Laws.{l1_is_metric};

    ghost space = { λ m. l1_metric m.dims };

    fn fits(&self, v: &Vector) -> bool {
        has_dims(v, self.dims)
    }

    fn distance<L: Ledger>(&self, a: &Vector, b: &Vector, steps: &mut Steps<L>) -> u32 {
        steps.tick();
        sum_of_differences(a.as_slice(), b.as_slice())
    }

    ghost laws = { λ m. l1_is_metric m.dims m.few };
}

#[tactic(auto, using(crate::specs::Laws::sum_bound))]
fn sum_of_differences(a: &[i32], b: &[i32]) -> u32
    requires same { length a.now ≡ length b.now }
    requires few { length a.now ≤ MAX_DIMS }
    requires a { IsTrue (all_coordinates a.now) }
    requires b { IsTrue (all_coordinates b.now) }
    ensures { result ≡ sum_of_differences a.now b.now }
{
    let mut sum = 0;
    for (x, y) in a.iter().zip(b) {
        sum += x.abs_diff(*y);
    }
    sum
}
