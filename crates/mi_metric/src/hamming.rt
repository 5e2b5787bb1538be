//! The number of positions that differ.
ghost use Rattle.std.specs.Prelude.{◌≡◌, ◌≤◌, length};
ghost use Rattle.mi_base.specs.declared.limits.TheConstants.{MAX_DIMS};
ghost use Rattle.mi_base.specs.Space.{count_of_differences, hamming_metric};

use crate::Metric;
use crate::spaces::has_dims;
use mi_base::{Steps, Vector};
use std::sync::ledger::Ledger;

/// Hamming: the number of positions that differ, for vectors of `dims` coordinates.
#[derive(Clone, Copy, Debug, PartialEq, Eq)]
pub struct Hamming {
    /// Coordinates a vector, from 1 to 64.
    pub dims: u32,
    ghost some: { 1 ≤ dims },
    ghost few: { dims ≤ MAX_DIMS },
}

impl Hamming {
    /// The metric of vectors of so many coordinates.
    pub fn new(dims: u32) -> Hamming
        requires some { 1 ≤ dims }
        requires few { dims ≤ MAX_DIMS }
        ensures { result.dims ≡ dims }
    {
        Hamming { dims }
    }
}

impl Metric for Hamming {
    ghost use Rattle.mi_metric.specs.Laws.{hamming_is_metric};

    ghost space = { λ m. hamming_metric m.dims };

    fn fits(&self, v: &Vector) -> bool {
        has_dims(v, self.dims)
    }

    fn distance<L: Ledger>(&self, a: &Vector, b: &Vector, steps: &mut Steps<L>) -> u32 {
        steps.tick();
        count_of_differences(a.as_slice(), b.as_slice())
    }

    ghost laws = { λ m. hamming_is_metric m.dims m.few };
}

#[tactic(auto, using(crate::specs::Laws::count_bound))]
fn count_of_differences(a: &[i32], b: &[i32]) -> u32
    requires same { length a.now ≡ length b.now }
    requires few { length a.now ≤ MAX_DIMS }
    ensures { result ≡ count_of_differences a.now b.now }
{
    let mut count = 0;
    for (x, y) in a.iter().zip(b) {
        if x != y {
            count += 1;
        }
    }
    count
}
