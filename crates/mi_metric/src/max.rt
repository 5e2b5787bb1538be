//! The greatest of the differences.
ghost use Rattle.std.specs.Prelude.{◌≡◌, ◌≤◌, length};
ghost use Rattle.mi_base.specs.declared.limits.TheConstants.{MAX_DIMS};
ghost use Rattle.mi_base.specs.Space.{greatest_difference, max_metric};

use crate::Metric;
use crate::spaces::has_dims;
use mi_base::{Steps, Vector};
use std::sync::ledger::Ledger;

/// The maximum metric: the greatest absolute difference, for vectors of `dims` coordinates.
#[derive(Clone, Copy, Debug, PartialEq, Eq)]
pub struct Max {
    /// Coordinates a vector, from 1 to 64.
    pub dims: u32,
    ghost some: { 1 ≤ dims },
    ghost few: { dims ≤ MAX_DIMS },
}

impl Max {
    /// The metric of vectors of so many coordinates.
    pub fn new(dims: u32) -> Max
        requires some { 1 ≤ dims }
        requires few { dims ≤ MAX_DIMS }
        ensures { result.dims ≡ dims }
    {
        Max { dims }
    }
}

impl Metric for Max {
    ghost use Rattle.mi_metric.specs.Laws.{max_is_metric};

    ghost space = { λ m. max_metric m.dims };

    fn fits(&self, v: &Vector) -> bool {
        has_dims(v, self.dims)
    }

    fn distance<L: Ledger>(&self, a: &Vector, b: &Vector, steps: &mut Steps<L>) -> u32 {
        steps.tick();
        greatest_difference(a.as_slice(), b.as_slice())
    }

    ghost laws = { λ m. max_is_metric m.dims };
}

fn greatest_difference(a: &[i32], b: &[i32]) -> u32
    requires { length a.now ≡ length b.now }
    ensures { result ≡ greatest_difference a.now b.now }
{
    let mut greatest = 0;
    for (x, y) in a.iter().zip(b) {
        let difference = x.abs_diff(*y);
        if difference > greatest {
            greatest = difference;
        }
    }
    greatest
}
