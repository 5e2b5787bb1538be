//! What a metric is.
ghost use Rattle.std.specs.Prelude.{◌≡◌, ◌+◌, IsTrue};
ghost use Rattle.mi_base.specs.Space.{IsMetric, MetricSpace, has_dims};

use mi_base::{Steps, Vector};
use std::sync::ledger::Ledger;

/// A metric is seen as its space: which vectors fit, and how far apart two of them are.
pub trait Metric {
    ghost space: { Self → MetricSpace };

    /// Whether the vector is one of the space. It takes no memory.
    fn fits(&self, v: &Vector) -> bool
        ensures { result ≡ (space self.now).fits v.now };

    /// The distance of two vectors. It counts as one step and takes no memory.
    fn distance<L: Ledger>(&self, a: &Vector, b: &Vector, steps: &mut Steps<L>) -> u32
        requires a { IsTrue ((space self.now).fits a.now) }
        requires b { IsTrue ((space self.now).fits b.now) }
        ensures distance { result ≡ (space self.now).d a.now b.now }
        ensures tick { steps.new ≡ steps.old + 1 };

    /// The four laws, and the bound of a distance.
    ghost laws: { (m : Self) → IsMetric (space m) };
}

/// Whether the vector has so many coordinates.
pub(crate) fn has_dims(v: &Vector, dims: u32) -> bool
    ensures { result ≡ has_dims dims v.now }
{
    v.as_slice().len() == dims as usize
}
