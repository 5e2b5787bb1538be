//! The distance of each object from the nearest of those that are chosen.
ghost use Rattle.std.specs.Prelude.{◌≡◌, ◌+◌, ◌<◌, ◌≤◌, ◌==◌, ◌^◌, length, min, ℕ, [], IsTrue, slice_index, slice_index_or};
ghost use Rattle.std.specs.List.{AllByRecursion, position_or_len};
ghost use Rattle.mi_choose.specs.Covering.{greatest};

use mi_base::{Steps, Vector, VectorList};
use mi_metric::Metric;
use std::sync::ledger::Ledger;

/// The first of the greatest distances.
#[derive(Clone, Copy, Debug, PartialEq, Eq)]
pub struct Farthest {
    /// Its place, or 0 where there are no distances.
    pub place: u32,
    /// The distance itself, or 0 where there are none.
    pub distance: u32,
}

/// The first of the greatest of these distances.
pub fn farthest_of(distances: &[u32]) -> Farthest
    requires { length distances.now < 2 ^ 32 }
    ensures distance { result.distance ≡ greatest distances.now }
    ensures place { result.place ≡ position_or_len (λ d. d == greatest distances.now) distances.now }
{
    let mut first = Farthest {
        place: 0,
        distance: 0,
    };
    for (place, distance) in distances.iter().enumerate() {
        if *distance > first.distance {
            first = Farthest {
                place: place as u32,
                distance: *distance,
            };
        }
    }
    first
}

/// Each object's distance from the nearest, where one more is chosen. Each object counts as one step.
pub fn add_member<M: Metric, L: Ledger>(
    metric: &M,
    objects: &VectorList,
    member: &Vector,
    distances: &mut [u32],
    steps: &mut Steps<L>,
)
    requires objects { AllByRecursion (λ v. IsTrue ((M.space metric.now).fits v)) objects.now }
    requires member { IsTrue ((M.space metric.now).fits member.now) }
    requires same { length distances.old ≡ length objects.now }
    ensures same { length distances.new ≡ length objects.now }
    ensures nearer { (k : ℕ) → k < length objects.now → slice_index distances.new k ≡ min ((M.space metric.now).d (slice_index_or objects.now k []) member.now) (slice_index distances.old k) }
    ensures steps { steps.new ≡ steps.old + length objects.now }
{
    for (place, object) in objects.as_slice().iter().enumerate() {
        let distance = metric.distance(object, member, steps);
        if distance < distances[place] {
            distances[place] = distance;
        }
    }
}
