//! The choice of objects that are far apart.
ghost use Rattle.std.specs.Prelude.{◌≡◌, ◌+◌, ◌*◌, ◌<◌, ◌≤◌, ℕ, ℤ, List, [], All, length, map, IfOk, IsTrue};
ghost use Rattle.std.specs.List.{AllByRecursion};
ghost use Rattle.mi_base.specs.declared.limits.TheConstants.{MAX_OPS, MAX_PIVOTS};
ghost use Rattle.mi_choose.specs.Covering.{cover_of, from_nearest};
ghost use Rattle.mi_choose.specs.Farthest.{IsFarthestFirst, chosen_after, objects_at};

use crate::Places;
use crate::distances::{add_member, farthest_of};
use mi_base::{MAX_DISTANCE, NoMemory, Steps, VectorList};
use mi_metric::Metric;
use std::alloc::Global;
use std::sync::ledger::Ledger;

/// Objects that are far apart, and how near the others are to them.
#[derive(Drop)]
pub struct Choice {
    /// The places of the chosen objects, in the order in which they were chosen.
    pub chosen: Places,
    /// The place of the first of the objects that are farthest from the chosen, where there are objects.
    pub far: Option<u32>,
    /// How far that object is from the nearest chosen one, 0 without objects.
    pub cover: u32,
    /// The least distance between two of the chosen ones and the far one, 0 without objects.
    pub apart: u32,
}

/// Chooses the places, and leaves each object's distance from the nearest of them.
fn choose_places<M: Metric, L: Ledger>(
    alloc: Global,
    metric: &M,
    objects: &VectorList,
    count: u32,
    distances: &mut [u32],
    steps: &mut Steps<L>,
) -> Result<Places, NoMemory>
    requires objects { AllByRecursion (λ v. IsTrue ((M.space metric.now).fits v)) objects.now }
    requires few { length objects.now ≤ MAX_OPS }
    requires none { distances.old ≡ map (from_nearest (M.space metric.now) []) objects.now }
    ensures chosen { IfOk result (λ chosen. chosen ≡ chosen_after (M.space metric.now) objects.now count []) }
    ensures distances { IfOk result (λ chosen. distances.new ≡ map (from_nearest (M.space metric.now) (objects_at objects.now chosen)) objects.now) }
    ensures steps { IfOk result (λ chosen. steps.new ≡ steps.old + length objects.now * length chosen) }
{
    let mut chosen = Places::with_room(alloc, count as usize)?;
    for _ in 0..count {
        let next = farthest_of(distances);
        if next.distance == 0 {
            return Ok(chosen);
        }
        chosen.push(next.place)?;
        let member = objects.at(next.place as usize);
        add_member(metric, objects, member, distances, steps);
    }
    Ok(chosen)
}

/// Chooses up to so many objects: the first, and then each time the first of those farthest from the chosen, until
/// each object is at one of them.
pub fn choose<M: Metric, L: Ledger>(
    alloc: Global,
    metric: &M,
    objects: &VectorList,
    count: u32,
    steps: &mut Steps<L>,
) -> Result<Choice, NoMemory>
    requires objects { AllByRecursion (λ v. IsTrue ((M.space metric.now).fits v)) objects.now }
    requires few { length objects.now ≤ MAX_OPS }
    requires some { 1 ≤ count }
    requires most { count ≤ MAX_PIVOTS }
    ensures choice { IfOk result (IsFarthestFirst (M.space metric.now) objects.now count) }
    // The chosen are as far from each other as they leave the objects.
    ensures apart { IfOk result (λ choice. choice.apart ≡ choice.cover) }
    // No other vectors, as many or fewer, leave the objects less than half as far.
    ensures twice { IfOk result (λ choice. (others : List (List ℤ)) → AllByRecursion (λ v. IsTrue ((M.space metric.now).fits v)) others → length others ≤ count
        → choice.cover ≤ 2 * cover_of (M.space metric.now) objects.now others) }
    ensures places { IfOk result (λ choice. All (λ place. place < length objects.now) choice.chosen) }
    // One distance for each object and chosen one.
    ensures steps { IfOk result (λ choice. steps.new ≡ steps.old + length objects.now * length choice.chosen) }
{
    let mut distances = vec![in alloc; MAX_DISTANCE; objects.len()]?;
    let places = choose_places(
        alloc,
        metric,
        objects,
        count,
        distances.as_mut_slice(),
        steps,
    );
    let chosen = places?;
    let far = farthest_of(distances.as_slice());
    Ok(Choice {
        chosen,
        far: if objects.is_empty() {
            None
        } else {
            Some(far.place)
        },
        cover: far.distance,
        apart: far.distance,
    })
}
