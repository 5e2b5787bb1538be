//! In which order the leaves are opened.
ghost use Rattle.std.specs.Prelude.{IfOk, IsTrue};
ghost use Rattle.std.specs.List.{AllByRecursion};
ghost use Rattle.arrayvec.specs.ArrayVec.{array_vec_len};
ghost use Rattle.mi_base.specs.Prefixes.{all_below};
ghost use Rattle.mi_nearest.specs.Order.{IsRanked};

use mi_base::{Dists, NoMemory};
use mi_rules::bound;
use mi_tree::Catalog;
use std::alloc::Global;

/// A leaf by its place in the catalog, with its bound. Ranks are ordered by bound, then place. Places are in the order of the
/// cluster numbers (`places_ascend`).
#[derive(Clone, Copy, Debug, PartialEq, Eq, PartialOrd, Ord)]
pub struct Rank {
    /// The least radius at which the leaf passes.
    pub bound: u32,
    /// The place of the leaf in the catalog, from 0.
    pub place: usize,
}

/// The leaves that have a bound, in the order in which a query for the nearest opens them.
pub fn ranked(alloc: Global, catalog: &Catalog, query: &Dists) -> Result<Vec<Rank>, NoMemory>
    requires pivots { AllByRecursion (λ leaf. IsTrue (all_below (array_vec_len query.now) leaf.prefix)) catalog.now.leaves }
    ensures { IfOk result (λ ranks. IsRanked query.now.items catalog.now.leaves ranks.items) }
{
    let mut ranks = Vec::new(alloc);
    for place in 0..catalog.len() {
        if let Some(bound) = bound(catalog.leaf(place), query) {
            ranks.push(Rank { bound, place })?;
        }
    }
    ranks.sort_unstable();
    Ok(ranks)
}
