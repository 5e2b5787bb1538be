//! Which leaf a range query opens next.
ghost use Rattle.std.specs.Prelude.{◌≤◌};
ghost use Rattle.arrayvec.specs.ArrayVec.{array_vec_len};
ghost use Rattle.mi_range.specs.Leaves.{AreOfPivots, FindsLeaf};

use mi_base::Dists;
use mi_key::Interval;
use mi_rules::{passes, span};
use mi_tree::Catalog;

/// The place of a leaf that passes, and the keys of its span.
#[derive(Clone, Copy)]
pub struct Opening {
    pub place: usize,
    pub span: Interval,
}

/// The first leaf from a place on that passes.
pub fn next_leaf(catalog: &Catalog, from: usize, query: &Dists, radius: u32) -> Option<Opening>
    requires levels { catalog.now.levels ≤ 6 }
    requires fit { AreOfPivots (array_vec_len query.now) catalog.now.levels catalog.now.leaves }
    ensures { FindsLeaf query.now.items radius catalog.now.levels catalog.now.leaves from result }
{
    for place in from..catalog.len() {
        let leaf = catalog.leaf(place);
        if passes(leaf, query, radius) {
            let span = span(leaf, query, radius, catalog.levels());
            return Some(Opening { place, span });
        }
    }
    None
}
