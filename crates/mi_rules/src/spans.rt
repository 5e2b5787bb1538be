//! Which keys of an opened leaf are read.
ghost use Rattle.std.specs.Prelude.{◌≡◌, ◌↔◌, ◌≤◌, ℕ, IsTrue, None, IfSome, length};
ghost use Rattle.arrayvec.specs.ArrayVec.{array_vec_len};
ghost use Rattle.mi_base.specs.Prefixes.{all_below};
ghost use Rattle.mi_key.specs.Keys.{parts_of};
ghost use Rattle.mi_key.specs.Ranges.{is_within};
ghost use Rattle.mi_rules.specs.Spans.{is_in_span, is_near};

use mi_base::Dists;
use mi_key::{Interval, cluster_number, interval};
use mi_tree::Leaf;

/// The greatest distance in a key.
const GREATEST: u32 = (1 << 27) - 1;

/// The keys of the leaf whose distance to its first pivot differs from the query's by at most the radius. It takes no
/// memory.
pub fn span(leaf: &Leaf, query: &Dists, radius: u32, levels: u32) -> Interval
    requires pivots { IsTrue (all_below (array_vec_len query.now) leaf.now.prefix) }
    requires depth { length leaf.now.prefix ≤ levels }
    requires levels { levels ≤ 6 }
    ensures { (key : ℕ) → is_within result key ≡ is_in_span query.now.items radius levels leaf.now.prefix (parts_of key) }
{
    let cluster = cluster_number(&leaf.prefix, query.len() as u32, levels);
    match leaf.prefix.as_slice().first() {
        None => interval(cluster, 0, 0),
        Some(first) => {
            let distance = query[usize::from(*first)];
            let least = distance.saturating_sub(radius).min(GREATEST);
            let greatest = distance.saturating_add(radius).min(GREATEST);
            interval(cluster, least, greatest)
        }
    }
}

/// The keys of the leaf that a query for the nearest reads: those in its hull, and once the distance of its last row is told those
/// of them whose distance to the first pivot differs from the query's by at most that. None where the leaf has no hull. It
/// takes no memory.
pub fn near_span(leaf: &Leaf, query: &Dists, worst: Option<u32>, levels: u32) -> Option<Interval>
    requires pivots { IsTrue (all_below (array_vec_len query.now) leaf.now.prefix) }
    requires depth { length leaf.now.prefix ≤ levels }
    requires levels { levels ≤ 6 }
    ensures none { (result ≡ None) ↔ (leaf.now.hull ≡ None) }
    ensures some { IfSome result (λ span. IfSome leaf.now.hull (λ hull. (key : ℕ) → is_within span key ≡ is_near query.now.items worst levels leaf.now.prefix hull (parts_of key))) }
{
    let (low, high) = leaf.hull?;
    let cluster = cluster_number(&leaf.prefix, query.len() as u32, levels);
    let below = interval(cluster, 0, high.min(GREATEST));
    let above = interval(cluster, low.min(GREATEST), GREATEST);
    let hull = above.meet(&below);
    match worst {
        None => Some(hull),
        Some(worst) => Some(hull.meet(&span(leaf, query, worst, levels))),
    }
}
