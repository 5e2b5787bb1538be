//! From which radius on a leaf has to be opened.
ghost use Rattle.std.specs.Prelude.{◌≡◌, ℕ, IsTrue, IfSome, nat_le};
ghost use Rattle.arrayvec.specs.ArrayVec.{array_vec_len};
ghost use Rattle.mi_base.specs.Prefixes.{all_below};
ghost use Rattle.mi_rules.specs.Passing.{IsBound, double_pivot, none_nearer, passes};

use mi_base::Dists;
use mi_tree::Leaf;

/// Whether the leaf may have an object within the radius. It takes no memory.
pub fn passes(leaf: &Leaf, query: &Dists, radius: u32) -> bool
    requires { IsTrue (all_below (array_vec_len query.now) leaf.now.prefix) }
    ensures { result ≡ passes query.now.items radius leaf.now }
{
    bound(leaf, query).is_some_and(|bound| bound <= radius)
}

/// The least radius at which the leaf passes. It takes no memory.
pub fn bound(leaf: &Leaf, query: &Dists) -> Option<u32>
    requires { IsTrue (all_below (array_vec_len query.now) leaf.now.prefix) }
    ensures least { IsBound query.now.items leaf.now result }
    ensures passes { IfSome result (λ bound. (radius : ℕ) → passes query.now.items radius leaf.now ≡ nat_le bound radius) }
{
    let (low, high) = leaf.hull?;
    let prefix = leaf.prefix.as_slice();
    let Some(first) = prefix.first() else {
        return Some(0);
    };
    let distance = query[usize::from(*first)];
    let to_hull = low
        .saturating_sub(distance)
        .max(distance.saturating_sub(high));
    Some(to_hull.max(prefix_bound(prefix, query)))
}

/// The least radius at which the double-pivot rule holds at each place of the prefix.
fn prefix_bound(prefix: &[u8], query: &Dists) -> u32
    requires { IsTrue (all_below (array_vec_len query.now) prefix.now) }
    ensures { (radius : ℕ) → double_pivot query.now.items radius prefix.now ≡ nat_le result radius }
{
    let mut bound = 0;
    for (place, pivot) in prefix.iter().enumerate() {
        let distance = query[usize::from(*pivot)];
        bound = bound.max(place_bound(&prefix[..place], distance, query));
    }
    bound
}

/// The least radius at which no pivot outside the earlier ones is nearer than this by more than twice the radius.
fn place_bound(earlier: &[u8], distance: u32, query: &Dists) -> u32
    ensures { (radius : ℕ) → none_nearer query.now.items radius earlier.now distance ≡ nat_le result radius }
{
    let mut bound = 0;
    for (pivot, nearer) in query.as_slice().iter().enumerate() {
        if !earlier.contains(&(pivot as u8)) {
            bound = bound.max(distance.saturating_sub(*nearer).div_ceil(2));
        }
    }
    bound
}
