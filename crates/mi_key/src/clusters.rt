//! The numbers of cells.
ghost use Rattle.std.specs.Prelude.{◌≡◌, ◌+◌, ◌<◌, ◌≤◌, ◌^◌, ◌↔◌, IsTrue, length, map};
ghost use Rattle.std.specs.Cmp.Lexicographic.{slice_cmp};
ghost use Rattle.std.specs.Int.Digits.{number_from_digits};
ghost use Rattle.std.specs.Ordering.{nat_cmp};
ghost use Rattle.mi_base.specs.Prefixes.{all_below};
ghost use Rattle.mi_key.specs.Clusters.{cluster_of, digit_of};

use mi_base::Prefix;
use std::cmp::Ordering;

/// The number of a cell among `pivots` pivots and prefixes of up to `levels`.
pub fn cluster_number(prefix: &Prefix, pivots: u32, levels: u32) -> u32
    requires depth { length prefix.now ≤ levels }
    requires pivots { IsTrue (all_below pivots prefix.now) }
    requires few { pivots ≤ 32 }
    requires levels { levels ≤ 6 }
    ensures number { result ≡ cluster_of pivots levels prefix.now }
    ensures small { result < 2 ^ 31 }
{
    let padding = levels - prefix.len() as u32;
    unpadded_number(prefix, pivots) * (pivots + 1).pow(padding)
}

/// How two prefixes stand in dictionary order, which is how their numbers stand.
pub fn compare_prefixes(a: &Prefix, b: &Prefix, pivots: u32, levels: u32) -> Ordering
    requires a_depth { length a.now ≤ levels }
    requires a_pivots { IsTrue (all_below pivots a.now) }
    requires b_depth { length b.now ≤ levels }
    requires b_pivots { IsTrue (all_below pivots b.now) }
    requires few { pivots ≤ 32 }
    requires levels { levels ≤ 6 }
    ensures prefixes { result ≡ slice_cmp nat_cmp a.now b.now }
    ensures numbers { result ≡ nat_cmp (cluster_of pivots levels a.now) (cluster_of pivots levels b.now) }
{
    cluster_number(a, pivots, levels).cmp(&cluster_number(b, pivots, levels))
}

/// Whether two prefixes have one number, which is whether they are one.
pub fn same_cluster(a: &Prefix, b: &Prefix, pivots: u32, levels: u32) -> bool
    requires a_depth { length a.now ≤ levels }
    requires a_pivots { IsTrue (all_below pivots a.now) }
    requires b_depth { length b.now ≤ levels }
    requires b_pivots { IsTrue (all_below pivots b.now) }
    requires few { pivots ≤ 32 }
    requires levels { levels ≤ 6 }
    ensures prefixes { IsTrue result ↔ (a.now ≡ b.now) }
    ensures numbers { IsTrue result ↔ (cluster_of pivots levels a.now ≡ cluster_of pivots levels b.now) }
{
    cluster_number(a, pivots, levels) == cluster_number(b, pivots, levels)
}

/// The number that a prefix's digits write without padding.
fn unpadded_number(prefix: &Prefix, pivots: u32) -> u32
    requires pivots { IsTrue (all_below pivots prefix.now) }
    requires few { pivots ≤ 32 }
    ensures { result ≡ number_from_digits (pivots + 1) (map digit_of prefix.now) }
{
    let mut number = 0;
    for pivot in prefix.as_slice() {
        number = number * (pivots + 1) + u32::from(*pivot) + 1;
    }
    number
}
