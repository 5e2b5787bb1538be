//! The rules beside a plain program of them, and worked bounds.
ghost use Rattle.std.specs.Prelude.{◌≡◌, ◌≤◌, IsTrue, length};
ghost use Rattle.arrayvec.specs.ArrayVec.{array_vec_len};
ghost use Rattle.mi_base.specs.Prefixes.{all_below};

use mi_base::{Dists, Id, Prefix};
use mi_key::{Key, cluster_number};
use mi_rules::{bound, filter, near_span, passes, span};
use mi_tree::Leaf;
use std::process::Abort;

fn below(prefix: &Prefix, pivots: usize) -> bool
    ensures { result ≡ all_below pivots prefix.now }
{
    prefix
        .as_slice()
        .iter()
        .all(|pivot| usize::from(*pivot) < pivots)
}

/// A leaf of pivots that the query has distances to.
fn leaf(rt: &impl Abort, pivots: &[u8], hull: Option<(u32, u32)>, query: &Dists) -> Leaf
    ensures below { IsTrue (all_below (array_vec_len query.now) result.prefix) }
    ensures short { length result.prefix ≤ 6 }
{
    let prefix = Prefix::new(pivots).expect(rt, "different pivots");
    assert!(rt; below(&prefix, query.len()) && prefix.len() <= 6);
    Leaf {
        prefix,
        count: 0,
        hull,
    }
}

fn dists(rt: &impl Abort, items: &[u32]) -> Dists {
    Dists::try_from(items).expect(rt, "at most 32 distances")
}

fn distance(query: &Dists, pivot: u8) -> u32 {
    let place = usize::from(pivot);
    query.as_slice().get(place).copied().unwrap_or(0)
}

/// Both rules as they are written, in signed numbers.
fn plainly_passes(pivots: &[u8], hull: Option<(u32, u32)>, query: &Dists, radius: u32) -> bool {
    let Some((low, high)) = hull else {
        return false;
    };
    for (place, pivot) in pivots.iter().enumerate() {
        for (other, near) in query.as_slice().iter().enumerate() {
            let earlier = pivots[..place].contains(&(other as u8));
            let farther = i64::from(distance(query, *pivot)) - i64::from(*near);
            if !earlier && farther > 2 * i64::from(radius) {
                return false;
            }
        }
    }
    match pivots.first() {
        None => true,
        Some(first) => {
            let near = i64::from(distance(query, *first));
            let radius = i64::from(radius);
            near + radius >= i64::from(low) && near - radius <= i64::from(high)
        }
    }
}

#[test]
fn leaves_pass_as_the_rules_say(rt: HostRuntime) {
    let query = dists(&rt, &[9, 2, 6, 6]);
    for pivots in [&[0][..], &[1], &[0, 1], &[1, 0], &[2, 3], &[3, 1, 0]] {
        for hull in [None, Some((0, 0)), Some((3, 5)), Some((12, 13))] {
            let leaf = leaf(&rt, pivots, hull, &query);
            let mut least = None;
            for radius in 0..20 {
                let passed = plainly_passes(pivots, hull, &query, radius);
                assert_eq!(rt;
                    passes(&leaf, &query, radius),
                    passed,
                    "{pivots:?} {hull:?} {radius}"
                );
                if passed && least.is_none() {
                    least = Some(radius);
                }
            }
            assert_eq!(rt; bound(&leaf, &query), least, "{pivots:?} {hull:?}");
        }
    }
    let none = dists(&rt, &[]);
    assert!(rt; passes(&leaf(&rt, &[], Some((0, 0)), &none), &none, 0));
    assert!(rt; !passes(&leaf(&rt, &[], None, &none), &none, 0));
}

#[test]
fn worked_bounds(rt: HostRuntime) {
    let query = dists(&rt, &[2, 8]);
    let rows = [(1, (8, 8), 3), (0, (1, 4), 0), (1, (1, 1), 7)];
    for (pivot, hull, least) in rows {
        let leaf = leaf(&rt, &[pivot], Some(hull), &query);
        assert_eq!(rt; bound(&leaf, &query), Some(least));
    }
}

#[test]
fn spans_have_the_distances_within_the_radius(rt: HostRuntime) {
    let query = dists(&rt, &[2, 8]);
    let leaf_at_one = leaf(&rt, &[1], Some((0, 9)), &query);
    let cluster = cluster_number(&leaf_at_one.prefix, query.len() as u32, 6);
    let id = Id::new(7).expect(&rt, "below 2^40");
    let (narrow, whole) = (
        span(&leaf_at_one, &query, 3, 6),
        span(&leaf_at_one, &query, u32::MAX >> 1, 6),
    );
    for (distance, inside) in [(4, false), (5, true), (8, true), (11, true), (12, false)] {
        let key = Key::make(cluster, distance, id, 1);
        assert_eq!(rt; narrow.has(&key), inside, "{distance}");
        assert!(rt; whole.has(&key));
    }
    let greatest = Key::make(cluster, (1 << 27) - 1, id, 1);
    assert!(rt; whole.has(&greatest));
}

#[test]
fn near_spans_have_the_hull_and_what_of_it_is_near(rt: HostRuntime) {
    let query = dists(&rt, &[2, 8]);
    let with_hull = leaf(&rt, &[1], Some((5, 9)), &query);
    let cluster = cluster_number(&with_hull.prefix, query.len() as u32, 6);
    let id = Id::new(7).expect(&rt, "below 2^40");
    let rows = [
        (None, 5, 9),
        (Some(2), 6, 9),
        (Some(0), 8, 8),
        (Some(9), 5, 9),
    ];
    for (worst, least, greatest) in rows {
        let Some(span) = near_span(&with_hull, &query, worst, 6) else {
            panic!(rt; "a leaf with a hull has keys to read");
        };
        for distance in 0..12 {
            let inside = least <= distance && distance <= greatest;
            let key = Key::make(cluster, distance, id, 1);
            assert_eq!(rt; span.has(&key), inside, "{distance} for {worst:?}");
        }
    }
    let without = leaf(&rt, &[1], None, &query);
    assert!(rt; near_span(&without, &query, None, 6).is_none());
}

#[test]
fn the_filter_looks_at_each_pivot(rt: HostRuntime) {
    let query = dists(&rt, &[2, 8, 128_000_000]);
    let rows = [
        ([2, 8, 128_000_000], 0, true),
        ([3, 8, 128_000_000], 0, false),
        ([3, 7, 128_000_000], 1, true),
        ([2, 8, 0], 127_999_999, false),
        ([2, 8, 0], 128_000_000, true),
    ];
    for (object, radius, through) in rows {
        let object = dists(&rt, &object);
        assert_eq!(rt; object.len(), query.len());
        assert_eq!(rt; filter(&query, &object, radius), through);
    }
}
