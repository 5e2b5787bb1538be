//! Worked distances, ties among them, and the permutations that they give.
ghost use Rattle.std.specs.Prelude.{◌≡◌, ◌<◌};

use mi_base::{Dists, NoMemory, Perm, Prefix, Steps, Vector, VectorList};
use mi_metric::{L1, Metric};
use mi_perm::{Pivots, key_distance, permutation};
use std::alloc::Global;
use std::marker::Brand;
use std::process::Abort;
use std::sync::ledger::{Blank, Ledger};
use std::test::Fail;

fn counted<M: Metric, L: Ledger>(
    metric: &M,
    blank: Blank,
    pivots: &Pivots,
    v: &Vector,
) -> Option<Dists>
    requires name { blank.name ≡ L.name }
    requires parts { blank.parts ≡ L.parts }
    requires some { 0 < blank.parts }
{
    if !metric.fits(v) || !pivots.all_fit(metric) {
        return None;
    }
    let mut steps = Steps::<L>::new(blank);
    Some(pivots.measure(metric, v, &mut steps))
}

fn measured<M: Metric>(metric: &M, pivots: &Pivots, v: &Vector) -> Option<Dists> {
    counted::<M, Brand>(metric, Blank::new(1), pivots, v)
}

fn on_line(rt: &impl Abort, alloc: Global, places: &[i64]) -> Result<Pivots, NoMemory> {
    let mut list = VectorList::new(alloc);
    for place in places {
        list.push(Vector::new(&[*place]).expect(rt, "a coordinate"))?;
    }
    assert!(rt; list.len() <= 32);
    Pivots::new(alloc, &list)
}

/// What pivots are to a vector at this place: their distances, their order, and the least distance.
fn meets(rt: &impl Abort, pivots: &Pivots, place: i64, dists: &[u32], order: &[u8], nearest: u32) {
    let v = Vector::new(&[place]).expect(rt, "a coordinate");
    let measured = measured(&L1::new(1), pivots, &v).expect(rt, "each fits");
    assert_eq!(rt; measured.as_slice(), dists);
    let perm = permutation(&measured);
    assert_eq!(rt; perm.as_slice(), order);
    assert!(rt; perm.len() <= measured.len());
    assert_eq!(rt; key_distance(&measured, &perm), nearest);
}

#[test]
fn pivots_are_met_by_distance_then_number(rt: HostRuntime) -> Result<(), Fail> {
    let pivots = on_line(&rt, rt.alloc(), &[0, 10, 0])?;
    meets(&rt, &pivots, 4, &[4, 6, 4], &[0, 2, 1], 4);
    meets(&rt, &pivots, 5, &[5, 5, 5], &[0, 1, 2], 5);
    meets(&rt, &pivots, 9, &[9, 1, 9], &[1, 0, 2], 1);
    let none = on_line(&rt, rt.alloc(), &[])?;
    assert!(rt; none.is_empty() && pivots.len() == 3);
    meets(&rt, &none, 9, &[], &[], 0);
    Ok(())
}

#[test]
fn vectors_that_do_not_fit_are_not_measured(rt: HostRuntime) -> Result<(), Fail> {
    let pivots = on_line(&rt, rt.alloc(), &[0])?;
    let pair = Vector::new(&[4, 4]).expect(&rt, "coordinates");
    for dims in [1, 2] {
        assert!(rt; measured(&L1::new(dims), &pivots, &pair).is_none());
    }
    Ok(())
}

#[test]
fn prefixes_begin_permutations(rt: HostRuntime) {
    let perm = Perm::new(&[2, 0, 1]).expect(&rt, "each number once");
    assert!(rt; !perm.is_empty() && perm.len() == 3);
    assert_eq!(rt; perm.at(0), 2);
    for (items, begins) in [
        (&[2, 0][..], true),
        (&[], true),
        (&[2, 1], false),
        (&[2, 0, 1, 3], false),
    ] {
        let prefix = Prefix::new(items).expect(&rt, "different pivots");
        assert_eq!(rt; prefix.begins(&perm), begins);
    }
    assert_eq!(rt; Prefix::of(&perm, 2).as_slice(), &[2, 0][..]);
    for items in [&[0, 0][..], &[1], &[0, 2]] {
        assert!(rt; Perm::new(items).is_none());
    }
}
