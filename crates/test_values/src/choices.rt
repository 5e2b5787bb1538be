//! Choices among a few objects, held against a plain program of the definition.
ghost use Rattle.std.specs.Prelude.{◌≡◌, ◌<◌, ◌≤◌};

use mi_base::{NoMemory, Steps, Vector, VectorList};
use mi_choose::{Choice, choose};
use mi_metric::{Hamming, L1, Metric};
use std::alloc::Global;
use std::marker::Brand;
use std::process::Abort;
use std::sync::ledger::{Blank, Ledger};
use std::test::Fail;

fn counted<M: Metric, L: Ledger>(
    rt: &impl Abort,
    alloc: Global,
    blank: Blank,
    metric: &M,
    objects: &VectorList,
    count: u32,
) -> Result<Choice, NoMemory>
    requires name { blank.name ≡ L.name }
    requires parts { blank.parts ≡ L.parts }
    requires some { 0 < blank.parts }
    requires count { 1 ≤ count }
    requires most { count ≤ 32 }
{
    assert!(rt; objects.len() <= 200_000);
    assert!(rt; objects.as_slice().iter().all(|object| metric.fits(object)));
    let mut steps = Steps::<L>::new(blank);
    choose(alloc, metric, objects, count, &mut steps)
}

fn choice_of<M: Metric>(
    rt: &impl Abort,
    alloc: Global,
    metric: &M,
    objects: &VectorList,
    count: u32,
) -> Result<Choice, NoMemory>
    requires count { 1 ≤ count }
    requires most { count ≤ 32 }
{
    counted::<M, Brand>(rt, alloc, Blank::new(1), metric, objects, count)
}

/// How far the nearest chosen one is.
fn nearest(objects: &[i64], chosen: &[usize], v: i64) -> u64 {
    let mut least = u64::MAX;
    for place in chosen {
        if let Some(object) = objects.get(*place) {
            least = least.min(object.abs_diff(v));
        }
    }
    least
}

/// The first of the farthest, and how far it is.
fn farthest(objects: &[i64], chosen: &[usize]) -> (Option<usize>, u64) {
    let mut most = 0;
    for object in objects {
        most = nearest(objects, chosen, *object).max(most);
    }
    (
        objects
            .iter()
            .position(|v| nearest(objects, chosen, *v) == most),
        most,
    )
}

/// The places, far one and cover that the definition gives for objects on a line.
fn plain(
    alloc: Global,
    objects: &[i64],
    count: u32,
) -> Result<(Vec<usize>, Option<usize>, u64), NoMemory> {
    let mut chosen = Vec::new(alloc);
    if objects.is_empty() {
        return Ok((chosen, None, 0));
    }
    chosen.push(0)?;
    for _ in 1..count {
        match farthest(objects, chosen.as_slice()) {
            (Some(place), cover) if cover > 0 => chosen.push(place)?,
            _ => break,
        }
    }
    let (far, cover) = farthest(objects, chosen.as_slice());
    Ok((chosen, far, cover))
}

/// The least distance between two of these places.
fn apart(objects: &[i64], places: &[usize]) -> u64 {
    let mut least = u64::MAX;
    for (i, place) in places.iter().enumerate() {
        if let Some(object) = objects.get(*place) {
            least = least.min(nearest(objects, &places[..i], *object));
        }
    }
    least
}

fn agrees(rt: &impl Abort, alloc: Global, objects: &[i64], count: u32) -> Result<(), NoMemory>
    requires count { 1 ≤ count }
    requires most { count ≤ 32 }
{
    let mut list = VectorList::new(alloc);
    for place in objects {
        list.push(Vector::new(&[*place]).expect(rt, "a coordinate"))?;
    }
    let choice = choice_of(rt, alloc, &L1::new(1), &list, count)?;
    let (mut places, far, cover) = plain(alloc, objects, count)?;
    assert_eq!(rt; choice.chosen.len(), places.len());
    for (chosen, place) in choice.chosen.as_slice().iter().zip(&places) {
        assert_eq!(rt; *chosen as usize, *place);
    }
    assert_eq!(rt; choice.far.map(|place| place as usize), far);
    assert_eq!(rt; u64::from(choice.cover), cover);
    if let Some(place) = far {
        places.push(place)?;
        assert_eq!(rt; u64::from(choice.apart), apart(objects, places.as_slice()));
    } else {
        assert_eq!(rt; choice.apart, 0);
    }
    Ok(())
}

#[test]
fn choices_on_a_line_are_those_of_the_definition(rt: HostRuntime) -> Result<(), Fail> {
    for objects in [
        &[][..],
        &[5],
        &[5, 5, 5],
        &[0, 10, 4, 7],
        &[3, 0, 6, 0, 6],
        &[-1_000_000, 1_000_000, 0, 0],
        &[2, 3, 5, 7, 11, 13, 17, 19, 23, 29, 31, 37],
    ] {
        for count in [1, 2, 3, 4, 32] {
            agrees(&rt, rt.alloc(), objects, count)?;
        }
    }
    Ok(())
}

#[test]
fn the_first_of_equally_far_objects_is_chosen(rt: HostRuntime) -> Result<(), Fail> {
    let mut list = VectorList::new(rt.alloc());
    for object in [
        &[1, 1, 1][..],
        &[1, 2, 1],
        &[9, 2, 2],
        &[3, 3, 3],
        &[4, 4, 4],
    ] {
        list.push(Vector::new(object)?)?;
    }
    let choice = choice_of(&rt, rt.alloc(), &Hamming::new(3), &list, 2)?;
    assert_eq!(rt; choice.chosen.as_slice(), &[0, 2][..]);
    assert_eq!(rt; (choice.far, choice.cover, choice.apart), (Some(3), 3, 3));
    Ok(())
}
