//! Range queries over a few objects on a line.
ghost use Rattle.std.specs.Prelude.{◌≡◌, ◌<◌, ◌^◌};

use mi_base::{Dists, Id, NoMemory, Position, Reply, Row, Steps, Vector, VectorList};
use mi_key::{Entry, Key};
use mi_metric::{L1, Metric};
use mi_perm::Pivots;
use mi_range::RangeWork;
use std::alloc::Global;
use std::marker::Brand;
use std::process::Abort;
use std::sync::ledger::{Blank, Ledger};
use std::test::Fail;

fn id(rt: &impl Abort, value: u64) -> Id {
    Id::new(value).expect(rt, "below 2^40")
}

fn on_line(rt: &impl Abort, place: i64) -> Vector {
    Vector::new(&[place]).expect(rt, "a coordinate")
}

fn entry(id: Id, vector: Vector, dists: Dists) -> Entry
    ensures vector { result.vector ≡ vector }
    ensures dists { result.dists ≡ dists }
{
    Entry {
        key: Key::make(1, 0, id, 1),
        vector,
        dists,
        birth: 1,
        death: None,
    }
}

/// What a query answers that is offered these objects in this order.
fn counted<M: Metric, L: Ledger>(
    rt: &impl Abort,
    alloc: Global,
    blank: Blank,
    metric: &M,
    pivots: &Pivots,
    query: &Vector,
    radius: u32,
    objects: &[(u64, i64)],
) -> Result<Reply, NoMemory>
    requires name { blank.name ≡ L.name }
    requires parts { blank.parts ≡ L.parts }
    requires some { 0 < blank.parts }
    requires radius { radius < 2 ^ 31 }
{
    assert!(rt; metric.fits(query) && pivots.all_fit(metric));
    let mut steps = Steps::<L>::new(blank);
    let mut work = RangeWork::new(alloc, &pivots.measure(metric, query, &mut steps), radius);
    for (number, place) in objects {
        let vector = on_line(rt, *place);
        assert!(rt; metric.fits(&vector));
        let dists = pivots.measure(metric, &vector, &mut steps);
        work.room()?;
        let entry = entry(id(rt, *number), vector, dists);
        work.take(&entry, metric, query, &mut steps);
    }
    let at = Position {
        updates: 7,
        splits: 1,
    };
    Ok(work.finish(at, 3))
}

/// The rows and the number of distances.
fn answered(
    rt: &impl Abort,
    alloc: Global,
    pivots: &[i64],
    query: i64,
    radius: u32,
    objects: &[(u64, i64)],
) -> Result<(Vec<Row>, u64), NoMemory>
    requires radius { radius < 2 ^ 31 }
{
    let mut list = VectorList::new(alloc);
    for pivot in pivots {
        list.push(on_line(rt, *pivot))?;
    }
    assert!(rt; list.len() <= 32);
    let pivots = Pivots::new(alloc, &list)?;
    let metric = L1::new(1);
    let query = on_line(rt, query);
    let reply = counted::<L1, Brand>(
        rt,
        alloc,
        Blank::new(1),
        &metric,
        &pivots,
        &query,
        radius,
        objects,
    )?;
    match reply {
        Reply::Range {
            at,
            rows,
            cells,
            distances,
        } => {
            assert_eq!(rt; (at.updates, at.splits, cells), (7, 1, 3));
            let mut list = Vec::new(alloc);
            for row in rows.as_slice() {
                list.push(*row)?;
            }
            Ok((list, distances))
        }
        _ => Ok((Vec::new(alloc), 0)),
    }
}

#[test]
fn rows_are_those_within_the_radius_in_order(rt: HostRuntime) -> Result<(), Fail> {
    let objects = [(3, 5), (1, 3), (2, 1), (7, 18), (4, 2), (6, 8)];
    let row = |distance: u32, number: u64| Row {
        distance,
        id: id(&rt, number),
    };
    let near = answered(&rt, rt.alloc(), &[0, 10], 2, 1, &objects)?;
    assert_eq!(rt; near.0.as_slice(), &[row(0, 4), row(1, 1), row(1, 2)][..]);
    assert_eq!(rt; near.1, 5);
    let none = answered(&rt, rt.alloc(), &[10], 12, 3, &objects)?;
    assert!(rt; none.0.is_empty());
    assert_eq!(rt; none.1, 3);
    let exactly = answered(&rt, rt.alloc(), &[], 12, 6, &objects)?;
    assert_eq!(rt; exactly.0.as_slice(), &[row(4, 6), row(6, 7)][..]);
    assert_eq!(rt; exactly.1, 6);
    Ok(())
}
