//! Queries for the nearest over a few objects on a line, with ties, and leaves in their order beside a plain program.
ghost use Rattle.std.specs.Prelude.{◌≡◌, ◌≤◌, ◌<◌, IsTrue};
ghost use Rattle.std.specs.List.{AllByRecursion};
ghost use Rattle.mi_base.specs.Prefixes.{all_below};

use mi_base::{Dists, Id, NoMemory, Perm, Position, Prefix, Reply, Row, Steps, Vector, VectorList};
use mi_key::{Entry, Key};
use mi_metric::{L1, Metric};
use mi_nearest::{NearestWork, Rank, ranked};
use mi_perm::Pivots;
use mi_rules::passes;
use mi_tree::{Catalog, Leaf, Placed};
use std::alloc::Global;
use std::marker::Brand;
use std::process::Abort;
use std::sync::ledger::{Blank, Ledger};
use std::test::Fail;

fn on_line(rt: &impl Abort, place: i64) -> Vector {
    Vector::new(&[place]).expect(rt, "a coordinate")
}

fn entry(id: Id, vector: Vector, dists: Dists) -> Entry
    ensures vector { result.vector ≡ vector }
    ensures dists { result.dists ≡ dists }
{
    Entry {
        key: Key::make(1, 0, id, 1),
        vector,
        dists,
        birth: 1,
        death: None,
    }
}

/// The query stops at each bound above the greatest distance kept, once that is told, and at no other.
fn check_stops(rt: &impl Abort, work: &NearestWork) {
    match work.worst() {
        None => assert!(rt; !work.stops_at(u32::MAX)),
        Some(worst) => {
            assert!(rt; !work.stops_at(worst));
            assert!(rt; work.stops_at(worst.saturating_add(1)));
        }
    }
}

/// What a query answers that is offered these objects in this order, and the greatest distance kept then.
fn counted<M: Metric, L: Ledger>(
    rt: &impl Abort,
    alloc: Global,
    blank: Blank,
    metric: &M,
    pivots: &Pivots,
    query: &Vector,
    count: u32,
    objects: &[(u64, i64)],
) -> Result<(Reply, Option<u32>), NoMemory>
    requires name { blank.name ≡ L.name }
    requires parts { blank.parts ≡ L.parts }
    requires some { 0 < blank.parts }
    requires one { 1 ≤ count }
    requires few { count ≤ 1000000 }
{
    assert!(rt; metric.fits(query) && pivots.all_fit(metric));
    let mut steps = Steps::<L>::new(blank);
    let mut work = NearestWork::new(alloc, count, &pivots.measure(metric, query, &mut steps));
    for (number, place) in objects {
        let vector = on_line(rt, *place);
        assert!(rt; metric.fits(&vector));
        let dists = pivots.measure(metric, &vector, &mut steps);
        work.room()?;
        let id = Id::new(*number).expect(rt, "below 2^40");
        let entry = entry(id, vector, dists);
        work.take(&entry, metric, query, &mut steps);
    }
    check_stops(rt, &work);
    let worst = work.worst();
    let at = Position {
        updates: 7,
        splits: 1,
    };
    Ok((work.finish(at, 3), worst))
}

/// The distances and identifiers of the rows, and the greatest distance kept.
fn answered(
    rt: &impl Abort,
    alloc: Global,
    pivots: &[i64],
    query: i64,
    count: u32,
    objects: &[(u64, i64)],
) -> Result<(Vec<Row>, Option<u32>), NoMemory>
    requires one { 1 ≤ count }
    requires few { count ≤ 1000000 }
{
    let mut list = VectorList::new(alloc);
    for pivot in pivots {
        list.push(on_line(rt, *pivot))?;
    }
    assert!(rt; list.len() <= 32);
    let pivots = Pivots::new(alloc, &list)?;
    let metric = L1::new(1);
    let query = on_line(rt, query);
    let (reply, worst) = counted::<L1, Brand>(
        rt,
        alloc,
        Blank::new(1),
        &metric,
        &pivots,
        &query,
        count,
        objects,
    )?;
    match reply {
        Reply::Nearest { at, rows, cells } => {
            assert_eq!(rt; (at.updates, at.splits, cells), (7, 1, 3));
            let mut list = Vec::new(alloc);
            for row in rows.as_slice() {
                list.push(*row)?;
            }
            Ok((list, worst))
        }
        _ => Ok((Vec::new(alloc), None)),
    }
}

#[test]
fn ties_go_to_the_smaller_identifier(rt: HostRuntime) -> Result<(), Fail> {
    let objects = [(4, 1), (3, 1), (2, -1), (1, -1), (9, 7), (5, 0)];
    let row = |distance: u32, number: u64| Row {
        distance,
        id: Id::new(number).expect(&rt, "below 2^40"),
    };
    let all = [
        row(0, 5),
        row(1, 1),
        row(1, 2),
        row(1, 3),
        row(1, 4),
        row(7, 9),
    ];
    for pivots in [&[][..], &[0], &[5, -5], &[7, 1, 0]] {
        for (count, worst) in [
            (1, Some(0)),
            (3, Some(1)),
            (5, Some(1)),
            (6, Some(7)),
            (7, None),
            (1_000_000, None),
        ] {
            let (rows, kept) = answered(&rt, rt.alloc(), pivots, 0, count, &objects)?;
            let first = (count as usize).min(6);
            assert_eq!(rt; rows.as_slice(), &all[..first], "{count} of {pivots:?}");
            assert_eq!(rt; kept, worst);
        }
    }
    Ok(())
}

fn below(prefix: &Prefix, pivots: usize) -> bool
    ensures { result ≡ all_below pivots prefix.now }
{
    prefix
        .as_slice()
        .iter()
        .all(|pivot| usize::from(*pivot) < pivots)
}

/// Whether all leaves are of so many pivots.
fn all_are_below(catalog: &Catalog, pivots: usize) -> bool
    ensures { IsTrue result → AllByRecursion (λ leaf. IsTrue (all_below pivots leaf.prefix)) catalog.now.leaves }
{
    for place in 0..catalog.len() {
        if !below(&catalog.leaf(place).prefix, pivots) {
            return false;
        }
    }
    true
}

/// Leaves of three pivots: the objects of the first two are split among their children, and the last has none.
fn few_leaves(rt: &impl Abort, alloc: Global) -> Result<Catalog, Fail> {
    let placed = |pivots: [u8; 3], distance: u32| {
        Perm::new(&pivots).map(|perm| Placed { perm, distance })
    };
    let objects = [
        placed([0, 1, 2], 4).ok_or("an order")?,
        placed([0, 1, 2], 6).ok_or("an order")?,
        placed([0, 2, 1], 3).ok_or("an order")?,
        placed([1, 0, 2], 9).ok_or("an order")?,
    ];
    let mut catalog = Catalog::first(alloc, 3, 2)?;
    for pivot in [0, 1] {
        let prefix = Prefix::new(&[pivot]).ok_or("a prefix")?;
        assert!(rt; catalog.split(alloc, &prefix, &objects).is_ok());
    }
    Ok(catalog)
}

/// The leaves in the order in which ever greater radii reach them.
fn plainly_ranked(alloc: Global, catalog: &Catalog, query: &Dists) -> Result<Vec<Rank>, NoMemory> {
    let mut ranks = Vec::new(alloc);
    for bound in 0..20 {
        for place in 0..catalog.len() {
            let leaf = catalog.leaf(place);
            if reaches(leaf, query, bound) && (bound == 0 || !reaches(leaf, query, bound - 1)) {
                ranks.push(Rank { bound, place })?;
            }
        }
    }
    Ok(ranks)
}

fn reaches(leaf: &Leaf, query: &Dists, radius: u32) -> bool {
    below(&leaf.prefix, query.len()) && passes(leaf, query, radius)
}

#[test]
fn leaves_are_opened_by_bound_then_place(rt: HostRuntime) -> Result<(), Fail> {
    let catalog = few_leaves(&rt, rt.alloc())?;
    let worked = [
        ([3, 9, 3], [(0, 1), (3, 0), (3, 2)]),
        ([9, 1, 4], [(4, 0), (6, 1), (8, 2)]),
    ];
    for (distances, order) in worked {
        let query = Dists::try_from(&distances[..]).expect(&rt, "three distances");
        assert!(rt; all_are_below(&catalog, query.len()));
        let ranks = ranked(rt.alloc(), &catalog, &query)?;
        let plain = plainly_ranked(rt.alloc(), &catalog, &query)?;
        assert_eq!(rt; ranks.as_slice(), plain.as_slice(), "{distances:?}");
        let order = order.map(|(bound, place)| Rank { bound, place });
        assert_eq!(rt; ranks.as_slice(), &order[..]);
    }
    Ok(())
}
