//! The calls of a catalog, one after another.
ghost use Rattle.std.specs.Prelude.{◌≡◌, ◌<◌, ◌≤◌, IfOk, length};

use mi_base::{NoMemory, Perm, Prefix, Steps};
use mi_tree::{Catalog, Leaf, Placed, SplitRefusal};
use std::alloc::Global;
use std::marker::{Brand, Model};
use std::sync::ledger::{Blank, Ledger};
use std::test::Fail;

type Row = (usize, u32, Option<(u32, u32)>);

/// The length of the prefix of the leaf at a place, its count and its hull.
fn row(catalog: &Catalog, place: usize) -> Option<Row> {
    if place >= catalog.len() {
        return None;
    }
    let leaf = catalog.leaf(place);
    Some((leaf.prefix.len(), leaf.count, leaf.hull))
}

/// Adds an object to a leaf that has fewer than a thousand.
fn add(catalog: &mut Catalog, perm: &Perm, distance: u32)
    requires { length perm.now ≡ catalog.old.pivots }
    ensures { catalog.new.pivots ≡ catalog.old.pivots }
{
    let count = catalog.locate(perm).count;
    if count < 1000 {
        catalog.add(perm, distance);
    }
}

/// Takes an object out of a leaf that has some.
fn remove(catalog: &mut Catalog, perm: &Perm)
    requires { length perm.now ≡ catalog.old.pivots }
    ensures { catalog.new.pivots ≡ catalog.old.pivots }
{
    let count = catalog.locate(perm).count;
    if count > 0 {
        catalog.remove(perm);
    }
}

/// The same catalog again, counted by a counter of its own.
fn copy<L: Ledger>(alloc: Global, blank: Blank, catalog: &Catalog) -> Result<Catalog, NoMemory>
    requires name { blank.name ≡ L.name }
    requires parts { blank.parts ≡ L.parts }
    requires some { 0 < blank.parts }
{
    catalog.copy(alloc, &mut Steps::<L>::new(blank))
}

fn copied(alloc: Global, catalog: &Catalog) -> Result<Catalog, NoMemory> {
    copy::<Brand>(alloc, Blank::new(1), catalog)
}

#[test]
fn a_split_leaves_the_live_objects_in_the_children(rt: HostRuntime) -> Result<(), Fail> {
    let near = Perm::new(&[0, 1]).ok_or("near")?;
    let far = Perm::new(&[1, 0]).ok_or("far")?;
    let mut catalog = Catalog::first(rt.alloc(), 2, 2)?;
    add(&mut catalog, &near, 3);
    add(&mut catalog, &far, 7);
    add(&mut catalog, &near, 4);
    add(&mut catalog, &far, 8);
    remove(&mut catalog, &near);
    remove(&mut catalog, &far);
    let zero = Prefix::of(&near, 1);
    let earlier = copied(rt.alloc(), &catalog)?;
    let objects = [Placed {
        perm: Perm::new(&[0, 1]).ok_or("near")?,
        distance: 4,
    }];
    for wanted in [Ok(()), Err(SplitRefusal::NotLeaf)] {
        assert_eq!(rt; catalog.split(rt.alloc(), &zero, &objects), wanted);
    }
    assert_eq!(rt;
        catalog.split(rt.alloc(), &Prefix::of(&near, 2), &objects),
        Err(SplitRefusal::Deepest)
    );
    assert_eq!(rt; (earlier.len(), catalog.len(), catalog.levels()), (2, 2, 2));
    let table: [(usize, Row, Row); 2] = [
        (0, (1, 1, Some((3, 4))), (2, 1, Some((4, 4)))),
        (1, (1, 1, Some((7, 8))), (1, 1, Some((7, 8)))),
    ];
    for (place, before, after) in table {
        assert_eq!(rt; row(&earlier, place), Some(before), "at {place}");
        assert_eq!(rt; row(&catalog, place), Some(after), "at {place}");
    }
    Ok(())
}

/// Splits a leaf with fewer than a thousand objects.
fn split(
    catalog: &mut Catalog,
    alloc: Global,
    prefix: &Prefix,
    objects: &[Placed],
) -> Result<(), SplitRefusal>
    ensures { catalog.new.pivots ≡ catalog.old.pivots }
{
    if objects.len() < 1000 {
        catalog.split(alloc, prefix, objects)
    } else {
        Err(SplitRefusal::Memory)
    }
}

/// The orders in which three pivots may be met. Without pivots each stands for the one empty order.
static ORDERS: [[u8; 3]; 6] = [
    [0, 1, 2],
    [0, 2, 1],
    [1, 0, 2],
    [1, 2, 0],
    [2, 0, 1],
    [2, 1, 0],
];

/// An object by the order in which it meets the pivots, and its key distance.
#[derive(Clone, Copy)]
struct Known {
    order: [u8; 3],
    distance: u32,
}

/// Numbers by a fixed rule.
#[derive(Drop)]
struct Draws {
    state: u64,
}

impl Draws {
    /// A number below the bound.
    fn below(&mut self, bound: usize) -> usize
        requires { 0 < bound }
        ensures { result < bound }
    {
        self.state = self
            .state
            .wrapping_mul(6364136223846793005)
            .wrapping_add(1442695040888963407);
        (self.state >> 33) as usize % bound
    }
}

/// The definitions by scans of all objects: the live ones, those put into the leaves of this time, and the prefixes of the
/// leaves, which stand in no order.
#[derive(Drop)]
struct Plain {
    live: Vec<Known>,
    put: Vec<Known>,
    prefixes: Vec<Prefix>,
}

impl Plain {
    fn has(&self, prefix: &[u8]) -> bool {
        self.prefixes.iter().any(|leaf| leaf.as_slice() == prefix)
    }

    /// Leaves for the fronts of so many pivots of the orders that begin with these.
    fn sprout(&mut self, begun: &[u8], depth: usize) -> Result<(), Fail>
        requires { depth ≤ 3 }
    {
        for order in &ORDERS {
            let front = &order[..depth];
            if order.starts_with(begun) && !self.has(front) {
                self.prefixes.push(Prefix::new(front).ok_or("a prefix")?)?;
            }
        }
        Ok(())
    }

    fn split(&mut self, prefix: &[u8], depth: usize) -> Result<(), Fail>
        requires { depth < 3 }
    {
        self.prefixes.retain(|leaf| leaf.as_slice() != prefix);
        self.sprout(prefix, depth + 1)?;
        self.put.retain(|object| !object.order.starts_with(prefix));
        for object in &self.live {
            if object.order.starts_with(prefix) {
                self.put.push(*object)?;
            }
        }
        Ok(())
    }

    fn count(&self, prefix: &[u8]) -> usize {
        self.live
            .iter()
            .filter(|object| object.order.starts_with(prefix))
            .count()
    }

    fn hull(&self, prefix: &[u8]) -> Option<(u32, u32)> {
        let mut hull = None;
        for object in &self.put {
            if object.order.starts_with(prefix) {
                let (low, high) = hull.unwrap_or((object.distance, object.distance));
                hull = Some((object.distance.min(low), object.distance.max(high)));
            }
        }
        hull
    }

    fn is(&self, leaf: &Leaf) -> bool {
        let prefix = leaf.prefix.as_slice();
        self.has(prefix)
            && self.count(prefix) == leaf.count as usize
            && self.hull(prefix) == leaf.hull
    }
}

/// A catalog, and the plain program after the same calls.
#[derive(Drop)]
struct Twin {
    catalog: Catalog,
    plain: Plain,
    pivots: usize,
}

impl Model for Twin {
    ghost use Rattle.std.specs.Prelude.{◌≡◌, ◌≤◌, ℕ};

    ghost Value = { ℕ };

    ghost view = { λ t. t.pivots };

    ghost invariant = { λ t. (t.catalog.pivots ≡ t.pivots) × (t.pivots ≤ 3) };
}

impl Twin {
    fn new(alloc: Global, catalog: Catalog, pivots: usize) -> Result<Twin, Fail>
        requires same { catalog.pivots ≡ pivots }
        requires few { pivots ≤ 3 }
    {
        let mut plain = Plain {
            live: Vec::new(alloc),
            put: Vec::new(alloc),
            prefixes: Vec::new(alloc),
        };
        plain.sprout(&[], pivots.min(1))?;
        Ok(Twin {
            catalog,
            plain,
            pivots,
        })
    }

    fn perm(&self, order: &[u8; 3]) -> Result<Perm, Fail>
        ensures { IfOk result (λ perm. length perm ≡ self.now) }
    {
        let perm = Perm::new(&order[..self.pivots]).ok_or("a permutation")?;
        if perm.len() == self.pivots {
            Ok(perm)
        } else {
            Err("another permutation".into())
        }
    }

    fn insert(&mut self, draws: &mut Draws) -> Result<(), Fail> {
        let object = Known {
            order: ORDERS[draws.below(6)],
            distance: draws.below(50) as u32,
        };
        let perm = self.perm(&object.order)?;
        self.plain.live.push(object)?;
        self.plain.put.push(object)?;
        add(&mut self.catalog, &perm, object.distance);
        Ok(())
    }

    fn delete(&mut self, draws: &mut Draws) -> Result<(), Fail> {
        if !self.plain.live.is_empty() {
            let place = draws.below(self.plain.live.len());
            let object = self.plain.live.swap_remove(place);
            let perm = self.perm(&object.order)?;
            remove(&mut self.catalog, &perm);
        }
        Ok(())
    }

    /// The live objects that begin with a prefix, as a catalog is told of them.
    fn placed(&self, alloc: Global, prefix: &[u8]) -> Result<Vec<Placed>, Fail> {
        let mut objects = Vec::new(alloc);
        for object in &self.plain.live {
            if object.order.starts_with(prefix) {
                objects.push(Placed {
                    perm: self.perm(&object.order)?,
                    distance: object.distance,
                })?;
            }
        }
        Ok(objects)
    }

    /// A split of some prefix, a leaf's or another, and whether the answer was the right one.
    fn split(&mut self, alloc: Global, draws: &mut Draws) -> Result<bool, Fail> {
        let perm = self.perm(&ORDERS[draws.below(6)])?;
        let depth = draws.below(self.pivots + 1);
        let prefix = Prefix::of(&perm, depth);
        let objects = self.placed(alloc, prefix.as_slice())?;
        let answer = split(&mut self.catalog, alloc, &prefix, objects.as_slice());
        if !self.plain.has(prefix.as_slice()) {
            return Ok(answer == Err(SplitRefusal::NotLeaf));
        }
        if depth >= self.pivots {
            return Ok(answer == Err(SplitRefusal::Deepest));
        }
        self.plain.split(prefix.as_slice(), depth)?;
        Ok(answer == Ok(()))
    }

    /// One call of each, and whether a split was answered right.
    fn step(&mut self, alloc: Global, draws: &mut Draws) -> Result<bool, Fail> {
        match draws.below(6) {
            0 => self.split(alloc, draws),
            1 | 2 => {
                self.delete(draws)?;
                Ok(true)
            }
            _ => {
                self.insert(draws)?;
                Ok(true)
            }
        }
    }

    /// The leaves are those of the plain program, in ascending order.
    fn agrees(&self) -> bool {
        for place in 0..self.catalog.len() {
            let leaf = self.catalog.leaf(place);
            let ascends = place == 0
                || self.catalog.leaf(place - 1).prefix.as_slice() < leaf.prefix.as_slice();
            if !ascends || !self.plain.is(leaf) {
                return false;
            }
        }
        self.catalog.len() == self.plain.prefixes.len()
    }

    /// Each permutation is located in the leaf of the plain program that it begins with.
    fn locates(&self) -> Result<bool, Fail> {
        for order in &ORDERS {
            let leaf = self.catalog.locate(&self.perm(order)?);
            if !order.starts_with(leaf.prefix.as_slice()) || !self.plain.is(&leaf) {
                return Ok(false);
            }
        }
        Ok(true)
    }
}

/// So many calls of each, and the first one after which they differ.
fn first_difference(mut twin: Twin, alloc: Global, calls: u32) -> Result<Option<u32>, Fail> {
    let mut draws = Draws { state: 1 };
    for call in 0..calls {
        let right = twin.step(alloc, &mut draws)?;
        if !right || !twin.agrees() || !twin.locates()? {
            return Ok(Some(call));
        }
    }
    Ok(None)
}

#[test]
fn a_catalog_is_what_scans_of_all_objects_give(rt: HostRuntime) -> Result<(), Fail> {
    let three = Twin::new(rt.alloc(), Catalog::first(rt.alloc(), 3, 3)?, 3)?;
    assert_eq!(rt; first_difference(three, rt.alloc(), 400)?, None);
    let none = Twin::new(rt.alloc(), Catalog::first(rt.alloc(), 0, 0)?, 0)?;
    assert_eq!(rt; first_difference(none, rt.alloc(), 100)?, None);
    Ok(())
}
