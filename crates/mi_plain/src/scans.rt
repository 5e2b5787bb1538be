//! A plain program of the definitions, which scans all live objects at each question.

use std::alloc::Global;
use std::collections::BTreeMap;
use std::test::Fail;

/// Settings of the plane, with fewer than ten pivots.
pub struct Setting {
    pub pivots: &'static [[i64; 2]],
    pub levels: usize,
    pub cell: usize,
    pub updates: u64,
}

/// A live object.
#[derive(Drop)]
pub struct Placed {
    pub point: [i64; 2],
    /// The distance to its first pivot, or 0 without pivots.
    key: i64,
    pub permutation: String,
}

/// The least and the greatest key distance of the objects that were put into a leaf, where there
/// was one.
pub type Hull = Option<(i64, i64)>;

/// What the definitions say of an index. Prefixes and permutations are texts of one digit for each
/// pivot with points between them, so that a prefix begins a permutation as text, and the order of
/// prefixes is that of their texts.
#[derive(Drop)]
pub struct Scans<'a> {
    pub setting: &'a Setting,
    pub objects: BTreeMap<u64, Placed>,
    pub leaves: BTreeMap<String, Hull>,
    pub updates: u64,
    pub splits: u64,
}

/// The sum of the absolute coordinate differences.
pub fn distance(one: [i64; 2], other: [i64; 2]) -> i64 {
    let across = one[0].saturating_sub(other[0]).saturating_abs();
    let along = one[1].saturating_sub(other[1]).saturating_abs();
    across.saturating_add(along)
}

/// An object with the pivots' numbers by distance, then number.
pub fn place(alloc: Global, pivots: &[[i64; 2]], point: [i64; 2]) -> Result<Placed, Fail> {
    let mut order = Vec::new(alloc);
    for (number, pivot) in pivots.iter().enumerate() {
        order.push((distance(*pivot, point), number))?;
    }
    order.sort()?;
    let key = match order.first() {
        Some((least, _)) => *least,
        None => 0,
    };
    let mut permutation = String::new(alloc);
    for (_, number) in order.as_slice() {
        let digit = format!(in alloc; "{number}")?;
        if !permutation.is_empty() {
            permutation.push_str(".")?;
        }
        permutation.push_str(digit.as_str())?;
    }
    Ok(Placed {
        point,
        key,
        permutation,
    })
}

/// The hull with one more key distance in it.
fn widened(hull: Hull, key: i64) -> Hull {
    match hull {
        Some((low, high)) => Some((low.min(key), high.max(key))),
        None => Some((key, key)),
    }
}

impl<'a> Scans<'a> {
    pub fn new(alloc: Global, setting: &'a Setting) -> Result<Scans<'a>, Fail> {
        let mut leaves = BTreeMap::new(alloc);
        if setting.pivots.is_empty() {
            leaves.insert(String::new(alloc), None)?;
        }
        for pivot in 0..setting.pivots.len() {
            leaves.insert(format!(in alloc; "{pivot}")?, None)?;
        }
        Ok(Scans {
            setting,
            objects: BTreeMap::new(alloc),
            leaves,
            updates: 0,
            splits: 0,
        })
    }

    /// How many live objects belong to the leaf.
    pub fn count(&self, leaf: &str) -> usize {
        let mut count = 0usize;
        for placed in self.objects.values() {
            if placed.permutation.as_str().starts_with(leaf) {
                count = count.saturating_add(1);
            }
        }
        count
    }

    /// The least hull of the live objects that belong to the leaf.
    fn live_hull(&self, leaf: &str) -> Hull {
        let mut hull = None;
        for placed in self.objects.values() {
            if placed.permutation.as_str().starts_with(leaf) {
                hull = widened(hull, placed.key);
            }
        }
        hull
    }

    /// Puts the children of a leaf in its place.
    pub fn split(&mut self, alloc: Global, leaf: &str) -> Result<(), Fail> {
        self.leaves.remove(leaf);
        for pivot in 0..self.setting.pivots.len() {
            let digit = format!(in alloc; "{pivot}")?;
            if !leaf.contains(digit.as_str()) {
                let child = format!(in alloc; "{leaf}.{pivot}")?;
                let hull = self.live_hull(child.as_str());
                self.leaves.insert(child, hull)?;
            }
        }
        self.splits = self.splits.saturating_add(1);
        Ok(())
    }

    /// Widens the hull of the leaf of an object.
    pub fn widen(&mut self, placed: &Placed) {
        for (leaf, hull) in &mut self.leaves {
            if placed.permutation.as_str().starts_with(leaf.as_str()) {
                *hull = widened(*hull, placed.key);
            }
        }
    }

    /// The lines of the cells.
    pub fn cells_text(&self, alloc: Global) -> Result<String, Fail> {
        let cells = self.leaves.len();
        let mut text = format!(in alloc; "cells,{cells}\n")?;
        for leaf in self.leaves.keys() {
            let count = self.count(leaf.as_str());
            let name = if leaf.is_empty() { "-" } else { leaf.as_str() };
            let line = format!(in alloc; "{name},{count}\n")?;
            text.push_str(line.as_str())?;
        }
        Ok(text)
    }
}
