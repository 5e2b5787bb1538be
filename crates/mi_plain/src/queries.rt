//! The queries of the plain program, which tries each leaf by the rules and scans all live objects.

use crate::scans::{Hull, Scans, Setting, distance};
use std::alloc::Global;
use std::test::Fail;

/// No distance between two points of these workloads is greater.
const FARTHEST: i64 = 40;

/// The distances from a point to the pivots, by their numbers.
fn distances(alloc: Global, pivots: &[[i64; 2]], point: [i64; 2]) -> Result<Vec<i64>, Fail> {
    let mut all = Vec::new(alloc);
    for pivot in pivots {
        all.push(distance(*pivot, point))?;
    }
    Ok(all)
}

/// The numbers of a prefix's pivots.
fn numbers(alloc: Global, leaf: &str) -> Result<Vec<usize>, Fail> {
    let mut all = Vec::new(alloc);
    for byte in leaf.as_bytes() {
        // A point between two numbers comes before the digits.
        if let Some(digit) = byte.checked_sub(b'0') {
            all.push(usize::from(digit))?;
        }
    }
    Ok(all)
}

/// No pivot but those before this place is nearer to the query by more than twice the radius.
fn keeps_place(to_query: &[i64], before: &[usize], here: i64, radius: i64) -> bool {
    for (pivot, distance) in to_query.iter().enumerate() {
        let is_nearer = here.saturating_sub(*distance) > radius.saturating_mul(2);
        if is_nearer && !before.contains(&pivot) {
            return false;
        }
    }
    true
}

/// The double-pivot rule: each place of the prefix keeps it.
fn keeps_prefix(
    alloc: Global,
    to_query: &[i64],
    prefix: &[usize],
    radius: i64,
) -> Result<bool, Fail> {
    let mut before = Vec::new(alloc);
    for pivot in prefix {
        let here = to_query.get(*pivot).copied().ok_or("a pivot's distance")?;
        if !keeps_place(to_query, before.as_slice(), here, radius) {
            return Ok(false);
        }
        before.push(*pivot)?;
    }
    Ok(true)
}

/// Whether a leaf may have an object within the radius, by its prefix and its hull.
fn passes(
    alloc: Global,
    to_query: &[i64],
    prefix: &[usize],
    hull: Hull,
    radius: i64,
) -> Result<bool, Fail> {
    let Some((low, high)) = hull else {
        return Ok(false);
    };
    let Some(first) = prefix.first() else {
        return Ok(true);
    };
    let here = to_query.get(*first).copied().ok_or("a pivot's distance")?;
    let meets = here.saturating_add(radius) >= low && here.saturating_sub(radius) <= high;
    Ok(meets && keeps_prefix(alloc, to_query, prefix, radius)?)
}

/// The least radius at which a leaf passes.
fn bound(alloc: Global, to_query: &[i64], leaf: &str, hull: Hull) -> Result<Option<i64>, Fail> {
    let prefix = numbers(alloc, leaf)?;
    for radius in 0..FARTHEST + 1 {
        if passes(alloc, to_query, prefix.as_slice(), hull, radius)? {
            return Ok(Some(radius));
        }
    }
    Ok(None)
}

/// At every pivot the distances of the object and of the query are no farther apart than the
/// radius.
fn is_candidate(pivots: &[[i64; 2]], to_query: &[i64], point: [i64; 2], radius: i64) -> bool {
    for (pivot, own) in pivots.iter().zip(to_query) {
        let apart = own.saturating_sub(distance(*pivot, point));
        if apart.saturating_abs() > radius {
            return false;
        }
    }
    true
}

/// A reply with its rows.
fn with_rows(alloc: Global, head: &str, rows: &[(i64, u64)]) -> Result<String, Fail> {
    let mut text = String::from_str(alloc, head)?;
    for (distance, id) in rows {
        let line = format!(in alloc; "{distance},{id}\n")?;
        text.push_str(line.as_str())?;
    }
    Ok(text)
}

impl<'a> Scans<'a> {
    /// All live objects by distance from the query, then identifier.
    fn ranked(&self, alloc: Global, query: [i64; 2]) -> Result<Vec<(i64, u64)>, Fail> {
        let mut rows = Vec::new(alloc);
        for (id, placed) in &self.objects {
            rows.push((distance(placed.point, query), *id))?;
        }
        rows.sort()?;
        Ok(rows)
    }

    /// How many live objects of a leaf the query is compared with.
    fn candidates(&self, to_query: &[i64], leaf: &str, radius: i64) -> usize {
        let mut count = 0usize;
        for placed in self.objects.values() {
            let belongs = placed.permutation.as_str().starts_with(leaf);
            if belongs && is_candidate(self.setting.pivots, to_query, placed.point, radius) {
                count = count.saturating_add(1);
            }
        }
        count
    }

    /// The reply to a query for all objects within the radius.
    pub fn range(&self, alloc: Global, radius: i64, query: [i64; 2]) -> Result<String, Fail> {
        let to_query = distances(alloc, self.setting.pivots, query)?;
        let mut cells = 0usize;
        let mut compared = self.setting.pivots.len();
        for (leaf, hull) in &self.leaves {
            let prefix = numbers(alloc, leaf.as_str())?;
            if passes(alloc, to_query.as_slice(), prefix.as_slice(), *hull, radius)? {
                cells = cells.saturating_add(1);
                let of_leaf = self.candidates(to_query.as_slice(), leaf.as_str(), radius);
                compared = compared.saturating_add(of_leaf);
            }
        }
        let mut rows = self.ranked(alloc, query)?;
        rows.retain(|(distance, _)| *distance <= radius);
        let found = rows.len();
        let Scans {
            updates,
            splits,
            ..
        } = self;
        let head = format!(in alloc; "range,{updates},{splits},{found},{cells},{compared}\n")?;
        with_rows(alloc, head.as_str(), rows.as_slice())
    }

    /// How many leaves have a bound that isn't greater than the distance, or have a bound, where no
    /// distance is given.
    fn opened(&self, alloc: Global, query: [i64; 2], farthest: Option<i64>) -> Result<usize, Fail> {
        let to_query = distances(alloc, self.setting.pivots, query)?;
        let mut cells = 0usize;
        for (leaf, hull) in &self.leaves {
            let opens = match (
                bound(alloc, to_query.as_slice(), leaf.as_str(), *hull)?,
                farthest,
            ) {
                (Some(bound), Some(distance)) => bound <= distance,
                (bound, _) => bound.is_some(),
            };
            if opens {
                cells = cells.saturating_add(1);
            }
        }
        Ok(cells)
    }

    /// The reply to a query for so many nearest objects.
    pub fn nearest(&self, alloc: Global, count: usize, query: [i64; 2]) -> Result<String, Fail> {
        let mut rows = self.ranked(alloc, query)?;
        rows.truncate(count);
        let found = rows.len();
        let farthest = match rows.last() {
            Some((distance, _)) if found == count => Some(*distance),
            _ => None,
        };
        let cells = self.opened(alloc, query, farthest)?;
        let Scans {
            updates,
            splits,
            ..
        } = self;
        let head = format!(in alloc; "nearest,{updates},{splits},{found},{cells}\n")?;
        with_rows(alloc, head.as_str(), rows.as_slice())
    }
}
