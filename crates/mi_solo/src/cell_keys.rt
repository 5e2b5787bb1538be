//! The keys of a leaf's cell, and how far one who reads them has come.
ghost use Rattle.std.specs.Prelude.{◌≡◌, ◌<◌, ◌≤◌, ◌-◌, ◌^◌, IsTrue, length};
ghost use Rattle.mi_key.specs.Clusters.{cluster_of};
ghost use Rattle.mi_base.specs.Prefixes.{all_below};
ghost use Rattle.mi_entries.specs.Entries.{grid};
ghost use Rattle.mi_entries.specs.Marks.{cell_end, cell_range, cell_start, mark_past};

use mi_base::{Id, MAX_ID, Prefix, Settings};
use mi_key::{Interval, Key, cluster_number};

/// The number of a leaf's cell.
fn cell_number(settings: &Settings, leaf: &Prefix) -> u32
    requires depth { length leaf.now ≤ settings.now.levels }
    requires pivots { IsTrue (all_below (length settings.now.pivots) leaf.now) }
    ensures number { result ≡ cluster_of (length settings.now.pivots) settings.now.levels leaf.now }
    ensures small { result < 2 ^ 31 - 1 }
{
    let pivots = settings.pivots.len() as u32;
    cluster_number(leaf, pivots, settings.levels)
}

/// The first key of a leaf's cell.
pub fn first_key(settings: &Settings, leaf: &Prefix) -> Key
    requires depth { length leaf.now ≤ settings.now.levels }
    requires pivots { IsTrue (all_below (length settings.now.pivots) leaf.now) }
    ensures { result ≡ cell_start (grid settings.now) leaf.now }
{
    Key::make(cell_number(settings, leaf), 0, first_id(), 0)
}

/// The key after all keys of a leaf's cell.
pub fn end_key(settings: &Settings, leaf: &Prefix) -> Key
    requires depth { length leaf.now ≤ settings.now.levels }
    requires pivots { IsTrue (all_below (length settings.now.pivots) leaf.now) }
    ensures { result ≡ cell_end (grid settings.now) leaf.now }
{
    Key::make(cell_number(settings, leaf) + 1, 0, first_id(), 0)
}

/// All keys of a leaf's cell.
pub fn cell_keys(settings: &Settings, leaf: &Prefix) -> Interval
    requires depth { length leaf.now ≤ settings.now.levels }
    requires pivots { IsTrue (all_below (length settings.now.pivots) leaf.now) }
    ensures { result ≡ cell_range (grid settings.now) leaf.now }
{
    let cell = cell_number(settings, leaf);
    let Ok(last) = Id::new(MAX_ID) else {
        unreachable!();
    };
    Interval {
        from: Key::make(cell, 0, first_id(), 0),
        to: Key::make(cell, (1 << 27) - 1, last, (1 << 30) - 1),
    }
}

/// The key up to which one has read who has read a page: the page's end, or that of the cell.
pub fn mark_past(high: Option<Key>, end: Key) -> Key
    ensures { result ≡ mark_past high end }
{
    match high {
        Some(high) if high < end => high,
        _ => end,
    }
}

/// The least identifier.
fn first_id() -> Id
    ensures { result ≡ 0 }
{
    let Ok(id) = Id::new(0) else {
        unreachable!();
    };
    id
}
