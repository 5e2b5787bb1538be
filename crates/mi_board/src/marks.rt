//! Which leaves are passed over: a mark for each leaf, in the order of the catalog.
ghost use Rattle.std.specs.Prelude.{◌≡◌, ◌<◌, ◌≤◌, ◌++◌, IfOk, IfSome, OnErr, OnOk, false, flat_map, length, map, replicate, slice_get, true};
ghost use Rattle.mi_board.specs.Marks.{split_marks};
ghost use Rattle.mi_tree.specs.Catalog.{prefixes_of};
ghost use Rattle.mi_tree.specs.Cells.{children};
ghost use Rattle.mi_tree.specs.Counting.{has_leaf, split_leaf};
ghost use Rattle.mi_tree.specs.Order.{in_order};

use mi_base::{NoMemory, Prefix};
use mi_tree::{Catalog, Placed, is_before, is_same};
use std::alloc::Global;

/// The marks of so many leaves of which none is passed over.
pub fn unmarked(alloc: Global, count: usize) -> Result<Vec<bool>, NoMemory>
    ensures { IfOk result (λ marks. marks.items ≡ replicate count false) }
{
    let mut marks = Vec::with_capacity(alloc, count)?;
    for _ in 0..count {
        marks.push(false)?;
    }
    Ok(marks)
}

/// The place of the leaf of this prefix: the last one that the prefix doesn't come before.
pub fn place_of(catalog: &Catalog, prefix: &Prefix) -> usize
    requires leaf { has_leaf prefix.now catalog.now.leaves ≡ true }
    requires order { in_order (prefixes_of catalog.now.leaves) ≡ true }
    ensures within { result < length catalog.now.leaves }
    ensures leaf { IfSome (slice_get catalog.now.leaves result) (λ leaf. leaf.prefix ≡ prefix.now) }
{
    let pivots = prefix.as_slice();
    let mut low = 0;
    let mut high = catalog.len();
    while high - low > 1 {
        let middle = low + (high - low) / 2;
        if is_before(pivots, &catalog.leaf(middle).prefix) {
            high = middle;
        } else {
            low = middle;
        }
    }
    low
}

/// Splits a leaf, with the marks: its children have none. A caller gives the live objects of the leaf.
pub fn split_cell(
    alloc: Global,
    pivots: u8,
    catalog: &mut Catalog,
    marks: &mut Vec<bool>,
    prefix: &Prefix,
    objects: &[Placed],
) -> Result<(), NoMemory>
    requires few { length objects.now ≤ u32.MAX }
    requires each { length marks.old.items ≡ length catalog.old.leaves }
    ensures catalog { OnOk result (catalog.new ≡ record catalog.old { leaves = flat_map (split_leaf catalog.old.pivots prefix.now objects.now) catalog.old.leaves }) }
    ensures marks { OnOk result (marks.new.items ≡ split_marks pivots prefix.now (prefixes_of catalog.old.leaves) marks.old.items) }
    ensures err { OnErr result (catalog.new ≡ catalog.old) }
    ensures same { OnErr result (marks.new ≡ marks.old) }
{
    let after = marks_after(alloc, pivots, catalog, marks, prefix)?;
    let Ok(()) = catalog.split(alloc, prefix, objects) else {
        return Err(NoMemory);
    };
    *marks = after;
    Ok(())
}

/// The marks of the leaves after a split of this one, whose children have none.
fn marks_after(
    alloc: Global,
    pivots: u8,
    catalog: &Catalog,
    marks: &[bool],
    prefix: &Prefix,
) -> Result<Vec<bool>, NoMemory>
    requires { length marks.now ≡ length catalog.now.leaves }
    ensures { IfOk result (λ after. after.items ≡ split_marks pivots prefix.now (prefixes_of catalog.now.leaves) marks.now) }
{
    let mut after = Vec::new(alloc);
    for (place, mark) in marks.iter().enumerate() {
        if is_same(prefix, &catalog.leaf(place).prefix) {
            push_children(&mut after, pivots, prefix)?;
        } else {
            after.push(*mark)?;
        }
    }
    Ok(after)
}

/// The marks of the children of a leaf, one for each pivot that isn't in its prefix, at the end of a list.
fn push_children(marks: &mut Vec<bool>, pivots: u8, prefix: &Prefix) -> Result<(), NoMemory>
    ensures { OnOk result (marks.new.items ≡ marks.old.items ++ map (λ _. false) (children pivots prefix.now)) }
{
    for pivot in 0..pivots {
        if !prefix.as_slice().contains(&pivot) {
            marks.push(false)?;
        }
    }
    Ok(())
}
