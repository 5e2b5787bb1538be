//! Sections of a leaf page, with the page and its actor's row in hand: sweeps and copies.
ghost use Rattle.std.specs.Prelude.{◌≡◌, ◌<◌, ◌≤◌, ◌-◌, false, length, true};
ghost use Rattle.mi_page.specs.Entries.{has_entry, without_dead};
ghost use Rattle.mi_page.specs.Keys.{IsInside};
ghost use Rattle.mi_solo.specs.LeafRows.{CopiesRow, IsRowCopy, IsSplitting, IsSweeping, SweepsRow, TakesCopy, UncopiesRow, copied_by, copy_key, gathered_by, swept_mark};
ghost use Rattle.mi_solo.specs.Seeking.{HasSibling};

use crate::cell_keys::{cell_keys, end_key, mark_past};
use crate::copying::{copy_in_child, key_in_child};
use crate::page_rows::CAPACITY;
use crate::rows::ActorRow;
use crate::seeking::{Way, next_page, seek};
use mi_base::Settings;
use mi_key::{Entry, Key};
use mi_page::Page;
use mi_world::{Put, Visit};

/// Takes the old entries of the leaf that the row sweeps off the page, if that is the next
/// one that may have some.
pub fn sweep_row(settings: &Settings, node: &mut Page, row: &mut ActorRow, page: u32) -> Visit
    requires sweeping { IsSweeping settings.now row.old }
    requires low { node.old.low ≤ swept_mark row.old }
    requires sibling { HasSibling node.old }
    ensures { SweepsRow settings.now page result node.old row.old node.new row.new }
{
    let Some(work) = &row.sweep else {
        unreachable!();
    };
    let keys = cell_keys(settings, &work.leaf);
    let end = end_key(settings, &work.leaf);
    match seek(node, 0, work.mark) {
        Way::Down { page: child } => {
            row.note(page);
            Visit::Down { page: child }
        }
        Way::Right { page: next } => {
            row.note(page);
            Visit::Right { page: next }
        }
        Way::Here => {
            let next = next_page(node, keys.to);
            row.sweep_up_to(page, mark_past(node.high(), end), end);
            node.sweep(&keys);
            Visit::Read { next }
        }
    }
}

/// The key of the copy of what the row's split has gathered at a place.
fn key_at(settings: &Settings, row: &ActorRow, place: usize) -> Key
    requires splitting { IsSplitting settings.now row.now }
    requires place { place < length (gathered_by row.now) }
    ensures { result ≡ copy_key settings.now row.now place }
{
    let Some(work) = &row.split else {
        unreachable!();
    };
    let Some(entry) = work.gathered.as_slice().get(place) else {
        unreachable!();
    };
    key_in_child(settings, &work.leaf, entry)
}

/// The copy of what the row's split has gathered at a place.
fn copy_at(settings: &Settings, row: &ActorRow, place: usize) -> Entry
    requires splitting { IsSplitting settings.now row.now }
    requires place { place < length (gathered_by row.now) }
    ensures { IsRowCopy settings.now row.now place result }
{
    let Some(work) = &row.split else {
        unreachable!();
    };
    let Some(entry) = work.gathered.as_slice().get(place) else {
        unreachable!();
    };
    copy_in_child(settings, &work.leaf, entry)
}

/// How many copies the row's split has made.
fn copied(row: &ActorRow) -> usize
    ensures { result ≡ copied_by row.now }
{
    match &row.split {
        Some(work) => work.copied,
        None => 0,
    }
}

/// Copies the next gathered entry of the row into the page, if the copy's key lies there.
pub fn copy_row(settings: &Settings, node: &mut Page, row: &mut ActorRow, page: u32) -> Put
    requires splitting { IsSplitting settings.now row.old }
    requires more { copied_by row.old < length (gathered_by row.old) }
    requires low { node.old.low ≤ copy_key settings.now row.old (copied_by row.old) }
    requires absent { node.old.level ≡ 0
        → has_entry (copy_key settings.now row.old (copied_by row.old))
        (without_dead row.old.floor.updates node.old.entries) ≡ false }
    requires sibling { HasSibling node.old }
    ensures { CopiesRow settings.now page result node.old row.old node.new row.new }
{
    let place = copied(row);
    let key = key_at(settings, row, place);
    match seek(node, 0, key) {
        Way::Down { page: child } => {
            row.note(page);
            Put::Down { page: child }
        }
        Way::Right { page: next } => {
            row.note(page);
            Put::Right { page: next }
        }
        Way::Here => {
            let entry = copy_at(settings, row, place);
            take_copy(node, row, page, place, entry)
        }
    }
}

/// Puts the copy into the page, if there is room after a trim.
fn take_copy(node: &mut Page, row: &mut ActorRow, page: u32, place: usize, entry: Entry) -> Put
    requires leaf { node.old.level ≡ 0 }
    requires few { place < 200000 }
    requires inside { IsInside node.old.low node.old.high entry.key }
    requires absent { has_entry entry.key
        (without_dead row.old.floor.updates node.old.entries) ≡ false }
    ensures { TakesCopy page place entry result node.old row.old node.new row.new }
{
    node.trim(row.floor.updates);
    if node.len() == CAPACITY {
        row.note(page);
        return Put::PageFull;
    }
    node.insert_spare(entry);
    row.copy_up_to(page, place + 1);
    Put::Done
}

/// Takes the last copy of the row off the page, if the copy's key lies there.
pub fn uncopy_row(
    settings: &Settings,
    node: &mut Page,
    row: &mut ActorRow,
    page: u32,
    told: bool,
) -> Put
    requires splitting { IsSplitting settings.now row.old }
    requires some { 0 < copied_by row.old }
    requires few { copied_by row.old ≤ length (gathered_by row.old) }
    requires low { node.old.low ≤ copy_key settings.now row.old (copied_by row.old - 1) }
    requires there { node.old.level ≡ 0
        → IsInside node.old.low node.old.high
        (copy_key settings.now row.old (copied_by row.old - 1))
        → has_entry (copy_key settings.now row.old (copied_by row.old - 1))
        node.old.entries ≡ true }
    requires sibling { HasSibling node.old }
    ensures { UncopiesRow settings.now page told result node.old row.old node.new row.new }
{
    let left = copied(row) - 1;
    let key = key_at(settings, row, left);
    match seek(node, 0, key) {
        Way::Down { page: child } => {
            row.note(page);
            Put::Down { page: child }
        }
        Way::Right { page: next } => {
            row.note(page);
            Put::Right { page: next }
        }
        Way::Here => {
            node.remove(key);
            row.take_back(page, left, told);
            Put::Done
        }
    }
}
