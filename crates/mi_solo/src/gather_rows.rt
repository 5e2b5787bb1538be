//! The gather of a page, with the page and its actor's row in hand.
ghost use Rattle.std.specs.Prelude.{◌≡◌, ◌≤◌};
ghost use Rattle.mi_solo.specs.GatherRows.{GathersHere, GathersRow, HasWork, IsClaiming};
ghost use Rattle.mi_solo.specs.GatherRows.{StartsRow, row_work};
ghost use Rattle.mi_solo.specs.Seeking.{HasSibling};

use crate::cell_keys::{cell_keys, end_key, first_key};
use crate::rows::ActorRow;
use crate::seeking::{Way, next_page, seek};
use mi_base::{NoMemory, Settings};
use mi_page::Page;
use mi_world::Visit;
use std::alloc::Global;

/// Gathers what the page in hand has of the leaf that the row claims, if that is the next one that
/// may have some.
pub fn gather_row(
    alloc: Global,
    settings: &Settings,
    node: &Page,
    row: &mut ActorRow,
    page: u32,
) -> Result<Visit, NoMemory>
    requires claiming { IsClaiming settings.now row.old }
    requires low { node.now.low ≤ (row_work settings.now row.old).mark }
    requires sibling { HasSibling node.now }
    ensures { GathersRow settings.now page result node.now row.old row.new }
{
    start_row(alloc, settings, row, page);
    let Some(work) = &row.split else {
        unreachable!();
    };
    match seek(node, 0, work.mark) {
        Way::Down { page: child } => Ok(Visit::Down { page: child }),
        Way::Right { page: next } => Ok(Visit::Right { page: next }),
        Way::Here => match gather_here(settings, node, row) {
            Ok(next) => Ok(Visit::Read { next }),
            Err(refusal) => Err(refusal),
        },
    }
}

/// The row's split is under way: as it was, or of the leaf that it claims with nothing gathered.
fn start_row(alloc: Global, settings: &Settings, row: &mut ActorRow, page: u32)
    requires { IsClaiming settings.now row.old }
    ensures { StartsRow settings.now page row.old row.new }
{
    if row.split.is_some() {
        row.note(page);
        return;
    }
    let Some(leaf) = &row.claim else {
        unreachable!();
    };
    let leaf = leaf.copy();
    let first = first_key(settings, &leaf);
    row.open_split(alloc, page, leaf, first);
}

/// The row's split has gathered the page in hand too, and where it goes on.
fn gather_here(
    settings: &Settings,
    node: &Page,
    row: &mut ActorRow,
) -> Result<Option<u32>, NoMemory>
    requires work { HasWork settings.now row.old }
    requires leaf { node.now.level ≡ 0 }
    requires sibling { HasSibling node.now }
    ensures { GathersHere settings.now node.now row.old result row.new }
{
    let Some(work) = &row.split else {
        unreachable!();
    };
    let keys = cell_keys(settings, &work.leaf);
    let end = end_key(settings, &work.leaf);
    match row.gather(node, &keys, end) {
        Ok(()) => Ok(next_page(node, keys.to)),
        Err(refusal) => Err(refusal),
    }
}
