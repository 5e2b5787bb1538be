//! Sections of one page, with the page and its actor's row in hand.
ghost use Rattle.std.specs.Prelude.{◌≡◌, ◌<◌, ◌≤◌, IsSome};
ghost use Rattle.mi_core.specs.Effects.{post_route, trim_leaf};
ghost use Rattle.mi_page.specs.Keys.{IsInside};
ghost use Rattle.mi_page.specs.Nodes.{item_count};
ghost use Rattle.mi_solo.specs.PageRows.{HalvesRow, PostsRow, TrimsRow};
ghost use Rattle.mi_solo.specs.Seeking.{HasSibling, TrimsTo};

use crate::page_work::{put_route, sibling, trim_leaf};
use crate::rows::ActorRow;
use crate::seeking::{Way, seek};
use mi_key::Key;
use mi_page::Page;
use mi_world::{Put, Visit};

/// How many entries or routes a page may have.
pub const CAPACITY: usize = 32;

/// Puts the child's route into the page, if that is of the route's level and has its key.
pub fn post_row(
    node: &mut Page,
    row: &mut ActorRow,
    page: u32,
    level: u32,
    key: Key,
    child: u32,
) -> Put
    requires inner { 0 < level }
    requires above { level ≤ node.old.level }
    requires low { node.old.low ≤ key }
    requires sibling { HasSibling node.old }
    ensures { PostsRow page level key child result node.old row.old node.new row.new }
{
    row.note(page);
    match seek(node, level, key) {
        Way::Down { page: next } => Put::Down { page: next },
        Way::Right { page: next } => Put::Right { page: next },
        Way::Here if node.len() == CAPACITY => Put::PageFull,
        Way::Here => {
            put_route(node, key, child);
            row.hand.pay(child);
            Put::Done
        }
    }
}

/// Takes the entries off a leaf page that are dead at the row's floor.
pub fn trim_row(node: &mut Page, row: &mut ActorRow, page: u32) -> Visit
    requires leaf { node.old.level ≡ 0 }
    requires sibling { HasSibling node.old }
    ensures { TrimsRow page result node.old row.old node.new row.new }
{
    node.trim(row.floor.updates);
    row.note(page);
    Visit::Read {
        next: sibling(node),
    }
}

/// Halves the page, if it is full: what is left of a leaf page after a trim. The upper half is the
/// fresh page.
pub fn halve_row(node: &mut Page, row: &mut ActorRow, page: u32) -> Option<Page>
    requires fresh { IsSome row.old.hand.fresh }
    requires level { node.old.level < 4294967295 }
    ensures { HalvesRow page result node.old row.old node.new row.new }
{
    row.note(page);
    trim_leaf(node, row.floor.updates);
    if node.len() < CAPACITY {
        return None;
    }
    Some(row.hand.halve(node))
}
