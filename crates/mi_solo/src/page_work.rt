//! Work on one page in hand.
ghost use Rattle.std.specs.Prelude.{◌≡◌, ◌<◌};
ghost use Rattle.mi_core.specs.Effects.{post_route, trim_leaf};
ghost use Rattle.mi_page.specs.Keys.{IsInside};
ghost use Rattle.mi_page.specs.Nodes.{item_count};
ghost use Rattle.mi_solo.specs.Seeking.{HasSibling, TrimsTo};

use mi_key::Key;
use mi_page::Page;

/// The right sibling of the page, where it has an end.
pub fn sibling(page: &Page) -> Option<u32>
    requires { HasSibling page.now }
    ensures { TrimsTo page.now result }
{
    let Some(_) = page.high() else {
        return None;
    };
    page.right()
}

/// Puts a route into a page of routes, unless it stands there.
pub fn put_route(page: &mut Page, key: Key, child: u32)
    requires inner { 0 < page.old.level }
    requires few { item_count page.old < 32 }
    requires inside { IsInside page.old.low page.old.high key }
    ensures { page.new ≡ post_route key child page.old }
{
    if !page.has_route(key) {
        page.insert_route(key, child);
    }
}

/// Takes the entries off a leaf page that are dead at the floor.
pub fn trim_leaf(page: &mut Page, floor: u32)
    ensures { page.new ≡ trim_leaf floor page.old }
{
    if page.level() == 0 {
        page.trim(floor);
    }
}
