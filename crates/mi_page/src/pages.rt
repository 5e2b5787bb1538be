//! One page.
ghost use Rattle.std.specs.Prelude.{◌≡◌, ◌+◌, ◌<◌, ◌≤◌, ◌++◌, length, take, drop, vec_len, vec_capacity, map, true, false, Some, is_some, IfSome, IsSomeAnd, IfOk, slice_get};
ghost use Rattle.std.specs.List.{AllByRecursion};
ghost use Rattle.mi_base.specs.Sorting.{put};
ghost use Rattle.mi_key.specs.Entries.{offering_of};
ghost use Rattle.mi_page.specs.Entries.{entry_cmp, has_entry, has_living, shown_in, without_interval, without_dead, with_death, without_key};
ghost use Rattle.mi_page.specs.Keys.{IsInside};
ghost use Rattle.mi_page.specs.Routes.{IsChild, has_route, route_cmp};
ghost use Rattle.mi_page.specs.Nodes.{IsNode, fresh_node, item_count, lower_half, middle_key, root_node, upper_half};

use crate::{Route, entries, routes};
use mi_base::{Id, NoMemory};
use mi_key::{Entry, Interval, Key, Sieve};
use std::alloc::Global;
use std::marker::Model;

/// How many entries or routes a page may have.
const CAPACITY: usize = 32;

/// How many stay where a full page is halved.
const HALF: usize = 16;

/// An ordered list of entries or routes, with its range of keys. Its room is taken once, when it is made, so it never grows
/// and moves by a few words.
#[derive(Drop)]
pub struct Page {
    level: u32,
    low: Key,
    high: Option<Key>,
    right: Option<u32>,
    entries: Vec<Entry>,
    routes: Vec<Route>,
}

impl Model for Page {
    ghost use Rattle.mi_page.specs.Nodes.{Node};

    ghost Value = { Node };

    ghost use Rattle.mi_page.specs.Pages.{IsPage, node_of};

    ghost view = { node_of };

    ghost invariant = { IsPage };
}

impl Page {
    /// A leaf page over all keys, with room for 32 entries and for 32 routes.
    pub fn fresh(alloc: Global) -> Result<Page, NoMemory>
        ensures { IfOk result (λ page. page ≡ fresh_node) }
    {
        Ok(Page {
            level: 0,
            low: lowest_key(),
            high: None,
            right: None,
            entries: Vec::with_capacity(alloc, CAPACITY)?,
            routes: Vec::with_capacity(alloc, CAPACITY)?,
        })
    }

    /// 0 for a leaf page.
    pub fn level(&self) -> u32
        ensures { result ≡ self.now.level }
    {
        self.level
    }

    /// The least key of the range.
    pub fn low(&self) -> Key
        ensures { result ≡ self.now.low }
    {
        self.low
    }

    /// The end of the range, which doesn't belong to it, or none where it has no end.
    pub fn high(&self) -> Option<Key>
        ensures { result ≡ self.now.high }
    {
        self.high
    }

    /// The number of the page whose range begins where this one's ends.
    pub fn right(&self) -> Option<u32>
        ensures { result ≡ self.now.right }
    {
        self.right
    }

    /// How many entries or routes it has, at most 32.
    pub fn len(&self) -> usize
        ensures count { result ≡ item_count self.now }
        ensures node { IsNode self.now }
    {
        self.entries.len() + self.routes.len()
    }

    /// The entry at a place in key order.
    pub fn entry(&self, place: usize) -> &Entry
        requires leaf { self.now.level ≡ 0 }
        requires within { place < item_count self.now }
        ensures { slice_get self.now.entries place ≡ Some result.now }
    {
        &self.entries[place]
    }

    /// The key and the page of the route at a place in key order.
    pub fn route(&self, place: usize) -> (Key, u32)
        requires inner { 0 < self.now.level }
        requires within { place < item_count self.now }
        ensures { slice_get self.now.routes place ≡ Some (record { key = result.0; child = result.1 }) }
    {
        let route = &self.routes[place];
        (route.key, route.child)
    }

    /// Where the entry of this key stands, if there is one.
    pub fn find(&self, key: Key) -> Option<usize>
        requires leaf { self.now.level ≡ 0 }
        ensures some { is_some result ≡ has_entry key self.now.entries }
        ensures place { IfSome result (λ place. IsSomeAnd (slice_get self.now.entries place) (λ e. e.key ≡ key)) }
    {
        entries::find(&self.entries, key)
    }

    /// The page of the greatest route key not above the key.
    pub fn child(&self, key: Key) -> u32
        requires inner { 0 < self.now.level }
        requires from_low { self.now.low ≤ key }
        ensures { IsChild key self.now.routes result }
    {
        routes::child(&self.routes, key)
    }

    /// A route has this key.
    pub fn has_route(&self, key: Key) -> bool
        requires inner { 0 < self.now.level }
        ensures { result ≡ has_route key self.now.routes }
    {
        routes::has(&self.routes, key)
    }

    /// Puts an entry into its place.
    pub fn insert_spare(&mut self, entry: Entry)
        requires leaf { self.old.level ≡ 0 }
        requires few { item_count self.old < 32 }
        requires inside { IsInside self.old.low self.old.high entry.key }
        requires absent { has_entry entry.key self.old.entries ≡ false }
        ensures { self.new ≡ record self.old { entries = put entry_cmp entry self.old.entries } }
    {
        entries::insert(&mut self.entries, entry);
    }

    /// Puts a route into its place.
    pub fn insert_route(&mut self, key: Key, child: u32)
        requires inner { 0 < self.old.level }
        requires few { item_count self.old < 32 }
        requires inside { IsInside self.old.low self.old.high key }
        requires absent { has_route key self.old.routes ≡ false }
        ensures { self.new ≡ record self.old { routes = put route_cmp (record { key = key; child = child }) self.old.routes } }
    {
        routes::insert(&mut self.routes, Route { key, child });
    }

    /// Gives the entry of this key its death, the number of an update.
    pub fn mark_death(&mut self, key: Key, number: u32)
        requires leaf { self.old.level ≡ 0 }
        requires living { has_living key self.old.entries ≡ true }
        ensures { self.new ≡ record self.old { entries = map (with_death key number) self.old.entries } }
    {
        entries::mark_death(&mut self.entries, key, number);
    }

    /// Takes the entry of this key out.
    pub fn remove(&mut self, key: Key)
        requires leaf { self.old.level ≡ 0 }
        requires there { has_entry key self.old.entries ≡ true }
        ensures { self.new ≡ record self.old { entries = without_key key self.old.entries } }
    {
        entries::remove(&mut self.entries, key);
    }

    /// Takes out the entries whose death is at most the floor.
    pub fn trim(&mut self, floor: u32)
        requires leaf { self.old.level ≡ 0 }
        ensures { self.new ≡ record self.old { entries = without_dead floor self.old.entries } }
    {
        entries::trim(&mut self.entries, floor);
    }

    /// Takes out the entries of the interval.
    pub fn sweep(&mut self, range: &Interval)
        requires leaf { self.old.level ≡ 0 }
        ensures { self.new ≡ record self.old { entries = without_interval range.now self.old.entries } }
    {
        entries::sweep(&mut self.entries, range);
    }

    /// Offers the entries of the interval that are shown at a position with so many updates, in key order.
    pub fn offer<S: Sieve>(&self, range: &Interval, updates: u32, sieve: &mut S)
        requires leaf { self.now.level ≡ 0 }
        requires spare { 32 ≤ S.spare sieve.old }
        requires takes { AllByRecursion (S.takes sieve.old) (shown_in range.now updates self.now.entries) }
        ensures offered { S.offered sieve.old (map offering_of (shown_in range.now updates self.now.entries)) sieve.new }
        ensures used { S.spare sieve.old ≤ S.spare sieve.new + length (shown_in range.now updates self.now.entries) }
    {
        entries::offer(&self.entries, range, updates, sieve);
    }

    /// Halves a full page: the upper half moves to a fresh page, which becomes the right sibling under its number.
    pub fn split_into(&mut self, fresh: &mut Page, number: u32)
        requires full { item_count self.old ≡ 32 }
        requires fresh { fresh.old ≡ fresh_node }
        ensures lower { self.new ≡ lower_half number self.old }
        ensures upper { fresh.new ≡ upper_half self.old }
    {
        let middle = self.middle();
        fresh.level = self.level;
        fresh.low = middle;
        fresh.high = self.high;
        fresh.right = self.right;
        self.high = Some(middle);
        self.right = Some(number);
        move_upper(&mut self.entries, &mut fresh.entries);
        move_upper(&mut self.routes, &mut fresh.routes);
    }

    /// Makes a fresh page a root with two routes.
    pub fn make_root(&mut self, level: u32, left: u32, key: Key, child: u32)
        requires fresh { self.old ≡ fresh_node }
        requires inner { 0 < level }
        requires key { 0 < key }
        ensures { self.new ≡ root_node level left key child }
    {
        let first = Route {
            key: self.low,
            child: left,
        };
        self.level = level;
        self.routes.push_reserved(first);
        self.routes.push_reserved(Route { key, child });
    }

    /// The key at which the full page is halved.
    fn middle(&self) -> Key
        requires { item_count self.now ≡ 32 }
        ensures { result ≡ middle_key self.now }
    {
        if self.level == 0 {
            self.entries[HALF].key
        } else {
            self.routes[HALF].key
        }
    }
}

/// Moves what follows the lower half of a full list to the end of another list, in order.
fn move_upper<T: Drop>(from: &mut Vec<T>, to: &mut Vec<T>)
    requires { vec_len to.old + vec_len from.old ≤ vec_capacity to.old }
    ensures stay { from.new.items ≡ take 16 from.old.items }
    ensures moved { to.new.items ≡ to.old.items ++ drop 16 from.old.items }
    ensures from_capacity { vec_capacity from.new ≡ vec_capacity from.old }
    ensures to_capacity { vec_capacity to.new ≡ vec_capacity to.old }
{
    let start = HALF.min(from.len());
    for item in from.drain(start..) {
        to.push_reserved(item);
    }
}

/// The key of four zeros.
fn lowest_key() -> Key
    ensures { result ≡ 0 }
{
    let Ok(id) = Id::new(0) else { unreachable!() };
    Key::make(0, 0, id, 0)
}
