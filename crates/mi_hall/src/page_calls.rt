//! A pass's sections of pages.
ghost use Rattle.std.specs.Prelude.{◌≡◌, ◌≤◌, ◌<◌, ◌+◌, IsSome, IsTrue};
ghost use Rattle.atomic_table.specs.Table.{rest};
ghost use Rattle.mi_latch.specs.Shows.{Returns};
ghost use Rattle.mi_latch.specs.Views.{Doing, HoldsLast, now};
ghost use Rattle.mi_core.specs.Effects.{post_route, trim_leaf};
ghost use Rattle.mi_page.specs.Keys.{IsInside};
ghost use Rattle.mi_page.specs.Nodes.{Node, item_count};
ghost use Rattle.mi_solo.specs.Seeking.{HasSibling, TrimsTo};
ghost use Rattle.mi_world.specs.Pages.{IsChildAt, IsInLeaf, MayPost, MayVisit, PartsPage, Posts, TakesAll, Trims, Visits, offered_by};
ghost use Rattle.mi_hall.specs.Passes.{halving_turn, turning};
ghost use Rattle.mi_hall.specs.Seats.{seat_view};

use crate::passes::Pass;
use mi_key::{Interval, Key, Sieve};
use mi_latch::{Aim, LatchTable, Seat, Slot};
use mi_page::Page;
use mi_solo::page_rows::{halve_row, post_row, trim_row};
use mi_solo::rows::ActorRow;
use mi_solo::seeking::visit_page;
use mi_world::{Parted, Put, Visit};
use std::marker::Brand;
use std::sync::Wait;

impl Pass {
    /// Reads the page for the interval, once it is free, and offers what it shows at the pin.
    pub(crate) fn visit<S: Sieve, R: Wait>(
        &mut self,
        rt: &R,
        latches: &LatchTable,
        page: u32,
        range: &Interval,
        sieve: &mut S,
    ) -> Visit
        requires table { self.old.table ≡ latches.now.table.shared.table_id }
        requires pin { IsSome (seat_view self.old.sight).pin }
        requires named { IsTrue ((seat_view self.old.sight).named page) }
        requires low { MayVisit (seat_view self.old.sight) page range.now }
        requires inside { IsInLeaf (seat_view self.old.sight) range.now }
        requires spare { 32 ≤ S.spare sieve.old }
        requires takes { TakesAll (seat_view self.old.sight) (S.takes sieve.old) }
        ensures table { self.new.table ≡ self.old.table }
        ensures told { Visits (seat_view self.old.sight) (seat_view self.new.sight) page range.now
            result }
        ensures offered { S.offered sieve.old (offered_by (seat_view self.old.sight)
            (seat_view self.new.sight) page range.now result) sieve.new }
    {
        let node = latches.take_page(rt, &mut self.seat, page, self.actor);
        let Some(pin) = &self.row.pin else {
            unreachable!();
        };
        let answer = visit_page(&node, range, pin.at.updates, sieve);
        self.row.note(page);
        give_page::<Brand>(latches, &mut self.seat, &self.row, page, node);
        answer
    }

    /// Puts the child's route into the page, once that is free, if it is of the route's level and
    /// has its key.
    pub(crate) fn post<R: Wait>(
        &mut self,
        rt: &R,
        latches: &LatchTable,
        page: u32,
        level: u32,
        key: Key,
        child: u32,
    ) -> Put
        requires table { self.old.table ≡ latches.now.table.shared.table_id }
        requires route { IsChildAt (seat_view self.old.sight) level key child }
        requires seeks { MayPost (seat_view self.old.sight) page level key }
        ensures table { self.new.table ≡ self.old.table }
        ensures told { Posts (seat_view self.old.sight) (seat_view self.new.sight) page level key
            child result }
    {
        let mut node = latches.take_page(rt, &mut self.seat, page, self.actor);
        let answer = post_row(&mut node, &mut self.row, page, level, key, child);
        give_page::<Brand>(latches, &mut self.seat, &self.row, page, node);
        answer
    }

    /// Takes the entries off the page, once it is free, that are dead at the floor.
    pub(crate) fn trim<R: Wait>(&mut self, rt: &R, latches: &LatchTable, page: u32) -> Visit
        requires table { self.old.table ≡ latches.now.table.shared.table_id }
        requires named { IsTrue ((seat_view self.old.sight).named page) }
        requires leaf { (seat_view self.old.sight).level page ≡ 0 }
        ensures table { self.new.table ≡ self.old.table }
        ensures told { Trims (seat_view self.old.sight) (seat_view self.new.sight) page result }
    {
        let mut node = latches.take_page(rt, &mut self.seat, page, self.actor);
        let answer = trim_row(&mut node, &mut self.row, page);
        give_page::<Brand>(latches, &mut self.seat, &self.row, page, node);
        answer
    }

    /// Halves the page, once it is free, if it is full: what is left of a leaf page after a trim.
    pub(crate) fn split_page<R: Wait>(&mut self, rt: &R, latches: &LatchTable, page: u32) -> Parted
        requires table { self.old.table ≡ latches.now.table.shared.table_id }
        requires named { IsTrue ((seat_view self.old.sight).named page) }
        requires fresh { IsSome (seat_view self.old.sight).fresh }
        ensures table { self.new.table ≡ self.old.table }
        ensures told { PartsPage (seat_view self.old.sight) (seat_view self.new.sight) page result }
    {
        let Some(child) = self.row.hand.fresh_number() else {
            unreachable!();
        };
        let vacant = latches.take_fresh(rt, &mut self.seat, child, self.actor);
        let mut node = latches.take_page(rt, &mut self.seat, page, self.actor);
        let Some(upper) = halve_row(&mut node, &mut self.row, page) else {
            give_page::<Brand>(latches, &mut self.seat, &self.row, page, node);
            give_vacant::<Brand>(latches, &mut self.seat, child, vacant);
            return Parted::Roomy;
        };
        let key = upper.low();
        give_lower::<Brand>(latches, &mut self.seat, &self.row, page, node, child);
        latches.give_page_back(&mut self.seat, child, upper);
        Parted::Parted { key, child }
    }
}

/// Puts a page back, which is the event that leads to this row.
pub(crate) fn give_page<E: Aim>(
    latches: &LatchTable,
    seat: &mut Seat,
    row: &ActorRow,
    page: u32,
    node: Page,
)
    requires aim { E.next ≡ turning seat.old.me.0 row.now node }
    requires table { (seat.old.table_id ≡ latches.now.table.shared.table_id)
        × (page < latches.now.table.shared.key.pages) }
    requires last { (was : Node) × HoldsLast seat.old.me (page + 17) (Slot.OfPage was) }
    requires does { Doing latches.now.table.shared.key seat.old.me.0
        (turning seat.old.me.0 row.now node) (page + 17) (Slot.OfPage node) }
    ensures table { (seat.new.table_id ≡ seat.old.table_id) × (seat.new.id ≡ seat.old.id) }
    ensures gave { seat.new.me ≡ (turning seat.old.me.0 row.now node, rest seat.old.me.1) }
{
    let _row = row;
    latches.give::<E>(seat, page as usize + 17, Slot::OfPage(node));
}

/// Puts the lower half of a page back, which is the event that leads to this row; the upper half
/// lies in the slot of the fresh page then.
fn give_lower<E: Aim>(
    latches: &LatchTable,
    seat: &mut Seat,
    row: &ActorRow,
    page: u32,
    node: Page,
    child: u32,
)
    requires aim { E.next ≡ halving_turn seat.old.me.0 row.now child node }
    requires table { (seat.old.table_id ≡ latches.now.table.shared.table_id)
        × (page < latches.now.table.shared.key.pages) }
    requires last { (was : Node) × HoldsLast seat.old.me (page + 17) (Slot.OfPage was) }
    requires returns { Returns seat.old.me.0 (halving_turn seat.old.me.0 row.now child node)
        (page + 17) }
    requires does { Doing latches.now.table.shared.key seat.old.me.0
        (halving_turn seat.old.me.0 row.now child node) (page + 17) (Slot.OfPage node) }
    ensures table { (seat.new.table_id ≡ seat.old.table_id) × (seat.new.id ≡ seat.old.id) }
    ensures gave { seat.new.me ≡ (halving_turn seat.old.me.0 row.now child node, rest seat.old.me.1) }
{
    let _row = row;
    let _child = child;
    latches.give::<E>(seat, page as usize + 17, Slot::OfPage(node));
}

/// Puts the slot of a page back as it was taken: no event.
pub(crate) fn give_vacant<E: Aim>(latches: &LatchTable, seat: &mut Seat, page: u32, value: Slot)
    requires aim { E.next ≡ now seat.old.me.0 seat.old.me.0.mine (rest seat.old.me.0.out) }
    requires table { (seat.old.table_id ≡ latches.now.table.shared.table_id)
        × (page < latches.now.table.shared.key.pages) }
    requires last { HoldsLast seat.old.me (page + 17) value }
    ensures table { (seat.new.table_id ≡ seat.old.table_id) × (seat.new.id ≡ seat.old.id) }
    ensures gave { seat.new.me ≡ (now seat.old.me.0 seat.old.me.0.mine (rest seat.old.me.0.out), rest seat.old.me.1) }
{
    latches.give::<E>(seat, page as usize + 17, value);
}
