//! The fresh page in an actor's hand, and the routes that it owes.
ghost use Rattle.std.specs.Prelude.{◌≡◌, ◌<◌, ◌≤◌, ◌+◌, ◌++◌, [], ◌∷◌, IsSome, None, Some, is_some, length, vec_capacity};
ghost use Rattle.mi_core.specs.Effects.{paid};
ghost use Rattle.mi_core.specs.Events.{hand};
ghost use Rattle.mi_page.specs.Nodes.{item_count, lower_half, middle_key, root_node, upper_half};
ghost use Rattle.mi_solo.specs.Hands.{TakesPage};

use mi_base::NoMemory;
use mi_board::Board;
use mi_key::Key;
use mi_page::Page;
use mi_tree::AllotRefusal;
use std::alloc::Global;
use std::marker::Model;

/// A route that its actor has yet to post.
#[derive(Drop)]
pub struct OwedRow {
    level: u32,
    key: Key,
    child: u32,
}

impl Model for OwedRow {
    ghost use Rattle.mi_entries.specs.Actors.{Owed};

    ghost Value = { Owed };

    ghost view = { λ o. record { level = o.level; key = o.key; child = o.child } };
}

/// A page that is allotted and linked nowhere, with its number.
#[derive(Drop)]
pub struct FreshPage {
    number: u32,
    page: Page,
}

impl Model for FreshPage {
    ghost use Rattle.std.specs.Prelude.{◌≡◌, ℕ};
    ghost use Rattle.mi_page.specs.Nodes.{fresh_node};

    ghost Value = { ℕ };

    ghost view = { λ f. f.number };

    ghost invariant = { λ f. f.page ≡ fresh_node };
}

/// A fresh page and owed routes. Beside a fresh page there is room for one route more, so a halving takes no memory.
#[derive(Drop)]
pub struct Hand {
    fresh: Option<FreshPage>,
    owed: Vec<OwedRow>,
}

impl Model for Hand {
    ghost use Rattle.std.specs.Prelude.{◌≡◌, ◌<◌, is_some, length, true};
    ghost use Rattle.std.specs.Vec.{vec_capacity};
    ghost use Rattle.mi_solo.specs.InHand.{InHand};

    ghost Value = { InHand };

    ghost view = { λ h. record { fresh = h.fresh; owed = h.owed.items } };

    ghost invariant = { λ h. is_some h.fresh ≡ true → length h.owed.items < vec_capacity h.owed };
}

impl Hand {
    /// Nothing in hand, and nothing owed.
    pub fn empty(alloc: Global) -> Hand
        ensures { result ≡ record { fresh = None; owed = [] } }
    {
        Hand {
            fresh: None,
            owed: Vec::new(alloc),
        }
    }

    /// A fresh page is in hand.
    pub fn has_fresh(&self) -> bool
        ensures { result ≡ is_some self.now.fresh }
    {
        self.fresh.is_some()
    }

    /// The number of the fresh page.
    pub fn fresh_number(&self) -> Option<u32>
        ensures { result ≡ self.now.fresh }
    {
        let fresh = self.fresh.as_ref()?;
        Some(fresh.number)
    }

    /// The route of the page is owed no more.
    pub fn pay(&mut self, child: u32)
        ensures { self.new ≡ record self.old { owed = paid child self.old.owed } }
    {
        drop_route(&mut self.owed, child);
    }

    /// No route is owed any more.
    pub fn forget(&mut self)
        ensures { self.new ≡ record self.old { owed = [] } }
    {
        self.owed.clear();
    }

    /// Makes the fresh page a root of this level, which pays the child's route.
    pub fn raise(&mut self, level: u32, left: u32, key: Key, child: u32) -> Page
        requires fresh { IsSome self.old.fresh }
        requires level { 0 < level }
        requires key { 0 < key }
        ensures root { result ≡ root_node level left key child }
        ensures hand { self.new ≡ record { fresh = None; owed = paid child self.old.owed } }
    {
        let Some(FreshPage { mut page, .. }) = self.fresh.take() else {
            unreachable!();
        };
        page.make_root(level, left, key, child);
        self.pay(child);
        page
    }

    /// Halves a full page: its upper half goes to the fresh one, whose route is owed.
    pub fn halve(&mut self, page: &mut Page) -> Page
        requires fresh { IsSome self.old.fresh }
        requires full { item_count page.old ≡ 32 }
        requires level { page.old.level < 4294967295 }
        ensures lower { page.new ≡ lower_half (hand self.old.fresh) page.old }
        ensures upper { result ≡ upper_half page.old }
        ensures hand { self.new ≡ record { fresh = None; owed = self.old.owed ++ record { level = page.old.level + 1; key = middle_key page.old; child = hand self.old.fresh } ∷ [] } }
    {
        let Some(
            FreshPage {
                number,
                page: mut upper,
            },
        ) = self.fresh.take()
        else {
            unreachable!();
        };
        page.split_into(&mut upper, number);
        self.owed.push_reserved(OwedRow {
            level: page.level() + 1,
            key: upper.low(),
            child: number,
        });
        upper
    }

    /// Takes the board's next page in hand.
    pub fn allot(&mut self, alloc: Global, board: &mut Board) -> Result<(), AllotRefusal>
        ensures { TakesPage board.old self.old result board.new self.new }
    {
        let limit = board.settings().pages;
        if board.allotted() >= limit {
            return Err(AllotRefusal::PagesFull { limit });
        }
        let Ok(page) = Page::fresh(alloc) else {
            return Err(AllotRefusal::Memory);
        };
        let Ok(()) = self.owed.reserve(1) else {
            return Err(AllotRefusal::Memory);
        };
        let number = board.allot()?;
        self.fresh = Some(FreshPage { number, page });
        Ok(())
    }
}

/// All routes but that of the child stay.
fn drop_route(owed: &mut Vec<OwedRow>, child: u32)
    ensures owed { owed.new.items ≡ paid child owed.old.items }
    ensures fewer { length owed.new.items ≤ length owed.old.items }
    ensures room { vec_capacity owed.new ≡ vec_capacity owed.old }
{
    owed.retain(|route| route.child != child);
}
