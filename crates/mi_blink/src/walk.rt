//! Descents, and walks that read an interval page by page.
ghost use Rattle.std.specs.Prelude.{◌≡◌, ◌≤◌};
ghost use Rattle.mi_world.specs.Pages.{TakesAll};
ghost use Rattle.mi_blink.specs.Walking.{Offers, Ready, Walked, so_far, so_far_after};

use mi_key::{Interval, Sieve};
use mi_world::{Visit, World};

/// The page at which a descent from a root stands.
#[derive(Clone, Copy, Debug, PartialEq, Eq)]
pub struct Descent {
    page: u32,
}

impl Descent {
    /// A descent begins at a root.
    pub fn new(root: u32) -> Descent
        ensures { result.page ≡ root }
    {
        Descent { page: root }
    }

    /// Where it stands.
    pub fn page(&self) -> u32
        ensures { result ≡ self.now.page }
    {
        self.page
    }

    /// Goes on at a page that an answer named.
    pub fn go(&mut self, page: u32)
        ensures { self.new ≡ record self.old { page = page } }
    {
        self.page = page;
    }
}

/// What a section of a walk answers.
#[derive(Clone, Copy, Debug, PartialEq, Eq)]
pub enum WalkTurn {
    More,
    Done,
}

/// A walk over the leaf pages that have keys of an interval, from left to right.
#[derive(Clone, Copy, Debug, PartialEq, Eq)]
pub struct Walk {
    descent: Descent,
    range: Interval,
}

impl Walk {
    /// A walk begins at a root.
    pub fn new(root: u32, range: Interval) -> Walk
        ensures page { result.descent.page ≡ root }
        ensures range { result.range ≡ range }
    {
        Walk {
            descent: Descent::new(root),
            range,
        }
    }

    /// Visits the page where the walk stands. It goes on at the page that the answer names, until none is named.
    pub fn step<W: World, S: Sieve>(&mut self, world: &mut W, sieve: &mut S) -> WalkTurn
        requires ready { Ready self.old (W.view world.old) }
        requires spare { 32 ≤ S.spare sieve.old }
        requires takes { TakesAll (W.view world.old) (S.takes sieve.old) }
        ensures walked { Walked self.old (W.view world.old) result self.new (W.view world.new) }
        ensures offered { Offers S.offered sieve.old (so_far self.old (W.view world.old)) sieve.new (so_far_after result self.new (W.view world.new)) }
        ensures section { W.section world.old world.new }
    {
        match world.visit(self.descent.page, &self.range, sieve) {
            Visit::Down { page } => self.go_on(page),
            Visit::Right { page } => self.go_on(page),
            Visit::Read { next: Some(page) } => self.go_on(page),
            Visit::Read { next: None } => WalkTurn::Done,
        }
    }

    fn go_on(&mut self, page: u32) -> WalkTurn
        ensures stands { self.new ≡ record self.old { descent = record { page = page } } }
        ensures turn { result ≡ WalkTurn.More }
    {
        self.descent.go(page);
        WalkTurn::More
    }
}
