//! Sections of pages.
ghost use Rattle.std.specs.Prelude.{◌≡◌, ◌<◌, ◌≤◌, IsSome, IsTrue};
ghost use Rattle.mi_core.specs.Kept.{Kept};
ghost use Rattle.mi_key.specs.declared.entries.Entry.{Entry};
ghost use Rattle.mi_solo.specs.OnPages.{OnPage};
ghost use Rattle.mi_solo.specs.PageRows.{TrimsRow};
ghost use Rattle.mi_solo.specs.Sections.{Visits, updates_pinned};
ghost use Rattle.mi_solo.specs.Seeking.{IsMeasured, offered_of};
ghost use Rattle.mi_solo.specs.States.{IsGoing, actor_in, is_linked, node_in, state_of};

use crate::cores::Core;
use crate::page_rows::trim_row;
use crate::seeking::visit_page;
use mi_key::{Interval, Sieve};
use mi_world::Visit;

impl Core {
    /// Reads the page for the interval, and offers what it shows at the actor's pin.
    pub fn visit<S: Sieve>(
        &mut self,
        actor: u32,
        page: u32,
        range: &Interval,
        sieve: &mut S,
    ) -> Visit
        requires going { IsGoing self.old actor }
        requires kept { Kept (state_of self.old) }
        requires pin { IsSome (actor_in (state_of self.old) actor).pin }
        requires linked { IsTrue (is_linked (state_of self.old) page) }
        requires low { 0 < (node_in (state_of self.old) page).level → (node_in (state_of self.old) page).low ≤ range.now.from }
        requires spare { 32 ≤ S.spare sieve.old }
        requires takes { (e : Entry) → IsMeasured self.old.board.settings e → S.takes sieve.old e }
        ensures told { Visits (state_of self.old) actor page range.now result (state_of self.new) }
        ensures offered { S.offered sieve.old (offered_of (node_in (state_of self.old) page) range.now (updates_pinned (actor_in (state_of self.old) actor).pin) result) sieve.new }
    {
        let Some(node) = &self.pages[page as usize] else {
            unreachable!();
        };
        let Some(pin) = &self.actors[actor as usize].pin else {
            unreachable!();
        };
        let answer = visit_page(node, range, pin.at.updates, sieve);
        self.actors[actor as usize].note(page);
        answer
    }

    /// Takes the entries off the page that are dead at the actor's floor.
    pub fn trim(&mut self, actor: u32, page: u32) -> Visit
        requires going { IsGoing self.old actor }
        requires kept { Kept (state_of self.old) }
        requires linked { IsTrue (is_linked (state_of self.old) page) }
        requires leaf { (node_in (state_of self.old) page).level ≡ 0 }
        ensures { OnPage (state_of self.old) actor page (TrimsRow page result) (state_of self.new) }
    {
        let Some(node) = &mut self.pages[page as usize] else {
            unreachable!();
        };
        let me = &mut self.actors[actor as usize];
        trim_row(node, me, page)
    }
}
