//! Sections of splits.
ghost use Rattle.std.specs.Prelude.{◌≡◌, ◌<◌, ◌≤◌, None, IsSome, IsTrue, length};
ghost use Rattle.mi_core.specs.Events.Event.{give_up};
ghost use Rattle.mi_core.specs.Kept.{Kept};
ghost use Rattle.mi_solo.specs.States.{Does, IsGoing, actor_in, is_linked, node_in, state_of, view_in};
ghost use Rattle.mi_solo.specs.BoardRows.{PublishesRow, WorksRow};
ghost use Rattle.mi_solo.specs.OnBoards.{OnBoard};
ghost use Rattle.mi_solo.specs.GatherRows.{GathersPage};
ghost use Rattle.mi_solo.specs.OnPages.{OnPage};
ghost use Rattle.mi_world.specs.Splits.{IsGathered, MayGather, copied_in, gather_key, gathered_in};

use crate::board_rows::{publish_row, work_row};
use crate::cores::Core;
use crate::gather_rows::gather_row;
use mi_base::{NoMemory, Position};
use mi_tree::Work;
use mi_world::Visit;
use std::alloc::Global;

impl Core {
    /// Gives the actor a leaf to sweep, else one to split, which it then claims, else nothing.
    pub fn next_work(&mut self, actor: u32) -> Work
        requires going { IsGoing self.old actor }
        requires kept { Kept (state_of self.old) }
        requires free { (actor_in (state_of self.old) actor).claim ≡ None }
        requires idle { (actor_in (state_of self.old) actor).sweep ≡ None }
        ensures { OnBoard (state_of self.old) actor (WorksRow actor result) (state_of self.new) }
    {
        let me = &mut self.actors[actor as usize];
        work_row(actor, &mut self.board, me)
    }

    /// Gathers what the page has of the leaf that the actor claims, if it is the next one that may have some.
    pub fn gather(&mut self, alloc: Global, actor: u32, page: u32) -> Result<Visit, NoMemory>
        requires going { IsGoing self.old actor }
        requires kept { Kept (state_of self.old) }
        requires ready { MayGather (view_in (state_of self.old) actor) }
        requires linked { IsTrue (is_linked (state_of self.old) page) }
        requires low { (node_in (state_of self.old) page).low ≤ gather_key (view_in (state_of self.old) actor) }
        ensures { OnPage (state_of self.old) actor page
            (GathersPage self.old.board.settings page result) (state_of self.new) }
    {
        let Some(node) = &self.pages[page as usize] else {
            unreachable!();
        };
        let me = &mut self.actors[actor as usize];
        gather_row(alloc, self.board.settings(), node, me, page)
    }

    /// How many entries the actor's split has gathered, 0 without one.
    pub fn gathered(&self, actor: u32) -> usize
        requires { actor < length self.now.actors.items }
        ensures { result ≡ gathered_in (view_in (state_of self.now) actor) }
    {
        match &self.actors[actor as usize].split {
            Some(work) => work.gathered.as_slice().len(),
            None => 0,
        }
    }

    /// How many of these it has copied, 0 without a split.
    pub fn copied(&self, actor: u32) -> usize
        requires { actor < length self.now.actors.items }
        ensures { result ≡ copied_in (view_in (state_of self.now) actor) }
    {
        match &self.actors[actor as usize].split {
            Some(work) => work.copied,
            None => 0,
        }
    }

    /// Enters the split of the leaf that the actor claims, all of which is gathered and copied.
    pub fn publish(&mut self, alloc: Global, actor: u32) -> Result<Position, NoMemory>
        requires going { IsGoing self.old actor }
        requires kept { Kept (state_of self.old) }
        requires whole { IsGathered (view_in (state_of self.old) actor) }
        requires copied { (view_in (state_of self.old) actor).copied ≡ length (view_in (state_of self.old) actor).copies }
        ensures { OnBoard (state_of self.old) actor (PublishesRow actor result)
            (state_of self.new) }
    {
        let me = &mut self.actors[actor as usize];
        publish_row(alloc, actor, &mut self.board, me)
    }

    /// Ends the claim of the leaf and its split, of which no copy is left. For want of pages the leaf is passed over.
    pub fn give_up(&mut self, actor: u32, pages: bool)
        requires going { IsGoing self.old actor }
        requires kept { Kept (state_of self.old) }
        requires claimed { IsSome (actor_in (state_of self.old) actor).claim }
        requires uncopied { copied_in (view_in (state_of self.old) actor) ≡ 0 }
        requires told { IsTrue pages → IsTrue (view_in (state_of self.old) actor).told }
        ensures { Does (state_of self.old) actor (give_up pages) (state_of self.new) }
    {
        self.board.give_up(actor, pages);
        self.actors[actor as usize].end_split(&self.board);
    }
}
