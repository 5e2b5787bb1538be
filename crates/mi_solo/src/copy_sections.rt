//! Copies of what is gathered of a leaf, made and taken back.
ghost use Rattle.std.specs.Prelude.{◌≡◌, ◌<◌, ◌≤◌, IsTrue, length};
ghost use Rattle.mi_core.specs.Kept.{Kept};
ghost use Rattle.mi_solo.specs.LeafRows.{CopiesRow, UncopiesRow};
ghost use Rattle.mi_solo.specs.OnPages.{OnPage};
ghost use Rattle.mi_solo.specs.States.{IsGoing, is_linked, node_in, state_of, view_in};
ghost use Rattle.mi_world.specs.Splits.{IsGathered, last_copy, next_copy};

use crate::cores::Core;
use crate::leaf_rows::{copy_row, uncopy_row};
use mi_world::Put;

impl Core {
    /// Copies the next gathered entry into the page, if the copy's key lies there.
    pub fn copy_in(&mut self, actor: u32, page: u32) -> Put
        requires going { IsGoing self.old actor }
        requires kept { Kept (state_of self.old) }
        requires whole { IsGathered (view_in (state_of self.old) actor) }
        requires more { (view_in (state_of self.old) actor).copied < length (view_in (state_of self.old) actor).copies }
        requires linked { IsTrue (is_linked (state_of self.old) page) }
        requires low { (node_in (state_of self.old) page).low ≤ next_copy (view_in (state_of self.old) actor) }
        ensures { OnPage (state_of self.old) actor page (CopiesRow self.old.board.settings page result) (state_of self.new) }
    {
        let Some(node) = &mut self.pages[page as usize] else {
            unreachable!();
        };
        let me = &mut self.actors[actor as usize];
        copy_row(self.board.settings(), node, me, page)
    }

    /// Takes the last copy off the page, if the copy's key lies there.
    pub fn uncopy(&mut self, actor: u32, page: u32) -> Put
        requires going { IsGoing self.old actor }
        requires kept { Kept (state_of self.old) }
        requires some { 0 < (view_in (state_of self.old) actor).copied }
        requires linked { IsTrue (is_linked (state_of self.old) page) }
        requires low { (node_in (state_of self.old) page).low ≤ last_copy (view_in (state_of self.old) actor) }
        ensures { OnPage (state_of self.old) actor page (UncopiesRow self.old.board.settings page (view_in (state_of self.old) actor).told result) (state_of self.new) }
    {
        let told = self.board.allotted() == self.board.settings().pages;
        let Some(node) = &mut self.pages[page as usize] else {
            unreachable!();
        };
        let me = &mut self.actors[actor as usize];
        uncopy_row(self.board.settings(), node, me, page, told)
    }
}
