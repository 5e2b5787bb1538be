//! Sections of the board.
ghost use Rattle.std.specs.Prelude.{◌≡◌, ◌<◌, None, IsSome, is_some, length};
ghost use Rattle.mi_board.specs.Boards.{look_of};
ghost use Rattle.mi_core.specs.Events.Event.{look, release_leaf, unpin};
ghost use Rattle.mi_core.specs.Kept.{Kept};
ghost use Rattle.mi_solo.specs.BoardRows.{AllotsRow, ClaimsRow, PinsRow};
ghost use Rattle.mi_solo.specs.OnBoards.{OnBoard};
ghost use Rattle.mi_solo.specs.Sections.{Reserves};
ghost use Rattle.mi_solo.specs.States.{Does, IsGoing, actor_in, state_of};

use crate::board_rows::{allot_row, claim_row, pin_row};
use crate::cores::Core;
use mi_base::{NoMemory, Perm};
use mi_tree::{AllotRefusal, LeafClaim, Look, ReserveRefusal};
use std::alloc::Global;
use std::sync::ledger::{Blank, Ledger};

impl Core {
    /// Sees the whole log.
    pub fn look(&mut self, actor: u32) -> Look
        requires { IsGoing self.old actor }
        ensures told { Does (state_of self.old) actor look (state_of self.new) }
        ensures look { result ≡ look_of self.old.board }
    {
        self.actors[actor as usize].look(&self.board);
        self.board.look()
    }

    /// Reserves room for one update.
    pub fn reserve(&mut self, actor: u32) -> Result<Look, ReserveRefusal>
        requires going { IsGoing self.old actor }
        requires kept { Kept (state_of self.old) }
        requires shard { IsSome (actor_in (state_of self.old) actor).shard }
        ensures { Reserves (state_of self.old) actor result (state_of self.new) }
    {
        let floor = self.board.look().floor;
        let me = &mut self.actors[actor as usize];
        let Some(shard) = me.shard else {
            unreachable!();
        };
        match self.shards[shard as usize].reserve(&mut self.board, actor) {
            Ok(look) => {
                me.reserve(&self.board, floor);
                Ok(look)
            }
            Err(refusal) => {
                me.see(&self.board);
                Err(refusal)
            }
        }
    }

    /// Claims the leaf of the permutation, unless another actor does.
    pub fn claim_leaf(&mut self, actor: u32, perm: &Perm) -> LeafClaim
        requires going { IsGoing self.old actor }
        requires kept { Kept (state_of self.old) }
        requires long { length perm.now ≡ length self.old.board.settings.pivots }
        requires free { (actor_in (state_of self.old) actor).claim ≡ None }
        requires idle { (actor_in (state_of self.old) actor).sweep ≡ None }
        ensures { OnBoard (state_of self.old) actor (ClaimsRow actor perm.now result)
            (state_of self.new) }
    {
        let me = &mut self.actors[actor as usize];
        claim_row(actor, perm, &mut self.board, me)
    }

    /// Ends the claim of the leaf.
    pub fn release_leaf(&mut self, actor: u32)
        requires going { IsGoing self.old actor }
        requires kept { Kept (state_of self.old) }
        requires claimed { IsSome (actor_in (state_of self.old) actor).claim }
        requires whole { (actor_in (state_of self.old) actor).split ≡ None }
        ensures { Does (state_of self.old) actor release_leaf (state_of self.new) }
    {
        self.board.release_leaf(actor);
        self.actors[actor as usize].leave_leaf(&self.board);
    }

    /// Pins the whole log.
    pub fn pin<L: Ledger>(
        &mut self,
        alloc: Global,
        actor: u32,
        blank: Blank,
    ) -> Result<Look, NoMemory>
        requires name { blank.name ≡ L.name }
        requires parts { blank.parts ≡ L.parts }
        requires some { 0 < blank.parts }
        requires going { IsGoing self.old actor }
        requires kept { Kept (state_of self.old) }
        requires free { (actor_in (state_of self.old) actor).pin ≡ None }
        ensures { OnBoard (state_of self.old) actor (PinsRow actor result) (state_of self.new) }
    {
        let me = &mut self.actors[actor as usize];
        pin_row::<L>(alloc, actor, &mut self.board, me, blank)
    }

    /// Ends the pin.
    pub fn unpin(&mut self, actor: u32)
        requires going { IsGoing self.old actor }
        requires kept { Kept (state_of self.old) }
        requires pinned { IsSome (actor_in (state_of self.old) actor).pin }
        ensures { Does (state_of self.old) actor unpin (state_of self.new) }
    {
        self.board.unpin(actor);
        self.actors[actor as usize].unpin(&self.board);
    }

    /// A fresh page is in the actor's hand.
    pub fn fresh(&self, actor: u32) -> bool
        requires { actor < length self.now.actors.items }
        ensures { result ≡ is_some (actor_in (state_of self.now) actor).fresh }
    {
        self.actors[actor as usize].hand.has_fresh()
    }

    /// Memory was wanted for a page.
    pub fn lacked(&self, actor: u32) -> bool
        requires { actor < length self.now.actors.items }
        ensures { result ≡ (actor_in (state_of self.now) actor).lacked }
    {
        self.actors[actor as usize].lacked
    }

    /// Takes a fresh page in hand.
    pub fn allot(&mut self, alloc: Global, actor: u32) -> Result<(), AllotRefusal>
        requires going { IsGoing self.old actor }
        requires free { (actor_in (state_of self.old) actor).fresh ≡ None }
        ensures { OnBoard (state_of self.old) actor (AllotsRow result) (state_of self.new) }
    {
        let me = &mut self.actors[actor as usize];
        allot_row(alloc, &mut self.board, me)
    }
}
