//! The commit of a delete.
ghost use Rattle.std.specs.Prelude.{◌≡◌, ◌≤◌, IsTrue, Some};
ghost use Rattle.mi_core.specs.Kept.{Kept};
ghost use Rattle.mi_solo.specs.Deleting.{CommitsDelete, EntersDelete};
ghost use Rattle.mi_solo.specs.Seeking.{EndsAfter};
ghost use Rattle.mi_solo.specs.States.{IsGoing, is_linked, node_in, state_of, view_in};
ghost use Rattle.mi_world.specs.Pages.{MayDelete, delete_key};

use crate::cores::Core;
use crate::seeking::{Way, seek};
use mi_base::Id;
use mi_key::Key;
use mi_perm::permutation;
use mi_world::{Commit, Record};

impl Core {
    /// Enters the delete into the log and its number into the entry.
    pub fn commit_delete(&mut self, actor: u32, page: u32, op: u32, id: Id) -> Commit
        requires going { IsGoing self.old actor }
        requires kept { Kept (state_of self.old) }
        requires ready { MayDelete (view_in (state_of self.old) actor) id }
        requires linked { IsTrue (is_linked (state_of self.old) page) }
        requires low { (node_in (state_of self.old) page).low ≤ delete_key (view_in (state_of self.old) actor) id }
        ensures { CommitsDelete (state_of self.old) actor page op id result (state_of self.new) }
    {
        let shard = (id.get() % 16) as usize;
        let Some(kept) = self.shards[shard].record(id) else {
            unreachable!();
        };
        let key = self.key_in_claim(actor, &kept.dists, id, kept.birth);
        let Some(node) = &self.pages[page as usize] else {
            unreachable!();
        };
        match seek(node, 0, key) {
            Way::Down { page: child } => {
                self.actors[actor as usize].note(page);
                Commit::Down { page: child }
            }
            Way::Right { page: next } => {
                self.actors[actor as usize].note(page);
                Commit::Right { page: next }
            }
            Way::Here => self.enter_delete(actor, page, op, id, &kept, key),
        }
    }

    /// The same where the key lies in the page, whose entry it is then that dies, if the log has room.
    fn enter_delete(
        &mut self,
        actor: u32,
        page: u32,
        op: u32,
        id: Id,
        kept: &Record,
        key: Key,
    ) -> Commit
        requires going { IsGoing self.old actor }
        requires kept { Kept (state_of self.old) }
        requires ready { MayDelete (view_in (state_of self.old) actor) id }
        requires recorded { (view_in (state_of self.old) actor).records id ≡ Some kept.now }
        requires linked { IsTrue (is_linked (state_of self.old) page) }
        requires key { key ≡ delete_key (view_in (state_of self.old) actor) id }
        requires low { (node_in (state_of self.old) page).low ≤ key }
        requires ends { EndsAfter (node_in (state_of self.old) page) 0 key }
        ensures { EntersDelete (state_of self.old) actor page op id result (state_of self.new) }
    {
        let shard = (id.get() % 16) as usize;
        let limit = self.board.settings().updates;
        let next = self.board.look().at.updates + 1;
        let me = &mut self.actors[actor as usize];
        if next > limit {
            me.meet(&self.board, page);
            return Commit::Full { limit };
        }
        let perm = permutation(&kept.dists);
        let Ok(number) = self.board.commit_delete(actor, op, id, &perm) else {
            unreachable!();
        };
        let Some(node) = &mut self.pages[page as usize] else {
            unreachable!();
        };
        node.mark_death(key, number);
        self.shards[shard].remove(id);
        me.commit(&self.board, page);
        Commit::Done { number }
    }
}
