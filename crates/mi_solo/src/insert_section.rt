//! The commit of an insert.
ghost use Rattle.std.specs.Prelude.{◌≡◌};
ghost use Rattle.mi_core.specs.Kept.{Kept};
ghost use Rattle.mi_solo.specs.Inserting.{CommitsInsert};
ghost use Rattle.mi_solo.specs.States.{IsGoing, state_of, view_in};
ghost use Rattle.mi_world.specs.Pages.{MayInsert, MaySeek};

use crate::cores::Core;
use crate::insert_rows::{insert_row, key_of_row};
use mi_base::{Dists, Id, Vector};
use mi_world::Commit;

impl Core {
    /// Enters the insert into the log and its entry into the page.
    pub fn commit_insert(
        &mut self,
        actor: u32,
        page: u32,
        op: u32,
        id: Id,
        vector: &Vector,
        dists: &Dists,
    ) -> Commit
        requires going { IsGoing self.old actor }
        requires kept { Kept (state_of self.old) }
        requires ready { MayInsert (view_in (state_of self.old) actor) id vector.now dists.now.items }
        requires seeks { MaySeek (view_in (state_of self.old) actor) page dists.now.items id }
        ensures { CommitsInsert (state_of self.old) actor page op id vector.now dists.now.items result (state_of self.new) }
    {
        let Some(node) = &mut self.pages[page as usize] else {
            unreachable!();
        };
        let me = &mut self.actors[actor as usize];
        if node.level() > 0 {
            let key = key_of_row(self.board.settings(), me, dists, id, 0);
            me.note(page);
            return Commit::Down {
                page: node.child(key),
            };
        }
        let shard = &mut self.shards[(id.get() % 16) as usize];
        let board = &mut self.board;
        insert_row(
            actor,
            page,
            op,
            id,
            vector,
            dists,
            board,
            node,
            &mut shard.rows,
            me,
        )
    }
}
