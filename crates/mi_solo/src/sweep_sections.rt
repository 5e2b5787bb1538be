//! Sections of sweeps.
ghost use Rattle.std.specs.Prelude.{◌≡◌, ◌≤◌, IsSome, IsTrue};
ghost use Rattle.mi_core.specs.Kept.{Kept};
ghost use Rattle.mi_solo.specs.LeafRows.{SweepsRow};
ghost use Rattle.mi_solo.specs.OnPages.{OnPage};
ghost use Rattle.mi_solo.specs.States.{IsGoing, actor_in, is_linked, node_in, state_of, view_in};

use crate::cores::Core;
use crate::leaf_rows::sweep_row;
use mi_world::Visit;

impl Core {
    /// Takes the old entries of the leaf that is swept off the page, if it is the next one that may have some.
    pub fn sweep(&mut self, actor: u32, page: u32) -> Visit
        requires going { IsGoing self.old actor }
        requires kept { Kept (state_of self.old) }
        requires sweeping { IsSome (actor_in (state_of self.old) actor).sweep }
        requires linked { IsTrue (is_linked (state_of self.old) page) }
        requires low { (node_in (state_of self.old) page).low ≤ (view_in (state_of self.old) actor).swept }
        ensures { OnPage (state_of self.old) actor page (SweepsRow self.old.board.settings page result) (state_of self.new) }
    {
        let Some(node) = &mut self.pages[page as usize] else {
            unreachable!();
        };
        let me = &mut self.actors[actor as usize];
        sweep_row(self.board.settings(), node, me, page)
    }
}
