//! Sections of routes: a root that grows, a route that is posted, a page that is halved.
ghost use Rattle.std.specs.Prelude.{◌≡◌, ◌<◌, IsSome, IsTrue, length};
ghost use Rattle.mi_core.specs.Effects.{post_route, trim_leaf};
ghost use Rattle.mi_core.specs.Kept.{Kept};
ghost use Rattle.mi_core.specs.State.{put_page};
ghost use Rattle.mi_page.specs.Keys.{IsInside};
ghost use Rattle.mi_page.specs.Nodes.{item_count};
ghost use Rattle.mi_solo.specs.OnPages.{OnPage};
ghost use Rattle.mi_solo.specs.PageRows.{PostsRow};
ghost use Rattle.mi_solo.specs.Routes.{GrowsRoot, HalvesPage};
ghost use Rattle.mi_solo.specs.States.{IsGoing, actor_in, is_linked, state_of, view_in};
ghost use Rattle.mi_world.specs.Pages.{IsChildAt, MayPost};

use crate::cores::Core;
use crate::page_rows::{halve_row, post_row};
use mi_key::Key;
use mi_page::Page;
use mi_world::{Parted, Put};

impl Core {
    /// Makes the fresh page the root of this level, with the routes of the old root and of the
    /// child, if that root is of the level below.
    pub fn grow(&mut self, actor: u32, level: u32, key: Key, child: u32) -> bool
        requires going { IsGoing self.old actor }
        requires kept { Kept (state_of self.old) }
        requires route { IsChildAt (view_in (state_of self.old) actor) level key child }
        requires fresh { IsSome (actor_in (state_of self.old) actor).fresh }
        ensures { GrowsRoot (state_of self.old) actor level key child result (state_of self.new) }
    {
        let left = self.board.look().root;
        let me = &mut self.actors[actor as usize];
        let Some(root) = me.hand.fresh_number() else {
            unreachable!();
        };
        if !self.board.grow(level, root) {
            me.see(&self.board);
            return false;
        }
        let page = me.hand.raise(level, left, key, child);
        me.see(&self.board);
        self.link(root, page);
        true
    }

    /// Puts the child's route into the page, if that is of the route's level and has its key.
    pub fn post(&mut self, actor: u32, page: u32, level: u32, key: Key, child: u32) -> Put
        requires going { IsGoing self.old actor }
        requires kept { Kept (state_of self.old) }
        requires route { IsChildAt (view_in (state_of self.old) actor) level key child }
        requires seeks { MayPost (view_in (state_of self.old) actor) page level key }
        ensures { OnPage (state_of self.old) actor page (PostsRow page level key child result) (state_of self.new) }
    {
        let Some(node) = &mut self.pages[page as usize] else {
            unreachable!();
        };
        let me = &mut self.actors[actor as usize];
        post_row(node, me, page, level, key, child)
    }

    /// Halves the page, if it is full: what is left of a leaf page after a trim.
    pub fn split_page(&mut self, actor: u32, page: u32) -> Parted
        requires going { IsGoing self.old actor }
        requires kept { Kept (state_of self.old) }
        requires linked { IsTrue (is_linked (state_of self.old) page) }
        requires fresh { IsSome (actor_in (state_of self.old) actor).fresh }
        ensures { HalvesPage (state_of self.old) actor page result (state_of self.new) }
    {
        let Some(node) = &mut self.pages[page as usize] else {
            unreachable!();
        };
        let me = &mut self.actors[actor as usize];
        let Some(child) = me.hand.fresh_number() else {
            unreachable!();
        };
        let Some(upper) = halve_row(node, me, page) else {
            return Parted::Roomy;
        };
        let key = upper.low();
        self.link(child, upper);
        Parted::Parted { key, child }
    }

    /// Links the page under its number.
    fn link(&mut self, number: u32, page: Page)
        requires { number < length self.old.pages.items }
        ensures { state_of self.new ≡ put_page number page (state_of self.old) }
    {
        self.pages[number as usize] = Some(page);
    }
}
