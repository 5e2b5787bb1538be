//! A core in the turn of one of its actors, for which it is a World.
ghost use Rattle.std.specs.Prelude.{◌≡◌, None, ◌<◌, ◌≤◌, ◌-◌, ◌^◌, IfOk, IsTrue, length};
ghost use Rattle.mi_base.specs.Configuration.{metric_space};
ghost use Rattle.mi_base.specs.Space.{IsMetric};
ghost use Rattle.mi_board.specs.Boards.{cells_in};
ghost use Rattle.mi_core.specs.Counted.{total};
ghost use Rattle.mi_core.specs.Events.{opened};
ghost use Rattle.mi_core.specs.Events.Event.{see};
ghost use Rattle.mi_core.specs.Kept.{Kept};
ghost use Rattle.mi_solo.specs.Sections.{Trims};
ghost use Rattle.mi_world.specs.Pages as pages;
ghost use Rattle.mi_solo.specs.States.{Does, IsGoing, actor_in, state_of};
ghost use Rattle.mi_solo.specs.Solos.{MayTurn, Section, entries_on, view_of};

use crate::cores::Core;
use mi_base::{Dists, Id, LogEvent, NoMemory, Perm, Position, Settings, Vector};
use mi_key::{Interval, Key, Sieve};
use mi_page::Page;
use mi_tree::{AllotRefusal, Catalog, LeafClaim, Look, ReserveRefusal, Work};
use mi_world::{Commit, Parted, Put, ShardClaim, Visit, World};
use std::alloc::Global;
use std::marker::{Brand, Model};
use std::sync::ledger::Blank;

/// The core that all actors share, and the actor whose turn it is. What is gathered is kept in the
/// memory that was given at the opening.
#[derive(Drop)]
pub struct Solo {
    alloc: Global,
    core: Core,
    turn: u32,
}

impl Model for Solo {
    ghost use Rattle.mi_core.specs.Kept.{Kept};
    ghost use Rattle.mi_solo.specs.States.{IsGoing, state_of};
    ghost use Rattle.mi_solo.specs.Solos.{SoloState};

    ghost Value = { SoloState };

    ghost view = { λ s. record { state = state_of s.core; turn = s.turn } };

    ghost invariant = { λ s. Kept (state_of s.core) × IsGoing s.core s.turn };
}

impl Solo {
    /// A core for so many actors, with page 0 alone and an empty log, in the turn of actor 0.
    pub fn open(alloc: Global, settings: &Settings, actors: u32) -> Result<Solo, NoMemory>
        requires some { 1 ≤ actors }
        requires metric { IsMetric (metric_space settings.now) }
        ensures { IfOk result (λ s. s ≡ record { state = opened settings.now actors (settings.now.pages - 1); turn = 0 }) }
    {
        let core = Core::open(alloc, settings, actors)?;
        Ok(Solo {
            alloc,
            core,
            turn: 0,
        })
    }

    /// The core whose parts are these, in the turn of an actor that hasn't ended.
    pub fn of_core(alloc: Global, core: Core, turn: u32) -> Solo
        requires kept { Kept (state_of core) }
        requires going { IsGoing core turn }
        ensures { result ≡ record { state = state_of core; turn = turn } }
    {
        Solo { alloc, core, turn }
    }

    /// It is this actor's turn, which has seen the whole log then.
    pub fn turn_to(&mut self, actor: u32)
        requires { MayTurn self.old.state actor }
        ensures turn { self.new.turn ≡ actor }
        ensures seen { Does self.old.state actor see self.new.state }
    {
        self.core.see(actor);
        self.turn = actor;
    }

    /// The log so far.
    pub fn log(&self) -> &[LogEvent]
        ensures same { result.now ≡ self.now.state.board.log }
        ensures kept { Kept self.now.state }
        ensures turn { MayTurn self.now.state self.now.turn }
    {
        self.core.board.log()
    }

    /// The cells after the log.
    pub fn catalog(&self) -> &Catalog
        ensures { result.now ≡ cells_in self.now.state.board.settings self.now.state.board.log }
    {
        self.core.board.catalog()
    }

    /// How many entries all leaf pages have.
    pub fn entries(&self) -> u64
        ensures { result ≡ total entries_on self.now.state.pages }
    {
        count_entries(&self.core.pages)
    }

    /// How many pages are allotted.
    pub fn allotted(&self) -> u32
        ensures result { result ≡ self.now.state.board.allotted }
        ensures few { self.now.state.board.allotted ≤ self.now.state.board.settings.pages }
    {
        self.core.board.allotted()
    }
}

impl World for Solo {
    ghost use Rattle.mi_solo.specs.Solos.{Section, section_none, view_of};

    ghost view = { view_of };

    ghost section = { Section };

    fn actor(&self) -> u32 {
        self.turn
    }

    fn seen(&self) -> Position {
        self.core.board.look().at
    }

    fn claim_shard(&mut self, id: Id) -> ShardClaim {
        self.core.claim_shard(self.turn, id)
    }

    fn release_shard(&mut self) {
        self.core.release_shard(self.turn);
    }

    fn look(&mut self) -> Look {
        self.core.look(self.turn)
    }

    fn reserve(&mut self) -> Result<Look, ReserveRefusal> {
        self.core.reserve(self.turn)
    }

    fn claim_leaf(&mut self, perm: &Perm) -> LeafClaim {
        // What its numbers are is known of a permutation that is read.
        perm.as_slice();
        self.core.claim_leaf(self.turn, perm)
    }

    fn release_leaf(&mut self) {
        self.core.release_leaf(self.turn);
    }

    fn pin(&mut self, alloc: Global) -> Result<Look, NoMemory> {
        self.core.pin::<Brand>(alloc, self.turn, Blank::new(1))
    }

    fn pinned(&self) -> &Catalog {
        let Some(pin) = &self.core.actors[self.turn as usize].pin else {
            unreachable!();
        };
        &pin.cells
    }

    fn unpin(&mut self) {
        self.core.unpin(self.turn);
    }

    fn visit<S: Sieve>(&mut self, page: u32, range: &Interval, sieve: &mut S) -> Visit {
        self.core.visit(self.turn, page, range, sieve)
    }

    fn commit_insert(
        &mut self,
        page: u32,
        op: u32,
        id: Id,
        vector: &Vector,
        dists: &Dists,
    ) -> Commit {
        // That an identifier is small is known of one that is read.
        id.get();
        self.core
            .commit_insert(self.turn, page, op, id, vector, dists)
    }

    fn commit_delete(&mut self, page: u32, op: u32, id: Id) -> Commit {
        self.core.commit_delete(self.turn, page, op, id)
    }

    fn fresh(&self) -> bool {
        self.core.fresh(self.turn)
    }

    fn lacked(&self) -> bool {
        self.core.lacked(self.turn)
    }

    fn allot(&mut self, alloc: Global) -> Result<(), AllotRefusal> {
        self.core.allot(alloc, self.turn)
    }

    fn split_page(&mut self, page: u32) -> Parted {
        self.core.split_page(self.turn, page)
    }

    fn post(&mut self, page: u32, level: u32, key: Key, child: u32) -> Put {
        self.core.post(self.turn, page, level, key, child)
    }

    fn grow(&mut self, level: u32, key: Key, child: u32) -> bool {
        self.core.grow(self.turn, level, key, child)
    }

    fn gather(&mut self, page: u32) -> Result<Visit, NoMemory> {
        self.core.gather(self.alloc, self.turn, page)
    }

    fn gathered(&self) -> usize {
        self.core.gathered(self.turn)
    }

    fn copied(&self) -> usize {
        self.core.copied(self.turn)
    }

    fn copy_in(&mut self, page: u32) -> Put {
        self.core.copy_in(self.turn, page)
    }

    fn uncopy(&mut self, page: u32) -> Put {
        self.core.uncopy(self.turn, page)
    }

    fn publish(&mut self, alloc: Global) -> Result<Position, NoMemory> {
        self.core.publish(alloc, self.turn)
    }

    fn give_up(&mut self, pages: bool) {
        self.core.give_up(self.turn, pages);
    }

    fn next_work(&mut self) -> Work {
        self.core.next_work(self.turn)
    }

    fn sweep(&mut self, page: u32) -> Visit {
        self.core.sweep(self.turn, page)
    }

    fn trim(&mut self, page: u32) -> Visit
        requires named { IsTrue ((view_of self.old).named page) }
        requires leaf { (view_of self.old).level page ≡ 0 }
        ensures told { pages.Trims (view_of self.old) (view_of self.new) page result }
        ensures section { Section self.old self.new }
        ensures event { Trims self.old.state self.old.turn page result self.new.state }
    {
        self.core.trim(self.turn, page)
    }

    ghost none = { section_none };
}

impl Core {
    /// The actor sees the whole log, and nothing else changes.
    fn see(&mut self, actor: u32)
        requires { IsGoing self.old actor }
        ensures { Does (state_of self.old) actor see (state_of self.new) }
    {
        self.actors[actor as usize].see(&self.board);
    }
}

/// How many entries these pages have.
fn count_entries(pages: &[Option<Page>]) -> u64
    requires { length pages.now < 2 ^ 32 }
    ensures { result ≡ total entries_on pages.now }
{
    let mut count = 0;
    for page in pages {
        if let Some(page) = page {
            count += entries_of(page);
        }
    }
    count
}

/// How many entries the page has. Only a leaf page has any.
fn entries_of(page: &Page) -> u64
    ensures result { result ≡ length page.now.entries }
    ensures few { length page.now.entries ≤ 32 }
{
    let count = page.len() as u64;
    if page.level() == 0 { count } else { 0 }
}
