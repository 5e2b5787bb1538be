//! A place as a World: each call works on the place's pass with the table of its hall.
use crate::passes::Pass;
use crate::places::Place;
use mi_base::{Dists, Id, NoMemory, Perm, Position, Vector};
use mi_key::{Interval, Key, Sieve};
use mi_tree::{AllotRefusal, Catalog, LeafClaim, Look, ReserveRefusal, Work};
use mi_world::{Commit, Forks, Parted, Put, ShardClaim, Visit, World};
use std::alloc::Global;
use std::sync::Wait;

impl<'h, R: Wait> World for Place<'h, R> {
    ghost use Rattle.mi_hall.specs.Passes.{Stays, place_view, stays_none};

    ghost view = { place_view };

    ghost section = { Stays };

    fn actor(&self) -> u32 {
        self.pass.number()
    }

    fn seen(&self) -> Position {
        self.pass.seen()
    }

    fn claim_shard(&mut self, id: Id) -> ShardClaim {
        let hall = self.hall;
        self.pass.claim_shard(&hall.latches, id)
    }

    fn release_shard(&mut self) {
        let hall = self.hall;
        self.pass.release_shard(&hall.latches);
    }

    fn look(&mut self) -> Look {
        let hall = self.hall;
        self.pass.look(self.rt, &hall.latches)
    }

    fn reserve(&mut self) -> Result<Look, ReserveRefusal> {
        let hall = self.hall;
        self.pass.reserve(self.rt, &hall.latches)
    }

    fn claim_leaf(&mut self, perm: &Perm) -> LeafClaim {
        let hall = self.hall;
        self.pass.claim_leaf(self.rt, &hall.latches, perm)
    }

    fn release_leaf(&mut self) {
        let hall = self.hall;
        self.pass.release_leaf(self.rt, &hall.latches);
    }

    fn pin(&mut self, alloc: Global) -> Result<Look, NoMemory> {
        let hall = self.hall;
        self.pass.pin(self.rt, &hall.latches, alloc)
    }

    fn pinned(&self) -> &Catalog {
        self.pass.pinned()
    }

    fn unpin(&mut self) {
        let hall = self.hall;
        self.pass.unpin(self.rt, &hall.latches);
    }

    fn visit<S: Sieve>(&mut self, page: u32, range: &Interval, sieve: &mut S) -> Visit {
        let hall = self.hall;
        self.pass.visit(self.rt, &hall.latches, page, range, sieve)
    }

    fn commit_insert(
        &mut self,
        page: u32,
        op: u32,
        id: Id,
        vector: &Vector,
        dists: &Dists,
    ) -> Commit {
        let hall = self.hall;
        self.pass
            .commit_insert(self.rt, &hall.latches, page, op, id, vector, dists)
    }

    fn commit_delete(&mut self, page: u32, op: u32, id: Id) -> Commit {
        let hall = self.hall;
        self.pass
            .commit_delete(self.rt, &hall.latches, page, op, id)
    }

    fn fresh(&self) -> bool {
        self.pass.fresh()
    }

    fn lacked(&self) -> bool {
        self.pass.lacked()
    }

    fn allot(&mut self, alloc: Global) -> Result<(), AllotRefusal> {
        let hall = self.hall;
        self.pass.allot(self.rt, &hall.latches, alloc)
    }

    fn split_page(&mut self, page: u32) -> Parted {
        let hall = self.hall;
        self.pass.split_page(self.rt, &hall.latches, page)
    }

    fn post(&mut self, page: u32, level: u32, key: Key, child: u32) -> Put {
        let hall = self.hall;
        self.pass
            .post(self.rt, &hall.latches, page, level, key, child)
    }

    fn grow(&mut self, level: u32, key: Key, child: u32) -> bool {
        let hall = self.hall;
        self.pass.grow(self.rt, &hall.latches, level, key, child)
    }

    fn gather(&mut self, page: u32) -> Result<Visit, NoMemory> {
        let hall = self.hall;
        self.pass.gather(self.rt, &hall.latches, page)
    }

    fn gathered(&self) -> usize {
        self.pass.gathered()
    }

    fn copied(&self) -> usize {
        self.pass.copied()
    }

    fn copy_in(&mut self, page: u32) -> Put {
        let hall = self.hall;
        self.pass.copy_in(self.rt, &hall.latches, page)
    }

    fn uncopy(&mut self, page: u32) -> Put {
        let hall = self.hall;
        self.pass.uncopy(self.rt, &hall.latches, page)
    }

    fn publish(&mut self, alloc: Global) -> Result<Position, NoMemory> {
        let hall = self.hall;
        self.pass.publish(self.rt, &hall.latches, alloc)
    }

    fn give_up(&mut self, pages: bool) {
        let hall = self.hall;
        self.pass.give_up(self.rt, &hall.latches, pages);
    }

    fn next_work(&mut self) -> Work {
        let hall = self.hall;
        self.pass.next_work(self.rt, &hall.latches)
    }

    fn sweep(&mut self, page: u32) -> Visit {
        let hall = self.hall;
        self.pass.sweep(self.rt, &hall.latches, page)
    }

    fn trim(&mut self, page: u32) -> Visit {
        let hall = self.hall;
        self.pass.trim(self.rt, &hall.latches, page)
    }

    ghost none = { stays_none };
}

impl<'h, R: Wait> Forks for Place<'h, R> {
    ghost use Rattle.mi_hall.specs.Passes.{IsKin, kin_back, kin_on, stays_kin};

    ghost kin = { IsKin };

    fn fork(&mut self, alloc: Global) -> Result<Place<'h, R>, NoMemory> {
        let hall = self.hall;
        let rt = self.rt;
        let pass = self.pass.fork(alloc, rt, &hall.latches)?;
        Ok(hall.place(rt, pass))
    }

    fn absorb(&mut self, other: Place<'h, R>) {
        let hall = self.hall;
        let rt = self.rt;
        self.pass.absorb(rt, &hall.latches, other.into_pass());
    }

    ghost stays = { stays_kin };

    ghost back = { kin_back };

    ghost on = { kin_on };
}
