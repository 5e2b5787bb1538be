//! What a query for the nearest keeps of the entries that it is offered.
ghost use Rattle.std.specs.Prelude.{◌≡◌, ◌↔◌, ◌+◌, ◌≤◌, [], ◌∷◌, ℕ, IfSome, IsSome, IsTrue, None, OnOk, OnErr, cond, length, take};
ghost use Rattle.arrayvec.specs.ArrayVec.{array_vec_len};
ghost use Rattle.mi_base.specs.History.{row_cmp};
ghost use Rattle.mi_base.specs.Sorting.{put};
ghost use Rattle.mi_base.specs.Prefixes.{all_below};
ghost use Rattle.mi_key.specs.Entries.{offering_of};
ghost use Rattle.mi_key.specs.Keys.{parts_of};
ghost use Rattle.mi_key.specs.Ranges.{is_within};
ghost use Rattle.mi_rules.specs.Spans.{is_near};
ghost use Rattle.mi_rules.specs.Answers.{AreMeasured};
ghost use Rattle.mi_nearest.specs.Nearing.{TakesNearest, may_be_near, stops_at, worst_of};

use mi_base::{Dists, NoMemory, Position, Reply, Row, Rows, Steps, Vector};
use mi_key::{Entry, Interval};
use mi_metric::Metric;
use mi_rules::{filter, near_span};
use mi_tree::Leaf;
use std::alloc::Global;
use std::collections::BinaryHeap;
use std::marker::Model;
use std::sync::ledger::Ledger;

/// A query for the nearest objects as far as it knows no pages: the first rows of what it was offered.
#[derive(Drop)]
pub struct NearestWork {
    dists: Dists,
    count: u32,
    /// The last of the rows is the first to leave.
    rows: BinaryHeap<Row>,
    /// How many rows more there is room for at least. A refused reservation may move the capacity, and never this.
    spare: usize,
}

impl Model for NearestWork {
    ghost use Rattle.std.specs.Prelude.{◌+◌, ◌≤◌, length};
    ghost use Rattle.std.specs.BinaryHeap.{IsHeap, heap_capacity, heap_items, heap_len};
    ghost use Rattle.mi_base.specs.History.{row_cmp};
    ghost use Rattle.mi_base.specs.Sorting.{sorted};
    ghost use Rattle.mi_nearest.specs.Nearing.{NearestWorkState};

    ghost Value = { NearestWorkState };

    ghost view = { λ w. record { dists = w.dists.items; count = w.count; rows = sorted row_cmp (heap_items w.rows); spare = w.spare } };

    ghost invariant = { λ w. IsHeap row_cmp (heap_items w.rows) × (length (heap_items w.rows) ≤ w.count) × (1 ≤ w.count) × (heap_len w.rows + w.spare ≤ heap_capacity w.rows) };
}

impl NearestWork {
    /// A query for so many objects, from 1 to 1,000,000, of these distances to the pivots.
    pub fn new(alloc: Global, count: u32, query: &Dists) -> NearestWork
        requires some { 1 ≤ count }
        requires few { count ≤ 1000000 }
        ensures dists { result.dists ≡ query.now.items }
        ensures count { result.count ≡ count }
        ensures rows { result.rows ≡ [] }
    {
        NearestWork {
            dists: Dists::try_from(query.as_slice()).unwrap(),
            count,
            rows: BinaryHeap::new(alloc),
            spare: 0,
        }
    }

    /// Makes room for 32 rows.
    pub fn room(&mut self) -> Result<(), NoMemory>
        ensures ok { OnOk result (32 ≤ self.new.spare) }
        ensures err { OnErr result (self.new ≡ self.old) }
        ensures same { self.new ≡ record self.old { spare = self.new.spare } }
    {
        self.rows.reserve(32)?;
        self.spare = 32;
        Ok(())
    }

    /// Compares the query with the entry's object, unless the rows are as many as they may be and the filter refuses it at the
    /// greatest distance kept. It takes no memory.
    pub fn take<M: Metric, L: Ledger>(
        &mut self,
        entry: &Entry,
        metric: &M,
        query: &Vector,
        steps: &mut Steps<L>,
    )
        requires spare { 1 ≤ self.old.spare }
        requires query { IsTrue ((M.space metric.now).fits query.now) }
        requires object { IsTrue ((M.space metric.now).fits entry.now.vector) }
        requires measured { AreMeasured (M.space metric.now) query.now self.old.dists entry.now.vector entry.now.dists.items }
        ensures taken { TakesNearest (M.space metric.now) query.now self.old steps.old (offering_of entry.now ∷ []) self.new steps.new }
        ensures steps { steps.new ≡ steps.old + cond (may_be_near (worst_of self.old) self.old.dists entry.now.dists.items) 1 0 }
        ensures spare { self.old.spare ≤ self.new.spare + 1 }
    {
        if !self.may_be_near(&entry.dists) {
            return;
        }
        let distance = metric.distance(query, &entry.vector, steps);
        let id = entry.key.parts().id;
        self.keep(Row { distance, id });
    }

    /// The greatest distance kept, once there are as many rows as the query is for.
    pub fn worst(&self) -> Option<u32>
        ensures value { result ≡ worst_of self.now }
        ensures told { IsSome result ↔ (self.now.count ≤ length self.now.rows) }
    {
        if self.rows.len() < self.count as usize {
            return None;
        }
        match self.rows.peek() {
            Some(row) => Some(row.distance),
            None => unreachable!(),
        }
    }

    /// Whether no leaf of this bound has to be opened: there are as many rows as the query is for, and the last is nearer.
    pub fn stops_at(&self, bound: u32) -> bool
        ensures { result ≡ stops_at (worst_of self.now) bound }
    {
        match self.worst() {
            None => false,
            Some(worst) => worst < bound,
        }
    }

    /// What is read of a leaf: what is near at the last row's distance, or all of its hull while there are too few rows.
    pub(crate) fn span(&self, leaf: &Leaf, levels: u32) -> Option<Interval>
        requires pivots { IsTrue (all_below (length self.now.dists) leaf.now.prefix) }
        requires depth { length leaf.now.prefix ≤ levels }
        requires levels { levels ≤ 6 }
        ensures none { (result ≡ None) ↔ (leaf.now.hull ≡ None) }
        ensures some { IfSome result (λ span. IfSome leaf.now.hull (λ hull. (key : ℕ) → is_within span key ≡ is_near self.now.dists (worst_of self.now) levels leaf.now.prefix hull (parts_of key))) }
    {
        near_span(leaf, &self.dists, self.worst(), levels)
    }

    /// The answer with its rows in their order. It takes no memory.
    pub fn finish(self, at: Position, cells: u32) -> Reply
        ensures { result ≡ Reply.Nearest at self.rows cells }
    {
        let rows = Rows::from_vec(self.rows.into_sorted_vec());
        Reply::Nearest { at, rows, cells }
    }

    /// Whether an object with these distances to the pivots may be among the nearest.
    fn may_be_near(&self, dists: &Dists) -> bool
        requires { length self.now.dists ≡ array_vec_len dists.now }
        ensures { result ≡ may_be_near (worst_of self.now) self.now.dists dists.now.items }
    {
        match self.worst() {
            None => true,
            Some(worst) => filter(&self.dists, dists, worst),
        }
    }

    /// One row more, less the last where there are too many.
    fn keep(&mut self, row: Row)
        requires { 1 ≤ self.old.spare }
        ensures dists { self.new.dists ≡ self.old.dists }
        ensures count { self.new.count ≡ self.old.count }
        ensures rows { self.new.rows ≡ take self.old.count (put row_cmp row self.old.rows) }
        ensures spare { self.old.spare ≤ self.new.spare + 1 }
    {
        match self.rows.push(row) {
            Ok(()) => {}
            Err(_) => unreachable!(),
        }
        self.spare -= 1;
        if self.rows.len() > self.count as usize {
            self.rows.pop();
        }
    }
}
