//! What a range query keeps of the entries that it is offered.
ghost use Rattle.std.specs.Prelude.{◌≡◌, ◌+◌, ◌≤◌, ◌<◌, ◌^◌, [], ◌∷◌, IsTrue, OnOk, OnErr, length};
ghost use Rattle.arrayvec.specs.ArrayVec.{array_vec_len};
ghost use Rattle.mi_base.specs.History.{row_cmp};
ghost use Rattle.mi_base.specs.Sorting.{sorted};
ghost use Rattle.mi_key.specs.Entries.{offering_of};
ghost use Rattle.mi_rules.specs.Answers.{AreMeasured};
ghost use Rattle.mi_range.specs.Leaves.{AreOfPivots, FindsLeaf};
ghost use Rattle.mi_range.specs.Ranging.{TakesRange};

use crate::leaves::{Opening, next_leaf};
use mi_base::{Dists, NoMemory, Position, Reply, Row, Rows, Steps, Vector, sort_rows};
use mi_key::Entry;
use mi_metric::Metric;
use mi_rules::filter;
use mi_tree::Catalog;
use std::alloc::Global;
use std::marker::Model;
use std::sync::ledger::Ledger;

/// A range query as far as it knows no pages: the rows within the radius, and how many distances were computed.
#[derive(Drop)]
pub struct RangeWork {
    dists: Dists,
    radius: u32,
    rows: Vec<Row>,
    distances: u64,
}

impl Model for RangeWork {
    ghost use Rattle.std.specs.Prelude.{◌-◌, vec_capacity, vec_len};
    ghost use Rattle.mi_range.specs.Ranging.{RangeWorkState};

    ghost Value = { RangeWorkState };

    ghost view = { λ w. record { dists = w.dists.items; radius = w.radius; rows = w.rows.items; distances = w.distances; spare = vec_capacity w.rows - vec_len w.rows } };
}

impl RangeWork {
    /// A query of these distances to the pivots, which were computed. The radius is at most 2^31 - 1.
    pub fn new(alloc: Global, query: &Dists, radius: u32) -> RangeWork
        requires { radius < 2 ^ 31 }
        ensures dists { result.dists ≡ query.now.items }
        ensures radius { result.radius ≡ radius }
        ensures rows { result.rows ≡ [] }
        ensures distances { result.distances ≡ array_vec_len query.now }
    {
        RangeWork {
            dists: Dists::try_from(query.as_slice()).unwrap(),
            radius,
            rows: Vec::new(alloc),
            distances: query.len() as u64,
        }
    }

    /// Makes room for 32 rows.
    pub fn room(&mut self) -> Result<(), NoMemory>
        ensures ok { OnOk result (32 ≤ self.new.spare) }
        ensures err { OnErr result (self.new ≡ self.old) }
        ensures same { self.new ≡ record self.old { spare = self.new.spare } }
    {
        self.rows.reserve(32)?;
        Ok(())
    }

    /// Compares the query with the entry's object where the filter lets it through. It takes no memory.
    pub fn take<M: Metric, L: Ledger>(
        &mut self,
        entry: &Entry,
        metric: &M,
        query: &Vector,
        steps: &mut Steps<L>,
    )
        requires spare { 1 ≤ self.old.spare }
        requires query { IsTrue ((M.space metric.now).fits query.now) }
        requires object { IsTrue ((M.space metric.now).fits entry.now.vector) }
        requires measured { AreMeasured (M.space metric.now) query.now self.old.dists entry.now.vector entry.now.dists.items }
        ensures taken { TakesRange (M.space metric.now) query.now self.old steps.old (offering_of entry.now ∷ []) self.new steps.new }
        ensures spare { self.old.spare ≤ self.new.spare + 1 }
    {
        if !filter(&self.dists, &entry.dists, self.radius) {
            return;
        }
        self.distances = self.distances.saturating_add(1);
        let distance = metric.distance(query, &entry.vector, steps);
        if distance <= self.radius {
            let id = entry.key.parts().id;
            self.rows.push_reserved(Row { distance, id });
        }
    }

    /// The first leaf from a place on that passes.
    pub(crate) fn next_leaf(&self, catalog: &Catalog, from: usize) -> Option<Opening>
        requires levels { catalog.now.levels ≤ 6 }
        requires fit { AreOfPivots (length self.now.dists) catalog.now.levels catalog.now.leaves }
        ensures { FindsLeaf self.now.dists self.now.radius catalog.now.levels catalog.now.leaves from result }
    {
        next_leaf(catalog, from, &self.dists, self.radius)
    }

    /// The answer with its rows in their order. It takes no memory.
    pub fn finish(self, at: Position, cells: u32) -> Reply
        ensures { result ≡ Reply.Range at (sorted row_cmp self.rows) cells self.distances }
    {
        let mut rows = Rows::from_vec(self.rows);
        sort_rows(&mut rows);
        Reply::Range {
            at,
            rows,
            cells,
            distances: self.distances,
        }
    }
}
