//! A range query as what entries are offered to.
ghost use Rattle.std.specs.Prelude.{◌≡◌};
ghost use Rattle.std.proofs.Common.{refl, ap, ◌∙◌};
ghost use Rattle.mi_range.specs.Ranging.{TakesRange};
ghost use Rattle.mi_range.specs.Taking.{takes_none, takes_more_of};
ghost use Rattle.mi_rules.specs.Answers.{Comparable};
ghost use Rattle.mi_rules.proofs.AnswerLemmas.{comparable_same};

use crate::RangeWork;
use mi_base::{NoMemory, Steps, Vector};
use mi_key::{Entry, Sieve};
use mi_metric::Metric;
use std::sync::ledger::Ledger;

/// A range query's work, with what an entry is compared by.
#[derive(Drop)]
pub struct RangeSieve<'a, M: Metric, L: Ledger> {
    /// What is kept of the entries.
    pub work: &'a mut RangeWork,
    /// How distances are computed.
    pub metric: &'a M,
    /// The query.
    pub query: &'a Vector,
    /// Counts the distances.
    pub steps: &'a mut Steps<L>,
}

impl<M: Metric, L: Ledger> Sieve for RangeSieve<'_, M, L> {
    ghost spare = { λ s. s.work.now.spare };

    ghost takes = { λ s e. Comparable (M.space s.metric.now) s.query.now s.work.now.dists e.vector e.dists.items };

    ghost offered = { λ s xs t. TakesRange (M.space s.metric.now) s.query.now s.work.now s.steps.now xs t.work.now t.steps.now
        × (t.work.ghost_name ≡ s.work.ghost_name) × (t.steps.ghost_name ≡ s.steps.ghost_name) × (t.metric ≡ s.metric) × (t.query ≡ s.query) };

    fn room(&mut self) -> Result<(), NoMemory> {
        self.work.room()
    }

    fn offer(&mut self, entry: &Entry) {
        self.work.take(entry, self.metric, self.query, self.steps);
    }

    ghost none = { λ s. (takes_none (M.space s.metric.now) s.query.now s.work.now s.steps.now, refl, refl, refl, refl) };

    ghost more = { λ s t u xs ys a b. (takes_more_of (ap (λ m. M.space m.now) a.3) (ap (λ q. q.now) a.4) a.0 b.0, b.1 ∙ a.1, b.2 ∙ a.2, b.3 ∙ a.3, b.4 ∙ a.4) };

    ghost takes_on = { λ s t xs e a. comparable_same (ap (λ m. M.space m.now) a.3) (ap (λ q. q.now) a.4) a.0.same_dists };
}
