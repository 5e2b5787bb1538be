//! The metric of given settings.
ghost use Rattle.std.specs.Prelude.{◌≡◌, None, IfOk, IfErr, OnOk};
ghost use Rattle.mi_base.specs.Configuration.{metric_space};
ghost use Rattle.mi_table.specs.Any.{any_is_metric, any_space};
ghost use Rattle.mi_table.specs.Faults.{HasNoMetric, first_fault};

use crate::{TableFault, TableMetric};
use mi_base::{MetricKind, Settings, Steps, Vector, copy_rows};
use mi_metric::{Hamming, L1, Max, Metric};
use std::alloc::Global;
use std::sync::ledger::Ledger;

/// One of the metrics.
#[derive(Drop)]
pub enum AnyMetric {
    L1(L1),
    Max(Max),
    Hamming(Hamming),
    Table(TableMetric),
}

impl AnyMetric {
    /// The metric of these settings, else the first fault of their table.
    pub fn of(alloc: Global, settings: &Settings) -> Result<AnyMetric, TableFault>
        ensures space { IfOk result (λ m. any_space m ≡ metric_space settings.now) }
        ensures faultless { OnOk result (first_fault settings.now.rows ≡ None) }
        ensures err { IfErr result (HasNoMetric settings.now) }
    {
        let dims = settings.dims;
        match settings.metric {
            MetricKind::L1 => Ok(AnyMetric::L1(L1::new(dims))),
            MetricKind::Max => Ok(AnyMetric::Max(Max::new(dims))),
            MetricKind::Hamming => Ok(AnyMetric::Hamming(Hamming::new(dims))),
            MetricKind::Table => {
                let Ok(rows) = copy_rows(alloc, &settings.rows) else {
                    return Err(TableFault::Memory);
                };
                Ok(AnyMetric::Table(TableMetric::new(rows)?))
            }
        }
    }
}

impl Metric for AnyMetric {
    ghost space = { any_space };

    fn fits(&self, v: &Vector) -> bool {
        match self {
            AnyMetric::L1(m) => m.fits(v),
            AnyMetric::Max(m) => m.fits(v),
            AnyMetric::Hamming(m) => m.fits(v),
            AnyMetric::Table(m) => m.fits(v),
        }
    }

    fn distance<L: Ledger>(&self, a: &Vector, b: &Vector, steps: &mut Steps<L>) -> u32 {
        match self {
            AnyMetric::L1(m) => m.distance(a, b, steps),
            AnyMetric::Max(m) => m.distance(a, b, steps),
            AnyMetric::Hamming(m) => m.distance(a, b, steps),
            AnyMetric::Table(m) => m.distance(a, b, steps),
        }
    }

    ghost laws = { any_is_metric };
}
