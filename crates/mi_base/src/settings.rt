//! What an index is opened with.

use crate::{TableRows, VectorList};
use std::marker::Model;

/// The metrics by name.
#[derive(Clone, Copy, Debug, PartialEq, Eq)]
pub enum MetricKind {
    L1,
    Max,
    Hamming,
    Table,
}

/// The settings, each within its bounds.
#[derive(Drop)]
pub struct Settings {
    /// The metric by name.
    pub metric: MetricKind,
    /// Coordinates a vector.
    pub dims: u32,
    /// The table's rows, and none under another metric.
    pub rows: TableRows,
    /// The pivots in the order of their numbers.
    pub pivots: VectorList,
    /// The greatest length of a cell's prefix.
    pub levels: u32,
    /// How many live objects a cell holds before a split is wanted.
    pub cell: u32,
    /// How many updates are accepted.
    pub updates: u32,
    /// How many pages may be allotted.
    pub pages: u32,
}

impl Model for Settings {
    ghost use Rattle.mi_base.specs.Configuration.{Configuration, IsWithinLimits};

    ghost Value = { Configuration };

    ghost view = { λ s. record { metric = s.metric; dims = s.dims; rows = s.rows; pivots = s.pivots; levels = s.levels; cell = s.cell; updates = s.updates; pages = s.pages } };

    ghost invariant = { λ s. IsWithinLimits (record { metric = s.metric; dims = s.dims; rows = s.rows; pivots = s.pivots; levels = s.levels; cell = s.cell; updates = s.updates; pages = s.pages }) };
}
