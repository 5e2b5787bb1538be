//! The metric of a table.
ghost use Rattle.std.specs.Prelude.{◌≡◌, ◌≢◌, ◌<◌, ◌∷◌, [], None, Some, pos, length, IfOk, IfErr, IsTrue, is_none};
ghost use Rattle.std.proofs.Props.{props};
ghost use Rattle.mi_base.specs.Configuration.{IsTable};
ghost use Rattle.mi_base.specs.Space.{IsMetric, is_row, table_metric};
ghost use Rattle.mi_table.specs.Faults.{first_fault};

use crate::TableFault;
use crate::checks::{check, entry};
use mi_base::{Steps, TableRows, Vector};
use mi_metric::Metric;
use std::sync::ledger::Ledger;

/// The metric of a table without a fault: the one coordinate of a vector is the number of its row.
#[derive(Drop)]
pub struct TableMetric {
    pub rows: TableRows,
    ghost table: { IsTable rows } by { Prim.hlevel props },
    ghost faultless: { IsTrue (is_none (first_fault rows)) },
}

impl TableMetric {
    /// The metric of these rows, else their first fault. It takes no memory.
    pub fn new(rows: TableRows) -> Result<TableMetric, TableFault>
        requires { IsTable rows }
        ensures ok { IfOk result (λ m. (m.rows ≡ rows) × (first_fault rows ≡ None)) }
        ensures metric { IfOk result (λ m. IsMetric (table_metric rows)) }
        ensures err { IfErr result (λ fault. first_fault rows ≡ Some fault) }
        ensures no_memory { IfErr result (λ fault. fault ≢ TableFault.Memory) }
    {
        check(&rows)?;
        Ok(TableMetric { rows })
    }
}

impl Metric for TableMetric {
    ghost use Rattle.mi_table.specs.Laws.{table_is_metric};

    ghost space = { λ m. table_metric m.rows };

    fn fits(&self, v: &Vector) -> bool {
        match v.as_slice() {
            [row] => *row >= 0 && (*row as usize) < self.rows.len(),
            _ => false,
        }
    }

    fn distance<L: Ledger>(&self, a: &Vector, b: &Vector, steps: &mut Steps<L>) -> u32 {
        steps.tick();
        entry(
            &self.rows,
            row_number(&self.rows, a),
            row_number(&self.rows, b),
        )
    }

    ghost laws = { λ m. table_is_metric m.rows m.table m.faultless };
}

/// The number of the row that the vector names.
fn row_number(rows: &TableRows, v: &Vector) -> u32
    requires { IsTrue (is_row (length rows.now) v.now) }
    ensures named { v.now ≡ pos result ∷ [] }
    ensures below { result < length rows.now }
{
    v.at(0) as u32
}
