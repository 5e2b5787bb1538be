//! Copies of tables and of settings.
ghost use Rattle.std.specs.Prelude.{◌≡◌, IfOk};

use crate::{NoMemory, Settings, TableRow, TableRows, VectorList};
use std::alloc::Global;

/// The same rows again.
pub fn copy_rows(alloc: Global, rows: &TableRows) -> Result<TableRows, NoMemory>
    ensures { IfOk result (λ copy. copy ≡ rows.now) }
{
    let mut copy = TableRows::new(alloc);
    for row in rows.as_slice() {
        copy.push(copy_row(alloc, row)?)?;
    }
    Ok(copy)
}

fn copy_row(alloc: Global, row: &TableRow) -> Result<TableRow, NoMemory>
    ensures { IfOk result (λ copy. copy ≡ row.now) }
{
    let mut copy = TableRow::new(alloc);
    for value in row.as_slice() {
        copy.push(*value)?;
    }
    Ok(copy)
}

fn copy_vectors(alloc: Global, vectors: &VectorList) -> Result<VectorList, NoMemory>
    ensures { IfOk result (λ copy. copy ≡ vectors.now) }
{
    let mut copy = VectorList::new(alloc);
    for vector in vectors.as_slice() {
        copy.push(vector.copy())?;
    }
    Ok(copy)
}

impl Settings {
    /// The same settings again.
    pub fn copy(&self, alloc: Global) -> Result<Settings, NoMemory>
        ensures { IfOk result (λ copy. copy ≡ self.now) }
    {
        Ok(Settings {
            metric: self.metric,
            dims: self.dims,
            rows: copy_rows(alloc, &self.rows)?,
            pivots: copy_vectors(alloc, &self.pivots)?,
            levels: self.levels,
            cell: self.cell,
            updates: self.updates,
            pages: self.pages,
        })
    }
}
