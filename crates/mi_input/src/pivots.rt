//! The pivots of a settings file.
ghost use Rattle.std.specs.Prelude.{◌≡◌, ◌+◌, ◌<◌, IfOk, OnOk};
ghost use Rattle.csv.specs.Records.{fields_of};
ghost use Rattle.mi_input.specs.Faults.{ReadsAs};
ghost use Rattle.mi_input.specs.Records.{read_record};
ghost use Rattle.mi_input.specs.Settings.{ArePivots, IsMeasure, pivot_in, pivots_in};
ghost use Rattle.mi_input.specs.Vectors.{IsShape, shape_under};

use crate::faults::{InputFault, Reason, in_record};
use crate::records::Records;
use crate::settings::Measure;
use crate::vectors::Shape;
use csv::ByteRecord;
use mi_base::{MAX_PIVOTS, Vector, VectorList};
use std::alloc::Global;

// The pivot after so many in a record that begins with its word.
#[tactic(auto, unfolding(crate::specs::Settings::pivot_in))]
fn pivot_of(shape: &Shape, before: usize, fields: &ByteRecord) -> Result<Vector, Reason>
    requires { IsShape shape.now }
    ensures pivot { result ≡ pivot_in shape.now (before + 1) (fields_of fields.now) }
    ensures few { OnOk result (before < MAX_PIVOTS) }
{
    if before >= MAX_PIVOTS {
        return Err(Reason::Limit);
    }
    if fields.len() != shape.dims + 1 {
        return Err(Reason::Fields);
    }
    shape.vector(fields, 1)
}

// The next record as the pivot after so many.
fn next_pivot(records: &mut Records, shape: &Shape, before: usize) -> Result<Vector, InputFault>
    requires number { records.old.number < 1000 }
    requires shape { IsShape shape.now }
    ensures gives { ReadsAs (λ pivot. (pivot, records.new)) result (read_record (pivot_in shape.now (before + 1)) records.old) }
    ensures few { OnOk result (before < MAX_PIVOTS) }
    ensures number { OnOk result (records.new.number ≡ records.old.number + 1) }
{
    let fields = records.expect()?;
    let pivot = in_record(records.number(), pivot_of(shape, before, fields))?;
    records.advance()?;
    Ok(pivot)
}

// The pivots from here on, vectors of this shape.
fn pivots_of(alloc: Global, records: &mut Records, shape: &Shape) -> Result<VectorList, InputFault>
    requires number { records.old.number < 300 }
    requires shape { IsShape shape.now }
    ensures gives { ReadsAs (λ pivots. (pivots, records.new)) result (pivots_in shape.now records.old) }
    ensures number { OnOk result (records.new.number < 400) }
{
    let mut pivots = VectorList::new(alloc);
    while records.at_word(b"pivot") {
        let pivot = next_pivot(records, shape, pivots.len())?;
        pivots.push(pivot)?;
    }
    Ok(pivots)
}

/// The pivots from here on. There may be none.
pub(crate) fn pivots(
    alloc: Global,
    records: &mut Records,
    measure: &Measure,
) -> Result<VectorList, InputFault>
    requires number { records.old.number < 300 }
    requires measure { IsMeasure measure.now }
    ensures gives { ReadsAs (λ pivots. (pivots, records.new)) result (pivots_in (shape_under measure.now.metric measure.now.dims measure.now.rows) records.old) }
    ensures pivots { IfOk result (ArePivots measure.now) }
    ensures number { OnOk result (records.new.number < 400) }
{
    let shape = Shape::under(measure.metric, measure.dims, &measure.rows);
    pivots_of(alloc, records, &shape)
}
