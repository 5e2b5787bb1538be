//! Coordinates in the fields of a record.
ghost use Rattle.std.specs.Prelude.{◌≡◌, ◌+◌, ◌≤◌, drop, length};
ghost use Rattle.csv.specs.Records.{fields_of};
ghost use Rattle.mi_base.specs.Configuration.{HasItsRows, IsWithinLimits};
ghost use Rattle.mi_input.specs.Vectors.{IsShape, shape_of, shape_under, vector_in};

use crate::faults::Reason;
use crate::fields::field;
use crate::numbers::whole;
use arrayvec::ArrayVec;
use csv::ByteRecord;
use mi_base::{MAX_COORDINATE, MAX_DIMS, MetricKind, Settings, TableRows, Vector};

/// How many coordinates a vector has, and the bounds of each.
#[derive(Clone, Copy)]
pub(crate) struct Shape {
    pub(crate) dims: usize,
    pub(crate) lowest: i64,
    pub(crate) highest: i64,
}

impl Shape {
    /// The shape of the vectors under this metric, for so many coordinates or over these rows.
    pub(crate) fn under(metric: MetricKind, dims: u32, rows: &TableRows) -> Shape
        requires dims { (1 ≤ dims) × (dims ≤ MAX_DIMS) }
        requires rows { HasItsRows metric dims rows.now }
        ensures shape { result ≡ shape_under metric dims rows.now }
        ensures is_shape { IsShape result }
    {
        let most = i64::from(MAX_COORDINATE);
        let (lowest, highest) = match metric {
            MetricKind::Table => (0, rows.len() as i64 - 1),
            MetricKind::L1 | MetricKind::Max | MetricKind::Hamming => (-most, most),
        };
        Shape {
            dims: dims as usize,
            lowest,
            highest,
        }
    }

    /// The shape of the vectors under these settings.
    pub(crate) fn of(settings: &Settings) -> Shape
        ensures shape { result ≡ shape_of settings.now }
        ensures within { IsWithinLimits settings.now }
        ensures is_shape { IsShape result }
    {
        Shape::under(settings.metric, settings.dims, &settings.rows)
    }

    /// The vector in the fields from this place on.
    pub(crate) fn vector(&self, fields: &ByteRecord, from: usize) -> Result<Vector, Reason>
        requires shape { IsShape self.now }
        requires length { length (fields_of fields.now) ≡ self.now.dims + from }
        ensures { result ≡ vector_in self.now (drop from (fields_of fields.now)) }
    {
        let mut items: ArrayVec<i64, MAX_DIMS> = ArrayVec::new();
        for place in from..fields.len() {
            items.push(whole(field(fields, place), self.lowest, self.highest)?);
        }
        match Vector::new(items.as_slice()) {
            Ok(vector) => Ok(vector),
            Err(_) => unreachable!(),
        }
    }
}
