//! Settings.
ghost use Rattle.std.specs.Prelude.{◌≡◌, ◌+◌, ◌<◌, ◌≤◌, Ok, IfOk, IfErr, OnOk};
ghost use Rattle.csv.specs.Records.{fields_of};
ghost use Rattle.mi_base.specs.Configuration.{IsDepth};
ghost use Rattle.mi_input.specs.Faults.{ReadsAs, IsFaultOf};
ghost use Rattle.mi_input.specs.Records.{read_record};
ghost use Rattle.mi_input.specs.Settings.{AreItsRows, AreSizes, IsMeasure, kind_in, levels_in, measure_in, metric_in, most_dims, rows_in, setting_in, settings_in, sizes_in};

use crate::faults::{InputFault, Reason, in_record};
use crate::fields::{begins, field};
use crate::numbers::count;
use crate::pivots::pivots;
use crate::records::Records;
use crate::tables::table;
use csv::ByteRecord;
use mi_base::{
    MAX_CELL, MAX_DIMS, MAX_LEVELS, MAX_PAGES, MAX_UPDATES, MetricKind, Settings, TableRows,
};
use std::alloc::Global;

/// How distances are measured.
#[derive(Drop)]
pub(crate) struct Measure {
    pub(crate) metric: MetricKind,
    pub(crate) dims: u32,
    pub(crate) rows: TableRows,
}

// How large things may get.
#[derive(Clone, Copy)]
struct Sizes {
    levels: u32,
    cell: u32,
    updates: u32,
    pages: u32,
}

fn kind_of(name: &[u8]) -> Result<MetricKind, Reason>
    ensures { result ≡ kind_in name.now }
{
    if name == b"l1".as_slice() {
        Ok(MetricKind::L1)
    } else if name == b"max".as_slice() {
        Ok(MetricKind::Max)
    } else if name == b"hamming".as_slice() {
        Ok(MetricKind::Hamming)
    } else if name == b"table".as_slice() {
        Ok(MetricKind::Table)
    } else {
        Err(Reason::Word)
    }
}

#[tactic(auto, unfolding(crate::specs::Settings::metric_in))]
fn metric_of(fields: &ByteRecord) -> Result<MetricKind, Reason>
    ensures { result ≡ metric_in (fields_of fields.now) }
{
    if !begins(fields, b"metric") {
        return Err(Reason::Word);
    }
    if fields.len() == 1 {
        return Err(Reason::Fields);
    }
    let kind = kind_of(field(fields, 1))?;
    if fields.len() == 2 {
        Ok(kind)
    } else {
        Err(Reason::Fields)
    }
}

#[tactic(auto, unfolding(crate::specs::Settings::setting_in))]
fn setting_of(fields: &ByteRecord, word: &[u8], least: u32, most: u32) -> Result<u32, Reason>
    ensures value { result ≡ setting_in word.now least most (fields_of fields.now) }
    ensures bounds { IfOk result (λ number. (least ≤ number) × (number ≤ most)) }
{
    if !begins(fields, word) {
        return Err(Reason::Word);
    }
    if fields.len() != 2 {
        return Err(Reason::Fields);
    }
    let number = count(field(fields, 1), u64::from(least), u64::from(most))?;
    Ok(number as u32)
}

// The next record as a metric.
fn metric(records: &mut Records) -> Result<MetricKind, InputFault>
    requires { records.old.number < 1000 }
    ensures gives { ReadsAs (λ kind. (kind, records.new)) result (read_record metric_in records.old) }
    ensures number { OnOk result (records.new.number ≡ records.old.number + 1) }
{
    let fields = records.expect()?;
    let kind = in_record(records.number(), metric_of(fields))?;
    records.advance()?;
    Ok(kind)
}

// The next record as this word with a number.
fn setting(records: &mut Records, word: &[u8], least: u32, most: u32) -> Result<u32, InputFault>
    requires { records.old.number < 1000 }
    ensures gives { ReadsAs (λ number. (number, records.new)) result (read_record (setting_in word.now least most) records.old) }
    ensures bounds { IfOk result (λ number. (least ≤ number) × (number ≤ most)) }
    ensures number { OnOk result (records.new.number ≡ records.old.number + 1) }
{
    let fields = records.expect()?;
    let number = in_record(records.number(), setting_of(fields, word, least, most))?;
    records.advance()?;
    Ok(number)
}

// The next record as the number of levels, where there are so many pivots.
fn levels(records: &mut Records, pivots: u32) -> Result<u32, InputFault>
    requires { records.old.number < 1000 }
    ensures gives { ReadsAs (λ number. (number, records.new)) result (read_record (levels_in pivots) records.old) }
    ensures depth { IfOk result (IsDepth pivots) }
    ensures number { OnOk result (records.new.number ≡ records.old.number + 1) }
{
    let most = pivots.min(MAX_LEVELS as u32);
    setting(records, b"levels", pivots.min(1), most)
}

fn rows(alloc: Global, records: &mut Records, metric: MetricKind) -> Result<TableRows, InputFault>
    requires { records.old.number < 100 }
    ensures gives { ReadsAs (λ rows. (rows, records.new)) result (rows_in metric records.old) }
    ensures rows { IfOk result (AreItsRows metric) }
    ensures number { OnOk result (records.new.number < 300) }
{
    match metric {
        MetricKind::Table => table(alloc, records),
        MetricKind::L1 | MetricKind::Max | MetricKind::Hamming => Ok(TableRows::new(alloc)),
    }
}

fn greatest_dims(metric: MetricKind) -> u32
    ensures value { result ≡ most_dims metric }
    ensures few { result ≤ MAX_DIMS }
{
    match metric {
        MetricKind::Table => 1,
        MetricKind::L1 | MetricKind::Max | MetricKind::Hamming => MAX_DIMS as u32,
    }
}

#[tactic(auto, unfolding(crate::specs::Settings::measure_in))]
fn read_measure(alloc: Global, records: &mut Records) -> Result<Measure, InputFault>
    requires { records.old.number < 10 }
    ensures gives { ReadsAs (λ measure. (measure, records.new)) result (measure_in records.old) }
    ensures measure { IfOk result IsMeasure }
    ensures number { OnOk result (records.new.number < 300) }
{
    let metric = metric(records)?;
    let dims = setting(records, b"dims", 1, greatest_dims(metric))?;
    let rows = rows(alloc, records, metric)?;
    Ok(Measure { metric, dims, rows })
}

#[tactic(auto, unfolding(crate::specs::Settings::sizes_in))]
fn read_sizes(records: &mut Records, pivots: u32) -> Result<Sizes, InputFault>
    requires { records.old.number < 400 }
    ensures gives { ReadsAs (λ sizes. (sizes, records.new)) result (sizes_in pivots records.old) }
    ensures sizes { IfOk result (AreSizes pivots) }
{
    let levels = levels(records, pivots)?;
    let cell = setting(records, b"cell", 1, MAX_CELL)?;
    let updates = setting(records, b"updates", 1, MAX_UPDATES)?;
    let pages = setting(records, b"pages", 1, MAX_PAGES)?;
    Ok(Sizes {
        levels,
        cell,
        updates,
        pages,
    })
}

/// The settings in a file of these bytes.
#[tactic(auto, unfolding(crate::specs::Settings::settings_in))]
pub fn read_settings(alloc: Global, bytes: &[u8]) -> Result<Settings, InputFault>
    ensures ok { IfOk result (λ settings. settings_in bytes.now ≡ Ok settings) }
    ensures err { IfErr result (IsFaultOf (settings_in bytes.now)) }
{
    let mut records = Records::new(alloc, bytes)?;
    let measure = read_measure(alloc, &mut records)?;
    let pivots = pivots(alloc, &mut records, &measure)?;
    let sizes = read_sizes(&mut records, pivots.len() as u32)?;
    if records.current().is_some() {
        return Err(records.fault(Reason::Extra));
    }
    Ok(Settings {
        metric: measure.metric,
        dims: measure.dims,
        rows: measure.rows,
        pivots,
        levels: sizes.levels,
        cell: sizes.cell,
        updates: sizes.updates,
        pages: sizes.pages,
    })
}
