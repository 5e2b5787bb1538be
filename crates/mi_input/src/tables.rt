//! The rows of a table.
ghost use Rattle.std.specs.Prelude.{◌≡◌, ◌+◌, ◌<◌, drop, IfOk, OnOk};
ghost use Rattle.csv.specs.Records.{fields_of};
ghost use Rattle.mi_base.specs.Configuration.{IsTable, IsTableRow};
ghost use Rattle.mi_input.specs.Faults.{ReadsAs, at_record};
ghost use Rattle.mi_input.specs.Records.{read_record};
ghost use Rattle.mi_input.specs.Settings.{row_in, table_in, values_in};

use crate::faults::{InputFault, Reason};
use crate::fields::{begins, field};
use crate::numbers::count;
use crate::records::Records;
use csv::ByteRecord;
use mi_base::{MAX_DISTANCE, MAX_ROWS, TableRow, TableRows};
use std::alloc::Global;

// The values of the record of this number, which begins with its word.
fn values_of(alloc: Global, number: u32, fields: &ByteRecord) -> Result<TableRow, InputFault>
    ensures gives { ReadsAs (λ row. row) result (at_record number (values_in (drop 1 (fields_of fields.now)))) }
    ensures row { IfOk result IsTableRow }
{
    if fields.len() < 2 || fields.len() > MAX_ROWS + 1 {
        return Err(InputFault::Bad {
            number,
            why: Reason::Fields,
        });
    }
    let mut row = TableRow::new(alloc);
    for place in 1..fields.len() {
        match count(field(fields, place), 0, MAX_DISTANCE as u64) {
            Ok(value) => row.push(value as u32)?,
            Err(why) => return Err(InputFault::Bad { number, why }),
        }
    }
    Ok(row)
}

// The next record as the row after so many.
#[tactic(auto, unfolding(crate::specs::Settings::row_in))]
fn next_row(alloc: Global, records: &mut Records, before: usize) -> Result<TableRow, InputFault>
    requires { records.old.number < 1000 }
    ensures gives { ReadsAs (λ row. (row, records.new)) result (read_record (row_in (before + 1)) records.old) }
    ensures row { IfOk result IsTableRow }
    ensures few { OnOk result (before < MAX_ROWS) }
    ensures number { OnOk result (records.new.number ≡ records.old.number + 1) }
{
    let fields = records.expect()?;
    if !begins(fields, b"row") {
        return Err(records.fault(Reason::Word));
    }
    if before >= MAX_ROWS {
        return Err(records.fault(Reason::Limit));
    }
    let row = values_of(alloc, records.number(), fields)?;
    records.advance()?;
    Ok(row)
}

/// The rows from here on, one at least.
pub(crate) fn table(alloc: Global, records: &mut Records) -> Result<TableRows, InputFault>
    requires { records.old.number < 100 }
    ensures gives { ReadsAs (λ rows. (rows, records.new)) result (table_in records.old) }
    ensures table { IfOk result IsTable }
    ensures number { OnOk result (records.new.number < 300) }
{
    let mut rows = TableRows::new(alloc);
    rows.push(next_row(alloc, records, 0)?)?;
    while records.at_word(b"row") {
        let row = next_row(alloc, records, rows.len())?;
        rows.push(row)?;
    }
    Ok(rows)
}
