//! The records of a file, one at a time.
ghost use Rattle.std.specs.Prelude.{◌≡◌, ◌+◌, ◌<◌, ◌^◌, ◌∷◌, [], drop, IfOk, IfErr, OnOk, IfSome, IfNone, true};
ghost use Rattle.csv.specs.Records.{fields_of};
ghost use Rattle.csv.specs.Reading.{Ready, took_first};
ghost use Rattle.mi_input.specs.Records.{IsBetweenRecords, after, first_of, next_begins, records_at, records_of, start};
ghost use Rattle.mi_input.specs.Faults.{ReadsAs};
ghost use Rattle.mi_input.specs.declared.faults.InputFault.TheVariants.{Bad, Memory};

use crate::faults::{InputFault, Reason};
use crate::fields::begins;
use csv::{ByteRecord, ErrorKind, Reader, ReaderBuilder};
use std::alloc::Global;
use std::marker::Model;

// Reads the next record, and says whether there is one.
fn read_next(reader: &mut Reader<&[u8]>, row: &mut ByteRecord) -> Result<bool, InputFault>
    requires ready { Ready reader.old }
    requires between { IsBetweenRecords reader.old }
    ensures records { IfOk result (λ found. records_of reader.old ≡ records_at found (fields_of row.new) reader.new) }
    ensures first { IfOk result (λ found. took_first reader.new ≡ true) }
    ensures goes_on { IfOk result (λ found. found ≡ true → IsBetweenRecords reader.new) }
    ensures err { IfErr result (λ e. e ≡ Memory) }
{
    match reader.read_byte_record(row) {
        Ok(found) => Ok(found),
        Err(e) => match e.kind() {
            // Records may have any number of fields.
            ErrorKind::UnequalLengths { .. } => unreachable!(),
            // A slice has no faults of its own.
            _ => Err(InputFault::Memory),
        },
    }
}

/// A place in a file. One record is kept at a time.
#[derive(Drop)]
pub(crate) struct Records<'a> {
    reader: Reader<&'a [u8]>,
    current: ByteRecord,
    found: bool,
    number: u32,
}

impl<'a> Model for Records<'a> {
    ghost use Rattle.std.specs.Prelude.{◌≡◌, true};
    ghost use Rattle.csv.specs.Reading.{took_first};
    ghost use Rattle.csv.specs.Records.{fields_of};
    ghost use Rattle.mi_input.specs.Records.{IsBetweenRecords, Place, records_at};

    ghost Value = { Place };

    ghost view = { λ s. record { number = s.number; records = records_at s.found (fields_of s.current) s.reader } };

    ghost invariant = { λ s. s.found ≡ true → (took_first s.reader ≡ true) × IsBetweenRecords s.reader };
}

impl<'a> Records<'a> {
    pub(crate) fn new(alloc: Global, bytes: &'a [u8]) -> Result<Records<'a>, InputFault>
        ensures ok { IfOk result (λ records. records ≡ start bytes.now) }
        ensures err { IfErr result (λ e. e ≡ Memory) }
    {
        let mut reader = ReaderBuilder::new()
            .has_headers(false)
            .flexible(true)
            .from_reader(alloc, bytes);
        let mut current = ByteRecord::new(alloc);
        let found = read_next(&mut reader, &mut current)?;
        Ok(Records {
            reader,
            current,
            found,
            number: 1,
        })
    }

    /// The record at this place.
    pub(crate) fn current(&self) -> Option<&ByteRecord>
        ensures some { IfSome result (λ fields. self.now.records ≡ fields_of fields.now ∷ drop 1 self.now.records) }
        ensures none { IfNone result (self.now.records ≡ []) }
    {
        if self.found {
            Some(&self.current)
        } else {
            None
        }
    }

    /// The record at this place, where one must follow.
    pub(crate) fn expect(&self) -> Result<&ByteRecord, InputFault>
        ensures { ReadsAs (λ fields. fields_of fields.now) result (first_of self.now.number self.now.records) }
    {
        self.current().ok_or(self.fault(Reason::End))
    }

    /// Whether the next record's first field is this word.
    pub(crate) fn at_word(&self, word: &[u8]) -> bool
        ensures { result ≡ next_begins word.now self.now.records }
    {
        match self.current() {
            Some(fields) => begins(fields, word),
            None => false,
        }
    }

    /// The number of the record at this place, from 1.
    pub(crate) fn number(&self) -> u32
        ensures { result ≡ self.now.number }
    {
        self.number
    }

    /// Goes on to the next record.
    pub(crate) fn advance(&mut self) -> Result<(), InputFault>
        requires { self.old.number + 1 < 2 ^ 32 }
        ensures ok { OnOk result (self.new ≡ after self.old) }
        ensures err { IfErr result (λ e. e ≡ Memory) }
    {
        if self.found {
            self.found = false;
            self.found = read_next(&mut self.reader, &mut self.current)?;
        }
        self.number += 1;
        Ok(())
    }

    /// The fault of the record at this place.
    pub(crate) fn fault(&self, why: Reason) -> InputFault
        ensures { result ≡ Bad self.now.number why }
    {
        InputFault::Bad {
            number: self.number,
            why,
        }
    }
}
