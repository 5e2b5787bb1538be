//! The fields of a record.
ghost use Rattle.std.specs.Prelude.{◌≡◌};
ghost use Rattle.csv.specs.Records.{fields_of};
ghost use Rattle.mi_input.specs.Records.{begins_with, field_in};

use csv::ByteRecord;

/// The field at this place from 0, and an empty one where there is none.
pub(crate) fn field(fields: &ByteRecord, place: usize) -> &[u8]
    ensures { result.now ≡ field_in place (fields_of fields.now) }
{
    match fields.get(place) {
        Some(field) => field,
        None => b"",
    }
}

/// Whether the first field is this word.
pub(crate) fn begins(fields: &ByteRecord, word: &[u8]) -> bool
    ensures { result ≡ begins_with word.now (fields_of fields.now) }
{
    match fields.get(0) {
        Some(first) => first == word,
        None => false,
    }
}
