//! Reads one row in its one spelling, and returns the field of a column. Columns are counted from 0.

ghost use Rattle.std.specs.Prelude.{◌≡◌, [], IfOk, OnOk};
ghost use Rattle.csv.specs.Records.{fields_of, partial_of};
ghost use Rattle.droid_lists.specs.RowReading as reading;
ghost use Rattle.droid_lists.specs.RowReading.{at};

use crate::spelling::text_field::push_field;
use csv::ByteRecord;
use std::alloc::{AllocError, Global};

/// Reads the row in front of a text into `row`, in place of what it had, in its one spelling: 18 fields between double
/// quotes, commas between them, and a line feed. Returns the text behind it, or the first column that is spelled
/// otherwise.
pub(crate) fn read_row<'a>(
    alloc: Global,
    row: &mut ByteRecord,
    text: &'a [u8],
) -> Result<Result<&'a [u8], u8>, AllocError>
    ensures { IfOk result (λ rest. reading.RowComes (reading.first_row text.now) (fields_of row.new) rest) }
{
    row.clear();
    let mut rest = text;
    for column in 0..18u8 {
        let next = push_field(alloc, row, rest, mark_behind(column))?;
        match next {
            Some(behind) => rest = behind,
            None => return Ok(Err(column)),
        }
    }
    Ok(Ok(rest))
}

/// Returns the bytes of the field of a column, or no bytes past the last.
pub(crate) fn field(row: &ByteRecord, column: usize) -> &[u8]
    ensures { result.now ≡ at (fields_of row.now) column }
{
    match row.get(column) {
        Some(field) => field,
        None => &[],
    }
}

/// Returns the mark behind the field of a column: a line feed behind 17, the last of 18, and a comma behind any other.
fn mark_behind(column: u8) -> u8
    ensures { result ≡ reading.mark_behind column }
{
    if column == 17 { b'\n' } else { b',' }
}
