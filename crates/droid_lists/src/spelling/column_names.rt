//! The names of a profile's columns.

ghost use Rattle.std.specs.Prelude.{◌≡◌};
ghost use Rattle.csv.specs.Records.{fields_of};
ghost use Rattle.droid_lists.specs.ProfileTexts.{name_of, other_name};

use crate::spelling::text_row::field;
use csv::ByteRecord;
use droid_export::Column;
use droid_frame::HashKind;

/// Returns the name of a column, counted from 0; that of the hash's column is by its kind. From 18 on the name is
/// empty.
pub fn column_name(hash: HashKind, column: u8) -> &'static str
    ensures { result.now ≡ name_of hash column }
{
    match Column::at(column as usize) {
        Some(found) => found.name(hash),
        None => "",
    }
}

/// Returns the first of the 18 columns that has another name in this row, or `None` if the row is that of the names.
pub(crate) fn other_name(hash: HashKind, row: &ByteRecord) -> Option<u8>
    ensures { result ≡ other_name hash (fields_of row.now) }
{
    for column in 0..18u8 {
        if field(row, column as usize) != column_name(hash, column).as_bytes() {
            return Some(column);
        }
    }
    None
}
