//! A record of CSV as a list of fields: one that `csv` read (`ByteRecord`), or one whose fields are parts of the text
//! (`PlainRow`).

ghost use Rattle.std.specs.Prelude.{◌≡◌};
ghost use Rattle.droid_export.specs.Table.{said};

use crate::column::Column;
use csv::ByteRecord;

/// A record of CSV. Its two implementations hold to the contracts of its methods.
pub trait Row {
    ghost use Rattle.std.specs.Prelude.{◌≡◌, ℕ, List, length};
    ghost use Rattle.droid_export.specs.Table.{field_or};

    /// The bytes of its fields.
    ghost fields: { Self → List (List ℕ) };

    /// Returns the number of fields.
    fn count(&self) -> usize
        ensures { result ≡ length (fields self.now) };

    /// Returns the field at a place, or no bytes past the last.
    fn field(&self, place: usize) -> &[u8]
        ensures { result.now ≡ field_or (fields self.now) place };
}

impl Row for ByteRecord {
    ghost use Rattle.csv.specs.Records.{fields_of};

    ghost fields = { fields_of };

    fn count(&self) -> usize {
        self.len()
    }

    fn field(&self, place: usize) -> &[u8] {
        match self.get(place) {
            Some(field) => field,
            None => &[],
        }
    }
}

/// Returns the field of a column, in a record with all columns; no bytes if the record ends before it.
pub fn said<R: Row>(row: &R, column: Column) -> &[u8]
    ensures { result.now ≡ said (R.fields row.now) column }
{
    row.field(column.place())
}
