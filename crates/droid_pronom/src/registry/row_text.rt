//! The six texts of a record, and the pattern that the last one spells. `fields_of`, of the kit's `csv`, is the list of
//! a record's texts.

ghost use Rattle.std.specs.Prelude.{◌≡◌, [], ◌∷◌, length};
ghost use Rattle.csv.specs.Records.{fields_of};
ghost use Rattle.droid_pronom.specs.RegistryCalls.{ReportsPattern};

use crate::registry::fault::{Fault, Refusal};
use csv::StringRecord;
use droid_pattern::{Pattern, PatternFault};
use std::alloc::Global;

/// The six texts of a record, in order.
#[derive(Clone, Copy)]
pub(crate) struct RowText<'a> {
    pub kind: &'a str,
    pub puid: &'a str,
    pub second: &'a str,
    pub third: &'a str,
    pub fourth: &'a str,
    pub fifth: &'a str,
}

impl<'a> RowText<'a> {
    /// Borrows the six texts of a record. `Draft::take` has counted them.
    pub(crate) fn of(row: &'a StringRecord) -> RowText<'a>
        requires { length (fields_of row.now) ≡ 6 }
        ensures { fields_of row.now
            ≡ result.kind.now ∷ result.puid.now ∷ result.second.now ∷ result.third.now ∷ result.fourth.now
            ∷ result.fifth.now ∷ [] }
    {
        RowText {
            kind: row.get(0).unwrap(),
            puid: row.get(1).unwrap(),
            second: row.get(2).unwrap(),
            third: row.get(3).unwrap(),
            fourth: row.get(4).unwrap(),
            fifth: row.get(5).unwrap(),
        }
    }
}

/// Reads the pattern of a byte sequence, in an S or B record. A text outside the grammar is the record's `BadPattern`.
pub(crate) fn pattern_of(alloc: Global, text: &str) -> Result<Pattern, Refusal>
    ensures { ReportsPattern result text.now }
{
    match Pattern::read(alloc, text) {
        Ok(pattern) => Ok(pattern),
        Err(PatternFault::BadPattern) => Err(Refusal::Fault(Fault::BadPattern)),
        Err(PatternFault::Memory) => Err(Refusal::Memory),
    }
}
