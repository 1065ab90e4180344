//! Plain rows: 18 fields that all stand between double quotes and have none in them. `None` is always allowed: `csv`
//! then reads the list.

ghost use Rattle.std.specs.Prelude.{◌≡◌, ◌<◌, [], IfSome, Some, length};
ghost use Rattle.csv.specs.Machine.{next_record};
ghost use Rattle.csv.specs.Reading.{default_config, strip_bom};
ghost use Rattle.csv.specs.declared.parser.State.TheVariants as st;
ghost use Rattle.std.specs.List.{position};
ghost use Rattle.droid_export.specs.PlainRows.{IsQuoted, fields_in, is_quote};

use crate::csv_row::Row;

/// A row of 18 fields that all stand between double quotes and have none in them: most rows that this program writes
/// are such. Its fields are parts of the text, so that none is copied.
#[derive(Clone, Copy)]
pub(crate) struct PlainRow<'a> {
    fields: [&'a [u8]; 18],
}

impl Row for PlainRow<'_> {
    ghost use Rattle.droid_export.specs.PlainRows.{fields_in};

    ghost fields = { λ row. fields_in row.fields };

    fn count(&self) -> usize {
        self.fields.as_slice().len()
    }

    fn field(&self, place: usize) -> &[u8] {
        match self.fields.get(place) {
            Some(field) => *field,
            None => &[],
        }
    }
}

impl<'a> PlainRow<'a> {
    /// Returns the row in front of a text, and what comes after its line feed; `None` if the row is not plain, or has
    /// more or fewer fields than 18.
    pub(crate) fn first(text: &'a [u8]) -> Option<(PlainRow<'a>, &'a [u8])>
        ensures read { IfSome result (λ found.
            next_record default_config st.StartRecord [] [] text.now
            ≡ Some (fields_in found.0.fields, st.StartRecord, found.1.now)) }
        ensures unmarked { IfSome result (λ found. strip_bom text.now ≡ text.now) }
        ensures shorter { IfSome result (λ found. length found.1.now < length text.now) }
    {
        let mut fields: [&[u8]; 18] = [&[]; 18];
        let mut rest = text;
        for place in 0..17 {
            let (field, behind) = quoted(rest, b',')?;
            fields[place] = field;
            rest = behind;
        }
        let (field, behind) = quoted(rest, b'\n')?;
        fields[17] = field;
        Some((PlainRow { fields }, behind))
    }
}

/// Returns the field between double quotes in front of a text, if it has none in it, and what comes after the mark
/// behind it: a comma, or a line feed behind the last field. `None` says nothing: `csv` then reads the list.
fn quoted(text: &[u8], mark: u8) -> Option<(&[u8], &[u8])>
    ensures { IfSome result (λ parts. IsQuoted mark text.now parts.0.now parts.1.now) }
{
    let (first, inner) = text.split_first()?;
    if *first != b'"' {
        return None;
    }
    let end = first_quote(inner)?;
    let (field, behind) = inner.split_at(end);
    let (_, behind) = behind.split_first()?;
    let (found, rest) = behind.split_first()?;
    if *found == mark {
        Some((field, rest))
    } else {
        None
    }
}

/// Returns the place of the first double quote, or `None` if there is none.
fn first_quote(text: &[u8]) -> Option<usize>
    ensures { result ≡ position is_quote text.now }
{
    text.iter().position(|byte| *byte == b'"')
}
