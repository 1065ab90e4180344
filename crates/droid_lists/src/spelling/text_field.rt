//! Reads one field of a profile's text, between double quotes, and adds it to a row. Of the kit's record `fields_of`
//! are the whole fields, and `partial_of` is what was pushed of the next one: always nothing here.

ghost use Rattle.std.specs.Prelude.{◌≡◌, ◌==◌, [], IfOk, IfSome, OnOk, Some, false};
ghost use Rattle.std.specs.List.{position};
ghost use Rattle.std.specs.Option.{option_map};
ghost use Rattle.csv.specs.Records.{fields_of, partial_of};
ghost use Rattle.droid_lists.specs.RowReading as reading;

use csv::ByteRecord;
use std::alloc::{AllocError, Global};

/// Adds the field between double quotes in front of a text to a row. `mark` is the byte that has to stand behind it.
/// Returns the text behind the mark, or `None` if no such field stands there; nothing is added then.
pub(crate) fn push_field<'a>(
    alloc: Global,
    row: &mut ByteRecord,
    text: &'a [u8],
    mark: u8,
) -> Result<Option<&'a [u8]>, AllocError>
    requires { partial_of row.old ≡ [] }
    ensures comes { IfOk result (λ rest.
        reading.FieldComes (reading.first_field mark text.now) (fields_of row.old) (fields_of row.new) rest) }
    ensures whole { OnOk result (partial_of row.new ≡ []) }
{
    let Some((first, inner)) = text.split_first() else {
        return Ok(None);
    };
    if *first != b'"' {
        return Ok(None);
    }
    push_inner(alloc, row, inner, mark)
}

/// Adds the field in front of a text whose first double quote was read.
fn push_inner<'a>(
    alloc: Global,
    row: &mut ByteRecord,
    text: &'a [u8],
    mark: u8,
) -> Result<Option<&'a [u8]>, AllocError>
    requires { partial_of row.old ≡ [] }
    ensures comes { IfOk result (λ rest.
        reading.FieldComes (reading.field_by mark false text.now) (fields_of row.old) (fields_of row.new) rest) }
    ensures whole { OnOk result (partial_of row.new ≡ []) }
{
    // A text that never closes the field is not copied.
    match first_quote(text) {
        Some(end) => push_closed(alloc, row, text, end, mark),
        None => Ok(None),
    }
}

/// Adds a field whose first double quote was read, and behind which another one comes, at `end`. For speed it is taken
/// as it stands, if it has none in it; the clause is the same for both ways.
fn push_closed<'a>(
    alloc: Global,
    row: &mut ByteRecord,
    text: &'a [u8],
    end: usize,
    mark: u8,
) -> Result<Option<&'a [u8]>, AllocError>
    requires partial { partial_of row.old ≡ [] }
    requires quote { position (λ b. b == 34) text.now ≡ Some end }
    ensures comes { IfOk result (λ rest.
        reading.FieldComes (reading.field_by mark false text.now) (fields_of row.old) (fields_of row.new) rest) }
    ensures whole { OnOk result (partial_of row.new ≡ []) }
{
    match plain_field(text, end, mark) {
        Some((field, rest)) => {
            row.push_field(field)?;
            Ok(Some(rest))
        }
        None => push_marked(alloc, row, text, mark),
    }
}

/// Adds a field, whose first double quote was read, and which may have double quotes in it.
fn push_marked<'a>(
    alloc: Global,
    row: &mut ByteRecord,
    text: &'a [u8],
    mark: u8,
) -> Result<Option<&'a [u8]>, AllocError>
    requires { partial_of row.old ≡ [] }
    ensures comes { IfOk result (λ rest.
        reading.FieldComes (reading.field_by mark false text.now) (fields_of row.old) (fields_of row.new) rest) }
    ensures whole { OnOk result (partial_of row.new ≡ []) }
{
    match marked_field(alloc, text, mark)? {
        Some((value, rest)) => {
            row.push_field(value.as_slice())?;
            Ok(Some(rest))
        }
        None => Ok(None),
    }
}

/// Reads a field behind its first double quote, byte by byte: two double quotes stand for one, and a single one ends
/// it, if the mark comes behind. Returns the field and the text behind the mark.
fn marked_field<'a>(
    alloc: Global,
    text: &'a [u8],
    mark: u8,
) -> Result<Option<(Vec<u8>, &'a [u8])>, AllocError>
    ensures { IfOk result (λ found.
        option_map (λ parts. record { value = parts.0.items; rest = parts.1.now }) found
        ≡ reading.field_by mark false text.now) }
{
    let mut value = Vec::new(alloc);
    let mut quote = false;
    for place in 0..text.len() {
        let byte = text[place];
        if quote {
            if byte == b'"' {
                value.push(byte)?;
                quote = false;
            } else if byte == mark {
                return Ok(Some((value, &text[place + 1..])));
            } else {
                return Ok(None);
            }
        } else if byte == b'"' {
            quote = true;
        } else {
            value.push(byte)?;
        }
    }
    Ok(None)
}

/// Returns the field before the first double quote, which stands at `end`, if the mark comes behind it, and the text
/// behind the mark. Only `Some` promises something: `None` costs time.
fn plain_field(text: &[u8], end: usize, mark: u8) -> Option<(&[u8], &[u8])>
    requires { position (λ b. b == 34) text.now ≡ Some end }
    ensures { IfSome result (λ parts.
        reading.field_by mark false text.now ≡ Some (record { value = parts.0.now; rest = parts.1.now })) }
{
    let (field, behind) = text.split_at_checked(end)?;
    let (_, behind) = behind.split_first()?;
    let (found, rest) = behind.split_first()?;
    if *found == b'"' || *found != mark {
        return None;
    }
    Some((field, rest))
}

/// Returns the place of the first double quote, counted from 0.
fn first_quote(text: &[u8]) -> Option<usize>
    ensures { result ≡ position (λ b. b == 34) text.now }
{
    text.iter().position(|byte| *byte == b'"')
}
