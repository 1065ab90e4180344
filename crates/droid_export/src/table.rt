//! Appends fields of CSV to a buffer, between double quotes. After an error nothing is promised of the buffer:
//! `RowText` clears its own before it is filled.

ghost use Rattle.std.specs.Prelude.{◌≡◌, ◌++◌, ◌∷◌, [], IsTrue, OnOk};
ghost use Rattle.std.specs.List.{flat_map};
ghost use Rattle.droid_export.specs.Csv.{doubled, quoted};

use memchr::memchr;
use std::alloc::AllocError;

/// Appends a field between double quotes, and the byte behind it (`end`): a comma or a line feed.
#[tactic(auto, unfolding(crate::specs::Csv::quoted))]
pub(crate) fn add_field(text: &mut Vec<u8>, field: &[u8], end: u8) -> Result<(), AllocError>
    ensures { OnOk result (text.new.items ≡ text.old.items ++ (quoted field.now ++ end ∷ [])) }
{
    text.push(b'"')?;
    add_doubled(text, field)?;
    text.push(b'"')?;
    text.push(end)?;
    Ok(())
}

/// Appends a field with each of its double quotes written twice.
fn add_doubled(text: &mut Vec<u8>, field: &[u8]) -> Result<(), AllocError>
    ensures { OnOk result (text.new.items ≡ text.old.items ++ flat_map doubled field.now) }
{
    if has_no_quote(field) {
        text.extend_from_slice(field)?;
        return Ok(());
    }
    for byte in field {
        add_byte(text, *byte)?;
    }
    Ok(())
}

/// Appends a byte, and a double quote twice.
fn add_byte(text: &mut Vec<u8>, byte: u8) -> Result<(), AllocError>
    ensures { OnOk result (text.new.items ≡ text.old.items ++ doubled byte) }
{
    if byte == b'"' {
        text.push(byte)?;
    }
    text.push(byte)?;
    Ok(())
}

/// Returns whether there is no double quote in the field. For speed alone: such a field is appended at once, and the
/// clause says no more than that it may be.
#[tactic(auto, using(crate::proofs::Lines::plain_field))]
fn has_no_quote(field: &[u8]) -> bool
    ensures { IsTrue result → flat_map doubled field.now ≡ field.now }
{
    match memchr(b'"', field) {
        None => true,
        Some(_) => false,
    }
}
