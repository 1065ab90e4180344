//! The text of a registry file's rows, as CSV.

ghost use Rattle.std.specs.Prelude.{◌≡◌, ◌++◌, ◌∷◌, [], ◌==◌, not, OnOk};
ghost use Rattle.std.specs.List.{flat_map, list_all};
ghost use Rattle.droid_signature.specs.Csv.{doubled, line, quoted};

use std::alloc::AllocError;

/// Appends a row of six fields, each between double quotes (RFC 4180). A line feed ends it. Each record of a registry
/// has six fields (`FIELDS` of `droid_pronom`).
#[tactic(auto, using(crate::proofs::RowTexts::row_joined))]
pub fn push_row(
    text: &mut Vec<u8>,
    first: &[u8],
    second: &[u8],
    third: &[u8],
    fourth: &[u8],
    fifth: &[u8],
    sixth: &[u8],
) -> Result<(), AllocError>
    ensures { OnOk result
        (text.new.items
        ≡ text.old.items ++ line (first.now ∷ second.now ∷ third.now ∷ fourth.now ∷ fifth.now ∷ sixth.now ∷ [])) }
{
    push_quoted(text, first)?;
    push_next(text, second)?;
    push_next(text, third)?;
    push_next(text, fourth)?;
    push_next(text, fifth)?;
    push_next(text, sixth)?;
    text.push(b'\n')?;
    Ok(())
}

/// Appends a comma and a field.
fn push_next(text: &mut Vec<u8>, field: &[u8]) -> Result<(), AllocError>
    ensures { OnOk result (text.new.items ≡ text.old.items ++ (44 ∷ quoted field.now)) }
{
    text.push(b',')?;
    push_quoted(text, field)?;
    Ok(())
}

/// Appends a field between double quotes. One inside it is written twice.
#[tactic(auto, using(crate::proofs::RowTexts::quoted_joined))]
fn push_quoted(text: &mut Vec<u8>, field: &[u8]) -> Result<(), AllocError>
    ensures { OnOk result (text.new.items ≡ text.old.items ++ quoted field.now) }
{
    text.push(b'"')?;
    push_doubled(text, field)?;
    text.push(b'"')?;
    Ok(())
}

/// Appends bytes, each double quote twice.
fn push_doubled(text: &mut Vec<u8>, field: &[u8]) -> Result<(), AllocError>
    ensures { OnOk result (text.new.items ≡ text.old.items ++ flat_map doubled field.now) }
{
    // For speed; no clause needs it.
    if has_no_quote(field) {
        text.extend_from_slice(field)?;
        return Ok(());
    }
    for c in field {
        push_byte(text, *c)?;
    }
    Ok(())
}

/// Returns whether a field has no double quote.
fn has_no_quote(field: &[u8]) -> bool
    ensures { result ≡ list_all (λ c. not (c == 34)) field.now }
{
    field.iter().all(|c| *c != b'"')
}

/// Appends a byte, or two if it is a double quote.
fn push_byte(text: &mut Vec<u8>, c: u8) -> Result<(), AllocError>
    ensures { OnOk result (text.new.items ≡ text.old.items ++ doubled c) }
{
    if c == b'"' {
        text.push(b'"')?;
    }
    text.push(c)?;
    Ok(())
}
