//! Finds where the lines of a list end: takes off its byte order mark, and leaves one byte at the end of each line.

ghost use Rattle.std.specs.Prelude.{◌≡◌, ◌==◌, ◌&&◌, ◌++◌, ◌∷◌, [], IfOk, OnOk, false, not, if◌then◌else◌};
ghost use Rattle.std.specs.List.{list_any};
ghost use Rattle.droid_fixity.specs.Texts as texts;

use crate::checksum_lists::form::ManifestForm;
use crate::checksum_lists::path::behind;
use std::alloc::{AllocError, Global};

/// Returns a text without the UTF-8 byte order mark (EF BB BF) in front, if it has one.
pub fn without_mark(text: &[u8]) -> &[u8]
    ensures { result.now ≡ texts.without_mark text.now }
{
    match behind(b"\xEF\xBB\xBF".as_slice(), text) {
        Some(rest) => rest,
        None => text,
    }
}

/// Returns whether a byte ends a line: a line feed does, and in a bag a carriage return, too.
pub(crate) fn ends_line(form: ManifestForm, byte: u8) -> bool
    ensures { result ≡ texts.ends_line form byte }
{
    match form {
        ManifestForm::Checksums => byte == b'\n',
        ManifestForm::Bag => byte == b'\n' || byte == b'\r',
    }
}

/// Returns whether a carriage return and a line feed may end one line of this text, so that it has to be copied by
/// `unpaired`: so it is in a bag's manifest that has a carriage return.
pub(crate) fn has_returns(form: ManifestForm, text: &[u8]) -> bool
    ensures { result ≡ texts.has_returns form text.now }
{
    match form {
        ManifestForm::Checksums => false,
        ManifestForm::Bag => has_return(text),
    }
}

/// Returns whether a text has a carriage return.
fn has_return(text: &[u8]) -> bool
    ensures { result ≡ list_any (λ b. b == 13) text.now }
{
    text.iter().any(|byte| *byte == b'\r')
}

/// Copies a bag's text without each line feed that stands behind a carriage return, so that each line has one end.
pub(crate) fn unpaired(alloc: Global, text: &[u8]) -> Result<Vec<u8>, AllocError>
    ensures { IfOk result (λ copy. copy.items ≡ texts.unpaired_from false text.now) }
{
    let mut copy = Vec::with_capacity(alloc, text.len())?;
    let mut after = false;
    for byte in text {
        let second = is_second(after, *byte);
        add_unless(&mut copy, second, *byte)?;
        after = may_be_first(second, *byte);
    }
    Ok(copy)
}

/// Returns whether a byte is the second that ends a line: a line feed. `after` says that a carriage return stands right
/// in front of it.
fn is_second(after: bool, byte: u8) -> bool
    ensures { result ≡ (after && (byte == 10)) }
{
    after && byte == b'\n'
}

/// Returns whether the next byte may be the second that ends a line, because this one is a carriage return. `second`
/// says that this byte is itself a second, which no carriage return is.
fn may_be_first(second: bool, byte: u8) -> bool
    ensures { result ≡ (not second && (byte == 13)) }
{
    !second && byte == b'\r'
}

/// Adds a byte to the copy, unless it is the second that ends a line.
fn add_unless(copy: &mut Vec<u8>, second: bool, byte: u8) -> Result<(), AllocError>
    ensures { OnOk result (copy.new.items ≡ copy.old.items ++ (if second then [] else byte ∷ [])) }
{
    if !second {
        copy.push(byte)?;
    }
    Ok(())
}
