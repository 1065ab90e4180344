//! Reads the spelling of a path: the bytes that backslashes and percent signs stand for.

ghost use Rattle.std.specs.Prelude.{◌≡◌, ◌++◌, Some, None, IfOk, OnOk, take, if◌then◌else◌};
ghost use Rattle.std.specs.Option.{option_map};
ghost use Rattle.droid_fixity.specs.Spellings as spellings;

use crate::checksum_lists::form::Escapes;
use std::alloc::AllocError;

/// Appends the bytes that a text spells to `path`. Returns false if it spells none, which only `Backslash` can be;
/// nothing is promised of `path` then, nor after an error.
pub(crate) fn add_spelled(
    path: &mut Vec<u8>,
    escapes: Escapes,
    text: &[u8],
) -> Result<bool, AllocError>
    ensures { IfOk result (λ spells.
        (if spells then Some path.new.items else None)
        ≡ option_map (λ bytes. path.old.items ++ bytes) (spellings.spelled escapes text.now)) }
{
    match escapes {
        Escapes::Nothing => {
            path.extend_from_slice(text)?;
            Ok(true)
        }
        Escapes::Backslash => {
            let spells = add_unescaped(path, text)?;
            Ok(spells)
        }
        Escapes::Percent => {
            add_decoded(path, text)?;
            Ok(true)
        }
    }
}

/// Appends the bytes that a text with backslashes spells. Returns false if a backslash stands at the end, or before a
/// letter that stands for nothing.
fn add_unescaped(path: &mut Vec<u8>, text: &[u8]) -> Result<bool, AllocError>
    ensures { IfOk result (λ spells.
        (if spells then Some path.new.items else None)
        ≡ option_map (λ bytes. path.old.items ++ bytes) (spellings.unescaped text.now)) }
{
    let mut opened = false;
    for byte in text {
        if opened {
            let Some(meant) = byte_behind_backslash(*byte) else {
                return Ok(false);
            };
            path.push(meant)?;
            opened = false;
        } else if *byte == b'\\' {
            opened = true;
        } else {
            path.push(*byte)?;
        }
    }
    Ok(!opened)
}

/// Returns the byte that a letter behind a backslash stands for: `\\` a backslash, `n` a line feed, `r` a carriage
/// return. `None` for any other letter.
fn byte_behind_backslash(letter: u8) -> Option<u8>
    ensures { result ≡ spellings.byte_behind_backslash letter }
{
    if letter == b'\\' {
        Some(b'\\')
    } else if letter == b'n' {
        Some(b'\n')
    } else if letter == b'r' {
        Some(b'\r')
    } else {
        None
    }
}

/// Appends the bytes that a text with percent signs spells. Each text spells some: a sign that encodes nothing stands
/// for itself.
fn add_decoded(path: &mut Vec<u8>, text: &[u8]) -> Result<(), AllocError>
    ensures { OnOk result (path.new.items ≡ path.old.items ++ spellings.decoded text.now) }
{
    let mut is_first = true;
    for part in text.split(|byte| *byte == b'%') {
        if is_first {
            path.extend_from_slice(part)?;
            is_first = false;
        } else {
            add_behind_percent(path, part)?;
        }
    }
    Ok(())
}

/// Appends the bytes of a text that stands behind a percent sign: the byte that the first two digits encode and the
/// rest, or the sign itself and all of the text.
fn add_behind_percent(path: &mut Vec<u8>, text: &[u8]) -> Result<(), AllocError>
    ensures { OnOk result (path.new.items ≡ path.old.items ++ spellings.behind_percent text.now) }
{
    match byte_in_front(text) {
        Some(byte) => {
            path.push(byte)?;
            path.extend_from_slice(&text[2..])?;
        }
        None => {
            path.push(b'%')?;
            path.extend_from_slice(text)?;
        }
    }
    Ok(())
}

/// Returns the byte that the first two bytes behind a percent sign stand for, or `None` if they encode nothing or there
/// are fewer.
fn byte_in_front(text: &[u8]) -> Option<u8>
    ensures { result ≡ spellings.byte_behind_percent (take 2 text.now) }
{
    match text.split_at_checked(2) {
        Some((digits, _)) => byte_behind_percent(digits),
        None => None,
    }
}

/// Returns the byte that two digits behind a `%` stand for: a line feed, a carriage return or a percent sign. `None`
/// for all else, as RFC 8493 encodes nothing else.
fn byte_behind_percent(digits: &[u8]) -> Option<u8>
    ensures { result ≡ spellings.byte_behind_percent digits.now }
{
    if digits == b"25".as_slice() {
        return Some(b'%');
    }
    if digits == b"0A".as_slice() || digits == b"0a".as_slice() {
        return Some(b'\n');
    }
    if digits == b"0D".as_slice() || digits == b"0d".as_slice() {
        return Some(b'\r');
    }
    None
}
