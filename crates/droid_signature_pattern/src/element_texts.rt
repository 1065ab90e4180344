//! Writes the texts of a pattern's elements, each the shortest that a registry reads. Where memory runs out, nothing is
//! promised of `text`: the callers drop it.

ghost use Rattle.std.specs.Prelude.{◌≡◌, ◌++◌, ◌<◌, OnOk, decimal};
ghost use Rattle.std.specs.List.{flat_map};
ghost use Rattle.droid_pattern.specs.Patterns.{Byte, Except, Range};
ghost use Rattle.droid_signature_pattern.specs.TermValues.{gap_of};
ghost use Rattle.droid_signature_pattern.specs.Written as spec;
ghost use Rattle.droid_signature_pattern.specs.Written.{pair, written};

use itoa::Buffer;
use std::alloc::AllocError;

/// Appends a byte as two hexadecimal digits, in upper case.
pub(crate) fn push_byte(text: &mut Vec<u8>, byte: u8) -> Result<(), AllocError>
    ensures { OnOk result (text.new.items ≡ text.old.items ++ pair byte) }
{
    text.extend_from_slice(&[digit(byte / 16), digit(byte % 16)])?;
    Ok(())
}

/// Returns the hexadecimal digit of a value, a capital one.
fn digit(value: u8) -> u8
    requires { value < 16 }
    ensures { result ≡ spec.digit value }
{
    if value < 10 {
        b'0' + value
    } else {
        b'A' - 10 + value
    }
}

/// Appends bytes, each as two digits, with nothing between them.
pub(crate) fn push_bytes(text: &mut Vec<u8>, bytes: &[u8]) -> Result<(), AllocError>
    ensures { OnOk result (text.new.items ≡ text.old.items ++ flat_map pair bytes.now) }
{
    for byte in bytes {
        push_byte(text, *byte)?;
    }
    Ok(())
}

/// Appends a byte of a range: `[61:7A]`.
pub(crate) fn push_range(text: &mut Vec<u8>, low: u8, high: u8) -> Result<(), AllocError>
    ensures { OnOk result (text.new.items ≡ text.old.items ++ written (Range low high)) }
{
    text.push(b'[')?;
    push_byte(text, low)?;
    text.push(b':')?;
    push_byte(text, high)?;
    text.push(b']')?;
    Ok(())
}

/// Appends any byte but one: `[!61]`.
pub(crate) fn push_except(text: &mut Vec<u8>, byte: u8) -> Result<(), AllocError>
    ensures { OnOk result (text.new.items ≡ text.old.items ++ written (Except byte)) }
{
    text.extend_from_slice(b"[!")?;
    push_byte(text, byte)?;
    text.push(b']')?;
    Ok(())
}

/// Appends a gap of at least `least` bytes, and at most `most` if there is such a limit.
pub fn push_gap(text: &mut Vec<u8>, least: u16, most: Option<u16>) -> Result<(), AllocError>
    ensures { OnOk result (text.new.items ≡ text.old.items ++ written (gap_of least most)) }
{
    match most {
        Some(most) => push_closed_gap(text, least, most),
        None => push_open_gap(text, least),
    }
}

/// Appends a gap without an upper bound: `{2-*}`, or `*` where none of its bytes has to be there.
fn push_open_gap(text: &mut Vec<u8>, least: u16) -> Result<(), AllocError>
    ensures { OnOk result (text.new.items ≡ text.old.items ++ spec.open_gap least) }
{
    if least == 0 {
        text.push(b'*')?;
        return Ok(());
    }
    text.push(b'{')?;
    push_number(text, least)?;
    text.extend_from_slice(b"-*}")?;
    Ok(())
}

/// Appends a gap of `least` to `most` bytes: `{2-5}`, or `{3}` where both are one number.
fn push_closed_gap(text: &mut Vec<u8>, least: u16, most: u16) -> Result<(), AllocError>
    ensures { OnOk result (text.new.items ≡ text.old.items ++ spec.gap least most) }
{
    text.push(b'{')?;
    push_number(text, least)?;
    if least != most {
        text.push(b'-')?;
        push_number(text, most)?;
    }
    text.push(b'}')?;
    Ok(())
}

/// Appends a number in decimal digits.
fn push_number(text: &mut Vec<u8>, number: u16) -> Result<(), AllocError>
    ensures { OnOk result (text.new.items ≡ text.old.items ++ decimal number) }
{
    let mut buffer = Buffer::new();
    text.extend_from_slice(buffer.format(number).as_bytes())?;
    Ok(())
}
