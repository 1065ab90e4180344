//! Prints bytes with escapes, for a path that is no plain text. `WritesOnOk` is the kit's: after `Ok` exactly this text
//! was written.

ghost use Rattle.std.specs.Prelude.{◌≡◌, ◌&&◌, Some, flat_map, nat_le};
ghost use Rattle.std.specs.Fmt.{WritesOnOk};
ghost use Rattle.droid_terminal.specs.Paths.{escaped_byte, is_printed, is_quoted};

use std::fmt::{self, Display, Formatter, Write};

/// A byte of a path. Tab, line feed and carriage return print as `\t`, `\n` and `\r`, a quotation mark or a backslash
/// behind a backslash, other printable ASCII as itself, and any other byte as `\x` and two hexadecimal digits.
#[derive(Clone, Copy)]
struct Escaped(u8);

impl Display for Escaped {
    ghost output = { λ escaped. Some (escaped_byte escaped.0) };

    #[tactic(auto, unfolding(crate::specs::Paths::escaped_byte))]
    fn fmt<W: Write>(&self, f: &mut Formatter<W>) -> fmt::Result {
        let byte = self.0;
        if byte == b'\t' {
            return f.write_str("\\t");
        }
        if byte == b'\n' {
            return f.write_str("\\n");
        }
        if byte == b'\r' {
            return f.write_str("\\r");
        }
        let letter = char::from(byte);
        if is_quoted(byte) {
            return write!(f, "\\{letter}");
        }
        if is_printed(byte) {
            return write!(f, "{letter}");
        }
        write!(f, "\\x{:x}{:x}", byte / 16, byte % 16)
    }
}

/// Returns whether it is a double or a single quotation mark or a backslash, before which a backslash is put.
fn is_quoted(byte: u8) -> bool
    ensures { result ≡ is_quoted byte }
{
    byte == b'"' || byte == b'\'' || byte == b'\\'
}

/// Returns whether it is a printable ASCII character or a space, from 32 to 126.
fn is_printed(byte: u8) -> bool
    ensures { result ≡ is_printed byte }
{
    byte >= b' ' && byte <= b'~'
}

/// Writes each byte as `Escaped` prints it. Fails only if the formatter does.
pub(crate) fn write_escaped<W: Write>(bytes: &[u8], f: &mut Formatter<W>) -> fmt::Result
    ensures { WritesOnOk W.write_str_gives f.old result (flat_map escaped_byte bytes.now) f.new }
{
    for byte in bytes {
        write!(f, "{}", Escaped(*byte))?;
    }
    Ok(())
}
