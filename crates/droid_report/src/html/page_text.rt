//! Escapes the texts of a page, character by character, so that none becomes markup.

ghost use Rattle.std.specs.Prelude.{◌≡◌, Some};
ghost use Rattle.std.specs.Fmt.{WritesOnOk};
ghost use Rattle.droid_report.specs.Escapes.{escape};
ghost use Rattle.droid_report.specs.Letters.{escaped_letter, picture_of};

use std::fmt::{self, Display, Formatter, Write};

/// A text. It prints so that nothing of it is markup, between elements and in an attribute's value between double
/// quotes.
///
/// A control character prints as its picture (U+2400 to U+241F, and U+2421).
#[derive(Clone, Copy)]
pub struct Escaped<'a>(pub &'a str);

impl Display for Escaped<'_> {
    ghost output = { λ it. Some (escape it.0.now) };

    /// Prints by [`write_escaped`], which has the loop.
    fn fmt<W: Write>(&self, f: &mut Formatter<W>) -> fmt::Result {
        write_escaped(self.0, f)
    }
}

/// Writes a text escaped, character by character. An error is the writer's.
fn write_escaped<W: Write>(text: &str, f: &mut Formatter<W>) -> fmt::Result
    ensures { WritesOnOk W.write_str_gives f.old result (escape text.now) f.new }
{
    for letter in text.chars() {
        write!(f, "{}", Letter(letter))?;
    }
    Ok(())
}

/// A character of a text.
#[derive(Clone, Copy)]
struct Letter(char);

impl Display for Letter {
    ghost output = { λ it. Some (escaped_letter it.0) };

    /// Writes the four characters that could be markup as references, and any other by [`picture`].
    #[tactic(auto, unfolding(crate::specs::Letters::escaped_letter))]
    fn fmt<W: Write>(&self, f: &mut Formatter<W>) -> fmt::Result {
        let letter = self.0;
        match letter {
            '&' => f.write_str("&amp;"),
            '<' => f.write_str("&lt;"),
            '>' => f.write_str("&gt;"),
            '"' => f.write_str("&quot;"),
            _ => write!(f, "{}", picture(letter)),
        }
    }
}

/// Returns the picture of a control character (U+0000 to U+001F, U+007F), or the character itself. `picture_of` of
/// `specs/Letters.antt` has the same numbers, and `pictured` of `Escapes.antt` their UTF-8; the prover ties all three.
/// 0x2400 with less than 32 more is always a character.
fn picture(letter: char) -> char
    ensures { result ≡ picture_of letter }
{
    match letter {
        '\0'..='\u{1f}' => char::from_u32(0x2400 + letter as u32).unwrap(),
        '\u{7f}' => '\u{2421}',
        _ => letter,
    }
}
