//! Texts in JSON.

ghost use Rattle.std.specs.Prelude.{◌≡◌, Some, chars, flat_map};
ghost use Rattle.std.specs.Fmt.{WritesOnOk};
ghost use Rattle.std.specs.List.{list_any};
ghost use Rattle.droid_cmd_identify.specs.Json.{json_char, json_inside, json_text, needs_escape};

use std::fmt::{self, Display, Formatter, Write};

/// A text as a string of JSON, with its quotation marks.
#[derive(Clone, Copy)]
pub struct JsonText<'a>(pub &'a str);

impl Display for JsonText<'_> {
    ghost output = { λ it. Some (json_text it.0.now) };

    fn fmt<W: Write>(&self, f: &mut Formatter<W>) -> fmt::Result {
        write!(f, "\"{}\"", JsonInside(self.0))
    }
}

/// What stands between the quotation marks of a string of JSON.
#[derive(Clone, Copy)]
pub(crate) struct JsonInside<'a>(pub &'a str);

impl Display for JsonInside<'_> {
    ghost output = { λ it. Some (json_inside it.0.now) };

    #[tactic(auto, unfolding(crate::specs::Json::json_inside))]
    fn fmt<W: Write>(&self, f: &mut Formatter<W>) -> fmt::Result {
        if has_escape(self.0) {
            return write_escaped(self.0, f);
        }
        f.write_str(self.0)
    }
}

/// Returns whether a character of the text needs an escape. Most texts have none, and are written at once.
fn has_escape(text: &str) -> bool
    ensures { result ≡ list_any needs_escape (chars text.now) }
{
    text.chars().any(|letter| needs_escape(letter))
}

/// Returns whether JSON wants an escape for a character (RFC 8259, section 7): a quotation mark, a backslash, and what
/// is below a space.
fn needs_escape(letter: char) -> bool
    ensures { result ≡ needs_escape letter }
{
    letter == '"' || letter == '\\' || letter < ' '
}

/// Writes a text character by character, with the escapes that they need.
fn write_escaped<W: Write>(text: &str, f: &mut Formatter<W>) -> fmt::Result
    ensures { WritesOnOk W.write_str_gives f.old result (flat_map json_char (chars text.now)) f.new }
{
    for letter in text.chars() {
        write!(f, "{}", JsonChar(letter))?;
    }
    Ok(())
}

/// A character in a string of JSON, with the escape that it needs: `\u001f` below a space, else a backslash before it.
#[derive(Clone, Copy)]
struct JsonChar(char);

impl Display for JsonChar {
    ghost output = { λ it. Some (json_char it.0) };

    #[tactic(auto, unfolding(crate::specs::Json::json_char))]
    fn fmt<W: Write>(&self, f: &mut Formatter<W>) -> fmt::Result {
        let letter = self.0;
        if !needs_escape(letter) {
            return write!(f, "{letter}");
        }
        if letter < ' ' {
            let code = letter as u8;
            return write!(f, "\\u00{:x}{:x}", code / 16, code % 16);
        }
        write!(f, "\\{letter}")
    }
}
