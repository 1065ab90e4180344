//! Reads numbers: those of attributes, and those that are the texts of elements.

ghost use Rattle.std.specs.Prelude.{◌≡◌};
ghost use Rattle.std.specs.Char.{is_ascii_digit};
ghost use Rattle.std.specs.List.{list_all};
ghost use Rattle.std.specs.Option.{option_map};
ghost use Rattle.droid_signature_file.specs.Outcomes.{Gives};
ghost use Rattle.droid_signature_file.specs.Signatures as spec;

use crate::fault::{Stop, Wrong};
use crate::white_space::trimmed;

/// Reads a number: one decimal digit or more, no sign, and less than 4,294,967,296. Leading zeros don't matter.
pub(crate) fn number(text: &str) -> Result<u32, Stop>
    ensures { Gives (λ n. n) result (spec.number text.now) }
{
    if text.is_empty() {
        return Err(Stop::Wrong(Wrong::Number));
    }
    if !are_digits(text.as_bytes()) {
        return Err(Stop::Wrong(Wrong::Number));
    }
    match text.parse::<u32>() {
        Ok(number) => Ok(number),
        Err(_) => Err(Stop::Wrong(Wrong::Number)),
    }
}

/// Returns whether all bytes are decimal digits, ASCII's.
fn are_digits(text: &[u8]) -> bool
    ensures { result ≡ list_all is_ascii_digit text.now }
{
    text.iter().all(|c| c.is_ascii_digit())
}

/// Reads the number of an attribute that has to be there. White space at both ends doesn't count.
pub(crate) fn wanted(value: Option<&str>) -> Result<u32, Stop>
    ensures { Gives (λ n. n) result (spec.wanted (option_map (λ text. text.now) value.entry)) }
{
    match value {
        Some(text) => number(trimmed(text)),
        None => Err(Stop::Wrong(Wrong::Number)),
    }
}

/// Reads the number of an attribute that may be missing. White space at both ends doesn't count.
pub(crate) fn optional(value: Option<&str>) -> Result<Option<u32>, Stop>
    ensures { Gives (λ n. n) result (spec.optional (option_map (λ text. text.now) value.entry)) }
{
    match value {
        Some(text) => Ok(Some(number(trimmed(text))?)),
        None => Ok(None),
    }
}
