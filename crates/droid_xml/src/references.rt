//! Reads references to characters and to the five entities.

ghost use Rattle.std.specs.Prelude.{◌≡◌, ◌<◌, ◌≤◌, MatchOption};
ghost use Rattle.std.specs.Char.{digit_value};
ghost use Rattle.std.specs.Option.{option_map};
ghost use Rattle.droid_xml.specs.References.{char_of, numbered, entity, referenced, reference_at};

use crate::bytes::{after, cut_at_byte};
use crate::characters::is_char;

/// Returns the character whose number these digits write in a base. `None`: there is no digit, another byte stands
/// among them, or a document may not have this character.
fn numbered(base: u32, digits: &[u8]) -> Option<char>
    requires low { 2 ≤ base }
    requires high { base ≤ 16 }
    ensures { result ≡ numbered base digits.now }
{
    if digits.is_empty() {
        return None;
    }
    let mut value = 0;
    for byte in digits {
        let digit = match digit(base, *byte) {
            Some(digit) => digit,
            None => return None,
        };
        // Kept at the first number past all characters, so that it does not overflow.
        value = (value * base + digit).min(0x11_0000);
    }
    char_of(value)
}

/// Returns the value of a digit of this base, of either case. `None`: the byte is none.
fn digit(base: u32, byte: u8) -> Option<u32>
    requires low { 2 ≤ base }
    requires high { base ≤ 16 }
    ensures { MatchOption result (base ≤ digit_value byte) (λ digit.
        (digit_value byte < base) × (digit ≡ digit_value byte)) }
{
    char::from(byte).to_digit(base)
}

/// Returns the character of this number, if a document may have it.
fn char_of(number: u32) -> Option<char>
    ensures { result ≡ char_of number }
{
    if is_char(number) {
        char::from_u32(number)
    } else {
        None
    }
}

/// Returns the character of one of the five entities. `None`: another name.
#[tactic(auto, unfolding(crate::specs::References::entity))]
fn entity(name: &[u8]) -> Option<char>
    ensures { result ≡ entity name.now }
{
    if name == b"lt".as_slice() {
        Some('<')
    } else if name == b"gt".as_slice() {
        Some('>')
    } else if name == b"amp".as_slice() {
        Some('&')
    } else if name == b"apos".as_slice() {
        Some('\'')
    } else if name == b"quot".as_slice() {
        Some('"')
    } else {
        None
    }
}

/// Returns the character for which a reference stands, by what is between its `&` and `;`. `values.rt` calls this too.
#[tactic(auto, unfolding(crate::specs::References::referenced))]
pub fn referenced(name: &[u8]) -> Option<char>
    ensures { result ≡ referenced name.now }
{
    match after(name, b"#x") {
        Some(digits) => numbered(16, digits),
        None => match after(name, b"#") {
            Some(digits) => numbered(10, digits),
            None => entity(name),
        },
    }
}

/// Reads a reference behind its `&`. Returns the character that it stands for, and what follows it.
#[tactic(auto, unfolding(crate::specs::References::reference_at))]
pub fn reference_at(text: &[u8]) -> Option<(char, &[u8])>
    ensures { option_map (λ x. (x.0, x.1.now)) result ≡ reference_at text.now }
{
    let (name, rest) = cut_at_byte(text, b';')?;
    Some((referenced(name)?, rest))
}
