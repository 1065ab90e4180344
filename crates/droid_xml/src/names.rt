//! Reads names of elements, attributes and processing instructions.

ghost use Rattle.std.specs.Prelude.{◌≡◌, ◌≤◌, length};
ghost use Rattle.std.specs.List.{list_all, prefix_len};
ghost use Rattle.std.specs.Option.{option_map};
ghost use Rattle.std.specs.Str.{chars};
ghost use Rattle.droid_xml.specs.Characters.{is_name_char};
ghost use Rattle.droid_xml.specs.Names.{is_name_byte, begins_name, are_of_name, name_at};

use crate::characters::{is_name_char, is_name_start};
use std::str;

/// Returns whether a name may have this byte. Every byte of a character beyond ASCII passes here: `are_of_name` judges
/// those.
fn is_name_byte(byte: u8) -> bool
    ensures { result ≡ is_name_byte byte }
{
    byte >= 128 || is_name_char(u32::from(byte))
}

/// Counts the bytes at the front that a name may have. Whether they are a name is not checked here.
fn name_len(text: &[u8]) -> usize
    ensures count { result ≡ prefix_len is_name_byte text.now }
    ensures bound { result ≤ length text.now }
{
    for (place, byte) in text.iter().enumerate() {
        if !is_name_byte(*byte) {
            return place;
        }
    }
    text.len()
}

/// Returns whether the text is a name: at least one character, and each of them allowed in its place.
fn are_of_name(text: &str) -> bool
    ensures { result ≡ are_of_name (chars text.now) }
{
    if begins_name(text) {
        are_name_chars(text)
    } else {
        false
    }
}

/// Returns whether a name may begin with the first character, if there is one.
fn begins_name(text: &str) -> bool
    ensures { result ≡ begins_name (chars text.now) }
{
    match text.chars().next() {
        Some(first) => is_name_start(u32::from(first)),
        None => false,
    }
}

/// Returns whether a name may have each of the characters.
fn are_name_chars(text: &str) -> bool
    ensures { result ≡ list_all is_name_char (chars text.now) }
{
    text.chars().all(|c| is_name_char(u32::from(c)))
}

/// Returns the name at the front, and what follows it. `None`: the bytes there are no name, or no UTF-8.
#[tactic(auto, unfolding(crate::specs::Names::name_at))]
pub fn name_at(text: &[u8]) -> Option<(&str, &[u8])>
    ensures { option_map (λ x. (x.0.now, x.1.now)) result ≡ name_at text.now }
{
    let length = name_len(text);
    let Ok(name) = str::from_utf8(&text[..length]) else {
        return None;
    };
    if are_of_name(name) {
        Some((name, &text[length..]))
    } else {
        None
    }
}
