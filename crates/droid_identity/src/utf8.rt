//! Whether bytes are UTF-8 text: all together, or but for a character that is cut off at one end.
//!
//! A character has at most four bytes, so at most three bytes of one that is cut off are left. The number stands in
//! `specs/TextKinds.antt` too, and the prover ties them.

ghost use Rattle.std.specs.Prelude.{◌≡◌, ◌-◌, chars, drop, length, take};
ghost use Rattle.std.specs.List.{list_all};
ghost use Rattle.droid_identity.specs.TextKinds.{is_text_char, is_utf8_text, is_utf8_front, is_utf8_back};

use crate::ascii::is_usual;
use crate::parts::after;

/// Returns whether a character may stand in text: it is no control character, or a usual one (`is_usual` of `ascii`).
#[tactic(auto, unfolding(crate::specs::TextKinds::is_text_char))]
fn is_text_char(letter: char) -> bool
    ensures { result ≡ is_text_char letter }
{
    !letter.is_control() || is_usual(u32::from(letter))
}

/// Returns whether all characters of the text may stand in text; of the empty one they do.
fn are_text_chars(text: &str) -> bool
    ensures { result ≡ list_all is_text_char (chars text.now) }
{
    text.chars().all(|letter| is_text_char(letter))
}

/// Returns whether all bytes together are UTF-8, and each character may stand in text. No bytes are text.
#[tactic(auto, using(crate::proofs::TextLemmas::text_is, crate::proofs::TextLemmas::no_text))]
pub(crate) fn is_utf8_text(bytes: &[u8]) -> bool
    ensures { result ≡ is_utf8_text bytes.now }
{
    match std::str::from_utf8(bytes) {
        Ok(text) => are_text_chars(text),
        Err(_) => false,
    }
}

/// Returns whether the bytes are UTF-8 text without the last `few`. If there are fewer, nothing is left, which is text.
fn is_text_without_last(bytes: &[u8], few: usize) -> bool
    ensures { result ≡ is_utf8_text (take (length bytes.now - few) bytes.now) }
{
    is_utf8_text(&bytes[..bytes.len().saturating_sub(few)])
}

/// Returns whether the bytes are UTF-8 text without the first `few`. If there are fewer, nothing is left, which is
/// text.
fn is_text_without_first(bytes: &[u8], few: usize) -> bool
    ensures { result ≡ is_utf8_text (drop few bytes.now) }
{
    is_utf8_text(after(bytes, few))
}

/// Returns whether the bytes, the first of a longer file, are UTF-8 text but for at most three bytes at their end.
#[tactic(auto, unfolding(crate::specs::TextKinds::is_utf8_front))]
pub(crate) fn is_utf8_front(bytes: &[u8]) -> bool
    ensures { result ≡ is_utf8_front bytes.now }
{
    is_utf8_text(bytes)
        || is_text_without_last(bytes, 1)
        || is_text_without_last(bytes, 2)
        || is_text_without_last(bytes, 3)
}

/// Returns whether the bytes, the last of a longer file, are UTF-8 text but for at most three bytes at their beginning.
#[tactic(auto, unfolding(crate::specs::TextKinds::is_utf8_back))]
pub(crate) fn is_utf8_back(bytes: &[u8]) -> bool
    ensures { result ≡ is_utf8_back bytes.now }
{
    is_utf8_text(bytes)
        || is_text_without_first(bytes, 1)
        || is_text_without_first(bytes, 2)
        || is_text_without_first(bytes, 3)
}
