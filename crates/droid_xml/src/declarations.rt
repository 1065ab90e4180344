//! Reads the XML declaration (`<?xml version="1.0" encoding="UTF-8"?>`), and judges the encoding that it declares.

ghost use Rattle.std.specs.Prelude.{◌≡◌, ◌==◌};
ghost use Rattle.std.specs.List.{list_all};
ghost use Rattle.std.specs.Option.{option_map};
ghost use Rattle.std.specs.Str.{bytes_eq};
ghost use Rattle.droid_xml.specs.Declarations.{is_word_byte, word_by, word_at, declared_at, declared_or, is_yes_or_no};
ghost use Rattle.droid_xml.specs.Declarations.{declaration_end, behind_version, declaration_at, declaration_start};
ghost use Rattle.droid_xml.specs.Declarations.{are_ascii, is_readable};

use crate::bytes::{after, cut_at_byte, past_some_space, past_spaces};

/// Returns whether a declared word may have this byte: an ASCII letter or digit, `.`, `-` or `_`.
fn is_word_byte(byte: u8) -> bool
    ensures { result ≡ is_word_byte byte }
{
    matches!(byte, b'A'..=b'Z' | b'a'..=b'z' | b'0'..=b'9' | b'.' | b'-' | b'_')
}

/// Returns whether a declared word may have each of these bytes. So it may be empty.
fn is_word(bytes: &[u8]) -> bool
    ensures { result ≡ list_all is_word_byte bytes.now }
{
    bytes.iter().all(|byte| is_word_byte(*byte))
}

/// Reads a declared word behind its first quote, up to the next `quote`. Returns it and what follows that quote.
#[tactic(auto, unfolding(crate::specs::Declarations::word_by))]
fn word_by(text: &[u8], quote: u8) -> Option<(&[u8], &[u8])>
    ensures { option_map (λ x. (x.0.now, x.1.now)) result ≡ word_by quote text.now }
{
    let (word, rest) = cut_at_byte(text, quote)?;
    if is_word(word) {
        Some((word, rest))
    } else {
        None
    }
}

/// Reads a declared word in either kind of quotes. Returns it and what follows it.
#[tactic(auto, unfolding(crate::specs::Declarations::word_at))]
fn word_at(text: &[u8]) -> Option<(&[u8], &[u8])>
    ensures { option_map (λ x. (x.0.now, x.1.now)) result ≡ word_at text.now }
{
    match text {
        [b'"', rest @ ..] => word_by(rest, b'"'),
        [b'\'', rest @ ..] => word_by(rest, b'\''),
        _ => None,
    }
}

/// Reads white space, and then what is declared under a name, as in ` encoding="UTF-8"`. Returns the word without its
/// quotes, and what follows it.
#[tactic(auto, unfolding(crate::specs::Declarations::declared_at))]
fn declared_at<'a>(text: &'a [u8], name: &[u8]) -> Option<(&'a [u8], &'a [u8])>
    ensures { option_map (λ x. (x.0.now, x.1.now)) result ≡ declared_at name.now text.now }
{
    let start = past_some_space(text)?;
    let behind = after(start, name)?;
    let rest = after(past_spaces(behind), b"=")?;
    word_at(past_spaces(rest))
}

/// Reads what is declared under a name, and returns the word and what follows it. If it is missing or wrong, returns
/// the default and the whole text: what is wrong then stands where the declaration has to end.
#[tactic(auto, unfolding(crate::specs::Declarations::declared_or))]
fn declared_or<'a>(text: &'a [u8], name: &[u8], default: &'a [u8]) -> (&'a [u8], &'a [u8])
    ensures { (result.0.now, result.1.now) ≡ declared_or default.now name.now text.now }
{
    match declared_at(text, name) {
        Some(found) => found,
        None => (default, text),
    }
}

/// Returns whether the word is `yes` or `no`, which are all that `standalone` may be.
fn is_yes_or_no(word: &[u8]) -> bool
    ensures { result ≡ is_yes_or_no word.now }
{
    word == b"yes".as_slice() || word == b"no".as_slice()
}

/// Reads the end of a declaration, `?>`. Returns what follows it, if `standalone` is one of its two words.
#[tactic(auto, unfolding(crate::specs::Declarations::declaration_end))]
fn declaration_end<'a>(standalone: &[u8], text: &'a [u8]) -> Option<&'a [u8]>
    ensures { option_map (λ x. x.now) result ≡ declaration_end (standalone.now, text.now) }
{
    let rest = after(past_spaces(text), b"?>")?;
    if is_yes_or_no(standalone) {
        Some(rest)
    } else {
        None
    }
}

/// Reads a declaration behind its `<?xml`. Returns the encoding that it declares, and what follows it.
#[tactic(auto, unfolding(crate::specs::Declarations::declaration_at, crate::specs::Declarations::behind_version))]
pub fn declaration_at(text: &[u8]) -> Option<(&[u8], &[u8])>
    ensures { option_map (λ x. (x.0.now, x.1.now)) result ≡ declaration_at text.now }
{
    let (_, rest) = declared_at(text, b"version")?;
    let (encoding, rest) = declared_or(rest, b"encoding", b"UTF-8");
    let (standalone, rest) = declared_or(rest, b"standalone", b"no");
    Some((encoding, declaration_end(standalone, rest)?))
}

/// Returns what follows `<?xml`, if white space follows. `None`: there is no declaration; an instruction such as
/// `<?xml-stylesheet` is none.
#[tactic(auto, unfolding(crate::specs::Declarations::declaration_start, crate::specs::Bytes::past_some_space))]
pub fn declaration_start(text: &[u8]) -> Option<&[u8]>
    ensures { option_map (λ x. x.now) result ≡ declaration_start text.now }
{
    let rest = after(text, b"<?xml")?;
    if past_some_space(rest).is_some() {
        Some(rest)
    } else {
        None
    }
}

/// Returns whether the bytes, declared to be in this encoding, can be read as UTF-8: it is UTF-8, or US-ASCII and each
/// byte is ASCII. The case of its letters doesn't matter. Whether the bytes are UTF-8 is checked piece by piece.
#[tactic(auto, unfolding(crate::specs::Declarations::is_readable))]
pub fn is_readable(encoding: &[u8], text: &[u8]) -> bool
    ensures { result ≡ is_readable encoding.now text.now }
{
    if encoding.eq_ignore_ascii_case(b"utf-8") {
        return true;
    }
    if encoding.eq_ignore_ascii_case(b"us-ascii") {
        return are_ascii(text);
    }
    false
}

/// Returns whether each byte is ASCII.
fn are_ascii(text: &[u8]) -> bool
    ensures { result ≡ are_ascii text.now }
{
    text.iter().all(|byte| *byte < 128)
}
