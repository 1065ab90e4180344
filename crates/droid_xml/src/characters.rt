//! The characters that a document and its names may have.

ghost use Rattle.std.specs.Prelude.{◌≡◌};
ghost use Rattle.std.specs.List.{list_all};
ghost use Rattle.std.specs.Option.{option_map};
ghost use Rattle.std.specs.Str.{chars};
ghost use Rattle.droid_xml.specs.Characters.{is_char, is_name_start, is_name_char, text_in};

use std::str;

/// Returns whether a document may have the character of this number in Unicode. It may not have the controls below
/// U+0020 other than tab, line feed and carriage return, nor surrogates, U+FFFE and U+FFFF.
pub fn is_char(c: u32) -> bool
    ensures { result ≡ is_char c }
{
    matches!(c, 0x9 | 0xA | 0xD | 0x20..=0xD7FF | 0xE000..=0xFFFD | 0x1_0000..=0x10_FFFF)
}

/// Returns whether a name may begin with the character of this number. The ranges are those of XML 1.0, fifth edition.
#[tactic(auto, unfolding(crate::specs::Characters::is_name_start))]
pub fn is_name_start(c: u32) -> bool
    ensures { result ≡ is_name_start c }
{
    matches!(
        c,
        58 | 65..=90
            | 95
            | 97..=122
            | 0xC0..=0xD6
            | 0xD8..=0xF6
            | 0xF8..=0x2FF
            | 0x370..=0x37D
            | 0x37F..=0x1FFF
            | 0x200C..=0x200D
            | 0x2070..=0x218F
            | 0x2C00..=0x2FEF
            | 0x3001..=0xD7FF
            | 0xF900..=0xFDCF
            | 0xFDF0..=0xFFFD
            | 0x1_0000..=0xE_FFFF
    )
}

/// Returns whether a name may have the character of this number behind its first.
#[tactic(auto, unfolding(crate::specs::Characters::is_name_char))]
pub fn is_name_char(c: u32) -> bool
    ensures { result ≡ is_name_char c }
{
    is_name_start(c) || matches!(c, 45 | 46 | 48..=57 | 0xB7 | 0x300..=0x36F | 0x203F..=0x2040)
}

/// Returns the bytes as a text. `None`: they are no UTF-8, or have a character that a document may not have.
#[tactic(auto, unfolding(crate::specs::Characters::text_in))]
pub fn text_in(bytes: &[u8]) -> Option<&str>
    ensures { option_map (λ x. x.now) result ≡ text_in bytes.now }
{
    let Ok(text) = str::from_utf8(bytes) else {
        return None;
    };
    if are_chars(text) { Some(text) } else { None }
}

/// Returns whether a document may have each character of the text.
fn are_chars(text: &str) -> bool
    ensures { result ≡ list_all is_char (chars text.now) }
{
    text.chars().all(|c| is_char(u32::from(c)))
}
