//! Readers of texts, each after its length in one byte, from the front of the bytes. Lists of a filter's criteria and
//! of a Finished's identifiers are such texts.

ghost use Rattle.std.specs.Prelude.{◌≡◌};
ghost use Rattle.std.specs.Option.{option_map};
ghost use Rattle.droid_frame.specs.Outcomes.{Gives};
ghost use Rattle.droid_frame.specs.Reading.{text_at};
ghost use Rattle.droid_frame.specs.TextListFields.{sized_at, sized_text_at, texts_at};

use crate::body_fault::BodyFault;
use crate::text::Text;
use crate::texts::Texts;
use std::alloc::Global;

/// Skips `count` texts of `least` to `most` bytes each, and returns the bytes after them. `None` if there are fewer, or
/// one has another length or is not UTF-8. Allocates nothing.
pub(crate) fn after_texts(count: usize, least: u8, most: u8, bytes: &[u8]) -> Option<&[u8]>
    ensures { option_map (λ rest. rest.now) result ≡ option_map (λ x. x.1) (texts_at count least most bytes.now) }
{
    let mut rest = bytes;
    for _ in 0..count {
        let (_, after) = sized_str_at(least, most, rest)?;
        rest = after;
    }
    Some(rest)
}

/// Reads `count` texts of `least` to `most` bytes each, and returns them and the bytes after them. It allocates as it
/// reads, so callers check the bytes with [`after_texts`] first. `Malformed` where [`after_texts`] returns `None`;
/// `Memory` if memory runs out.
pub(crate) fn texts_at(
    alloc: Global,
    count: usize,
    least: u8,
    most: u8,
    bytes: &[u8],
) -> Result<(Texts, &[u8]), BodyFault>
    ensures { Gives (λ x. (x.0, x.1.now)) result (texts_at count least most bytes.now) }
{
    let mut texts = Texts::new(alloc);
    let mut rest = bytes;
    for _ in 0..count {
        let (text, after) = sized_text_at(alloc, least, most, rest)?;
        texts.push(text)?;
        rest = after;
    }
    Ok((texts, rest))
}

/// Reads a text of `least` to `most` bytes and copies it. `Malformed` if the bytes have none at their front, `Memory`
/// if memory runs out.
fn sized_text_at(
    alloc: Global,
    least: u8,
    most: u8,
    bytes: &[u8],
) -> Result<(Text, &[u8]), BodyFault>
    ensures { Gives (λ x. (x.0, x.1.now)) result (sized_text_at least most bytes.now) }
{
    let (text, rest) = sized_str_at(least, most, bytes).ok_or(BodyFault::Malformed)?;
    Ok((Text::copy_of(alloc, text)?, rest))
}

/// Reads a text of `least` to `most` bytes, without a copy. `None` if its length is another, if fewer bytes are left,
/// or if they are not UTF-8.
#[tactic(auto, unfolding(crate::specs::TextListFields::sized_text_at))]
fn sized_str_at(least: u8, most: u8, bytes: &[u8]) -> Option<(&str, &[u8])>
    ensures { option_map (λ x. (x.0.now, x.1.now)) result ≡ sized_text_at least most bytes.now }
{
    let (text, rest) = sized_at(least, most, bytes)?;
    let text = str_of(text)?;
    Some((text, rest))
}

/// Reads `least` to `most` bytes behind their length in one byte. `None` if the length is another, or if fewer bytes
/// are left.
#[tactic(auto, unfolding(crate::specs::TextListFields::sized_at))]
fn sized_at(least: u8, most: u8, bytes: &[u8]) -> Option<(&[u8], &[u8])>
    ensures { option_map (λ x. (x.0.now, x.1.now)) result ≡ sized_at least most bytes.now }
{
    let [size, rest @ ..] = bytes else {
        return None;
    };
    if *size < least {
        return None;
    }
    if *size > most {
        return None;
    }
    rest.split_at_checked(usize::from(*size))
}

/// Returns all these bytes as a text, or `None` if they are not UTF-8.
fn str_of(bytes: &[u8]) -> Option<&str>
    ensures { option_map (λ text. text.now) result ≡ text_at bytes.now }
{
    match str::from_utf8(bytes) {
        Ok(text) => Some(text),
        Err(_) => None,
    }
}
