//! Writes ranges of several bytes out byte by byte: as patterns whose elements are single bytes and ranges of one byte.
//! Where memory runs out, nothing is promised of `texts`: `range_texts` drops it.

ghost use Rattle.std.specs.Prelude.{◌≡◌, ◌≢◌, ◌≤◌, ◌++◌, ◌∷◌, [], IfOk, OnOk};
ghost use Rattle.droid_signature_file.specs.Expansions.{any_bytes, ranges, upward_from, up_to, range_before};
ghost use Rattle.droid_signature_pattern.specs.Written.{behind, pair, written_all, written_each};

use crate::element_texts::{push_byte, push_range};
use crate::pattern_texts::PatternTexts;
use std::alloc::{AllocError, Global};

/// Returns the texts that match the bytes from one bound to the other, both included. Both are big-endian numbers of as
/// many bytes.
pub(crate) fn range_texts(
    alloc: Global,
    low: &[u8],
    high: &[u8],
) -> Result<PatternTexts, AllocError>
    ensures { IfOk result (λ texts. texts ≡ written_each (ranges low.now high.now)) }
{
    let mut texts = PatternTexts::new(alloc);
    let front = Vec::new(alloc);
    add_ranges(alloc, &mut texts, front.as_slice(), low, high)?;
    Ok(texts)
}

/// Adds the texts of the bytes from one bound to the other, each behind the text `front` of the bytes before.
fn add_ranges(
    alloc: Global,
    texts: &mut PatternTexts,
    front: &[u8],
    low: &[u8],
    high: &[u8],
) -> Result<(), AllocError>
    ensures { OnOk result (texts.new ≡ texts.old ++ behind front.now (ranges low.now high.now)) }
{
    let Some((l, lower)) = low.split_first() else {
        add_if_none(alloc, texts, front, high)?;
        return Ok(());
    };
    let Some((h, higher)) = high.split_first() else {
        return Ok(());
    };
    if *l != *h {
        add_apart(alloc, texts, front, *l, lower, *h, higher)?;
        return Ok(());
    }
    let text = with_byte(alloc, front, *l)?;
    add_ranges(alloc, texts, text.as_slice(), lower, higher)?;
    Ok(())
}

/// Adds the text `front` if the upper bound, of which `more` is left, ends where the lower one did. Bounds of different
/// lengths have no texts.
fn add_if_none(
    alloc: Global,
    texts: &mut PatternTexts,
    front: &[u8],
    more: &[u8],
) -> Result<(), AllocError>
    ensures { OnOk result (texts.new ≡ texts.old ++ behind front.now (ranges [] more.now)) }
{
    if more.is_empty() {
        texts.add(Vec::from_slice(alloc, front)?)?;
    }
    Ok(())
}

/// Adds the texts of the bytes between two bounds whose first bytes, `l` and `h`, differ, behind a text.
fn add_apart(
    alloc: Global,
    texts: &mut PatternTexts,
    front: &[u8],
    l: u8,
    lower: &[u8],
    h: u8,
    higher: &[u8],
) -> Result<(), AllocError>
    requires { l ≢ h }
    ensures { OnOk result (texts.new ≡ texts.old ++ behind front.now (ranges (l ∷ lower.now) (h ∷ higher.now))) }
{
    let least = with_byte(alloc, front, l)?;
    add_upward(alloc, texts, least.as_slice(), lower)?;
    add_between(
        alloc,
        texts,
        front,
        u16::from(l) + 1,
        u16::from(h),
        lower.len(),
    )?;
    let most = with_byte(alloc, front, h)?;
    add_up_to(alloc, texts, most.as_slice(), higher)?;
    Ok(())
}

/// Adds the texts of as many bytes as these, that are no less as a big-endian number, behind the text `front`.
fn add_upward(
    alloc: Global,
    texts: &mut PatternTexts,
    front: &[u8],
    low: &[u8],
) -> Result<(), AllocError>
    ensures { OnOk result (texts.new ≡ texts.old ++ behind front.now (upward_from low.now)) }
{
    let Some((l, lower)) = low.split_first() else {
        texts.add(Vec::from_slice(alloc, front)?)?;
        return Ok(());
    };
    let text = with_byte(alloc, front, *l)?;
    add_upward(alloc, texts, text.as_slice(), lower)?;
    add_between(alloc, texts, front, u16::from(*l) + 1, 256, lower.len())?;
    Ok(())
}

/// Adds the texts of as many bytes as these, that are no more as a big-endian number, behind the text `front`.
fn add_up_to(
    alloc: Global,
    texts: &mut PatternTexts,
    front: &[u8],
    high: &[u8],
) -> Result<(), AllocError>
    ensures { OnOk result (texts.new ≡ texts.old ++ behind front.now (up_to high.now)) }
{
    let Some((h, higher)) = high.split_first() else {
        texts.add(Vec::from_slice(alloc, front)?)?;
        return Ok(());
    };
    add_between(alloc, texts, front, 0, u16::from(*h), higher.len())?;
    let text = with_byte(alloc, front, *h)?;
    add_up_to(alloc, texts, text.as_slice(), higher)?;
    Ok(())
}

/// Adds the text of a byte from `low` on and less than `end`, and `count` bytes behind it, behind a text. Adds nothing
/// if there is no such byte. Both are wider than a byte, since `end` is 256 where no byte is too large, and `low` may
/// be one more than a byte.
fn add_between(
    alloc: Global,
    texts: &mut PatternTexts,
    front: &[u8],
    low: u16,
    end: u16,
    count: usize,
) -> Result<(), AllocError>
    requires { end ≤ 256 }
    ensures { OnOk result (texts.new ≡ texts.old ++ behind front.now (range_before low end count)) }
{
    if low >= end {
        return Ok(());
    }
    let mut text = Vec::from_slice(alloc, front)?;
    push_range(&mut text, low as u8, (end - 1) as u8)?;
    push_any(&mut text, count)?;
    texts.add(text)?;
    Ok(())
}

/// Appends `count` bytes, any of them, each as the range of all bytes.
fn push_any(text: &mut Vec<u8>, count: usize) -> Result<(), AllocError>
    ensures { OnOk result (text.new.items ≡ text.old.items ++ written_all (any_bytes count)) }
{
    for place in 0..count {
        let _ = place;
        push_range(text, 0, 255)?;
    }
    Ok(())
}

/// Copies the text of a pattern and appends the element that matches this byte: its two hexadecimal digits.
fn with_byte(alloc: Global, front: &[u8], byte: u8) -> Result<Vec<u8>, AllocError>
    ensures { IfOk result (λ text. text.items ≡ front.now ++ pair byte) }
{
    let mut text = Vec::from_slice(alloc, front)?;
    push_byte(&mut text, byte)?;
    Ok(text)
}
