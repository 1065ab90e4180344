//! Reads one item of a text: `61`, `??`, a gap, what stands in brackets, or quoted text. What is no item is `BadText`,
//! or `None` where reading it takes no memory.

ghost use Rattle.std.specs.Prelude.{◌≡◌, ℕ, List, length, nat_le, nat_lt, IfOk, IsErrOf, MatchOption, MatchBool};
ghost use Rattle.std.specs.Prelude.{Contains};
ghost use Rattle.std.specs.List.{list_all};
ghost use Rattle.droid_pattern.specs.Patterns.{Element, Range, Except};
ghost use Rattle.droid_pattern.specs.PatternText.{SpellsAlternative};
ghost use Rattle.droid_pattern.specs.Fronts.{SpellsInPair, SpellsInBraces, SpellsInBrackets};
ghost use Rattle.droid_signature_file.specs.Terms.{Atom, Outside, Between, number_after};
ghost use Rattle.droid_signature_file.specs.TermText.{AreBounds, SpellsAtom};
ghost use Rattle.droid_signature_pattern.specs.TermValues.{atom_of};
ghost use Rattle.droid_signature_pattern.specs.TextFronts.{IsOnlyFront, HasNoFront, InPair, InBraces, InBrackets};
ghost use Rattle.droid_signature_pattern.specs.TextFronts.{InQuotes};

use crate::term::TextItem;
use crate::text_fault::TextFault;
use droid_pattern::{byte_of, number_of, split_at_mark};
use std::alloc::Global;

/// Reads the first item of the text. Returns it and the text after it.
pub(crate) fn item_of(alloc: Global, text: &[u8]) -> Result<(TextItem, &[u8]), TextFault>
    ensures front { IfOk result (λ found. IsOnlyFront SpellsAtom text.now (atom_of found.0) found.1.now) }
    ensures bad { IsErrOf result TextFault.BadText → HasNoFront SpellsAtom text.now }
{
    let (first, after) = text.split_first().ok_or(TextFault::BadText)?;
    match *first {
        b'*' => {
            let any = TextItem::Gap {
                least: 0,
                most: None,
            };
            Ok((any, after))
        }
        b'{' => {
            let (body, rest) = split_at_mark(b'}', after).ok_or(TextFault::BadText)?;
            let item = gap_of(body).ok_or(TextFault::BadText)?;
            Ok((item, rest))
        }
        b'[' => {
            let (body, rest) = split_at_mark(b']', after).ok_or(TextFault::BadText)?;
            let item = class_of(alloc, body)?;
            Ok((item, rest))
        }
        b'\'' => {
            let (body, rest) = split_at_mark(b'\'', after).ok_or(TextFault::BadText)?;
            let item = quoted_of(alloc, body)?;
            Ok((item, rest))
        }
        first => {
            let (second, rest) = after.split_first().ok_or(TextFault::BadText)?;
            let item = item_of_pair(first, *second).ok_or(TextFault::BadText)?;
            Ok((item, rest))
        }
    }
}

/// Reads an item of two characters: `61` or `??`.
fn item_of_pair(first: u8, second: u8) -> Option<TextItem>
    ensures { MatchOption result ((e : Element) → SpellsInPair first second e → ⊥)
        (λ item. InPair first second (atom_of item)) }
{
    if first == b'?' && second == b'?' {
        return Some(TextItem::AnyByte);
    }
    let byte = byte_of(first, second)?;
    Some(TextItem::Byte(byte))
}

/// Reads the text between braces: `3`, `2-5` or `2-*`.
fn gap_of(body: &[u8]) -> Option<TextItem>
    ensures { MatchOption result ((e : Element) → SpellsInBraces body.now e → ⊥)
        (λ item. InBraces body.now (atom_of item)) }
{
    let Some((low, high)) = split_at_mark(b'-', body) else {
        let least = number_of(body)?;
        return Some(TextItem::Gap {
            least,
            most: Some(least),
        });
    };
    let least = number_of(low)?;
    if high == b"*".as_slice() {
        return Some(TextItem::Gap { least, most: None });
    }
    let most = number_of(high)?;
    if most < least {
        return None;
    }
    Some(TextItem::Gap {
        least,
        most: Some(most),
    })
}

/// Reads the text between brackets: `61:7A`, `!61`, `!61:7A` or `0100:0300`.
fn class_of(alloc: Global, body: &[u8]) -> Result<TextItem, TextFault>
    ensures spelled { IfOk result (λ item. InBrackets body.now (atom_of item)) }
    ensures bad { IsErrOf result TextFault.BadText → (a : Atom) → InBrackets body.now a → ⊥ }
{
    if let Some(byte) = except_of(body) {
        return Ok(TextItem::Except(byte));
    }
    if let Some((low, high)) = range_of(body) {
        return Ok(TextItem::Range { low, high });
    }
    if let Some((low, high)) = outside_of(body) {
        return Ok(TextItem::Outside { low, high });
    }
    several_of(alloc, body)
}

/// Reads the text between brackets of any byte but one: `!61`.
fn except_of(body: &[u8]) -> Option<u8>
    ensures { MatchOption result ((b : ℕ) → SpellsInBrackets body.now (Except b) → ⊥)
        (λ b. SpellsInBrackets body.now (Except b)) }
{
    match body {
        [b'!', high, low] => Some(byte_of(*high, *low)?),
        _ => None,
    }
}

/// Reads the text between brackets of a byte of a range: `61:7A`.
fn range_of(body: &[u8]) -> Option<(u8, u8)>
    ensures { MatchOption result ((low high : ℕ) → SpellsInBrackets body.now (Range low high) → ⊥)
        (λ range. SpellsInBrackets body.now (Range range.0 range.1)) }
{
    match body {
        [high, low, b':', high_to, low_to] => {
            let low = byte_of(*high, *low)?;
            let high = byte_of(*high_to, *low_to)?;
            if low <= high { Some((low, high)) } else { None }
        }
        _ => None,
    }
}

/// Reads the text between brackets of a byte outside a range: `!61:7A`. At least one byte has to be outside: of all
/// ranges only `00:FF` leaves none, and only its bounds are 255 apart.
fn outside_of(body: &[u8]) -> Option<(u8, u8)>
    ensures { MatchOption result ((low high : ℕ) → InBrackets body.now (Outside low high) → ⊥)
        (λ range. InBrackets body.now (Outside range.0 range.1)) }
{
    let (first, after) = body.split_first()?;
    if *first != b'!' {
        return None;
    }
    let (low, high) = range_of(after)?;
    if u16::from(high) >= u16::from(low) + 255 {
        return None;
    }
    Some((low, high))
}

/// Reads the text between brackets of a range of several bytes: `0100:0300`.
fn several_of(alloc: Global, body: &[u8]) -> Result<TextItem, TextFault>
    ensures spelled { IfOk result (λ item. InBrackets body.now (atom_of item)) }
    ensures bad { IsErrOf result TextFault.BadText → (low high : List ℕ) → InBrackets body.now (Between low high) → ⊥ }
{
    let (from, to) = split_at_mark(b':', body).ok_or(TextFault::BadText)?;
    let low = bytes_of(alloc, from)?;
    let high = bytes_of(alloc, to)?;
    if !are_bounds(low.as_slice(), high.as_slice()) {
        return Err(TextFault::BadText);
    }
    Ok(TextItem::Between { low, high })
}

/// Returns whether these are the bounds of a range of several bytes: two bytes or more, as many each, in order.
fn are_bounds(low: &[u8], high: &[u8]) -> bool
    ensures { MatchBool result (AreBounds low.now high.now) (AreBounds low.now high.now → ⊥) }
{
    if low.len() < 2 {
        return false;
    }
    if low.len() != high.len() {
        return false;
    }
    is_no_more(low, high)
}

/// Returns whether bytes are no more than others as big-endian numbers.
fn is_no_more(low: &[u8], high: &[u8]) -> bool
    requires { length low.now ≡ length high.now }
    ensures { result ≡ nat_le (number_after 0 low.now) (number_after 0 high.now) }
{
    for i in 0..low.len() {
        if low[i] != high[i] {
            return low[i] < high[i];
        }
    }
    true
}

/// Reads the text between quotes: one or more ASCII characters. 39 is the quote, at which the caller has split.
fn quoted_of(alloc: Global, body: &[u8]) -> Result<TextItem, TextFault>
    requires { Contains body.now 39 → ⊥ }
    ensures spelled { IfOk result (λ item. InQuotes body.now (atom_of item)) }
    ensures bad { IsErrOf result TextFault.BadText → (a : Atom) → InQuotes body.now a → ⊥ }
{
    if body.is_empty() {
        return Err(TextFault::BadText);
    }
    if !is_ascii(body) {
        return Err(TextFault::BadText);
    }
    let bytes = Vec::from_slice(alloc, body)?;
    Ok(TextItem::Quoted(bytes))
}

/// Returns whether all bytes are ASCII.
fn is_ascii(text: &[u8]) -> bool
    ensures { result ≡ list_all (λ c. nat_lt c 128) text.now }
{
    text.iter().all(|c| *c < 128)
}

/// Reads one or more bytes, each written as two hexadecimal digits: hence room for half as many bytes, which is for
/// speed.
fn bytes_of(alloc: Global, digits: &[u8]) -> Result<Vec<u8>, TextFault>
    ensures spelled { IfOk result (λ bytes. SpellsAlternative digits.now bytes.items) }
    ensures bad { IsErrOf result TextFault.BadText → (bs : List ℕ) → SpellsAlternative digits.now bs → ⊥ }
{
    if digits.is_empty() {
        return Err(TextFault::BadText);
    }
    let mut bytes = Vec::with_capacity(alloc, digits.len() / 2)?;
    let mut rest = digits;
    while let [high, low, after @ ..] = rest {
        let byte = byte_of(*high, *low).ok_or(TextFault::BadText)?;
        bytes.push(byte)?;
        rest = after;
    }
    if !rest.is_empty() {
        return Err(TextFault::BadText);
    }
    Ok(bytes)
}
