//! Finds the least offset at which a byte sequence matches. An offset counts from the beginning of the bytes if the
//! anchor of the sequence is `Bof`, and from their end if it is `Eof`: its end of the bytes.

ghost use Rattle.std.specs.Prelude.{◌≡◌, ◌≤◌, ◌↔◌, IfOk, IfSome, IsTrue, MatchOption, length};
ghost use Rattle.droid_pattern.specs.ClassCaches.{AreOf};
ghost use Rattle.droid_identity.specs.Spans.{Between, IsFirst, IsLeast, beyond};

use droid_pattern::ClassCache;
use droid_pronom::{Anchor, ByteSequence};
use std::alloc::{AllocError, Global};

/// How many offsets are searched first. Twice as many are searched after them, and so on. For speed; no clause needs
/// the number.
const FIRST_OFFSETS: usize = 256;

/// Returns whether the byte sequence matches in these bytes at an offset from `low` to `high`, whatever its own offsets
/// are. `classes` caches what is known of these bytes.
pub(crate) fn is_between(
    alloc: Global,
    sequence: &ByteSequence,
    bytes: &[u8],
    low: usize,
    high: usize,
    classes: &mut ClassCache,
) -> Result<bool, AllocError>
    requires { AreOf bytes.now classes.old }
    ensures classes { AreOf bytes.now classes.new }
    ensures found { IfOk result (λ found. IsTrue found
        ↔ Between sequence.now.offsets.anchor sequence.now.pattern bytes.now low high) }
{
    match sequence.offsets.anchor {
        Anchor::Bof => sequence
            .pattern
            .begins_with(alloc, bytes, low, high, classes),
        Anchor::Eof => sequence.pattern.ends_with(alloc, bytes, low, high, classes),
    }
}

/// Returns the bytes without the first `count` at one end: at the beginning for `Bof`, at the end for `Eof`.
pub(crate) fn beyond(anchor: Anchor, bytes: &[u8], count: usize) -> &[u8]
    requires { count ≤ length bytes.now }
    ensures bytes { result.now ≡ beyond anchor bytes.now count }
{
    match anchor {
        Anchor::Bof => &bytes[count..],
        Anchor::Eof => &bytes[..bytes.len() - count],
    }
}

/// Returns the least offset from `low` to `high` at which the byte sequence matches, or `None` if it matches at none.
///
/// For speed, each search sees only the bytes from its first offset on: a match near `low` costs little.
pub(crate) fn first_offset(
    alloc: Global,
    sequence: &ByteSequence,
    bytes: &[u8],
    low: usize,
    high: usize,
) -> Result<Option<usize>, AllocError>
    ensures first { IfOk result (λ found. MatchOption found
        (¬ (Between sequence.now.offsets.anchor sequence.now.pattern bytes.now low high))
        (IsFirst sequence.now.offsets.anchor sequence.now.pattern bytes.now low high)) }
    ensures inside { IfOk result (λ found. IfSome found (λ offset. offset ≤ length bytes.now)) }
{
    let last = high.min(bytes.len());
    let mut from = low;
    let mut count = FIRST_OFFSETS;
    while from <= last {
        let most = count.min(last - from);
        let rest = beyond(sequence.offsets.anchor, bytes, from);
        let found = first_within(alloc, sequence, rest, most)?;
        match found {
            Some(offset) => return Ok(Some(from + offset)),
            None => {}
        }
        from += most + 1;
        count = count.saturating_mul(2);
    }
    Ok(None)
}

/// Returns the least offset from 0 to `high` at which the byte sequence matches, or `None` if it matches at none. For
/// one part of the bytes, as `first_offset` cuts them.
fn first_within(
    alloc: Global,
    sequence: &ByteSequence,
    bytes: &[u8],
    high: usize,
) -> Result<Option<usize>, AllocError>
    ensures { IfOk result (λ found. MatchOption found
        (¬ (Between sequence.now.offsets.anchor sequence.now.pattern bytes.now 0 high))
        (IsFirst sequence.now.offsets.anchor sequence.now.pattern bytes.now 0 high)) }
{
    let mut classes = ClassCache::new(alloc);
    if !is_between(alloc, sequence, bytes, 0, high, &mut classes)? {
        return Ok(None);
    }
    let offset = least_offset(alloc, sequence, bytes, high, &mut classes)?;
    Ok(Some(offset))
}

/// Returns the least offset from 0 to `high` at which the byte sequence matches, by halving the range. The caller knows
/// that it matches at one of them.
fn least_offset(
    alloc: Global,
    sequence: &ByteSequence,
    bytes: &[u8],
    high: usize,
    classes: &mut ClassCache,
) -> Result<usize, AllocError>
    requires classes { AreOf bytes.now classes.old }
    requires some { Between sequence.now.offsets.anchor sequence.now.pattern bytes.now 0 high }
    ensures { IfOk result (IsFirst sequence.now.offsets.anchor sequence.now.pattern bytes.now 0 high) }
{
    let mut least = 0;
    let mut most = high;
    while least < most {
        let middle = least + (most - least) / 2;
        if is_between(alloc, sequence, bytes, least, middle, classes)? {
            most = middle;
        } else {
            least = middle + 1;
        }
    }
    Ok(least)
}
