//! Finds the shortest match of a byte sequence at the beginning or the end of some bytes.

ghost use Rattle.std.specs.Prelude.{◌≡◌, ◌≤◌, ◌↔◌, IfOk, IsTrue, length};
ghost use Rattle.droid_identity.specs.Spans.{Between, Reaches, IsReach, near};

use crate::search::is_between;
use droid_pattern::ClassCache;
use droid_pronom::{Anchor, ByteSequence};
use std::alloc::{AllocError, Global};

/// How many bytes are searched first. If the match lies not within them, twice as many are searched, and so on. For
/// speed; no clause needs the number.
const FIRST_TRY: usize = 32;

/// Returns the `reach` bytes at one end: the first ones for `Bof`, the last ones for `Eof`.
fn near(anchor: Anchor, bytes: &[u8], reach: usize) -> &[u8]
    requires { reach ≤ length bytes.now }
    ensures bytes { result.now ≡ near anchor bytes.now reach }
{
    match anchor {
        Anchor::Bof => &bytes[..reach],
        Anchor::Eof => &bytes[bytes.len() - reach..],
    }
}

/// Returns whether the byte sequence has a match that begins (for `Eof`: ends) right at its end of the bytes, and has
/// at most `reach` bytes.
fn reaches(
    alloc: Global,
    sequence: &ByteSequence,
    bytes: &[u8],
    reach: usize,
) -> Result<bool, AllocError>
    requires { reach ≤ length bytes.now }
    ensures { IfOk result (λ found. IsTrue found
        ↔ Reaches sequence.now.offsets.anchor sequence.now.pattern bytes.now 0 reach) }
{
    let mut classes = ClassCache::new(alloc);
    let cut = near(sequence.offsets.anchor, bytes, reach);
    is_between(alloc, sequence, cut, 0, 0, &mut classes)
}

/// Returns a number of bytes within which the byte sequence matches at its end of the bytes; not always the least one.
/// The caller knows that it matches there.
fn some_reach(alloc: Global, sequence: &ByteSequence, bytes: &[u8]) -> Result<usize, AllocError>
    requires { Between sequence.now.offsets.anchor sequence.now.pattern bytes.now 0 0 }
    ensures inside { IfOk result (λ reach. reach ≤ length bytes.now) }
    ensures there { IfOk result (Reaches sequence.now.offsets.anchor sequence.now.pattern bytes.now 0) }
{
    let mut reach = FIRST_TRY;
    while reach < bytes.len() {
        if reaches(alloc, sequence, bytes, reach)? {
            return Ok(reach);
        }
        reach = reach.saturating_mul(2);
    }
    Ok(bytes.len())
}

/// Returns how many bytes the shortest match at its end of the bytes has. The caller knows that the byte sequence
/// matches there.
pub(crate) fn least_reach(
    alloc: Global,
    sequence: &ByteSequence,
    bytes: &[u8],
) -> Result<usize, AllocError>
    requires { Between sequence.now.offsets.anchor sequence.now.pattern bytes.now 0 0 }
    ensures { IfOk result (IsReach sequence.now.offsets.anchor sequence.now.pattern bytes.now 0) }
{
    let mut least = 0;
    let mut most = some_reach(alloc, sequence, bytes)?;
    while least < most {
        let middle = least + (most - least) / 2;
        if reaches(alloc, sequence, bytes, middle)? {
            most = middle;
        } else {
            least = middle + 1;
        }
    }
    Ok(least)
}
