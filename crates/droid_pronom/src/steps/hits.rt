//! Finds the formats whose signatures hit.

ghost use Rattle.std.specs.Prelude.{◌≡◌, ◌↔◌, ◌<◌, IsTrue, IfOk, length};
ghost use Rattle.std.specs.List.{AllByRecursion};
ghost use Rattle.droid_pattern.specs.ClassCaches.{AreOf};
ghost use Rattle.droid_pronom.specs.Registry.{AnyOf};
ghost use Rattle.droid_pronom.specs.FoundWindows.{HitsWindows, AreFlagsOf};

use crate::rows::{Anchor, ByteSequence, Signature};
use droid_pattern::ClassCache;
use std::alloc::{AllocError, Global};

/// Returns whether the byte sequence matches at one of its offsets, in the file's first or last bytes, as its anchor
/// says. `begin` and `end` are the caches for the first and for the last bytes.
fn hits(
    alloc: Global,
    sequence: &ByteSequence,
    first: &[u8],
    last: &[u8],
    begin: &mut ClassCache,
    end: &mut ClassCache,
) -> Result<bool, AllocError>
    requires begin { AreOf first.now begin.old }
    requires end { AreOf last.now end.old }
    ensures begin { AreOf first.now begin.new }
    ensures end { AreOf last.now end.new }
    ensures found { IfOk result (λ found. IsTrue found ↔ HitsWindows first.now last.now sequence.now) }
{
    let min = sequence.offsets.min as usize;
    let max = sequence.offsets.max as usize;
    match sequence.offsets.anchor {
        Anchor::Bof => sequence.pattern.begins_with(alloc, first, min, max, begin),
        Anchor::Eof => sequence.pattern.ends_with(alloc, last, min, max, end),
    }
}

/// Returns whether all byte sequences hit; stops at the first that does not.
fn all_hit(
    alloc: Global,
    sequences: &[ByteSequence],
    first: &[u8],
    last: &[u8],
    begin: &mut ClassCache,
    end: &mut ClassCache,
) -> Result<bool, AllocError>
    requires begin { AreOf first.now begin.old }
    requires end { AreOf last.now end.old }
    ensures begin { AreOf first.now begin.new }
    ensures end { AreOf last.now end.new }
    ensures found { IfOk result (λ found.
        IsTrue found ↔ AllByRecursion (HitsWindows first.now last.now) sequences.now) }
{
    for sequence in sequences {
        if !hits(alloc, sequence, first, last, begin, end)? {
            return Ok(false);
        }
    }
    Ok(true)
}

/// Returns, for each of `count` formats, whether it hits: all byte sequences of one of its signatures do.
pub fn hit_formats(
    alloc: Global,
    count: usize,
    signatures: &[Signature],
    first: &[u8],
    last: &[u8],
) -> Result<Vec<bool>, AllocError>
    requires { AllByRecursion (λ signature. signature.place < count) signatures.now }
    ensures len { IfOk result (λ hit. length hit.items ≡ count) }
    ensures each { IfOk result (λ hit.
        AreFlagsOf hit.items (λ k.
        AnyOf (λ signature. (signature.place ≡ k) × AllByRecursion (HitsWindows first.now last.now) signature.sequences)
        signatures.now)) }
{
    let mut begin = ClassCache::new(alloc);
    let mut end = ClassCache::new(alloc);
    let mut hit = vec![in alloc; false; count]?;
    for signature in signatures {
        // The test that passes over most signatures stands first.
        if signature.is_ruled_out(first) {
            continue;
        }
        let place = signature.place() as usize;
        // For speed: one signature is enough.
        if hit[place] {
            continue;
        }
        if all_hit(
            alloc,
            signature.sequences(),
            first,
            last,
            &mut begin,
            &mut end,
        )? {
            hit[place] = true;
        }
    }
    Ok(hit)
}
