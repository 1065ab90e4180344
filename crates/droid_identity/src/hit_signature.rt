//! The signature by which a format is found, and its matches.

ghost use Rattle.std.specs.Prelude.{◌≡◌, ◌≤◌, IfOk, MatchOption, length};
ghost use Rattle.std.specs.List.{AllByRecursion};
ghost use Rattle.droid_pronom.specs.Registry.{AnyOf};
ghost use Rattle.droid_identity.specs.Matches.{HitsEnds, IsNearestOfEnds};
ghost use Rattle.droid_identity.specs.Bases.{AreMatches, IsBasis};

use crate::found_match::Match;
use crate::nearest::{nearest_match, window_of};
use droid_pronom::{ByteSequence, Signature};
use std::alloc::{AllocError, Global};

/// The signature by which a format is found, and where its byte sequences match.
#[derive(Drop)]
pub struct SignatureBasis {
    /// The place of the signature in the registry, counted from 0.
    pub signature: usize,
    /// The match of each of its byte sequences, in the registry's order.
    pub matches: Vec<Match>,
}

/// Finds the first signature of the format at this place that hits in the first and last bytes of a file, and the
/// nearest match of each of its byte sequences.
///
/// `first` and `last` have at most 65,536 bytes. Returns `None` if none of them hits. Fails only if memory runs out.
pub fn signature_basis(
    alloc: Global,
    signatures: &[Signature],
    place: u32,
    first: &[u8],
    last: &[u8],
) -> Result<Option<SignatureBasis>, AllocError>
    requires first { length first.now ≤ 65536 }
    requires last { length last.now ≤ 65536 }
    ensures { IfOk result (λ found. MatchOption found
        (¬ (AnyOf (λ signature. (signature.place ≡ place)
        × AllByRecursion (HitsEnds first.now last.now) signature.sequences) signatures.now))
        (IsBasis (IsNearestOfEnds first.now last.now) (HitsEnds first.now last.now) signatures.now place)) }
{
    for (number, signature) in signatures.iter().enumerate() {
        if signature.place() != place {
            continue;
        }
        if let Some(matches) = all_matches(alloc, signature.sequences(), first, last)? {
            return Ok(Some(SignatureBasis {
                signature: number,
                matches,
            }));
        }
    }
    Ok(None)
}

/// Finds the nearest match of each byte sequence of a signature in the window of its anchor, in their order, or returns
/// `None` if one of them does not hit.
fn all_matches(
    alloc: Global,
    sequences: &[ByteSequence],
    first: &[u8],
    last: &[u8],
) -> Result<Option<Vec<Match>>, AllocError>
    requires first { length first.now ≤ 65536 }
    requires last { length last.now ≤ 65536 }
    ensures { IfOk result (λ found. MatchOption found
        (¬ (AllByRecursion (HitsEnds first.now last.now) sequences.now))
        (λ matches. AreMatches (IsNearestOfEnds first.now last.now) sequences.now matches.items)) }
{
    let mut matches = Vec::new(alloc);
    for sequence in sequences {
        let window = window_of(sequence.offsets.anchor, first, last);
        match nearest_match(alloc, sequence, window)? {
            Some(found) => matches.push(found)?,
            None => return Ok(None),
        }
    }
    Ok(Some(matches))
}
