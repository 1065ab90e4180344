//! Tries the signatures of one format, and says of each byte sequence where it matches or that it does not.

ghost use Rattle.std.specs.Prelude.{◌≡◌, ◌≤◌, ◌↔◌, IfOk, IsTrue, length};
ghost use Rattle.droid_identity.specs.Matches.{HitsEnds, IsNearestOfEnds};
ghost use Rattle.droid_identity.specs.Trials.{AreTried, Trials};

use crate::found_match::Match;
use crate::nearest::{nearest_match, window_of};
use droid_pronom::{ByteSequence, Signature};
use std::alloc::{AllocError, Global};

/// A signature that was tried.
#[derive(Drop)]
pub struct Trial {
    /// The place of the signature in the registry, counted from 0.
    pub signature: usize,
    /// For each of its byte sequences, in the registry's order: its match, or `None` if it does not hit.
    pub matches: Vec<Option<Match>>,
}

/// Tries each signature of the format at this place in the first and last bytes of a file.
///
/// `first` and `last` have at most 65,536 bytes. Fails only if memory runs out.
pub fn tried_signatures(
    alloc: Global,
    signatures: &[Signature],
    place: u32,
    first: &[u8],
    last: &[u8],
) -> Result<Vec<Trial>, AllocError>
    requires first { length first.now ≤ 65536 }
    requires last { length last.now ≤ 65536 }
    ensures { IfOk result (λ trials. Trials (IsNearestOfEnds first.now last.now) (HitsEnds first.now last.now) place 0
        signatures.now trials.items) }
{
    let mut trials = Vec::new(alloc);
    for (number, signature) in signatures.iter().enumerate() {
        if is_of(signature, place) {
            let matches = tried_sequences(alloc, signature.sequences(), first, last)?;
            trials.push(Trial {
                signature: number,
                matches,
            })?;
        }
    }
    Ok(trials)
}

/// Returns whether the signature is one of the format at this place of the registry.
fn is_of(signature: &Signature, place: u32) -> bool
    ensures { IsTrue result ↔ (signature.now.place ≡ place) }
{
    signature.place() == place
}

/// Tries each byte sequence of a signature in the window of its anchor. Returns the nearest match of each, or `None`
/// for one that does not hit, in their order.
fn tried_sequences(
    alloc: Global,
    sequences: &[ByteSequence],
    first: &[u8],
    last: &[u8],
) -> Result<Vec<Option<Match>>, AllocError>
    requires first { length first.now ≤ 65536 }
    requires last { length last.now ≤ 65536 }
    ensures { IfOk result (λ matches. AreTried (IsNearestOfEnds first.now last.now) (HitsEnds first.now last.now)
        sequences.now matches.items) }
{
    let mut matches = Vec::new(alloc);
    for sequence in sequences {
        let window = window_of(sequence.offsets.anchor, first, last);
        let found = nearest_match(alloc, sequence, window)?;
        matches.push(found)?;
    }
    Ok(matches)
}
