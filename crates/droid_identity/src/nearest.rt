//! The match of a byte sequence that is reported: of all in its window the nearest to its end, and of these the
//! shortest.

ghost use Rattle.std.specs.Prelude.{◌≡◌, ◌≤◌, IfOk, MatchOption, length};
ghost use Rattle.droid_identity.specs.Matches.{HitsIn, IsNearest, window_of};

use crate::found_match::Match;
use crate::reach::least_reach;
use crate::search::{beyond, first_offset};
use droid_pronom::{Anchor, ByteSequence};
use std::alloc::{AllocError, Global};

/// Returns the window in which byte sequences of this anchor are searched: of a file's first and last bytes, the first
/// for `Bof` and the last for `Eof`.
pub fn window_of<'a>(anchor: Anchor, first: &'a [u8], last: &'a [u8]) -> &'a [u8]
    ensures { result.now ≡ window_of anchor first.now last.now }
{
    match anchor {
        Anchor::Bof => first,
        Anchor::Eof => last,
    }
}

/// Finds the match of a byte sequence with the least offset, and of these the shortest, in the window of its anchor.
///
/// A window has at most 65,536 bytes. Returns `None` if the byte sequence does not hit there. Fails only if memory runs
/// out.
pub fn nearest_match(
    alloc: Global,
    sequence: &ByteSequence,
    window: &[u8],
) -> Result<Option<Match>, AllocError>
    requires { length window.now ≤ 65536 }
    ensures { IfOk result (λ found. MatchOption found (¬ (HitsIn window.now (length window.now) sequence.now))
        (IsNearest window.now (length window.now) sequence.now)) }
{
    let anchor = sequence.offsets.anchor;
    let min = sequence.offsets.min as usize;
    let max = sequence.offsets.max as usize;
    let Some(offset) = first_offset(alloc, sequence, window, min, max)? else {
        return Ok(None);
    };
    let count = least_reach(alloc, sequence, beyond(anchor, window, offset))?;
    Ok(Some(Match {
        anchor,
        offset: offset as u32,
        count: count as u32,
    }))
}
