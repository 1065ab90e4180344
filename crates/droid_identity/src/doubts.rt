//! Why a file does not have a format: puts together what its signatures lack, and the formats that beat it.

ghost use Rattle.std.specs.Prelude.{◌≤◌, ℕ, List, IfOk, length};
ghost use Rattle.droid_identity.specs.Doubts.{IsDoubt};
ghost use Rattle.droid_identity.specs.Matches.{AreEnds};

use crate::rivals::beaters;
use crate::trials::{Trial, tried_signatures};
use droid_pronom::{Registry, hit_formats};
use std::alloc::{AllocError, Global};

/// Why a file does not have a format: what its signatures lack, and the formats that beat it.
#[derive(Drop)]
pub struct Doubt {
    /// Each signature of the format, with the match of each of its byte sequences.
    pub trials: Vec<Trial>,
    /// The places of the formats that hit and have priority over it, in the order of the priorities.
    pub beaters: Vec<u32>,
}

/// Says why a file with these first and last bytes does not have the format at this place of the registry.
///
/// `first` and `last` have at most 65,536 bytes. Fails only if memory runs out.
pub fn doubt_of(
    alloc: Global,
    registry: &Registry,
    place: u32,
    first: &[u8],
    last: &[u8],
) -> Result<Doubt, AllocError>
    requires first { length first.now ≤ 65536 }
    requires last { length last.now ≤ 65536 }
    // This is what is said of every file that begins and ends with these bytes, under every scan limit for which the
    // windows have this length.
    ensures { IfOk result (λ doubt. (file : List ℕ) (scan_limit : ℕ) → AreEnds file scan_limit first.now last.now
        → IsDoubt registry.now file scan_limit place doubt) }
{
    let count = registry.len();
    let trials = tried_signatures(alloc, registry.signatures(), place, first, last)?;
    let hit = hit_formats(alloc, count, registry.signatures(), first, last)?;
    let rivals = beaters(alloc, hit.as_slice(), registry.priorities(), place)?;
    Ok(Doubt {
        trials,
        beaters: rivals,
    })
}
