//! Identifies one file, and says why: its formats with their bases, or how it is written if it is plain text.

ghost use Rattle.std.specs.Prelude.{◌≡◌, ◌≤◌, ℕ, List, IfOk, length};
ghost use Rattle.droid_identity.specs.Matches.{AreEnds};
ghost use Rattle.droid_identity.specs.Identities.{IsIdentity, text_of};

use crate::bases::bases_by;
use crate::hit_signature::SignatureBasis;
use crate::kind::{TextKind, text_kind};
use droid_frame::Method;
use droid_pronom::{Found, Registry};
use std::alloc::{AllocError, Global};

/// What is said of one file.
#[derive(Drop)]
pub struct Identity {
    /// Its formats, and how they were found.
    pub found: Found,
    /// If signatures hit: the basis of each format, in the order of the PUIDs. Otherwise there is none.
    pub bases: Vec<SignatureBasis>,
    /// If no format was found: how the file is written, if it is plain text.
    pub text: Option<TextKind>,
}

/// Identifies a file by its name and its first and last bytes, and says why it has each format. `match_all` lets an
/// extension name formats that have a signature too.
///
/// `first` and `last` have the same length, at most 65,536 bytes and at most `size`, the size of the file; in a short
/// file they are the same bytes. Fails only if memory runs out.
pub fn identify_file(
    alloc: Global,
    registry: &Registry,
    name: &str,
    first: &[u8],
    last: &[u8],
    size: u64,
    match_all: bool,
) -> Result<Identity, AllocError>
    requires same { length first.now ≡ length last.now }
    requires few { length first.now ≤ 65536 }
    requires inside { length first.now ≤ size }
    // This is what is said of every file of that size that begins and ends with these bytes, under every scan limit for
    // which the windows have this length.
    ensures { IfOk result (λ identity. (file : List ℕ) (scan_limit : ℕ) → length file ≡ size
        → AreEnds file scan_limit first.now last.now
        → IsIdentity registry.now name.now file scan_limit match_all identity) }
{
    let found = registry.identify(alloc, name, first, last, size, match_all)?;
    let bases = bases_by(alloc, registry, &found, first, last)?;
    let text = text_of(found.method, first, last, size);
    Ok(Identity { found, bases, text })
}

/// Returns how a file for which no format was found is written, or `None` if it is no plain text or formats were found.
fn text_of(method: Method, first: &[u8], last: &[u8], size: u64) -> Option<TextKind>
    requires same { length first.now ≡ length last.now }
    requires inside { length first.now ≤ size }
    ensures { result ≡ text_of method first.now last.now size }
{
    match method {
        Method::Unidentified => text_kind(first, last, size),
        Method::Signature | Method::Extension => None,
    }
}
