//! The basis of each format of a file: the signature that hits, and its matches. `hit_signature` finds the basis of
//! one.

ghost use Rattle.std.specs.Prelude.{◌≡◌, ◌≤◌, ℕ, Bool, List, IfOk, IsSomeAnd, length};
ghost use Rattle.std.specs.List.{AllByRecursion};
ghost use Rattle.droid_pronom.specs.Found.{Hits, IsFound};
ghost use Rattle.droid_identity.specs.Matches.{AreEnds};
ghost use Rattle.droid_identity.specs.Identities.{AreBases, AreBasesBy, HasBasis, HitsPuid, IsBasisIn};

use crate::hit_signature::{SignatureBasis, signature_basis};
use droid_frame::{Method, Text};
use droid_pronom::{Found, Registry};
use std::alloc::{AllocError, Global};

/// Returns the basis of each format that was found, in the order of the PUIDs, if signatures hit, and otherwise none.
pub(crate) fn bases_by(
    alloc: Global,
    registry: &Registry,
    found: &Found,
    first: &[u8],
    last: &[u8],
) -> Result<Vec<SignatureBasis>, AllocError>
    requires first { length first.now ≤ 65536 }
    requires last { length last.now ≤ 65536 }
    ensures { IfOk result (λ bases. (name file : List ℕ) (scan_limit : ℕ) (match_all : Bool)
        → AreEnds file scan_limit first.now last.now → IsFound registry.now name file scan_limit match_all found.now
        → AreBasesBy found.now.method (IsBasisIn registry.now file scan_limit) registry.now.formats found.now.puids
        bases.items) }
{
    // `len` tells the prover the rules that every registry keeps (`IsRegistry`): at most 4,096 formats, and no two with
    // one PUID, which is what the proof needs.
    prove!(registry.len() <= 4_096);
    match found.method {
        Method::Signature => bases_of(alloc, registry, found.puids.as_slice(), first, last),
        Method::Extension => Ok(Vec::new(alloc)),
        Method::Unidentified => Ok(Vec::new(alloc)),
    }
}

/// Returns the basis of each of the formats with these PUIDs, in their order. One without a basis is passed over; of
/// formats that hit, as here, none is.
fn bases_of(
    alloc: Global,
    registry: &Registry,
    puids: &[Text],
    first: &[u8],
    last: &[u8],
) -> Result<Vec<SignatureBasis>, AllocError>
    requires first { length first.now ≤ 65536 }
    requires last { length last.now ≤ 65536 }
    ensures { IfOk result (λ bases. (file : List ℕ) (scan_limit : ℕ) → AreEnds file scan_limit first.now last.now
        → AllByRecursion (HitsPuid (Hits file scan_limit) registry.now) puids.now
        → AreBases (IsBasisIn registry.now file scan_limit) registry.now.formats puids.now bases.items) }
{
    let mut bases = Vec::new(alloc);
    for puid in puids {
        let found = basis_of(alloc, registry, puid.as_str(), first, last)?;
        if let Some(basis) = found {
            bases.push(basis)?;
        }
    }
    Ok(bases)
}

/// Returns the basis of the format with this PUID, or `None` if none of its signatures hits or there is no such format.
fn basis_of(
    alloc: Global,
    registry: &Registry,
    puid: &str,
    first: &[u8],
    last: &[u8],
) -> Result<Option<SignatureBasis>, AllocError>
    requires first { length first.now ≤ 65536 }
    requires last { length last.now ≤ 65536 }
    ensures { IfOk result (λ basis. (file : List ℕ) (scan_limit : ℕ) → AreEnds file scan_limit first.now last.now
        → HitsPuid (Hits file scan_limit) registry.now puid.now
        → IsSomeAnd basis (HasBasis (IsBasisIn registry.now file scan_limit) registry.now.formats puid.now)) }
{
    match registry.by_puid(puid) {
        Some(place) => signature_basis(alloc, registry.signatures(), place, first, last),
        None => Ok(None),
    }
}
