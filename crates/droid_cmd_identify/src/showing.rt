//! The formats of a file as they are printed: each with its names out of the registry, and why the file has it.

ghost use Rattle.std.specs.Prelude.{◌≡◌, ℕ, Bool, List, IfOk, IsSomeAnd, None, Some, MatchOption, slice_get};
ghost use Rattle.std.specs.List.{AllByRecursion};
ghost use Rattle.droid_pronom.specs.Found.{extension_of};
ghost use Rattle.droid_pronom.specs.Registry.{place_of};
ghost use Rattle.droid_identity.specs.Identities.{AreBases, IsBasisIn, IsIdentity};
ghost use Rattle.droid_identity.specs.declared.hit_signature.SignatureBasis.{SignatureBasis};
ghost use Rattle.droid_cmd_identify.specs.ShownFormats.{AreShown, AreShownByExtension, AreShownBySignature};
ghost use Rattle.droid_cmd_identify.specs.ShownFormats.{IsFormatOf, IsShownBy};

use crate::forms::shown_format::{Reason, ShownFormat};
use droid_frame::{Method, Text};
use droid_identity::{Identity, SignatureBasis};
use droid_pronom::{Format, Registry, extension};
use std::alloc::{AllocError, Global};

/// Returns the formats of a file of this name, in the order of `identity`, each with the reason for which the file has
/// it. Each caller hands over what this registry says of a file of this name; of another `identity` the clause promises
/// nothing.
pub fn shown_formats<'a>(
    alloc: Global,
    registry: &'a Registry,
    name: &'a str,
    identity: &'a Identity,
) -> Result<Vec<ShownFormat<'a>>, AllocError>
    ensures { IfOk result (λ shown. (file : List ℕ) (scan_limit : ℕ) (match_all : Bool)
        → IsIdentity registry.now name.now file scan_limit match_all identity.now
        → AreShown registry.now.formats (extension_of name.now) identity.now shown.items) }
{
    // Reading the registry tells the prover the rules that every registry keeps: no two formats have one PUID.
    prove!(registry.len() <= 4_096);
    let puids = identity.found.puids.as_slice();
    let mismatch = identity.found.mismatch;
    match identity.found.method {
        Method::Signature => {
            let bases = identity.bases.as_slice();
            shown_by_signature(alloc, registry, puids, bases, mismatch)
        }
        Method::Extension => {
            shown_by_extension(alloc, registry, puids, extension(name), mismatch)
        }
        Method::Unidentified => Ok(Vec::new(alloc)),
    }
}

/// Returns the registry's format with this PUID, or `None` if it has none.
fn format_of<'a>(registry: &'a Registry, puid: &str) -> Option<&'a Format>
    ensures { MatchOption result (place_of puid.now registry.now.formats ≡ None)
        (IsFormatOf registry.now.formats puid.now) }
{
    let place = registry.by_puid(puid)?;
    registry.format(place)
}

/// Returns the formats that signatures show: the format of each PUID, with the basis at the PUID's place.
fn shown_by_signature<'a>(
    alloc: Global,
    registry: &'a Registry,
    puids: &[Text],
    bases: &'a [SignatureBasis],
    mismatch: bool,
) -> Result<Vec<ShownFormat<'a>>, AllocError>
    ensures { IfOk result (λ shown. (file : List ℕ) (scan_limit : ℕ)
        → AreBases (IsBasisIn registry.now file scan_limit) registry.now.formats puids.now bases.now
        → AreShownBySignature registry.now.formats mismatch puids.now bases.now shown.items) }
{
    let mut shown = Vec::new(alloc);
    for (place, puid) in puids.iter().enumerate() {
        if let Some(its) = shown_at(registry, puid.as_str(), bases, place, mismatch) {
            shown.push(its)?;
        }
    }
    Ok(shown)
}

/// Returns the format with this PUID, by the basis at this place. Returns `None` where the registry has no such format
/// or the list no such place: neither is so of what the registry itself says.
fn shown_at<'a>(
    registry: &'a Registry,
    puid: &str,
    bases: &'a [SignatureBasis],
    place: usize,
    mismatch: bool,
) -> Option<ShownFormat<'a>>
    ensures { (basis : SignatureBasis) → slice_get bases.now place ≡ Some basis
        → (place_of puid.now registry.now.formats ≡ None → ⊥)
        → IsSomeAnd result (IsShownBy registry.now.formats mismatch puid.now basis) }
{
    let format = format_of(registry, puid)?;
    let basis = bases.get(place)?;
    Some(ShownFormat {
        format,
        reason: Reason::Signature {
            number: basis.signature,
            matches: basis.matches.as_slice(),
        },
        mismatch,
    })
}

/// Returns the formats that list the extension of the file's name: the format of each PUID.
fn shown_by_extension<'a>(
    alloc: Global,
    registry: &'a Registry,
    puids: &[Text],
    extension: &'a str,
    mismatch: bool,
) -> Result<Vec<ShownFormat<'a>>, AllocError>
    ensures { IfOk result (λ shown. AllByRecursion (λ puid. place_of puid registry.now.formats ≡ None → ⊥) puids.now
        → AreShownByExtension registry.now.formats extension.now mismatch puids.now shown.items) }
{
    let mut shown = Vec::new(alloc);
    for puid in puids {
        if let Some(format) = format_of(registry, puid.as_str()) {
            shown.push(ShownFormat {
                format,
                reason: Reason::Extension(extension),
                mismatch,
            })?;
        }
    }
    Ok(shown)
}
