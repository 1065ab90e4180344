//! Identifies a file by its windows, the first and the last bytes, and by its name.

ghost use Rattle.std.specs.Prelude.{◌≡◌, ℕ, List, IfOk, length};
ghost use Rattle.std.specs.Str.{str_to_ascii_lowercase};
ghost use Rattle.droid_pronom.specs.Found.{Chosen, IsLeft, IsFoundBy, IsNamed};
ghost use Rattle.droid_pronom.specs.FoundWindows.{HitsWindows, AreFlagsOf};

use crate::identification::Found;
use crate::letter_case::lower_case;
use crate::registry::Registry;
use crate::steps::extension::extension;
use crate::steps::hits::hit_formats;
use crate::steps::listings::{is_mismatch, named_formats};
use crate::steps::priority::{beaten_formats, unbeaten};
use crate::steps::puids::{is_any_set, puids_of};
use droid_frame::{Method, Texts};
use std::alloc::{AllocError, Global};

/// Returns, for each format, a flag: whether it hits in the windows `first` and `last`, and no format that hits has
/// priority over it.
fn left_formats(
    alloc: Global,
    registry: &Registry,
    first: &[u8],
    last: &[u8],
) -> Result<Vec<bool>, AllocError>
    ensures len { IfOk result (λ left. length left.items ≡ length registry.now.formats) }
    ensures each { IfOk result (λ left. AreFlagsOf left.items (IsLeft (HitsWindows first.now last.now) registry.now)) }
{
    let count = registry.len();
    let hit = hit_formats(alloc, count, registry.signatures(), first, last)?;
    let none = !is_any_set(hit.as_slice());
    // For speed: nothing hits, so priority drops nothing.
    if none {
        return Ok(hit);
    }
    let beaten = beaten_formats(alloc, hit.as_slice(), registry.priorities())?;
    unbeaten(alloc, hit.as_slice(), beaten.as_slice())
}

/// Returns the PUIDs of the formats that the extension names, in the registry's order; none if it is empty. `wanted` is
/// the extension in lower case. `match_all` lets it name formats that have a signature too.
fn named_puids(
    alloc: Global,
    registry: &Registry,
    wanted: &str,
    match_all: bool,
) -> Result<Texts, AllocError>
    ensures { (extension : List ℕ) → wanted.now ≡ str_to_ascii_lowercase extension
        → IfOk result (Chosen (IsNamed registry.now extension match_all) 0 registry.now.formats) }
{
    if wanted.is_empty() {
        return Ok(Texts::new(alloc));
    }
    let named = named_formats(
        alloc,
        registry.extensions(),
        wanted,
        registry.signed(),
        match_all,
    )?;
    puids_of(alloc, registry.formats(), named.as_slice())
}

/// Does the work of `Registry::identify`, for windows of any length: identifies a file by the signatures that hit in
/// its first and last bytes, or else by the extension of its name.
pub(crate) fn identify_windows(
    alloc: Global,
    registry: &Registry,
    name: &str,
    first: &[u8],
    last: &[u8],
    match_all: bool,
) -> Result<Found, AllocError>
    ensures { IfOk result (λ found. IsFoundBy (HitsWindows first.now last.now) registry.now name.now match_all found) }
{
    let wanted = lower_case(alloc, extension(name))?;
    let left = left_formats(alloc, registry, first, last)?;
    let puids = puids_of(alloc, registry.formats(), left.as_slice())?;
    let by_signature = !puids.is_empty();
    if by_signature {
        let mismatch = is_mismatch(left.as_slice(), registry.extensions(), wanted.as_str());
        return Ok(Found {
            method: Method::Signature,
            mismatch,
            puids,
        });
    }
    let puids = named_puids(alloc, registry, wanted.as_str(), match_all)?;
    let method = if puids.is_empty() {
        Method::Unidentified
    } else {
        Method::Extension
    };
    Ok(Found {
        method,
        mismatch: false,
        puids,
    })
}
