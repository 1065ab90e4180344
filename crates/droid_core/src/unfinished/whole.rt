//! The identification of one whole file, behind `UnfinishedFiles::identify`.
//!
//! In the clauses 65536 is the largest scan limit (`is_scan_limit`), and 4096 the most identifiers of a Finished
//! (`PUIDS_LIMIT` of droid_frame): a registry has no more formats.

ghost use Rattle.std.specs.Prelude.{◌≡◌, ◌≤◌, List, length, None, IsTrue, IfOk};
ghost use Rattle.std.specs.List.{AllByRecursion};
ghost use Rattle.droid_assembly.specs.Pieces.{Piece, file_bytes};
ghost use Rattle.droid_assembly.specs.State.{StandsFor, IsComplete, IsUnchanged, count_of};
ghost use Rattle.droid_pronom.specs.Found.{IsFound};
ghost use Rattle.droid_pronom.specs.RegistryFields.{is_puid};
ghost use Rattle.droid_core.specs.Identifying.{Identifies, IsWellFormed};

use crate::unfinished::fault::IdentifyFault;
use crate::unfinished::finding::Finding;
use droid_assembly::Assembly;
use droid_pronom::{Found, Registry};
use std::alloc::{AllocError, Global};

/// Identifies one file by its name and its first and last bytes, where no piece of it is missing, and returns its size
/// and hash too. `match_all`: a format with signatures may be found by its extension. Fails with the first missing
/// piece, or if memory runs out.
pub(crate) fn identify_whole(
    alloc: Global,
    file: &mut Assembly,
    registry: &Registry,
    name: &str,
    match_all: bool,
) -> Result<Finding, IdentifyFault>
    requires none_pending { file.old.pending ≡ None }
    requires scan_limit { file.old.scan_limit ≤ 65536 }
    ensures identifies { Identifies registry.now name.now match_all file.old result }
    ensures well_formed { IfOk result IsWellFormed }
    ensures unchanged { IsUnchanged file.old file.new }
{
    let sealed = file.seal()?;
    let found = find_in(alloc, file, registry, name, sealed.size, match_all)?;
    Ok(Finding { sealed, found })
}

/// Returns the formats that the registry finds in a file of which no piece is missing. `size` is the whole file's, in
/// bytes. Fails only if there is no memory.
fn find_in(
    alloc: Global,
    file: &mut Assembly,
    registry: &Registry,
    name: &str,
    size: u64,
    match_all: bool,
) -> Result<Found, AllocError>
    requires complete { IsComplete file.old }
    requires none_pending { file.old.pending ≡ None }
    requires same_size { size ≡ file.old.size }
    requires scan_limit { file.old.scan_limit ≤ 65536 }
    ensures found { (pieces : List Piece) → StandsFor file.old pieces
        → size ≡ length (file_bytes (count_of file.old) pieces)
        → IfOk result (λ found.
        IsFound registry.now name.now (file_bytes (count_of file.old) pieces) file.old.scan_limit match_all found) }
    ensures few { IfOk result (λ found. length found.puids ≤ 4096) }
    ensures puids { IfOk result (λ found. AllByRecursion (λ puid. IsTrue (is_puid puid)) found.puids) }
    ensures unchanged { IsUnchanged file.old file.new }
{
    let windows = file.windows();
    registry.identify(alloc, name, windows.first, windows.last, size, match_all)
}
