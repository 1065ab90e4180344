//! Gathers the formats of a profile's rows by path.

ghost use Rattle.std.specs.Prelude.{◌≡◌, ◌++◌, ℕ, List, [], ◌∷◌, false, IfOk, OnOk};
ghost use Rattle.std.specs.Str.{bytes_eq};
ghost use Rattle.droid_lists.specs.Formats.{formats_at};
ghost use Rattle.droid_lists.specs.ListedFormats.{formats_in};

use crate::format_lists::file_formats::add_copy;
use droid_export::FormatRow;
use droid_frame::Blob;
use std::alloc::{AllocError, Global};
use std::collections::BTreeMap;

/// For each path, the formats of its rows.
pub(crate) type ListedFormats<'a> = BTreeMap<&'a [u8], Vec<Blob>>;

/// Gathers the formats of rows by path, those of one path in the order of its rows. Fails only if out of memory.
pub(crate) fn gathered<'a>(
    alloc: Global,
    rows: &'a [FormatRow],
) -> Result<ListedFormats<'a>, AllocError>
    ensures { IfOk result (λ listed. (path : List ℕ) → formats_in listed path ≡ formats_at rows.now path) }
{
    let mut listed = BTreeMap::new(alloc);
    for row in rows {
        add_format(alloc, &mut listed, row)?;
    }
    Ok(listed)
}

/// Adds the format of a row behind those of its path. After an error those may be lost: `gathered` drops all.
fn add_format<'a>(
    alloc: Global,
    listed: &mut ListedFormats<'a>,
    row: &'a FormatRow,
) -> Result<(), AllocError>
    ensures { OnOk result ((path : List ℕ)
        → formats_in listed.new path ≡ formats_in listed.old path ++ formats_at (row.now ∷ []) path) }
{
    let path = row.path.as_slice();
    let mut formats = taken(alloc, listed, path);
    add_copy(alloc, &mut formats, row.puid.as_slice())?;
    listed.insert(path, formats)?;
    Ok(())
}

/// Removes the formats of a path and returns them, or none if it has no row yet.
fn taken(alloc: Global, listed: &mut ListedFormats<'_>, path: &[u8]) -> Vec<Blob>
    ensures value { result.items ≡ formats_in listed.old path.now }
    ensures others { (other : List ℕ) → bytes_eq path.now other ≡ false
        → formats_in listed.new other ≡ formats_in listed.old other }
{
    listed.remove(path).unwrap_or(Vec::new(alloc))
}

/// Returns the formats of the rows of a path; none if it has no row.
pub(crate) fn formats_in<'a>(listed: &'a ListedFormats<'_>, path: &[u8]) -> &'a [Blob]
    ensures { result.now ≡ formats_in listed.now path.now }
{
    match listed.get(path) {
        Some(formats) => formats.as_slice(),
        None => &[],
    }
}
