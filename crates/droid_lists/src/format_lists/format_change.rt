//! Finds the files whose formats differ from those of their rows.

ghost use Rattle.std.specs.Prelude.{◌≡◌, ◌++◌, ◌∷◌, IfOk, OnOk};
ghost use Rattle.std.specs.Str.{bytes_eq};
ghost use Rattle.std.specs.List.{flat_map};
ghost use Rattle.droid_lists.specs.Formats as formats;
ghost use Rattle.droid_lists.specs.ListedFormats as gathered;

use crate::format_lists::file_formats::FileFormats;
use crate::format_lists::listed_formats::{ListedFormats, formats_in, gathered};
use droid_export::FormatRow;
use droid_frame::Blob;
use std::alloc::{AllocError, Global};

/// A file whose formats differ from those of its rows.
#[derive(Drop)]
pub struct FormatChange {
    /// The path.
    pub path: Blob,
    /// The formats of the rows, with a space between two.
    pub listed: Blob,
    /// The formats that were found, with a space between two.
    pub found: Blob,
}

/// Returns the files that have rows, but not with exactly the formats that were found, in the order of `files`. `rows`
/// are those of a profile's list. The order of formats does not count. Fails only if out of memory.
pub fn format_changes(
    alloc: Global,
    rows: &[FormatRow],
    files: &[FileFormats],
) -> Result<Vec<FormatChange>, AllocError>
    ensures { IfOk result (λ changes. changes.items ≡ formats.changes_in rows.now files.now) }
{
    let listed = gathered(alloc, rows)?;
    let changes = changes_by(alloc, &listed, files)?;
    Ok(changes)
}

/// Returns the changes of these files, in their order, by the formats of rows that were gathered.
fn changes_by(
    alloc: Global,
    listed: &ListedFormats<'_>,
    files: &[FileFormats],
) -> Result<Vec<FormatChange>, AllocError>
    ensures { IfOk result (λ changes. changes.items ≡ gathered.changes_by listed.now files.now) }
{
    let mut changes = Vec::new(alloc);
    for file in files {
        add_change(alloc, &mut changes, listed, file)?;
    }
    Ok(changes)
}

/// Appends the change of a file, if its formats differ from those of its rows.
fn add_change(
    alloc: Global,
    changes: &mut Vec<FormatChange>,
    listed: &ListedFormats<'_>,
    file: &FileFormats,
) -> Result<(), AllocError>
    ensures { OnOk result (changes.new.items ≡ changes.old.items ++ gathered.change_by listed.now file.now) }
{
    let path = file.path.as_slice();
    let formats = formats_in(listed, path);
    let found = file.puids.as_slice();
    if differ(formats, found) {
        let change = change_of(alloc, path, formats, found)?;
        changes.push(change)?;
    }
    Ok(())
}

/// Makes the change of the file at this path, with the formats of its rows and those that were found.
fn change_of(
    alloc: Global,
    path: &[u8],
    listed: &[Blob],
    found: &[Blob],
) -> Result<FormatChange, AllocError>
    ensures { IfOk result (λ change. change ≡ formats.change_with path.now listed.now found.now) }
{
    let path = Blob::copy_of(alloc, path)?;
    let listed = joined(alloc, listed)?;
    let found = joined(alloc, found)?;
    Ok(FormatChange {
        path,
        listed,
        found,
    })
}

/// Returns whether there are rows, and one side has a format that the other lacks. A file without rows has no change.
fn differ(listed: &[Blob], found: &[Blob]) -> bool
    ensures { result ≡ formats.differ listed.now found.now }
{
    !listed.is_empty() && !(has_all(listed, found) && has_all(found, listed))
}

/// Returns whether each of `others` is among `puids`.
fn has_all(puids: &[Blob], others: &[Blob]) -> bool
    ensures { result ≡ formats.has_all puids.now others.now }
{
    others.iter().all(|other| is_among(puids, other))
}

/// Returns whether `puid` is among `puids`.
fn is_among(puids: &[Blob], puid: &Blob) -> bool
    ensures { result ≡ formats.is_among puids.now puid.now }
{
    puids.iter().any(|one| is_same(one, puid))
}

/// Returns whether two identifiers are the same bytes.
fn is_same(one: &Blob, other: &Blob) -> bool
    ensures { result ≡ bytes_eq one.now other.now }
{
    one.as_slice() == other.as_slice()
}

/// Joins identifiers, with a space between two. Of none, and of an empty one, the text is empty.
fn joined(alloc: Global, puids: &[Blob]) -> Result<Blob, AllocError>
    ensures { IfOk result (λ text. text ≡ formats.joined puids.now) }
{
    let Some((first, others)) = puids.split_first() else {
        let none = Blob::copy_of(alloc, &[])?;
        return Ok(none);
    };
    let mut text = Vec::from_slice(alloc, first.as_slice())?;
    append_after_spaces(&mut text, others)?;
    Ok(Blob::from(text))
}

/// Appends each identifier after a space, as they stand behind the first.
fn append_after_spaces(text: &mut Vec<u8>, puids: &[Blob]) -> Result<(), AllocError>
    ensures { OnOk result (text.new.items ≡ text.old.items ++ flat_map (λ puid. 32 ∷ puid) puids.now) }
{
    for puid in puids {
        append_after_space(text, puid)?;
    }
    Ok(())
}

/// Appends a space and an identifier.
fn append_after_space(text: &mut Vec<u8>, puid: &Blob) -> Result<(), AllocError>
    ensures { OnOk result (text.new.items ≡ text.old.items ++ 32 ∷ puid.now) }
{
    text.push(b' ')?;
    text.extend_from_slice(puid.as_slice())?;
    Ok(())
}
