//! Reads what a line says: the hash of a file, nothing, or that the line is at fault.

ghost use Rattle.std.specs.Prelude.{◌≡◌, ◌∷◌, IfOk};
ghost use Rattle.droid_fixity.specs.Lines as lines;
ghost use Rattle.droid_fixity.specs.Spellings.{spelled};

use crate::checksum_lists::entry::entry_of;
use crate::checksum_lists::form::{Escapes, ManifestForm};
use crate::checksum_lists::path::below;
use crate::checksum_lists::path_text::add_spelled;
use droid_frame::{Blob, HashValue, Item, NodeKind, is_file_path};
use std::alloc::{AllocError, Global};

/// What a line says.
#[derive(Drop)]
pub(crate) enum Meaning {
    /// Nothing.
    Blank,
    /// A file has this hash.
    File(Item),
    /// It says nothing that could be read.
    Malformed,
    /// Its path is not that of a file below the folder.
    Misplaced,
}

/// Reads a line without its end. A line that says nothing useful is a `Meaning`, not an error: it fails only if out of
/// memory.
pub(crate) fn meaning_of(
    alloc: Global,
    form: ManifestForm,
    line: &[u8],
) -> Result<Meaning, AllocError>
    ensures { IfOk result (λ meaning. meaning ≡ lines.meaning form line.now) }
{
    if is_blank(line) {
        return Ok(Meaning::Blank);
    }
    match entry_of(form, line) {
        None => Ok(Meaning::Malformed),
        Some((hash, escapes, text)) => match below(form, text) {
            None => Ok(Meaning::Misplaced),
            Some(text) => {
                let meaning = file_at(alloc, hash, escapes, text)?;
                Ok(meaning)
            }
        },
    }
}

/// Returns what a line says whose hash is this one and whose path below the folder is spelled as `text`. The item's
/// path has a `/` in front, as those of a profile have.
fn file_at(
    alloc: Global,
    hash: HashValue,
    escapes: Escapes,
    text: &[u8],
) -> Result<Meaning, AllocError>
    ensures { IfOk result (λ meaning. meaning ≡ lines.meaning_by_bytes hash (spelled escapes text.now)) }
{
    let mut path = Vec::with_capacity(alloc, text.len() + 1)?;
    path.push(b'/')?;
    if !add_spelled(&mut path, escapes, text)? {
        return Ok(Meaning::Malformed);
    }
    Ok(meaning_of_path(hash, path))
}

/// Returns what a line says whose hash is this one and whose path, with `/` in front, is this: the file, or `Misplaced`
/// if it is no path of a file below the folder.
fn meaning_of_path(hash: HashValue, path: Vec<u8>) -> Meaning
    ensures { result ≡ lines.meaning_by_path hash path.items }
{
    if !is_file_path(path.as_slice()) {
        return Meaning::Misplaced;
    }
    Meaning::File(file_item(hash, Blob::from(path)))
}

/// Returns the item of a file of which nothing is known but its hash.
fn file_item(hash: HashValue, path: Blob) -> Item
    ensures { result ≡ lines.file_item hash path }
{
    Item {
        path,
        kind: NodeKind::File,
        length: None,
        modified: None,
        hash,
    }
}

/// Returns whether a line says nothing: an empty one, or one that begins with `#`.
fn is_blank(line: &[u8]) -> bool
    ensures { result ≡ lines.is_blank line.now }
{
    match line.first() {
        Some(first) => *first == b'#',
        None => true,
    }
}
