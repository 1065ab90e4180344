//! The key by which rows are grouped, and the name of the group that a row begins.

ghost use Rattle.std.specs.Prelude.{◌≡◌, IfOk, string_bytes};
ghost use Rattle.droid_report.specs.Lines.{line_of};
ghost use Rattle.droid_report.specs.Groups as groups;
ghost use Rattle.droid_report.specs.declared.keys.Alike.TheVariants as alike;

use crate::row::Row;
use crate::totals::is_first_of_file;
use droid_export::Column;
use std::alloc::{AllocError, Global};

/// What rows have in common.
#[derive(Clone, Copy)]
pub enum Alike {
    /// The format, by its PUID.
    Format,
    /// The hash and the size of a file. A file without a hash is like no other.
    Content,
}

/// Returns the key of a row: rows with one key are a group. It is the PUID, so that a file with several formats is in
/// the group of each; or hash and size of a file, of its first row alone. It is empty for a row that is in no group:
/// by format one without a PUID; by content one that is not the first of a file, or has no hash. Fails only if memory
/// runs out.
pub(crate) fn key_of(alloc: Global, row: &Row, alike: Alike) -> Result<String, AllocError>
    ensures { IfOk result (λ key. string_bytes key ≡ groups.key_of alike (line_of row.now)) }
{
    match alike {
        Alike::Format => String::from_str(alloc, row.text(Column::Puid)),
        Alike::Content => content_key(alloc, row),
    }
}

/// Returns the hash of a file, `, ` and its size. It is empty without a hash, and for all but a file's first row.
fn content_key(alloc: Global, row: &Row) -> Result<String, AllocError>
    ensures { IfOk result (λ key. string_bytes key ≡ groups.key_of alike.Content (line_of row.now)) }
{
    let hash = row.text(Column::Hash);
    if is_first_of_file(row) && !hash.is_empty() {
        format!(in alloc; "{hash}, {}", row.facts.size)
    } else {
        Ok(String::new(alloc))
    }
}

/// Returns the name of the group that a row begins: of a format its name and version, of equal files the path of the
/// first. Fails only if memory runs out.
pub(crate) fn label_of(alloc: Global, row: &Row, alike: Alike) -> Result<String, AllocError>
    ensures { IfOk result (λ label. string_bytes label ≡ groups.label_of alike (line_of row.now)) }
{
    match alike {
        Alike::Format => format_label(
            alloc,
            row.text(Column::FormatName),
            row.text(Column::FormatVersion),
        ),
        Alike::Content => String::from_str(alloc, row.text(Column::FilePath)),
    }
}

/// Returns how a format is called: its name, a space and its version, which may be empty.
fn format_label(alloc: Global, name: &str, version: &str) -> Result<String, AllocError>
    ensures { IfOk result (λ label. string_bytes label ≡ groups.format_label name.now version.now) }
{
    format!(in alloc; "{name} {version}")
}
