//! The formats that the rows of a profile's CSV give files, where they are asked for.

ghost use Rattle.std.specs.Prelude.{◌≡◌, ◌++◌, [], OnOk};
ghost use Rattle.droid_export.specs.FormatRows as formats;

use crate::column::Column;
use crate::csv_row::{Row, said};
use droid_frame::Blob;
use std::alloc::{AllocError, Global};

/// A file's path, and a format that a row gives it.
#[derive(Drop)]
pub struct FormatRow {
    /// The path.
    pub path: Blob,
    /// The identifier (PUID) of the format. It is empty if the file has none.
    pub puid: Blob,
}

/// The formats that the rows so far give files. A file with several formats has a row for each.
#[derive(Drop)]
pub(crate) struct RowFormats {
    /// Whether they are kept at all.
    pub(crate) kept: bool,
    /// The rows of files.
    pub(crate) rows: Vec<FormatRow>,
}

impl RowFormats {
    /// Makes an empty list. `kept` says whether formats are asked for; without it the list stays empty. Takes no
    /// memory.
    pub(crate) fn new(alloc: Global, kept: bool) -> RowFormats
        ensures kept { result.kept ≡ kept }
        ensures rows { result.rows.items ≡ [] }
    {
        RowFormats {
            kept,
            rows: Vec::new(alloc),
        }
    }

    /// Adds the format of a row with all columns, if it is that of a file, and formats are kept. Fails only if memory
    /// runs out, and then nothing is promised of the rows: the readers drop them.
    pub(crate) fn add<R: Row>(&mut self, alloc: Global, row: &R) -> Result<(), AllocError>
        ensures kept { self.new.kept ≡ self.old.kept }
        ensures rows { OnOk result (self.new.rows.items
            ≡ self.old.rows.items ++ formats.rows_if self.old.kept (formats.rows_of (R.fields row.now))) }
    {
        if self.kept {
            return add_row(alloc, &mut self.rows, row);
        }
        Ok(())
    }
}

/// Appends the path and the PUID of a row, if it is that of a file; an empty PUID too.
fn add_row<R: Row>(alloc: Global, rows: &mut Vec<FormatRow>, row: &R) -> Result<(), AllocError>
    ensures { OnOk result (rows.new.items ≡ rows.old.items ++ formats.rows_of (R.fields row.now)) }
{
    if is_file(row) {
        let path = Blob::copy_of(alloc, said(row, Column::FilePath))?;
        let puid = Blob::copy_of(alloc, said(row, Column::Puid))?;
        rows.push(FormatRow { path, puid })?;
    }
    Ok(())
}

/// Returns whether TYPE says that a row is that of a file.
fn is_file<R: Row>(row: &R) -> bool
    ensures { result ≡ formats.is_file (R.fields row.now) }
{
    let file: &[u8] = b"File";
    said(row, Column::Kind) == file
}
