//! The rows of the tables of files, of formats (whose PUID may be a link) and of equal files.

ghost use Rattle.std.specs.Prelude.{◌≡◌, IfOk, map};
ghost use Rattle.droid_report.specs.Seen.{row_seen, rows_seen, seen};
ghost use Rattle.droid_report.specs.ShownTables.{copy_row, file_row, format_row, is_pronom, puid_seen};

use crate::html::tables::Cell;
use crate::ranks::Group;
use crate::row::Row;
use crate::view::cells::words;
use droid_export::Column;
use std::alloc::{AllocError, Global};

/// Makes a row for each file: its path, its size and its last change.
pub(crate) fn file_rows(alloc: Global, rows: &[Row]) -> Result<Vec<Vec<Cell>>, AllocError>
    ensures { IfOk result (λ lines. rows_seen lines.items ≡ map file_row rows.now) }
{
    let mut lines = Vec::new(alloc);
    for row in rows {
        let line = file_line(alloc, row)?;
        lines.push(line)?;
    }
    Ok(lines)
}

/// Makes the row of a file: path, size in bytes, last change. The columns are named in `file_table` of `tables.rt`.
fn file_line(alloc: Global, row: &Row) -> Result<Vec<Cell>, AllocError>
    ensures { IfOk result (λ line. row_seen line ≡ file_row row.now) }
{
    let mut line = Vec::new(alloc);
    let path = words(alloc, row.text(Column::FilePath))?;
    line.push(path)?;
    line.push(Cell::Number(row.facts.size))?;
    let changed = words(alloc, row.text(Column::LastModified))?;
    line.push(changed)?;
    Ok(line)
}

/// Makes a row for each format: its PUID, which leads to PRONOM's page if it is PRONOM's, its name and version, how
/// many files have it, and their bytes.
pub(crate) fn format_rows(
    alloc: Global,
    formats: &[Group<'_>],
) -> Result<Vec<Vec<Cell>>, AllocError>
    ensures { IfOk result (λ lines. rows_seen lines.items ≡ map format_row formats.now) }
{
    let mut lines = Vec::new(alloc);
    for format in formats {
        let line = format_line(alloc, format)?;
        lines.push(line)?;
    }
    Ok(lines)
}

/// Makes the row of a format, in the order above. The columns are named in `format_table` of `tables.rt`.
fn format_line(alloc: Global, format: &Group<'_>) -> Result<Vec<Cell>, AllocError>
    ensures { IfOk result (λ line. row_seen line ≡ format_row format.now) }
{
    let mut line = Vec::new(alloc);
    let puid = puid_cell(alloc, format.key)?;
    line.push(puid)?;
    let name = words(alloc, format.label)?;
    line.push(name)?;
    line.push(Cell::Number(format.count))?;
    line.push(Cell::Number(format.bytes))?;
    Ok(line)
}

/// Makes the cell of a PUID: a link to its page at The National Archives if it is PRONOM's, otherwise its text. The
/// address stands in `puid_seen` too, which the prover ties, and in `page.py` and `numbers_of.py` of
/// `tests/program/report`.
fn puid_cell(alloc: Global, puid: &str) -> Result<Cell, AllocError>
    ensures { IfOk result (λ cell. seen cell ≡ puid_seen puid.now) }
{
    if !is_pronom(puid.as_bytes()) {
        return words(alloc, puid);
    }
    let target = format!(in alloc; "https://www.nationalarchives.gov.uk/PRONOM/{puid}")?;
    let text = String::from_str(alloc, puid)?;
    Ok(Cell::Link { target, text })
}

/// Returns whether a PUID is PRONOM's, by how it begins: `fmt/` or `x-fmt/`.
fn is_pronom(puid: &[u8]) -> bool
    ensures { result ≡ is_pronom puid.now }
{
    let format: &[u8] = b"fmt/";
    let other: &[u8] = b"x-fmt/";
    puid.starts_with(format) || puid.starts_with(other)
}

/// Makes a row for each group of equal files: the path of the first, their hash and size, how many there are, and the
/// bytes of all but the first.
pub(crate) fn copy_rows(alloc: Global, groups: &[Group<'_>]) -> Result<Vec<Vec<Cell>>, AllocError>
    ensures { IfOk result (λ lines. rows_seen lines.items ≡ map copy_row groups.now) }
{
    let mut lines = Vec::new(alloc);
    for group in groups {
        let line = copy_line(alloc, group)?;
        lines.push(line)?;
    }
    Ok(lines)
}

/// Makes the row of a group of equal files, in the order above. The columns are named in `copy_table` of `tables.rt`.
fn copy_line(alloc: Global, group: &Group<'_>) -> Result<Vec<Cell>, AllocError>
    ensures { IfOk result (λ line. row_seen line ≡ copy_row group.now) }
{
    let mut line = Vec::new(alloc);
    let path = words(alloc, group.label)?;
    line.push(path)?;
    let content = words(alloc, group.key)?;
    line.push(content)?;
    line.push(Cell::Number(group.count))?;
    line.push(Cell::Number(group.saved))?;
    Ok(line)
}
