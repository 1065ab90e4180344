//! The rows of the tables by year, size and depth: one for each class that has files.

ghost use Rattle.std.specs.Prelude.{◌≡◌, ◌++◌, IfOk, OnOk, take};
ghost use Rattle.droid_report.specs.ShownClasses.{class_row, class_rows, flat_map_at, greatest};
ghost use Rattle.droid_report.specs.Seen.{rows_seen};

use crate::classes::By;
use crate::html::tables::Cell;
use crate::view::cells::{bar_row, share_of};
use crate::view::class_names::ClassName;
use std::alloc::{AllocError, Global};

/// Makes the rows of a table of classes, at most `limit`: name, number of files and bar of each class that has files,
/// from the lowest class on. `counts` has the number of files of each class, at its place. All rows are made, and those
/// over the limit dropped; bars are measured by the greatest of all counts, dropped rows included.
pub(crate) fn class_rows(
    alloc: Global,
    by: By,
    counts: &[u64],
    limit: usize,
) -> Result<Vec<Vec<Cell>>, AllocError>
    ensures { IfOk result (λ lines. rows_seen lines.items ≡ take limit (class_rows by counts.now)) }
{
    let mut lines = all_rows(alloc, by, counts, greatest(counts))?;
    lines.truncate(limit);
    Ok(lines)
}

/// Makes a row for each class that has files. `most` is the greatest of `counts`, which has the longest bar.
fn all_rows(alloc: Global, by: By, counts: &[u64], most: u64) -> Result<Vec<Vec<Cell>>, AllocError>
    ensures { IfOk result (λ lines. rows_seen lines.items ≡ flat_map_at (class_row by most) 0 counts.now) }
{
    let mut lines = Vec::new(alloc);
    for class in 0..counts.len() {
        let name = ClassName { by, class };
        add_class(&mut lines, alloc, name, counts[class], most)?;
    }
    Ok(lines)
}

/// Adds the row of a class at the end, unless `count`, how many files it has, is 0.
fn add_class(
    lines: &mut Vec<Vec<Cell>>,
    alloc: Global,
    name: ClassName,
    count: u64,
    most: u64,
) -> Result<(), AllocError>
    ensures { OnOk result
        (rows_seen lines.new.items ≡ rows_seen lines.old.items ++ class_row name.by most name.class count) }
{
    if count == 0 {
        return Ok(());
    }
    let name = format!(in alloc; "{name}")?;
    let line = bar_row(alloc, name.as_str(), count, share_of(count, most))?;
    lines.push(line)?;
    Ok(())
}

/// Returns the greatest of these numbers, or 0 if there are none.
fn greatest(counts: &[u64]) -> u64
    ensures { result ≡ greatest counts.now }
{
    let mut most: u64 = 0;
    for count in counts {
        most = most.max(*count);
    }
    most
}
