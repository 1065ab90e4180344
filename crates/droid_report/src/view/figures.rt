//! The rows of the table of totals: a name and a number each.

ghost use Rattle.std.specs.Prelude.{◌≡◌, ◌++◌, ◌∷◌, [], IfOk, OnOk};
ghost use Rattle.droid_report.specs.Seen.{rows_seen};
ghost use Rattle.droid_report.specs.ShownTables.{count_figures, figure, figures, group_figures, method_figures};
ghost use Rattle.droid_report.specs.ShownTables.{odd_figures};

use crate::html::tables::Cell;
use crate::ranks::together;
use crate::texts;
use crate::totals::Totals;
use crate::view::cells::amount_row;
use crate::view::orders::Orders;
use std::alloc::{AllocError, Global};

/// Makes all rows of the table of totals, in four parts, in the order below.
pub(crate) fn figures(
    alloc: Global,
    totals: Totals,
    orders: &Orders<'_>,
) -> Result<Vec<Vec<Cell>>, AllocError>
    ensures { IfOk result (λ lines. rows_seen lines.items ≡ figures totals orders.now) }
{
    let mut lines = Vec::new(alloc);
    add_counts(&mut lines, alloc, totals)?;
    add_methods(&mut lines, alloc, totals)?;
    add_odd(&mut lines, alloc, totals)?;
    add_groups(&mut lines, alloc, orders)?;
    Ok(lines)
}

/// Adds how many folders, files and bytes there are.
fn add_counts(lines: &mut Vec<Vec<Cell>>, alloc: Global, totals: Totals) -> Result<(), AllocError>
    ensures { OnOk result (rows_seen lines.new.items ≡ rows_seen lines.old.items ++ count_figures totals) }
{
    add_figure(lines, alloc, texts::FOLDERS, totals.folders)?;
    add_figure(lines, alloc, texts::FILES, totals.files)?;
    add_figure(lines, alloc, texts::BYTES, totals.bytes)?;
    Ok(())
}

/// Adds how many files were identified by a signature, by their extension alone, and not at all.
fn add_methods(lines: &mut Vec<Vec<Cell>>, alloc: Global, totals: Totals) -> Result<(), AllocError>
    ensures { OnOk result (rows_seen lines.new.items ≡ rows_seen lines.old.items ++ method_figures totals) }
{
    add_figure(lines, alloc, texts::BY_SIGNATURE, totals.by_signature)?;
    add_figure(lines, alloc, texts::BY_EXTENSION, totals.by_extension)?;
    add_figure(lines, alloc, texts::UNIDENTIFIED, totals.unidentified)?;
    Ok(())
}

/// Adds how many files ask for a look: an unexpected extension, several formats, no bytes.
fn add_odd(lines: &mut Vec<Vec<Cell>>, alloc: Global, totals: Totals) -> Result<(), AllocError>
    ensures { OnOk result (rows_seen lines.new.items ≡ rows_seen lines.old.items ++ odd_figures totals) }
{
    add_figure(lines, alloc, texts::MISMATCHES, totals.mismatches)?;
    add_figure(lines, alloc, texts::SEVERAL_FORMATS, totals.several_formats)?;
    add_figure(lines, alloc, texts::EMPTY, totals.empty)?;
    Ok(())
}

/// Adds how many formats there are, how many files are copies (of each group of equal files all but one), and how many
/// bytes these copies have.
fn add_groups(
    lines: &mut Vec<Vec<Cell>>,
    alloc: Global,
    orders: &Orders<'_>,
) -> Result<(), AllocError>
    ensures { OnOk result (rows_seen lines.new.items ≡ rows_seen lines.old.items ++ group_figures orders.now) }
{
    let formats = orders.by_count.as_slice().len() as u64;
    let groups = orders.copies.as_slice().len() as u64;
    let copies = together(orders.copies.as_slice());
    add_figure(lines, alloc, texts::FORMATS, formats)?;
    add_figure(
        lines,
        alloc,
        texts::COPIES,
        copies.count.saturating_sub(groups),
    )?;
    add_figure(lines, alloc, texts::COPIED_BYTES, copies.saved)?;
    Ok(())
}

/// Adds a row with a name and a number at the end. Fails only if memory runs out.
fn add_figure(
    lines: &mut Vec<Vec<Cell>>,
    alloc: Global,
    name: &str,
    number: u64,
) -> Result<(), AllocError>
    ensures { OnOk result (rows_seen lines.new.items ≡ rows_seen lines.old.items ++ figure name.now number ∷ []) }
{
    let line = amount_row(alloc, name, number)?;
    lines.push(line)?;
    Ok(())
}
