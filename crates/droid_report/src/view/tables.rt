//! The tables of a report, part by part in the order of the page: each with its title, note, columns and rows.
//!
//! `limit` is how many rows a list has at most; 0 leaves the lists empty. Each call fails only if memory runs out; then
//! the tables are dropped.

ghost use Rattle.std.specs.Prelude.{◌≡◌, ◌++◌, IfOk, OnOk, string_bytes};
ghost use Rattle.droid_report.specs.Seen.{table_seen, tables_seen};
ghost use Rattle.droid_report.specs.ShownTables as shown;

use crate::classes::{By, Classes};
use crate::html::tables::Table;
use crate::lists::Lists;
use crate::ranks::Group;
use crate::row::Row;
use crate::texts;
use crate::totals::Totals;
use crate::view::class_rows::class_rows;
use crate::view::cut::cut;
use crate::view::figures::figures;
use crate::view::notes::more_note;
use crate::view::orders::Orders;
use crate::view::picture::{Measure, picture_note, picture_rows};
use crate::view::rows::{copy_rows, file_rows, format_rows};
use crate::view::table::{add, four_heads, table, three_heads, two_heads};
use std::alloc::{AllocError, Global};

/// How many rows the tables of sizes and of depths have at most: all that there can be, which are the classes 0 to 64
/// of depths (`last_class` of `classes.rt`) and fewer of sizes. Nothing but this line ties it to them. The prover ties
/// it to `class_tables` of `specs/ShownTables.antt`; `numbers_of.py` of `tests/program/report` has it too.
const ALL_ROWS: usize = 65;

/// Adds the table of totals, and the two pictures of formats.
pub(crate) fn add_overview(
    tables: &mut Vec<Table>,
    alloc: Global,
    totals: Totals,
    orders: &Orders<'_>,
    limit: usize,
) -> Result<(), AllocError>
    ensures { OnOk result
        (tables_seen tables.new.items ≡ tables_seen tables.old.items ++ shown.overview totals orders.now limit) }
{
    let table = totals_table(alloc, totals, orders)?;
    add(tables, table)?;
    add_pictures(tables, alloc, orders, limit)?;
    Ok(())
}

/// Adds the two pictures of formats: by number of files, then by bytes, each in its own order.
fn add_pictures(
    tables: &mut Vec<Table>,
    alloc: Global,
    orders: &Orders<'_>,
    limit: usize,
) -> Result<(), AllocError>
    ensures { OnOk result
        (tables_seen tables.new.items ≡ tables_seen tables.old.items ++ shown.pictures orders.now limit) }
{
    let table = picture(
        alloc,
        texts::FORMATS_BY_FILES,
        texts::FILES,
        orders.by_count.as_slice(),
        Measure::Files,
        limit,
    )?;
    add(tables, table)?;
    let table = picture(
        alloc,
        texts::FORMATS_BY_BYTES,
        texts::BYTES,
        orders.by_bytes.as_slice(),
        Measure::Bytes,
        limit,
    )?;
    add(tables, table)?;
    Ok(())
}

/// Makes the table of totals: two columns, no note.
fn totals_table(alloc: Global, totals: Totals, orders: &Orders<'_>) -> Result<Table, AllocError>
    ensures { IfOk result (λ table. table_seen table ≡ shown.totals_table totals orders.now) }
{
    let rows = figures(alloc, totals, orders)?;
    let heads = two_heads(alloc, texts::WHAT, texts::NUMBER)?;
    let note = String::from_str(alloc, texts::NO_NOTE)?;
    let table = table(alloc, texts::TOTALS, note, heads, rows)?;
    Ok(table)
}

/// Makes a picture of formats as a table: names, numbers in `unit` (its column's name) and bars. `groups` are the
/// formats in the order of `measure`.
fn picture(
    alloc: Global,
    title: &str,
    unit: &str,
    groups: &[Group<'_>],
    measure: Measure,
    limit: usize,
) -> Result<Table, AllocError>
    ensures { IfOk result (λ table. table_seen table ≡ shown.picture title.now unit.now groups.now measure limit) }
{
    let rows = picture_rows(alloc, groups, measure, limit)?;
    let heads = three_heads(alloc, texts::FORMAT, unit, texts::SHARE)?;
    let note = String::from_str(alloc, picture_note(limit))?;
    let table = table(alloc, title, note, heads, rows)?;
    Ok(table)
}

/// Adds the tables of files by year, size and depth. Only that of years, which may have 10,000 rows, has a limit.
pub(crate) fn add_classes(
    tables: &mut Vec<Table>,
    alloc: Global,
    classes: &Classes,
    limit: usize,
) -> Result<(), AllocError>
    ensures { OnOk result
        (tables_seen tables.new.items ≡ tables_seen tables.old.items ++ shown.class_tables classes.now limit) }
{
    let years = classes.years.as_slice();
    let table = class_table(alloc, YEARS, By::Year, years, limit)?;
    add(tables, table)?;
    let sizes = classes.sizes.as_slice();
    let table = class_table(alloc, SIZES, By::Size, sizes, ALL_ROWS)?;
    add(tables, table)?;
    let depths = classes.depths.as_slice();
    let table = class_table(alloc, DEPTHS, By::Depth, depths, ALL_ROWS)?;
    add(tables, table)?;
    Ok(())
}

/// What stands around the rows of a table of classes: its title, the line below that, and the name of its first column.
#[derive(Clone, Copy)]
struct Frame<'a> {
    title: &'a str,
    note: &'a str,
    head: &'a str,
}

const YEARS: Frame<'static> = Frame {
    title: texts::YEARS,
    note: texts::YEARS_NOTE,
    head: texts::YEAR,
};

const SIZES: Frame<'static> = Frame {
    title: texts::SIZES,
    note: texts::SIZES_NOTE,
    head: texts::SIZE,
};

const DEPTHS: Frame<'static> = Frame {
    title: texts::DEPTH,
    note: texts::DEPTH_NOTE,
    head: texts::SLASHES,
};

/// Makes a table of files by year, size or depth, with at most `limit` rows. `counts` has the number of files of each
/// class.
fn class_table(
    alloc: Global,
    frame: Frame<'_>,
    by: By,
    counts: &[u64],
    limit: usize,
) -> Result<Table, AllocError>
    ensures { IfOk result (λ table.
        table_seen table
        ≡ shown.class_table frame.entry.title.now frame.entry.note.now frame.entry.head.now by counts.now limit) }
{
    let rows = class_rows(alloc, by, counts, limit)?;
    let heads = three_heads(alloc, frame.head, texts::FILES, texts::SHARE)?;
    let note = String::from_str(alloc, frame.note)?;
    let table = table(alloc, frame.title, note, heads, rows)?;
    Ok(table)
}

/// Adds the tables of formats and of equal files.
pub(crate) fn add_groups(
    tables: &mut Vec<Table>,
    alloc: Global,
    orders: &Orders<'_>,
    limit: usize,
) -> Result<(), AllocError>
    ensures { OnOk result
        (tables_seen tables.new.items ≡ tables_seen tables.old.items ++ shown.group_tables orders.now limit) }
{
    let table = format_table(alloc, orders.by_count.as_slice(), limit)?;
    add(tables, table)?;
    let table = copy_table(alloc, orders.copies.as_slice(), limit)?;
    add(tables, table)?;
    Ok(())
}

/// Makes the table of the first formats, with a note of how many more there are.
fn format_table(alloc: Global, formats: &[Group<'_>], limit: usize) -> Result<Table, AllocError>
    ensures { IfOk result (λ table. table_seen table ≡ shown.format_table formats.now limit) }
{
    let (first, rest) = cut(formats, limit);
    let rows = format_rows(alloc, first)?;
    let heads = four_heads(alloc, texts::PUID, texts::NAME, texts::FILES, texts::BYTES)?;
    let note = more_note(alloc, rest.len() as u64, 0, texts::FORMATS_ELSEWHERE)?;
    let table = table(alloc, texts::ALL_FORMATS, note, heads, rows)?;
    Ok(table)
}

/// Makes the table of the first groups of equal files, with a note of how many more groups there are.
fn copy_table(alloc: Global, groups: &[Group<'_>], limit: usize) -> Result<Table, AllocError>
    ensures { IfOk result (λ table. table_seen table ≡ shown.copy_table groups.now limit) }
{
    let (first, rest) = cut(groups, limit);
    let rows = copy_rows(alloc, first)?;
    let heads = four_heads(
        alloc,
        texts::FIRST_PATH,
        texts::HASH_AND_SIZE,
        texts::FILES,
        texts::SAVED,
    )?;
    let note = more_note(alloc, rest.len() as u64, 0, texts::EQUAL_ELSEWHERE)?;
    let table = table(alloc, texts::EQUAL, note, heads, rows)?;
    Ok(table)
}

/// Adds the lists of files that ask for a look: not identified, an unexpected extension, several formats. `totals` has
/// how many there are of each.
pub(crate) fn add_lists(
    tables: &mut Vec<Table>,
    alloc: Global,
    totals: Totals,
    lists: &Lists,
    limit: usize,
) -> Result<(), AllocError>
    ensures { OnOk result
        (tables_seen tables.new.items ≡ tables_seen tables.old.items ++ shown.list_tables totals lists.now limit) }
{
    let rows = lists.unidentified.as_slice();
    let note = note_for(
        alloc,
        totals.unidentified,
        rows,
        limit,
        texts::UNIDENTIFIED_ELSEWHERE,
    )?;
    let table = file_table(alloc, texts::NOT_IDENTIFIED, note, rows, limit)?;
    add(tables, table)?;
    let rows = lists.mismatches.as_slice();
    let note = note_for(
        alloc,
        totals.mismatches,
        rows,
        limit,
        texts::MISMATCHES_ELSEWHERE,
    )?;
    let table = file_table(alloc, texts::UNEXPECTED, note, rows, limit)?;
    add(tables, table)?;
    let rows = lists.several_formats.as_slice();
    let note = note_for(
        alloc,
        totals.several_formats,
        rows,
        limit,
        texts::SEVERAL_ELSEWHERE,
    )?;
    let table = file_table(alloc, texts::SEVERAL, note, rows, limit)?;
    add(tables, table)?;
    Ok(())
}

/// Adds the lists of the largest, the oldest and the newest files. Only the first notes how many more files there are.
pub(crate) fn add_extremes(
    tables: &mut Vec<Table>,
    alloc: Global,
    totals: Totals,
    lists: &Lists,
    limit: usize,
) -> Result<(), AllocError>
    ensures { OnOk result
        (tables_seen tables.new.items ≡ tables_seen tables.old.items ++ shown.extreme_tables totals lists.now limit) }
{
    let rows = lists.largest.as_slice();
    let note = note_for(alloc, totals.files, rows, limit, texts::LARGEST_ELSEWHERE)?;
    let table = file_table(alloc, texts::LARGEST_FILES, note, rows, limit)?;
    add(tables, table)?;
    let note = String::from_str(alloc, texts::AGE_NOTE)?;
    let table = file_table(alloc, texts::OLDEST, note, lists.oldest.as_slice(), limit)?;
    add(tables, table)?;
    let note = String::from_str(alloc, texts::AGE_NOTE)?;
    let table = file_table(alloc, texts::NEWEST, note, lists.newest.as_slice(), limit)?;
    add(tables, table)?;
    Ok(())
}

/// Makes the note of how many of `total` files a list of these rows leaves out, which shows at most `limit` of them,
/// and of `elsewhere`, where the CSV has them.
fn note_for(
    alloc: Global,
    total: u64,
    rows: &[Row],
    limit: usize,
    elsewhere: &str,
) -> Result<String, AllocError>
    ensures { IfOk result (λ note. string_bytes note ≡ shown.note_for total rows.now limit elsewhere.now) }
{
    let shown = limit.min(rows.len()) as u64;
    let note = more_note(alloc, total, shown, elsewhere)?;
    Ok(note)
}

/// Makes a table of the first `limit` of these files, with a note below its title.
fn file_table(
    alloc: Global,
    title: &str,
    note: String,
    rows: &[Row],
    limit: usize,
) -> Result<Table, AllocError>
    ensures { IfOk result (λ table. table_seen table ≡ shown.file_table title.now (string_bytes note) rows.now limit) }
{
    let (first, _) = cut(rows, limit);
    let rows = file_rows(alloc, first)?;
    let heads = three_heads(alloc, texts::PATH, texts::BYTES, texts::CHANGED)?;
    let table = table(alloc, title, note, heads, rows)?;
    Ok(table)
}
