//! Puts a table together: its parts, the names of its columns, and its place behind the tables before it.

ghost use Rattle.std.specs.Prelude.{◌≡◌, ◌++◌, ◌∷◌, [], IfOk, OnOk, map, string_bytes};
ghost use Rattle.droid_report.specs.Seen.{Shown, rows_seen, table_seen, tables_seen};

use crate::html::tables::{Cell, Table};
use std::alloc::{AllocError, Global};

/// Makes a table of its parts; only the title is copied. Fails only if memory runs out.
pub(crate) fn table(
    alloc: Global,
    title: &str,
    note: String,
    heads: Vec<String>,
    rows: Vec<Vec<Cell>>,
) -> Result<Table, AllocError>
    ensures { IfOk result (λ table.
        table_seen table
        ≡ record {
          title = title.now;
          note = string_bytes note;
          heads = map string_bytes heads.items;
          rows = rows_seen rows.items;
        }) }
{
    let title = String::from_str(alloc, title)?;
    Ok(Table {
        title,
        note,
        heads,
        rows,
    })
}

/// Makes the names of two columns, from left to right. Fails only if memory runs out, as the two below.
pub(crate) fn two_heads(alloc: Global, first: &str, second: &str) -> Result<Vec<String>, AllocError>
    ensures { IfOk result (λ heads. map string_bytes heads.items ≡ first.now ∷ second.now ∷ []) }
{
    let mut heads = Vec::new(alloc);
    let name = String::from_str(alloc, first)?;
    heads.push(name)?;
    let name = String::from_str(alloc, second)?;
    heads.push(name)?;
    Ok(heads)
}

/// Makes the names of three columns, from left to right.
pub(crate) fn three_heads(
    alloc: Global,
    first: &str,
    second: &str,
    third: &str,
) -> Result<Vec<String>, AllocError>
    ensures { IfOk result (λ heads. map string_bytes heads.items ≡ first.now ∷ second.now ∷ third.now ∷ []) }
{
    let mut heads = two_heads(alloc, first, second)?;
    let name = String::from_str(alloc, third)?;
    heads.push(name)?;
    Ok(heads)
}

/// Makes the names of four columns, from left to right.
pub(crate) fn four_heads(
    alloc: Global,
    first: &str,
    second: &str,
    third: &str,
    fourth: &str,
) -> Result<Vec<String>, AllocError>
    ensures { IfOk result (λ heads.
        map string_bytes heads.items ≡ first.now ∷ second.now ∷ third.now ∷ fourth.now ∷ []) }
{
    let mut heads = three_heads(alloc, first, second, third)?;
    let name = String::from_str(alloc, fourth)?;
    heads.push(name)?;
    Ok(heads)
}

/// Adds a table behind those of the page. Fails only if memory runs out.
pub(crate) fn add(tables: &mut Vec<Table>, table: Table) -> Result<(), AllocError>
    ensures { OnOk result (tables_seen tables.new.items ≡ tables_seen tables.old.items ++ table_seen table ∷ []) }
{
    tables.push(table)?;
    Ok(())
}
