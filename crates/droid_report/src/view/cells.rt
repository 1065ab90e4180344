//! Cells of tables, rows of two or three cells, and how long a bar is.

ghost use Rattle.std.specs.Prelude.{◌≡◌, ◌∷◌, [], IfOk};
ghost use Rattle.droid_report.specs.Seen.{Amount, Bar, Words, row_seen, seen, share_of};

use crate::html::tables::Cell;
use std::alloc::{AllocError, Global};

/// Makes a cell with a copy of a text. Fails only if memory runs out, as the rows below.
pub(crate) fn words(alloc: Global, text: &str) -> Result<Cell, AllocError>
    ensures { IfOk result (λ cell. seen cell ≡ Words text.now) }
{
    let text = String::from_str(alloc, text)?;
    Ok(Cell::Text(text))
}

/// Makes a row with a text and a number.
pub(crate) fn amount_row(alloc: Global, text: &str, amount: u64) -> Result<Vec<Cell>, AllocError>
    ensures { IfOk result (λ row. row_seen row ≡ Words text.now ∷ Amount amount ∷ []) }
{
    let mut row = Vec::new(alloc);
    let cell = words(alloc, text)?;
    row.push(cell)?;
    row.push(Cell::Number(amount))?;
    Ok(row)
}

/// Makes a row with a text, a number, and a bar of this many thousandths: at most 1000, as [`share_of`] returns it,
/// which no clause asks for.
pub(crate) fn bar_row(
    alloc: Global,
    text: &str,
    amount: u64,
    share: u64,
) -> Result<Vec<Cell>, AllocError>
    ensures { IfOk result (λ row. row_seen row ≡ Words text.now ∷ Amount amount ∷ Bar share ∷ []) }
{
    let mut row = amount_row(alloc, text, amount)?;
    row.push(Cell::Bar(share))?;
    Ok(row)
}

/// Returns a bar's length: `count` in thousandths of `most`, the greatest number of its table, rounded down, and at
/// most 1000. A `most` of 0 counts as 1. It is exact while 64 bits hold `count` times 1000. `html/tables.rt` says what
/// else goes with this number.
pub(crate) fn share_of(count: u64, most: u64) -> u64
    ensures { result ≡ share_of count most }
{
    (count.saturating_mul(1000) / most.max(1)).min(1000)
}
