//! A direct comparison with the bytes at one offset, which most patterns need only. It is for speed: after `None` the
//! sets of places decide.

ghost use Rattle.std.specs.Prelude.{◌≡◌, ◌↔◌, ◌≤◌, ℕ, List, IfSome, IsTrue, length};
ghost use Rattle.std.specs.List.{flat_map};
ghost use Rattle.droid_pattern.specs.Cells.{elements_at};
ghost use Rattle.droid_pattern.specs.Positions.{Path};

use crate::cell::Cell;

/// Returns whether the cells match from this position on, one after another, or `None` if sets are needed.
///
/// A comparison decides it if each cell before the first one that fails is one byte, and that cell is one byte or a
/// choice.
pub(crate) fn settled_at(cells: &[Cell], pool: &[u8], bytes: &[u8], at: usize) -> Option<bool>
    requires { at ≤ length bytes.now }
    ensures { IfSome result (λ found.
        IsTrue found ↔ ((q : ℕ) × Path (flat_map (elements_at pool.now) cells.now) bytes.now at q)) }
{
    let mut place = at;
    for cell in cells {
        let passes = cell.passes(pool, bytes, place)?;
        if !passes {
            return Some(false);
        }
        place += 1;
    }
    Some(true)
}

/// Returns whether the cells match up to this position, from the last one back, or `None` if sets are needed.
///
/// A comparison decides it if each cell from the last one back to the first one that fails is one byte.
pub(crate) fn settled_before(cells: &[Cell], bytes: &[u8], end: usize) -> Option<bool>
    requires { end ≤ length bytes.now }
    ensures { IfSome result (λ found.
        (pool : List ℕ)
        → IsTrue found
        ↔ ((p : ℕ) × (p ≤ length bytes.now) × Path (flat_map (elements_at pool) cells.now) bytes.now p end)) }
{
    let mut place = end;
    let mut rest = cells;
    while let [before @ .., cell] = rest {
        let passes = cell.passes_before(bytes, place)?;
        if !passes {
            return Some(false);
        }
        place -= 1;
        rest = before;
    }
    Some(true)
}
