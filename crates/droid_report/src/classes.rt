//! Counts files by year, by size and by depth: a class is the place of a count in one of three tables.

ghost use Rattle.std.specs.Prelude.{◌≡◌, ◌+◌, ◌<◌, ℕ, IfOk, IfSome, get_or, vec_len};
ghost use Rattle.droid_report.specs.Lines.{line_of};
ghost use Rattle.droid_report.specs.Classes.{IsCountedIn, class_of, is_class, is_in, last_class, no_files, size_class};

use crate::facts::Facts;
use crate::row::Row;
use crate::totals::is_first_of_file;
use std::alloc::{AllocError, Global};

/// By what files are counted.
#[derive(Clone, Copy)]
pub enum By {
    /// By the year of the last change.
    Year,
    /// By size: files without bytes, and then from each power of four to the next.
    Size,
    /// By the number of slashes of the path, up to 64.
    Depth,
}

/// How many files there are of each class.
#[derive(Drop)]
pub struct Classes {
    /// By year, from 0 to 9999.
    pub years: Vec<u64>,
    /// By size: the place of the first power of four that is above it, up to 32.
    pub sizes: Vec<u64>,
    /// By the number of slashes, up to 64.
    pub depths: Vec<u64>,
}

impl Classes {
    ghost use Rattle.droid_report.specs.declared.classes.By.TheVariants as by;

    /// Makes the three tables with a 0 for each class. Fails only if memory runs out.
    pub(crate) fn new(alloc: Global) -> Result<Classes, AllocError>
        ensures years { IfOk result (λ classes. classes.years.items ≡ no_files by.Year) }
        ensures sizes { IfOk result (λ classes. classes.sizes.items ≡ no_files by.Size) }
        ensures depths { IfOk result (λ classes. classes.depths.items ≡ no_files by.Depth) }
    {
        let years = zeros(alloc, By::Year)?;
        let sizes = zeros(alloc, By::Size)?;
        let depths = zeros(alloc, By::Depth)?;
        Ok(Classes {
            years,
            sizes,
            depths,
        })
    }

    /// Counts a file in each table, by its first row; a file without a date is in no year.
    pub(crate) fn add(&mut self, row: &Row)
        ensures years { IsCountedIn by.Year (line_of row.now) self.old.years.items self.new.years.items }
        ensures sizes { IsCountedIn by.Size (line_of row.now) self.old.sizes.items self.new.sizes.items }
        ensures depths { IsCountedIn by.Depth (line_of row.now) self.old.depths.items self.new.depths.items }
    {
        count_row(&mut self.years, row, By::Year);
        count_row(&mut self.sizes, row, By::Size);
        count_row(&mut self.depths, row, By::Depth);
    }
}

/// Makes a table with a 0 for each class, from 0 to the last. Fails only if memory runs out.
fn zeros(alloc: Global, by: By) -> Result<Vec<u64>, AllocError>
    ensures { IfOk result (λ table. table.items ≡ no_files by) }
{
    vec![in alloc; 0; last_class(by) + 1]
}

/// Adds 1 to the class of a file, by its first row, if it has a class. A count stays at 2^64 - 1. Each table has a
/// place for each class; the test of its length is for the prover, which has to see that the place is there.
fn count_row(table: &mut Vec<u64>, row: &Row, by: By)
    ensures { IsCountedIn by (line_of row.now) table.old.items table.new.items }
{
    let Some(class) = class_in(row, by) else {
        return;
    };
    if class < table.len() {
        table[class] = table[class].saturating_add(1);
    }
}

/// Returns the last class, which has all that is larger: [`class_of`] ends at the same three numbers. Each stands in
/// its own definition too; no clause ties them to each other, nor to `ALL_ROWS` of `view/tables.rt`. A table that ended
/// earlier would leave files uncounted. `numbers_of.py` of `tests/program/report` has the three as well.
///
/// 9999 is the greatest year of four digits. 32 is the length of [`POWERS`], as 4^32 is above all sizes. 64 is chosen.
fn last_class(by: By) -> usize
    ensures { result ≡ last_class by }
{
    match by {
        By::Year => 9999,
        By::Size => 32,
        By::Depth => 64,
    }
}

/// Returns the class of a file by its first row. A further row of it, a folder and an unknown date have none.
fn class_in(row: &Row, by: By) -> Option<usize>
    ensures { (class : ℕ) → is_in by class (line_of row.now) ≡ is_class result class }
{
    if is_first_of_file(row) {
        class_of(row.facts, by)
    } else {
        None
    }
}

/// Returns the class of a file: the year, [`size_class`], or the number of slashes, each at most [`last_class`]. A file
/// without a date has no year. Only for slashes is there more: a year that was read has four digits, and `size_class`
/// ends at 32 by itself.
fn class_of(facts: Facts, by: By) -> Option<usize>
    ensures { result ≡ class_of by facts }
{
    match by {
        By::Year => match facts.year {
            Some(year) => Some(year.min(9999) as usize),
            None => None,
        },
        By::Size => Some(size_class(facts.size).min(32)),
        By::Depth => Some(facts.depth.min(64)),
    }
}

/// The powers of four from 1 to 4^31: `powers` of `specs/Classes.antt` has the same, which the prover ties.
const POWERS: [u64; 32] = [
    0x1,
    0x4,
    0x10,
    0x40,
    0x100,
    0x400,
    0x1000,
    0x4000,
    0x10000,
    0x40000,
    0x100000,
    0x400000,
    0x1000000,
    0x4000000,
    0x10000000,
    0x40000000,
    0x100000000,
    0x400000000,
    0x1000000000,
    0x4000000000,
    0x10000000000,
    0x40000000000,
    0x100000000000,
    0x400000000000,
    0x1000000000000,
    0x4000000000000,
    0x10000000000000,
    0x40000000000000,
    0x100000000000000,
    0x400000000000000,
    0x1000000000000000,
    0x4000000000000000,
];

/// Returns the place in [`POWERS`] of the first power of four that is above a size in bytes, or 32: 0 has class 0, and
/// 4^n to 4^(n + 1) - 1 have class n + 1. `view/class_names.rt` names them by their least size.
#[tactic(auto, unfolding(crate::specs::Classes::size_class))]
fn size_class(size: u64) -> usize
    ensures { result ≡ size_class size }
{
    POWERS.iter().position(|power| size < *power).unwrap_or(32)
}
