//! The note below a table's title that says how many rows are not shown, and where the CSV has them.

ghost use Rattle.std.specs.Prelude.{◌≡◌, ◌-◌, IfOk, Some, string_bytes};
ghost use Rattle.droid_report.specs.ShownTables.{more_text};

use crate::texts;
use std::alloc::{AllocError, Global};
use std::fmt;
use std::fmt::{Display, Formatter, Write};

/// Makes the note of a table that shows `shown` of `total` rows: how many more there are, and `elsewhere`, which tells
/// where to find them. It is empty if all are shown. The tables of groups hand over how many are left, and 0 as shown.
pub(crate) fn more_note(
    alloc: Global,
    total: u64,
    shown: u64,
    elsewhere: &str,
) -> Result<String, AllocError>
    ensures { IfOk result (λ note. string_bytes note ≡ more_text (total - shown) elsewhere.now) }
{
    let more = total.saturating_sub(shown);
    let note = More { more, elsewhere };
    format!(in alloc; "{note}")
}

/// How many rows more there are, and where.
#[derive(Clone, Copy)]
struct More<'a> {
    more: u64,
    elsewhere: &'a str,
}

impl Display for More<'_> {
    ghost output = { λ it. Some (more_text it.more it.elsewhere.now) };

    /// Writes the number, ` more: ` and where; nothing if the number is 0.
    #[tactic(auto, unfolding(crate::specs::ShownTables::more_text))]
    fn fmt<W: Write>(&self, f: &mut Formatter<W>) -> fmt::Result {
        if self.more == 0 {
            return Ok(());
        }
        write!(f, "{}{}{}", self.more, texts::MORE, self.elsewhere)
    }
}
