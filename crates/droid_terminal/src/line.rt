//! A line of progress, cut to the columns there are, and the codes around it on a terminal.

ghost use Rattle.std.specs.Prelude.{◌≡◌, ◌≤◌, IfOk, Some};
ghost use Rattle.droid_terminal.specs.Cuts.{columns_of};
ghost use Rattle.droid_terminal.specs.Estimates.{progress_text};
ghost use Rattle.droid_terminal.specs.Lines.{columns_for, framed_text, joined_text, IsLine};
ghost use Rattle.droid_terminal.specs.Paths.{shown_text};

use crate::columns::{end_within, front_within};
use crate::estimate::Progress;
use crate::path_text::Shown;
use crate::verbosity::Verbosity;
use droid_frame::Text;
use std::alloc::{AllocError, Global};
use std::fmt;
use std::fmt::{Display, Formatter, Write};
use unicode_width::UnicodeWidthStr;

/// How many columns stand between how far the walk is and the path: those of the `: ` in `joined`. `IsLine` has the
/// same 2.
const BETWEEN: usize = 2;

/// How wide a line of progress is at most where it is not on a terminal, in columns. `columns_for` of `specs/` has it
/// too, which the prover ties to it, and docs/PROMISES.md.
const LINE_COLUMNS: usize = 160;

/// How wide it is at most on a terminal: one column less than 80. A narrower terminal cuts the line and does not wrap
/// it. `columns_for` of `specs/` has it too, which the prover ties to it, docs/PROMISES.md, and `test_terminal` of
/// `profile_progress.py`.
const TERMINAL_COLUMNS: usize = 79;

/// Returns how far the walk is and the end of the path that it is at, within these columns: the path as `Shown` prints
/// it gets the room that is left. Fails only if memory runs out.
pub(crate) fn line_of(
    alloc: Global,
    progress: Progress,
    path: &str,
    columns: usize,
) -> Result<Text, AllocError>
    ensures width { IfOk result (λ line. columns_of line ≤ columns) }
    ensures line { IfOk result (λ line. IsLine columns (progress_text progress) (shown_text path.now) line) }
{
    let far = format!(in alloc; "{progress}")?;
    let far = front_within(far.as_str(), columns);
    let shown = format!(in alloc; "{}", Shown(path.as_bytes()))?;
    let room = columns.saturating_sub(far.width()).saturating_sub(BETWEEN);
    let end = end_within(shown.as_str(), room);
    let line = joined(alloc, far, end, columns)?;
    Ok(line)
}

/// Joins how far the walk is and the end of the path, with `: ` between. Returns the first alone if the end is empty or
/// if both do not fit the columns. Fails only if memory runs out.
#[tactic(auto, unfolding(crate::specs::Lines::joined_text))]
fn joined(alloc: Global, far: &str, end: &str, columns: usize) -> Result<Text, AllocError>
    ensures { IfOk result (λ line. line ≡ joined_text columns far.now end.now) }
{
    if end.is_empty() {
        return Text::copy_of(alloc, far);
    }
    let line = format!(in alloc; "{far}: {end}")?;
    if line.as_str().width() > columns {
        return Text::copy_of(alloc, far);
    }
    Ok(Text::from(line))
}

/// A line of progress as it is written. On a terminal it replaces the line before and is cut at the terminal's width:
/// the codes go to the line's beginning, turn wrapping off, delete the rest of the line, and turn wrapping on again.
/// Elsewhere it ends with a line feed. A quiet reporter prints none.
#[derive(Clone, Copy)]
pub(crate) struct Framed<'a> {
    /// How much is printed.
    pub verbosity: Verbosity,
    /// The line.
    pub line: &'a str,
}

impl Display for Framed<'_> {
    ghost output = { λ framed. Some (framed_text framed.verbosity framed.line.now) };

    #[tactic(auto, unfolding(crate::specs::Lines::framed_text))]
    fn fmt<W: Write>(&self, f: &mut Formatter<W>) -> fmt::Result {
        let line = self.line;
        match self.verbosity {
            Verbosity::Terminal => write!(f, "\r\x1b[?7l{line}\x1b[K\x1b[?7h"),
            Verbosity::Quiet | Verbosity::Lines => writeln!(f, "{line}"),
        }
    }
}

/// Returns how wide a line of progress is at most, in columns. (A quiet reporter prints none.)
pub(crate) fn columns_for(verbosity: Verbosity) -> usize
    ensures { result ≡ columns_for verbosity }
{
    match verbosity {
        Verbosity::Quiet | Verbosity::Lines => LINE_COLUMNS,
        Verbosity::Terminal => TERMINAL_COLUMNS,
    }
}
