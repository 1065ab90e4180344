//! How much a reporter prints, and how often.

ghost use Rattle.std.specs.Prelude.{◌≡◌};
ghost use Rattle.droid_terminal.specs.Rhythms.{calls_after, is_due, verbosity_of};

/// How many milliseconds pass between two lines of progress where they are not on a terminal. `is_due` of `specs/` has
/// the same number, which the prover ties to it; the help of `profile` says `every ten seconds`.
const BETWEEN_LINES: u64 = 10_000;

/// How many milliseconds pass on a terminal before the line is replaced. `is_due` of `specs/` has the same number, and
/// the law `ten_lines_a_second` needs at least 100.
const BETWEEN_WRITINGS: u64 = 100;

/// How many calls pass at most without a look at the clock. `calls_after` of `specs/` has the same number, and
/// `test_clock` of `profile_progress.py` counts one look in sixteen calls.
const MOST_CALLS: u32 = 15;

/// How much is printed.
#[derive(Clone, Copy, PartialEq, Eq)]
pub enum Verbosity {
    /// No progress, and of the summary only how many entries were skipped and how many of these are links, if any.
    /// Skipped entries are printed as always.
    Quiet,
    /// A line of progress every ten seconds.
    Lines,
    /// One line of progress that is replaced ten times a second.
    Terminal,
}

impl Verbosity {
    /// Returns how much is printed: `Quiet` if that is asked for, and otherwise by whether standard error is a
    /// terminal.
    pub fn of(quiet: bool, on_terminal: bool) -> Verbosity
        ensures { result ≡ verbosity_of quiet on_terminal }
    {
        match (quiet, on_terminal) {
            (true, _) => Verbosity::Quiet,
            (false, true) => Verbosity::Terminal,
            (false, false) => Verbosity::Lines,
        }
    }
}

/// Returns whether a line of progress is due at the millisecond `now`, if the last one was printed at `reported`.
pub(crate) fn is_due(verbosity: Verbosity, reported: u64, now: u64) -> bool
    ensures { result ≡ is_due verbosity reported now }
{
    let passed = now.saturating_sub(reported);
    match verbosity {
        Verbosity::Quiet => false,
        Verbosity::Lines => passed >= BETWEEN_LINES,
        Verbosity::Terminal => passed >= BETWEEN_WRITINGS,
    }
}

/// Returns how many calls pass until the clock is read again, if `calls` passed before it showed the millisecond `now`,
/// and it showed `looked` before those: none, or where the millisecond is the same, twice as many and one, so 1, 3, 7
/// and `MOST_CALLS`. For speed alone: a reading at each call would cost time.
pub(crate) fn calls_after(calls: u32, looked: u64, now: u64) -> u32
    ensures { result ≡ calls_after calls looked now }
{
    if now != looked {
        return 0;
    }
    calls.saturating_mul(2).saturating_add(1).min(MOST_CALLS)
}
