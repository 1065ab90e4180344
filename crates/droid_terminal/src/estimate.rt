//! Says how far a walk is and, if it is known how much there is, estimates how long it still takes.

ghost use Rattle.std.specs.Prelude.{◌≡◌, [], Some};
ghost use Rattle.droid_terminal.specs.Estimates.{amount_of, left_text, estimate_text, progress_text, so_far_text};
ghost use Rattle.droid_terminal.specs.Estimates.{time_left, work_in};

use crate::measures::{Span, Speed, rate, unit_for};
use droid_tree::Counted;
use std::fmt;
use std::fmt::{Display, Formatter, Write};

/// When estimating the time left, each entry counts as this many extra bytes. `work_in` has the same number, which the
/// prover ties to it, and docs/PROMISES.md. It is a guess: an entry without bytes takes time, too.
const ENTRY: u64 = 16_384;

/// A number of entries and bytes: of the whole tree, or done.
#[derive(Clone, Copy)]
pub(crate) struct Amount {
    /// How many entries, with the skipped ones.
    pub entries: u64,
    /// How many bytes of files.
    pub bytes: u64,
}

impl Amount {
    /// Returns no entries and no bytes.
    pub fn none() -> Amount
        ensures { result ≡ record { entries = 0; bytes = 0 } }
    {
        Amount {
            entries: 0,
            bytes: 0,
        }
    }

    /// Returns the whole amount of a tree that was counted: its folders, files and skipped entries, and its bytes.
    pub fn of(counted: Counted) -> Amount
        ensures { result ≡ amount_of counted }
    {
        let nodes = counted.folders.saturating_add(counted.files);
        Amount {
            entries: nodes.saturating_add(counted.skipped),
            bytes: counted.bytes,
        }
    }

    /// Returns the work that this amount means, in bytes: those of its files, and `ENTRY` for each entry.
    fn work(self) -> u64
        ensures { result ≡ work_in self }
    {
        self.entries
            .saturating_mul(ENTRY)
            .saturating_add(self.bytes)
    }
}

/// How far a walk is after some time. Prints as `Estimate` if the whole amount is known, and else as `SoFar`.
#[derive(Clone, Copy)]
pub(crate) struct Progress {
    /// The whole amount, if it is known.
    pub all: Option<Amount>,
    /// The amount that is done.
    pub done: Amount,
    /// How many milliseconds it has taken so far.
    pub milliseconds: u64,
}

impl Display for Progress {
    ghost output = { λ progress. Some (progress_text progress) };

    fn fmt<W: Write>(&self, f: &mut Formatter<W>) -> fmt::Result {
        let Progress {
            all,
            done,
            milliseconds,
        } = *self;
        match all {
            Some(all) => write!(
                f,
                "{}",
                Estimate {
                    all,
                    done,
                    milliseconds
                }
            ),
            None => write!(f, "{}", SoFar { done, milliseconds }),
        }
    }
}

/// Progress without a known total. Prints the entries and bytes that are done, and the bytes per second.
#[derive(Clone, Copy)]
struct SoFar {
    done: Amount,
    milliseconds: u64,
}

impl Display for SoFar {
    ghost output = { λ far. Some (so_far_text far.done far.milliseconds) };

    #[tactic(auto, unfolding(crate::specs::Estimates::so_far_text))]
    fn fmt<W: Write>(&self, f: &mut Formatter<W>) -> fmt::Result {
        let Amount { entries, bytes } = self.done;
        let unit = unit_for(bytes);
        write!(
            f,
            "{entries} entries, {} {}, {}",
            bytes / unit.bytes,
            unit.name,
            Speed(rate(bytes, self.milliseconds))
        )
    }
}

/// How far a walk of a known amount is after some time. Prints what is done of all, both in the unit that fits all, the
/// bytes per second and the time left.
#[derive(Clone, Copy)]
pub(crate) struct Estimate {
    /// The whole amount.
    pub all: Amount,
    /// The amount that is done.
    pub done: Amount,
    /// How many milliseconds it has taken so far.
    pub milliseconds: u64,
}

impl Estimate {
    /// Estimates the seconds left: the work left, by the work done per second so far. Unknown while that is 0. Both are
    /// `work`, with `ENTRY` for each entry.
    #[tactic(auto, using(crate::proofs::Quotients::quotient_is))]
    fn time_left(self) -> TimeLeft
        ensures { result.0 ≡ time_left self }
    {
        let left = self.all.work().saturating_sub(self.done.work());
        TimeLeft(left.checked_div(rate(self.done.work(), self.milliseconds)))
    }
}

impl Display for Estimate {
    ghost output = { λ estimate. Some (estimate_text estimate) };

    #[tactic(auto, unfolding(crate::specs::Estimates::estimate_text))]
    fn fmt<W: Write>(&self, f: &mut Formatter<W>) -> fmt::Result {
        let Estimate { all, done, .. } = *self;
        let unit = unit_for(all.bytes);
        write!(
            f,
            "{} of {} entries, {} of {} {}, {}{}",
            done.entries,
            all.entries,
            done.bytes / unit.bytes,
            all.bytes / unit.bytes,
            unit.name,
            Speed(rate(done.bytes, self.milliseconds)),
            self.time_left()
        )
    }
}

/// Seconds left. Prints `, .. left` behind an estimate, and nothing if they are unknown.
#[derive(Clone, Copy)]
struct TimeLeft(Option<u64>);

impl Display for TimeLeft {
    ghost output = { λ left. Some (left_text left.0) };

    #[tactic(auto, unfolding(crate::specs::Estimates::left_text))]
    fn fmt<W: Write>(&self, f: &mut Formatter<W>) -> fmt::Result {
        match self.0 {
            Some(seconds) => write!(f, ", {} left", Span(seconds)),
            None => Ok(()),
        }
    }
}
