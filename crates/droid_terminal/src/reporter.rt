//! Prints on standard error what a walk does. Proved is what is counted, and that a line is noted as printed only when
//! it is due. That lines are printed, and which, has no clause: in `tests/program/folders`, `profile_progress.py` tests
//! it, `profile_arguments.py` with `--quiet`. That the whole amount and the time left are printed has no test.

ghost use Rattle.std.specs.Prelude.{◌≡◌, Some};
ghost use Rattle.droid_terminal.specs.Estimates.{amount_of};
ghost use Rattle.droid_terminal.specs.Rhythms.{IsReported, calls_after};
ghost use Rattle.droid_terminal.specs.Reporters.{ReporterHears};

use crate::estimate::{Amount, Progress};
use crate::format_counts::most_frequent;
use crate::line::{Framed, columns_for, line_of};
use crate::path_text::SkippedLine;
use crate::table::{CountLine, Links, Table, Took};
use crate::totals::Totals;
use crate::verbosity::{Verbosity, calls_after, is_due};
use droid_frame::Reply;
use droid_tree::{Counted, Skipped, Watcher};
use std::alloc::Global;
use std::time::{Clock, Instant};

/// Prints skipped entries, progress, and a summary at the end.
#[derive(Drop)]
pub struct Reporter<'a, R> {
    runtime: &'a R,
    alloc: Global,
    verbosity: Verbosity,
    /// How much there is, if it is known.
    all: Option<Amount>,
    totals: Totals,
    /// When the walk began, if the clock could be read.
    begun: Option<Instant>,
    /// At which millisecond the last line of progress was printed.
    reported: u64,
    /// At which millisecond the clock was read last.
    looked: u64,
    /// How many calls were to pass without a look at the clock, as that last look settled.
    calls: u32,
    /// How many of these are left.
    unseen: u32,
}

impl<'a, R: Eprint + Clock> Reporter<'a, R> {
    /// Makes a reporter that has printed nothing and does not know how large the tree is. Reads the clock once. Without
    /// a contract: all that is proved is what each call adds. `test_summary` of `profile_progress.py` holds that it
    /// counts from 0.
    pub fn new(runtime: &'a R, alloc: Global, verbosity: Verbosity) -> Reporter<'a, R> {
        Reporter {
            runtime,
            alloc,
            verbosity,
            all: None,
            totals: Totals::new(alloc),
            begun: Instant::now(runtime).ok(),
            reported: 0,
            looked: 0,
            calls: 0,
            unseen: 0,
        }
    }

    /// Sets the size of the tree, so that lines of progress have the whole amount and the time left. The caller counts
    /// the tree before the walk.
    pub fn expect(&mut self, counted: Counted)
        ensures all { self.new.all ≡ Some (amount_of counted) }
        ensures totals { self.new.totals ≡ self.old.totals }
    {
        self.all = Some(Amount::of(counted));
    }

    /// Prints a line of progress with this path if one is due. While calls come fast, most of them don't read the
    /// clock: no clause holds `unseen`, `test_clock` of `profile_progress.py` does. Prints none where the clock fails.
    fn print_progress(&mut self, path: &str)
        ensures totals { self.new.totals ≡ self.old.totals }
        ensures reported { IsReported self.old.verbosity self.old.reported self.new.verbosity self.new.reported }
    {
        if self.verbosity == Verbosity::Quiet {
            return;
        }
        if self.unseen > 0 {
            self.unseen -= 1;
            return;
        }
        let Some(now) = self.milliseconds() else {
            return;
        };
        self.see(now);
        if is_due(self.verbosity, self.reported, now) {
            self.reported = now;
            self.print_line(path, now);
        }
    }

    /// Notes that the clock was read at the millisecond `now`, and how many calls may pass until it is read again. No
    /// clause holds what it sets in `calls` and `looked`; `test_clock` of `profile_progress.py` counts the readings.
    fn see(&mut self, now: u64)
        ensures totals { self.new.totals ≡ self.old.totals }
        ensures reported { (self.new.verbosity ≡ self.old.verbosity) × (self.new.reported ≡ self.old.reported) }
        ensures calls { self.new.unseen ≡ calls_after self.old.calls self.old.looked now }
    {
        self.calls = calls_after(self.calls, self.looked, now);
        self.unseen = self.calls;
        self.looked = now;
    }

    /// Returns the milliseconds since the walk began, 0 where the clock went back. `None` if the clock failed then or
    /// fails now.
    fn milliseconds(&self) -> Option<u64> {
        let begun = self.begun?;
        let now = Instant::now(self.runtime).ok()?;
        u64::try_from(now.saturating_duration_since(begun).as_millis()).ok()
    }

    /// Prints a line of progress. If there is no memory for it, prints nothing; a fault of standard error is ignored,
    /// as wherever a reporter prints.
    fn print_line(&self, path: &str, milliseconds: u64) {
        let progress = Progress {
            all: self.all,
            done: self.totals.counts.done(),
            milliseconds,
        };
        let verbosity = self.verbosity;
        let Ok(line) = line_of(self.alloc, progress, path, columns_for(verbosity)) else {
            return;
        };
        let line = line.as_str();
        let _ = eprint!(self.runtime; "{}", Framed { verbosity, line });
    }

    /// Removes the line of progress from a terminal, so that another line can take its place. Elsewhere does nothing. A
    /// quiet reporter counts as elsewhere.
    pub fn clear(&self) {
        if self.verbosity == Verbosity::Terminal {
            let _ = eprint!(self.runtime; "\r\x1b[K");
        }
    }

    /// Removes the line of progress, and prints the summary: how many entries were skipped, how many of them are links,
    /// and the table. A quiet reporter prints no table, and nothing if none was skipped.
    pub fn end(self) {
        self.clear();
        let skipped = CountLine {
            name: "skipped in all",
            count: self.totals.counts.skipped,
        };
        if self.verbosity == Verbosity::Quiet && skipped.count == 0 {
            return;
        }
        let links = Links(self.totals.counts.links);
        let _ = eprint!(self.runtime; "{skipped}{links}");
        if self.verbosity != Verbosity::Quiet {
            self.print_table();
        }
    }

    /// Prints the counts with the most frequent formats, and how many whole seconds the walk took, unless the clock
    /// fails. Says that the formats are unknown if not all were counted or memory runs out; no test has either.
    fn print_table(&self) {
        let took = Took(self.milliseconds().map(|milliseconds| milliseconds / 1_000));
        let counts = self.totals.counts;
        match most_frequent(self.alloc, &self.totals.formats) {
            Ok(frequent) if self.totals.has_all_formats => {
                let formats = Some(frequent.as_slice());
                let _ = eprint!(self.runtime; "{}{took}", Table { counts, formats });
            }
            _ => {
                let formats = None;
                let _ = eprint!(self.runtime; "{}{took}", Table { counts, formats });
            }
        }
    }
}

// `Watcher` says when each is called; the `ghost` line holds what is counted. All but `skipped` may print progress;
// `skipped` prints the entry at once, also a quiet reporter's.
impl<R: Eprint + Clock> Watcher for Reporter<'_, R> {
    ghost hears = { λ old heard new. ReporterHears old heard new };

    fn skipped(&mut self, path: &[u8], why: Skipped) {
        self.totals.counts.count_skipped(why);
        self.clear();
        let _ = eprint!(self.runtime; "{}", SkippedLine { path, why });
    }

    fn held(&mut self, path: &str, count: u64) {
        self.totals.counts.count_held(count);
        self.print_progress(path);
    }

    fn took_bytes(&mut self, path: &str, count: u32) {
        self.totals.counts.count_bytes(count);
        self.print_progress(path);
    }

    fn took_folder(&mut self, path: &str) {
        self.totals.counts.count_taken();
        self.print_progress(path);
    }

    fn took_file(&mut self, path: &str, found: &Reply) {
        self.totals.counts.count_taken();
        self.totals.count_found(found);
        self.print_progress(path);
    }
}
