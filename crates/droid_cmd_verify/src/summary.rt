//! The summary of a comparison: counts findings by kind, and prints the lines. The words are those of
//! `specs/Summaries.antt`, which the prover compares.

ghost use Rattle.std.specs.Prelude.{◌≡◌, Some};
ghost use Rattle.droid_cmd_verify.specs.Summaries as summaries;

use crate::finding::{Finding, Kind};
use crate::measure::{Measure, by_hashes};
use droid_fixity::Difference;
use std::fmt;
use std::fmt::{Display, Formatter, Write};

/// How many findings of each kind there are.
#[derive(Clone, Copy)]
pub struct KindCounts {
    /// Files and folders that differ.
    pub changed: u64,
    /// Those that are missing.
    pub missing: u64,
    /// Those that are new.
    pub added: u64,
    /// Files that moved.
    pub moved: u64,
    /// Files that were not compared.
    pub unchecked: u64,
    /// What could not be read.
    pub unreadable: u64,
    /// Files with other formats.
    pub formats: u64,
}

/// The summary of a comparison.
#[derive(Clone, Copy)]
pub struct Summary {
    /// By what files were compared.
    pub how: Measure,
    /// Whether formats were compared.
    pub identify: bool,
    /// How many files were compared.
    pub files: u64,
    /// How many bytes they have together.
    pub bytes: u64,
    /// How many findings of each kind there are.
    pub kinds: KindCounts,
}

impl KindCounts {
    /// Counts these findings by their kinds.
    pub fn of(findings: &[Finding]) -> KindCounts
        ensures { result ≡ summaries.counts_of findings.now }
    {
        let mut counts = KindCounts {
            changed: 0,
            missing: 0,
            added: 0,
            moved: 0,
            unchecked: 0,
            unreadable: 0,
            formats: 0,
        };
        for finding in findings {
            counts = counts.with_kind(finding.kind);
        }
        counts
    }

    /// Counts one more finding of this kind. Another moment counts as changed.
    fn with_kind(self, kind: Kind) -> KindCounts
        ensures { result ≡ summaries.with_kind self kind }
    {
        let mut counts = self;
        match kind {
            Kind::Differs(Difference::Changed { .. }) => counts.changed = one_more(counts.changed),
            Kind::Differs(Difference::Touched { .. }) => counts.changed = one_more(counts.changed),
            Kind::Differs(Difference::Missing { .. }) => counts.missing = one_more(counts.missing),
            Kind::Differs(Difference::New { .. }) => counts.added = one_more(counts.added),
            Kind::Differs(Difference::Moved { .. }) => counts.moved = one_more(counts.moved),
            Kind::Unchecked(_) => counts.unchecked = one_more(counts.unchecked),
            Kind::Unreadable(_) => counts.unreadable = one_more(counts.unreadable),
            Kind::Formats => counts.formats = one_more(counts.formats),
        }
        counts
    }
}

/// Adds one; the greatest number of 64 bits stays as it is.
pub(crate) fn one_more(count: u64) -> u64
    ensures { result ≡ summaries.one_more count }
{
    count.saturating_add(1)
}

/// A name and a number. Prints as a line, with `: ` between.
#[derive(Clone, Copy)]
struct CountLine {
    name: &'static str,
    count: u64,
}

impl Display for CountLine {
    ghost output = { λ line. Some (summaries.count_line line.name.now line.count) };

    #[tactic(auto, unfolding(crate::specs::Summaries::count_line))]
    fn fmt<W: Write>(&self, f: &mut Formatter<W>) -> fmt::Result {
        writeln!(f, "{}: {}", self.name, self.count)
    }
}

/// The line of what was not compared. Prints nothing if files were not compared by hashes.
#[derive(Clone, Copy)]
struct UncheckedLine {
    how: Measure,
    count: u64,
}

impl Display for UncheckedLine {
    ghost output = { λ line. Some (summaries.unchecked_line line.how line.count) };

    #[tactic(auto, unfolding(crate::specs::Summaries::unchecked_line))]
    fn fmt<W: Write>(&self, f: &mut Formatter<W>) -> fmt::Result {
        if by_hashes(self.how) {
            let count = line("unchecked", self.count);
            write!(f, "{count}")
        } else {
            Ok(())
        }
    }
}

/// The line of formats. Prints nothing if they were not compared.
#[derive(Clone, Copy)]
struct FormatLine {
    identify: bool,
    count: u64,
}

impl Display for FormatLine {
    ghost output = { λ line. Some (summaries.format_line line.identify line.count) };

    #[tactic(auto, unfolding(crate::specs::Summaries::format_line))]
    fn fmt<W: Write>(&self, f: &mut Formatter<W>) -> fmt::Result {
        if self.identify {
            let count = line("format", self.count);
            write!(f, "{count}")
        } else {
            Ok(())
        }
    }
}

/// Makes a line of the summary of this name and number.
fn line(name: &'static str, count: u64) -> CountLine
    ensures name { result.name.now ≡ name.now }
    ensures count { result.count ≡ count }
{
    CountLine { name, count }
}

/// Names the number of files, by what they were compared.
fn files_name(how: Measure) -> &'static str
    ensures { result.now ≡ summaries.files_name how }
{
    match how {
        Measure::Hashes => "files compared",
        Measure::Sizes => "files compared by size alone",
        Measure::Moments => "files compared by size and modification time alone",
    }
}

/// Names the number of bytes of the files that were compared: whether these bytes were compared too, or not even read.
fn bytes_name(how: Measure) -> &'static str
    ensures { result.now ≡ summaries.bytes_name how }
{
    match how {
        Measure::Hashes => "bytes compared",
        Measure::Sizes => "bytes not compared",
        Measure::Moments => "bytes not read",
    }
}

// Prints a line for each number, in this order.
impl Display for Summary {
    ghost output = { λ summary. Some (summaries.summary_text summary) };

    #[tactic(auto, unfolding(crate::specs::Summaries::summary_text))]
    fn fmt<W: Write>(&self, f: &mut Formatter<W>) -> fmt::Result {
        let files = line(files_name(self.how), self.files);
        let bytes = line(bytes_name(self.how), self.bytes);
        let changed = line("changed", self.kinds.changed);
        let missing = line("missing", self.kinds.missing);
        let added = line("new", self.kinds.added);
        let moved = line("moved", self.kinds.moved);
        let unreadable = line("unreadable", self.kinds.unreadable);
        let unchecked = UncheckedLine {
            how: self.how,
            count: self.kinds.unchecked,
        };
        let formats = FormatLine {
            identify: self.identify,
            count: self.kinds.formats,
        };
        write!(
            f,
            "{files}{bytes}{changed}{missing}{added}{moved}{unreadable}{unchecked}{formats}"
        )
    }
}
