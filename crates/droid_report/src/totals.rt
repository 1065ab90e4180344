//! The totals of a report, and which rows count for each.

ghost use Rattle.std.specs.Prelude.{◌≡◌};
ghost use Rattle.droid_report.specs.Lines.{line_of};
ghost use Rattle.droid_report.specs.Totals as totals;

use crate::row::Row;
use droid_frame::Method;

/// What a total counts. A file with several formats counts once.
#[derive(Clone, Copy)]
pub enum What {
    /// Folders.
    Folders,
    /// Files.
    Files,
    /// Files that were identified by a signature.
    BySignature,
    /// Files that were identified by their extension alone.
    ByExtension,
    /// Files that were not identified.
    Unidentified,
    /// Files whose extension is none of their formats'.
    Mismatches,
    /// Files with more than one format.
    SeveralFormats,
    /// Files without bytes.
    Empty,
}

/// The totals of a report. Each is at most 2^64 - 1.
#[derive(Clone, Copy)]
pub struct Totals {
    /// How many folders there are.
    pub folders: u64,
    /// How many files.
    pub files: u64,
    /// How many files were identified by a signature.
    pub by_signature: u64,
    /// How many by their extension alone.
    pub by_extension: u64,
    /// How many were not identified.
    pub unidentified: u64,
    /// How many have an extension that is none of their formats'.
    pub mismatches: u64,
    /// How many have more than one format.
    pub several_formats: u64,
    /// How many have no bytes.
    pub empty: u64,
    /// How many bytes all files have.
    pub bytes: u64,
}

impl Totals {
    ghost use Rattle.droid_report.specs.Totals.{no_totals, totals_after};

    /// Returns the totals before the first row: all 0.
    pub(crate) fn none() -> Totals
        ensures { result ≡ no_totals }
    {
        Totals {
            folders: 0,
            files: 0,
            by_signature: 0,
            by_extension: 0,
            unidentified: 0,
            mismatches: 0,
            several_formats: 0,
            empty: 0,
            bytes: 0,
        }
    }

    /// Counts a row in each total that it counts for, and its bytes. Each stays at 2^64 - 1 when it is there.
    ///
    /// A new total is a variant of [`What`], a field, and a line here, in [`is_counted`] and in `specs/Totals.antt`.
    pub(crate) fn add(&mut self, row: &Row)
        ensures { self.new ≡ totals_after self.old (line_of row.now) }
    {
        self.folders = counted(self.folders, row, What::Folders);
        self.files = counted(self.files, row, What::Files);
        self.by_signature = counted(self.by_signature, row, What::BySignature);
        self.by_extension = counted(self.by_extension, row, What::ByExtension);
        self.unidentified = counted(self.unidentified, row, What::Unidentified);
        self.mismatches = counted(self.mismatches, row, What::Mismatches);
        self.several_formats = counted(self.several_formats, row, What::SeveralFormats);
        self.empty = counted(self.empty, row, What::Empty);
        self.bytes = self.bytes.saturating_add(bytes_of(row));
    }
}

/// Returns `count` with one more, or 2^64 - 1, if a row counts for the total `what`; otherwise `count`.
fn counted(count: u64, row: &Row, what: What) -> u64
    ensures { result ≡ totals.counted what count (line_of row.now) }
{
    if is_counted(row, what) {
        count.saturating_add(1)
    } else {
        count
    }
}

/// Returns whether a row counts for a total: only the first row of a folder or file does. The lists go by it too.
pub(crate) fn is_counted(row: &Row, what: What) -> bool
    ensures { result ≡ totals.is_counted what (line_of row.now) }
{
    let method = row.facts.method;
    match what {
        What::Folders => row.is_first && !row.facts.kind.is_file(),
        What::Files => is_first_of_file(row),
        What::BySignature => is_first_of_file(row) && matches!(method, Method::Signature),
        What::ByExtension => is_first_of_file(row) && matches!(method, Method::Extension),
        What::Unidentified => is_first_of_file(row) && matches!(method, Method::Unidentified),
        What::Mismatches => is_first_of_file(row) && row.facts.is_mismatch,
        What::SeveralFormats => is_first_of_file(row) && row.facts.formats > 1,
        What::Empty => is_first_of_file(row) && row.facts.size == 0,
    }
}

/// Returns whether a row is the first of a file: not a folder, and not a further format of the file before it.
pub(crate) fn is_first_of_file(row: &Row) -> bool
    ensures { result ≡ totals.is_first_of_file (line_of row.now) }
{
    row.is_first && row.facts.kind.is_file()
}

/// Returns how many bytes a row adds to those of all files: the file's size in its first row, otherwise 0.
fn bytes_of(row: &Row) -> u64
    ensures { result ≡ totals.bytes_of (line_of row.now) }
{
    if is_first_of_file(row) {
        row.facts.size
    } else {
        0
    }
}
