//! How the submission of a folder ends: all forms, and those that a comparison or a page leads to.

ghost use Rattle.std.specs.Prelude.{◌≡◌};
ghost use Rattle.droid_cmd_submit.specs.SubmissionEndings.{ending_of, unchecked, uncompared, with_page};

use crate::begun_options::BegunOptions;
use crate::profile_comparison::ComparisonFault;
use droid_cmd_profile::PageFault;
use droid_disk::OutputFault;
use droid_lists::TextFault;
use droid_remote::{RemoteFault, TransferFault};
use droid_tree::WalkFault;
use std::io::ErrorKind;

/// A file that a submission writes.
#[derive(Clone, Copy)]
pub enum OutputFile {
    /// The CSV of the profile.
    Export,
    /// The CSV of what was skipped.
    Skipped,
    /// The page.
    Page,
}

/// How the submission of a folder ends.
#[derive(Clone, Copy)]
pub enum SubmissionEnding {
    /// The service's profile is the folder.
    Whole,
    /// Something was skipped, differs, or is in the profile and not in the folder.
    Partly,
    /// There is no such folder.
    NoFolder,
    /// Out of memory.
    NoMemory,
    /// This file would lie in the folder.
    InFolder(OutputFile),
    /// This file is the same as another one that is written.
    SameFile(OutputFile),
    /// This file could not be created or replaced.
    NoOutput(OutputFile, OutputFault),
    /// This file could not be written.
    Unwritten(OutputFile),
    /// No connection was ever made: nobody listened on the port, or it could not be connected to for another reason.
    NoConnection(ErrorKind),
    /// The folder could not be counted. Nothing was sent.
    Uncounted(WalkFault),
    /// The submission ended early.
    Unsubmitted(RemoteFault),
    /// The submission was begun with other options.
    OtherOptions(BegunOptions),
    /// The export could not be read.
    NoExport(TransferFault),
    /// The export has this many bytes, more than a submission reads.
    TooLong(u64),
    /// Other requests came between the parts of the export, each time that it was begun.
    Disturbed,
    /// No profile has the CSV that came: this record is wrong first, and this column of it, counted from 0.
    WrongExport(u64, u8),
    /// Everything was written but the page.
    NoPage(PageFault),
}

impl SubmissionEnding {
    /// Returns the ending of a submission whose profile was compared, by whether the profile is the folder.
    pub(crate) fn of(whole: bool) -> SubmissionEnding
        ensures { result ≡ ending_of whole }
    {
        if whole {
            SubmissionEnding::Whole
        } else {
            SubmissionEnding::Partly
        }
    }

    /// Returns the ending after the page: this one, or `NoPage` in its place if the page was not written.
    pub(crate) fn with_page(self, page: Result<(), PageFault>) -> SubmissionEnding
        ensures { result ≡ with_page self page }
    {
        match page {
            Ok(()) => self,
            Err(fault) => SubmissionEnding::NoPage(fault),
        }
    }

    /// Returns the ending of a submission whose profile could not be compared: its export was not read, or is wrong.
    pub(crate) fn uncompared(fault: ComparisonFault) -> SubmissionEnding
        ensures { result ≡ uncompared fault }
    {
        match fault {
            ComparisonFault::NoExport(fault) => SubmissionEnding::NoExport(fault),
            ComparisonFault::TooLong(total) => SubmissionEnding::TooLong(total),
            ComparisonFault::Disturbed => SubmissionEnding::Disturbed,
            ComparisonFault::Unchecked(fault) => unchecked(fault),
        }
    }
}

/// Returns the ending where the export was read and its text could not be compared: memory ran out, or a record is
/// wrong.
fn unchecked(fault: TextFault) -> SubmissionEnding
    ensures { result ≡ unchecked fault }
{
    match fault {
        TextFault::Memory => SubmissionEnding::NoMemory,
        TextFault::Wrong { record, column } => SubmissionEnding::WrongExport(record, column),
    }
}
