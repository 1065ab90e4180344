//! How the command `report` ended, and what is told of it.

ghost use Rattle.std.specs.Prelude.{◌≡◌, option_map};
ghost use Rattle.droid_cmd_profile.specs.Endings.{told_no_profile, told_unread};
ghost use Rattle.droid_terminal.specs.Endings.{output_name, told};

use crate::pages::csv_told::told_no_csv;
use crate::pages::page_fault::PageFault;
use droid_report::ProfileFault;
use droid_terminal::{About, Detail, Ending, faults};
use std::fs::Files;
use std::io::ErrorKind;

/// How a report ended.
#[derive(Drop)]
pub enum ReportEnding {
    /// The page was written.
    Whole,
    /// The CSV could not be read, for this reason.
    Unread(ErrorKind),
    /// The page would replace the CSV.
    SameFile,
    /// The CSV is none of a profile, for this reason, or memory ran out.
    NoProfile(ProfileFault),
    /// The page was not written, for this reason.
    NoPage(PageFault),
}

impl ReportEnding {
    ghost use Rattle.droid_cmd_profile.specs.Endings.{Tells};

    /// Returns the ending by the table of faults, given the paths of the CSV and of the page, if that has one.
    pub fn told<'a, R: Files>(
        &'a self,
        rt: &R,
        profile: &'a str,
        output: Option<&'a str>,
    ) -> Ending<'a>
        ensures { Tells self.now profile.now (output_name (option_map (λ text. text.now) output.entry)) (told result) }
    {
        let output = output.unwrap_or("standard output");
        match self {
            ReportEnding::Whole => Ending::Whole,
            ReportEnding::Unread(kind) => told_unread(*kind, profile),
            ReportEnding::SameFile => Ending::by(faults::CSV_ITSELF, About::Path(output)),
            ReportEnding::NoProfile(fault) => told_no_profile(fault, profile),
            ReportEnding::NoPage(fault) => fault.told(rt, profile, output),
        }
    }
}

/// Returns the ending where the CSV at this path could not be read: that it is missing, or the system's reason.
fn told_unread<'a>(kind: ErrorKind, profile: &'a str) -> Ending<'a>
    ensures { told result ≡ told_unread kind profile.now }
{
    let about = About::Path(profile);
    match kind {
        ErrorKind::NotFound => Ending::by(faults::PROFILE_MISSING, about),
        kind => Ending::detailed(faults::PROFILE_UNREAD, about, Detail::Cause(kind)),
    }
}

/// Returns the ending where the CSV at this path is none of a profile, or has a path twice, which is named.
fn told_no_profile<'a>(fault: &'a ProfileFault, profile: &'a str) -> Ending<'a>
    ensures { told result ≡ told_no_profile fault.now profile.now }
{
    match fault {
        ProfileFault::Csv(fault) => told_no_csv(*fault, profile),
        ProfileFault::Twice(same) => Ending::detailed(
            faults::LIST_TWICE,
            About::Path(profile),
            Detail::Path(same.path.as_slice()),
        ),
    }
}
