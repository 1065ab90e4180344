//! The command `report`: its options, and what they ask for.

ghost use Rattle.std.specs.Prelude.{codes};
ghost use Rattle.clap.specs.Words.{found_of, rows_of};
ghost use Rattle.droid_arguments.specs.Asking.{IsAskedBy, IsReport};
ghost use Rattle.droid_arguments.specs.Commands.{report_command};
ghost use Rattle.droid_arguments.specs.Made.{Makes};
ghost use Rattle.droid_arguments.specs.Values.{Reads};

use crate::arguments::Asked;
use crate::builder::Builder;
use crate::helps::report_help::{
    PAGE_OUTPUT_HELP, PROFILE_FILE_HELP, REPORT_ABOUT, REPORT_HELP, TITLE_HELP,
};
use crate::option::{named, word};
use crate::profile::{OUTPUT, PROFILE};
use clap::{ArgMatches, Command};
use std::alloc::{AllocError, Global};

// The names of the command, which is also an option of other commands, and of its option.
pub(crate) const REPORT: &str = "report";

const TITLE: &str = "title";

/// The profile to make a page of, and how.
#[derive(Clone, Copy)]
pub struct ReportOptions<'a> {
    /// The path of the profile's CSV.
    pub profile: &'a str,
    /// The page's title, or `None` for the name of the CSV.
    pub title: Option<&'a str>,
    /// The path of the page, or `None` for standard output.
    pub output: Option<&'a str>,
}

/// Returns what the options of `report` ask for. `None` only without the CSV, which `clap` demands before.
pub(crate) fn report_asked<'a>(report: &ArgMatches<'a>) -> Option<Asked<'a>>
    ensures { Reads result (IsAskedBy (codes "report") (rows_of (found_of report.now))) }
{
    let options = report_options(report)?;
    Some(Asked::Report(options))
}

/// Reads the options of `report`, or returns `None` without the path of the profile's CSV.
fn report_options<'a>(report: &ArgMatches<'a>) -> Option<ReportOptions<'a>>
    ensures { Reads result (IsReport (rows_of (found_of report.now))) }
{
    let profile = report.get_str(PROFILE)?;
    let title = report.get_str(TITLE);
    let output = report.get_str(OUTPUT);
    Some(ReportOptions {
        profile,
        title,
        output,
    })
}

/// Declares the command `report`: the profile's CSV, the page's title, and where the page goes.
pub(crate) fn report<'a>(alloc: Global) -> Result<Command<'a>, AllocError>
    ensures { Makes report_command result }
{
    Builder::new(alloc, REPORT, REPORT_ABOUT, REPORT_HELP)
        .option(word(alloc, PROFILE, "PROFILE", PROFILE_FILE_HELP))
        .option(named(alloc, TITLE, "TEXT", TITLE_HELP))
        .option(named(alloc, OUTPUT, "PAGE", PAGE_OUTPUT_HELP))
        .made
}
