//! The ending of a submission by the table of faults, for each form of `SubmissionEnding`. What was refused or not
//! answered is told by `told_transfer.rt`.

ghost use Rattle.std.specs.Prelude.{◌≡◌, Some, decimal};
ghost use Rattle.droid_cmd_submit.specs.BegunOptions.{begun_words};
ghost use Rattle.droid_cmd_submit.specs.ToldSubmissions.{Tells, path_of, told_no_connection, told_wrong_export};
ghost use Rattle.droid_cmd_submit.specs.ToldSubmissions.{walk_row};
ghost use Rattle.droid_terminal.specs.Endings.{detailed, of_port, said, told};
ghost use Rattle.droid_terminal.specs.FaultTable as table;

use crate::begun_options::BegunOptions;
use crate::submission_ending::{OutputFile, SubmissionEnding};
use crate::told_transfer::{told_transfer, told_unsubmitted};
use droid_arguments::SubmitOptions;
use droid_cmd_profile::told_output;
use droid_lists::column_name;
use droid_terminal::{About, Detail, Ending, Row, faults, told_no_folder};
use droid_tree::WalkFault;
use std::fs::Files;
use std::io::ErrorKind;

impl SubmissionEnding {
    /// Returns the ending by the table: exit status, name and sentence of the fault, and what it is about. The options
    /// have the paths and the port; `rt` looks again at a folder or file that could not be opened.
    pub fn told<'a, R: Files + AllocGlobal>(self, rt: &R, options: SubmitOptions<'a>) -> Ending<'a>
        ensures { Tells self options.entry (told result) }
    {
        match self {
            SubmissionEnding::Whole => Ending::Whole,
            SubmissionEnding::Partly => Ending::Partly,
            SubmissionEnding::NoFolder => told_no_folder(rt, options.folder),
            SubmissionEnding::NoMemory => Ending::by(faults::MEMORY, About::Nothing),
            SubmissionEnding::InFolder(file) => {
                Ending::by(
                    faults::LIES_IN_THE_FOLDER,
                    About::Path(path_of(options, file)),
                )
            }
            SubmissionEnding::SameFile(file) => {
                Ending::by(faults::SAME_OUTPUT, About::Path(path_of(options, file)))
            }
            SubmissionEnding::NoOutput(file, fault) => {
                told_output(rt, fault, path_of(options, file))
            }
            SubmissionEnding::Unwritten(file) => {
                Ending::by(
                    faults::OUTPUT_UNWRITTEN,
                    About::Path(path_of(options, file)),
                )
            }
            SubmissionEnding::NoConnection(cause) => told_no_connection(cause, options),
            SubmissionEnding::Uncounted(fault) => {
                Ending::by(walk_row(fault), About::Path(options.folder))
            }
            SubmissionEnding::Unsubmitted(fault) => told_unsubmitted(fault, options),
            SubmissionEnding::OtherOptions(begun) => told_other_options(begun, options),
            SubmissionEnding::NoExport(fault) => told_transfer(fault, options),
            SubmissionEnding::TooLong(total) => told_long_export(total, options),
            SubmissionEnding::Disturbed => {
                Ending::by(faults::DISTURBED, About::Port(options.to.port))
            }
            SubmissionEnding::WrongExport(record, column) => {
                told_wrong_export(record, column, options)
            }
            SubmissionEnding::NoPage(fault) => fault.told(
                rt,
                path_of(options, OutputFile::Export),
                path_of(options, OutputFile::Page),
            ),
        }
    }
}

/// Returns the path of a file that a submission writes, or `the export` if none is named. That is so only of the CSV
/// that a page is made of.
fn path_of<'a>(options: SubmitOptions<'a>, file: OutputFile) -> &'a str
    ensures { result.now ≡ path_of options.entry file }
{
    let path = match file {
        OutputFile::Export => options.export,
        OutputFile::Skipped => options.skipped,
        OutputFile::Page => options.report,
    };
    path.unwrap_or("the export")
}

/// Returns the ending where no connection was ever made: nobody listens on the port, or another cause, which is
/// printed. No clause holds the words of such a cause: they are the system's, and no test has one.
fn told_no_connection<'a>(cause: ErrorKind, options: SubmitOptions<'a>) -> Ending<'a>
    ensures { told result ≡ told_no_connection cause options.entry.to.port }
{
    let port = options.to.port;
    match cause {
        ErrorKind::ConnectionRefused => Ending::by(faults::NOBODY_LISTENS, About::Unheard(port)),
        kind => Ending::detailed(faults::UNCONNECTED, About::Port(port), Detail::Cause(kind)),
    }
}

/// Returns the row where the folder could not be counted, before any request. What ends the walk later is a
/// `SubmissionFault`, which `told_transfer.rt` tells.
fn walk_row(fault: WalkFault) -> Row
    ensures { said result ≡ walk_row fault }
{
    match fault {
        WalkFault::Memory => faults::MEMORY,
        WalkFault::Reply => faults::WALK_MISTAKE,
        WalkFault::Folders => faults::NEW_FOLDERS,
        WalkFault::Entries => faults::ENTRIES,
        WalkFault::Bytes => faults::BYTES,
    }
}

/// Returns the ending where the submission was begun with other options, with their words.
fn told_other_options<'a>(begun: BegunOptions, options: SubmitOptions<'a>) -> Ending<'a>
    ensures { told result ≡ detailed table.other_options (of_port options.entry.to.port) (Some (begun_words begun)) }
{
    Ending::detailed(
        faults::OTHER_OPTIONS,
        About::Port(options.to.port),
        Detail::Words(begun.words()),
    )
}

/// Returns the ending where the profile's CSV has too many bytes, with their number.
fn told_long_export<'a>(total: u64, options: SubmitOptions<'a>) -> Ending<'a>
    ensures { told result ≡ detailed table.long_export (of_port options.entry.to.port) (Some (decimal total)) }
{
    Ending::detailed(
        faults::LONG_EXPORT,
        About::Port(options.to.port),
        Detail::Number(total),
    )
}

/// Returns the ending where the CSV that came is that of no profile: record `number` is the first that is wrong, in the
/// column at place `column`, counted from 0.
fn told_wrong_export<'a>(number: u64, column: u8, options: SubmitOptions<'a>) -> Ending<'a>
    ensures { told result ≡ told_wrong_export number column options.entry }
{
    Ending::detailed(
        faults::WRONG_EXPORT,
        About::Port(options.to.port),
        Detail::Numbered(number, " is wrong in ", column_name(options.hash, column)),
    )
}
