//! How the command `profile` ends, and what is told of it.

ghost use Rattle.std.specs.Prelude.{◌≡◌};
ghost use Rattle.droid_cmd_profile.specs.ProfileEndings.{Tells, ending_of, is_written, lacking_memory, path_of};
ghost use Rattle.droid_cmd_profile.specs.ProfileEndings.{told_unlisted, told_unprofiled, told_unwritten, with_page};
ghost use Rattle.droid_terminal.specs.Endings.{told};

use crate::output_told::told_output;
use crate::pages::page_fault::PageFault;
use crate::profile_outputs::OutputFile;
use crate::skipped_file::SkippedFault;
use droid_arguments::ProfileOptions;
use droid_disk::OutputFault;
use droid_profile::CsvFault;
use droid_terminal::{About, Ending, faults, told_no_folder};
use std::fs::Files;

/// How the profile of a folder ends.
#[derive(Clone, Copy)]
pub enum ProfileEnding {
    /// Everything in the folder is in the profile, symbolic links aside.
    Whole,
    /// Something else was skipped.
    Partly,
    /// There is no such folder.
    NoFolder,
    /// A file is the same as another one that is written.
    SameFile(OutputFile),
    /// A file could not be created or replaced.
    NoOutput(OutputFile, OutputFault),
    /// The walk ended early, or the profile could not be written.
    Fault(CsvFault),
    /// What was skipped could not be written.
    Unlisted(SkippedFault),
    /// Everything was written but the page.
    NoPage(PageFault),
}

impl ProfileEnding {
    /// Returns the ending by what the walk returned, and by the fault of the file for what was skipped. The walk
    /// returns whether everything is in the profile; its fault comes first.
    pub(crate) fn of(ended: Result<bool, CsvFault>, unlisted: Option<SkippedFault>) -> ProfileEnding
        ensures { result ≡ ending_of ended unlisted }
    {
        match (ended, unlisted) {
            (Err(fault), _) => ProfileEnding::Fault(fault),
            (Ok(_), Some(fault)) => ProfileEnding::Unlisted(fault),
            (Ok(true), None) => ProfileEnding::Whole,
            (Ok(false), None) => ProfileEnding::Partly,
        }
    }

    /// Returns the ending, given whether a write failed because the CSV could not be kept: then memory ran out, though
    /// the walk says that the CSV's writer stopped.
    pub(crate) fn lacking(self, memory: bool) -> ProfileEnding
        ensures { result ≡ lacking_memory self memory }
    {
        if memory {
            ProfileEnding::Fault(CsvFault::Memory)
        } else {
            self
        }
    }

    /// Returns the ending after the page, for a profile that was written: a fault of the page replaces it.
    pub(crate) fn with_page(self, page: Result<(), PageFault>) -> ProfileEnding
        ensures { result ≡ with_page self page }
    {
        match page {
            Ok(()) => self,
            Err(fault) => ProfileEnding::NoPage(fault),
        }
    }

    /// Returns whether everything was written that comes before the page, so that the files get their places.
    pub(crate) fn is_written(self) -> bool
        ensures { result ≡ is_written self }
    {
        match self {
            ProfileEnding::Whole | ProfileEnding::Partly => true,
            ProfileEnding::NoFolder
            | ProfileEnding::SameFile(_)
            | ProfileEnding::NoOutput(_, _)
            | ProfileEnding::Fault(_)
            | ProfileEnding::Unlisted(_)
            | ProfileEnding::NoPage(_) => false,
        }
    }
    /// Returns the ending by the table of faults, given the options of the command, which name the paths. Looks at a
    /// path again where the reason is not known.
    pub fn told<'a, R: Files + AllocGlobal>(self, rt: &R, options: ProfileOptions<'a>) -> Ending<'a>
        ensures { Tells self options.entry (told result) }
    {
        match self {
            ProfileEnding::Whole => Ending::Whole,
            ProfileEnding::Partly => Ending::Partly,
            ProfileEnding::NoFolder => told_no_folder(rt, options.folder),
            ProfileEnding::SameFile(file) => {
                Ending::by(faults::SAME_OUTPUT, About::Path(path_of(options, file)))
            }
            ProfileEnding::NoOutput(file, fault) => {
                told_output(rt, fault, path_of(options, file))
            }
            ProfileEnding::Fault(fault) => told_unprofiled(fault, options),
            ProfileEnding::Unlisted(fault) => told_unlisted(fault, options),
            ProfileEnding::NoPage(fault) => fault.told(
                rt,
                path_of(options, OutputFile::Csv),
                path_of(options, OutputFile::Page),
            ),
        }
    }
}

/// Returns the ending where the walk ended early, or the profile could not be written. It is about the folder, the CSV
/// or the list of checksums, or about nothing where memory ran out.
fn told_unprofiled<'a>(fault: CsvFault, options: ProfileOptions<'a>) -> Ending<'a>
    ensures { told result ≡ told_unprofiled fault options.entry }
{
    match fault {
        CsvFault::Memory => Ending::by(faults::MEMORY, About::Nothing),
        CsvFault::Numbers => Ending::by(faults::TOO_MANY, About::Path(options.folder)),
        CsvFault::Csv => told_unwritten(options, OutputFile::Csv),
        CsvFault::Manifest => told_unwritten(options, OutputFile::Manifest),
    }
}

/// Returns the ending where what was skipped could not be written, or there was no memory for one of its lines.
fn told_unlisted<'a>(fault: SkippedFault, options: ProfileOptions<'a>) -> Ending<'a>
    ensures { told result ≡ told_unlisted fault options.entry }
{
    match fault {
        SkippedFault::Memory => Ending::by(faults::MEMORY, About::Nothing),
        SkippedFault::Write(_) => told_unwritten(options, OutputFile::Skipped),
    }
}

/// Returns the ending where this file could not be written to its end.
fn told_unwritten<'a>(options: ProfileOptions<'a>, file: OutputFile) -> Ending<'a>
    ensures { told result ≡ told_unwritten options.entry file }
{
    Ending::by(faults::UNWRITTEN, About::Path(path_of(options, file)))
}

/// Returns the path of a file that a profile writes, as the options name it, or `standard output`.
fn path_of<'a>(options: ProfileOptions<'a>, file: OutputFile) -> &'a str
    ensures { result.now ≡ path_of options.entry file }
{
    let path = match file {
        OutputFile::Csv => options.output,
        OutputFile::Manifest => options.manifest,
        OutputFile::Skipped => options.skipped,
        OutputFile::Page => options.report,
    };
    path.unwrap_or("standard output")
}
