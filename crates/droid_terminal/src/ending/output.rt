//! The ending where a file cannot be created or replaced: looks at its path again and names the reason.

ghost use Rattle.std.specs.Prelude.{◌≡◌};
ghost use Rattle.droid_terminal.specs.Endings.{said, told};
ghost use Rattle.droid_terminal.specs.SeenAgain.{IsNoOutput, folder_row, output_row};

use crate::ending::about::About;
use crate::ending::command_ending::Ending;
use crate::ending::faults;
use crate::ending::row::Row;
use crate::places::folder_of;
use std::fs;
use std::fs::Files;
use std::io::ErrorKind;

/// What is seen at a path at which no file can be created or replaced.
#[derive(Clone, Copy)]
enum SeenOutput {
    /// Something else than a file.
    NoFile,
    /// A file, or nothing, or what cannot be looked at. The fault is that of its folder, if that has one.
    InFolder(Option<ErrorKind>),
}

/// Looks again at a path at which no file can be created or replaced, and returns the ending that says why. Which one
/// it is is up to the machine, except for an empty path; each has status 4 and the name Output.
pub fn told_no_output<'a, R: Files>(rt: &R, path: &'a str) -> Ending<'a>
    ensures { IsNoOutput path.now (told result) }
{
    if path.is_empty() {
        return Ending::by(faults::OUTPUT_UNNAMED, About::Nothing);
    }
    Ending::by(output_row(seen_output(rt, path)), About::Path(path))
}

/// Looks at a path and then at its folder, following links. What is there is up to the machine, so this has no
/// contract: any answer has its row. The cases `folder_in_place_of_the_output` and `missing_folder_of_the_output` of
/// `tests/program` test two of the answers; no test tells the others apart.
fn seen_output<R: Files>(rt: &R, path: &str) -> SeenOutput {
    if let Ok(found) = fs::metadata(rt, path)
        && !found.is_file()
    {
        return SeenOutput::NoFile;
    }
    SeenOutput::InFolder(folder_fault(rt, folder_of(path)))
}

/// Returns why a folder cannot be used, or `None` if it is there; `NotADirectory` if something else is in its place.
/// Without a contract too: `missing_folder_of_the_output` tests `NotFound`, and no test tells the others apart.
fn folder_fault<R: Files>(rt: &R, path: &str) -> Option<ErrorKind> {
    match fs::metadata(rt, path) {
        Ok(found) if found.is_dir() => None,
        Ok(_) => Some(ErrorKind::NotADirectory),
        Err(error) => Some(error.kind()),
    }
}

/// Returns the row for what was seen at the path of an output.
fn output_row(seen: SeenOutput) -> Row
    ensures { said result ≡ output_row seen }
{
    match seen {
        SeenOutput::NoFile => faults::OUTPUT_IS_NO_FILE,
        SeenOutput::InFolder(fault) => folder_row(fault),
    }
}

/// Returns the row for the fault of an output's folder. `None`: the folder is there, and still the file was refused.
fn folder_row(fault: Option<ErrorKind>) -> Row
    ensures { said result ≡ folder_row fault }
{
    match fault {
        None => faults::OUTPUT_REFUSED,
        Some(ErrorKind::NotFound) => faults::OUTPUT_WITHOUT_FOLDER,
        Some(ErrorKind::NotADirectory) => faults::OUTPUT_BELOW_A_FILE,
        Some(ErrorKind::PermissionDenied) => faults::OUTPUT_DENIED,
        Some(_) => faults::OUTPUT_FOLDER_UNUSABLE,
    }
}
