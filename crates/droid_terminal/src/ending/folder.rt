//! The ending where a folder cannot be listed: looks at its path again and names the reason.

ghost use Rattle.std.specs.Prelude.{◌≡◌};
ghost use Rattle.droid_terminal.specs.Endings.{told};
ghost use Rattle.droid_terminal.specs.SeenAgain.{IsNoFolder, told_of_folder};

use crate::ending::about::About;
use crate::ending::command_ending::Ending;
use crate::ending::detail::Detail;
use crate::ending::faults;
use crate::folder_check::why_unlisted;
use std::fs;
use std::fs::Files;
use std::io::ErrorKind;

/// What is seen at a path that is not a folder or could not be listed.
#[derive(Clone, Copy)]
enum SeenFolder {
    /// A folder that cannot be listed, for this reason.
    Unlisted(ErrorKind),
    /// A folder that can be listed now.
    Listed,
    /// Something else.
    Other,
    /// Nothing.
    Missing,
    /// It cannot be looked at, for this reason.
    Unseen(ErrorKind),
}

/// Looks at a path again that is not a folder or could not be listed, and returns the ending that says why. Which of
/// the five it is is up to the machine: the clause says only that it is one of them, about this path.
pub fn told_no_folder<'a, R: Files + AllocGlobal>(rt: &R, path: &'a str) -> Ending<'a>
    ensures { IsNoFolder path.now (told result) }
{
    told_of_folder(seen_folder(rt, path), path)
}

/// Looks at a path, following links. What is there is up to the machine, so this has no contract: any answer has its
/// ending. `Unlisted` is tested by `unfinished_files.py` of `tests/program/folders`, `Other` and `Missing` by the cases
/// `file_in_place_of_a_folder` and `missing_folder`. The sentences of the other two stand in no test.
fn seen_folder<R: Files + AllocGlobal>(rt: &R, path: &str) -> SeenFolder {
    match fs::metadata(rt, path) {
        Ok(found) if found.is_dir() => match why_unlisted(rt, path) {
            Some(kind) => SeenFolder::Unlisted(kind),
            None => SeenFolder::Listed,
        },
        Ok(_) => SeenFolder::Other,
        Err(error) => match error.kind() {
            ErrorKind::NotFound => SeenFolder::Missing,
            kind => SeenFolder::Unseen(kind),
        },
    }
}

/// Returns the ending for what was seen at this path: a row for each case.
fn told_of_folder<'a>(seen: SeenFolder, path: &'a str) -> Ending<'a>
    ensures { told result ≡ told_of_folder seen path.now }
{
    let about = About::Path(path);
    match seen {
        SeenFolder::Unlisted(kind) => {
            Ending::detailed(faults::FOLDER_UNLISTED, about, Detail::Cause(kind))
        }
        SeenFolder::Listed => Ending::by(faults::FOLDER_UNLISTED_ONCE, about),
        SeenFolder::Other => Ending::by(faults::NOT_A_FOLDER, about),
        SeenFolder::Missing => Ending::by(faults::NO_FOLDER, about),
        SeenFolder::Unseen(kind) => {
            Ending::detailed(faults::FOLDER_UNSEEN, about, Detail::Cause(kind))
        }
    }
}
