//! How the command `verify` ends, and what is told of it.

ghost use Rattle.std.specs.Prelude.{◌≡◌};
ghost use Rattle.droid_cmd_verify.specs.VerifyEndings.{Tells, told_no_list, told_no_manifest, told_unopened};
ghost use Rattle.droid_cmd_verify.specs.VerifyEndings.{unchecked, unlisted};
ghost use Rattle.droid_terminal.specs.Endings.{told};

use crate::tree_check::CheckFault;
use droid_cmd_profile::told_no_csv;
use droid_fixity::ManifestFault;
use droid_lists::UnreadList;
use droid_terminal::{About, Detail, Ending, faults, told_no_folder};
use std::fs::Files;
use std::io::ErrorKind;

/// How the comparison of a folder ends.
#[derive(Drop)]
pub enum VerifyEnding {
    /// Nothing differs, and each file was compared.
    Same,
    /// Something differs, could not be read, or was not compared.
    Differing,
    /// There is no such folder.
    NoFolder,
    /// The list could not be opened or read.
    Unopened(ErrorKind),
    /// The list is none, for this reason. The reason is never [`UnreadList::Memory`].
    NoList(UnreadList),
    /// The list has hashes, and sizes alone are to be compared.
    HasHashes,
    /// The list gives files no formats, and formats are to be compared.
    NoFormats,
    /// Out of memory.
    NoMemory,
    /// There are more than 4,294,967,295 folders and files: `Numbers` of the walk (`droid_profile`). The help has the
    /// number too.
    Numbers,
    /// A path was found twice.
    Twice,
    /// The CSV could not be written.
    Unwritten,
}

impl VerifyEnding {
    /// Returns the ending where the list was opened, but is none, for this reason, or where memory ran out.
    pub(crate) fn unlisted(fault: UnreadList) -> VerifyEnding
        ensures { result ≡ unlisted fault }
    {
        match fault {
            UnreadList::Memory => VerifyEnding::NoMemory,
            UnreadList::Profile(_) | UnreadList::Manifest(_) | UnreadList::Twice(_) => {
                VerifyEnding::NoList(fault)
            }
        }
    }

    /// Returns the ending where the tree could not be compared. Which path was found twice is not told.
    pub(crate) fn unchecked(fault: CheckFault) -> VerifyEnding
        ensures { result ≡ unchecked fault }
    {
        match fault {
            CheckFault::Memory => VerifyEnding::NoMemory,
            CheckFault::Numbers => VerifyEnding::Numbers,
            CheckFault::Twice(_) => VerifyEnding::Twice,
        }
    }

    /// Returns the ending by the table of faults, given the paths of the list and of the folder, of which one is at
    /// fault. Looks at the folder again if it was none.
    pub fn told<'a, R: Files + AllocGlobal>(
        &'a self,
        rt: &R,
        list: &'a str,
        folder: &'a str,
    ) -> Ending<'a>
        ensures { Tells self.now list.now folder.now (told result) }
    {
        let of_list = About::Path(list);
        let of_folder = About::Path(folder);
        match self {
            VerifyEnding::Same => Ending::Whole,
            VerifyEnding::Differing => Ending::Partly,
            VerifyEnding::NoFolder => told_no_folder(rt, folder),
            VerifyEnding::Unopened(kind) => told_unopened(*kind, list),
            VerifyEnding::NoList(fault) => told_no_list(fault, list),
            VerifyEnding::HasHashes => Ending::by(faults::HAS_HASHES, of_list),
            VerifyEnding::NoFormats => Ending::by(faults::NO_FORMATS, of_list),
            VerifyEnding::NoMemory => Ending::by(faults::MEMORY, About::Nothing),
            VerifyEnding::Numbers => Ending::by(faults::TOO_MANY, of_folder),
            VerifyEnding::Twice => Ending::by(faults::LISTED_TWICE, of_folder),
            VerifyEnding::Unwritten => {
                Ending::by(faults::UNWRITTEN, About::Path("standard output"))
            }
        }
    }
}

/// Returns the ending where the list at this path could not be opened or read: that it is missing, or the system's
/// reason.
fn told_unopened<'a>(kind: ErrorKind, list: &'a str) -> Ending<'a>
    ensures { told result ≡ told_unopened kind list.now }
{
    let about = About::Path(list);
    match kind {
        ErrorKind::NotFound => Ending::by(faults::LIST_MISSING, about),
        kind => Ending::detailed(faults::LIST_UNOPENED, about, Detail::Cause(kind)),
    }
}

/// Returns the ending where the file at this path is no list, by the form that it was read in.
fn told_no_list<'a>(fault: &'a UnreadList, list: &'a str) -> Ending<'a>
    ensures { told result ≡ told_no_list fault.now list.now }
{
    match fault {
        UnreadList::Memory => Ending::by(faults::MEMORY, About::Nothing),
        UnreadList::Profile(fault) => told_no_csv(*fault, list),
        UnreadList::Manifest(fault) => told_no_manifest(*fault, list),
        UnreadList::Twice(same) => Ending::detailed(
            faults::LIST_TWICE,
            About::Path(list),
            Detail::Path(same.path.as_slice()),
        ),
    }
}

/// Returns the ending where the list of checksums at this path is malformed, which names the line, or names no file.
fn told_no_manifest<'a>(fault: ManifestFault, list: &'a str) -> Ending<'a>
    ensures { told result ≡ told_no_manifest fault list.now }
{
    let about = About::Path(list);
    match fault {
        ManifestFault::Memory => Ending::by(faults::MEMORY, About::Nothing),
        ManifestFault::Empty => Ending::by(faults::LIST_OF_NOTHING, about),
        ManifestFault::Line { line } => {
            Ending::detailed(faults::LIST_LINE, about, Detail::Number(line))
        }
        ManifestFault::Path { line } => {
            Ending::detailed(faults::LIST_OUTSIDE, about, Detail::Number(line))
        }
        ManifestFault::Digest { line } => {
            Ending::detailed(faults::LIST_DIGEST, about, Detail::Number(line))
        }
    }
}
