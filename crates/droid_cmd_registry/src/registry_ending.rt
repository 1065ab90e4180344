//! How the command `registry` ends, and what is told of it.

ghost use Rattle.std.specs.Prelude.{◌≡◌, option_map};
ghost use Rattle.droid_cmd_registry.specs.Endings.{problem_row, told_of_file, told_unread, unput_row, wrong_row};
ghost use Rattle.droid_terminal.specs.Endings.{output_name, said, told};

use crate::registry_places::{Unput, Unread};
use droid_signature_file::{FileFault, Wrong};
use droid_terminal::{About, Detail, Ending, Row, faults};
use droid_xml::Problem;
use std::io::ErrorKind;

/// How the command ends.
#[derive(Clone, Copy)]
pub enum RegistryEnding {
    /// The registry has all that the signature file has.
    Whole,
    /// The registry is written, and something of the signature file is not in it.
    Partial,
    /// The signature file could not be read.
    NoFile(Unread),
    /// The file is no signature file. The fault is never [`FileFault::Memory`].
    NoSignatures(FileFault),
    /// The registry would have more than 16,777,216 bytes: `BYTES_LIMIT` of `droid_signature`, and of `droid_pronom`,
    /// which reads it. The prover ties `short` of `specs/Conversions.antt` to it; the sentence of `LONG_REGISTRY` in
    /// `droid_terminal`, the help (`conversion_help.rt` of `droid_arguments`) and docs/REGISTRY.md have it too.
    LongRegistry,
    /// Out of memory, before anything was written.
    NoMemory,
    /// The registry could not be written.
    NoRegistry(Unput),
    /// The registry was written, but not the note beside it.
    NoNote(Unput),
}

impl RegistryEnding {
    ghost use Rattle.droid_cmd_registry.specs.Endings.{told_by, unconverted};

    /// Returns the ending where nothing was made of the bytes: they are no signature file, or memory ran out.
    pub(crate) fn unconverted(fault: FileFault) -> RegistryEnding
        ensures { result ≡ unconverted fault }
    {
        match fault {
            FileFault::Memory => RegistryEnding::NoMemory,
            FileFault::Document { .. } | FileFault::NotASignatureFile(_) => {
                RegistryEnding::NoSignatures(fault)
            }
        }
    }

    /// Returns the ending by the table of faults, given the paths of the signature file and of the registry, if that
    /// has one. A fault of the note is about the file beside the registry, and says that the registry is complete.
    pub fn told<'a>(self, file: &'a str, output: Option<&'a str>) -> Ending<'a>
        ensures { told result ≡ told_by self file.now (output_name (option_map (λ text. text.now) output.entry)) }
    {
        let output = output.unwrap_or("standard output");
        match self {
            RegistryEnding::Whole => Ending::Whole,
            RegistryEnding::Partial => Ending::Partly,
            RegistryEnding::NoFile(why) => told_unread(why, file),
            RegistryEnding::NoSignatures(fault) => told_of_file(fault, file),
            RegistryEnding::LongRegistry => Ending::by(faults::LONG_REGISTRY, About::Path(file)),
            RegistryEnding::NoMemory => Ending::by(faults::MEMORY, About::Nothing),
            RegistryEnding::NoRegistry(why) => Ending::by(unput_row(why), About::Path(output)),
            RegistryEnding::NoNote(why) => Ending::detailed(
                unput_row(why),
                About::Beside(output, ".txt"),
                Detail::Words("; the registry itself is complete"),
            ),
        }
    }
}

/// Returns the ending where the signature file at this path could not be read: that it is missing, a folder or too
/// long, that a read failed or memory ran out, or the system's reason, whose words no clause holds.
fn told_unread<'a>(why: Unread, file: &'a str) -> Ending<'a>
    ensures { told result ≡ told_unread why file.now }
{
    let about = About::Path(file);
    match why {
        Unread::Unopened(ErrorKind::NotFound) => Ending::by(faults::UNOPENED_MISSING, about),
        Unread::Unopened(ErrorKind::IsADirectory) => Ending::by(faults::UNOPENED_FOLDER, about),
        Unread::Unopened(kind) => Ending::detailed(faults::UNOPENED, about, Detail::Cause(kind)),
        Unread::Failed => Ending::by(faults::READING_FAILED, about),
        Unread::TooLong => Ending::by(faults::LONG_SIGNATURE_FILE, about),
        Unread::Memory => Ending::by(faults::MEMORY, About::Nothing),
    }
}

/// Returns the ending where the file at this path is no signature file. It names the line where it is no XML, or what
/// is missing. `Memory` has its row, but never comes here: [`RegistryEnding::unconverted`] makes `NoMemory` of it.
fn told_of_file<'a>(fault: FileFault, file: &'a str) -> Ending<'a>
    ensures { told result ≡ told_of_file fault file.now }
{
    let about = About::Path(file);
    match fault {
        FileFault::Memory => Ending::by(faults::MEMORY, About::Nothing),
        FileFault::Document { problem, line } => {
            Ending::numbered(problem_row(problem), about, line as u64)
        }
        FileFault::NotASignatureFile(wrong) => Ending::by(wrong_row(wrong), about),
    }
}

/// Returns the row of the table for a problem of the XML document, whose name and sentence have its line.
fn problem_row(problem: Problem) -> Row
    ensures { said result ≡ problem_row problem }
{
    match problem {
        Problem::NotWellFormed => faults::NOT_WELL_FORMED,
        Problem::Doctype => faults::DOCTYPE,
        Problem::TooDeep => faults::TOO_DEEP,
        Problem::TooManyAttributes => faults::TOO_MANY_ATTRIBUTES,
        Problem::Encoding => faults::ENCODING,
    }
}

/// Returns the row of the table for an XML document that is no signature file.
fn wrong_row(wrong: Wrong) -> Row
    ensures { said result ≡ wrong_row wrong }
{
    match wrong {
        Wrong::Root => faults::OTHER_ROOT,
        Wrong::Number => faults::WRONG_NUMBER,
        Wrong::Sequence => faults::WRONG_SEQUENCE,
    }
}

/// Returns the row of the table for a registry or a note that could not be written.
fn unput_row(why: Unput) -> Row
    ensures { said result ≡ unput_row why }
{
    match why {
        Unput::SameFile => faults::SIGNATURE_FILE_ITSELF,
        Unput::Refused => faults::REGISTRY_REFUSED,
        Unput::Unwritten => faults::UNWRITTEN,
        Unput::Memory => faults::MEMORY,
    }
}
