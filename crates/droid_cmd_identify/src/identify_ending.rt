//! How `identify` ends: the endings, their row in the table of faults, and their exit status.

ghost use Rattle.std.specs.Prelude.{◌≡◌};
ghost use Rattle.droid_cmd_identify.specs.Endings.{ending_of, status_of, told_of};
ghost use Rattle.droid_terminal.specs.Endings.{told};

use droid_arguments::IdentifyForm;
use droid_terminal::{About, Ending, faults};

/// How `identify` ends.
#[derive(Clone, Copy)]
pub enum IdentifyEnding {
    /// All files were looked at.
    Whole,
    /// The PUIDs alone were printed: all files were looked at, and one has no format.
    Unidentified,
    /// Something could not be read.
    Partly,
    /// The registry has no format of which it is asked why a file does not have it.
    NoFormat,
    /// The output could not be written.
    Write,
    /// Out of memory.
    Memory,
}

impl IdentifyEnding {
    /// Returns the ending after all files were looked at. `unread` says whether something could not be read, which
    /// counts first; `unidentified` whether a file has no format, which counts only where the PUIDs alone are printed.
    pub(crate) fn of(form: IdentifyForm, unread: bool, unidentified: bool) -> IdentifyEnding
        ensures { result ≡ ending_of form unread unidentified }
    {
        if unread {
            return IdentifyEnding::Partly;
        }
        if !unidentified {
            return IdentifyEnding::Whole;
        }
        match form {
            IdentifyForm::Puids => IdentifyEnding::Unidentified,
            IdentifyForm::Csv => IdentifyEnding::Whole,
            IdentifyForm::Lines => IdentifyEnding::Whole,
            IdentifyForm::Json => IdentifyEnding::Whole,
            IdentifyForm::Siegfried => IdentifyEnding::Whole,
        }
    }

    /// Returns the ending in the words of the table that all commands share. `puid` is what `--why` asks about, and is
    /// named only where the registry has no such format.
    pub fn told<'a>(self, puid: &'a str) -> Ending<'a>
        ensures { told result ≡ told_of self puid.now }
    {
        match self {
            IdentifyEnding::Whole => Ending::Whole,
            IdentifyEnding::Unidentified => Ending::Whole,
            IdentifyEnding::Partly => Ending::Partly,
            IdentifyEnding::NoFormat => Ending::by(faults::NO_SUCH_FORMAT, About::Path(puid)),
            IdentifyEnding::Write => Ending::by(faults::UNWRITTEN, About::Path("standard output")),
            IdentifyEnding::Memory => Ending::by(faults::MEMORY, About::Nothing),
        }
    }

    /// Returns the exit status: 1 if the PUIDs alone were printed and a file has no format, else that of the table.
    pub fn status(self) -> u8
        ensures { result ≡ status_of self }
    {
        match self {
            IdentifyEnding::Unidentified => 1,
            IdentifyEnding::Whole => self.told("").status(),
            IdentifyEnding::Partly => self.told("").status(),
            IdentifyEnding::NoFormat => self.told("").status(),
            IdentifyEnding::Write => self.told("").status(),
            IdentifyEnding::Memory => self.told("").status(),
        }
    }
}
