//! How a command ends: makes its ending from a row of the table, and gives its status and its print.

ghost use Rattle.std.specs.Prelude.{◌≡◌};
ghost use Rattle.droid_terminal.specs.Endings.{about_text, by, detail_text, detailed, numbered, said};
ghost use Rattle.droid_terminal.specs.Endings.{status_of, told, told_at};

use crate::ending::about::About;
use crate::ending::detail::Detail;
use crate::ending::fault::{Fault, FaultLine, Sentence};
use crate::ending::row::Row;
use std::io;

/// How a command ends.
#[derive(Clone, Copy)]
pub enum Ending<'a> {
    /// All is done: status 0.
    Whole,
    /// All is done that could be, and something is reported: status 5.
    Partly,
    /// A fault ended it, with the status of its row.
    Fault(Fault<'a>),
}

impl<'a> Ending<'a> {
    /// Makes the ending by a fault of this row, whose sentence is about `about`. For a row whose sentence has no gap:
    /// nothing checks that, and with a gap the sentence lacks what it names.
    pub fn by(row: Row, about: About<'a>) -> Ending<'a>
        ensures { told result ≡ by (said row) (about_text about.entry) }
    {
        Ending::detailed(row, about, Detail::Nothing)
    }

    /// Makes the ending by a fault of this row, whose sentence is about `about` and names `detail` in its gap.
    pub fn detailed(row: Row, about: About<'a>, detail: Detail<'a>) -> Ending<'a>
        ensures { told result ≡ detailed (said row) (about_text about.entry) (detail_text detail.entry) }
    {
        Ending::Fault(Fault {
            row,
            at: None,
            about,
            detail,
        })
    }

    /// Makes the ending by a fault of this row in the line or record `number`, which stands behind its name and in the
    /// gap of its sentence.
    pub fn numbered(row: Row, about: About<'a>, number: u64) -> Ending<'a>
        ensures { told result ≡ numbered (said row) (about_text about.entry) number }
    {
        Ending::at(row, about, number, Detail::Number(number))
    }

    /// Makes the ending by a fault of this row, with `number` behind its name and `detail` in the gap of its sentence.
    pub fn at(row: Row, about: About<'a>, number: u64, detail: Detail<'a>) -> Ending<'a>
        ensures { told result ≡ told_at (said row) (about_text about.entry) number (detail_text detail.entry) }
    {
        Ending::Fault(Fault {
            row,
            at: Some(number),
            about,
            detail,
        })
    }

    /// Returns the exit status of the program. The numbers are those of `status_of`, which the prover compares, of the
    /// helps of `droid_arguments`, and of the tests.
    pub fn status(self) -> u8
        ensures { result ≡ status_of (told self.entry) }
    {
        match self {
            Ending::Whole => 0,
            Ending::Partly => 5,
            Ending::Fault(fault) => fault.row.status.number(),
        }
    }

    /// Prints two lines to standard error: the fault's name, and a sentence that says what happened and what to do.
    /// Prints nothing where no fault ended the command. Fails if standard error does. Without a contract of its own:
    /// `FaultLine` and `Sentence` say what they print, and the cases of `tests/program` compare it.
    pub fn print<R: Eprint>(self, rt: &R) -> io::Result<()> {
        match self {
            Ending::Whole | Ending::Partly => Ok(()),
            Ending::Fault(fault) => eprint!(rt; "{}{}", FaultLine(fault), Sentence(fault)),
        }
    }
}
