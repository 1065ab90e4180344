//! A command line that asks for nothing that can be run.

ghost use Rattle.std.specs.Prelude.{◌≡◌};
ghost use Rattle.clap.specs.Values.{kind_of};
ghost use Rattle.std.specs.IoError.{error_kind};
ghost use Rattle.droid_arguments.specs.NoCommands.{status_without, unread_words, unused_words};

use clap::Error;
use clap::error::ErrorKind;
use std::io;

/// Why there is no command to run.
#[derive(Drop)]
pub enum NoCommand {
    /// The command line asks for help, or for the version.
    Help(Error),
    /// The command line is wrong.
    Wrong(Error),
    /// A word of the command line is not UTF-8.
    NoText,
    /// Out of memory.
    Memory,
}

impl NoCommand {
    /// Returns the exit status: 0 after a help, 2 for a wrong command line, 6 if there was no memory to read it.
    pub fn status(&self) -> u8
        ensures { result ≡ status_without self.now }
    {
        match self {
            NoCommand::Help(_) => 0,
            NoCommand::Wrong(_) | NoCommand::NoText => 2,
            NoCommand::Memory => 6,
        }
    }

    /// Prints the help or the version to standard output, or what is wrong to standard error. Fails if that cannot be
    /// written. Without a contract: the texts are tested by `tests/program/cases`.
    pub fn print<R: Print + Eprint>(&self, rt: &R) -> io::Result<()> {
        match self {
            NoCommand::Help(error) | NoCommand::Wrong(error) => error.print(rt),
            NoCommand::NoText => eprintln!(rt; "error: a word of the command line is not UTF-8"),
            NoCommand::Memory => {
                eprintln!(rt; "fault: Memory\nout of memory while the command line was read")
            }
        }
    }
}

/// Says why the words of the command line could not be read, by the error of the kit: memory ran out, or a word is not
/// UTF-8.
pub fn unread_words(error: &io::Error) -> NoCommand
    ensures { result ≡ unread_words (error_kind error.now) }
{
    match error.kind() {
        io::ErrorKind::OutOfMemory => NoCommand::Memory,
        _ => NoCommand::NoText,
    }
}

/// Says why the words give no command to run, by the error of `clap`: memory ran out, a help or the version is asked
/// for, or they are wrong.
pub(crate) fn unused_words(error: Error) -> NoCommand
    ensures { result ≡ unused_words (kind_of error) error }
{
    match error.kind() {
        ErrorKind::OutOfMemory => NoCommand::Memory,
        ErrorKind::DisplayHelp | ErrorKind::DisplayVersion => NoCommand::Help(error),
        _ => NoCommand::Wrong(error),
    }
}
