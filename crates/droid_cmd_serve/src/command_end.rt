//! How a command ended, with what standard error says of it.
//!
//! The clauses hold the ending, and the cause where a command's contract needs it. That `used` is what the command
//! used, no clause holds: `tests/program/registry.sh`, `wire/serve_command.py` and `journal/journal_files.py` compare
//! the sentences.

ghost use Rattle.std.specs.Prelude.{◌≡◌, None, Some};

use crate::exit::Ending;
use crate::journal_fault::JournalFault;
use droid_arguments::RegistrySource;
use droid_pronom::RegistryFault;
use std::io::ErrorKind;

/// How a command ended, and what the sentence behind its fault names.
#[derive(Drop)]
pub struct Ended<'a> {
    /// How it ended.
    pub ending: Ending,
    /// What the command used.
    pub used: Used<'a>,
    /// The system's error for a file that could not be opened or a port that could not be used, if that ended the
    /// command.
    pub cause: Option<ErrorKind>,
}

/// What a command used.
#[derive(Clone, Copy)]
pub enum Used<'a> {
    /// A registry.
    Registry(RegistrySource<'a>),
    /// A port of this machine.
    Port(u16),
    /// A journal at this path.
    Journal(&'a str),
}

impl<'a> Ended<'a> {
    /// Ends a command that used this registry, with no cause of the system.
    pub(crate) fn over(ending: Ending, source: RegistrySource<'a>) -> Ended<'a>
        ensures ending { result.ending ≡ ending }
    {
        Ended {
            ending,
            used: Used::Registry(source),
            cause: None,
        }
    }

    /// Ends a command whose registry file could not be opened, for this cause of the system.
    pub(crate) fn unopened(source: RegistrySource<'a>, cause: ErrorKind) -> Ended<'a>
        ensures ending { result.ending ≡ Ending.Registry RegistryFault.Read }
    {
        Ended {
            ending: Ending::Registry(RegistryFault::Read),
            used: Used::Registry(source),
            cause: Some(cause),
        }
    }

    /// Ends a command that used this port, with no cause of the system: `Socket` then says that accepting failed.
    pub(crate) fn at(ending: Ending, port: u16) -> Ended<'a>
        ensures ending { result.ending ≡ ending }
        ensures cause { result.cause ≡ None }
    {
        Ended {
            ending,
            used: Used::Port(port),
            cause: None,
        }
    }

    /// Ends a command by a fault of the journal at this path.
    pub(crate) fn by_journal(fault: JournalFault, path: &'a str) -> Ended<'a>
        ensures ending { result.ending ≡ Ending.Journal fault }
    {
        Ended {
            ending: Ending::Journal(fault),
            used: Used::Journal(path),
            cause: None,
        }
    }

    /// Ends a command that used this port and the journal at this path: a fault of the journal names the journal, any
    /// other the port. `run` has no port and passes 0.
    pub(crate) fn at_with_journal(ending: Ending, port: u16, path: &'a str) -> Ended<'a>
        ensures ending { result.ending ≡ ending }
        ensures cause { result.cause ≡ None }
    {
        let used = match &ending {
            Ending::Journal(_) => Used::Journal(path),
            _ => Used::Port(port),
        };
        Ended {
            ending,
            used,
            cause: None,
        }
    }

    /// Ends a command that could not listen on this port or connect to it, for this cause of the system.
    pub(crate) fn unconnected(port: u16, cause: ErrorKind) -> Ended<'a>
        ensures ending { result.ending ≡ Ending.Socket }
        ensures cause { result.cause ≡ Some cause }
    {
        Ended {
            ending: Ending::Socket,
            used: Used::Port(port),
            cause: Some(cause),
        }
    }
}
