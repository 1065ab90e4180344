//! The ending of a command by the table of faults, for each form of `Ended`. `told_registry.rt` and `told_journal.rt`
//! tell two of them.

ghost use Rattle.std.specs.Prelude.{◌≡◌};
ghost use Rattle.droid_cmd_serve.specs.ToldEndings.{frame_row, port_of, script_row, service_row, told_by, told_port};
ghost use Rattle.droid_cmd_serve.specs.ToldEndings.{reply_row, told_send};
ghost use Rattle.droid_terminal.specs.Endings.{said, told};

use crate::command_end::{Ended, Used};
use crate::exit;
use crate::told_journal::told_journal;
use crate::told_registry::told_registry;
use droid_frame::FrameFault;
use droid_lines::SendFault;
use droid_script::ScriptFault;
use droid_store::StoreFault;
use droid_terminal::{About, Detail, Ending, Row, faults};
use droid_wire::ServeFault;
use std::io::ErrorKind;

impl<'a> Ended<'a> {
    /// Returns the ending by the table: exit status, name and sentence of the fault, and what it is about.
    pub fn told(&self) -> Ending<'a>
        ensures { told result ≡ told_by self.now.ending self.now.used self.now.cause }
    {
        match &self.ending {
            exit::Ending::Done => Ending::Whole,
            exit::Ending::BadLine => Ending::Partly,
            exit::Ending::Registry(fault) => told_registry(fault, self.used, self.cause),
            exit::Ending::NoService(fault) => Ending::by(service_row(*fault), About::Nothing),
            exit::Ending::Script(fault) => Ending::by(script_row(fault), About::Nothing),
            exit::Ending::Stream(ServeFault::Frame(fault)) => {
                Ending::by(frame_row(*fault), About::Nothing)
            }
            exit::Ending::Stream(ServeFault::Write { .. }) => {
                Ending::by(faults::OUTPUT_STOPPED, About::Nothing)
            }
            exit::Ending::Send(fault) => told_send(fault, self.used),
            exit::Ending::Socket => told_port(self.used, self.cause),
            exit::Ending::Journal(fault) => told_journal(*fault, self.used),
        }
    }
}

/// Returns the row where no service could be made: no memory, or its tables were refused.
fn service_row(fault: StoreFault) -> Row
    ensures { said result ≡ service_row fault }
{
    match fault {
        StoreFault::Memory => faults::SERVICE_WITHOUT_MEMORY,
        StoreFault::Refused => faults::SERVICE_REFUSED,
    }
}

/// Returns the row of a script that ended early, by its fault.
fn script_row(fault: &ScriptFault) -> Row
    ensures { said result ≡ script_row fault.now }
{
    match fault {
        ScriptFault::TooLong => faults::INPUT_TOO_LONG,
        ScriptFault::Read => faults::INPUT_UNREAD,
        ScriptFault::Memory => faults::MEMORY,
        ScriptFault::Write => faults::OUTPUT_STOPPED,
    }
}

/// Returns the row of a frame of standard input that could not be read, which ends `run`. One of a connection to
/// `serve` ends that connection alone.
fn frame_row(fault: FrameFault) -> Row
    ensures { said result ≡ frame_row fault }
{
    match fault {
        FrameFault::Truncated => faults::FRAME_TRUNCATED,
        FrameFault::BadVersion => faults::FRAME_VERSION,
        FrameFault::TooLong => faults::FRAME_TOO_LONG,
        FrameFault::Memory => faults::MEMORY,
        FrameFault::Read => faults::INPUT_UNREAD,
    }
}

/// Returns the port that a command used, or 0 for one that used none.
fn port_of(used: Used<'_>) -> u16
    ensures { result ≡ port_of used.entry }
{
    match used {
        Used::Port(port) => port,
        Used::Registry(_) => 0,
        Used::Journal(_) => 0,
    }
}

/// Returns the ending where sending ended early: by the lines, the connection or the replies. What is not of the
/// connection names no port.
fn told_send<'a>(fault: &SendFault, used: Used<'a>) -> Ending<'a>
    ensures { told result ≡ told_send fault.now (port_of used.entry) }
{
    let port = About::Port(port_of(used));
    match fault {
        SendFault::Lines => Ending::by(faults::INPUT_UNREAD, About::Nothing),
        SendFault::Memory => Ending::by(faults::MEMORY, About::Nothing),
        SendFault::NumbersUsedUp => Ending::by(faults::SENT_NUMBERS, About::Nothing),
        SendFault::Frames => Ending::by(faults::SENT_BROKEN, port),
        SendFault::Closed => Ending::by(faults::SENT_CLOSED, port),
        SendFault::Replies(fault) => Ending::by(reply_row(*fault), port),
        SendFault::Malformed => Ending::by(faults::SENT_MALFORMED, port),
        SendFault::Stranger => Ending::by(faults::SENT_STRANGER, port),
        SendFault::Repeated => Ending::by(faults::SENT_REPEATED, port),
        SendFault::Text => Ending::by(faults::OUTPUT_STOPPED, About::Nothing),
    }
}

/// Returns the row of a reply to `send` whose frame could not be read.
fn reply_row(fault: FrameFault) -> Row
    ensures { said result ≡ reply_row fault }
{
    match fault {
        FrameFault::Truncated => faults::REPLY_TRUNCATED,
        FrameFault::BadVersion => faults::REPLY_VERSION,
        FrameFault::TooLong => faults::REPLY_TOO_LONG,
        FrameFault::Memory => faults::REPLY_MEMORY,
        FrameFault::Read => faults::REPLY_UNREAD,
    }
}

/// Returns the ending where a port could not be used: to listen on it or to connect to it, by the cause of the system.
/// Without a cause no connection could be accepted. The words of another cause are the system's, which no clause holds.
fn told_port<'a>(used: Used<'a>, cause: Option<ErrorKind>) -> Ending<'a>
    ensures { told result ≡ told_port (port_of used.entry) cause }
{
    let port = port_of(used);
    let about = About::Port(port);
    match cause {
        None => Ending::by(faults::PORT_STOPPED, about),
        Some(ErrorKind::AddrInUse) => Ending::detailed(
            faults::PORT_IN_USE,
            About::Nothing,
            Detail::Number(u64::from(port)),
        ),
        Some(ErrorKind::ConnectionRefused) => {
            Ending::by(faults::PORT_UNHEARD, About::Unheard(port))
        }
        Some(ErrorKind::PermissionDenied) => Ending::by(faults::PORT_DENIED, about),
        Some(kind) => Ending::detailed(faults::PORT_UNUSABLE, about, Detail::Cause(kind)),
    }
}
