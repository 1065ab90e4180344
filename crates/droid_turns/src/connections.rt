//! The trait for many connections at once.

ghost use Rattle.std.specs.Prelude.{OnErr, OnOk, length, if◌then◌else◌};
ghost use Rattle.droid_turns.specs.Events.{CameWithin, Closed, Event, NoneOpened, Opened, Timed, TookWithin, Unwaited};
ghost use Rattle.droid_turns.specs.Events.{Waited, read_event, write_event};

use crate::departure::Departure;

/// Waiting for connections failed.
#[derive(Clone, Copy)]
pub struct WaitFault;

/// The result of a read of a connection.
#[derive(Clone, Copy)]
pub enum Came {
    /// This many bytes, at the front of the buffer.
    Bytes(usize),
    /// Nothing yet.
    Nothing,
    /// The input has ended.
    End,
    /// The connection is broken.
    Broken,
}

/// The result of a write to a connection.
#[derive(Clone, Copy)]
pub enum Took {
    /// It took this many of the first bytes.
    Bytes(usize),
    /// It took nothing yet.
    Nothing,
    /// The connection is broken.
    Broken,
}

/// Many connections at once. No call but `wait` waits for anything.
pub trait Connections {
    /// Relates the state before an event, the event, and the state after it.
    ghost does: { Self → Event → Self → Type 0 };

    /// Waits until a connection can be accepted, read or written, but at most `limit` milliseconds. `frames` frames
    /// were handled since the last wait. No clause holds this count: `tests/program/wire/serve_options.py` does, by the
    /// lines that `droid_sockets` prints each minute.
    fn wait(&mut self, limit: u64, frames: u64) -> Result<(), WaitFault>
        ensures waited { OnOk result (does self.old (Waited limit) self.new) }
        ensures unwaited { OnErr result (does self.old Unwaited self.new) };

    /// Reads a clock: the milliseconds since a fixed moment.
    fn now(&mut self) -> u64
        ensures { does self.old (Timed result) self.new };

    /// Accepts the next connection, and gives it this number. Returns false if there is none.
    fn accept(&mut self, id: u64) -> bool
        ensures { does self.old (if result then Opened id else NoneOpened) self.new };

    /// Reads the bytes that have come on a connection, into the front of the buffer. The loop's buffer always has
    /// 65,536 bytes: an implementation need not tell a read into no room from the end.
    fn read(&mut self, id: u64, buffer: &mut [u8]) -> Came
        ensures bound { CameWithin result (length buffer.new) }
        ensures came { does self.old (read_event id buffer.new result) self.new };

    /// Writes some of these bytes to a connection.
    fn write(&mut self, id: u64, bytes: &[u8]) -> Took
        ensures bound { TookWithin result (length bytes.now) }
        ensures went { does self.old (write_event id bytes.now result) self.new };

    /// Closes a connection, for this reason. `frames` frames of it were handled.
    fn close(&mut self, id: u64, why: Departure, frames: u64)
        ensures { does self.old (Closed id why) self.new };
}
