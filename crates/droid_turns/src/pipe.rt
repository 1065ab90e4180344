//! One connection over a reader and a writer.

ghost use Rattle.std.specs.Prelude.{◌≡◌, ℕ, None, length};
ghost use Rattle.droid_frame.specs.Seen.{Counts};
ghost use Rattle.droid_turns.specs.Events.{CameWithin, Closed, TookWithin};
ghost use Rattle.droid_turns.specs.Pipes.{CameSo, ReadsAs, TookSo, WritesAs, left_by};

use crate::connections::{Came, Connections, Took, WaitFault};
use crate::departure::Departure;
use droid_frame::{Retries, SteadyRead, SteadyWrite, read_some};
use std::io::ErrorKind;

/// The most tries of one write: the first, and one after each of 64 interruptions. Reads have the same limit, in
/// `Retries` of `droid_frame`, and the definition `GivesUp` speaks of both.
const TRIES: u32 = 65;

/// One connection over a reader and a writer, not accepted yet at first.
///
/// A read blocks until bytes come. So the reader is read once between two waits, and only if the loop may wait, that
/// is, once all replies are written.
#[derive(Drop)]
pub struct Pipe<R, W> {
    /// Where its bytes come from.
    pub reader: R,
    /// Where the replies go.
    pub writer: W,
    /// Why it was closed, if it was.
    pub departure: Option<Departure>,
    /// Whether it was accepted.
    accepted: bool,
    /// Whether it may be read before the next wait.
    readable: bool,
}

impl<R: SteadyRead, W: SteadyWrite> Pipe<R, W> {
    /// Makes a connection that is not accepted yet. Its streams are neither read nor written before it is.
    pub fn new(reader: R, writer: W) -> Pipe<R, W>
        ensures reader { result.reader ≡ reader }
        ensures writer { result.writer ≡ writer }
        ensures departure { result.departure ≡ None }
    {
        Pipe {
            reader,
            writer,
            departure: None,
            accepted: false,
            readable: false,
        }
    }
}

/// The one connection has the number 0. A call for any other number does nothing. `wait` never blocks: a limit above 0
/// allows one read before the next wait. The clock stands still, so the connection is never idle.
impl<R: SteadyRead, W: SteadyWrite> Connections for Pipe<R, W> {
    ghost use Rattle.droid_turns.specs.Pipes.{PipeDoes};

    ghost does = { PipeDoes R.remaining W.contents R.seen W.seen W.room };

    /// Returns at once, and allows one read before the next wait if the loop may wait (`limit` is above 0).
    fn wait(&mut self, limit: u64, _frames: u64) -> Result<(), WaitFault> {
        self.readable = limit > 0;
        Ok(())
    }

    /// Returns 0 always: the clock stands still.
    fn now(&mut self) -> u64 {
        0
    }

    /// Accepts the one connection, once, if it gets the number 0: the loop's first number.
    fn accept(&mut self, id: u64) -> bool {
        if self.accepted {
            return false;
        }
        if id != 0 {
            return false;
        }
        self.accepted = true;
        true
    }

    /// Reads once, if that is allowed, and allows no other read before the next wait.
    fn read(&mut self, id: u64, buffer: &mut [u8]) -> Came {
        if !self.readable {
            return Came::Nothing;
        }
        if id != 0 {
            return Came::Nothing;
        }
        self.readable = false;
        read_from(&mut self.reader, buffer)
    }

    /// Writes some of these bytes. May block until the writer takes any.
    fn write(&mut self, id: u64, bytes: &[u8]) -> Took {
        if id != 0 {
            return Took::Nothing;
        }
        write_to(&mut self.writer, bytes)
    }

    /// Notes why the connection was closed. The reader and the writer stay as they are.
    fn close(&mut self, id: u64, why: Departure, _frames: u64) {
        self.departure = leaving(self.departure, id, why);
    }
}

/// Returns why the pipe was closed, after a close of the connection with this number: 0 is the pipe. A close of another
/// number leaves the reason `before`.
fn leaving(before: Option<Departure>, id: u64, why: Departure) -> Option<Departure>
    ensures { result ≡ left_by (Closed id why) before }
{
    if id == 0 {
        return Some(why);
    }
    before
}

/// Reads once. An interrupted read is tried again, up to 64 times; any other failure is `Broken`.
fn read_from<R: SteadyRead>(reader: &mut R, buffer: &mut [u8]) -> Came
    ensures bound { CameWithin result (length buffer.new) }
    ensures came { CameSo (R.remaining reader.old) (R.remaining reader.new) buffer.new result }
    ensures reported { (start : ℕ) → Counts start (R.seen reader.old) 0 → ReadsAs start (R.seen reader.new) result }
{
    // A read into no room would return 0, which is the end.
    if buffer.is_empty() {
        return Came::Nothing;
    }
    let mut retries = Retries::new();
    match read_some(reader, buffer, &mut retries) {
        Ok(0) => Came::End,
        Ok(count) => Came::Bytes(count),
        Err(_) => Came::Broken,
    }
}

/// Writes some of these bytes, or nothing if there are none. An interrupted write is tried again, up to 64 times; any
/// other failure is `Broken`, and so is a write that takes no byte.
fn write_to<W: SteadyWrite>(writer: &mut W, bytes: &[u8]) -> Took
    ensures bound { TookWithin result (length bytes.now) }
    ensures took { TookSo (W.contents writer.old) (W.contents writer.new) bytes.now result }
    ensures reported { (start : ℕ) → Counts start (W.seen writer.old) 0
        → WritesAs start (W.seen writer.new) (W.room writer.new) result }
{
    if bytes.is_empty() {
        return Took::Nothing;
    }
    for tried in 0..TRIES {
        match writer.write_on(bytes) {
            Ok(0) => return Took::Broken,
            Ok(count) => return Took::Bytes(count),
            Err(error) => {
                if error.kind() != ErrorKind::Interrupted {
                    return Took::Broken;
                }
            }
        }
    }
    Took::Broken
}
