//! One connection. Its reads and writes are proved to keep to the buffer. What they do is tested in
//! `tests/program/wire`: `send_streams.py` (interruptions), `serve_in_turns.py` (reads and writes of each length, and
//! broken ones), and `serve_options.py` (the counts).

ghost use Rattle.std.specs.Prelude.{◌≡◌, length};
ghost use Rattle.droid_turns.specs.Events.{CameWithin, TookWithin};

use crate::tally::count;
use droid_turns::{Came, Took};
use mio::net::TcpStream;
use std::io::{ErrorKind, Read, Write};
use std::net::SocketAddr;

/// How often a read or a write is tried: the 65th interruption is a fault. It is `RETRY_LIMIT` of `droid_frame`, 64,
/// and one; no clause ties them, but `ServeStreamsAtOnce` of `send_streams.py` holds this one.
const TRIES: u32 = 65;

/// A connection.
#[derive(Drop)]
pub(crate) struct Guest {
    /// Its number.
    pub(crate) id: u64,
    pub(crate) stream: TcpStream,
    pub(crate) address: SocketAddr,
    /// Whether a read may return bytes: the system reported so since the last read that emptied the socket.
    pub(crate) readable: bool,
    /// Whether a write may take bytes.
    pub(crate) writable: bool,
    /// Whether the system said that the input has ended or failed. Only a further read reports it.
    pub(crate) ending: bool,
    /// Whether it took bytes since the last turn began.
    pub(crate) answered: bool,
    /// How many bytes came.
    pub(crate) came: u64,
    /// How many bytes it took.
    pub(crate) went: u64,
}

impl Guest {
    /// Reads what has come, if the system reported something, and counts it in `came`.
    ///
    /// `Nothing`: nothing was reported, or the socket turned out to be empty. `End`: a read returned no byte; an empty
    /// buffer would have that effect too, but the loop's has 65,536 bytes (`BUFFER` of `peer.rt` in `droid_turns`).
    /// `Broken`: a read failed, or was interrupted for the 65th time. The clause holds the bound alone.
    pub(crate) fn read(&mut self, buffer: &mut [u8]) -> Came
        ensures { CameWithin result (length buffer.new) }
    {
        if !self.readable {
            return Came::Nothing;
        }
        for _ in 0..TRIES {
            match self.stream.read(buffer) {
                Ok(0) => return Came::End,
                Ok(size) => {
                    self.came = count(self.came, size);
                    // A read that leaves room emptied the socket. The system reports what comes later.
                    self.readable = size == buffer.len() || self.ending;
                    return Came::Bytes(size);
                }
                Err(error) => match error.kind() {
                    ErrorKind::WouldBlock => {
                        self.readable = false;
                        return Came::Nothing;
                    }
                    ErrorKind::Interrupted => {}
                    _ => return Came::Broken,
                },
            }
        }
        Came::Broken
    }

    /// Returns whether it took bytes since the last turn began, and the system has not reported that it sent anything
    /// since. For speed alone, as `gather` of `sockets.rt` is.
    pub(crate) fn is_awaited(&self) -> bool {
        self.answered && !self.readable
    }

    /// Writes some of these bytes, if the system reported that it takes some, and counts them in `went`.
    ///
    /// `Nothing`: nothing was reported, or the socket turned out to be full. `Broken`: a write failed, took no byte, or
    /// was interrupted for the 65th time. The loop never writes an empty slice. The clause holds the bound alone.
    pub(crate) fn write(&mut self, bytes: &[u8]) -> Took
        ensures { TookWithin result (length bytes.now) }
    {
        if !self.writable {
            return Took::Nothing;
        }
        for _ in 0..TRIES {
            match self.stream.write(bytes) {
                Ok(0) => return Took::Broken,
                Ok(size) => {
                    self.answered = true;
                    self.went = count(self.went, size);
                    return Took::Bytes(size);
                }
                Err(error) => match error.kind() {
                    ErrorKind::WouldBlock => {
                        self.writable = false;
                        return Took::Nothing;
                    }
                    ErrorKind::Interrupted => {}
                    _ => return Took::Broken,
                },
            }
        }
        Took::Broken
    }
}
