//! `Noted`: any stream of std, with a record of what it did.
//!
//! What is noted is held by the contracts of [`SteadyRead`] and [`SteadyWrite`]. The methods of std's `Read` and
//! `Write` have the contracts of std, which say nothing of a record.

ghost use Rattle.std.specs.Prelude.{◌≡◌, None};
ghost use Rattle.droid_frame.specs.Seen.{fresh};

use crate::io::steady::{SteadyRead, SteadyWrite};
use crate::io::stream_record::Seen;
use std::io;
use std::io::{Read, Write};

/// A stream of std (a file, a socket, a terminal or a vector) with a record of what it did.
#[derive(Drop)]
pub struct Noted<S> {
    /// The stream itself.
    pub stream: S,
    /// What it did since [`Noted::new`]. Each read and write adds to it.
    pub seen: Seen,
}

impl<S> Noted<S> {
    /// Starts the record of a stream: not used yet. What the stream did before is not in the record.
    pub fn new(stream: S) -> Noted<S>
        ensures stream { result.stream ≡ stream }
        ensures seen { result.seen ≡ fresh }
    {
        Noted {
            stream,
            seen: Seen::fresh(),
        }
    }
}

impl<R: Read> Read for Noted<R> {
    ghost remaining = { λ reader. R.remaining reader.stream };

    /// Reads as [`SteadyRead::read_on`] does. That the read is noted no clause holds here.
    fn read(&mut self, buf: &mut [u8]) -> io::Result<usize> {
        self.read_on(buf)
    }
}

impl<R: Read> SteadyRead for Noted<R> {
    ghost seen = { λ reader. reader.seen };

    /// Reads once from the stream, and notes whether that succeeded, was interrupted or failed.
    fn read_on(&mut self, buffer: &mut [u8]) -> io::Result<usize> {
        match self.stream.read(buffer) {
            Ok(count) => {
                self.seen.note_success();
                Ok(count)
            }
            Err(error) => Err(self.seen.note_error(error)),
        }
    }
}

impl<W: Write> Write for Noted<W> {
    ghost contents = { λ writer. W.contents writer.stream };

    /// Writes as [`SteadyWrite::write_on`] does. That the write is noted no clause holds here.
    fn write(&mut self, buf: &[u8]) -> io::Result<usize> {
        self.write_on(buf)
    }

    /// Flushes the stream. A flush is neither a read nor a write, so it is not noted, whatever comes of it.
    fn flush(&mut self) -> io::Result<()> {
        self.stream.flush()
    }
}

impl<W: Write> SteadyWrite for Noted<W> {
    ghost seen = { λ writer. writer.seen };

    ghost room = { λ _. None };

    /// Writes once to the stream, and notes whether that succeeded, was interrupted or failed. To take none of some
    /// bytes is a failure.
    fn write_on(&mut self, bytes: &[u8]) -> io::Result<usize> {
        match self.stream.write(bytes) {
            Ok(0) if !bytes.is_empty() => {
                self.seen.note_failure();
                Ok(0)
            }
            Ok(count) => {
                self.seen.note_success();
                Ok(count)
            }
            Err(error) => Err(self.seen.note_error(error)),
        }
    }
}
