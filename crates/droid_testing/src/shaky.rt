//! Streams for tests: a reader and a writer that are interrupted, give or take few bytes at a time, and stop once.

use std::io::{self, ErrorKind, Read, Write};

/// Where a stream is interrupted: after how many bytes, and how many calls are interrupted there.
pub type Place = (usize, u32);

/// No interruption.
pub const NOWHERE: Place = (0, 0);

/// How a stream behaves before it stops.
#[derive(Clone, Copy)]
pub struct Manner {
    /// The most bytes that it reads or takes in one call.
    pub width: usize,
    /// The number of its first calls that are interrupted.
    pub interruptions: u32,
    /// Further places where it is interrupted.
    pub places: [Place; 3],
}

/// Reads or takes as many bytes as it is asked to, without an interruption.
pub const STEADY: Manner = Manner {
    width: usize::MAX,
    interruptions: 0,
    places: [NOWHERE; 3],
};

/// Reads or takes one byte in each call.
pub const BYTE_BY_BYTE: Manner = Manner { width: 1, ..STEADY };

impl Manner {
    /// Returns whether the call after this many bytes is interrupted.
    fn interrupts(&mut self, before: usize) -> bool {
        if self.interruptions > 0 {
            self.interruptions -= 1;
            return true;
        }
        for (at, times) in &mut self.places {
            if *at == before && *times > 0 {
                *times -= 1;
                return true;
            }
        }
        false
    }

    /// Returns how many bytes the next call may read or take: none past the next interruption.
    fn width(&self, before: usize) -> usize {
        let mut width = self.width;
        for (at, times) in &self.places {
            if *at > before && *times > 0 {
                width = width.min(*at - before);
            }
        }
        width
    }
}

/// How a stream stops.
#[derive(Clone, Copy)]
pub enum Stop {
    /// It returns an error.
    Fails,
    /// It reads or takes no byte.
    Ends,
}

/// A reader of some bytes, which stops after them. It fails once: a caller that reads again gets the bytes behind the
/// fault.
#[derive(Drop)]
pub struct ShakyReader<'a> {
    bytes: &'a [u8],
    behind_the_fault: Option<&'a [u8]>,
    given: usize,
    manner: Manner,
}

impl<'a> ShakyReader<'a> {
    /// Makes a reader that stops in this way after the bytes, and then ends.
    pub fn new(bytes: &'a [u8], stop: Stop, manner: Manner) -> ShakyReader<'a> {
        let behind_the_fault = match stop {
            Stop::Fails => Some(b"".as_slice()),
            Stop::Ends => None,
        };
        ShakyReader {
            bytes,
            behind_the_fault,
            given: 0,
            manner,
        }
    }

    /// Makes a reader that fails between the bytes and those behind the fault.
    pub fn broken(bytes: &'a [u8], behind: &'a [u8], manner: Manner) -> ShakyReader<'a> {
        ShakyReader {
            bytes,
            behind_the_fault: Some(behind),
            given: 0,
            manner,
        }
    }

    /// Returns how many bytes weren't read, without those behind a fault that has yet to come.
    pub fn left(&self) -> usize {
        self.bytes.len()
    }
}

impl Read for ShakyReader<'_> {
    fn read(&mut self, buf: &mut [u8]) -> io::Result<usize> {
        if self.manner.interrupts(self.given) {
            return Err(io::Error::from(ErrorKind::Interrupted));
        }
        if self.bytes.is_empty() {
            if let Some(behind) = self.behind_the_fault.take() {
                self.bytes = behind;
                return Err(io::Error::from(ErrorKind::ConnectionReset));
            }
        }
        let width = self.manner.width(self.given);
        let count = self.bytes.len().min(buf.len()).min(width);
        buf[..count].copy_from_slice(&self.bytes[..count]);
        self.bytes = &self.bytes[count..];
        self.given = self.given.saturating_add(count);
        Ok(count)
    }
}

/// A writer that takes a number of bytes, then stops once, and then takes all.
#[derive(Drop)]
pub struct ShakyWriter {
    taken: Vec<u8>,
    room: usize,
    stop: Stop,
    flushes: u32,
    manner: Manner,
}

impl ShakyWriter {
    /// Makes a writer that stops in this way after this many bytes.
    pub fn new(taken: Vec<u8>, room: usize, stop: Stop, manner: Manner) -> ShakyWriter {
        ShakyWriter {
            taken,
            room,
            stop,
            flushes: 0,
            manner,
        }
    }

    /// Returns the bytes that it took.
    pub fn taken(&self) -> &[u8] {
        self.taken.as_slice()
    }

    /// Returns how often it was flushed.
    pub fn flushes(&self) -> u32 {
        self.flushes
    }
}

impl Write for ShakyWriter {
    fn write(&mut self, buf: &[u8]) -> io::Result<usize> {
        let taken = self.taken.len();
        if self.manner.interrupts(taken) {
            return Err(io::Error::from(ErrorKind::Interrupted));
        }
        if self.room == 0 {
            self.room = usize::MAX;
            return match self.stop {
                Stop::Fails => Err(io::Error::from(ErrorKind::BrokenPipe)),
                Stop::Ends => Ok(0),
            };
        }
        let width = self.manner.width(taken);
        let count = buf.len().min(width).min(self.room);
        self.taken.extend_from_slice(&buf[..count])?;
        self.room -= count;
        Ok(count)
    }

    fn flush(&mut self) -> io::Result<()> {
        self.flushes = self.flushes.saturating_add(1);
        Ok(())
    }
}
