//! A connection on which each reply has a limited time, however its bytes come.
//!
//! Proved is what is left of that time. What the clock shows and what the connection delivers is up to the machine: the
//! other functions have no contract, and `submit_timeout.py` and `submit_waits.py` (`Replies`) of
//! `tests/program/submissions` test them. Nothing tests a write that takes too long, or a clock that cannot be read.

ghost use Rattle.std.specs.Prelude.{◌≡◌};
ghost use Rattle.droid_cmd_submit.specs.Waits.{time_left};

use std::io::{self, Error, ErrorKind, Read, Write};
use std::net::TcpStream;
use std::time::{Clock, Duration, Instant};

/// A connection to a service. A frame that is awaited has to be whole after a while, however its bytes come.
#[derive(Drop)]
pub struct Timely<'a, R> {
    runtime: &'a R,
    stream: TcpStream,
    /// How many milliseconds a frame may take.
    limit: u64,
    /// How many milliseconds the next read may take: what the system was told last.
    told: u64,
    /// Since when the frame is awaited. `None` if the clock could not be read.
    begun: Option<Instant>,
}

impl<'a, R: Clock> Timely<'a, R> {
    /// Takes a connection. Each frame may take `limit` milliseconds, and so may each write. The first frame is awaited
    /// from now on. Fails if the system refuses the limits.
    pub fn new(runtime: &'a R, stream: TcpStream, limit: u64) -> io::Result<Timely<'a, R>> {
        let time = Duration::from_millis(limit);
        stream.set_read_timeout(Some(time))?;
        stream.set_write_timeout(Some(time))?;
        Ok(Timely {
            runtime,
            stream,
            limit,
            told: limit,
            begun: Instant::now(runtime).ok(),
        })
    }

    /// Awaits the next frame from now on: its time begins. A clock that cannot be read gives each read the whole time.
    pub fn await_frame(&mut self) {
        self.begun = Instant::now(self.runtime).ok();
    }

    /// Returns for how many milliseconds the frame has been awaited: 0 if the clock cannot be read.
    fn awaited(&self) -> u64 {
        match self.milliseconds() {
            Some(milliseconds) => milliseconds,
            None => 0,
        }
    }

    /// Returns the milliseconds since the frame is awaited, or `None` if the clock cannot be read.
    fn milliseconds(&self) -> Option<u64> {
        let begun = self.begun?;
        let now = Instant::now(self.runtime).ok()?;
        u64::try_from(now.saturating_duration_since(begun).as_millis()).ok()
    }

    /// Has the next read take no longer than is left of the frame's time. Fails with `TimedOut` if none is left, or if
    /// the system refuses the limit. The system is told only what changed: that is for speed.
    fn limit_read(&mut self) -> io::Result<()> {
        let left = time_left(self.limit, self.awaited());
        if left == 0 {
            return Err(Error::from(ErrorKind::TimedOut));
        }
        if left != self.told {
            self.stream
                .set_read_timeout(Some(Duration::from_millis(left)))?;
            self.told = left;
        }
        Ok(())
    }
}

impl<R: Clock> Read for Timely<'_, R> {
    /// Reads what has come, at most until the frame's time is over.
    fn read(&mut self, buf: &mut [u8]) -> io::Result<usize> {
        self.limit_read()?;
        self.stream.read(buf)
    }
}

impl<R: Clock> Write for Timely<'_, R> {
    /// Writes by the connection. The limit on each write is the one that `new` told the system.
    fn write(&mut self, buf: &[u8]) -> io::Result<usize> {
        self.stream.write(buf)
    }

    /// Flushes the connection.
    fn flush(&mut self) -> io::Result<()> {
        self.stream.flush()
    }
}

/// Returns how many milliseconds are left of `limit` for a frame that has been awaited for `awaited`: 0 if none are.
fn time_left(limit: u64, awaited: u64) -> u64
    ensures { result ≡ time_left limit awaited }
{
    limit.saturating_sub(awaited)
}
