//! Connections to a port of this machine.
//!
//! Proved is what [`Open`] asks for: the settings stay, and how pauses grow, also that they begin anew with the wait.
//! What the clock shows and what a connection delivers is up to the machine: those functions have no contract, and
//! `tests/program/submissions` (`submit_waits.py`, `submit_broken.py`) tests them. No clause has the fields `begun`,
//! `failed`, `has_joined` and `has_printed`: `submit_waits.py` tests the last three.

ghost use Rattle.std.specs.Prelude.{◌≡◌};
ghost use Rattle.droid_cmd_submit.specs.Waits.{OpensOne, WaitsOn, is_over, next_pause};

use crate::timely::Timely;
use droid_frame::Noted;
use droid_remote::{Broken, Open};
use droid_terminal::Verbosity;
use std::io::ErrorKind;
use std::net::{Ipv4Addr, Net, TcpListener, TcpStream};
use std::time::{Clock, Duration, Instant};
use std::{io, thread};

/// The shortest pause before another try, in milliseconds: the clause of `new`, and `pause_after`, have 50, which the
/// prover ties. The help of `submit` (`submit_help.rt` of `droid_arguments`) and docs/PROMISES.md have both pauses, and
/// nothing ties these; `submit_waits.py` counts on the first five pauses.
const SHORTEST_PAUSE: u64 = 50;

/// The longest pause, in milliseconds: `next_pause` of `specs/Waits.antt` has 2,000, which the prover ties.
const LONGEST_PAUSE: u64 = 2_000;

/// Where to connect to, and how long to wait.
#[derive(Clone, Copy)]
pub struct LoopbackSettings {
    /// The port.
    pub port: u16,
    /// For how many seconds connecting is tried.
    pub wait: u32,
    /// How many seconds a reply or a write may take before the connection counts as broken.
    pub timeout: u32,
    /// Whether it is printed that nobody listens yet, and how.
    pub verbosity: Verbosity,
}

/// A port of this machine.
#[derive(Drop)]
pub struct Loopback<'a, R> {
    /// The runtime.
    pub runtime: &'a R,
    /// Where to connect to, and how long to wait.
    pub settings: LoopbackSettings,
    /// The pause before the next try, in milliseconds.
    pub pause: u64,
    /// When waiting began. `None` if the clock could not be read.
    pub begun: Option<Instant>,
    /// Why the last try to connect failed, or `None` if it did not.
    pub failed: Option<ErrorKind>,
    /// Whether a connection was ever made.
    pub has_joined: bool,
    /// Whether it was printed that nobody listens yet.
    pub has_printed: bool,
}

impl<'a, R: Clock> Loopback<'a, R> {
    /// Takes a port to connect to. The time that may be waited begins.
    pub fn new(runtime: &'a R, settings: LoopbackSettings) -> Loopback<'a, R>
        ensures settings { result.settings ≡ settings }
        ensures pause { result.pause ≡ 50 }
    {
        Loopback {
            runtime,
            settings,
            pause: SHORTEST_PAUSE,
            begun: Instant::now(runtime).ok(),
            failed: None,
            has_joined: false,
            has_printed: false,
        }
    }

    /// Returns whether the time that may be waited is over. It is, if the clock cannot be read.
    fn is_over(&self) -> bool {
        match self.milliseconds() {
            Some(milliseconds) => is_over(self.settings.wait, milliseconds),
            None => true,
        }
    }

    /// Returns the milliseconds since waiting began, or `None` if the clock cannot be read.
    fn milliseconds(&self) -> Option<u64> {
        let begun = self.begun?;
        let now = Instant::now(self.runtime).ok()?;
        u64::try_from(now.saturating_duration_since(begun).as_millis()).ok()
    }
}

impl<'a, R: Clock + Eprint + Net<Listener = TcpListener, Stream = TcpStream>> Open<
    Noted<Timely<'a, R>>,
> for Loopback<'a, R> {
    ghost opens = { λ old stream new. OpensOne old new };

    ghost waits = { WaitsOn };

    /// Connects once. Keeps why that failed, for the ending. At the first failure it prints that nobody listens yet,
    /// if that is the cause and no connection was ever made; at a later one nothing.
    fn open(&mut self) -> Result<Noted<Timely<'a, R>>, Broken> {
        match connect(self.runtime, self.settings) {
            Ok(stream) => {
                self.failed = None;
                self.has_joined = true;
                Ok(Noted::new(stream))
            }
            Err(cause) => {
                self.failed = Some(cause);
                if !self.has_joined && !self.has_printed {
                    self.has_printed = true;
                    print_waiting(self.runtime, self.settings, cause);
                }
                Err(Broken)
            }
        }
    }

    /// Sleeps for the pause, and doubles the next one. Returns false, without sleeping, when the time is over. No
    /// clause holds that it sleeps, or what it returns: `submit_waits.py` tests both.
    fn pause(&mut self) -> bool {
        if self.is_over() {
            return false;
        }
        thread::sleep(self.runtime, Duration::from_millis(self.pause));
        self.pause = next_pause(self.pause);
        true
    }

    /// Begins the time of the next frame.
    fn await_frame(&self, stream: &mut Noted<Timely<'a, R>>) {
        stream.stream.await_frame();
    }

    /// Starts the time that may be waited at the clock of now, and the pauses at the shortest. A clause
    /// (`pause_after`) holds the pause alone. That `begun` is set is held by nothing: where `submit_waits.py` waits the
    /// time out, little has passed before.
    fn start_wait(&mut self) {
        self.begun = Instant::now(self.runtime).ok();
        self.pause = SHORTEST_PAUSE;
    }
}

/// Connects to the port of this machine, or returns the kind of error, which is what an ending keeps.
fn connect<R: Clock + Net<Listener = TcpListener, Stream = TcpStream>>(
    rt: &R,
    settings: LoopbackSettings,
) -> Result<Timely<'_, R>, ErrorKind> {
    match connected(rt, settings) {
        Ok(stream) => Ok(stream),
        Err(error) => Err(error.kind()),
    }
}

/// Connects to the port. A reply or a write then fails when it takes longer than the settings' timeout: they count in
/// seconds, `Timely` in milliseconds.
fn connected<R: Clock + Net<Listener = TcpListener, Stream = TcpStream>>(
    rt: &R,
    settings: LoopbackSettings,
) -> io::Result<Timely<'_, R>> {
    let stream = TcpStream::connect(rt, (Ipv4Addr::LOCALHOST, settings.port))?;
    // A request's frame is two writes, and its reply may be waited for: don't delay the second.
    let _ = stream.set_nodelay(true);
    Timely::new(rt, stream, u64::from(settings.timeout) * 1_000)
}

/// Prints that nobody listens on the port yet, if that is why it could not be connected to. Prints nothing with
/// --quiet, and where no time is waited anyway. `submit_waits.py` tests it, but not where no time is waited.
fn print_waiting<R: Eprint>(rt: &R, settings: LoopbackSettings, cause: ErrorKind) {
    if settings.verbosity == Verbosity::Quiet || settings.wait == 0 {
        return;
    }
    if cause == ErrorKind::ConnectionRefused {
        let _ = eprintln!(rt; "waiting: nobody listens on port {} yet", settings.port);
    }
}

/// Returns whether `wait` seconds are over after this many milliseconds; 0 seconds are over at once.
fn is_over(wait: u32, milliseconds: u64) -> bool
    ensures { result ≡ is_over wait milliseconds }
{
    milliseconds >= u64::from(wait) * 1_000
}

/// Returns the pause that follows one of this many milliseconds: twice as long, and at most [`LONGEST_PAUSE`].
fn next_pause(pause: u64) -> u64
    ensures { result ≡ next_pause pause }
{
    pause.saturating_mul(2).min(LONGEST_PAUSE)
}
