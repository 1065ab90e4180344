//! The sockets of many connections. Proved is what is counted, and that no read or write passes the end of its buffer.
//! What the system does with a socket is not known to the prover, so what asks the system or notes its answers has no
//! contract, or one of the counts alone: `serve_at_once.py`, `serve_in_turns.py`, `serve_many_desks.py` and
//! `serve_options.py` of `tests/program/wire` test it. No test has accepting or registering fail. How long a turn waits
//! for more requests (`gather` and what it calls) is for speed alone: `tests/program/journal/shared_syncs.py`.

ghost use Rattle.std.specs.Prelude.{◌≡◌, ◌<◌, IfOk, IfSome, length};
ghost use Rattle.droid_turns.specs.Events.{CameWithin, TookWithin};

use crate::grace::Grace;
use crate::guest::Guest;
use crate::report::{MINUTE, Verbosity, print_ended, print_minute};
use crate::tally::{Tally, count};
use droid_turns::{Came, Connections, Departure, Took, WaitFault};
use mio::net::{TcpListener, TcpStream};
use mio::{Events, Interest, Poll, Token};
use std::alloc::Global;
use std::io;
use std::io::ErrorKind;
use std::net::{Ipv4Addr, Net, SocketAddr};
use std::time::{Clock, Duration, Instant};

/// The token of the listener. No connection has this number.
const DOOR: usize = usize::MAX;

/// How often `accept_one` tries at most, the first time included. Nothing holds the number.
const TRIES: u32 = 16;

/// How often a turn waits for more requests, at most. The clock ends these waits far sooner: this bound is for a clock
/// that stands still. Nothing holds the number.
const MOST_WAITS: u32 = 1_000;

/// If turns share syncs, a wait after a turn with requests ends after this many milliseconds. Then an idle turn
/// follows, in which a journal marks its end: `test_silence` of `tests/program/journal/journal_calls.py` tests that the
/// mark comes, and nothing the number.
const SETTLED: u64 = 10;

/// The connections to a port of this machine.
#[derive(Drop)]
pub struct Sockets<'a, R> {
    runtime: &'a R,
    poll: Poll,
    events: Events,
    listener: TcpListener,
    guests: Vec<Guest>,
    /// Whether a connection may be waiting to be accepted.
    is_knocking: bool,
    /// Whether a connection was closed since the last wait.
    has_left: bool,
    /// The first reading of the clock. `None` if it could not be read.
    begun: Option<Instant>,
    /// The last reading of the clock, in milliseconds since then.
    time: u64,
    grace: Grace,
    tally: Tally,
    verbosity: Verbosity,
    /// The counts at the last summary line, and when it was printed.
    printed: Tally,
    printed_at: u64,
    /// How many frames were handled since that line.
    frames: u64,
}

impl<'a, R: Clock + Eprint + Net> Sockets<'a, R> {
    /// Listens on this port of 127.0.0.1, with room for the system's reports on this many connections. Fails if the
    /// system refuses, for example a port in use, or if memory runs out. The clause holds the counts alone:
    /// `serve_command.py` tests the address and a port in use.
    pub fn bind(
        runtime: &'a R,
        alloc: Global,
        port: u16,
        seats: usize,
        verbosity: Verbosity,
    ) -> io::Result<Sockets<'a, R>>
        ensures { IfOk result (λ sockets. sockets.tally ≡ record { opened = 0; closed = 0; came = 0; went = 0 }) }
    {
        let poll = Poll::new(runtime)?;
        let address = SocketAddr::from((Ipv4Addr::LOCALHOST, port));
        let mut listener = TcpListener::bind(runtime, address)?;
        let registry = poll.registry();
        registry.register(&mut listener, Token(DOOR), Interest::READABLE)?;
        let events = Events::with_capacity(alloc, seats.saturating_add(1))?;
        Ok(Sockets {
            runtime,
            poll,
            events,
            listener,
            guests: Vec::with_capacity(alloc, seats)?,
            is_knocking: true,
            has_left: false,
            begun: Instant::now(runtime).ok(),
            time: 0,
            grace: Grace::none(),
            tally: Tally::new(),
            verbosity,
            printed: Tally::new(),
            printed_at: 0,
            frames: 0,
        })
    }

    /// Lets requests that come soon after each other share a sync. If the last turn took a millisecond or more, `wait`
    /// also waits for the next requests of the other connections that this turn answered: at most half as long as the
    /// turn took, and never for a single connection. After a turn with requests the next one begins within 10
    /// milliseconds, also if nothing comes. The numbers are `LONG` of `grace.rt`, its `/ 2`, and `SETTLED`. The clause
    /// holds the counts alone: with the flag unset `test_two_in_turn` of `shared_syncs.py` fails.
    pub fn share_syncs(&mut self)
        ensures { self.new.tally ≡ self.old.tally }
    {
        self.grace.is_given = true;
    }

    /// Adds these frames to the ones since the last summary line, and prints that line if a minute has passed and lines
    /// are wanted. If they are not, frames are counted all the same. The clause holds the counts of `tally` alone:
    /// `test_each_minute` of `serve_options.py` tests the line.
    fn print_minutely(&mut self, frames: u64)
        ensures { self.new.tally ≡ self.old.tally }
    {
        self.frames = self.frames.saturating_add(frames);
        if self.verbosity == Verbosity::Quiet {
            return;
        }
        if self.time.saturating_sub(self.printed_at) < MINUTE {
            return;
        }
        print_minute(
            self.runtime,
            self.guests.len(),
            self.frames,
            self.printed,
            self.tally,
        );
        self.printed = self.tally;
        self.printed_at = self.time;
        self.frames = 0;
    }

    /// Returns the time since the clock was first read, in microseconds. `None`: a clock could not be read, then or
    /// now, or the number needs more than 64 bits.
    fn microseconds(&self) -> Option<u64> {
        let begun = self.begun?;
        let now = Instant::now(self.runtime).ok()?;
        u64::try_from(now.saturating_duration_since(begun).as_micros()).ok()
    }

    /// Waits until the system reports something, but at most `limit` milliseconds, and notes at each connection what
    /// was reported. Returns whether anything was. Fails if the system's wait does, which `serve_in_turns.py` tests.
    fn poll_for(&mut self, limit: u64) -> Result<bool, WaitFault>
        ensures { self.new.tally ≡ self.old.tally }
    {
        let timeout = Duration::from_millis(limit);
        match self.poll.poll(&mut self.events, Some(timeout)) {
            Ok(()) => {
                let knocks = note_ready(&self.events, &mut self.guests);
                self.is_knocking = self.is_knocking || knocks;
                Ok(!self.events.is_empty())
            }
            Err(_) => Err(WaitFault),
        }
    }

    /// Waits for the next requests of the connections that were answered in the last turn: until each of them sent
    /// something, nothing was reported for a millisecond, or the time is up: [`microseconds`](Sockets::microseconds)
    /// has reached `until`. A clock or a wait that fails ends it too, and is not reported: the next `wait` meets it.
    fn wait_for_answered(&mut self, until: u64)
        ensures { self.new.tally ≡ self.old.tally }
    {
        for _ in 0..MOST_WAITS {
            if awaited(&self.guests) == 0 {
                return;
            }
            match self.microseconds() {
                Some(now) if now < until => {}
                _ => return,
            }
            match self.poll_for(1) {
                Ok(true) => {}
                _ => return,
            }
        }
    }

    /// Waits a little for more requests if one has come, so that they share a sync. The last turn's replies were
    /// written at `now`, in microseconds. The loop allows a wait of `limit` milliseconds. `is_due` is asked last, since
    /// it counts the turns that could have waited.
    fn gather(&mut self, now: u64, limit: u64)
        ensures { self.new.tally ≡ self.old.tally }
    {
        let time = self.grace.microseconds(now, limit);
        if time == 0 {
            return;
        }
        let before = awaited(&self.guests);
        if before == 0 || !has_come(&self.guests) || !self.grace.is_due() {
            return;
        }
        self.wait_for_answered(now.saturating_add(time));
        self.grace.note(awaited(&self.guests) < before);
    }

    /// Notes that a turn begins, and when. From now on only what this turn writes counts as answered.
    fn begin_turn(&mut self)
        ensures { self.new.tally ≡ self.old.tally }
    {
        forget_answers(&mut self.guests);
        if let Some(now) = self.microseconds() {
            self.grace.begin(now);
        }
    }
}

// The clause of each call says what it counts, and nothing of the system.
impl<R: Clock + Eprint + Net> Connections for Sockets<'_, R> {
    ghost use Rattle.std.specs.Prelude.{◌≡◌};
    ghost use Rattle.droid_sockets.specs.Tallies.{after};

    ghost does = { λ old event new. new.tally ≡ after old.tally event };

    /// Prints the line of the minute if it is due, waits for the system's reports, perhaps waits for more requests, and
    /// begins a turn. Does not wait if a connection may be accepted on a seat that has become free
    /// (`test_a_seat_is_waited_for` of `serve_at_once.py`). Fails only if the first wait does.
    fn wait(&mut self, limit: u64, frames: u64) -> Result<(), WaitFault> {
        self.print_minutely(frames);
        // The system reports only once that a connection waits to be accepted.
        let limit = if self.is_knocking && self.has_left {
            0
        } else {
            limit
        };
        let limit = if self.grace.is_given && frames > 0 {
            limit.min(SETTLED)
        } else {
            limit
        };
        self.has_left = false;
        let answered = self.microseconds();
        match self.poll_for(limit) {
            Ok(_) => {}
            Err(fault) => return Err(fault),
        }
        if let Some(answered) = answered {
            self.gather(answered, limit);
        }
        self.begin_turn();
        Ok(())
    }

    /// Reads the clock, in milliseconds since it was first read. If that fails, the last reading is returned.
    fn now(&mut self) -> u64 {
        if let Some(time) = self.microseconds() {
            self.time = time / 1_000;
        }
        self.time
    }

    /// Accepts a connection if the system reported one. After a failure it returns false, and the next turn tries
    /// again; only the answer that none waits ends the trying, until the system reports another one. A connection that
    /// could not be taken in is closed, and not counted.
    fn accept(&mut self, id: u64) -> bool {
        if !self.is_knocking {
            return false;
        }
        match accept_one(&self.listener) {
            Accepted::One(stream, address) => {
                if !take_in(&self.poll, &mut self.guests, id, stream, address) {
                    return false;
                }
                self.tally.opened = count(self.tally.opened, 1);
                true
            }
            Accepted::Nobody => {
                self.is_knocking = false;
                false
            }
            Accepted::Failed => false,
        }
    }

    /// Reads from the connection with this number, and counts the bytes. An end or a fault counts nothing.
    fn read(&mut self, id: u64, buffer: &mut [u8]) -> Came {
        let came = read_from(&mut self.guests, id, buffer);
        match came {
            Came::Bytes(size) => self.tally.came = count(self.tally.came, size),
            // Changes nothing: the clause counts it as a read of no bytes.
            Came::Nothing => self.tally.came = count(self.tally.came, 0),
            Came::End => {}
            Came::Broken => {}
        }
        came
    }

    /// Writes to the connection with this number, and counts the bytes. A fault counts nothing.
    fn write(&mut self, id: u64, bytes: &[u8]) -> Took {
        let took = write_to(&mut self.guests, id, bytes);
        match took {
            Took::Bytes(size) => self.tally.went = count(self.tally.went, size),
            // Changes nothing: the clause counts it as a write of no bytes.
            Took::Nothing => self.tally.went = count(self.tally.went, 0),
            Took::Broken => {}
        }
        took
    }

    /// Drops the connection with this number, which closes its socket, and prints its line if lines are wanted. An
    /// unknown number is counted all the same; the loop closes none.
    fn close(&mut self, id: u64, why: Departure, frames: u64) {
        self.has_left = true;
        self.tally.closed = count(self.tally.closed, 1);
        let Some(place) = place_of(&self.guests, id) else {
            return;
        };
        let guest = self.guests.swap_remove(place);
        if self.verbosity == Verbosity::Verbose {
            print_ended(self.runtime, &guest, why, frames);
        }
    }
}

/// The result of accepting a connection.
enum Accepted {
    /// A connection, and its address.
    One(TcpStream, SocketAddr),
    /// No connection waits.
    Nobody,
    /// It failed: for example, too many files are open.
    Failed,
}

/// Accepts the next connection. A failure may concern one connection alone: then the next one is tried, up to 16 times
/// in all (`TRIES`). No clause holds that number, and no test has a failure here.
fn accept_one(listener: &TcpListener) -> Accepted {
    for _ in 0..TRIES {
        match listener.accept() {
            Ok((stream, address)) => return Accepted::One(stream, address),
            Err(error) => {
                if error.kind() == ErrorKind::WouldBlock {
                    return Accepted::Nobody;
                }
            }
        }
    }
    Accepted::Failed
}

/// Registers a connection with the system, and keeps it. Returns false if that fails, or if memory runs out; then it is
/// closed. It begins as readable and writable: the first read and write find out, and no report is waited for.
fn take_in(
    poll: &Poll,
    guests: &mut Vec<Guest>,
    id: u64,
    mut stream: TcpStream,
    address: SocketAddr,
) -> bool {
    // A reply is one write, so the system should not delay it. For speed: a failure is ignored, and nothing tests it.
    let _ = stream.set_nodelay(true);
    let both = Interest::READABLE | Interest::WRITABLE;
    let registry = poll.registry();
    if registry
        .register(&mut stream, Token(id as usize), both)
        .is_err()
    {
        return false;
    }
    guests
        .push(Guest {
            id,
            stream,
            address,
            readable: true,
            writable: true,
            ending: false,
            answered: false,
            came: 0,
            went: 0,
        })
        .is_ok()
}

/// Notes at each connection what the system reported of it, and returns whether one is waiting to be accepted. A
/// failure counts as readable and writable too: the read or the write that follows reports it.
fn note_ready(events: &Events, guests: &mut Vec<Guest>) -> bool {
    let mut knocks = false;
    for event in events.iter() {
        let Token(token) = event.token();
        if token == DOOR {
            knocks = true;
        } else {
            let ending = event.is_read_closed() || event.is_error();
            let readable = event.is_readable() || ending;
            let writable = event.is_writable() || event.is_write_closed() || event.is_error();
            note_one(guests, token as u64, readable, writable, ending);
        }
    }
    knocks
}

/// Notes that the connection with this number can be read or written, or that its input has ended or failed: each flag
/// is only ever set here. A report on an unknown number is ignored.
fn note_one(guests: &mut Vec<Guest>, id: u64, readable: bool, writable: bool, ending: bool) {
    if let Some(place) = place_of(guests, id) {
        let guest = &mut guests[place];
        guest.readable = guest.readable || readable;
        guest.writable = guest.writable || writable;
        guest.ending = guest.ending || ending;
    }
}

/// Returns how many connections took bytes in the last turn and have, as far as the system reported, sent nothing
/// since.
fn awaited(guests: &[Guest]) -> usize {
    guests.iter().filter(|guest| guest.is_awaited()).count()
}

/// Returns whether a connection may have bytes that were not read: the system reported some, or its last read filled
/// the buffer.
fn has_come(guests: &[Guest]) -> bool {
    guests.iter().any(|guest| guest.readable)
}

/// Notes that no connection took bytes yet in the turn that begins.
fn forget_answers(guests: &mut Vec<Guest>) {
    for guest in guests.iter_mut() {
        guest.answered = false;
    }
}

/// Returns the place of the connection with this number in the list, if there is one. No clause says that it is the
/// right one: in `tests/program/wire/serve_in_turns.py` several connections each get their own replies.
fn place_of(guests: &[Guest], id: u64) -> Option<usize>
    ensures { IfSome result (λ place. place < length guests.now) }
{
    for (place, guest) in guests.iter().enumerate() {
        if guest.id == id {
            return Some(place);
        }
    }
    None
}

/// Reads the bytes that have come on the connection with this number. An unknown connection is broken.
fn read_from(guests: &mut Vec<Guest>, id: u64, buffer: &mut [u8]) -> Came
    ensures { CameWithin result (length buffer.new) }
{
    match place_of(guests, id) {
        Some(place) => guests[place].read(buffer),
        None => Came::Broken,
    }
}

/// Writes some of these bytes to the connection with this number. An unknown connection is broken.
fn write_to(guests: &mut Vec<Guest>, id: u64, bytes: &[u8]) -> Took
    ensures { TookWithin result (length bytes.now) }
{
    match place_of(guests, id) {
        Some(place) => guests[place].write(bytes),
        None => Took::Broken,
    }
}
