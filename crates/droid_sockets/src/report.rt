//! Lines on standard error about connections. They have no contracts: `tests/program/wire/serve_options.py` tests them.
//! Of the reasons it has closed, truncated, bad version, too long, read, write and idle, and `serve_in_turns.py`
//! stopped; the others stand in no test.

use crate::guest::Guest;
use crate::tally::Tally;
use droid_frame::FrameFault;
use droid_turns::Departure;

/// The milliseconds between two summary lines. The loop never waits longer than this (`LONGEST_WAIT` of
/// `droid_turns`); nothing but this line ties the two.
pub(crate) const MINUTE: u64 = 60_000;

/// What is printed on standard error about connections.
#[derive(Clone, Copy, PartialEq, Eq)]
pub enum Verbosity {
    /// Nothing.
    Quiet,
    /// A line for each connection that ended, and a summary line each minute.
    Verbose,
}

/// Prints that a connection ended: its address, how many of its frames were handled (`frames`), its bytes in and out,
/// and why it ended. A failure to print is ignored.
pub(crate) fn print_ended<R: Eprint>(rt: &R, guest: &Guest, why: Departure, frames: u64) {
    let reason = reason_of(why);
    let _ = eprintln!(rt;
        "connection {}: {} frames, {} bytes in, {} bytes out, {}",
        guest.address, frames, guest.came, guest.went, reason
    );
}

/// Prints how many connections are open, and what happened since the line before: how many frames were handled since
/// then (`frames`), and by how much the counts grew from `before` to `now`.
pub(crate) fn print_minute<R: Eprint>(rt: &R, open: usize, frames: u64, before: Tally, now: Tally) {
    let _ = eprintln!(rt;
        "connections: {} open, {} came, {} frames, {} bytes in, {} bytes out",
        open,
        now.opened.saturating_sub(before.opened),
        frames,
        now.came.saturating_sub(before.came),
        now.went.saturating_sub(before.went)
    );
}

/// Returns why a connection ended, in the words of the line. The number of frames is that of `droid_turns` (`FRAMES`
/// in `peer.rt`); nothing but this line ties the two.
fn reason_of(why: Departure) -> &'static str {
    match why {
        Departure::Closed => "closed",
        Departure::Enough => "1,000,000 frames",
        Departure::Frame(FrameFault::Truncated) => "truncated",
        Departure::Frame(FrameFault::BadVersion) => "bad version",
        Departure::Frame(FrameFault::TooLong) => "too long",
        Departure::Frame(FrameFault::Memory) | Departure::Memory => "out of memory",
        Departure::Frame(FrameFault::Read) => "read",
        Departure::Write => "write",
        Departure::Idle => "idle",
        Departure::Stopped => "stopped",
        Departure::Unsettled => "not settled",
    }
}
