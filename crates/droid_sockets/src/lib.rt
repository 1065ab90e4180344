//! Many connections to a port of this machine, over non-blocking sockets.
//!
//! [`Sockets`] notes for each connection whether it can be read or written, as the system reports it. So a silent
//! connection costs no system call.
//!
//! Proved are the bounds that the trait [`Connections`](droid_turns::Connections) asks for, and the counts of
//! [`Tally`]. What the system reports and what a socket delivers is outside of any contract: so most functions here
//! have none, and `tests/program/wire` (`serve_*.py`, `idle_streams.py`) holds them.
#![tactic(auto)]

mod grace;
mod guest;
mod report;
mod sockets;
mod tally;

pub use report::Verbosity;
pub use sockets::Sockets;
pub use tally::Tally;
