//! The count of interruptions that are tried again.

ghost use Rattle.std.specs.Prelude.{◌≡◌, ℕ, ◌+◌, ◌≤◌, IsTrue, MatchBool};
ghost use Rattle.droid_frame.specs.declared.io.stream_record.Seen.{Seen};
ghost use Rattle.droid_frame.specs.Seen.{AddsError, Counts, GivesUp};

use std::io::{Error, ErrorKind};
use std::marker::Model;

/// The most interrupted reads or writes that are tried again within one frame, file or text. It goes with the 64 of the
/// clauses in this file, and with the 64 and 65 in `specs/Seen.antt`: the prover refuses one without the other.
pub const RETRY_LIMIT: u32 = 64;

/// Counts the interruptions that were tried again so far, over all calls for one frame, file or text. Contracts see the
/// number.
#[derive(Drop)]
pub struct Retries {
    count: u32,
}

impl Model for Retries {
    ghost Value = { ℕ };

    ghost view = { λ retries. retries.count };

    ghost invariant = { λ retries. retries.count ≤ 64 };
}

impl Retries {
    /// Starts at zero.
    pub fn new() -> Retries
        ensures { result ≡ 0 }
    {
        Retries { count: 0 }
    }

    /// Returns whether the call that returned this error is to be tried again: it was an interruption, and fewer than
    /// [`RETRY_LIMIT`] were counted. If so, counts it. `start` in the contract is the number of interruptions of the
    /// stream when this frame, file or text began.
    pub(crate) fn allow(&mut self, error: &Error) -> bool
        ensures bound { self.new ≤ 64 }
        ensures one { IsTrue result → self.new ≡ self.old + 1 }
        ensures counts { (start : ℕ) (old new : Seen) → AddsError old new error.now → Counts start old self.old →
            MatchBool result (Counts start new self.new) (GivesUp start new) }
    {
        let count = self.count;
        if error.kind() != ErrorKind::Interrupted {
            return false;
        }
        if count >= RETRY_LIMIT {
            return false;
        }
        self.count = count + 1;
        true
    }
}
