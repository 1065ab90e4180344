//! The record of what a stream did so far: how often it was interrupted, and whether it failed. `Noted` keeps one.

ghost use Rattle.std.specs.Prelude.{◌≡◌};
ghost use Rattle.droid_frame.specs.Seen.{AddsError, IsSound, after_failure, fresh};

use std::io::{Error, ErrorKind};

/// Whether a stream has failed: it returned an error other than an interruption, or took no byte of a write.
#[derive(Clone, Copy, PartialEq, Eq)]
pub enum Condition {
    /// It hasn't failed.
    Sound,
    /// It failed, and wasn't used after that.
    Failed,
    /// It failed, and was used after that.
    UsedSince,
}

/// What a stream did so far.
#[derive(Clone, Copy, PartialEq, Eq)]
pub struct Seen {
    /// The number of reads or writes that were interrupted before it failed.
    pub interruptions: u64,
    /// Whether it has failed.
    pub condition: Condition,
}

impl Seen {
    /// Returns the record of a stream that wasn't used yet.
    pub fn fresh() -> Seen
        ensures { result ≡ fresh }
    {
        Seen {
            interruptions: 0,
            condition: Condition::Sound,
        }
    }

    /// Notes a call that succeeded. Of a stream that hasn't failed that changes nothing; one that failed was used
    /// since.
    pub(crate) fn note_success(&mut self)
        ensures sound { IsSound self.old → self.new ≡ self.old }
        ensures used { (IsSound self.old → ⊥) → self.new.condition ≡ Condition.UsedSince }
    {
        if self.condition != Condition::Sound {
            self.condition = Condition::UsedSince;
        }
    }

    /// Notes a call that failed: the stream's failure, or one more use of a stream that had failed before.
    pub(crate) fn note_failure(&mut self)
        ensures sound { IsSound self.old → self.new ≡ after_failure self.old }
        ensures used { (IsSound self.old → ⊥) → self.new.condition ≡ Condition.UsedSince }
    {
        self.condition = if self.condition == Condition::Sound {
            Condition::Failed
        } else {
            Condition::UsedSince
        };
    }

    /// Notes an error and returns it: an interruption is counted, any other error is a failure. After 2^64 - 1
    /// interruptions no further one can be counted: it is noted and returned as a failure.
    ///
    /// Of a stream that had failed before, only that it was used since is promised, not its count.
    pub(crate) fn note_error(&mut self, error: Error) -> Error
        ensures sound { IsSound self.old → AddsError self.old self.new result }
        ensures used { (IsSound self.old → ⊥) → self.new.condition ≡ Condition.UsedSince }
    {
        if error.kind() != ErrorKind::Interrupted {
            self.note_failure();
            return error;
        }
        let Some(count) = self.interruptions.checked_add(1) else {
            self.note_failure();
            return Error::from(ErrorKind::Other);
        };
        self.note_success();
        self.interruptions = count;
        error
    }
}
