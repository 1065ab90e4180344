//! The reader of frames that is fed: the public type around [`Parts`], and what contracts see of it.

ghost use Rattle.std.specs.Prelude.{◌≡◌, ◌≢◌, ◌≤◌, ℕ, List, [], Ok, Err, IfOk, IfErr, OnOk, MatchOption, length};
ghost use Rattle.droid_frame.specs.Streams.{BeginsNoFrame, Frames, why};
ghost use Rattle.droid_frame.specs.declared.frame.Frame.{Frame};
ghost use Rattle.droid_frame.specs.declared.streams.arrival.Arrival.TheVariants as arrivals;
ghost use Rattle.droid_turns.specs.Feeding.{Brings, Fails, IsFaulty, IsOfBytes, ReadsOn, Waits};

use crate::feeding::feed_result::Fed;
use crate::feeding::parts::Parts;
use droid_frame::{FrameFault, HEADER_LENGTH};
use std::alloc::Global;
use std::marker::Model;

/// A reader of frames that is fed the bytes of a stream in pieces. In contracts it is what it holds: the bytes that
/// came of the next frame, and the memory that they take.
///
/// It copies each byte of a body once, and takes memory for a body as its bytes come: at most twice as much as has
/// come.
#[derive(Drop)]
pub struct FrameFeed {
    alloc: Global,
    parts: Parts,
}

impl Model for FrameFeed {
    ghost use Rattle.std.specs.Prelude.{vec_capacity};
    ghost use Rattle.droid_turns.specs.Held.{Held};
    ghost use Rattle.droid_turns.specs.Parts.{IsBetween, came};

    ghost Value = { Held };

    ghost view = { λ feed. record { bytes = came feed.parts; memory = vec_capacity feed.parts.body } };

    ghost invariant = { λ feed. IsBetween feed.parts };
}

impl FrameFeed {
    /// Makes the reader of a stream of which nothing has come. Allocates nothing.
    pub fn new(alloc: Global) -> FrameFeed
        ensures { result.bytes ≡ [] }
    {
        FrameFeed {
            alloc,
            parts: Parts {
                header: [0; HEADER_LENGTH],
                filled: 0,
                body: Vec::new(alloc),
            },
        }
    }

    /// Takes bytes from the front of a piece, up to the end of the next frame, and returns that frame if it is whole
    /// now.
    ///
    /// A header with a bad version, or of too long a body, is a fault, and stays one whatever comes. If memory runs
    /// out, nothing was taken: the same piece can be fed again.
    pub fn take(&mut self, piece: &[u8]) -> Result<Fed, FrameFault>
        ensures bound { IfOk result (λ fed. fed.taken ≤ length piece.now) }
        // In whatever pieces a stream comes, its frames, what is held and its fault are those of the joined bytes.
        ensures reads { (stream : List ℕ) (frames : List Frame) → Frames stream frames self.old.bytes →
            ReadsOn stream frames self.old.bytes piece.now self.new.bytes result }
        // A frame is spelled by the bytes that were held and those that were taken. Without a frame the whole piece was
        // taken, and the bytes may go on.
        ensures frame { IfOk result (λ fed. MatchOption fed.frame
            (Waits self.old.bytes piece.now self.new.bytes fed.taken)
            (Brings self.old.bytes piece.now self.new.bytes fed.taken)) }
        // The cause of each fault stands in the bytes. After out of memory nothing has changed.
        ensures fault { IfErr result (Fails self.old.bytes piece.now self.new.bytes) }
        // A fault stays.
        ensures for_ever { (fault : FrameFault) → fault ≢ FrameFault.Truncated → IsFaulty self.old.bytes fault
            → result ≡ Err fault }
        // What is held begins with no frame.
        ensures rest { BeginsNoFrame self.new.bytes }
        // It is less than the longest frame.
        ensures limit { length self.new.bytes ≤ 4194386 }
        // A header takes no memory.
        ensures memory { length self.new.bytes ≤ 18 → self.new.memory ≡ 0 }
    {
        self.parts.take(self.alloc, piece)
    }

    /// Returns what the end of the stream means here: `Ok` between two frames, a fault within one.
    pub fn end(&self) -> Result<(), FrameFault>
        ensures rest { BeginsNoFrame self.now.bytes }
        ensures closed { OnOk result (why self.now.bytes ≡ Ok arrivals.End) }
        ensures empty { OnOk result (self.now.bytes ≡ []) }
        ensures fault { IfErr result (λ fault. why self.now.bytes ≡ Err fault) }
        ensures kind { IfErr result IsOfBytes }
    {
        self.parts.end()
    }
}
