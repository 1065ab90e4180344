//! The parts of a frame that has not come whole.

ghost use Rattle.std.specs.Prelude.{◌≡◌, ◌+◌, ◌-◌, ◌≤◌, ◌++◌, [], Ok, Err, IfErr, OnOk, length, min, take};
ghost use Rattle.droid_frame.specs.Streams.{why};
ghost use Rattle.droid_frame.specs.declared.streams.arrival.Arrival.TheVariants as arrivals;
ghost use Rattle.droid_turns.specs.Feeding.{Feeds, IsOfBytes};
ghost use Rattle.droid_turns.specs.Parts.{IsBetween, came};

use crate::feeding::body::append;
use crate::feeding::fed_frame::frame;
use crate::feeding::feed_result::Fed;
use droid_frame::{FrameFault, HEADER_LENGTH, Header};
use std::alloc::Global;
use std::mem;

/// The bytes of a frame that came: the first `filled` bytes of its header, and those of its body.
#[derive(Drop)]
pub(crate) struct Parts {
    pub(crate) header: [u8; HEADER_LENGTH],
    pub(crate) filled: usize,
    pub(crate) body: Vec<u8>,
}

impl Parts {
    /// Takes bytes from the front of a piece, up to the end of the frame, and returns the frame if it is whole: then
    /// nothing is held any more. If memory runs out for the body, the bytes of the header are given back too.
    pub(crate) fn take(&mut self, alloc: Global, piece: &[u8]) -> Result<Fed, FrameFault>
        requires { IsBetween self.old }
        ensures between { IsBetween self.new }
        ensures feeds { Feeds (came self.old) piece.now (came self.new) result }
        ensures sized { length self.new.header ≡ 18 }
    {
        let before = self.filled;
        let head = self.fill_header(piece);
        if self.filled < HEADER_LENGTH {
            return Ok(Fed {
                frame: None,
                taken: head,
            });
        }
        let header = Header::from_bytes(&self.header);
        let whole = header.body_length()?;
        let Ok(count) = append(&mut self.body, whole, &piece[head..]) else {
            self.filled = before;
            return Err(FrameFault::Memory);
        };
        let taken = head + count;
        if self.body.len() < whole {
            return Ok(Fed { frame: None, taken });
        }
        let body = mem::replace(&mut self.body, Vec::new(alloc));
        self.filled = 0;
        Ok(Fed {
            frame: Some(frame(header, body)),
            taken,
        })
    }

    /// Copies bytes from the front of a piece behind those of the header that came, and returns how many: until the
    /// header has its 18 bytes, or the whole piece.
    fn fill_header(&mut self, piece: &[u8]) -> usize
        requires { self.old.filled ≤ 18 }
        ensures count { result ≡ min (18 - self.old.filled) (length piece.now) }
        ensures filled { self.new.filled ≡ self.old.filled + result }
        ensures bytes { take self.new.filled self.new.header
            ≡ take self.old.filled self.old.header ++ take result piece.now }
        ensures front { take self.old.filled self.new.header ≡ take self.old.filled self.old.header }
        ensures body { self.new.body ≡ self.old.body }
        ensures sized { length self.new.header ≡ 18 }
    {
        let before = self.filled;
        let count = (HEADER_LENGTH - before).min(piece.len());
        self.header[before..before + count].copy_from_slice(&piece[..count]);
        self.filled = before + count;
        count
    }

    /// Returns what the end of the stream means here: nothing bad between two frames; otherwise the fault of the header
    /// that is held, or that the frame is cut.
    pub(crate) fn end(&self) -> Result<(), FrameFault>
        requires { IsBetween self.now }
        ensures closed { OnOk result (why (came self.now) ≡ Ok arrivals.End) }
        ensures empty { OnOk result (came self.now ≡ []) }
        ensures fault { IfErr result (λ fault. why (came self.now) ≡ Err fault) }
        ensures kind { IfErr result IsOfBytes }
    {
        if self.filled == 0 {
            return Ok(());
        }
        if self.filled == HEADER_LENGTH {
            Header::from_bytes(&self.header).body_length()?;
        }
        Err(FrameFault::Truncated)
    }
}
