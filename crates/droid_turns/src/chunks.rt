//! The chunks in which a [`ReplyQueue`](crate::ReplyQueue) keeps its bytes, so that none is moved.

ghost use Rattle.std.specs.Prelude.{◌≡◌, ◌≢◌, ◌+◌, ◌-◌, ◌≤◌, ◌++◌, [], OnOk, OnErr, length, drop, vec_len};
ghost use Rattle.droid_frame.specs.ReplyFrames.{reply_frame};
ghost use Rattle.droid_frame.specs.Replies.{HasReplySpelling};
ghost use Rattle.droid_frame.specs.Versions.{IsVersion};
ghost use Rattle.droid_turns.specs.Chunks.{AreFilled, IsSettled, waiting};

use droid_frame::{HEADER_LENGTH, Noted, Reply, reply_body_len, write_reply};
use std::alloc::{AllocError, Global};
use std::collections::VecDeque;
use std::mem;

/// A chunk gathers replies up to this many bytes, so that many small ones go out in one write. For speed: no clause
/// needs it.
const GATHERED: usize = 65_536;

/// Queued bytes: first those of `first` behind `written`, then each chunk of `later`, then `last`.
#[derive(Drop)]
pub(crate) struct Chunks {
    pub(crate) first: Vec<u8>,
    pub(crate) written: usize,
    pub(crate) later: VecDeque<Vec<u8>>,
    pub(crate) last: Vec<u8>,
}

impl Chunks {
    /// Makes an empty queue. Allocates nothing.
    pub(crate) fn new(alloc: Global) -> Chunks
        ensures none { waiting result ≡ [] }
        ensures settled { IsSettled result }
    {
        Chunks {
            first: Vec::new(alloc),
            written: 0,
            later: VecDeque::new(alloc),
            last: Vec::new(alloc),
        }
    }

    /// Appends the frame of a reply. The version, client and number are those of the request. `first` stays as it is,
    /// so the caller settles the queue after this.
    pub(crate) fn push(
        &mut self,
        alloc: Global,
        version: u8,
        client: u32,
        number: u64,
        reply: &Reply,
    ) -> Result<(), AllocError>
        requires version { IsVersion version }
        requires spelling { HasReplySpelling version reply.now }
        requires within { self.old.written ≤ vec_len self.old.first }
        requires filled { AreFilled self.old.later.items }
        ensures ok { OnOk result (waiting self.new ≡ waiting self.old ++ reply_frame version client number reply.now) }
        ensures err { OnErr result (waiting self.new ≡ waiting self.old) }
        ensures within { self.new.written ≤ vec_len self.new.first }
        ensures filled { AreFilled self.new.later.items }
    {
        let size = HEADER_LENGTH + reply_body_len(version, reply);
        self.close_full(alloc, size)?;
        append_reply(alloc, &mut self.last, version, client, number, reply)
    }

    /// Moves the last chunk to the end of `later` and begins an empty one, if it would have more than [`GATHERED`]
    /// bytes with `size` more. An empty last chunk stays, however large the reply is.
    fn close_full(&mut self, alloc: Global, size: usize) -> Result<(), AllocError>
        requires filled { AreFilled self.old.later.items }
        ensures same { waiting self.new ≡ waiting self.old }
        ensures first { self.new.first ≡ self.old.first }
        ensures written { self.new.written ≡ self.old.written }
        ensures filled { AreFilled self.new.later.items }
    {
        if self.last.is_empty() {
            return Ok(());
        }
        if self.last.len().saturating_add(size) <= GATHERED {
            return Ok(());
        }
        self.later.reserve(1)?;
        let full = mem::replace(&mut self.last, Vec::new(alloc));
        self.later.push_back_reserved(full);
        Ok(())
    }

    /// Drops the first chunk, if all of it is written. Then the next one is the first: of `later`, or else `last`.
    pub(crate) fn settle(&mut self, alloc: Global)
        requires within { self.old.written ≤ vec_len self.old.first }
        requires filled { AreFilled self.old.later.items }
        ensures same { waiting self.new ≡ waiting self.old }
        ensures settled { IsSettled self.new }
    {
        if self.written < self.first.len() {
            return;
        }
        self.first = match self.later.pop_front() {
            Some(chunk) => chunk,
            None => mem::replace(&mut self.last, Vec::new(alloc)),
        };
        self.written = 0;
    }
}

/// Appends the frame of a reply to a chunk. If memory runs out, the chunk keeps the bytes that it had.
fn append_reply(
    alloc: Global,
    chunk: &mut Vec<u8>,
    version: u8,
    client: u32,
    number: u64,
    reply: &Reply,
) -> Result<(), AllocError>
    requires version { IsVersion version }
    requires spelling { HasReplySpelling version reply.now }
    ensures ok { OnOk result (chunk.new.items ≡ chunk.old.items ++ reply_frame version client number reply.now) }
    ensures err { OnErr result (chunk.new.items ≡ chunk.old.items) }
{
    let before = chunk.len();
    chunk.reserve(HEADER_LENGTH + reply_body_len(version, reply))?;
    let mut frame = Noted::new(mem::replace(chunk, Vec::new(alloc)));
    let written = write_reply(version, client, number, reply, &mut frame);
    *chunk = frame.stream;
    if written.is_err() {
        chunk.truncate(before);
        return Err(AllocError);
    }
    Ok(())
}
