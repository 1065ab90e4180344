//! The queue of one connection's replies: appended as frames, taken as bytes, any number at a time.

ghost use Rattle.std.specs.Prelude.{◌≡◌, ◌≢◌, ◌<◌, ◌≤◌, ◌++◌, [], OnOk, OnErr, length, take, drop};
ghost use Rattle.droid_frame.specs.ReplyFrames.{reply_frame};
ghost use Rattle.droid_frame.specs.Replies.{HasReplySpelling};
ghost use Rattle.droid_frame.specs.Versions.{IsVersion};

use crate::chunks::Chunks;
use droid_frame::{HEADER_LENGTH, Reply, reply_body_len};
use std::alloc::{AllocError, Global};
use std::marker::Model;

/// The frames of replies that a connection has not taken yet. In contracts it is these bytes, and how many of them can
/// go out in one write.
///
/// A connection may take any number of bytes at a time: [`front`](ReplyQueue::front) shows the next ones, and
/// [`advance`](ReplyQueue::advance) removes those that were taken. The queue never moves a byte.
#[derive(Drop)]
pub struct ReplyQueue {
    alloc: Global,
    chunks: Chunks,
    len: usize,
}

impl Model for ReplyQueue {
    ghost use Rattle.std.specs.Prelude.{◌≡◌, ◌-◌, length, vec_len};
    ghost use Rattle.droid_turns.specs.Chunks.{IsSettled, waiting};
    ghost use Rattle.droid_turns.specs.Queued.{Queued};

    ghost Value = { Queued };

    ghost view = { λ queue.
        record { bytes = waiting queue.chunks; front = vec_len queue.chunks.first - queue.chunks.written } };

    ghost invariant = { λ queue. IsSettled queue.chunks × (queue.len ≡ length (waiting queue.chunks)) };
}

impl ReplyQueue {
    /// Makes an empty queue. Allocates nothing.
    pub fn new(alloc: Global) -> ReplyQueue
        ensures { result.bytes ≡ [] }
    {
        ReplyQueue {
            alloc,
            chunks: Chunks::new(alloc),
            len: 0,
        }
    }

    /// Appends the frame of a reply. The version, client and number are those of the request. If memory runs out, the
    /// queue stays as it was.
    ///
    /// The reply must have a spelling in this version.
    pub fn push(
        &mut self,
        version: u8,
        client: u32,
        number: u64,
        reply: &Reply,
    ) -> Result<(), AllocError>
        requires version { IsVersion version }
        requires spelling { HasReplySpelling version reply.now }
        ensures ok { OnOk result (self.new.bytes ≡ self.old.bytes ++ reply_frame version client number reply.now) }
        ensures err { OnErr result (self.new.bytes ≡ self.old.bytes) }
        ensures small { length (reply_frame version client number reply.now) ≤ 1048658 }
    {
        // No memory holds a queue of 2^64 bytes.
        let size = HEADER_LENGTH + reply_body_len(version, reply);
        let Some(len) = self.len.checked_add(size) else {
            return Err(AllocError);
        };
        let pushed = self.chunks.push(self.alloc, version, client, number, reply);
        self.chunks.settle(self.alloc);
        pushed?;
        self.len = len;
        Ok(())
    }

    /// Returns the number of queued bytes.
    pub fn len(&self) -> usize
        ensures { result ≡ length self.now.bytes }
    {
        self.len
    }

    /// Returns the next bytes to be written: at least one, unless the queue is empty.
    pub fn front(&self) -> &[u8]
        ensures front { result.now ≡ take self.now.front self.now.bytes }
        ensures some { self.now.bytes ≢ [] → 0 < length result.now }
        ensures length { length result.now ≡ self.now.front }
    {
        &self.chunks.first[self.chunks.written..]
    }

    /// Removes the first `count` bytes, which the connection took: at most as many as [`front`](ReplyQueue::front)
    /// shows.
    pub fn advance(&mut self, count: usize)
        requires { count ≤ self.old.front }
        ensures { self.new.bytes ≡ drop count self.old.bytes }
    {
        self.chunks.written += count;
        self.len -= count;
        self.chunks.settle(self.alloc);
    }
}
