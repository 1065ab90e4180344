//! Room for a record, taken before the machine is asked: once a request was accepted, its record needs no more memory.

ghost use Rattle.std.specs.Prelude.{◌≡◌, ◌+◌, ◌<◌, ◌≤◌, ◌++◌, [], Some, OnOk, length, min, take, vec_capacity, vec_len};
ghost use Rattle.droid_frame.specs.Replies.{HasReplySpelling};
ghost use Rattle.droid_frame.specs.ReplyFrames.{reply_frame};
ghost use Rattle.droid_frame.specs.Versions.{IsVersion};

use droid_frame::{Reply, SteadyWrite, write_reply};
use std::alloc::{AllocError, Global};
use std::io;
use std::io::Write;
use std::marker::Model;

/// The longest frame of a reply: a header of 18 bytes, and the longest body that `droid_frame` writes. A smaller number
/// the prover refuses, in [`make_rooms`].
const LONGEST_REPLY: usize = 1_048_658;

/// The most bytes of a record beside its two frames: `OVERHEAD` of `records/record_reader.rt`. A smaller number the
/// prover refuses, in [`make_rooms`].
const AROUND: usize = 41;

/// Bytes, and room for a number of further ones: within it no write fails or takes memory.
#[derive(Drop)]
pub(crate) struct Room {
    bytes: Vec<u8>,
    left: usize,
}

impl Model for Room {
    ghost use Rattle.droid_journal.specs.Rooms.{HasRoom, Roomy, shown};

    ghost Value = { Roomy };

    ghost view = { shown };

    ghost invariant = { HasRoom };
}

/// Appends bytes for which there is room: nothing is allocated, and the `unwrap` never fails.
fn put(bytes: &mut Vec<u8>, more: &[u8])
    requires { vec_len bytes.old + length more.now ≤ vec_capacity bytes.old }
    ensures items { bytes.new.items ≡ bytes.old.items ++ more.now }
    ensures len { vec_len bytes.new ≡ vec_len bytes.old + length more.now }
    ensures capacity { vec_capacity bytes.old ≤ vec_capacity bytes.new }
{
    bytes.extend_from_slice(more).unwrap()
}

/// Empties a vector, and takes room for this many bytes. After an error, which is out of memory, it is empty too.
fn empty(bytes: &mut Vec<u8>, size: usize) -> Result<(), AllocError>
    ensures items { bytes.new.items ≡ [] }
    ensures len { vec_len bytes.new ≡ 0 }
    ensures capacity { OnOk result (size ≤ vec_capacity bytes.new) }
{
    bytes.clear();
    bytes.reserve(size)?;
    Ok(())
}

/// Returns the smaller number, for [`Room::take_in`].
fn smaller_of(one: usize, other: usize) -> usize
    ensures { result ≡ min one other }
{
    one.min(other)
}

impl Room {
    /// Starts with no bytes and no room.
    pub(crate) fn new(alloc: Global) -> Room
        ensures { result.items ≡ [] }
    {
        Room {
            bytes: Vec::new(alloc),
            left: 0,
        }
    }

    /// Empties it, and takes room for this many bytes. After an error nothing is promised of it: the request is
    /// refused, and the next one takes room anew.
    pub(crate) fn make(&mut self, size: usize) -> Result<(), AllocError>
        ensures items { OnOk result (self.new.items ≡ []) }
        ensures left { OnOk result (self.new.left ≡ size) }
    {
        self.left = 0;
        empty(&mut self.bytes, size)?;
        self.left = size;
        Ok(())
    }

    /// Returns the bytes that were written.
    pub(crate) fn as_slice(&self) -> &[u8]
        ensures { result.now ≡ self.now.items }
    {
        self.bytes.as_slice()
    }

    /// Appends as many of the bytes as there is room for, and returns how many those are.
    fn take_in(&mut self, bytes: &[u8]) -> usize
        ensures bound { result ≤ length bytes.now }
        ensures items { self.new.items ≡ self.old.items ++ take result bytes.now }
        ensures left { self.old.left ≡ self.new.left + result }
        ensures full { result < length bytes.now → self.new.left ≡ 0 }
    {
        let count = smaller_of(bytes.len(), self.left);
        let (front, _) = bytes.split_at(count);
        put(&mut self.bytes, front);
        self.left -= count;
        count
    }
}

impl Write for Room {
    ghost contents = { λ room. Some room.items };

    /// Writes the first of the bytes, as many as there is room for.
    fn write(&mut self, buf: &[u8]) -> io::Result<usize> {
        let count = self.take_in(buf);
        Ok(count)
    }

    /// Does nothing: no byte waits.
    fn flush(&mut self) -> io::Result<()> {
        Ok(())
    }
}

impl SteadyWrite for Room {
    ghost use Rattle.droid_frame.specs.Seen.{fresh};

    ghost seen = { λ _. fresh };

    ghost room = { λ room. Some room.left };

    /// Does the same as `write`.
    fn write_on(&mut self, bytes: &[u8]) -> io::Result<usize> {
        let count = self.take_in(bytes);
        Ok(count)
    }
}

/// Spells the frame of a reply into an empty room for the longest one, so that the `unwrap` never fails. The version,
/// client and number are those of the request.
pub(crate) fn spell_reply(room: &mut Room, version: u8, client: u32, number: u64, reply: &Reply)
    requires version { IsVersion version }
    requires spelling { HasReplySpelling version reply.now }
    requires items { room.old.items ≡ [] }
    requires left { 1048658 ≤ room.old.left }
    ensures { room.new.items ≡ reply_frame version client number reply.now }
{
    write_reply(version, client, number, reply, room).unwrap()
}

/// Takes `room` for the record of a request whose frame has `request` bytes and of the longest reply, and room for that
/// reply alone. Fails only if memory runs out, and then nothing is promised of both: the request is refused.
pub(crate) fn make_rooms(
    room: &mut Vec<u8>,
    reply: &mut Room,
    request: usize,
) -> Result<(), AllocError>
    requires { request ≤ 4194386 }
    ensures items { OnOk result (room.new.items ≡ []) }
    ensures len { OnOk result (vec_len room.new ≡ 0) }
    ensures capacity { OnOk result (request + 1048699 ≤ vec_capacity room.new) }
    ensures spelled { OnOk result (reply.new.items ≡ []) }
    ensures left { OnOk result (1048658 ≤ reply.new.left) }
{
    empty(room, request + LONGEST_REPLY + AROUND)?;
    reply.make(LONGEST_REPLY)
}
