//! The frame of a reply, written in one write where it is small.

ghost use Rattle.std.specs.Prelude.{◌≡◌, OnOk, IfErr, IfSome, IsErr, length};
ghost use Rattle.std.specs.Io.KnownBytes.{Appends};
ghost use Rattle.droid_frame.specs.Seen.{IsSound};
ghost use Rattle.droid_frame.specs.Writes.{Takes, ReportsWrite};
ghost use Rattle.droid_frame.specs.Replies.{HasReplySpelling};
ghost use Rattle.droid_frame.specs.ReplyFrames.{reply_frame};
ghost use Rattle.droid_frame.specs.StreamWrites.{Stops};
ghost use Rattle.droid_frame.specs.Versions.{IsVersion};

use droid_frame::{
    HEADER_LENGTH, Noted, Reply, SteadyWrite, WriteFault, WriteState, reply_body_len, write_all,
    write_reply,
};
use std::alloc::Global;

/// The most bytes in the body of a reply whose frame goes out in one write. Any other number meets the contracts too:
/// it is for speed alone. `tests/program/wire/long_session.py` has replies about this length, but of the program, which
/// does not call [`serve`](crate::server::serve); no test needs the number.
const GATHERED: usize = 4_096;

/// Writes the frame of a reply as [`write_reply`] does. A small frame goes out in one write, if there is memory for it.
/// Nothing is buffered after the call returns. Its contract is that of [`write_reply`]: no clause says how many writes
/// there are. Fails only if the writer does, never for memory.
pub(crate) fn send_reply<W: SteadyWrite>(
    alloc: Global,
    version: u8,
    client: u32,
    number: u64,
    reply: &Reply,
    writer: &mut W,
) -> Result<(), WriteFault>
    requires version { IsVersion version }
    requires spelling { HasReplySpelling version reply.now }
    ensures ok { OnOk result
        (Appends (W.contents writer.old) (W.contents writer.new) (reply_frame version client number reply.now)) }
    ensures err { IfErr result (λ fault.
        Stops (W.contents writer.old) (W.contents writer.new) (reply_frame version client number reply.now)
        fault.written) }
    ensures failed { IsSound (W.seen writer.old) →
        ReportsWrite (W.seen writer.old).interruptions (W.seen writer.new) (W.room writer.old)
        (length (reply_frame version client number reply.now)) (IsErr result) }
    ensures room_ok { OnOk result
        (Takes (W.room writer.old) (W.room writer.new) (length (reply_frame version client number reply.now))) }
    ensures room_err { IfErr result (λ fault. Takes (W.room writer.old) (W.room writer.new) fault.written) }
{
    match gathered(alloc, version, client, number, reply) {
        Some(frame) => write_all(writer, frame.as_slice(), &mut WriteState::new()),
        None => write_reply(version, client, number, reply, writer),
    }
}

/// Returns the bytes of a reply's frame, so that one write sends them. `None`: the body has more than [`GATHERED`]
/// bytes, or out of memory; that `None` comes only then no clause says, since [`send_reply`] writes the frame either
/// way.
fn gathered(alloc: Global, version: u8, client: u32, number: u64, reply: &Reply) -> Option<Vec<u8>>
    requires version { IsVersion version }
    requires spelling { HasReplySpelling version reply.now }
    ensures { IfSome result (λ frame. frame.items ≡ reply_frame version client number reply.now) }
{
    let size = reply_body_len(version, reply);
    if size > GATHERED {
        return None;
    }
    let Ok(bytes) = Vec::with_capacity(alloc, HEADER_LENGTH + size) else {
        return None;
    };
    let mut frame = Noted::new(bytes);
    match write_reply(version, client, number, reply, &mut frame) {
        Ok(()) => Some(frame.stream),
        Err(_) => None,
    }
}
