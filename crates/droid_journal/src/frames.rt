//! The frames of a record, spelled as bytes and read back.

ghost use Rattle.std.specs.Prelude.{◌≡◌, ◌≤◌, IfNone, IfOk, IfSome, length, true};
ghost use Rattle.droid_frame.specs.Fields.{IsBytes};
ghost use Rattle.droid_frame.specs.Frames.{frame_bytes};
ghost use Rattle.droid_frame.specs.Replies.{HasReplySpelling};
ghost use Rattle.droid_frame.specs.ReplyFrames.{reply_frame};
ghost use Rattle.droid_frame.specs.Streams.{IsReadable};
ghost use Rattle.droid_frame.specs.Versions.{IsVersion};
ghost use Rattle.droid_frame.specs.Limits.{body_limit};
ghost use Rattle.droid_journal.specs.Replaying.{IsNoFrame};

use droid_frame::{
    Arrival, Frame, FrameFault, HEADER_LENGTH, Noted, Reply, body_limit, is_version, read_frame,
    reply_body_len, write_frame, write_reply,
};
use std::alloc::{AllocError, Global};

/// Returns whether a stream can carry the frame: its version is 1 or 2, and its body is within the limit of that
/// version. `bytes` holds of every frame.
pub(crate) fn is_carried(frame: &Frame) -> bool
    ensures version { result ≡ true → IsVersion frame.now.version }
    ensures body { result ≡ true → length frame.now.body ≤ body_limit frame.now.version }
    ensures size { result ≡ true → length frame.now.body ≤ 4194368 }
    ensures bytes { IsBytes frame.now.body }
    ensures readable { IsReadable frame.now → result ≡ true }
{
    let body = frame.body.as_slice();
    if body.len() > body_limit(frame.version) {
        return false;
    }
    is_version(frame.version)
}

/// Spells the frame of a request. Its body must be within the limit of version 2, 4,194,368 bytes. Fails only if memory
/// runs out.
pub(crate) fn request_bytes(alloc: Global, frame: &Frame) -> Result<Vec<u8>, AllocError>
    requires { length frame.now.body ≤ 4194368 }
    ensures { IfOk result (λ bytes. bytes.items ≡ frame_bytes frame.now) }
{
    let bytes = Vec::with_capacity(alloc, HEADER_LENGTH + frame.body.len())?;
    let mut stream = Noted::new(bytes);
    match write_frame(frame, &mut stream) {
        Ok(()) => Ok(stream.stream),
        Err(_) => Err(AllocError),
    }
}

/// Spells the frame of a reply, for a comparison with that of a record. The version, client and number are those of the
/// request. Fails only if memory runs out. [`Journal`](crate::Journal) spells into room that is there, by
/// `spell_reply`.
pub(crate) fn reply_bytes(
    alloc: Global,
    version: u8,
    client: u32,
    number: u64,
    reply: &Reply,
) -> Result<Vec<u8>, AllocError>
    requires version { IsVersion version }
    requires spelling { HasReplySpelling version reply.now }
    ensures bytes { IfOk result (λ bytes. bytes.items ≡ reply_frame version client number reply.now) }
    ensures size { IfOk result (λ bytes. length bytes.items ≤ 1048658) }
{
    let size = reply_body_len(version, reply);
    let bytes = Vec::with_capacity(alloc, HEADER_LENGTH + size)?;
    let mut stream = Noted::new(bytes);
    match write_reply(version, client, number, reply, &mut stream) {
        Ok(()) => Ok(stream.stream),
        Err(_) => Err(AllocError),
    }
}

/// Reads the frame that these bytes spell. Returns `None` if they spell none that a stream can carry, or if bytes are
/// left behind it. Fails only if memory runs out.
pub(crate) fn frame_of(alloc: Global, bytes: &[u8]) -> Result<Option<Frame>, AllocError>
    ensures found { IfOk result (λ it. IfSome it (λ frame. IsReadable frame × (bytes.now ≡ frame_bytes frame))) }
    ensures none { IfOk result (λ it. IfNone it (IsNoFrame bytes.now)) }
{
    let mut rest = bytes;
    match read_frame(alloc, &mut rest) {
        Ok(Arrival::Frame(frame)) => {
            if rest.is_empty() {
                return Ok(Some(frame));
            }
            Ok(None)
        }
        Ok(Arrival::End) => Ok(None),
        Err(FrameFault::Memory) => Err(AllocError),
        // Bytes in memory can always be read.
        Err(FrameFault::Read) => Err(AllocError),
        Err(FrameFault::Truncated) => Ok(None),
        Err(FrameFault::BadVersion) => Ok(None),
        Err(FrameFault::TooLong) => Ok(None),
    }
}
