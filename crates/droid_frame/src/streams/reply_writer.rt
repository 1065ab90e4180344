//! The writer of replies: the frame of a reply on a stream, without a body in memory. It writes the header, the front
//! of the body (its fields before a list or bytes), and the rest.

ghost use Rattle.std.specs.Prelude.{◌≡◌, ◌+◌, ◌<◌, ◌≤◌, ◌^◌, ◌-◌, ℕ, IsErr, OnOk, IfErr, length};
ghost use Rattle.std.specs.Io.KnownBytes.{Appends};
ghost use Rattle.std.specs.List.{AllByRecursion};
ghost use Rattle.droid_frame.specs.Replies.{HasReplySpelling, IsPuidText};
ghost use Rattle.droid_frame.specs.ReplyFrames.{reply_frame};
ghost use Rattle.droid_frame.specs.ReplyFronts.{HasRestSpelling, reply_rest};
ghost use Rattle.droid_frame.specs.StreamWrites.{Stops};
ghost use Rattle.droid_frame.specs.Seen.{Counts, IsSound};
ghost use Rattle.droid_frame.specs.Writes.{StopsWithin, Takes, ReportsWrite, WritesOn};
ghost use Rattle.droid_frame.specs.TextLists.{sized_bytes, texts_bytes};
ghost use Rattle.droid_frame.specs.Versions.{IsVersion};

use super::header::Header;
use crate::io::output::{WriteState, write_all};
use crate::io::steady::SteadyWrite;
use crate::io::stream_fault::WriteFault;
use crate::reply::Reply;
use crate::text::Text;
use crate::texts::Texts;
use crate::writing::replies::fronts::front_of;
use crate::writing::replies::reply_body_len;
use crate::writing::replies::small_bytes::SmallBytes;

/// Writes the frame of a reply. The version, client and number are those of the request. It allocates nothing, and
/// retries interrupted writes, up to 64 in one frame.
///
/// The reply must have a spelling in this version: it is within the limits of a reply, and its hash is MD5 if the
/// version is 1.
pub fn write_reply<W: SteadyWrite>(
    version: u8,
    client: u32,
    number: u64,
    reply: &Reply,
    writer: &mut W,
) -> Result<(), WriteFault>
    requires version { IsVersion version }
    requires spelling { HasReplySpelling version reply.now }
    // On success exactly the bytes of the frame were written.
    ensures ok { OnOk result
        (Appends (W.contents writer.old) (W.contents writer.new) (reply_frame version client number reply.now)) }
    // After a fault exactly the first `written` bytes of the frame were written, and some were left.
    ensures err { IfErr result (λ fault.
        Stops (W.contents writer.old) (W.contents writer.new) (reply_frame version client number reply.now)
        fault.written) }
    // A fault comes exactly if the writer failed, had no room, or was interrupted for the 65th time in this call.
    ensures failed { IsSound (W.seen writer.old) →
        ReportsWrite (W.seen writer.old).interruptions (W.seen writer.new) (W.room writer.old)
        (length (reply_frame version client number reply.now)) (IsErr result) }
    // The written bytes reduce the room, if it is limited.
    ensures room_ok { OnOk result
        (Takes (W.room writer.old) (W.room writer.new) (length (reply_frame version client number reply.now))) }
    ensures room_err { IfErr result (λ fault. Takes (W.room writer.old) (W.room writer.new) fault.written) }
{
    let header = Header {
        version,
        kind: reply.kind(),
        client,
        number,
        length: reply_body_len(version, reply) as u32,
    };
    let mut progress = WriteState::new();
    write_all(writer, &header.to_bytes(), &mut progress)?;
    write_all(writer, front_of(version, reply).as_slice(), &mut progress)?;
    write_rest(writer, reply, &mut progress)
}

/// Writes what stands behind a reply's front: the list of a Finished or the bytes of a Part. Other replies have nothing
/// there. `progress` goes on from the header and the front.
fn write_rest<W: SteadyWrite>(
    writer: &mut W,
    reply: &Reply,
    progress: &mut WriteState,
) -> Result<(), WriteFault>
    requires spelling { HasRestSpelling reply.now }
    requires room { progress.old.written + length (reply_rest reply.now) < 2 ^ 64 }
    ensures ok { OnOk result (Appends (W.contents writer.old) (W.contents writer.new) (reply_rest reply.now)) }
    ensures err { IfErr result (λ fault.
        StopsWithin (W.contents writer.old) (W.contents writer.new) (reply_rest reply.now) progress.old.written
        fault.written) }
    ensures room_ok { OnOk result (Takes (W.room writer.old) (W.room writer.new) (length (reply_rest reply.now))) }
    ensures room_err { IfErr result (λ fault.
        Takes (W.room writer.old) (W.room writer.new) (fault.written - progress.old.written)) }
    ensures counts { (start : ℕ) → Counts start (W.seen writer.old) progress.old.retries
        → WritesOn start (W.seen writer.new) (W.room writer.new) progress.new.retries result }
{
    match reply {
        Reply::Finished { puids, .. } => write_puids(writer, puids, progress),
        Reply::Part { bytes, .. } => write_all(writer, bytes.as_slice(), progress),
        _ => Ok(()),
    }
}

/// Writes the format identifiers of a Finished, each after its length in one byte.
fn write_puids<W: SteadyWrite>(
    writer: &mut W,
    puids: &Texts,
    progress: &mut WriteState,
) -> Result<(), WriteFault>
    requires each { AllByRecursion IsPuidText puids.now }
    requires room { progress.old.written + length (texts_bytes puids.now) < 2 ^ 64 }
    ensures ok { OnOk result (Appends (W.contents writer.old) (W.contents writer.new) (texts_bytes puids.now)) }
    ensures err { IfErr result (λ fault.
        StopsWithin (W.contents writer.old) (W.contents writer.new) (texts_bytes puids.now) progress.old.written
        fault.written) }
    ensures room_ok { OnOk result (Takes (W.room writer.old) (W.room writer.new) (length (texts_bytes puids.now))) }
    ensures room_err { IfErr result (λ fault.
        Takes (W.room writer.old) (W.room writer.new) (fault.written - progress.old.written)) }
    ensures counts { (start : ℕ) → Counts start (W.seen writer.old) progress.old.retries
        → WritesOn start (W.seen writer.new) (W.room writer.new) progress.new.retries result }
{
    for puid in puids.as_slice() {
        write_all(writer, sized_puid(puid).as_slice(), progress)?;
    }
    Ok(())
}

/// Makes the bytes of a format identifier after its length: at most 33, so they fit in [`SmallBytes`].
fn sized_puid(puid: &Text) -> SmallBytes
    requires { IsPuidText puid.now }
    ensures { result ≡ sized_bytes puid.now }
{
    let mut sized = SmallBytes::new();
    sized.add(&[puid.len() as u8]);
    sized.add(puid.as_str().as_bytes());
    sized
}
