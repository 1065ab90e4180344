//! The writer of frames.

ghost use Rattle.std.specs.Prelude.{◌≤◌, IsErr, OnOk, IfErr, length};
ghost use Rattle.std.specs.Io.KnownBytes.{Appends};
ghost use Rattle.droid_frame.specs.Frames.{frame_bytes};
ghost use Rattle.droid_frame.specs.Limits.{body_limit};
ghost use Rattle.droid_frame.specs.Seen.{IsSound};
ghost use Rattle.droid_frame.specs.Writes.{Takes, ReportsWrite};
ghost use Rattle.droid_frame.specs.StreamWrites.{Stops};

use super::header::Header;
use crate::frame::Frame;
use crate::io::output::{WriteState, write_all};
use crate::io::steady::SteadyWrite;
use crate::io::stream_fault::WriteFault;

/// Writes a frame. It allocates nothing, and retries interrupted writes, up to 64 in one frame.
///
/// The body must be no longer than the limit of version 2. Its version, kind, client and number may have any values.
pub fn write_frame<W: SteadyWrite>(frame: &Frame, writer: &mut W) -> Result<(), WriteFault>
    requires { length frame.now.body ≤ body_limit 2 }
    // On success exactly the bytes of the frame were written.
    ensures ok { OnOk result (Appends (W.contents writer.old) (W.contents writer.new) (frame_bytes frame.now)) }
    // After a fault exactly the first `written` bytes of the frame were written, and some were left.
    ensures err { IfErr result (λ fault.
        Stops (W.contents writer.old) (W.contents writer.new) (frame_bytes frame.now) fault.written) }
    // A fault comes exactly if the writer failed, had no room, or was interrupted for the 65th time in this call.
    ensures failed { IsSound (W.seen writer.old) →
        ReportsWrite (W.seen writer.old).interruptions (W.seen writer.new) (W.room writer.old)
        (length (frame_bytes frame.now)) (IsErr result) }
    // The written bytes reduce the room, if it is limited.
    ensures room_ok { OnOk result (Takes (W.room writer.old) (W.room writer.new) (length (frame_bytes frame.now))) }
    ensures room_err { IfErr result (λ fault. Takes (W.room writer.old) (W.room writer.new) fault.written) }
{
    let header = Header {
        version: frame.version,
        kind: frame.kind,
        client: frame.client,
        number: frame.number,
        length: frame.body.len() as u32,
    };
    let mut progress = WriteState::new();
    write_all(writer, &header.to_bytes(), &mut progress)?;
    write_all(writer, frame.body.as_slice(), &mut progress)
}
