//! The reader of frames: `read_frame`, and its two steps, the header and the body.

ghost use Rattle.std.specs.Prelude.{◌≡◌, ◌++◌, ℕ, List, Some, Err, IfOk, IfErr, OnErr, IfSome, IsErrOf};
ghost use Rattle.droid_frame.specs.Frames.{frame_bytes};
ghost use Rattle.droid_frame.specs.Streams.{IsReadable, BeginsNoFrame, why};
ghost use Rattle.droid_frame.specs.Seen.{Counts, IsSound, ReportsFault};
ghost use Rattle.droid_frame.specs.StreamReads.{Arrives, BodyCame, Brings, HeaderCame, ImpliedBy, ReadsGoodHeader};
ghost use Rattle.droid_frame.specs.StreamReads.{ReadsNoFrame, ReadsOn, UnlessRefused};

use super::arrival::Arrival;
use super::fault::FrameFault;
use super::header::{HEADER_LENGTH, Header};
use crate::blob::Blob;
use crate::frame::Frame;
use crate::io::buffer::fill;
use crate::io::retries::Retries;
use crate::io::steady::SteadyRead;
use std::alloc::Global;

/// Reads the next frame, or the end of the stream. It reads the whole header before it checks it, and then allocates
/// once, for the body. It retries interrupted reads, up to 64 in one frame.
pub fn read_frame<R: SteadyRead>(alloc: Global, reader: &mut R) -> Result<Arrival, FrameFault>
    // A returned frame is readable, and exactly its bytes were read. `End` means that no bytes were left.
    ensures brought { IfOk result (Brings (R.remaining reader.old) (R.remaining reader.new)) }
    // If the input begins with a readable frame, this frame is returned, and the bytes after it are left.
    ensures accepted { (frame : Frame) (rest : List ℕ) → IsReadable frame
        → R.remaining reader.old ≡ Some (frame_bytes frame ++ rest)
        → UnlessRefused result ((result ≡ Ok (Arrival.Frame frame)) × (R.remaining reader.new ≡ Some rest)) }
    // If the input begins with no frame, the result is the end or the fault that `why` defines.
    ensures ended { (input : List ℕ) → R.remaining reader.old ≡ Some input → BeginsNoFrame input
        → UnlessRefused result (result ≡ why input) }
    // So each fault has its cause in the input. `Memory` comes only after a valid header with a body.
    ensures reported { IfErr result (λ fault. IfSome (R.remaining reader.old) (ImpliedBy fault)) }
    // The bytes read before a fault contain no whole frame: at most a header, or a valid header and less than the body
    // that it announces. Before `Memory`, exactly a valid header was read, and its body is not empty.
    ensures fault { OnErr result (ReadsNoFrame (R.remaining reader.old) (R.remaining reader.new)) }
    ensures memory { IsErrOf result FrameFault.Memory
        → ReadsGoodHeader (R.remaining reader.old) (R.remaining reader.new) }
    // `Read` comes exactly if the reader failed or was interrupted for the 65th time in this call.
    ensures failed { IsSound (R.seen reader.old) →
        ReportsFault (R.seen reader.old).interruptions (R.seen reader.new) (IsErrOf result FrameFault.Read) }
{
    let mut retries = Retries::new();
    next_arrival(alloc, reader, &mut retries)
}

/// Does the work of [`read_frame`]. `retries` counts the interruptions that were tried again in this frame; its caller
/// starts it at 0.
fn next_arrival<R: SteadyRead>(
    alloc: Global,
    reader: &mut R,
    retries: &mut Retries,
) -> Result<Arrival, FrameFault>
    ensures came { Arrives (R.remaining reader.old) (R.remaining reader.new) result }
    ensures counts { (start : ℕ) → Counts start (R.seen reader.old) retries.old
        → ReadsOn start (R.seen reader.new) retries.new result }
{
    let Some(header) = read_header(reader, retries)? else {
        return Ok(Arrival::End);
    };
    let length = header.body_length()?;
    let body = read_body(alloc, reader, length, retries)?;
    Ok(Arrival::Frame(Frame {
        version: header.version,
        kind: header.kind,
        client: header.client,
        number: header.number,
        body,
    }))
}

/// Reads a header, or `None` if no byte is left. `Truncated` if the input ends within it; `Read` if the reader fails.
/// Its version and length are not checked here.
fn read_header<R: SteadyRead>(
    reader: &mut R,
    retries: &mut Retries,
) -> Result<Option<Header>, FrameFault>
    ensures came { HeaderCame (R.remaining reader.old) (R.remaining reader.new) result }
    ensures counts { (start : ℕ) → Counts start (R.seen reader.old) retries.old
        → ReadsOn start (R.seen reader.new) retries.new result }
{
    let mut bytes = [0u8; HEADER_LENGTH];
    match fill(reader, &mut bytes, retries)? {
        0 => Ok(None),
        HEADER_LENGTH => Ok(Some(Header::from_bytes(&bytes))),
        _ => Err(FrameFault::Truncated),
    }
}

/// Reads a body of this length in bytes, which the header announced. Allocates once, and not at all for an empty body.
/// `Memory` if that fails, before a byte is read; `Truncated` if the input ends within the body; `Read` if the reader
/// fails.
fn read_body<R: SteadyRead>(
    alloc: Global,
    reader: &mut R,
    length: usize,
    retries: &mut Retries,
) -> Result<Blob, FrameFault>
    ensures came { BodyCame (R.remaining reader.old) (R.remaining reader.new) length result }
    ensures counts { (start : ℕ) → Counts start (R.seen reader.old) retries.old
        → ReadsOn start (R.seen reader.new) retries.new result }
{
    if length == 0 {
        return Ok(Blob::from(Vec::new(alloc)));
    }
    let mut body = vec![in alloc; 0u8; length]?;
    let count = fill(reader, body.as_mut_slice(), retries)?;
    if count < length {
        return Err(FrameFault::Truncated);
    }
    Ok(Blob::from(body))
}
