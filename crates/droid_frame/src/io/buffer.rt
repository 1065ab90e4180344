//! Reading into a buffer: once, or until it is full.

ghost use Rattle.std.specs.Prelude.{◌≡◌, ◌<◌, ◌≤◌, ℕ, IfOk, OnErr, length, take};
ghost use Rattle.std.specs.Io.{ReadsAtMost};
ghost use Rattle.std.specs.Io.KnownBytes.{Consumes, IsAtEnd, ReadConsumes};
ghost use Rattle.droid_frame.specs.Seen.{Counts, CountsOn};
ghost use Rattle.droid_frame.specs.Reads.{ConsumesFewer};

use crate::io::retries::Retries;
use crate::io::steady::SteadyRead;
use crate::io::stream_fault::ReadFault;

/// Reads once, as many bytes as the reader returns, to the front of the buffer, and returns how many. 0 means that the
/// input has ended, or that the buffer is empty. An interrupted read is tried again.
///
/// `retries` counts these over all calls for one frame, file or text. A fault: the reader failed, or was interrupted
/// for the 65th time. After it no byte was consumed.
pub fn read_some<R: SteadyRead>(
    reader: &mut R,
    buffer: &mut [u8],
    retries: &mut Retries,
) -> Result<usize, ReadFault>
    ensures bound { ReadsAtMost result buffer.new }
    ensures bytes { ReadConsumes (R.remaining reader.old) (R.remaining reader.new) result buffer.new }
    ensures counts { (start : ℕ) → Counts start (R.seen reader.old) retries.old
        → CountsOn start (R.seen reader.new) retries.new result }
{
    loop {
        match reader.read_on(buffer) {
            Ok(count) => return Ok(count),
            Err(error) => {
                if !retries.allow(&error) {
                    return Err(ReadFault);
                }
            }
        }
    }
}

/// Fills the buffer, or less of it where the input ends, and returns how many bytes came: fewer than its length mean
/// the end. Allocates nothing.
///
/// `retries` counts as in [`read_some`]. After a fault the bytes that came before it are lost: `err` says that they are
/// fewer than the buffer's length, and nothing more.
pub fn fill<R: SteadyRead>(
    reader: &mut R,
    buffer: &mut [u8],
    retries: &mut Retries,
) -> Result<usize, ReadFault>
    ensures within { IfOk result (λ count. count ≤ length buffer.new) }
    ensures bytes { IfOk result (λ count.
        Consumes (R.remaining reader.old) (R.remaining reader.new) (take count buffer.new)) }
    ensures end { IfOk result (λ count. count < length buffer.new → IsAtEnd (R.remaining reader.new)) }
    ensures err { OnErr result (ConsumesFewer (R.remaining reader.old) (R.remaining reader.new) (length buffer.old)) }
    ensures counts { (start : ℕ) → Counts start (R.seen reader.old) retries.old
        → CountsOn start (R.seen reader.new) retries.new result }
{
    let mut filled = 0;
    while filled < buffer.len() {
        match read_some(reader, &mut buffer[filled..], retries)? {
            0 => return Ok(filled),
            count => filled += count,
        }
    }
    Ok(filled)
}
