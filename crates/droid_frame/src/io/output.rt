//! Writing a frame or a text, in one call or several.

ghost use Rattle.std.specs.Prelude.{◌≡◌, ◌+◌, ◌-◌, ◌<◌, ◌≤◌, ◌^◌, ℕ, OnOk, IfErr, IfSome, MatchOption, length, take};
ghost use Rattle.std.specs.Io.KnownBytes.{Appends, Keeps};
ghost use Rattle.droid_frame.specs.Seen.{Counts};
ghost use Rattle.droid_frame.specs.Writes.{StopsWithin, Takes, WriterStops, WritesOn};

use crate::io::retries::Retries;
use crate::io::steady::SteadyWrite;
use crate::io::stream_fault::WriteFault;

/// How much of a frame or a text has been written, over all calls for it.
#[derive(Drop)]
pub struct WriteState {
    /// The number of bytes written.
    pub written: usize,
    /// The interrupted writes that were tried again.
    pub retries: Retries,
}

impl WriteState {
    /// Starts with nothing written.
    pub fn new() -> WriteState
        ensures written { result.written ≡ 0 }
        ensures retries { result.retries ≡ 0 }
    {
        WriteState {
            written: 0,
            retries: Retries::new(),
        }
    }

    /// Makes the fault of a writer that stopped here. The fault counts the bytes written so far.
    fn stopped(&self) -> WriteFault
        ensures { result.written ≡ self.now.written }
    {
        WriteFault {
            written: self.written,
        }
    }
}

/// Writes some of the bytes, the first ones, and returns how many; or `None` where the writer stops: it failed, took no
/// byte, or was interrupted for the 65th time. Then none of these bytes was written. An interrupted write is tried
/// again.
///
/// `bytes` has one at least, since a write of none would be taken for a writer that stops. `retries` counts over all
/// calls for one frame or text.
fn write_some<W: SteadyWrite>(writer: &mut W, bytes: &[u8], retries: &mut Retries) -> Option<usize>
    requires { 0 < length bytes.now }
    ensures bound { IfSome result (λ count. (0 < count) × (count ≤ length bytes.now)) }
    ensures bytes { MatchOption result (Keeps (W.contents writer.old) (W.contents writer.new)) (λ count.
        Appends (W.contents writer.old) (W.contents writer.new) (take count bytes.now)) }
    ensures room { MatchOption result (Takes (W.room writer.old) (W.room writer.new) 0) (λ count.
        Takes (W.room writer.old) (W.room writer.new) count) }
    ensures counts { (start : ℕ) → Counts start (W.seen writer.old) retries.old →
        MatchOption result (WriterStops start (W.seen writer.new) (W.room writer.new)) (λ _.
        Counts start (W.seen writer.new) retries.new) }
{
    loop {
        match writer.write_on(bytes) {
            Ok(0) => return None,
            Ok(count) => return Some(count),
            Err(error) => {
                if !retries.allow(&error) {
                    return None;
                }
            }
        }
    }
}

/// Writes all of these bytes. Allocates nothing.
///
/// `progress` goes on over several calls for one frame or text, as for a frame's header and then its body. After a
/// fault only the first of the bytes were written. The fault counts them on top of those that earlier calls wrote.
pub fn write_all<W: SteadyWrite>(
    writer: &mut W,
    bytes: &[u8],
    progress: &mut WriteState,
) -> Result<(), WriteFault>
    requires { progress.old.written + length bytes.now < 2 ^ 64 }
    ensures ok { OnOk result (Appends (W.contents writer.old) (W.contents writer.new) bytes.now) }
    ensures counted { OnOk result (progress.new.written ≡ progress.old.written + length bytes.now) }
    ensures counted_err { IfErr result (λ fault. progress.new.written ≡ fault.written) }
    ensures err { IfErr result (λ fault.
        StopsWithin (W.contents writer.old) (W.contents writer.new) bytes.now progress.old.written fault.written) }
    ensures room_ok { OnOk result (Takes (W.room writer.old) (W.room writer.new) (length bytes.now)) }
    ensures room_err { IfErr result (λ fault.
        Takes (W.room writer.old) (W.room writer.new) (fault.written - progress.old.written)) }
    ensures counts { (start : ℕ) → Counts start (W.seen writer.old) progress.old.retries
        → WritesOn start (W.seen writer.new) (W.room writer.new) progress.new.retries result }
{
    let mut rest = bytes;
    while !rest.is_empty() {
        let Some(count) = write_some(writer, rest, &mut progress.retries) else {
            return Err(progress.stopped());
        };
        progress.written += count;
        rest = &rest[count..];
    }
    Ok(())
}
