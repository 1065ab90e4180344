//! Reading an input of a limited length to its end.

ghost use Rattle.std.specs.Prelude.{◌≡◌, ◌+◌, ◌<◌, ◌≤◌, ◌^◌, IfOk, OnOk, IfErr, IfSome, IsErrOf, length};
ghost use Rattle.std.specs.Io.KnownBytes.{IsAtEnd};
ghost use Rattle.droid_frame.specs.Seen.{IsSound, ReportsFault};
ghost use Rattle.droid_frame.specs.Reads.{ReadsNoInput};

use crate::io::buffer::read_some;
use crate::io::retries::Retries;
use crate::io::steady::SteadyRead;
use crate::io::stream_fault::InputFault;
use std::alloc::Global;

/// The most bytes that one read asks for. The contract holds for any other number above 0 too: it sets the room on the
/// stack, and the number of reads.
const CHUNK: usize = 8_192;

/// Reads an input of at most `limit` bytes to its end. An interrupted read is tried again, up to 64 times over the
/// whole input. Of a longer input only one byte past the limit is read. After a fault all bytes that were read are
/// dropped.
pub fn read_to_end<R: SteadyRead>(
    alloc: Global,
    reader: &mut R,
    limit: usize,
) -> Result<Vec<u8>, InputFault>
    requires { limit + 1 < 2 ^ 64 }
    // The result is all of the input.
    ensures whole { IfOk result (λ input. IfSome (R.remaining reader.old) (λ bytes. input.items ≡ bytes)) }
    ensures end { OnOk result (IsAtEnd (R.remaining reader.new)) }
    ensures within { IfOk result (λ input. length input.items ≤ limit) }
    // An input that is too long was read one byte past the limit; with any other fault no more than the limit was read.
    ensures err { IfErr result (λ fault. ReadsNoInput fault (R.remaining reader.old) (R.remaining reader.new) limit) }
    // `Read` is returned exactly if the reader failed or was interrupted for the 65th time.
    ensures fault { IsSound (R.seen reader.old)
        → ReportsFault (R.seen reader.old).interruptions (R.seen reader.new) (IsErrOf result InputFault.Read) }
{
    let mut input = Vec::new(alloc);
    let mut chunk = [0u8; CHUNK];
    let mut retries = Retries::new();
    loop {
        let room = limit - input.len();
        let wanted = CHUNK.min(room + 1);
        let count = read_some(reader, &mut chunk[..wanted], &mut retries)?;
        if count == 0 {
            return Ok(input);
        }
        if count > room {
            return Err(InputFault::TooLong);
        }
        input.extend_from_slice(&chunk[..count])?;
    }
}
