//! Reads a stream to its end, and keeps its first and last bytes.

ghost use Rattle.std.specs.Prelude.{◌≡◌, ◌≤◌, ◌++◌, ℕ, List, [], IfOk, IfSome, OnOk, drop, length, ◌+◌, ◌-◌};
ghost use Rattle.droid_frame.specs.RunningHashes.{HoldsAll, running_kind};
ghost use Rattle.droid_identity.specs.Matches.{AreEnds};
ghost use Rattle.droid_cmd_identify.specs.EndsRead.{last_of};
ghost use Rattle.droid_cmd_identify.specs.StreamEnds.{KeepsEnds, TakesStream};

use crate::ends::FileEnds;
use droid_frame::{InputFault, Retries, RunningHash, SteadyRead, read_some};
use std::alloc::AllocError;

/// The most bytes that one read asks for. Nothing else depends on it.
const CHUNK: usize = 8_192;

/// Reads a stream to its end. Returns how many bytes it has. `ends` has its first and last bytes afterwards, at most
/// `limit` of each, and `running` its hash.
pub fn read_stream<R: SteadyRead>(
    reader: &mut R,
    limit: u32,
    running: &mut RunningHash,
    ends: &mut FileEnds,
) -> Result<u64, InputFault>
    ensures ends { IfOk result (λ size. IfSome (R.remaining reader.old) (λ bytes.
        (length bytes ≡ size) × AreEnds bytes limit ends.new.first.items (last_of ends.new))) }
    ensures hash { IfOk result (λ _. IfSome (R.remaining reader.old) (λ bytes.
        (before : List ℕ) → HoldsAll running.old before → HoldsAll running.new (before ++ bytes))) }
    ensures kind { running_kind running.new ≡ running_kind running.old }
    ensures same { OnOk result (length ends.new.first.items ≡ length (last_of ends.new)) }
    ensures within { OnOk result (length ends.new.first.items ≤ limit) }
    ensures inside { IfOk result (λ size. length ends.new.first.items ≤ size) }
{
    ends.clear();
    let size = take_stream(reader, limit, running, ends)?;
    settle(ends, limit, size);
    Ok(size)
}

/// Reads a stream to its end. Returns how many bytes it has. Keeps its first `limit` bytes, and of the last ones at
/// least `limit`: which bytes are the last shows only at the end, where `settle` drops the others.
fn take_stream<R: SteadyRead>(
    reader: &mut R,
    limit: u32,
    running: &mut RunningHash,
    ends: &mut FileEnds,
) -> Result<u64, InputFault>
    requires first { ends.old.first.items ≡ [] }
    requires rest { ends.old.rest.items ≡ [] }
    ensures taken { IfOk result (λ size. TakesStream (R.remaining reader.old) limit size ends.new.first.items
        ends.new.rest.items running.old running.new) }
    ensures kind { running_kind running.new ≡ running_kind running.old }
{
    let mut chunk = [0u8; CHUNK];
    let mut retries = Retries::new();
    let mut size = 0;
    loop {
        let count = read_some(reader, &mut chunk, &mut retries)?;
        if count == 0 {
            return Ok(size);
        }
        let bytes = &chunk[..count];
        size = longer(size, count)?;
        running.update(bytes);
        add_part(ends, limit, bytes)?;
    }
}

/// Returns a size with the bytes of a part added. Fails with `TooLong` where 64 bits do not hold it.
fn longer(size: u64, count: usize) -> Result<u64, InputFault>
    ensures { IfOk result (λ sum. sum ≡ size + count) }
{
    match size.checked_add(count as u64) {
        Some(sum) => Ok(sum),
        None => Err(InputFault::TooLong),
    }
}

/// Keeps, of the next bytes of a stream, those that are among its first `limit`, and all of them as possibly last ones.
fn add_part(ends: &mut FileEnds, limit: u32, bytes: &[u8]) -> Result<(), AllocError>
    ensures { OnOk result ((seen : List ℕ) → KeepsEnds limit seen ends.old.first.items ends.old.rest.items
        → KeepsEnds limit (seen ++ bytes.now) ends.new.first.items ends.new.rest.items) }
{
    let most = limit as usize;
    let room = most.saturating_sub(ends.first.len());
    ends.first
        .extend_from_slice(&bytes[..room.min(bytes.len())])?;
    ends.rest.extend_from_slice(bytes)?;
    trim(ends, limit);
    Ok(())
}

/// Leaves only the last `limit` bytes once more than twice as many are kept. So memory does not grow with the stream,
/// and bytes are moved only once more than `limit` others came.
fn trim(ends: &mut FileEnds, limit: u32)
    ensures { (seen : List ℕ) → KeepsEnds limit seen ends.old.first.items ends.old.rest.items
        → KeepsEnds limit seen ends.new.first.items ends.new.rest.items }
{
    let most = limit as usize;
    if ends.rest.len() / 2 > most {
        keep_last(&mut ends.rest, most);
    }
}

/// Drops all but the last `count` bytes, in place.
fn keep_last(bytes: &mut Vec<u8>, count: usize)
    ensures { bytes.new.items ≡ drop (length bytes.old.items - count) bytes.old.items }
{
    let before = bytes.len().saturating_sub(count);
    let left = bytes.len() - before;
    bytes.rotate_left(before);
    bytes.truncate(left);
}

/// Sets, of a stream of this size that has ended, whether it is longer than `limit`, and then leaves just its last
/// `limit` bytes. Of a shorter one the first bytes are all, and the others are not looked at.
fn settle(ends: &mut FileEnds, limit: u32, size: u64)
    ensures { (seen : List ℕ) → length seen ≡ size → KeepsEnds limit seen ends.old.first.items ends.old.rest.items
        → AreEnds seen limit ends.new.first.items (last_of ends.new) }
{
    if size > u64::from(limit) {
        ends.goes_on = true;
        keep_last(&mut ends.rest, limit as usize);
    } else {
        ends.goes_on = false;
    }
}
