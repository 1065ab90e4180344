//! Reads bytes of an open file into a buffer. Proved is how many there may be and which faults; which bytes come is up
//! to the machine, and `tests/program/folders/profile_reads.py` tests it.

ghost use Rattle.std.specs.Prelude.{◌≡◌, ◌≢◌, ◌≤◌, ◌+◌, IfErr, IfOk, OnOk, length, take};
ghost use Rattle.droid_tree.specs.declared.fault.TreeFault.TheVariants.{Changed};
ghost use Rattle.droid_disk.specs.Machine.{AddsBytes};

use droid_tree::TreeFault;
use std::fs::File;
use std::io::{Error, ErrorKind};
use std::os::unix::fs::FileExt;

/// How often a read is tried: once, and again after each of up to 64 interruptions, as `RETRY_LIMIT` of `droid_frame`
/// has it for streams; nothing ties them. No clause holds the number; `profile_reads.py` does.
const TURNS: u32 = 65;

/// Appends up to `wanted` bytes of a file, starting at offset `from`. Appends fewer only if the file ends before. `len`
/// is the length that the file had when it was opened: a read that comes short there is not tried again. Fails as
/// `fill` does, or with `Memory`. After an error nothing is promised of `bytes`.
pub(crate) fn add_bytes(
    file: &File,
    len: u64,
    from: u64,
    wanted: u32,
    bytes: &mut Vec<u8>,
) -> Result<(), TreeFault>
    ensures added { OnOk result (AddsBytes wanted bytes.old.items bytes.new.items) }
    ensures known { IfErr result (λ fault. fault ≢ Changed) }
{
    let before = bytes.len();
    let Some(after) = before.checked_add(wanted as usize) else {
        return Err(TreeFault::Memory);
    };
    if bytes.resize(after, 0).is_err() {
        return Err(TreeFault::Memory);
    }
    let filled = fill(file, len, from, &mut bytes[before..])?;
    bytes.truncate(before + filled);
    Ok(())
}

/// Fills a buffer with bytes of a file, starting at offset `from`. Returns how many bytes came: fewer if the file ends
/// before. `len` is the length that the file had when it was opened. Fails with `Unreadable`, as `read_some` and
/// `place_after` do.
fn fill(file: &File, len: u64, from: u64, buffer: &mut [u8]) -> Result<usize, TreeFault>
    ensures within { IfOk result (λ count. count ≤ length buffer.new) }
    ensures known { IfErr result (λ fault. fault ≢ Changed) }
{
    let mut filled = 0;
    while filled < buffer.len() {
        let place = place_after(from, filled)?;
        let count = read_some(file, place, &mut buffer[filled..])?;
        if count == 0 {
            return Ok(filled);
        }
        filled += count;
        if is_end(len, place, count) {
            return Ok(filled);
        }
    }
    Ok(filled)
}

/// Returns whether `count` bytes from this offset on reach the end of a file of this length. For speed, since then no
/// further read has to show the end: no clause needs it.
fn is_end(len: u64, place: u64, count: usize) -> bool {
    len.saturating_sub(place) <= count as u64
}

/// Returns the offset `count` bytes after `from`. Beyond 64 bits nothing can be read: `Unreadable`, which no clause and
/// no test holds.
fn place_after(from: u64, count: usize) -> Result<u64, TreeFault>
    ensures { IfErr result (λ fault. fault ≢ Changed) }
{
    match from.checked_add(count as u64) {
        Some(place) => Ok(place),
        None => Err(TreeFault::Unreadable),
    }
}

/// Reads once into the front of `buffer`, and again after each interruption, `TURNS` times in all. Returns how many
/// bytes came, 0 at the end of the file. Fails with `Unreadable`.
fn read_some(file: &File, from: u64, buffer: &mut [u8]) -> Result<usize, TreeFault>
    ensures within { IfOk result (λ count. count ≤ length buffer.new) }
    ensures known { IfErr result (λ fault. fault ≢ Changed) }
{
    for _ in 0..TURNS {
        match file.read_at(buffer, from) {
            Ok(count) => return Ok(count),
            Err(error) if was_interrupted(&error) => {}
            Err(_) => return Err(TreeFault::Unreadable),
        }
    }
    Err(TreeFault::Unreadable)
}

/// Returns whether a signal interrupted the read, which is then tried again. For any other error it is not.
fn was_interrupted(error: &Error) -> bool {
    error.kind() == ErrorKind::Interrupted
}
