//! The file of a journal, by the calls of a file system.

ghost use Rattle.std.specs.Prelude.{◌≡◌, ◌+◌, ◌≤◌, ◌++◌, ℕ, List, [], length, take, drop, IfErr, IfOk, OnErr, OnOk};
ghost use Rattle.droid_journal.specs.Fronts.{IsFront};
ghost use Rattle.droid_journal.specs.Saved.{EndsWith};

use crate::disk::drive::{Drive, DriveError};
use crate::log_file::{FileError, LogFile};

/// The bytes that are saved at once of an end that is cut off. Clauses have it as 65536, and the prover ties them to
/// it.
const SAVED: usize = 65_536;

/// A file of a journal. An append writes all of its bytes or fails. What is cut off is saved first.
#[derive(Drop)]
pub struct DiskLog<D> {
    /// The file system.
    pub drive: D,
}

/// Reads from a place on, until the buffer is full or the file ends, and returns how many bytes were read.
fn read_full<D: Drive>(drive: &D, at: u64, buffer: &mut [u8]) -> Result<usize, FileError>
    ensures bound { IfOk result (λ count. count ≤ length buffer.new) }
    ensures size { length buffer.new ≡ length buffer.old }
    ensures read { (s : List ℕ) → D.has drive.now s
        → IfOk result (λ count. take count buffer.new ≡ take (length buffer.old) (drop at s)) }
{
    let mut count = 0;
    while count < buffer.len() {
        let Some(place) = at.checked_add(count as u64) else {
            return Err(FileError);
        };
        match read_more(drive, place, buffer, count) {
            Ok(0) => return Ok(count),
            Ok(more) => count += more,
            Err(_) => return Err(FileError),
        }
    }
    Ok(count)
}

/// Reads once from a place on, into the buffer behind its first `count` bytes. Returns how many bytes were read: 0 only
/// where the file ends.
fn read_more<D: Drive>(
    drive: &D,
    at: u64,
    buffer: &mut [u8],
    count: usize,
) -> Result<usize, DriveError>
    requires { count + 1 ≤ length buffer.old }
    ensures bound { IfOk result (λ more. count + more ≤ length buffer.new) }
    ensures size { length buffer.new ≡ length buffer.old }
    ensures read { (s : List ℕ) → D.has drive.now s
        → IfOk result (λ more. take (count + more) buffer.new ≡ take count buffer.old ++ take more (drop at s)) }
    ensures within { (s : List ℕ) → D.has drive.now s → IfOk result (λ more. more ≤ length (drop at s)) }
    ensures end { (s : List ℕ) → D.has drive.now s → IfOk result (λ more. more ≡ 0 → drop at s ≡ []) }
{
    drive.read_some(at, &mut buffer[count..])
}

/// Saves up to 65,536 bytes of the file from a place on, and returns how many: fewer only where it ends. After an error
/// nothing is promised of what was saved, and `cut` cuts nothing off.
fn save_some<D: Drive>(drive: &mut D, at: u64) -> Result<usize, FileError>
    ensures size { (s : List ℕ) → D.has drive.old s → IfOk result (λ count. count ≡ length (take 65536 (drop at s))) }
    ensures saved { (s : List ℕ) → D.has drive.old s
        → OnOk result (D.saved drive.new ≡ D.saved drive.old ++ take 65536 (drop at s)) }
    ensures same { (s : List ℕ) → D.has drive.old s → D.has drive.new s }
    ensures no_other { (s : List ℕ) → D.has drive.new s → D.has drive.old s }
    ensures kept { D.kept drive.new ≡ D.kept drive.old }
    ensures found { D.is_found drive.old → D.is_found drive.new }
    ensures stays { D.failed drive.old → D.failed drive.new }
{
    let mut buffer = [0u8; SAVED];
    let Ok(count) = read_full(drive, at, &mut buffer) else {
        return Err(FileError);
    };
    match drive.save(&buffer[..count]) {
        Ok(()) => Ok(count),
        Err(_) => Err(FileError),
    }
}

/// Saves the end of the file, from a place on. The file stays as it is, after an error too.
fn save_end<D: Drive>(drive: &mut D, from: u64) -> Result<(), FileError>
    ensures saved { (s : List ℕ) → D.has drive.old s → OnOk result (EndsWith (D.saved drive.new) (drop from s)) }
    ensures same { (s : List ℕ) → D.has drive.old s → D.has drive.new s }
    ensures no_other { (s : List ℕ) → D.has drive.new s → D.has drive.old s }
    ensures kept { D.kept drive.new ≡ D.kept drive.old }
    ensures found { D.is_found drive.old → D.is_found drive.new }
    ensures stays { D.failed drive.old → D.failed drive.new }
{
    let mut at = from;
    // The bound is never reached. With it the loop ends, whatever the file does.
    for _ in 0..u64::MAX {
        let Ok(count) = save_some(drive, at) else {
            return Err(FileError);
        };
        if count < SAVED {
            return Ok(());
        }
        let Some(next) = at.checked_add(count as u64) else {
            return Err(FileError);
        };
        at = next;
    }
    Err(FileError)
}

/// Writes all of these bytes, in as many calls as it takes. After an error the first of them may have been written. A
/// call that writes no byte is an error.
fn write_all<D: Drive>(drive: &mut D, bytes: &[u8]) -> Result<(), FileError>
    ensures written { (s : List ℕ) → D.has drive.old s → OnOk result (D.has drive.new (s ++ bytes.now)) }
    ensures part { (s : List ℕ) → D.has drive.old s
        → OnErr result ((part : List ℕ) × D.has drive.new (s ++ part) × IsFront part bytes.now) }
    ensures kept { D.kept drive.new ≡ D.kept drive.old }
    ensures stays { D.failed drive.old → D.failed drive.new }
{
    let mut written = 0;
    while written < bytes.len() {
        let (_, rest) = bytes.split_at(written);
        match drive.write_some(rest) {
            Ok(0) => return Err(FileError),
            Ok(count) => written += count,
            Err(_) => return Err(FileError),
        }
    }
    Ok(())
}

impl<D: Drive> LogFile for DiskLog<D> {
    ghost has = { λ log bytes. D.has log.drive bytes };

    ghost kept = { λ log. D.kept log.drive };

    ghost is_found = { λ log. D.is_found log.drive };

    ghost failed = { λ log. D.failed log.drive };

    ghost kept_is_there = { λ log bytes there. D.kept_is_there log.drive bytes there };

    fn read_at(&self, at: u64, buffer: &mut [u8]) -> Result<usize, FileError> {
        read_full(&self.drive, at, buffer)
    }

    /// Saves what is cut off first, so that no byte of a journal is lost, also if it was not torn.
    fn cut(&mut self, len: u64) -> Result<(), FileError> {
        match save_end(&mut self.drive, len) {
            Ok(()) => {}
            Err(_) => return Err(FileError),
        }
        match self.drive.shorten(len) {
            Ok(()) => Ok(()),
            Err(_) => Err(FileError),
        }
    }

    fn append(&mut self, bytes: &[u8]) -> Result<(), FileError> {
        write_all(&mut self.drive, bytes)
    }

    fn sync(&mut self) -> Result<(), FileError> {
        match self.drive.sync() {
            Ok(()) => Ok(()),
            Err(_) => Err(FileError),
        }
    }
}
