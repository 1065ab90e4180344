//! A journal's file on a disk of this machine: how it is opened and locked, and each call of the system that it needs.
//!
//! Most functions have no contract, as nothing is assumed of what the system does. The tests in `tests/program/journal`
//! hold them: journal_files.py what is opened and what is refused, journal_calls.py which calls are made, in which
//! order, and what comes of each that fails.

ghost use Rattle.std.specs.Prelude.{[], ◌≡◌, ◌≤◌, IfOk, length, true};

use crate::disk::disk_fault::DiskFault;
use crate::disk::drive::{Drive, DriveError};
use std::fs::{File, Files, Metadata, OpenFile, OpenOptions};
use std::io::{ErrorKind, Write};
use std::os::unix::fs::{FileExt, MetadataExt, OpenOptionsExt};
use std::{fs, io};

/// Progress is printed each time that this many more bytes were read.
const REPORTED: u64 = 1_073_741_824;

/// How often a read or a write is tried that signals interrupt.
const TRIES: usize = 64;

/// The mode of a file that is made here: only its owner may read and write it. It has the bytes of files that clients
/// sent.
const PRIVATE: u32 = 0o600;

/// A file of this machine, locked: while it is open, no other process can open it this way. Bytes that are cut off go
/// into the file with this name and `.torn` behind it.
#[derive(Drop)]
pub struct FileDrive<'a, R> {
    runtime: &'a R,
    path: &'a str,
    file: File,
    torn: Option<File>,
    saved: u64,
    /// Whether a sync failed. Linux may then hold bytes as written that the disk lacks, and the next sync would
    /// succeed.
    failed: bool,
}

impl<'a, R: Files<File = File> + Eprint + AllocGlobal> FileDrive<'a, R> {
    /// Opens a file, and creates it if it is missing: then only its owner may read and write it. Its name is then on
    /// the disk too. A link is no regular file.
    ///
    /// Fails as in use if another process replaced the file before this one had the lock: what is appended to a file
    /// without a name would be lost.
    pub fn open(runtime: &'a R, path: &'a str) -> Result<FileDrive<'a, R>, DiskFault> {
        see_regular(runtime, path)?;
        let file = match open_for_appending(runtime, path) {
            Ok(file) => file,
            Err(error) => return Err(DiskFault::Unopened(error.kind())),
        };
        lock(&file)?;
        see_named(runtime, path, &file)?;
        match sync_folder(runtime, path) {
            Ok(()) => Ok(FileDrive {
                runtime,
                path,
                file,
                torn: None,
                saved: 0,
                failed: false,
            }),
            Err(error) => Err(DiskFault::Unopened(error.kind())),
        }
    }
}

/// Checks that a path is that of a regular file, or of nothing.
fn see_regular<R: Files>(runtime: &R, path: &str) -> Result<(), DiskFault> {
    match fs::symlink_metadata(runtime, path) {
        Ok(metadata) => {
            if metadata.is_file() {
                return Ok(());
            }
            Err(DiskFault::NotAFile)
        }
        Err(error) => {
            if error.kind() == ErrorKind::NotFound {
                return Ok(());
            }
            Err(DiskFault::Unopened(error.kind()))
        }
    }
}

/// Opens the file for reading and appending, and makes it with mode 0600 if there is none.
fn open_for_appending<R: Files<File = File>>(runtime: &R, path: &str) -> io::Result<File> {
    OpenOptions::new()
        .read(true)
        .append(true)
        .create(true)
        .mode(PRIVATE)
        .open(runtime, path)
}

/// Takes the system's lock of an open file, without waiting. Fails as in use if another process has it.
fn lock(file: &File) -> Result<(), DiskFault> {
    match file.try_lock() {
        Ok(()) => Ok(()),
        Err(fs::TryLockError::WouldBlock) => Err(DiskFault::InUse),
        Err(fs::TryLockError::Error(error)) => Err(DiskFault::Unopened(error.kind())),
    }
}

/// Checks that a path still leads to an open file. Fails as in use if it leads to another one, which another process
/// put in its place.
fn see_named<R: Files>(runtime: &R, path: &str, file: &File) -> Result<(), DiskFault> {
    let named = match fs::symlink_metadata(runtime, path) {
        Ok(named) => named,
        Err(error) => return Err(DiskFault::Unopened(error.kind())),
    };
    match file.metadata() {
        Ok(opened) => {
            if is_same_file(&named, &opened) {
                return Ok(());
            }
            Err(DiskFault::InUse)
        }
        Err(error) => Err(DiskFault::Unopened(error.kind())),
    }
}

/// Returns whether both describe the same file, by its device and inode.
fn is_same_file(first: &Metadata, second: &Metadata) -> bool {
    first.dev() == second.dev() && first.ino() == second.ino()
}

/// Syncs the folder that has the name of the file with this path, so that the name is on the disk too. A path without a
/// `/` is one in the working folder.
pub fn sync_folder<R: Files<File = File>>(runtime: &R, path: &str) -> io::Result<()> {
    let folder = match path.rfind('/') {
        Some(0) => "/",
        Some(end) => &path[..end],
        None => ".",
    };
    let folder = OpenOptions::new().read(true).open(runtime, folder)?;
    folder.sync_all()
}

/// Reads once from a place on, and returns how many bytes. An interrupted read is tried again, up to 64 times in all.
fn read_once(file: &File, at: u64, buffer: &mut [u8]) -> io::Result<usize>
    ensures bound { IfOk result (λ count. count ≤ length buffer.new) }
{
    for _ in 0..TRIES {
        match file.read_at(buffer, at) {
            Ok(count) => return Ok(count),
            Err(error) => {
                if error.kind() != ErrorKind::Interrupted {
                    return Err(error);
                }
            }
        }
    }
    Err(io::Error::from(ErrorKind::Interrupted))
}

/// Writes once, and returns how many bytes. An interrupted write is tried again, up to 64 times in all.
fn write_once(file: &mut File, bytes: &[u8]) -> io::Result<usize>
    ensures bound { IfOk result (λ count. count ≤ length bytes.now) }
{
    for _ in 0..TRIES {
        match file.write(bytes) {
            Ok(count) => return Ok(count),
            Err(error) => {
                if error.kind() != ErrorKind::Interrupted {
                    return Err(error);
                }
            }
        }
    }
    Err(io::Error::from(ErrorKind::Interrupted))
}

impl<'a, R: Files<File = File> + Eprint + AllocGlobal> FileDrive<'a, R> {
    /// Opens the file for bytes that are cut off (`.torn`) for appending, and makes it with mode 0600 if there is none.
    /// Its name is then on the disk too.
    fn open_torn(&self) -> io::Result<File> {
        let name = format!(in self.runtime.alloc(); "{}.torn", self.path)?;
        let torn = OpenOptions::new()
            .append(true)
            .create(true)
            .mode(PRIVATE)
            .open(self.runtime, name.as_str())?;
        sync_folder(self.runtime, self.path)?;
        Ok(torn)
    }

    /// Appends to the file for bytes that are cut off, and syncs it. After an error that file is closed, and the next
    /// call opens it again.
    fn save_all(&mut self, bytes: &[u8]) -> io::Result<()>
        ensures { self.new.failed ≡ self.old.failed }
    {
        let mut torn = match self.torn.take() {
            Some(torn) => torn,
            None => self.open_torn()?,
        };
        torn.write_all(bytes)?;
        torn.sync_all()?;
        self.torn = Some(torn);
        self.saved = self.saved.saturating_add(bytes.len() as u64);
        Ok(())
    }

    /// Truncates the file to `len` bytes, and prints how many bytes were saved, if any. A print that fails is passed
    /// over.
    fn cut(&self, len: u64) -> io::Result<()> {
        if self.saved > 0 {
            let _ = eprintln!(self.runtime;
                "journal: {} bytes behind the last whole record are now in {}.torn",
                self.saved, self.path
            );
        }
        self.file.set_len(len)
    }

    /// Prints how much was read, each time that 1 GiB (`REPORTED`) more was: `count` bytes from `at` on were read last.
    fn report(&self, at: u64, count: usize) {
        let to = at.saturating_add(count as u64);
        if at / REPORTED != to / REPORTED {
            let _ = eprintln!(self.runtime; "journal: {} GiB read", to / REPORTED);
        }
    }
}

/// Drops the system's reason of a failed call: the journal's faults do not name it.
fn drive_result<T: Drop>(answer: io::Result<T>) -> Result<T, DriveError> {
    match answer {
        Ok(value) => Ok(value),
        Err(_) => Err(DriveError),
    }
}

// The clauses hold since `has` says of no bytes that the file has them. Each method is one call of the system; that the
// system does what the clauses say is trusted.
impl<'a, R: Files<File = File> + Eprint + AllocGlobal> Drive for FileDrive<'a, R> {
    ghost has = { λ drive bytes. ⊥ };

    ghost kept = { λ drive. [] };

    ghost is_found = { λ drive. Unit {0} };

    ghost failed = { λ drive. drive.failed ≡ true };

    ghost saved = { λ drive. [] };

    ghost kept_is_there = { λ drive bytes none. absurd none };

    /// Prints each GiB that was read, since reading a long journal takes a while.
    fn read_some(&self, at: u64, buffer: &mut [u8]) -> Result<usize, DriveError> {
        match read_once(&self.file, at, buffer) {
            Ok(count) => {
                self.report(at, count);
                Ok(count)
            }
            Err(_) => Err(DriveError),
        }
    }

    fn shorten(&mut self, len: u64) -> Result<(), DriveError> {
        drive_result(self.cut(len))
    }

    /// Makes the other file only once there are bytes for it.
    fn save(&mut self, bytes: &[u8]) -> Result<(), DriveError> {
        if bytes.is_empty() {
            return Ok(());
        }
        drive_result(self.save_all(bytes))
    }

    fn write_some(&mut self, bytes: &[u8]) -> Result<usize, DriveError> {
        match write_once(&mut self.file, bytes) {
            Ok(count) => Ok(count),
            Err(_) => Err(DriveError),
        }
    }

    /// Syncs the bytes and the length, and no more of the metadata.
    fn sync(&mut self) -> Result<(), DriveError> {
        if self.failed {
            return Err(DriveError);
        }
        match self.file.sync_data() {
            Ok(()) => Ok(()),
            Err(_) => {
                self.failed = true;
                Err(DriveError)
            }
        }
    }
}
