//! An output file that is either complete or not there.
//!
//! What happens to files has no contract: in `tests/program/folders` `output_calls.py` lets each call fail, and
//! `profile_output.py` and `unfinished_files.py` test the rest.

ghost use Rattle.std.specs.Prelude.{◌≡◌, [], Err, None};

use crate::file_mark::{mark, unmark};
use crate::unfinished_file::{FileId, Made, UnfinishedFile};
use droid_frame::{Noted, SteadyWrite, Text};
use std::alloc::Global;
use std::fs::{File, Files, OpenFile};
use std::io::{ErrorKind, Write};
use std::{fs, io};

/// Why an output file could not be written.
#[derive(Clone, Copy)]
pub enum OutputFault {
    /// Out of memory.
    Memory,
    /// No file could be created in the folder, or the path is empty or has something that is no regular file; or the
    /// file could not be looked at, synced or renamed.
    Refused,
}

/// An output file. It is written under another name beside its path and renamed when it is complete; an older file at
/// the path stays until then. The new file is created by [`Output::begin`] or when the first bytes are written, so that
/// a walk over the same folder that comes before does not meet it.
#[derive(Drop)]
pub struct Output<'a, R: Files> {
    file: Noted<UnfinishedFile<'a, R>>,
}

impl<'a, R: Files<File = File>> Output<'a, R> {
    /// Removes what earlier runs left beside the path `place` unless a process writes it still, and checks that a file
    /// can be created: creates one and removes it. Fails with `Refused` for an empty path, where something is at it
    /// that is no regular file, and where no file can be created. The clause holds the empty path alone.
    pub fn create(alloc: Global, runtime: &'a R, place: &str) -> Result<Output<'a, R>, OutputFault>
        ensures unnamed { place.now ≡ [] → result ≡ Err OutputFault.Refused }
    {
        if place.is_empty() || is_taken(runtime, place) {
            return Err(OutputFault::Refused);
        }
        let Ok(place) = Text::copy_of(alloc, place) else {
            return Err(OutputFault::Memory);
        };
        let mut beside = UnfinishedFile::new(alloc, runtime, place);
        beside.clear()?;
        beside.see_room()?;
        Ok(Output {
            file: Noted::new(beside),
        })
    }

    /// Creates the file now, before anything is written to it, and returns which it is: what is read of a folder from
    /// then on can leave it out. To be called once, before the first write: another call would create another file, and
    /// leave the first to a later run. Fails with `Refused` if no file can be created or it can't be looked at.
    pub fn begin(&mut self) -> Result<FileId, OutputFault> {
        self.file.stream.begin_now()
    }

    /// Renames the complete file to its path. Removes it if that fails, with `Refused`. If the folder can't be synced
    /// after that, the complete file stays in its place, and this fails too. Without `begin` or a write there is no
    /// file: `Refused`.
    pub fn complete(self) -> Result<(), OutputFault> {
        let (runtime, place, made) = self.file.stream.into_parts();
        let Some(made) = made else {
            return Err(OutputFault::Refused);
        };
        if put(runtime, &made, place.as_str()).is_err() {
            // If it can't be removed either, a later run does it.
            let _ = mark(&made.file);
            let _ = fs::remove_file(runtime, made.path.as_str());
            return Err(OutputFault::Refused);
        }
        match sync_folder(runtime, place.as_str()) {
            Ok(()) => Ok(()),
            Err(_) => Err(OutputFault::Refused),
        }
    }
}

impl<R: Files> Output<'_, R> {
    /// Removes the unfinished file, if it was created. An older file at the path stays. If the removal fails, a later
    /// run does it.
    pub fn give_up(self) {
        let (runtime, _, made) = self.file.stream.into_parts();
        if let Some(made) = made {
            let _ = fs::remove_file(runtime, made.path.as_str());
        }
    }
}

/// Flushes the file to the disk, takes its mark away, and then renames it: in this order, so that a run that is killed
/// leaves no file at the path that is not whole. Ends at the first call that fails.
fn put<R: Files>(runtime: &R, made: &Made, place: &str) -> io::Result<()> {
    made.file.sync_all()?;
    unmark(&made.file)?;
    fs::rename(runtime, made.path.as_str(), place)
}

/// Flushes to the disk the folder in which the file at `path` is. A folder that can't be opened for reading is passed
/// over, and one whose file system flushes none.
fn sync_folder<R: Files<File = File>>(runtime: &R, path: &str) -> io::Result<()> {
    let folder = match path.rfind('/') {
        Some(0) => "/",
        Some(end) => &path[..end],
        None => ".",
    };
    let Ok(folder) = fs::open(runtime, folder) else {
        return Ok(());
    };
    match folder.sync_all() {
        Ok(()) => Ok(()),
        Err(error) if error.kind() == ErrorKind::InvalidInput => Ok(()),
        Err(error) => Err(error),
    }
}

/// Returns whether the path is taken by something that must not be replaced: a folder, a link or a device. A regular
/// file may be. Where nothing is, or where it can't be asked, the path is not taken.
fn is_taken<R: Files>(runtime: &R, place: &str) -> bool {
    match fs::symlink_metadata(runtime, place) {
        Ok(metadata) => !metadata.is_file(),
        Err(_) => false,
    }
}

impl<R: Files<File = File>> Write for Output<'_, R> {
    /// Writes to the unfinished file; the first write creates it, unless [`Output::begin`] did.
    fn write(&mut self, buf: &[u8]) -> io::Result<usize> {
        self.file.write(buf)
    }

    fn flush(&mut self) -> io::Result<()> {
        self.file.flush()
    }
}

// A plain forward to `Noted`, whose `seen` it is.
impl<R: Files<File = File>> SteadyWrite for Output<'_, R> {
    ghost seen = { λ output. output.file.seen };

    ghost room = { λ _. None };

    fn write_on(&mut self, bytes: &[u8]) -> io::Result<usize> {
        self.file.write_on(bytes)
    }
}
