//! A file beside the path of an output file, created when that is asked for or the first bytes are written to it.
//! Nothing here has a contract: `tests/program/folders/unfinished_files.py` and `output_calls.py` test it.

use crate::file_mark::{create_marked, remove_left};
use crate::output::OutputFault;
use droid_frame::Text;
use std::alloc::{AllocError, Global};
use std::fs::{File, Files, OpenFile};
use std::io::{Error, ErrorKind, Write};
use std::os::unix::fs::MetadataExt;
use std::{fs, io};

/// How many file names are tried: the numbers from 0 on. If none is free, no file can be created. The number is tied to
/// no other, and no test has as many.
const NAMES: u32 = 1_000;

/// What earlier runs left is looked for until this many file names in a row are free: 16, as docs/DECISIONS.md says.
/// `test_several` of `unfinished_files.py` has one free name before a left file; nothing holds the number.
const FREE: u32 = 16;

/// Which file it is: its device, and its number on that device.
#[derive(Clone, Copy)]
pub struct FileId {
    /// The device.
    pub device: u64,
    /// The number on that device.
    pub inode: u64,
}

/// The file and its path.
#[derive(Drop)]
pub(crate) struct Made {
    /// The file, open for writing, locked and marked.
    pub file: File,
    /// The path of the file.
    pub path: Text,
}

/// The path of an output file, and the unfinished file beside it once it is created.
#[derive(Drop)]
pub(crate) struct UnfinishedFile<'a, R: Files> {
    runtime: &'a R,
    alloc: Global,
    /// The path of the output file.
    place: Text,
    /// The path at which `see_room` could create a file, until `begin` takes it.
    free: Option<Text>,
    /// The file, once it is created.
    made: Option<Made>,
}

impl<'a, R: Files> UnfinishedFile<'a, R> {
    /// Takes the path of an output file. Creates nothing yet: `see_room` or the first write does.
    pub fn new(alloc: Global, runtime: &'a R, place: Text) -> UnfinishedFile<'a, R> {
        UnfinishedFile {
            runtime,
            alloc,
            place,
            free: None,
            made: None,
        }
    }

    /// Returns the parts: the runtime, the output file's path, and the unfinished file if it was created. `Output` then
    /// renames or removes it.
    pub fn into_parts(self) -> (&'a R, Text, Option<Made>) {
        let UnfinishedFile {
            runtime,
            alloc: _,
            place,
            free: _,
            made,
        } = self;
        (runtime, place, made)
    }
}

impl<R: Files<File = File>> UnfinishedFile<'_, R> {
    /// Removes the unfinished files of earlier runs, unless a process writes them still. A file that can't be removed
    /// stays; only `Memory` is a fault.
    pub fn clear(&self) -> Result<(), OutputFault> {
        let mut free = 0_u32;
        for number in 0..NAMES {
            if free == FREE {
                return Ok(());
            }
            let Ok(path) = unfinished_path(self.alloc, self.place.as_str(), number) else {
                return Err(OutputFault::Memory);
            };
            if is_free(self.runtime, path.as_str()) {
                free = free.saturating_add(1);
            } else {
                free = 0;
                remove_left(self.runtime, path.as_str());
            }
        }
        Ok(())
    }

    /// Checks that a file can be created: creates one and removes it. Keeps its path, so that the first write needs no
    /// memory for one. Fails as `make` does; a file that can't be removed is no fault.
    pub fn see_room(&mut self) -> Result<(), OutputFault> {
        // The file is open, and so locked, until it is removed: another run can't have put its own there.
        let Made { file: _file, path } = self.make()?;
        let _ = fs::remove_file(self.runtime, path.as_str());
        self.free = Some(path);
        Ok(())
    }

    /// Creates the file now, and returns which it is. If that can't be asked, it fails with `Refused`, and the file is
    /// kept for `give_up`. If no file can be created, it fails as `begin` does, and there is none.
    pub fn begin_now(&mut self) -> Result<FileId, OutputFault> {
        let made = self.begin()?;
        let found = made.file.metadata();
        self.made = Some(made);
        match found {
            Ok(metadata) => Ok(FileId {
                device: metadata.dev(),
                inode: metadata.ino(),
            }),
            Err(_) => Err(OutputFault::Refused),
        }
    }

    /// Creates the file by the path that `see_room` kept, or by another one if something is there by now. Fails with
    /// `Refused` if it can't be created, or as `make` does. The kept path is used up: a later call takes another one.
    fn begin(&mut self) -> Result<Made, OutputFault> {
        let Some(path) = self.free.take() else {
            return self.make();
        };
        match create_marked(self.runtime, path.as_str()) {
            Ok(file) => Ok(Made { file, path }),
            Err(error) if error.kind() == ErrorKind::AlreadyExists => self.make(),
            Err(_) => Err(OutputFault::Refused),
        }
    }

    /// Creates a file under the first name that is free. Fails with `Refused` if none is, or if the folder takes no
    /// file, and with `Memory`.
    fn make(&self) -> Result<Made, OutputFault> {
        for number in 0..NAMES {
            let Ok(path) = unfinished_path(self.alloc, self.place.as_str(), number) else {
                return Err(OutputFault::Memory);
            };
            match create_marked(self.runtime, path.as_str()) {
                Ok(file) => return Ok(Made { file, path }),
                Err(error) if error.kind() == ErrorKind::AlreadyExists => {}
                Err(_) => return Err(OutputFault::Refused),
            }
        }
        Err(OutputFault::Refused)
    }
}

/// Returns the path of the unfinished file with this number: `PLACE.NUMBER.unfinished`, beside the output file.
fn unfinished_path(alloc: Global, place: &str, number: u32) -> Result<Text, AllocError> {
    let path = format!(in alloc; "{place}.{number}.unfinished")?;
    Ok(Text::from(path))
}

/// Returns whether nothing is at this path. If it can't be asked for another reason, it is not free.
fn is_free<R: Files>(rt: &R, path: &str) -> bool {
    match fs::symlink_metadata(rt, path) {
        Ok(_) => false,
        Err(error) => error.kind() == ErrorKind::NotFound,
    }
}

impl<R: Files<File = File>> Write for UnfinishedFile<'_, R> {
    /// Writes to the file; creates it first if that was not done. If it can't be created, for whatever reason, memory
    /// included, the error is `PermissionDenied`, and a later write tries again.
    fn write(&mut self, buf: &[u8]) -> io::Result<usize> {
        if let Some(made) = &mut self.made {
            return made.file.write(buf);
        }
        let Ok(mut made) = self.begin() else {
            return Err(Error::from(ErrorKind::PermissionDenied));
        };
        let written = made.file.write(buf);
        self.made = Some(made);
        written
    }

    /// Flushes the file, if it is created.
    fn flush(&mut self) -> io::Result<()> {
        match &mut self.made {
            Some(made) => made.file.flush(),
            None => Ok(()),
        }
    }
}
