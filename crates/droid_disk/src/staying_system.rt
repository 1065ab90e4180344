//! The file system of this machine, for a process that stays in the folder that it listed while it reads the folder's
//! files: a file is then looked at and opened by its name alone, which costs the system less than a path does.
//!
//! Proved is what [`Disk`] asks for, but nothing of the working folder; `Staying` in `changing.py` of
//! `tests/program/identify` tests that.

ghost use Rattle.std.specs.Prelude.{◌≡◌};
ghost use Rattle.droid_disk.specs.Machine.{MaySay};

use crate::disk::{Disk, FileMetadata};
use crate::file_bytes::add_bytes;
use crate::system::{Opened, System, file_by, look_at, metadata_now, was_opened_by, with_metadata};
use droid_frame::{Blob, Text};
use droid_tree::TreeFault;
use std::alloc::{AllocError, Global};
use std::env::Env;
use std::fs::{File, Files};

/// The file system of this machine. From a listing on the listed folder is the process's working folder, until another
/// folder is listed, something outside of it is looked at or opened, or [`StayingSystem::go_home`] is called. Elsewhere
/// no path that does not begin with `/` may be used before that.
pub struct StayingSystem<'a, R> {
    system: System<'a, R>,
}

// Written by hand, so that the crates above do not prove again how each part is dropped.
impl<R> Drop for StayingSystem<'_, R> {
    fn drop(self) {
        let StayingSystem { system: _system } = self;
    }
}

impl<'a, R: Files<File = File> + Env> StayingSystem<'a, R> {
    /// Returns the file system that this runtime reaches. The process is then in the folder in which it was started.
    pub fn new(runtime: &'a R) -> StayingSystem<'a, R> {
        StayingSystem {
            system: System::new(runtime),
        }
    }

    /// Makes the folder in which the process was started its working folder again. Whether it is, the calls that follow
    /// see for themselves.
    pub fn go_home(&mut self) {
        let _ = self.system.go_back();
    }
}

// As `System`, but the process stays in the listed folder until a path leads out of it; an open file needs no path.
impl<R: Files<File = File> + Env> Disk for StayingSystem<'_, R> {
    type File = Opened;

    ghost says = { λ old said new. (new.system.runtime ≡ old.system.runtime) × MaySay said };

    // The process may be there at any time.
    ghost is_inside = { λ _. ⊥ };

    ghost path_of = { λ opened. opened.path };

    ghost metadata_of = { λ opened. opened.metadata };

    fn names(&mut self, alloc: Global, path: &str) -> Result<Vec<Blob>, TreeFault> {
        self.system.names(alloc, path)
    }

    fn look_in(
        &mut self,
        folder: &str,
        name: &str,
        place: &mut String,
    ) -> Result<Option<FileMetadata>, AllocError> {
        self.system.look_in(folder, name, place)
    }

    // Stays in the listed folder. `is_inside` never holds here, so that this promises nothing.
    fn leave(&mut self) {}

    fn see_folder(&mut self, path: &str) -> Result<(), TreeFault> {
        self.system.see_folder(path)
    }

    fn look(&mut self, path: &str) -> Option<FileMetadata> {
        match self.system.name_inside(path) {
            Some(name) => look_at(self.system.runtime, name),
            None => self.system.look(path),
        }
    }

    fn open(&mut self, path: Text) -> Result<Opened, TreeFault> {
        if let Some(name) = self.system.name_inside(path.as_str()) {
            let file = file_by(self.system.runtime, name)?;
            return with_metadata(file, path);
        }
        self.system.open(path)
    }

    fn metadata(file: &Opened) -> FileMetadata {
        file.metadata
    }

    fn is_at(file: &Opened, top: &str, path: &str) -> bool {
        was_opened_by(file, top, path)
    }

    fn read_at(
        &mut self,
        file: &Opened,
        from: u64,
        wanted: u32,
        bytes: &mut Vec<u8>,
    ) -> Result<(), TreeFault> {
        add_bytes(&file.file, file.metadata.len, from, wanted, bytes)
    }

    fn look_again(&mut self, file: &Opened) -> Option<FileMetadata> {
        metadata_now(&file.file)
    }
}
