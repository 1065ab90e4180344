//! A folder that stays open while its entries are looked at and opened.
//!
//! Proved is which paths are reached through it. That it is the folder at its path is up to the machine: those
//! functions have no contract, and `tests/program/folders/working_folder.py` and `folder_calls.py` test them.

ghost use Rattle.std.specs.Prelude.{◌≡◌, ◌++◌, ◌∷◌, [], IfSome, IsTrue};
ghost use Rattle.droid_disk.specs.Places.{IsPlaceOf};

use crate::folder::place_of;
use droid_frame::Text;
use std::alloc::{AllocError, Global};
use std::fs;
use std::fs::{File, Files, Metadata, OpenFile};
use std::os::fd::AsRawFd;
use std::os::unix::fs::MetadataExt;

/// A folder that is open. Its entries are reached through it, so that a link that is put in the middle of its path is
/// not followed.
pub(crate) struct OpenFolder {
    alloc: Global,
    /// The path by which the folder was opened, with a `/` at its end.
    path: Text,
    /// The path of the open folder below `/proc`, with a `/` at its end.
    through: Text,
    /// Keeps the folder open.
    _file: File,
}

// Written by hand, so that the crates above do not prove again how each part is dropped.
impl Drop for OpenFolder {
    fn drop(self) {
        let OpenFolder {
            alloc: _alloc,
            path: _path,
            through: _through,
            _file: _file,
        } = self;
    }
}

impl OpenFolder {
    /// Opens the folder at this path. Returns `None` if that can't be done, for a link unless the path ends in `/`, if
    /// another folder came to the path meanwhile, and if memory runs out. `process` is the name of this process below
    /// `/proc`.
    pub fn open<R: Files<File = File>>(
        rt: &R,
        alloc: Global,
        process: &str,
        path: &str,
    ) -> Option<OpenFolder> {
        let Ok(there) = fs::symlink_metadata(rt, path) else {
            return None;
        };
        let Some(path) = with_slash(alloc, path) else {
            return None;
        };
        let Ok(file) = fs::open(rt, path.as_str()) else {
            return None;
        };
        let Ok(found) = file.metadata() else {
            return None;
        };
        if !is_same_folder(&there, &found) {
            return None;
        }
        let Ok(through) = path_through(alloc, process, &file) else {
            return None;
        };
        Some(OpenFolder {
            alloc,
            path,
            through,
            _file: file,
        })
    }

    /// Returns the path of the folder through the open one, below `/proc`, with a `/` at its end.
    pub fn through(&self) -> &str
        ensures { result.now ≡ self.now.through }
    {
        self.through.as_str()
    }

    /// Returns whether this folder was opened by this path, which has no `/` at its end. Only true promises something:
    /// false costs time.
    pub fn is_at(&self, path: &str) -> bool
        ensures { IsTrue result → self.now.path ≡ path.now ++ 47 ∷ [] }
    {
        match self.path.as_str().strip_prefix(path) {
            Some(rest) => rest == "/",
            None => false,
        }
    }

    /// Returns the path below the folder of what `path` names, or `None` if this is no path of something in it. Only
    /// `Some` promises something.
    pub fn name_in<'p>(&self, path: &'p str) -> Option<&'p str>
        ensures { IfSome result (λ name. path.now ≡ self.now.path ++ name.now) }
    {
        match path.strip_prefix(self.path.as_str()) {
            Some(name) if !name.is_empty() => Some(name),
            _ => None,
        }
    }

    /// Returns the path of something in the folder through the open folder. Returns `None` if this is no path of
    /// something in it, or if there is no memory for the path. Only `Some` promises something.
    pub fn place(&self, path: &str) -> Option<Text>
        ensures { IfSome result (λ place. IsPlaceOf self.now.path self.now.through path.now place) }
    {
        let Some(name) = path.strip_prefix(self.path.as_str()) else {
            return None;
        };
        match place_of(self.alloc, self.through.as_str(), name) {
            Ok(place) => Some(place),
            Err(_) => None,
        }
    }
}

/// Returns the path of an open folder below `/proc`, with a `/` at its end: `/proc/PROCESS/fd/NUMBER/`. Fails only if
/// memory runs out.
pub(crate) fn path_through(
    alloc: Global,
    process: &str,
    folder: &File,
) -> Result<Text, AllocError> {
    let number = folder.as_raw_fd();
    let path = format!(in alloc; "/proc/{process}/fd/{number}/")?;
    Ok(Text::from(path))
}

/// Returns the path with a `/` at its end, added if there is none. `None` if there is no memory for it.
fn with_slash(alloc: Global, path: &str) -> Option<Text> {
    let end = if path.ends_with('/') { "" } else { "/" };
    match place_of(alloc, path, end) {
        Ok(path) => Some(path),
        Err(_) => None,
    }
}

/// Returns whether both are metadata of a folder, and of the same one by device and inode.
pub(crate) fn is_same_folder(first: &Metadata, second: &Metadata) -> bool {
    first.is_dir() && second.is_dir() && first.dev() == second.dev() && first.ino() == second.ino()
}
