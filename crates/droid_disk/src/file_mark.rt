//! The mark of an unfinished file, by which a later run knows what an ended one left. Nothing here has a contract:
//! `tests/program/folders/unfinished_files.py` tests it, and `output_calls.py` lets `unmark` fail. No test has a lock
//! or a mark that can't be set, nor a file that changes between two of the looks.

use std::fs::{self, File, Files, Metadata, OpenFile, OpenOptions, Permissions};
use std::io;
use std::os::unix::fs::{MetadataExt, PermissionsExt};

/// Marks an unfinished file: the sticky bit, which means nothing for a file, and which no other file has.
const MARK: u32 = 0o1000;

/// The bits of a mode that can be set: the rights, and three above them, of which `MARK` is one.
const MODES: u32 = 0o7777;

/// Creates a file, locks it and marks it. Fails where something is at the path. A lock or a mark that fails is passed
/// over: where the file system has none, no later run removes the file.
pub(crate) fn create_marked<R: Files<File = File>>(rt: &R, path: &str) -> io::Result<File> {
    let file = File::create_new(rt, path)?;
    if file.try_lock().is_ok() {
        let _ = mark(&file);
    }
    Ok(file)
}

/// Marks a file as unfinished: adds the sticky bit to its mode, and keeps the other bits.
pub(crate) fn mark(file: &File) -> io::Result<()> {
    let mode = file.metadata()?.mode() & MODES;
    file.set_permissions(Permissions::from_mode(mode | MARK))
}

/// Takes the mark away, so that no later run removes the file, and keeps the other bits. Changes nothing where there is
/// no mark.
pub(crate) fn unmark(file: &File) -> io::Result<()> {
    let mode = file.metadata()?.mode() & MODES;
    if mode & MARK == 0 {
        return Ok(());
    }
    file.set_permissions(Permissions::from_mode(mode & !MARK))
}

/// Removes the file at this path if an earlier run left it: if it is marked, and no process has its lock. Whatever
/// fails, the file stays, and nothing is reported.
pub(crate) fn remove_left<R: Files<File = File>>(rt: &R, path: &str) {
    if !is_marked(rt, path) {
        return;
    }
    let Ok(file) = OpenOptions::new().write(true).open(rt, path) else {
        return;
    };
    if file.try_lock().is_ok() && is_at(rt, path, &file) {
        let _ = fs::remove_file(rt, path);
    }
}

/// Returns whether a regular file is at this path that has the mark. Does not follow links, and says no if it can't be
/// asked.
fn is_marked<R: Files>(rt: &R, path: &str) -> bool {
    match fs::symlink_metadata(rt, path) {
        Ok(metadata) => metadata.is_file() && metadata.mode() & MARK != 0,
        Err(_) => false,
    }
}

/// Returns whether the path still leads to this open file, and whether that still has the mark: its run may have
/// finished it, or another file may have come, before the lock was taken.
fn is_at<R: Files>(rt: &R, path: &str, file: &File) -> bool {
    let (Ok(there), Ok(found)) = (fs::symlink_metadata(rt, path), file.metadata()) else {
        return false;
    };
    is_same_file(&there, &found) && found.mode() & MARK != 0
}

/// Returns whether these are the metadata of one file, by device and inode: another file may have come to the path.
fn is_same_file(first: &Metadata, second: &Metadata) -> bool {
    first.dev() == second.dev() && first.ino() == second.ino()
}
