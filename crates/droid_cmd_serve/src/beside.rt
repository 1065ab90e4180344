//! The file beside a journal that a smaller one is written into. What happens to files has no contract:
//! `tests/program/journal` (`journal_compact.py`, `journal_operation.py`) tests it.

use droid_journal::{DiskFault, FileDrive};
use std::fs::{File, Files, Metadata, OpenOptions};
use std::io::ErrorKind;
use std::os::unix::fs::{MetadataExt, OpenOptionsExt, chown};
use std::{fs, io};

/// The mode of a file that nobody but its owner can open.
const PRIVATE: u32 = 0o600;

/// Opens an empty file at `beside` with the owner, the group and the mode of the file at `like`. One that is there,
/// left by a run that was killed, is removed, unless another process has it open. If it fails behind that, no file is
/// left. To find out it opens the file as a journal is opened, which makes one where none is: so there always is one to
/// remove. (`test_owner_and_mode` and `test_a_file_beside_it` of `journal_compact.py`.)
pub(crate) fn open_beside<'b, R>(
    rt: &'b R,
    beside: &'b str,
    like: &str,
) -> Result<FileDrive<'b, R>, ErrorKind>
where
    R: Files<File = File> + Eprint + AllocGlobal,
{
    let left = match FileDrive::open(rt, beside) {
        Ok(left) => left,
        Err(fault) => return Err(kind_of(fault)),
    };
    if let Err(error) = fs::remove_file(rt, beside) {
        return Err(error.kind());
    }
    // Not before the file is removed: while it is open, no other process opens it so.
    drop(left);
    if let Err(error) = make_like(rt, beside, like) {
        let _ = fs::remove_file(rt, beside);
        return Err(error.kind());
    }
    match FileDrive::open(rt, beside) {
        Ok(drive) => Ok(drive),
        Err(fault) => {
            let _ = fs::remove_file(rt, beside);
            Err(kind_of(fault))
        }
    }
}

/// Makes an empty file at `path` with the owner, the group and the mode of the file at `like`. Until it has them nobody
/// but its owner can open it: [`PRIVATE`]. Fails if a file is there. The owner is set first: under the mode alone
/// somebody else's group might already read it.
fn make_like<R: Files<File = File>>(rt: &R, path: &str, like: &str) -> io::Result<()> {
    let other = fs::symlink_metadata(rt, like)?;
    let file = OpenOptions::new()
        .write(true)
        .create_new(true)
        .mode(PRIVATE)
        .open(rt, path)?;
    if !has_one_owner(&file.metadata()?, &other) {
        chown(rt, path, Some(other.uid()), Some(other.gid()))?;
    }
    file.set_permissions(other.permissions())
}

/// Returns whether two files have the same owner and the same group.
fn has_one_owner(one: &Metadata, other: &Metadata) -> bool {
    one.uid() == other.uid() && one.gid() == other.gid()
}

/// Returns the system's kind of error for why a file could not be opened: what the ending keeps and prints.
fn kind_of(fault: DiskFault) -> ErrorKind {
    match fault {
        DiskFault::InUse => ErrorKind::ResourceBusy,
        DiskFault::NotAFile => ErrorKind::AlreadyExists,
        DiskFault::Unopened(kind) => kind,
    }
}
