//! The files that stay open while they are read: finds them by their paths, and closes them.

ghost use Rattle.std.specs.Prelude.{◌≡◌, ◌<◌, ◌++◌, IfSome, None, Some, cond, length, slice_index_or};
ghost use Rattle.droid_disk.specs.OpenFiles.{held, with_room, without};

use crate::disk::Disk;

/// How many files stay open. `with_room` has the number too, and the prover compares both. They are to be no fewer than
/// the files that are read at a time, the eight `HashLanes` of `droid_profile`: else a file is closed before its end,
/// and unreadable. Nothing but this line ties them.
pub(crate) const OPEN_FILES: usize = 8;

/// Returns the place in `files` of the first file that is open by the path that `top` and `path` make, or `None`.
#[tactic(auto, using(crate::proofs::HeldFiles::held_at, crate::proofs::HeldFiles::held_none, crate::proofs::HeldFiles::none_more))]
pub(crate) fn place_in<D: Disk>(files: &[D::File], top: &str, path: &str) -> Option<usize>
    ensures within { IfSome result (λ place. place < length files.now) }
    ensures held { IfSome result (λ place.
        (file : D.File) → file ≡ slice_index_or files.now place file
        → held D.path_of (top.now ++ path.now) files.now ≡ Some file) }
    ensures none { result ≡ None → held D.path_of (top.now ++ path.now) files.now ≡ None }
{
    for place in 0..files.len() {
        if D::is_at(&files[place], top, path) {
            return Some(place);
        }
    }
    None
}

/// Closes the file that is open by the path that `top` and `path` make. Nothing happens if none is.
pub(crate) fn close<D: Disk>(files: &mut Vec<D::File>, top: &str, path: &str)
    ensures { files.new.items ≡ without D.path_of (top.now ++ path.now) files.old.items }
{
    files.retain(|file| !D::is_at(file, top, path));
}

/// Closes the file that is open by the path that `top` and `path` make if `ended` says that it was read to its end.
pub(crate) fn close_ended<D: Disk>(files: &mut Vec<D::File>, top: &str, path: &str, ended: bool)
    ensures { files.new.items ≡ cond ended (without D.path_of (top.now ++ path.now) files.old.items) files.old.items }
{
    if !ended {
        return;
    }
    close::<D>(files, top, path);
}

/// Closes the file that was opened longest ago, the first one, if eight are open. After that one more may be opened.
pub(crate) fn make_room<F: Drop>(files: &mut Vec<F>)
    ensures { files.new.items ≡ with_room files.old.items }
{
    if files.len() < OPEN_FILES {
        return;
    }
    let _file = files.remove(0);
}
