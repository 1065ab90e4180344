//! Where files and folders lie: the folder and the name of a path, and whether two places are one or one is in the
//! other.

ghost use Rattle.std.specs.Prelude.{◌≡◌, ◌↔◌, IsTrue, Ok, Some, [], false, true};
ghost use Rattle.droid_terminal.specs.Places.{IsAtOrBelow, LiesIn, folder_by, folder_of, name_of};

use droid_frame::Text;
use std::alloc::AllocError;
use std::fs;
use std::fs::Files;
use std::io::ErrorKind;

/// Returns whether a place is a folder or lies in it. Both are absolute paths without links, which the caller makes by
/// `absolute_path`; the clause speaks of the two texts alone.
pub fn lies_in(place: &str, folder: &str) -> bool
    ensures { IsTrue result ↔ LiesIn place.now folder.now }
{
    if folder.as_bytes() == b"/".as_slice() {
        return true;
    }
    is_at_or_below(place.as_bytes(), folder.as_bytes())
}

/// Returns whether a path is this folder, or begins with it and a `/`. `/letters2` is not below `/letters`.
fn is_at_or_below(path: &[u8], folder: &[u8]) -> bool
    ensures { IsTrue result ↔ IsAtOrBelow path.now folder.now }
{
    let Some(rest) = path.strip_prefix(folder) else {
        return false;
    };
    match rest.first() {
        Some(byte) => *byte == b'/',
        None => true,
    }
}

/// Returns the absolute path of a folder, without links. If it has none that is UTF-8, returns the path as given. Fails
/// only if memory runs out. It is up to the machine, so this has no contract: `test_same_path` of `profile_output.py`
/// in `tests/program/folders`, and `submit_outputs.py` of `tests/program/submissions` (a file in the folder), test it.
pub fn absolute_path<R: Files + AllocGlobal>(rt: &R, path: &str) -> Result<Text, AllocError> {
    match fs::canonicalize(rt, path) {
        Ok(absolute) => Ok(Text::from(absolute.into_string())),
        Err(error) if error.kind() == ErrorKind::OutOfMemory => Err(AllocError),
        Err(_) => Text::copy_of(rt.alloc(), path),
    }
}

/// Returns the path of the folder that a file lies in: what stands before the last `/`, `/` if nothing does, and `.`
/// for a name alone.
pub fn folder_of(path: &str) -> &str
    ensures { result.now ≡ folder_of path.now }
{
    match path.rsplit_once('/') {
        Some((folder, _)) => folder_named(folder),
        None => ".",
    }
}

/// Returns the folder whose path stands before the last `/` of a path: the root, if nothing does.
fn folder_named(folder: &str) -> &str
    ensures { result.now ≡ folder_by (Some (folder.now, [])) }
{
    if folder.is_empty() { "/" } else { folder }
}

/// Returns the last name of a path: what stands behind its last `/`, which may be empty, or all if it has none.
pub fn name_of(path: &str) -> &str
    ensures { result.now ≡ name_of path.now }
{
    match path.rsplit_once('/') {
        Some((_, name)) => name,
        None => path,
    }
}

/// Returns whether two files have the same path, by their names and by the absolute paths of their folders. These are
/// up to the machine, so that only the two plain cases have clauses; `test_same_path` of `profile_output.py` in
/// `tests/program/folders` has the third. Fails only if memory runs out.
pub fn is_same_place<R: Files + AllocGlobal>(
    rt: &R,
    first: &str,
    second: &str,
) -> Result<bool, AllocError>
    // One path is one place.
    ensures same { first.now ≡ second.now → result ≡ Ok true }
    // Two names are two places.
    ensures other { (name_of first.now ≡ name_of second.now → ⊥) → result ≡ Ok false }
{
    if first == second {
        return Ok(true);
    }
    if name_of(first) != name_of(second) {
        return Ok(false);
    }
    let one = absolute_path(rt, folder_of(first))?;
    let other = absolute_path(rt, folder_of(second))?;
    Ok(one.as_str() == other.as_str())
}
