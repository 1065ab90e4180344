//! Checks whether a path is a folder that can be listed. What is there is up to the machine, so nothing here has a
//! contract: in `tests/program/folders`, `profile_arguments.py` has paths that are no folder, `unfinished_files.py` a
//! folder that may not be listed, and `folder_calls.py` lets each of the calls fail.

use droid_frame::Text;
use std::alloc::{AllocError, Global};
use std::fs;
use std::fs::Files;
use std::io::{ErrorKind, Read};

/// How many bytes the first names of a folder are read into. No name with its zero byte is longer than 256, so a name
/// fits; the number is tied to no other.
const FIRST_NAMES: usize = 4_096;

/// Returns whether there is a folder at this path that can be listed. Follows links. Says no where the path can't be
/// looked at, for whatever reason. The commands ask before a walk; `told_no_folder` says why if it is none.
pub fn is_folder<R: Files + AllocGlobal>(rt: &R, path: &str) -> bool {
    match fs::metadata(rt, path) {
        Ok(metadata) => metadata.is_dir() && why_unlisted(rt, path).is_none(),
        Err(_) => false,
    }
}

/// Returns why a folder can't be listed: it does not open, or its first names can't be read. Follows links. Returns
/// `None` also where memory runs out, since the walk says so then.
pub(crate) fn why_unlisted<R: Files + AllocGlobal>(rt: &R, path: &str) -> Option<ErrorKind> {
    let Ok(path) = with_slash(rt.alloc(), path) else {
        return None;
    };
    let mut names = [0_u8; FIRST_NAMES];
    match rt.open_dir(path.as_str()) {
        Ok(mut folder) => match folder.read(&mut names) {
            Ok(_) => None,
            Err(error) => Some(error.kind()),
        },
        Err(error) => Some(error.kind()),
    }
}

/// Returns a copy of a path with a `/` behind it, which makes the system follow a link. Fails only if memory runs out.
fn with_slash(alloc: Global, path: &str) -> Result<Text, AllocError> {
    let mut text = String::from_str(alloc, path)?;
    text.push('/')?;
    Ok(Text::from(text))
}
