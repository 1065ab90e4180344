//! The folder in which the process was started, to which it goes back from a listed folder.
//!
//! Nearly nothing here has a contract, since working folders are up to the machine:
//! `tests/program/folders/working_folder.py` tests it, with each change of the working folder failing in turn.

ghost use Rattle.std.specs.Prelude.{◌≢◌};

use crate::open_folder::{OpenFolder, is_same_folder, path_through};
use droid_frame::Text;
use std::alloc::Global;
use std::env::Env;
use std::fs::{File, Files, OpenFile};
use std::{env, fs};

/// A folder of `/proc` in which nothing can be created, and no file is found by a plain name.
const NOWHERE: &str = "/proc/thread-self/fdinfo";

/// Which folder is the process's working folder.
#[derive(Clone, Copy, PartialEq)]
pub(crate) enum Stand {
    /// The folder in which the process was started.
    Start,
    /// The folder that was listed last.
    Inside,
    /// The process could not go back to the folder in which it was started.
    Lost,
}

/// The folder in which the process was started.
pub(crate) struct StartFolder {
    /// The path of the open folder below `/proc`.
    through: Text,
    /// Keeps the folder open.
    _file: File,
}

// Written by hand, so that the crates above do not prove again how each part is dropped.
impl Drop for StartFolder {
    fn drop(self) {
        let StartFolder {
            through: _through,
            _file: _file,
        } = self;
    }
}

impl StartFolder {
    /// Opens the working folder. Returns `None` if it can't be opened, if the process can't go to it through `/proc`,
    /// which is tried here, or if memory runs out: then `enter` goes nowhere. `process` is the name of this process
    /// below `/proc`.
    pub fn open<R: Files<File = File> + Env>(
        rt: &R,
        alloc: Global,
        process: &str,
    ) -> Option<StartFolder> {
        let Ok(file) = fs::open(rt, ".") else {
            return None;
        };
        let Ok(through) = path_through(alloc, process, &file) else {
            return None;
        };
        let (Ok(there), Ok(found)) = (fs::metadata(rt, through.as_str()), file.metadata()) else {
            return None;
        };
        if !is_same_folder(&there, &found) {
            return None;
        }
        match env::set_current_dir(rt, through.as_str()) {
            Ok(()) => Some(StartFolder {
                through,
                _file: file,
            }),
            Err(_) => None,
        }
    }
}

/// Makes a listed folder the working folder, if the process can go back from there, that is, if `start` is known.
/// Returns where it is then: `Inside`, or `Start` if it stayed.
pub(crate) fn enter<R: Env>(rt: &R, start: &Option<StartFolder>, folder: &OpenFolder) -> Stand {
    if start.is_none() {
        return Stand::Start;
    }
    match env::set_current_dir(rt, folder.through()) {
        Ok(()) => Stand::Inside,
        Err(_) => Stand::Start,
    }
}

/// Goes back from a listed folder to the one in which the process was started. If that fails, goes to where no relative
/// path leads to a file: to `NOWHERE`, or else to `/`. Returns where the process is then: `Start` or `Lost`. The clause
/// holds that it says no more than these two.
pub(crate) fn go_back_to<R: Env>(rt: &R, start: &Option<StartFolder>) -> Stand
    ensures { result ≢ Stand.Inside }
{
    if let Some(start) = start {
        if env::set_current_dir(rt, start.through.as_str()).is_ok() {
            return Stand::Start;
        }
    }
    if env::set_current_dir(rt, NOWHERE).is_err() {
        let _ = env::set_current_dir(rt, "/");
    }
    Stand::Lost
}
