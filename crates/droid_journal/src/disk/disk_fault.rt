//! Why a journal's file could not be opened.

use std::io::ErrorKind;

/// Why a journal's file could not be opened.
#[derive(Clone, Copy)]
pub enum DiskFault {
    /// Another process has it open.
    InUse,
    /// It is there, but is no regular file.
    NotAFile,
    /// It could not be opened, made, locked or synced.
    Unopened(ErrorKind),
}
