//! How a tree is profiled.

use droid_frame::HashKind;

/// How a tree is profiled.
#[derive(Clone, Copy)]
pub struct Options {
    /// How many bytes at each end of a file are scanned: 1 to 65,536.
    pub scan_limit: u32,
    /// Whether a format that has signatures is also identified by extension.
    pub match_all: bool,
    /// Which hash each file gets.
    pub hash: HashKind,
}
