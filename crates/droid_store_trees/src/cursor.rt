//! A position in a tree, and the direction of reading from there.

use sqlite_trees::store::Direction;

/// A cursor. Forward, it still has the entries from `at` on to read, and backward those before `at`.
#[derive(Clone, Copy)]
pub(crate) struct Cursor {
    pub tree: usize,
    pub at: usize,
    pub direction: Direction,
}
