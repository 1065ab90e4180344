//! Differences between a list and what was found.

use droid_frame::Changes;

/// A difference between the items of a list and those that were found. Items are named by their places in the two
/// inventories.
#[derive(Clone, Copy)]
pub enum Difference {
    /// A path that both have, with another kind, length or hash.
    Changed {
        /// Its place in the list.
        listed: usize,
        /// Its place among the items found.
        found: usize,
        /// What differs.
        changes: Changes,
    },
    /// A path of the list that was not found.
    Missing {
        /// Its place in the list.
        listed: usize,
    },
    /// A path that was found and that the list does not have.
    New {
        /// Its place among the items found.
        found: usize,
    },
    /// A file that was found under another path: the only missing and the only new file with this hash.
    Moved {
        /// Its place in the list.
        listed: usize,
        /// Its place among the items found.
        found: usize,
    },
    /// A path that both have, of which only the moment of the last change differs.
    Touched {
        /// Its place in the list.
        listed: usize,
        /// Its place among the items found.
        found: usize,
    },
}
