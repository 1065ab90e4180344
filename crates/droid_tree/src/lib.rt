//! A tree of folders and files, as it is read.
//!
//! The caller supplies the [`Tree`]: on a disk or in memory. This crate lists its folders in order, reads its files
//! piece by piece and counts what is in it. Nothing of a service is in it.
#![tactic(auto)]

mod fault;
mod folder_entry;
mod listing;
mod name_order;
mod order;
mod pending_folder;
mod pieces;
mod skip_reason;
mod tree;
mod tree_size;
mod watcher;

pub use fault::{TreeFault, WalkFault};
pub use folder_entry::{EntryKind, FolderEntry};
pub use listing::{Listing, name_of, read_folder};
pub use name_order::order_of_names;
pub use pending_folder::{NODE_LIMIT, PendingFolder, TURNS, add_pending, only_the_top, path_below};
pub use pieces::{begin_of, next_len, read_piece, see_end};
pub use skip_reason::{Skipped, unread};
pub use tree::Tree;
pub use tree_size::{Counted, count};
pub use watcher::Watcher;
