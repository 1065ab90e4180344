//! The storage of a database in memory: its tables and indexes, each a list of rows.
//!
//! Copies of a list share their rows, and every part of the tree that later edits do not change. So a transaction
//! writes to a copy, and a rollback drops it. From the rows up: `packed_row`, `node` (a balanced tree), `entries` (a
//! list), `tree` (a table or index), `forest` (all of them), `storage` (with its transaction).
#![tactic(auto)]

mod cursor;
mod edit;
mod entries;
mod forest;
mod node;
mod packed_row;
mod probe;
mod storage;
mod tree;

pub use entries::Entries;
pub use packed_row::PackedRow;
pub use storage::TreeStore;
