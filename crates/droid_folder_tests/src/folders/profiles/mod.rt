//! Profiles of trees in memory. (tests/program/folders has those of folders of this machine.)

mod memory;
mod page;
mod skipped_entries;
mod small_trees;
mod stopped_writers;
mod tree_counts;
