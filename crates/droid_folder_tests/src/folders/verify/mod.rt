//! The comparison of trees in memory with lists, by `verify_tree` and `verify_listing`.

mod changed_tree;
mod memory;
mod page;
