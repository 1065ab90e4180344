//! What is taken of a tree's entries, folder by folder, before their files are read.

pub mod entries;
pub mod entry_order;
pub mod folders;
pub mod refusal;
pub mod row;
pub mod scan;
