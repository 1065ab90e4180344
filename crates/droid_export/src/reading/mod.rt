//! Reads the CSV of a profile, and other lists of paths, as items.

pub mod consistency_law;
pub mod draft;
pub mod fault;
pub mod fields;
pub mod folder_numbers;
pub mod format_row;
pub mod moment;
pub mod plain_list;
pub mod plain_row;
pub mod profile;
pub mod row;
pub mod rows;
pub mod tag;
