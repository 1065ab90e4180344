//! The page of a report: its tables, with bars.

pub mod cells;
pub mod class_names;
pub mod class_rows;
pub mod cut;
pub mod figures;
pub mod notes;
pub mod orders;
pub mod page;
pub mod picture;
pub mod rows;
pub mod table;
pub mod tables;
