//! Reads the text of a profile in its one spelling.

pub mod column_names;
pub mod own_puids;
pub mod profile_text;
pub mod reading;
pub mod row_formats;
pub mod row_tests;
pub mod text_check;
pub mod text_fault;
pub mod text_field;
pub mod text_law;
pub mod text_number;
pub mod text_path;
pub mod text_row;
