//! The forms in which a file is printed.

pub mod basis_text;
pub mod csv_rows;
pub mod file_lines;
pub mod json_basis;
pub mod json_line;
pub mod json_text;
pub mod kind_name;
pub mod line;
pub mod match_text;
pub mod sf_document;
pub mod sf_file;
pub mod shown_file;
pub mod shown_format;
pub mod why_lines;
