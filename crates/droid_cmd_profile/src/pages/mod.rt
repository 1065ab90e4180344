//! The page of a CSV that was just written, or of a file, as the command `report` makes it.

pub mod about;
pub mod csv_page;
pub mod csv_report;
pub mod csv_told;
pub mod page_fault;
pub mod page_writer;
pub mod profile_report;
pub mod report_ending;
