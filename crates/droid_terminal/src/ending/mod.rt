//! How a command ends, with the table of its faults.

pub mod about;
pub mod command_ending;
pub mod detail;
pub mod fault;
pub mod faults;
pub mod folder;
pub mod output;
pub mod row;
pub mod status;
