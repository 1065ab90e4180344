//! The unfinished files of a service, each with the pieces that were taken of it.

pub mod fault;
pub mod file;
pub mod files;
pub mod finding;
pub mod whole;
