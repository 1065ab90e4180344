//! The help texts of the program and of its commands.

pub mod compaction_help;
pub mod conversion_help;
pub mod help;
pub mod identify_help;
pub mod profile_help;
pub mod report_help;
pub mod stream_help;
pub mod submit_help;
pub mod verify_help;
