//! The two queries, Status and Export: they change nothing.

pub mod export_parts;
pub mod kept_text;
pub mod progress;
pub mod same_filters;
