//! The six commands: the reply to each, and what an accepted one changes.
//!
//! The clause `answers` says that the result is that of the request's `judge_..` in droid_core_spec, or that memory ran
//! out and nothing changed. So a command refuses with what the comment of its function names, in the order of
//! `judge_..`, and Memory may come instead at any moment. The commit is the last call that can fail.
//!
//! The callers, `service/answers.rt` and droid_recovery, look first whether a reply is kept under the stamp's client
//! and number: here none is. Numbers are below 2^63, as `small` requires, since a row has no room for a larger one; a
//! frame with one is malformed.

pub mod abandonment;
pub mod completion;
pub mod destination;
pub mod new_files;
pub mod new_folders;
pub mod new_profiles;
pub mod pieces;
