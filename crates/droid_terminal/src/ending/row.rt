//! A row of the table of faults.

use crate::ending::status::Status;

/// A fault of a command: how it is named, with which status the program ends, and what is said of it.
#[derive(Clone, Copy)]
pub struct Row {
    /// The exit status.
    pub status: Status,
    /// The name, behind `fault: `.
    pub name: &'static str,
    /// What happened, and what to do: up to the detail, if the sentence has one.
    pub text: &'static str,
    /// What stands behind the detail.
    pub rest: &'static str,
}
