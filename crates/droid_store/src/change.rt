//! What a command changes besides the replies.

use crate::rows::NodeState;
use droid_frame::{HashKind, HashValue, Method};

/// The change of a command. The reply is written with it, in one transaction.
#[derive(Clone, Copy)]
pub(crate) enum Change<'a> {
    /// No row but the reply.
    Reply,
    /// A new profile.
    Profile {
        profile: u32,
        scan_limit: u32,
        match_all: bool,
        hash: HashKind,
    },
    /// A new folder or file, and the count of its profile.
    Node {
        node: NewNode<'a>,
        modified: i64,
    },
    /// What was found in a file.
    Finish {
        profile: u32,
        file: u32,
        findings: FindingColumns<'a>,
    },
    /// A file that is deleted.
    Abandon {
        profile: u32,
        file: u32,
    },
}

/// A new folder or file, without its time of modification.
#[derive(Clone, Copy)]
pub(crate) struct NewNode<'a> {
    pub profile: u32,
    pub id: u32,
    pub parent: u32,
    pub state: NodeState,
    pub size: u64,
    pub piece_size: u32,
    pub name: &'a str,
    pub path: &'a str,
}

/// What was found in a file, as columns of its row.
#[derive(Clone, Copy)]
pub(crate) struct FindingColumns<'a> {
    pub method: Method,
    pub mismatch: bool,
    pub hash: HashValue,
    /// The identifiers of the formats, joined by a space.
    pub formats: &'a str,
}
