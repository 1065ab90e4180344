//! The rows of the store, what its queries return, and the numbers for the state of a node.

ghost use Rattle.std.specs.Prelude.{◌≡◌};
ghost use Rattle.droid_store.specs.Encoded.{state_number};

use droid_frame::{Blob, HashKind, Record};

/// The reply to an accepted command. The store keeps it for as long as it lives, under client and number.
#[derive(Drop)]
pub struct Entry {
    /// The client that sent the command.
    pub client: u32,
    /// The number that the client gave it, below 2^63.
    pub number: u64,
    /// The version of the frame of the command.
    pub version: u8,
    /// The mark of the command: the digest of its kind and body, by which a repeat is recognised.
    pub mark: [u8; 16],
    /// The kind of the reply.
    pub kind: u8,
    /// The body of the reply.
    pub body: Blob,
}

/// A profile: its options and how many nodes it has accepted.
#[derive(Clone, Copy, PartialEq, Eq)]
pub struct ProfileRow {
    /// How many bytes at the beginning and at the end of a file are searched.
    pub scan_limit: u32,
    /// Whether extensions also match formats that have a signature.
    pub match_all: bool,
    /// How many nodes it has accepted. Abandoned ones count too.
    pub nodes: u32,
    /// The hash that its files get.
    pub hash: HashKind,
}

/// The state of a node.
#[derive(Clone, Copy, PartialEq, Eq)]
pub enum NodeState {
    /// A folder.
    Folder,
    /// A file that is not finished: its pieces are still expected.
    Unfinished,
    /// A file that was identified.
    Finished,
}

impl NodeState {
    /// Returns the number of the state in the database. `FINISH_NODE` of `statements` sets 2, `LIST_RECORDS` leaves out
    /// 1, and `state_of` of `row_reader` reads them back; the prover ties all of these.
    pub(crate) fn number(self) -> u32
        ensures { result ≡ state_number self }
    {
        match self {
            NodeState::Folder => 0,
            NodeState::Unfinished => 1,
            NodeState::Finished => 2,
        }
    }
}

/// A folder or a file that was not abandoned.
#[derive(Drop)]
pub struct NodeRow {
    /// Its state.
    pub state: NodeState,
    /// The length in bytes of each piece of the file but the last. A folder has 0.
    pub piece_size: u32,
    /// What the export shows of it. An unfinished file has no method, no formats, no mismatch and no hash yet.
    pub item: Record,
}

/// How many rows the store has.
#[derive(Clone, Copy, PartialEq, Eq)]
pub struct Counts {
    /// The number of profiles.
    pub profiles: u64,
    /// The number of unfinished files of all profiles.
    pub unfinished: u64,
    /// The number of accepted commands.
    pub accepted: u64,
}
