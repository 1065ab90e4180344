//! What a store gets and what it shows, as rows of tables.

use droid_frame::{HashKind, Method};

/// A reply: its client, number and version, the byte that its mark repeats, its kind and its body.
pub type Kept<'a> = (u32, u64, u8, u8, u8, &'a [u8]);

/// The kinds of replies.
pub const MADE: u8 = 129;

pub const NODE: u8 = 130;

pub const TAKEN: u8 = 131;

pub const FINISHED: u8 = 132;

pub const ABANDONED: u8 = 133;

/// The options of a profile: how many bytes are searched, whether extensions also match formats with a signature, and
/// the hash of its files.
pub type Options = (u32, bool, HashKind);

/// A node's profile, number and parent, when it was modified, its name and its path.
pub type Place<'a> = (u32, u32, u32, i64, &'a str, &'a str);

/// The length of a file and of its pieces. Both are 0 for a folder; a file has a piece size above 0 here.
pub type Sizes = (u64, u32);

/// What is found in a file: the method, whether its extension contradicts it, the bytes of its hash, and its
/// identifiers, separated by spaces.
pub type Found<'a> = (Method, bool, &'a [u8], &'a str);

/// What is shown of a folder, and of a file before it is finished.
pub const NOTHING: Found<'static> = (Method::Unidentified, false, b"", "");

/// A folder, or a file with what is found in it.
pub type Node<'a> = (Place<'a>, Sizes, Found<'a>);

/// What a command changes besides its reply.
#[derive(Clone, Copy)]
pub enum Change<'a> {
    /// The profile with this number is made.
    Profile(u32, Options),
    Node(Node<'a>),
    Piece,
    Finish(Node<'a>),
    Abandon(Node<'a>),
}
