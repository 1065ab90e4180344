//! The reasons for a refused request, and the limits that one of them names. `reading/replies/refusals.rt` reads both
//! back from their numbers.

ghost use Rattle.std.specs.Prelude.{◌≡◌};
ghost use Rattle.droid_frame.specs.Refusals.{refusal_number, limit_number};

use std::alloc::AllocError;

/// A limit of the service.
#[derive(Clone, Copy, PartialEq, Eq)]
pub enum Limit {
    /// The number of profiles in the service.
    Profiles,
    /// The number of nodes ever accepted in one profile.
    Nodes,
    /// The number of unfinished files in the whole service.
    Unfinished,
}

impl Limit {
    /// Returns the number of the limit in a reply's body, 1 to 3.
    pub fn number(self) -> u8
        ensures { result ≡ limit_number self }
    {
        match self {
            Limit::Profiles => 1,
            Limit::Nodes => 2,
            Limit::Unfinished => 3,
        }
    }
}

/// Why the service refuses a request. Each reason has a number from 1 to 19 (this project's own). A refused request
/// changes nothing, and the service does not keep the refusal. If the client sends the request again, the service
/// judges it anew.
#[derive(Clone, Copy, PartialEq, Eq)]
pub enum Refusal {
    /// The version or kind is unknown, the body is invalid, or the request's number is 2^63 or more.
    Malformed,
    /// The client used this number for another request that was accepted.
    NumberReused,
    /// There is no such profile.
    NoSuchProfile,
    /// There is no such node, or it was abandoned.
    NoSuchNode,
    /// The parent is a file.
    NotAFolder,
    /// The node is a folder.
    NotAFile,
    /// The name is empty, longer than 255 bytes, `.` or `..`, or contains a `/` or a zero byte.
    BadName,
    /// The path would be longer than 4,096 bytes.
    PathTooLong,
    /// The parent already contains a node of exactly this name.
    NameTaken,
    /// A number in the request is out of range.
    BadOption,
    /// The file's size or its number of pieces is over the limit.
    TooLarge,
    /// The file is already finished.
    AlreadyFinished,
    /// The piece's index is past the last piece, or its length is wrong for its index.
    BadPiece,
    /// The service already has this piece.
    PieceHeld,
    /// The piece's index is 16 or more past the first missing piece.
    TooFarAhead {
        /// The index of the first missing piece.
        missing: u32,
    },
    /// A piece of the file is missing.
    Incomplete {
        /// The index of the first missing piece.
        missing: u32,
    },
    /// The request would exceed a limit of the service.
    LimitReached(Limit),
    /// The service is out of memory.
    Memory,
    /// The store failed for another reason.
    Store,
}

impl Refusal {
    /// Returns the number of the reason, 1 to 19.
    pub fn number(self) -> u8
        ensures { result ≡ refusal_number self }
    {
        match self {
            Refusal::Malformed => 1,
            Refusal::NumberReused => 2,
            Refusal::NoSuchProfile => 3,
            Refusal::NoSuchNode => 4,
            Refusal::NotAFolder => 5,
            Refusal::NotAFile => 6,
            Refusal::BadName => 7,
            Refusal::PathTooLong => 8,
            Refusal::NameTaken => 9,
            Refusal::BadOption => 10,
            Refusal::TooLarge => 11,
            Refusal::AlreadyFinished => 12,
            Refusal::BadPiece => 13,
            Refusal::PieceHeld => 14,
            Refusal::TooFarAhead { missing: _ } => 15,
            Refusal::Incomplete { missing: _ } => 16,
            Refusal::LimitReached(_) => 17,
            Refusal::Memory => 18,
            Refusal::Store => 19,
        }
    }
}

impl From<AllocError> for Refusal {
    ghost use Rattle.droid_frame.specs.declared.refusal.Refusal.TheVariants.{Memory};

    ghost from_gives = { λ _ refusal. refusal ≡ Memory };

    /// Reports out of memory as `Memory`, so that `?` can be used on an allocation.
    fn from(_: AllocError) -> Refusal {
        Refusal::Memory
    }
}
