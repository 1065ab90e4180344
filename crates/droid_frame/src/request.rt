//! Requests of clients.

ghost use Rattle.std.specs.Prelude.{◌≡◌};
ghost use Rattle.droid_frame.specs.Bodies.{request_kind};

use crate::blob::Blob;
use crate::filter::Filter;
use crate::hash_kind::HashKind;
use crate::text::Text;

/// One request.
#[derive(Drop)]
pub enum Request {
    /// Create a profile.
    CreateProfile {
        /// How many bytes at each end of a file are scanned for signatures: 1 to 65,536.
        scan_limit: u32,
        /// Whether a format that has signatures may also be found by its extension.
        match_all: bool,
        /// The hash of its files. A frame of version 1 can carry MD5 only.
        hash: HashKind,
    },
    /// Add a folder to a profile.
    AddFolder {
        /// The number of the profile.
        profile: u32,
        /// The number of the folder that contains it, or 0 at the top level.
        parent: u32,
        /// When it was modified, in seconds since 1970-01-01T00:00:00 UTC; negative before that.
        modified: i64,
        /// The folder's own name, without its path.
        name: Text,
    },
    /// Add a file to a profile. Its bytes follow in pieces.
    AddFile {
        /// The number of the profile.
        profile: u32,
        /// The number of the folder that contains it, or 0 at the top level.
        parent: u32,
        /// When it was modified, in seconds since 1970-01-01T00:00:00 UTC; negative before that.
        modified: i64,
        /// The size of the file in bytes.
        size: u64,
        /// The size in bytes of each piece but the last: 1 to 1,048,576 in version 1, 1 to 4,194,304 in version 2.
        piece_size: u32,
        /// The file's own name, without its path.
        name: Text,
    },
    /// Send one piece of a file.
    Piece {
        /// The number of the profile.
        profile: u32,
        /// The number of the file.
        file: u32,
        /// The index of the piece, counted from 0.
        index: u32,
        /// The bytes of the piece.
        bytes: Blob,
    },
    /// Finish a file that has all its pieces.
    Finish {
        /// The number of the profile.
        profile: u32,
        /// The number of the file.
        file: u32,
    },
    /// Abandon an unfinished file.
    Abandon {
        /// The number of the profile.
        profile: u32,
        /// The number of the file.
        file: u32,
    },
    /// Ask which pieces of a file the service has.
    Status {
        /// The number of the profile.
        profile: u32,
        /// The number of the file.
        file: u32,
    },
    /// Ask for part of the text of a profile's export.
    Export {
        /// The number of the profile.
        profile: u32,
        /// The offset in the text of the first byte asked for, counted from 0.
        from: u64,
        /// The largest number of bytes to return: 1 to 1,048,576.
        max: u32,
        /// The records to export.
        filter: Filter,
    },
}

impl Request {
    /// Returns the kind of the request's frame, 1 to 8.
    pub fn kind(&self) -> u8
        ensures { result ≡ request_kind self.now }
    {
        match self {
            Request::CreateProfile { .. } => 1,
            Request::AddFolder { .. } => 2,
            Request::AddFile { .. } => 3,
            Request::Piece { .. } => 4,
            Request::Finish { .. } => 5,
            Request::Abandon { .. } => 6,
            Request::Status { .. } => 7,
            Request::Export { .. } => 8,
        }
    }
}
