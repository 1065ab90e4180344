//! Replies of the service.

ghost use Rattle.std.specs.Prelude.{◌≡◌, IfOk};
ghost use Rattle.droid_frame.specs.Replies.{is_refused, reply_kind};

use crate::blob::Blob;
use crate::hash_value::HashValue;
use crate::method::Method;
use crate::refusal::Refusal;
use crate::texts::Texts;
use std::alloc::{AllocError, Global};

/// The limit on the format identifiers in a Finished. It is `puids_limit` of `specs/Limits.antt`; the law
/// `constants_are_the_limits` ties the two.
pub const PUIDS_LIMIT: usize = 4_096;

/// The limit on the bytes of one format identifier. It is `puid_limit` of `specs/Limits.antt`; the law
/// `constants_are_the_limits` ties the two.
pub const PUID_LIMIT: usize = 32;

/// The limit on the bytes of the export's text in a Part. It is `part_limit` of `specs/Limits.antt`; the law
/// `constants_are_the_limits` ties the two.
pub const PART_LIMIT: usize = 1_048_576;

/// The reply to one request.
#[derive(Drop)]
pub enum Reply {
    /// The profile was created.
    Made {
        /// The number of the profile. The service numbers profiles from 1, in order of acceptance.
        profile: u32,
    },
    /// The folder or file was added.
    Node {
        /// The number of the node. Each profile numbers its nodes from 1, in order of acceptance.
        id: u32,
    },
    /// The piece was accepted.
    Taken {
        /// The number of the file's pieces that the service has, this one included.
        held: u32,
    },
    /// The file is finished and identified.
    Finished {
        /// How the formats were found.
        method: Method,
        /// Whether none of the file's formats lists its extension.
        mismatch: bool,
        /// The hash of the file's bytes. A frame of version 1 can carry an MD5 only.
        hash: HashValue,
        /// The identifiers (PUIDs) of the formats, in the registry's order: at most [`PUIDS_LIMIT`], each of 1 to
        /// [`PUID_LIMIT`] bytes.
        puids: Texts,
    },
    /// The unfinished file was abandoned.
    Abandoned,
    /// The pieces of a file that the service has.
    Progress {
        /// The number of pieces that the service has.
        held: u32,
        /// The index of the first missing piece, or the number of pieces if none is missing.
        missing: u32,
    },
    /// Part of the export's text.
    Part {
        /// The number of commands that the service had accepted by then.
        as_of: u64,
        /// The length of the whole text in bytes.
        total: u64,
        /// The bytes of this part, at most [`PART_LIMIT`].
        bytes: Blob,
    },
    /// The request was refused, and changed nothing.
    Refused(Refusal),
}

impl Reply {
    /// Returns the kind of the reply's frame, 129 to 136.
    pub fn kind(&self) -> u8
        ensures { result ≡ reply_kind self.now }
    {
        match self {
            Reply::Made { .. } => 129,
            Reply::Node { .. } => 130,
            Reply::Taken { .. } => 131,
            Reply::Finished { .. } => 132,
            Reply::Abandoned => 133,
            Reply::Progress { .. } => 134,
            Reply::Part { .. } => 135,
            Reply::Refused(_) => 136,
        }
    }

    /// Returns whether the reply is a refusal.
    pub fn is_refused(&self) -> bool
        ensures { result ≡ is_refused self.now }
    {
        matches!(self, Reply::Refused(_))
    }

    /// Copies the value, with its identifiers or bytes. Fails only when out of memory.
    pub fn try_clone(&self, alloc: Global) -> Result<Reply, AllocError>
        ensures { IfOk result (λ copy. copy ≡ self.now) }
    {
        Ok(match self {
            Reply::Made { profile } => Reply::Made { profile: *profile },
            Reply::Node { id } => Reply::Node { id: *id },
            Reply::Taken { held } => Reply::Taken { held: *held },
            Reply::Finished {
                method,
                mismatch,
                hash,
                puids,
            } => Reply::Finished {
                method: *method,
                mismatch: *mismatch,
                hash: *hash,
                puids: puids.try_clone(alloc)?,
            },
            Reply::Abandoned => Reply::Abandoned,
            Reply::Progress { held, missing } => Reply::Progress {
                held: *held,
                missing: *missing,
            },
            Reply::Part {
                as_of,
                total,
                bytes,
            } => Reply::Part {
                as_of: *as_of,
                total: *total,
                bytes: bytes.try_clone(alloc)?,
            },
            Reply::Refused(refusal) => Reply::Refused(*refusal),
        })
    }
}
