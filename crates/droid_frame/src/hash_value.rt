//! The hash of one file: its kind, and its digest.

ghost use Rattle.std.specs.Prelude.{◌≡◌};
ghost use Rattle.droid_frame.specs.Hashes.{hash_bytes, hash_value_kind};

use crate::hash_kind::HashKind;

/// The hash of a file's bytes.
#[derive(Clone, Copy, PartialEq, Eq)]
pub enum HashValue {
    /// No hash was computed.
    Nothing,
    /// The MD5 of the bytes.
    Md5([u8; 16]),
    /// The SHA-256 of the bytes.
    Sha256([u8; 32]),
}

impl HashValue {
    /// Returns the kind of hash. That no hash was computed is a kind too.
    pub fn kind(self) -> HashKind
        ensures { result ≡ hash_value_kind self }
    {
        match self {
            HashValue::Nothing => HashKind::Nothing,
            HashValue::Md5(_) => HashKind::Md5,
            HashValue::Sha256(_) => HashKind::Sha256,
        }
    }

    /// Returns the digest, 16 bytes of an MD5 or 32 of a SHA-256, or no bytes if no hash was computed.
    pub fn as_slice(&self) -> &[u8]
        ensures { result.now ≡ hash_bytes self.now }
    {
        match self {
            HashValue::Nothing => &[],
            HashValue::Md5(digest) => digest.as_slice(),
            HashValue::Sha256(digest) => digest.as_slice(),
        }
    }
}
