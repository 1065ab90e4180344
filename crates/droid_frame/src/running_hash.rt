//! Hashes of bytes that come in parts.

ghost use Rattle.std.specs.Prelude.{◌≡◌, ◌++◌, [], ℕ, List};
ghost use Rattle.droid_frame.specs.RunningHashes.{running_kind, HoldsAll};
ghost use Rattle.droid_frame.specs.Hashes.{hash};

use crate::hash_kind::HashKind;
use crate::hash_value::HashValue;
use md5::{Digest as Md5Digest, Md5};
use sha2::{Digest as Sha2Digest, Sha256};

/// The hash, so far, of bytes that come in parts.
#[derive(Drop)]
pub enum RunningHash {
    /// No hash.
    Nothing,
    /// The state of an MD5 (RFC 1321).
    Md5(Md5),
    /// The state of a SHA-256 (FIPS 180-4).
    Sha256(Sha256),
}

impl RunningHash {
    /// Starts a hash of this kind, of no bytes yet.
    pub fn of(kind: HashKind) -> RunningHash
        ensures kind { running_kind result ≡ kind }
        ensures holds { HoldsAll result [] }
    {
        match kind {
            HashKind::Nothing => RunningHash::Nothing,
            HashKind::Md5 => RunningHash::Md5(Md5::new()),
            HashKind::Sha256 => RunningHash::Sha256(Sha256::new()),
        }
    }

    /// Adds the next bytes, behind those so far. Without a hash it does nothing.
    pub fn update(&mut self, bytes: &[u8])
        ensures kind { running_kind self.new ≡ running_kind self.old }
        ensures holds { (before : List ℕ) → HoldsAll self.old before → HoldsAll self.new (before ++ bytes.now) }
    {
        match self {
            RunningHash::Nothing => {}
            RunningHash::Md5(hasher) => hasher.update(bytes),
            RunningHash::Sha256(hasher) => hasher.update(bytes),
        }
    }

    /// Returns the hash of the bytes so far, and starts again with no bytes. Without a hash it returns `Nothing`.
    pub fn finish(&mut self) -> HashValue
        ensures value { (before : List ℕ) → HoldsAll self.old before → result ≡ hash (running_kind self.old) before }
        ensures kind { running_kind self.new ≡ running_kind self.old }
        ensures holds { HoldsAll self.new [] }
    {
        match self {
            RunningHash::Nothing => HashValue::Nothing,
            RunningHash::Md5(hasher) => HashValue::Md5(hasher.finalize_reset()),
            RunningHash::Sha256(hasher) => HashValue::Sha256(hasher.finalize_reset()),
        }
    }
}
