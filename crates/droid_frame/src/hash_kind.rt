//! The kinds of hash that a profile can compute.

ghost use Rattle.std.specs.Prelude.{◌≡◌};
ghost use Rattle.droid_frame.specs.Hashes.{hash_kind_number};

/// The kind of hash that a profile computes for each finished file.
#[derive(Clone, Copy, PartialEq, Eq)]
pub enum HashKind {
    /// No hash.
    Nothing,
    /// MD5 (RFC 1321).
    Md5,
    /// SHA-256 (FIPS 180-4).
    Sha256,
}

impl HashKind {
    /// Returns the number of the kind, 0 to 2, in frames and in the store. `hash_kind_at` of `reading/fields/hashes.rt`
    /// reads it back.
    pub fn number(self) -> u8
        ensures { result ≡ hash_kind_number self }
    {
        match self {
            HashKind::Nothing => 0,
            HashKind::Md5 => 1,
            HashKind::Sha256 => 2,
        }
    }
}
