//! A hash as its hexadecimal digits. The 64 of them are those of a SHA-256, the longest hash: two for each of its 32
//! bytes, which the prover ties together.

ghost use Rattle.std.specs.Prelude.{◌≡◌, ◌≤◌, [], length};
ghost use Rattle.hex.specs.Hex.{encode_lower};
ghost use Rattle.droid_frame.specs.Hashes.{hash_bytes};

use droid_frame::HashValue;
use std::marker::Model;

/// A hash in lower-case hexadecimal digits. In contracts it is the list of the digits. It takes no memory.
#[derive(Drop)]
pub struct HashText {
    digits: [u8; 64],
    len: usize,
}

impl Model for HashText {
    ghost use Rattle.std.specs.Prelude.{List, ℕ, ◌≤◌, take};

    ghost Value = { List ℕ };

    ghost view = { λ hash. take hash.len hash.digits };

    ghost invariant = { λ hash. hash.len ≤ 64 };
}

impl HashText {
    /// Returns the digits of this hash: none if no hash was computed.
    pub fn of(hash: &HashValue) -> HashText
        ensures { result ≡ encode_lower (hash_bytes hash.now) }
    {
        match hash {
            HashValue::Nothing => HashText::none(),
            HashValue::Md5(digest) => HashText::of_md5(*digest),
            HashValue::Sha256(digest) => HashText::of_sha256(*digest),
        }
    }

    /// Returns no digits, for a folder or where no hash was computed.
    pub(crate) fn none() -> HashText
        ensures { result ≡ [] }
    {
        HashText {
            digits: [0; 64],
            len: 0,
        }
    }

    /// Writes the 32 digits of an MD5.
    fn of_md5(digest: [u8; 16]) -> HashText
        ensures { result ≡ encode_lower digest }
    {
        HashText::of_digest(digest.as_slice())
    }

    /// Writes the 64 digits of a SHA-256.
    fn of_sha256(digest: [u8; 32]) -> HashText
        ensures { result ≡ encode_lower digest }
    {
        HashText::of_digest(digest.as_slice())
    }

    /// Returns the digits of a digest of up to 32 bytes: two for each byte, the high half first.
    fn of_digest(digest: &[u8]) -> HashText
        requires { length digest.now ≤ 32 }
        ensures { result ≡ encode_lower digest.now }
    {
        let mut digits = [0; 64];
        let len = 2 * digest.len();
        hex::encode_to_slice(digest, &mut digits[..len]).unwrap();
        HashText { digits, len }
    }

    /// Returns the digits: 0, 32 or 64 bytes of ASCII.
    pub fn as_slice(&self) -> &[u8]
        ensures { result.now ≡ self.now }
    {
        &self.digits[..self.len]
    }
}
