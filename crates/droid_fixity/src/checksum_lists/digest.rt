//! Reads a digest in hexadecimal digits.

ghost use Rattle.std.specs.Prelude.{◌≡◌};
ghost use Rattle.droid_fixity.specs.Digests as digests;

use droid_frame::HashValue;
use hex::FromHex;

/// Returns the hash that hexadecimal digits of either case stand for: 32 digits are an MD5, 64 a SHA-256. `None` for
/// another number of bytes, or if one is no digit.
pub(crate) fn hash_of(digits: &[u8]) -> Option<HashValue>
    ensures { result ≡ digests.hash_of digits.now }
{
    if digits.len() == 32 {
        return md5_of(digits);
    }
    if digits.len() == 64 {
        return sha256_of(digits);
    }
    None
}

/// Reads an MD5 from exactly 32 hexadecimal digits of either case, or returns `None`.
pub(crate) fn md5_of(digits: &[u8]) -> Option<HashValue>
    ensures { result ≡ digests.md5_of digits.now }
{
    match <[u8; 16] as FromHex>::from_hex(digits) {
        Ok(bytes) => Some(HashValue::Md5(bytes)),
        Err(_) => None,
    }
}

/// Reads a SHA-256 from exactly 64 hexadecimal digits of either case, or returns `None`.
pub(crate) fn sha256_of(digits: &[u8]) -> Option<HashValue>
    ensures { result ≡ digests.sha256_of digits.now }
{
    match <[u8; 32] as FromHex>::from_hex(digits) {
        Ok(bytes) => Some(HashValue::Sha256(bytes)),
        Err(_) => None,
    }
}
