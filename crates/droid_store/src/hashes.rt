//! Hashes in the tables: kinds as numbers, values as the bytes of a digest.

ghost use Rattle.std.specs.Prelude.{◌≡◌, IfSome, IsSome, IsTrue, Some, length};
ghost use Rattle.droid_frame.specs.Hashes.{IsHashValue, hash_kind_number};
ghost use Rattle.droid_frame.specs.declared.hash_kind.HashKind.{HashKind as HashKindValue};
ghost use Rattle.droid_frame.specs.declared.hash_value.HashValue.TheVariants as hashes;
ghost use Rattle.droid_store.specs.Ranges.{is_hash_length};
ghost use Rattle.droid_store.specs.Rows.{hash_of};

use droid_frame::{HashKind, HashValue};

/// Returns the number of the kind in the database, which is that in a frame.
pub(crate) fn kind_number(hash: HashKind) -> u32
    ensures { result ≡ hash_kind_number hash }
{
    u32::from(hash.number())
}

/// Returns the kind with this number, or `None` if no kind has it.
pub(crate) fn kind_of(number: u32) -> Option<HashKind>
    ensures { (kind : HashKindValue) → number ≡ hash_kind_number kind → result ≡ Some kind }
{
    match number {
        0 => Some(HashKind::Nothing),
        1 => Some(HashKind::Md5),
        2 => Some(HashKind::Sha256),
        _ => None,
    }
}

/// Returns the hash with this digest, or `None` for a digest of another length than 0, 16 or 32 bytes.
pub(crate) fn hash_of(bytes: &[u8]) -> Option<HashValue>
    ensures value { IfSome result (λ hash. hash ≡ hash_of bytes.now) }
    ensures some { IsTrue (is_hash_length (length bytes.now)) → IsSome result }
{
    if bytes.is_empty() {
        return Some(HashValue::Nothing);
    }
    match <[u8; 16]>::try_from(bytes) {
        Ok(digest) => Some(HashValue::Md5(digest)),
        Err(_) => long_hash_of(bytes),
    }
}

/// Reads a SHA-256 from 32 bytes. Returns `None` for any other number of bytes.
fn long_hash_of(bytes: &[u8]) -> Option<HashValue>
    ensures value { IfSome result (λ hash. (length bytes.now ≡ 32) × (hash ≡ hashes.Sha256 bytes.now)) }
    ensures some { length bytes.now ≡ 32 → IsSome result }
{
    match <[u8; 32]>::try_from(bytes) {
        Ok(digest) => Some(HashValue::Sha256(digest)),
        Err(_) => None,
    }
}

/// States a fact that the prover needs: each digest has the length of its kind, so that a file's hash can be read back.
/// Does nothing.
pub(crate) fn has_its_length(hash: HashValue)
    ensures { IsHashValue hash }
{
    match hash {
        HashValue::Nothing => {}
        HashValue::Md5(digest) => is_md5(digest),
        HashValue::Sha256(digest) => is_sha256(digest),
    }
}

/// States that a digest of 16 bytes has the length of an MD5. Does nothing.
fn is_md5(digest: [u8; 16])
    ensures { IsHashValue (hashes.Md5 digest) }
{}

/// States that a digest of 32 bytes has the length of a SHA-256. Does nothing.
fn is_sha256(digest: [u8; 32])
    ensures { IsHashValue (hashes.Sha256 digest) }
{}
