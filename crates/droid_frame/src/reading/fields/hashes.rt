//! Readers of hash kinds and digests, from the front of the bytes. Each returns the value and the bytes after it, or
//! `None` if the bytes are too few or have no such kind.

ghost use Rattle.std.specs.Prelude.{◌≡◌};
ghost use Rattle.std.specs.Option.{option_map};
ghost use Rattle.droid_frame.specs.HashFields.{digest_at, hash_kind_at, hash_value_at, run_at, carried_kind_at};

use crate::hash_kind::HashKind;
use crate::hash_value::HashValue;

/// Reads the kind of a hash in a body of this version. Version 1 has no byte for it, and means MD5: nothing is read.
/// Any other version has one byte.
#[tactic(auto, unfolding(crate::specs::HashFields::carried_kind_at))]
pub(crate) fn carried_kind_at(version: u8, bytes: &[u8]) -> Option<(HashKind, &[u8])>
    ensures { option_map (λ x. (x.0, x.1.now)) result ≡ carried_kind_at version bytes.now }
{
    if version == 1 {
        return Some((HashKind::Md5, bytes));
    }
    hash_kind_at(bytes)
}

/// Reads the hash of a Finished: its kind, if the version has a byte for it, and then as many bytes of digest as the
/// kind has.
#[tactic(auto, unfolding(crate::specs::HashFields::digest_at))]
pub(crate) fn digest_at(version: u8, bytes: &[u8]) -> Option<(HashValue, &[u8])>
    ensures { option_map (λ x. (x.0, x.1.now)) result ≡ digest_at version bytes.now }
{
    let (kind, rest) = carried_kind_at(version, bytes)?;
    hash_value_at(kind, rest)
}

/// Reads a hash's kind from its number in one byte, 0 to 2. `None` for any other byte. `HashKind::number` has the same
/// numbers; the prover ties both to `hash_kind_number`.
#[tactic(auto, unfolding(crate::specs::HashFields::hash_kind_at))]
fn hash_kind_at(bytes: &[u8]) -> Option<(HashKind, &[u8])>
    ensures { option_map (λ x. (x.0, x.1.now)) result ≡ hash_kind_at bytes.now }
{
    match bytes {
        [0, rest @ ..] => Some((HashKind::Nothing, rest)),
        [1, rest @ ..] => Some((HashKind::Md5, rest)),
        [2, rest @ ..] => Some((HashKind::Sha256, rest)),
        _ => None,
    }
}

/// Reads a digest of this kind: as many bytes as the kind has, 0, 16 or 32.
#[tactic(auto, unfolding(crate::specs::HashFields::hash_value_at))]
fn hash_value_at(kind: HashKind, bytes: &[u8]) -> Option<(HashValue, &[u8])>
    ensures { option_map (λ x. (x.0, x.1.now)) result ≡ hash_value_at kind bytes.now }
{
    match kind {
        HashKind::Nothing => Some((HashValue::Nothing, bytes)),
        HashKind::Md5 => {
            let (digest, rest) = md5_at(bytes)?;
            Some((HashValue::Md5(digest), rest))
        }
        HashKind::Sha256 => {
            let (digest, rest) = sha256_at(bytes)?;
            Some((HashValue::Sha256(digest), rest))
        }
    }
}

/// Reads the 16 bytes of an MD5. `None` if fewer are left.
#[tactic(auto, unfolding(crate::specs::HashFields::run_at))]
fn md5_at(bytes: &[u8]) -> Option<([u8; 16], &[u8])>
    ensures { option_map (λ x. (x.0, x.1.now)) result ≡ run_at 16 bytes.now }
{
    let (md5, rest) = bytes.split_first_chunk::<16>()?;
    Some((*md5, rest))
}

/// Reads the 32 bytes of a SHA-256. `None` if fewer are left.
#[tactic(auto, unfolding(crate::specs::HashFields::run_at))]
fn sha256_at(bytes: &[u8]) -> Option<([u8; 32], &[u8])>
    ensures { option_map (λ x. (x.0, x.1.now)) result ≡ run_at 32 bytes.now }
{
    let (sha256, rest) = bytes.split_first_chunk::<32>()?;
    Some((*sha256, rest))
}
