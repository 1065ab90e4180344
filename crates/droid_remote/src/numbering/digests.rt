//! Numbers by the SHA-256 (FIPS 180-4) of a text.

ghost use Rattle.std.specs.Prelude.{◌≡◌, ◌∷◌, ◌++◌, ℕ, List};
ghost use Rattle.sha2.specs.Sha256.{sha256};
ghost use Rattle.droid_frame.specs.Fields.{u32_bytes};
ghost use Rattle.droid_remote.specs.Numbers.{digest_number};

use sha2::{Digest, Sha256};

/// The first of the numbers by a digest, above all packed ones. With 62 bits of the digest added, all are below 2^63:
/// the `>> 2` below goes with it, and the prover ties both to `digest_number`. docs/SERVICE.md ("The numbers of a
/// submission") has both too, as has `tests/lib/numbers.py`, by which `submit_numbers.py` tests these numbers.
const FIRST: u64 = 1 << 62;

/// Returns the number by the digest of a request's kind and these bytes: a submission's name, or the fields of a
/// request that does not fit a packed number.
pub(crate) fn text_number(kind: u8, bytes: &[u8]) -> u64
    ensures { result ≡ digest_number (kind ∷ bytes.now) }
{
    let mut hasher = Sha256::new();
    hasher.update(&[kind]);
    hasher.update(bytes);
    number_of_digest(&hasher.finalize())
}

/// Returns the number by the digest of this kind, this attempt and the body of an AddFolder or AddFile.
pub(crate) fn node_number(kind: u8, attempt: u32, body: &[u8]) -> u64
    ensures { result ≡ digest_number (kind ∷ (u32_bytes attempt ++ body.now)) }
{
    let mut hasher = Sha256::new();
    hasher.update(&[kind]);
    hasher.update(&attempt.to_be_bytes());
    hasher.update(body);
    number_of_digest(&hasher.finalize())
}

/// Returns 2^62 and the number that the first 62 bits of this digest are, the highest first.
#[tactic(auto, unfolding(crate::specs::Numbers::first_bits))]
fn number_of_digest(digest: &[u8; 32]) -> u64
    ensures { (text : List ℕ) → digest.now ≡ sha256 text → result ≡ digest_number text }
{
    let front = u64::from_be_bytes([
        digest[0], digest[1], digest[2], digest[3], digest[4], digest[5], digest[6], digest[7],
    ]);
    FIRST + (front >> 2)
}
