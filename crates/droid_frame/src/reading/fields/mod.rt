//! Readers of single fields of a body.
//!
//! A function `.._at` reads from the front of the bytes and returns the value and the bytes after it, or `None` if the
//! bytes are too few or have no such value. `text_of` and `bytes_after` take what is left of a body, in its own buffer.

pub(crate) mod hashes;
pub(crate) mod text_lists;

ghost use Rattle.std.specs.Prelude.{◌≡◌, ◌≤◌, drop, length, vec_len, IfSome};
ghost use Rattle.std.specs.Option.{option_map};
ghost use Rattle.std.specs.Int.{w16, w32, w64};
ghost use Rattle.droid_frame.specs.Ends.{IsEnd};
ghost use Rattle.droid_frame.specs.Reading.{byte_at, number_at, signed_at, truth_at, method_at, text_at};

use crate::blob::Blob;
use crate::method::Method;
use crate::text::Text;

/// Makes a text of all these bytes, in their own buffer, or returns `None` if they are not UTF-8. `text_at`, its
/// definition, takes all bytes too, and returns no rest.
pub(crate) fn text_of(bytes: Vec<u8>) -> Option<Text>
    ensures { result ≡ text_at bytes.items }
{
    match String::from_utf8(bytes) {
        Ok(text) => Some(Text::from(text)),
        Err(_) => None,
    }
}

/// Reads a number of one byte: a count, or the tag of a criterion. `None` if no byte is left.
#[tactic(auto, unfolding(crate::specs::Reading::byte_at))]
pub(crate) fn u8_at(bytes: &[u8]) -> Option<(u8, &[u8])>
    ensures { option_map (λ x. (x.0, x.1.now)) result ≡ byte_at bytes.now }
{
    match bytes {
        [byte, rest @ ..] => Some((*byte, rest)),
        [] => None,
    }
}

/// Reads a big-endian number of two bytes: the count of a Finished's identifiers. `None` if fewer than two bytes are
/// left.
pub(crate) fn u16_at(bytes: &[u8]) -> Option<(u16, &[u8])>
    ensures { option_map (λ x. (x.0, x.1.now)) result ≡ number_at w16 bytes.now }
{
    let (front, rest) = bytes.split_at_checked(2)?;
    let number = u16::from_be_bytes([front[0], front[1]]);
    Some((number, rest))
}

/// Reads a big-endian number of four bytes. `None` if fewer are left.
pub(crate) fn u32_at(bytes: &[u8]) -> Option<(u32, &[u8])>
    ensures value { option_map (λ x. (x.0, x.1.now)) result ≡ number_at w32 bytes.now }
    // For callers that count how far they read: the rest is the end of `bytes`.
    ensures rest { IfSome result (λ x. IsEnd bytes.now x.1.now) }
{
    let (front, rest) = bytes.split_at_checked(4)?;
    let number = u32::from_be_bytes([front[0], front[1], front[2], front[3]]);
    Some((number, rest))
}

/// Reads a big-endian number of eight bytes. `None` if fewer are left.
pub(crate) fn u64_at(bytes: &[u8]) -> Option<(u64, &[u8])>
    ensures value { option_map (λ x. (x.0, x.1.now)) result ≡ number_at w64 bytes.now }
    // For callers that count how far they read: the rest is the end of `bytes`.
    ensures rest { IfSome result (λ x. IsEnd bytes.now x.1.now) }
{
    let (front, rest) = bytes.split_at_checked(8)?;
    let number = u64::from_be_bytes([
        front[0], front[1], front[2], front[3], front[4], front[5], front[6], front[7],
    ]);
    Some((number, rest))
}

/// Reads a signed number of eight bytes, in two's complement, big-endian. `None` if fewer are left.
#[tactic(auto, unfolding(crate::specs::Reading::signed_at))]
pub(crate) fn i64_at(bytes: &[u8]) -> Option<(i64, &[u8])>
    ensures value { option_map (λ x. (x.0, x.1.now)) result ≡ signed_at bytes.now }
    // For callers that count how far they read: the rest is the end of `bytes`.
    ensures rest { IfSome result (λ x. IsEnd bytes.now x.1.now) }
{
    let (number, rest) = u64_at(bytes)?;
    Some((number.cast_signed(), rest))
}

/// Reads a byte that is 0 (false) or 1 (true). `None` for any other byte, and if none is left.
#[tactic(auto, unfolding(crate::specs::Reading::truth_at))]
pub(crate) fn bool_at(bytes: &[u8]) -> Option<(bool, &[u8])>
    ensures { option_map (λ x. (x.0, x.1.now)) result ≡ truth_at bytes.now }
{
    match bytes {
        [0, rest @ ..] => Some((false, rest)),
        [1, rest @ ..] => Some((true, rest)),
        _ => None,
    }
}

/// Reads how a file was identified, from its number, 0 to 2. `None` for any other byte, and if none is left.
/// `Method::number` has the same numbers; the prover ties both to `method_number`.
#[tactic(auto, unfolding(crate::specs::Reading::method_at))]
pub(crate) fn method_at(bytes: &[u8]) -> Option<(Method, &[u8])>
    ensures { option_map (λ x. (x.0, x.1.now)) result ≡ method_at bytes.now }
{
    match bytes {
        [0, rest @ ..] => Some((Method::Unidentified, rest)),
        [1, rest @ ..] => Some((Method::Signature, rest)),
        [2, rest @ ..] => Some((Method::Extension, rest)),
        _ => None,
    }
}

/// Returns the bytes from this index to the end, in the body's own buffer. Allocates nothing.
pub(crate) fn bytes_after(body: Blob, place: usize) -> Blob
    requires { place ≤ length body }
    ensures { result ≡ drop place body }
{
    let mut bytes = body.into_vec();
    remove_front(&mut bytes, place);
    Blob::from(bytes)
}

/// Removes the first `count` bytes in place: the others move to the front, for [`bytes_after`].
fn remove_front(bytes: &mut Vec<u8>, count: usize)
    requires { count ≤ vec_len bytes.old }
    ensures { bytes.new.items ≡ drop count bytes.old.items }
{
    bytes.drain(..count);
}
