//! Which bodies spell a request of a submission.

ghost use Rattle.std.specs.Prelude.{◌≡◌};
ghost use Rattle.std.specs.Str.{is_utf8};
ghost use Rattle.droid_remote.specs.BodyTests.{is_profile, is_node, is_part, is_submitted};

use crate::numbering::fields::u32_in;
use droid_frame::PART_LIMIT;

/// The size of the parts in which an export is read, in bytes: 1,048,576 in `is_part` of `specs/BodyTests.antt`.
const PART_SIZE: u32 = PART_LIMIT as u32;

/// Returns whether this kind and body of version 2 spell a request of a submission. The kinds are those of `number_by`
/// in `numbers.rt`; 12 and 8 are the bytes of a Piece before its own, and of a Finish, Abandon or Status.
///
/// The clause of `number_of` ties this to `droid_frame`'s bodies: a body is taken exactly if it spells such a request.
pub(crate) fn is_submitted(kind: u8, body: &[u8]) -> bool
    ensures { result ≡ is_submitted kind body.now }
{
    match kind {
        1 => is_profile(body),
        2 => is_node(16, body),
        3 => is_node(28, body),
        4 => body.len() >= 12,
        5 => body.len() == 8,
        6 => body.len() == 8,
        7 => body.len() == 8,
        8 => is_part(body),
        _ => false,
    }
}

/// Returns whether the body is that of a CreateProfile: the scan limit in four bytes, a truth value (0 or 1) and one of
/// the three kinds of hash (0 to 2), a byte each.
fn is_profile(body: &[u8]) -> bool
    ensures { result ≡ is_profile body.now }
{
    body.len() == 6 && body[4] < 2 && body[5] < 3
}

/// Returns whether the body has a name of UTF-8 from this index on, whatever stands before it: 16 bytes in an AddFolder
/// (profile, parent, moment), 28 in an AddFile (size and size of pieces too).
fn is_node(name_at: usize, body: &[u8]) -> bool
    ensures { result ≡ is_node name_at body.now }
{
    match body.split_at_checked(name_at) {
        Some((_, name)) => is_text(name),
        None => false,
    }
}

/// Returns whether a name is UTF-8; an empty one is.
fn is_text(bytes: &[u8]) -> bool
    ensures { result ≡ is_utf8 bytes.now }
{
    match str::from_utf8(bytes) {
        Ok(_) => true,
        Err(_) => false,
    }
}

/// Returns whether the body is that of an Export of a submission: profile (4 bytes), offset (8), the largest size (4,
/// at byte 12), and a filter that takes all records, which is 1 and no criteria (2).
fn is_part(body: &[u8]) -> bool
    ensures { result ≡ is_part body.now }
{
    body.len() == 18 && u32_in(12, body) == PART_SIZE && body[16] == 1 && body[17] == 0
}
