//! The fields in the bytes of a record's frames: client, number and file, and whether a request is one about a file.

ghost use Rattle.std.specs.Prelude.{◌≡◌, ◌≤◌, length, true};
ghost use Rattle.droid_compaction.specs.Fields as specs;
ghost use Rattle.droid_compaction.specs.Fields.{file_in, stamp_in};

use droid_frame::kinds::{ABANDON, FINISH};

/// The least bytes of a request about a file: the header of its frame, of 18 bytes, and the profile and the file, of
/// four each. `specs/Fields.antt` has this number and the next two, and the prover ties them.
const LEAST: usize = 26;

/// The most bytes of a request's frame: a header, and the longest body of version 2 (`body_limit` of `droid_frame`).
/// The proofs of `droid_recovery` need that no request of a service is longer, and `most` of `bare_of` that a bare
/// Finish of so many bytes still makes a record.
const LONGEST_REQUEST: usize = 4_194_386;

/// The most bytes of a reply's frame: a header, and the longest body that `droid_frame` writes. `room.rt` of
/// `droid_journal` has it too, under the same name. It goes with the number above.
const LONGEST_REPLY: usize = 1_048_658;

/// Returns the client and the number of a request, as one number: its stamp, which is the client times 2^64 and the
/// number. In its header the client stands at byte 2, and the number at byte 6.
pub(crate) fn stamp_of(request: &[u8]) -> u128
    requires { 18 ≤ length request.now }
    ensures { result ≡ stamp_in request.now }
{
    let client = client_of(&request[2..]);
    let number = number_of(&request[6..]);
    u128::from(client) * 18_446_744_073_709_551_616 + u128::from(number)
}

/// Returns the profile and the file of a request about a file, as one number: the first eight bytes of its body, which
/// begins at byte 18. 26 is `LEAST`.
pub(crate) fn file_of(request: &[u8]) -> u128
    requires { 26 ≤ length request.now }
    ensures { result ≡ file_in request.now }
{
    u128::from(number_of(&request[18..]))
}

/// Reads a client, big-endian, from the first four bytes.
fn client_of(bytes: &[u8]) -> u32
    requires { 4 ≤ length bytes.now }
    ensures { result ≡ specs.client_at bytes.now }
{
    let (front, _) = bytes.split_at(4);
    u32::from_be_bytes([front[0], front[1], front[2], front[3]])
}

/// Reads a number, big-endian, from the first eight bytes.
fn number_of(bytes: &[u8]) -> u64
    requires { 8 ≤ length bytes.now }
    ensures { result ≡ specs.number_at bytes.now }
{
    let (front, _) = bytes.split_at(8);
    u64::from_be_bytes([
        front[0], front[1], front[2], front[3], front[4], front[5], front[6], front[7],
    ])
}

/// Returns whether a request is of this kind and long enough to be about a file. Both parameters are frames as bytes;
/// if either is longer than a frame can be, which no service writes, the request stays as it is.
pub(crate) fn is_about(kind: u8, request: &[u8], reply: &[u8]) -> bool
    ensures test { result ≡ specs.is_about kind request.now reply.now }
    ensures least { result ≡ true → 26 ≤ length request.now }
    ensures request { result ≡ true → length request.now ≤ 4194386 }
    ensures reply { result ≡ true → length reply.now ≤ 1048658 }
{
    if request.len() < LEAST {
        return false;
    }
    if request.len() > LONGEST_REQUEST {
        return false;
    }
    if reply.len() > LONGEST_REPLY {
        return false;
    }
    request[1] == kind
}

/// Does the work of [`is_about`] for a request of the kind `own`, by the lengths of its frame and of its reply's.
fn is_about_by(kind: u8, own: u8, request: u32, reply: u32) -> bool
    ensures test { result ≡ specs.is_about_by kind own request reply }
    ensures least { result ≡ true → 26 ≤ request }
{
    if (request as usize) < LEAST {
        return false;
    }
    if request as usize > LONGEST_REQUEST {
        return false;
    }
    if reply as usize > LONGEST_REPLY {
        return false;
    }
    own == kind
}

/// Returns whether a request of the kind `own` is the Finish or the Abandon of a file, by the lengths of its frame and
/// of its reply's.
pub(crate) fn is_end(own: u8, request: u32, reply: u32) -> bool
    ensures test { result ≡ specs.is_end_by own request reply }
    ensures least { result ≡ true → 26 ≤ request }
{
    if is_about_by(FINISH, own, request, reply) {
        return true;
    }
    is_about_by(ABANDON, own, request, reply)
}
