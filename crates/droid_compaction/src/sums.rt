//! Checksums of eight long requests, computed side by side. This is for speed; no clause needs it. Where the functions
//! that choose the eight requests have no contract, only the time depends on them: a checksum is used only where
//! exactly as many bytes are left as where it was computed. Eight is the number of lanes of `Md5Lanes`.

ghost use Rattle.std.specs.Prelude.{◌≡◌, ◌<◌, ◌++◌, ℕ, [], IfSome, length, slice_index, slice_index_or};
ghost use Rattle.droid_compaction.specs.Sums.{AreSumsIn, body_in, kind_in, last_in, request_or_none};
ghost use Rattle.droid_journal.specs.Reading.{request_in};
ghost use Rattle.md5.specs.Md5.{md5};

use crate::skim::{ahead_in, length_in};
use droid_frame::HEADER_LENGTH;
use droid_hash::Md5Lanes;
use droid_journal::{Form, request_of};

/// The bytes of a length in a record. Only `left_behind` goes by it and by `CHECK`: with others the checksums of fewer
/// requests are found.
const LENGTH: usize = 4;

/// How many bytes a check value has.
const CHECK: usize = 16;

/// The least bytes of a request whose checksum is computed beside others. One busy lane beside seven idle ones takes
/// longer than the usual MD5. Nothing holds the number.
const LONG: usize = 1_024;

/// The checksums of the long requests of up to eight records.
#[derive(Clone, Copy)]
pub(crate) struct Sums {
    /// How many bytes are left where each record begins.
    pub(crate) left: [usize; 8],
    /// The checksums.
    pub(crate) digests: [[u8; 16]; 8],
}

/// Returns the request of the record at the front, and no bytes if there is none.
fn request_at(form: Form, bytes: &[u8]) -> &[u8]
    ensures { result.now ≡ request_or_none (request_in form bytes.now) }
{
    match request_of(form, bytes) {
        Some(request) => request,
        None => &[],
    }
}

/// Returns the byte of the kind of the request at the front, or no byte if there is none.
fn kind_at(form: Form, bytes: &[u8]) -> &[u8]
    ensures { result.now ≡ kind_in form bytes.now }
{
    let request = request_at(form, bytes);
    if request.len() < 2 {
        return &request[request.len()..];
    }
    &request[1..2]
}

/// Returns the body of the request at the front, or no bytes if there is none.
fn body_at(form: Form, bytes: &[u8]) -> &[u8]
    ensures { result.now ≡ body_in form bytes.now }
{
    let request = request_at(form, bytes);
    if request.len() < HEADER_LENGTH {
        return &request[request.len()..];
    }
    &request[HEADER_LENGTH..]
}

/// Returns the last `count` bytes, or all of them if they are fewer.
fn last_of(bytes: &[u8], count: usize) -> &[u8]
    ensures { result.now ≡ last_in bytes.now count }
{
    &bytes[bytes.len().saturating_sub(count)..]
}

/// Returns how many bytes are left behind the record that begins where `left` bytes are left, by its lengths alone, or
/// 0 if there is no whole request.
fn left_behind(form: Form, bytes: &[u8], left: usize) -> usize {
    let rest = last_of(bytes, left);
    let Some(request) = request_of(form, rest) else {
        return 0;
    };
    let front = ahead_in(form, rest)
        .saturating_add(LENGTH)
        .saturating_add(request.len());
    let reply = match length_in(last_of(rest, rest.len().saturating_sub(front))) {
        Some(reply) => reply as usize,
        None => 0,
    };
    let size = front
        .saturating_add(LENGTH)
        .saturating_add(reply)
        .saturating_add(CHECK);
    left.saturating_sub(size)
}

/// Returns whether a whole and long request is at the front.
pub(crate) fn is_long(form: Form, bytes: &[u8]) -> bool {
    request_at(form, bytes).len() >= LONG
}

/// Returns how many bytes are left where the next record with a long request begins, or 0 if there is none. The search
/// begins where `left` bytes are left. Each step leaves fewer bytes, so the bound of the loop is enough.
fn next_long(form: Form, bytes: &[u8], left: usize) -> usize {
    let mut left = left;
    for _ in 0..bytes.len() {
        if left == 0 || is_long(form, last_of(bytes, left)) {
            return left;
        }
        left = left_behind(form, bytes, left);
    }
    left
}

/// Returns how many bytes are left where each of the next eight records with a long request begins; 0 for each that is
/// not there.
fn places_of(form: Form, bytes: &[u8]) -> [usize; 8] {
    let first = next_long(form, bytes, bytes.len());
    let second = next_long(form, bytes, left_behind(form, bytes, first));
    let third = next_long(form, bytes, left_behind(form, bytes, second));
    let fourth = next_long(form, bytes, left_behind(form, bytes, third));
    let fifth = next_long(form, bytes, left_behind(form, bytes, fourth));
    let sixth = next_long(form, bytes, left_behind(form, bytes, fifth));
    let seventh = next_long(form, bytes, left_behind(form, bytes, sixth));
    let eighth = next_long(form, bytes, left_behind(form, bytes, seventh));
    [first, second, third, fourth, fifth, sixth, seventh, eighth]
}

/// Computes the checksums of the requests whose records begin where these numbers of bytes are left: the MD5 of kind
/// and body, all eight in one pass. Where no request is, it is the MD5 of nothing, which is not used.
fn digests_of(form: Form, bytes: &[u8], left: [usize; 8]) -> [[u8; 16]; 8]
    ensures { (lane : ℕ) → lane < 8
        → slice_index_or result lane []
        ≡ md5
        (kind_in form (last_in bytes.now (slice_index left lane))
        ++ body_in form (last_in bytes.now (slice_index left lane))) }
{
    let mut lanes = Md5Lanes::new();
    lanes.update([
        kind_at(form, last_of(bytes, left[0])),
        kind_at(form, last_of(bytes, left[1])),
        kind_at(form, last_of(bytes, left[2])),
        kind_at(form, last_of(bytes, left[3])),
        kind_at(form, last_of(bytes, left[4])),
        kind_at(form, last_of(bytes, left[5])),
        kind_at(form, last_of(bytes, left[6])),
        kind_at(form, last_of(bytes, left[7])),
    ]);
    lanes.update([
        body_at(form, last_of(bytes, left[0])),
        body_at(form, last_of(bytes, left[1])),
        body_at(form, last_of(bytes, left[2])),
        body_at(form, last_of(bytes, left[3])),
        body_at(form, last_of(bytes, left[4])),
        body_at(form, last_of(bytes, left[5])),
        body_at(form, last_of(bytes, left[6])),
        body_at(form, last_of(bytes, left[7])),
    ]);
    lanes.digests()
}

impl Sums {
    /// Computes the checksums of the first eight long requests of the records in these bytes, at whose front a record
    /// begins.
    pub(crate) fn of(form: Form, bytes: &[u8]) -> Sums
        ensures { AreSumsIn form bytes.now result }
    {
        let left = places_of(form, bytes);
        Sums {
            left,
            digests: digests_of(form, bytes, left),
        }
    }

    /// Returns the checksum of the request at the front, if it was computed: if a record begins where as many bytes are
    /// left as `bytes` has. `None` is always allowed: then the reader of the record computes it.
    pub(crate) fn at(&self, bytes: &[u8]) -> Option<[u8; 16]>
        ensures { IfSome result (λ sum.
            (lane : ℕ) × (lane < 8) × (slice_index self.now.left lane ≡ length bytes.now)
            × (sum ≡ slice_index_or self.now.digests lane [])) }
    {
        for lane in 0..8 {
            if self.left[lane] == bytes.len() {
                return Some(self.digests[lane]);
            }
        }
        None
    }
}
