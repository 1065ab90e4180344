//! Numbers requests by their kinds and bodies.

ghost use Rattle.std.specs.Prelude.{◌≡◌, ◌<◌, ◌≤◌, ◌^◌, ◌↔◌, ◌∷◌, true, IfSome, IsNone, length, unwrap_or};
ghost use Rattle.droid_frame.specs.Bodies.{SpellsRequest};
ghost use Rattle.droid_frame.specs.declared.request.Request.{Request};
ghost use Rattle.droid_remote.specs.BodyTests.{is_submitted};
ghost use Rattle.droid_remote.specs.BodyNumbers.{file_number, number_by, part_number, piece_number};
ghost use Rattle.droid_remote.specs.Numbers.{digest_number, number_of};
ghost use Rattle.droid_remote.specs.Submitted.{IsSubmitted};

use crate::numbering::digests::{node_number, text_number};
use crate::numbering::fields::{u32_in, u64_in};
use crate::numbering::request_bodies::is_submitted;
use crate::numbering::request_numbers::{packed, packed_part};

/// Returns the number of the request that this kind and body of version 2 spell, in the submission of this name.
/// `attempt` says how often this very folder or file was added before and then abandoned: 0 at first. It does not count
/// for other requests.
///
/// Returns `None` if the kind and the body spell no request of a submission. Allocates nothing.
pub fn number_of(name: &str, attempt: u32, kind: u8, body: &[u8]) -> Option<u64>
    // A request of a submission has the number of its definition.
    ensures number { (request : Request) → SpellsRequest 2 kind body.now request → IsSubmitted request →
        result ≡ Some (number_of name.now attempt request) }
    // `None` is returned exactly if no request of a submission is spelled, and a number only of one that is.
    ensures none { IsNone result
        ↔ ((request : Request) → SpellsRequest 2 kind body.now request → ¬ IsSubmitted request) }
    ensures submitted { IfSome result (λ number.
        (request : Request) → SpellsRequest 2 kind body.now request → IsSubmitted request) }
    ensures below { IfSome result (λ number. number < 2 ^ 63) }
{
    if !is_submitted(kind, body) {
        return None;
    }
    Some(number_by(name, attempt, kind, body))
}

/// Returns the number of a request of a submission, by its kind: 1 is CreateProfile, 2 AddFolder, 3 AddFile, 4 Piece, 5
/// Finish, 6 Abandon, 7 Status, and 8, the only one left, Export.
fn number_by(name: &str, attempt: u32, kind: u8, body: &[u8]) -> u64
    requires { is_submitted kind body.now ≡ true }
    ensures { result ≡ number_by name.now attempt kind body.now }
{
    match kind {
        1 => text_number(1, name.as_bytes()),
        2 => node_number(2, attempt, body),
        3 => node_number(3, attempt, body),
        4 => piece_number(body),
        5 => file_number(5, body),
        6 => file_number(6, body),
        7 => file_number(7, body),
        _ => part_number(body),
    }
}

/// Returns the number of a Piece, by its profile, file and index: the first 12 bytes of its body, four each. The
/// piece's own bytes stand behind them and do not count.
fn piece_number(body: &[u8]) -> u64
    requires { 12 ≤ length body.now }
    ensures { result ≡ piece_number body.now }
{
    let profile = u32_in(0, body);
    let file = u32_in(4, body);
    let index = u64::from(u32_in(8, body));
    packed_or_digest(packed(4, profile, file, index), 4, &body[..12])
}

/// Returns the number of a Finish, an Abandon or a Status, by its profile and file: the 8 bytes of its body, four each.
fn file_number(kind: u8, body: &[u8]) -> u64
    requires kind { kind < 8 }
    requires fields { length body.now ≡ 8 }
    ensures { result ≡ file_number kind body.now }
{
    let packed = packed(u64::from(kind), u32_in(0, body), u32_in(4, body), 0);
    packed_or_digest(packed, kind, body)
}

/// Returns the number of an Export, by its profile and offset: the first 12 bytes of its body, four and eight. What
/// follows is alike in all of a submission.
fn part_number(body: &[u8]) -> u64
    requires { 12 ≤ length body.now }
    ensures { result ≡ part_number body.now }
{
    let packed = packed_part(u32_in(0, body), u64_in(4, body));
    packed_or_digest(packed, 8, &body[..12])
}

/// Returns the packed number, or, where the fields do not fit one, the number by the digest of the kind and their
/// bytes.
fn packed_or_digest(packed: Option<u64>, kind: u8, fields: &[u8]) -> u64
    ensures { result ≡ unwrap_or packed (digest_number (kind ∷ fields.now)) }
{
    match packed {
        Some(number) => number,
        None => text_number(kind, fields),
    }
}
