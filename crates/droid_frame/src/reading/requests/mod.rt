//! Readers of requests: `request_of`, and its reader of an Export, the one request with a list.
//!
//! The kinds are those of `Request::kind`; the prover ties both to `request_kind` of `specs/Bodies.antt`.

mod node_head;
mod plain_requests;

ghost use Rattle.std.specs.Prelude.{◌≡◌, ◌↔◌, ◌<◌, ◌^◌, IfOk, IsErrOf, ok_or, Ok, Err};
ghost use Rattle.droid_frame.specs.Bodies.{SpellsRequest};
ghost use Rattle.droid_frame.specs.Fields.{IsBytes};
ghost use Rattle.droid_frame.specs.Outcomes.{IsAnswer};
ghost use Rattle.droid_frame.specs.RequestValues.{any_value, export_value, request_value, request_in};

use self::plain_requests::plain_value;
use crate::blob::Blob;
use crate::body_fault::BodyFault;
use crate::frame::{Frame, NUMBER_LIMIT};
use crate::reading::fields::{u32_at, u64_at};
use crate::reading::filters::filter_of;
use crate::request::Request;
use crate::versions::is_version;
use std::alloc::Global;

/// Reads the request of a frame. It consumes the frame: a name and a piece's bytes stay in the body's own buffer. Only
/// a filter allocates, and only after the whole body has been checked.
///
/// `Malformed`: the version is neither 1 nor 2, the kind is unknown, the body is not valid for them, or the number is
/// [`NUMBER_LIMIT`] or more. `Memory`: out of memory for a filter.
#[tactic(auto, unfolding(crate::specs::RequestValues::request_in))]
pub fn request_of(alloc: Global, frame: Frame) -> Result<Request, BodyFault>
    // The number is below the limit, and the frame's version, kind and whole body spell the returned request.
    ensures found { IfOk result (λ request.
        (frame.number < 2 ^ 63) × SpellsRequest frame.version frame.kind frame.body request) }
    // If the number is below the limit and they spell a request, it is returned, unless memory runs out.
    ensures accepted { (request : Request) → frame.number < 2 ^ 63
        → SpellsRequest frame.version frame.kind frame.body request
        → ¬ (result ≡ Err BodyFault.Memory) → result ≡ Ok request }
    // `Malformed` is returned exactly if the number is too large or they spell no request.
    ensures malformed { IsErrOf result BodyFault.Malformed ↔
        (frame.number < 2 ^ 63 → (request : Request) → ¬ SpellsRequest frame.version frame.kind frame.body request) }
    // `Memory` is returned only if the number is below the limit and they spell an Export.
    ensures memory { IsErrOf result BodyFault.Memory →
        (frame.kind ≡ 8) × (frame.number < 2 ^ 63) × (request : Request)
        × SpellsRequest frame.version frame.kind frame.body request }
    // For every kind but an Export, one equation says all of this.
    ensures exact { ¬ (frame.kind ≡ 8) → result ≡ ok_or (request_in frame) BodyFault.Malformed }
{
    if frame.number >= NUMBER_LIMIT {
        return Err(BodyFault::Malformed);
    }
    value_of(alloc, frame.version, frame.kind, frame.body)
}

/// Reads the request that a version, a kind and a body spell. The version may be any number: `Malformed` if it is
/// neither 1 nor 2. Only an Export, kind 8, allocates.
#[tactic(auto, unfolding(crate::specs::RequestValues::request_value))]
fn value_of(alloc: Global, version: u8, kind: u8, body: Blob) -> Result<Request, BodyFault>
    ensures answer { IsAnswer result (request_value version kind body) }
    ensures exact { ¬ (kind ≡ 8) → result ≡ ok_or (request_value version kind body) BodyFault.Malformed }
    ensures out_of_memory { IsErrOf result BodyFault.Memory → kind ≡ 8 }
    // For the proof of the caller: an invariant of the body.
    ensures bytes { IsBytes body }
{
    if !is_version(version) {
        return Err(BodyFault::Malformed);
    }
    any_value(alloc, version, kind, body)
}

/// Reads the request that a kind and a body spell in version 1 or 2. Callers check the version. `Malformed` if the kind
/// is unknown, or the body is not valid for it.
#[tactic(auto, unfolding(crate::specs::RequestValues::any_value))]
fn any_value(alloc: Global, version: u8, kind: u8, body: Blob) -> Result<Request, BodyFault>
    ensures answer { IsAnswer result (any_value version kind body) }
    ensures exact { ¬ (kind ≡ 8) → result ≡ ok_or (any_value version kind body) BodyFault.Malformed }
    ensures out_of_memory { IsErrOf result BodyFault.Memory → kind ≡ 8 }
    // For the proof of the caller: an invariant of the body.
    ensures bytes { IsBytes body }
{
    let bytes = body.as_slice();
    match kind {
        8 => export(alloc, bytes),
        _ => plain_value(version, kind, body).ok_or(BodyFault::Malformed),
    }
}

/// Reads the body of an Export: profile (four bytes), from (eight), max (four), and the filter to the end. `Malformed`
/// if it is not valid, `Memory` if memory runs out for the filter of a valid one.
#[tactic(auto, unfolding(crate::specs::RequestValues::export_value))]
fn export(alloc: Global, body: &[u8]) -> Result<Request, BodyFault>
    ensures { IsAnswer result (export_value body.now) }
{
    let (profile, rest) = u32_at(body).ok_or(BodyFault::Malformed)?;
    let (from, rest) = u64_at(rest).ok_or(BodyFault::Malformed)?;
    let (max, rest) = u32_at(rest).ok_or(BodyFault::Malformed)?;
    let filter = filter_of(alloc, rest)?;
    Ok(Request::Export {
        profile,
        from,
        max,
        filter,
    })
}
