//! Frames of a submission's requests, each with its number.

ghost use Rattle.std.specs.Prelude.{◌≡◌, IfOk, MatchOption};
ghost use Rattle.droid_frame.specs.Bodies.{Fits, SpellsRequest};
ghost use Rattle.droid_frame.specs.declared.request.Request.{Request};
ghost use Rattle.droid_remote.specs.Submitted.{IsSubmitted};
ghost use Rattle.droid_remote.specs.Numbered.{frame_of};

use crate::numbering::numbers::number_of;
use droid_frame::{Blob, Frame, Request, request_frame};
use std::alloc::{AllocError, Global};

/// The version of all frames of a submission: 2, as `number_of` reads bodies, and `request_at` of
/// `specs/Numbered.antt`.
const VERSION: u8 = 2;

/// Returns the frame of the request that this kind and body spell, under its number in the submission of this name, or
/// `None` if it is no request of a submission. `attempt` counts for an AddFolder or AddFile alone.
pub(crate) fn numbered_frame(
    client: u32,
    name: &str,
    attempt: u32,
    kind: u8,
    body: Blob,
) -> Option<Frame>
    ensures { MatchOption result ((request : Request) → SpellsRequest 2 kind body request → ¬ (IsSubmitted request))
        (λ frame.
        (request : Request) → SpellsRequest 2 kind body request
        → (frame ≡ frame_of client name.now attempt request) × IsSubmitted request) }
{
    match number_of(name, attempt, kind, body.as_slice()) {
        Some(number) => Some(Frame {
            version: VERSION,
            kind,
            client,
            number,
            body,
        }),
        None => None,
    }
}

/// Makes the frame of a request of a submission, under its number in the submission of this name, as at the first
/// attempt. Fails only if memory runs out.
pub(crate) fn frame_of(
    alloc: Global,
    client: u32,
    name: &str,
    request: &Request,
) -> Result<Frame, AllocError>
    requires fits { Fits 2 request.now }
    requires submitted { IsSubmitted request.now }
    ensures { IfOk result (λ frame. frame ≡ frame_of client name.now 0 request.now) }
{
    let frame = request_frame(alloc, VERSION, client, 0, request)?;
    let numbered = numbered_frame(client, name, 0, frame.kind, frame.body);
    Ok(numbered.unwrap())
}
