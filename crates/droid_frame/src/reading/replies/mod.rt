//! Readers of replies: `reply_of`, and a function for the body of each kind. These return `None` where the whole body
//! does not spell a reply of the kind.
//!
//! The kinds are those of `Reply::kind`; the prover ties both to `reply_kind` of `specs/Replies.antt`.

mod finished;
mod refusals;

ghost use Rattle.std.specs.Prelude.{◌≡◌, ◌≢◌, ◌↔◌, IfOk, IsErrOf, ok_or};
ghost use Rattle.droid_frame.specs.Fields.{IsBytes};
ghost use Rattle.droid_frame.specs.Reading.{whole};
ghost use Rattle.droid_frame.specs.Replies.{SpellsReply};
ghost use Rattle.droid_frame.specs.ReplyResults.{IsReadAs};
ghost use Rattle.droid_frame.specs.ReplySteps.{IsReplyAnswer};
ghost use Rattle.droid_frame.specs.ReplyValues.{any_value, reply_value, made_value, node_value, taken_value};
ghost use Rattle.droid_frame.specs.ReplyValues.{abandoned_value, progress_value, part_value, refused_value};
ghost use Rattle.droid_frame.specs.ReplyValues.{plain_value};

use self::finished::finished;
use self::refusals::refusal_at;
use crate::blob::Blob;
use crate::body_fault::BodyFault;
use crate::frame::Frame;
use crate::reading::fields::{bytes_after, u32_at, u64_at};
use crate::reply::{PART_LIMIT, Reply};
use crate::versions::is_version;
use std::alloc::Global;

/// Reads the reply of a frame. It consumes the frame: the bytes of a Part stay in the body's own buffer. Only a
/// Finished allocates, for its list of identifiers, and only after the whole body has been checked.
///
/// `Malformed`: the version is neither 1 nor 2, the kind is unknown, or the body is not valid for them. `Memory`: out
/// of memory for the identifiers of a Finished.
pub fn reply_of(alloc: Global, frame: Frame) -> Result<Reply, BodyFault>
    // The frame's version, kind and whole body spell the returned reply.
    ensures found { IfOk result (SpellsReply frame.version frame.kind frame.body) }
    // If they spell a reply, it is returned, unless it is a Finished and memory runs out.
    ensures accepted { (reply : Reply) → SpellsReply frame.version frame.kind frame.body reply
        → IsReadAs frame.kind reply result }
    // `Malformed` is returned exactly if they spell no reply.
    ensures malformed { IsErrOf result BodyFault.Malformed
        ↔ ((reply : Reply) → ¬ SpellsReply frame.version frame.kind frame.body reply) }
    // `Memory` is returned only if they spell a Finished.
    ensures memory { IsErrOf result BodyFault.Memory
        → (frame.kind ≡ 132) × (reply : Reply) × SpellsReply frame.version frame.kind frame.body reply }
    // For every kind but a Finished, one equation says all of this.
    ensures exact { frame.kind ≢ 132
        → result ≡ ok_or (reply_value frame.version frame.kind frame.body) BodyFault.Malformed }
{
    value_of(alloc, frame.version, frame.kind, frame.body)
}

/// Reads the reply that a version, a kind and a body spell. The version may be any number: `Malformed` if it is neither
/// 1 nor 2.
#[tactic(auto, unfolding(crate::specs::ReplyValues::reply_value))]
fn value_of(alloc: Global, version: u8, kind: u8, body: Blob) -> Result<Reply, BodyFault>
    ensures answer { IsReplyAnswer kind (reply_value version kind body) result }
    // For the proof of the caller: an invariant of the body.
    ensures bytes { IsBytes body }
{
    if !is_version(version) {
        return Err(BodyFault::Malformed);
    }
    any_value(alloc, version, kind, body)
}

/// Reads the reply that a kind and a body spell in version 1 or 2. Callers check the version. Only a Finished, kind
/// 132, allocates.
#[tactic(auto, unfolding(crate::specs::ReplyValues::any_value))]
fn any_value(alloc: Global, version: u8, kind: u8, body: Blob) -> Result<Reply, BodyFault>
    ensures answer { IsReplyAnswer kind (any_value version kind body) result }
    // For the proof of the caller: an invariant of the body.
    ensures bytes { IsBytes body }
{
    let bytes = body.as_slice();
    match kind {
        132 => finished(alloc, version, bytes),
        _ => plain(kind, body).ok_or(BodyFault::Malformed),
    }
}

/// Reads a reply that has no list: any but a Finished. `None` if the kind is another, or the body is not valid for it.
/// Allocates nothing.
#[tactic(auto, unfolding(crate::specs::ReplyValues::plain_value))]
fn plain(kind: u8, body: Blob) -> Option<Reply>
    ensures { result ≡ plain_value kind body }
{
    let bytes = body.as_slice();
    match kind {
        129 => made(bytes),
        130 => node(bytes),
        131 => taken(bytes),
        133 => abandoned(bytes),
        134 => progress(bytes),
        135 => part(body),
        136 => refused(bytes),
        _ => None,
    }
}

/// Reads the body of a Made: the profile's number, four bytes.
#[tactic(auto, unfolding(crate::specs::ReplyValues::made_value))]
fn made(body: &[u8]) -> Option<Reply>
    ensures { result ≡ made_value body.now }
{
    let (profile, rest) = u32_at(body)?;
    whole(rest, Reply::Made { profile })
}

/// Reads the body of a Node: the node's number, four bytes.
#[tactic(auto, unfolding(crate::specs::ReplyValues::node_value))]
fn node(body: &[u8]) -> Option<Reply>
    ensures { result ≡ node_value body.now }
{
    let (id, rest) = u32_at(body)?;
    whole(rest, Reply::Node { id })
}

/// Reads the body of a Taken: how many pieces of the file are held, four bytes.
#[tactic(auto, unfolding(crate::specs::ReplyValues::taken_value))]
fn taken(body: &[u8]) -> Option<Reply>
    ensures { result ≡ taken_value body.now }
{
    let (held, rest) = u32_at(body)?;
    whole(rest, Reply::Taken { held })
}

/// Reads the body of an Abandoned, which is empty.
#[tactic(auto, unfolding(crate::specs::ReplyValues::abandoned_value))]
fn abandoned(body: &[u8]) -> Option<Reply>
    ensures { result ≡ abandoned_value body.now }
{
    whole(body, Reply::Abandoned)
}

/// Reads the body of a Progress: how many pieces are held, and the first that is missing, four bytes each.
#[tactic(auto, unfolding(crate::specs::ReplyValues::progress_value))]
fn progress(body: &[u8]) -> Option<Reply>
    ensures { result ≡ progress_value body.now }
{
    let (held, rest) = u32_at(body)?;
    let (missing, rest) = u32_at(rest)?;
    whole(rest, Reply::Progress { held, missing })
}

/// Reads the body of a Part: `as_of` and `total`, eight bytes each, and the export's bytes to the end, at most
/// [`PART_LIMIT`]. It moves these bytes and does not copy them.
#[tactic(auto, unfolding(crate::specs::ReplyValues::part_value))]
fn part(body: Blob) -> Option<Reply>
    ensures { result ≡ part_value body }
{
    let (as_of, rest) = u64_at(body.as_slice())?;
    let (total, rest) = u64_at(rest)?;
    if rest.len() > PART_LIMIT {
        return None;
    }
    let used = body.len() - rest.len();
    Some(Reply::Part {
        as_of,
        total,
        bytes: bytes_after(body, used),
    })
}

/// Reads the body of a Refused: the refusal's number, and its field if it has one.
#[tactic(auto, unfolding(crate::specs::ReplyValues::refused_value))]
fn refused(body: &[u8]) -> Option<Reply>
    ensures { result ≡ refused_value body.now }
{
    let (refusal, rest) = refusal_at(body)?;
    whole(rest, Reply::Refused(refusal))
}

/// Returns the reply if no bytes are left behind its last field, otherwise `None`.
#[tactic(auto, unfolding(crate::specs::Reading::whole))]
fn whole(rest: &[u8], reply: Reply) -> Option<Reply>
    ensures { result ≡ whole rest.now reply }
{
    if rest.is_empty() { Some(reply) } else { None }
}
