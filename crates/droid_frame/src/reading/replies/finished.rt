//! The reader of a Finished, the one reply with a list: its method, mismatch, hash and format identifiers (PUIDs).

ghost use Rattle.std.specs.Prelude.{◌≡◌, ◌↔◌, IsTrue};
ghost use Rattle.std.specs.Option.{option_map};
ghost use Rattle.droid_frame.specs.ReplySteps.{ArePuids, IsReplyAnswer};
ghost use Rattle.droid_frame.specs.ReplyValues.{count_at, finished_head_at, finished_value};

use crate::body_fault::BodyFault;
use crate::hash_value::HashValue;
use crate::method::Method;
use crate::reading::fields::hashes::digest_at;
use crate::reading::fields::text_lists::{after_texts, texts_at};
use crate::reading::fields::{bool_at, method_at, u16_at};
use crate::reply::{PUID_LIMIT, PUIDS_LIMIT, Reply};
use std::alloc::Global;

/// The fields of a Finished before the format identifiers.
#[derive(Clone, Copy)]
pub(crate) struct FinishedHead {
    /// How the formats were found.
    pub(crate) method: Method,
    /// Whether none of the formats lists the file's extension.
    pub(crate) mismatch: bool,
    /// The hash of the file's bytes.
    pub(crate) hash: HashValue,
    /// The number of identifiers that follow, at most [`PUIDS_LIMIT`].
    pub(crate) count: u16,
}

/// Reads the body of a Finished in this version. Checks the whole body before it allocates: `Malformed` if it is not
/// valid, `Memory` if memory runs out for the identifiers of a valid one.
pub(crate) fn finished(alloc: Global, version: u8, body: &[u8]) -> Result<Reply, BodyFault>
    ensures { IsReplyAnswer 132 (finished_value version body.now) result }
{
    let Some((head, rest)) = finished_head_at(version, body) else {
        return Err(BodyFault::Malformed);
    };
    if !are_puids(head.count, rest) {
        return Err(BodyFault::Malformed);
    }
    match texts_at(alloc, usize::from(head.count), 1, PUID_LIMIT as u8, rest) {
        Ok((puids, _)) => Ok(Reply::Finished {
            method: head.method,
            mismatch: head.mismatch,
            hash: head.hash,
            puids,
        }),
        Err(fault) => Err(fault),
    }
}

/// Returns whether the bytes are exactly this many identifiers, each of 1 to [`PUID_LIMIT`] bytes after its length,
/// with none left over. Allocates nothing.
fn are_puids(count: u16, bytes: &[u8]) -> bool
    ensures { IsTrue result ↔ ArePuids count bytes.now }
{
    match after_texts(usize::from(count), 1, PUID_LIMIT as u8, bytes) {
        Some(rest) => rest.is_empty(),
        None => false,
    }
}

/// Reads the fields of a Finished before its PUIDs, and returns them and the bytes after them. `None` if the bytes are
/// too few, or a field has no such value.
#[tactic(auto, unfolding(crate::specs::ReplyValues::finished_head_at))]
fn finished_head_at(version: u8, bytes: &[u8]) -> Option<(FinishedHead, &[u8])>
    ensures { option_map (λ x. (x.0, x.1.now)) result ≡ finished_head_at version bytes.now }
{
    let (method, rest) = method_at(bytes)?;
    let (mismatch, rest) = bool_at(rest)?;
    let (hash, rest) = digest_at(version, rest)?;
    let (count, rest) = count_at(rest)?;
    let head = FinishedHead {
        method,
        mismatch,
        hash,
        count,
    };
    Some((head, rest))
}

/// Reads the number of identifiers that follow, two bytes. `None` if it is above [`PUIDS_LIMIT`], or if fewer bytes are
/// left.
#[tactic(auto, unfolding(crate::specs::ReplyValues::count_at))]
fn count_at(bytes: &[u8]) -> Option<(u16, &[u8])>
    ensures { option_map (λ x. (x.0, x.1.now)) result ≡ count_at bytes.now }
{
    let (count, rest) = u16_at(bytes)?;
    if usize::from(count) > PUIDS_LIMIT {
        return None;
    }
    Some((count, rest))
}
