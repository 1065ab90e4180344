//! Writers of replies' bodies in memory, and their lengths. `streams/reply_writer.rt` writes a reply to a stream
//! without a body in memory.

pub(crate) mod fronts;
pub(crate) mod small_bytes;

ghost use Rattle.std.specs.Prelude.{◌≡◌, ◌≤◌, IfOk, length};
ghost use Rattle.std.specs.List.{AllByRecursion};
ghost use Rattle.droid_frame.specs.Limits.{puids_limit};
ghost use Rattle.droid_frame.specs.Replies.{HasReplySpelling, IsPuidText, SpellsReply, reply_bytes, reply_kind};
ghost use Rattle.droid_frame.specs.TextLists.{texts_bytes};
ghost use Rattle.droid_frame.specs.Versions.{IsVersion};

use crate::blob::Blob;
use crate::reply::Reply;
use crate::texts::Texts;
use crate::writing::replies::fronts::front_of;
use crate::writing::text_writer::append_texts;
use std::alloc::{AllocError, Global};

/// Makes the body of a reply's frame in this version. Allocates once, and fails only when out of memory.
///
/// The reply must have a spelling in this version: it is within the limits of a reply, and its hash is MD5 if the
/// version is 1.
pub fn reply_body(alloc: Global, version: u8, reply: &Reply) -> Result<Blob, AllocError>
    requires version { IsVersion version }
    requires spelling { HasReplySpelling version reply.now }
    ensures spells { IfOk result (λ body. SpellsReply version (reply_kind reply.now) body reply.now) }
{
    let mut body = Vec::with_capacity(alloc, reply_body_len(version, reply))?;
    body.extend_from_slice(front_of(version, reply).as_slice())?;
    match reply {
        Reply::Finished { puids, .. } => append_texts(&mut body, puids)?,
        Reply::Part { bytes, .. } => body.extend_from_slice(bytes.as_slice())?,
        _ => {}
    }
    Ok(Blob::from(body))
}

/// Returns the length in bytes of the body of a reply's frame in this version. The reply must have a spelling in it.
pub fn reply_body_len(version: u8, reply: &Reply) -> usize
    requires { HasReplySpelling version reply.now }
    ensures length { result ≡ length (reply_bytes version reply.now) }
    ensures bound { result ≤ 1048640 }
{
    let rest = match reply {
        Reply::Finished { puids, .. } => puids_length(puids),
        Reply::Part { bytes, .. } => bytes.len(),
        _ => 0,
    };
    front_of(version, reply).as_slice().len() + rest
}

/// Returns the number of bytes of the identifiers, each after its length in one byte. 135,168 is the limit of 4,096
/// identifiers, of 1 + 32 bytes each; the bound keeps sums from overflowing.
fn puids_length(puids: &Texts) -> usize
    requires count { length puids.now ≤ puids_limit }
    requires each { AllByRecursion IsPuidText puids.now }
    ensures length { result ≡ length (texts_bytes puids.now) }
    ensures bound { result ≤ 135168 }
{
    let mut total = 0;
    for puid in puids.as_slice() {
        total += 1 + puid.len();
    }
    total
}
