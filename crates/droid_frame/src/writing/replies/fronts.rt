//! The fronts of replies' bodies: the fields before a list or bytes of any length. `reply_body` and `write_reply` both
//! begin a body with them.

ghost use Rattle.std.specs.Prelude.{◌≡◌, ◌≤◌, ◌++◌, [], length};
ghost use Rattle.droid_frame.specs.Hashes.{IsHashValue};
ghost use Rattle.droid_frame.specs.Replies.{HasReplySpelling, HasRefusalSpelling, digest_bytes};
ghost use Rattle.droid_frame.specs.Replies.{refusal_bytes};
ghost use Rattle.droid_frame.specs.ReplyFronts.{reply_front};

use super::small_bytes::SmallBytes;
use crate::hash_value::HashValue;
use crate::refusal::Refusal;
use crate::reply::Reply;

/// Makes the front of the reply's body in this version: the fields before its list or bytes. At most 37 bytes,
/// [`SmallBytes`]' limit. Allocates nothing.
pub(crate) fn front_of(version: u8, reply: &Reply) -> SmallBytes
    requires { HasReplySpelling version reply.now }
    ensures { result ≡ reply_front version reply.now }
{
    let mut front = SmallBytes::new();
    match reply {
        Reply::Made { profile } => front.add(&profile.to_be_bytes()),
        Reply::Node { id } => front.add(&id.to_be_bytes()),
        Reply::Taken { held } => front.add(&held.to_be_bytes()),
        Reply::Finished {
            method,
            mismatch,
            hash,
            puids,
        } => {
            front.add(&[method.number()]);
            front.add(&[u8::from(*mismatch)]);
            add_hash(&mut front, version, hash);
            front.add(&(puids.len() as u16).to_be_bytes());
        }
        Reply::Abandoned => {}
        Reply::Progress { held, missing } => {
            front.add(&held.to_be_bytes());
            front.add(&missing.to_be_bytes());
        }
        Reply::Part { as_of, total, .. } => {
            front.add(&as_of.to_be_bytes());
            front.add(&total.to_be_bytes());
        }
        Reply::Refused(refusal) => add_refusal(&mut front, *refusal),
    }
    front
}

/// Appends the kind of a Finished's hash, if the version has a byte for it, and then the digest.
fn add_hash(front: &mut SmallBytes, version: u8, hash: &HashValue)
    requires room { length front.old ≤ 2 }
    requires value { IsHashValue hash.now }
    ensures { front.new ≡ front.old ++ digest_bytes version hash.now }
{
    let digest = hash.as_slice();
    if version == 1 {
        front.add(digest);
    } else {
        front.add(&[hash.kind().number()]);
        front.add(digest);
    }
}

/// Appends a refusal's number, and its field if it has one: the index of the first missing piece, or the number of the
/// limit.
fn add_refusal(front: &mut SmallBytes, refusal: Refusal)
    requires room { front.old ≡ [] }
    requires spelling { HasRefusalSpelling refusal }
    ensures { front.new ≡ refusal_bytes refusal }
{
    front.add(&[refusal.number()]);
    match refusal {
        Refusal::TooFarAhead { missing } | Refusal::Incomplete { missing } => {
            front.add(&missing.to_be_bytes());
        }
        Refusal::LimitReached(which) => front.add(&[which.number()]),
        _ => {}
    }
}
