//! Reading bare frames, which droid_compaction writes in the place of the frames of a bare file's requests. A body
//! begins with what is left of the request, the mark of a piece or the body of a Finish, and ends with the body of the
//! reply.
//!
//! In the clauses 5 is `FINISH`, 131 `TAKEN` and 132 `FINISHED` of droid_frame's `kinds`, and 16 is `MARK`; the prover
//! ties them.

ghost use Rattle.std.specs.Prelude.{◌≡◌, ◌++◌, ℕ, IfOk, MatchResult, length};
ghost use Rattle.droid_core.specs.Changes.{stamp_of};
ghost use Rattle.droid_frame.specs.Fields.{IsU32, u32_bytes};
ghost use Rattle.droid_frame.specs.Replies.{HasReplySpelling, SpellsReply, reply_bytes, reply_kind};
ghost use Rattle.droid_frame.specs.declared.frame.Frame.{Frame as FrameValue};
ghost use Rattle.droid_frame.specs.declared.reply.Reply.{Reply as ReplyValue};
ghost use Rattle.droid_compaction.specs.BareFrames.{bare_finish, bare_piece};

use crate::revival_fault::RecoveryFault;
use droid_core::Stamp;
use droid_frame::kinds::{FINISH, FINISHED, TAKEN};
use droid_frame::{Blob, BodyFault, Frame, Reply, mark, reply_of};
use std::alloc::Global;

/// How many bytes a mark has, which is an MD5. It stands in front of a bare piece's body: the prover ties it to
/// `bare_piece` of droid_compaction.
const MARK: usize = 16;

/// How many bytes the body of a Finish has: the numbers of a profile and a file, four bytes each. It stands in front of
/// a bare Finish's body, as `bare_finish` of droid_compaction has it.
const FINISH_BODY: usize = 8;

/// A bare piece.
#[derive(Drop)]
pub(crate) struct BarePiece {
    /// The stamp of the piece.
    pub(crate) stamp: Stamp,
    /// Its reply.
    pub(crate) reply: Reply,
}

/// A bare Finish.
#[derive(Drop)]
pub(crate) struct BareFinish {
    /// The stamp of the Finish.
    pub(crate) stamp: Stamp,
    /// The file's profile.
    pub(crate) profile: u32,
    /// The file.
    pub(crate) file: u32,
    /// Its reply.
    pub(crate) reply: Reply,
}

/// Reads a bare piece. `Unfit`: its body is not a mark and then that of a Taken. `Memory`: memory ran out.
pub(crate) fn read_piece(alloc: Global, frame: &Frame) -> Result<BarePiece, RecoveryFault>
    ensures stamp { IfOk result (λ it. it.stamp.version ≡ frame.now.version) }
    ensures reply { IfOk result (λ it. HasReplySpelling frame.now.version it.reply × (reply_kind it.reply ≡ 131)) }
    ensures its { (its : FrameValue) (reply : ReplyValue) → frame.now ≡ bare_piece its reply
        → SpellsReply its.version 131 (reply_bytes its.version reply) reply
        → MatchResult result (λ it. (it.stamp ≡ stamp_of its) × (it.reply ≡ reply)) (λ fault.
        fault ≡ RecoveryFault.Memory) }
{
    let body = frame.body.as_slice();
    if body.len() < MARK {
        return Err(RecoveryFault::Unfit);
    }
    let (front, rest) = body.split_at(MARK);
    let stamp = Stamp {
        client: frame.client,
        number: frame.number,
        version: frame.version,
        mark: mark_in(front),
    };
    match read_reply(alloc, frame, TAKEN, rest) {
        Ok(reply) => Ok(BarePiece { stamp, reply }),
        Err(fault) => Err(fault),
    }
}

/// Reads a bare Finish; its mark is computed from the body of the Finish in front. `Unfit`: its body is not the numbers
/// of a profile and a file and then the body of a Finished. `Memory`: memory ran out.
pub(crate) fn read_finish(alloc: Global, frame: &Frame) -> Result<BareFinish, RecoveryFault>
    ensures stamp { IfOk result (λ it. it.stamp.version ≡ frame.now.version) }
    ensures reply { IfOk result (λ it. HasReplySpelling frame.now.version it.reply × (reply_kind it.reply ≡ 132)) }
    ensures its { (its : FrameValue) (reply : ReplyValue) (profile file : ℕ) → frame.now ≡ bare_finish its reply
        → its.kind ≡ 5 → its.body ≡ u32_bytes profile ++ u32_bytes file → IsU32 profile → IsU32 file
        → SpellsReply its.version 132 (reply_bytes its.version reply) reply
        → MatchResult result
        (λ it. (it.stamp ≡ stamp_of its) × (it.profile ≡ profile) × (it.file ≡ file) × (it.reply ≡ reply)) (λ fault.
        fault ≡ RecoveryFault.Memory) }
{
    let body = frame.body.as_slice();
    if body.len() < FINISH_BODY {
        return Err(RecoveryFault::Unfit);
    }
    let (front, rest) = body.split_at(FINISH_BODY);
    let stamp = Stamp {
        client: frame.client,
        number: frame.number,
        version: frame.version,
        mark: mark(FINISH, front),
    };
    let profile = number_in(&front[..4]);
    let file = number_in(&front[4..FINISH_BODY]);
    match read_reply(alloc, frame, FINISHED, rest) {
        Ok(reply) => Ok(BareFinish {
            stamp,
            profile,
            file,
            reply,
        }),
        Err(fault) => Err(fault),
    }
}

/// Reads the body of a reply of this kind from `bytes`, a part of the frame's body, in the frame's version. `Unfit`:
/// they spell none. `Memory`: memory ran out for a copy of them, or for the reply.
fn read_reply(alloc: Global, frame: &Frame, kind: u8, bytes: &[u8]) -> Result<Reply, RecoveryFault>
    ensures found { IfOk result (λ it. HasReplySpelling frame.now.version it × (reply_kind it ≡ kind)) }
    ensures its { (reply : ReplyValue) → SpellsReply frame.now.version kind bytes.now reply
        → MatchResult result (λ it. it ≡ reply) (λ fault. fault ≡ RecoveryFault.Memory) }
{
    let Ok(body) = Blob::copy_of(alloc, bytes) else {
        return Err(RecoveryFault::Memory);
    };
    let spelled = Frame {
        version: frame.version,
        kind,
        client: frame.client,
        number: frame.number,
        body,
    };
    match reply_of(alloc, spelled) {
        Ok(reply) => Ok(reply),
        Err(BodyFault::Malformed) => Err(RecoveryFault::Unfit),
        Err(BodyFault::Memory) => Err(RecoveryFault::Memory),
    }
}

/// Returns these bytes, which are 16, as a mark.
fn mark_in(bytes: &[u8]) -> [u8; MARK]
    requires { length bytes.now ≡ 16 }
    ensures { result ≡ bytes.now }
{
    let mut mark = [0; MARK];
    mark.copy_from_slice(bytes);
    mark
}

/// Reads a big-endian number of four bytes, which are all of `bytes`.
fn number_in(bytes: &[u8]) -> u32
    requires { length bytes.now ≡ 4 }
    ensures { (number : ℕ) → bytes.now ≡ u32_bytes number → IsU32 number → result ≡ number }
{
    u32::from_be_bytes([bytes[0], bytes[1], bytes[2], bytes[3]])
}
