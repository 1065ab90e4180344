//! Making bare frames, which stand in a smaller journal in the place of a piece or a Finish. The reader of these is
//! `droid_recovery`; docs/FORMATS.md has the bytes.
//!
//! In clauses 18 is `HEADER_LENGTH`. 8388608 is the most bytes of a journal's record: `LIMIT` in `record_reader.rt` of
//! `droid_journal` and in `skim.rt` here, and `Fits` of `droid_journal`. 8388624 is that and the 16 of a mark. Here
//! both only see to it that the length fits four bytes; a bare record fits by `most` of `bare_of` in `rewriter.rt`.

ghost use Rattle.std.specs.Prelude.{◌≡◌, ◌+◌, ◌≤◌, ◌++◌, IfOk, drop, length, slice_index};
ghost use Rattle.droid_frame.specs.Frames.{frame_bytes, mark_of};
ghost use Rattle.droid_frame.specs.ReplyFrames.{reply_frame};
ghost use Rattle.droid_frame.specs.declared.frame.Frame.{Frame};
ghost use Rattle.droid_frame.specs.declared.reply.Reply.{Reply};
ghost use Rattle.droid_compaction.specs.BareFrames as frames;
ghost use Rattle.droid_compaction.specs.BareFrames.{bare_finish_bytes, bare_piece_bytes, with_body};

use droid_frame::HEADER_LENGTH;
use std::alloc::{AllocError, Global};

/// The kind of a bare piece: that of a piece, 4, and 64. No request has it, as `a_bare_frame_spells_no_request` of
/// `bare_laws.rt` says, which also ties it to the 68 of the definitions.
pub const BARE_PIECE: u8 = 68;

/// The kind of a bare Finish: that of a Finish, 5, and 64. The same law ties it to the 69 of the definitions.
pub const BARE_FINISH: u8 = 69;

/// Makes the bytes of the bare frame of a piece, of the bytes of its request's and its reply's frame and of the
/// request's mark, which the caller has: to compute it would cost as much as to read the piece. Fails only when out of
/// memory.
pub fn bare_piece(
    alloc: Global,
    request: &[u8],
    mark: [u8; 16],
    reply: &[u8],
) -> Result<Vec<u8>, AllocError>
    requires header { 18 ≤ length request.now }
    requires mark { mark ≡ mark_of (slice_index request.now 1) (drop 18 request.now) }
    requires size { length request.now + length reply.now ≤ 8388608 }
    ensures bytes { IfOk result (λ bytes. bytes.items ≡ bare_piece_bytes request.now reply.now) }
    ensures frame { (frame : Frame) (its : Reply) → request.now ≡ frame_bytes frame
        → reply.now ≡ reply_frame frame.version frame.client frame.number its
        → IfOk result (λ bytes. bytes.items ≡ frame_bytes (frames.bare_piece frame its)) }
{
    spell(alloc, request, BARE_PIECE, &mark, reply)
}

/// Makes the bytes of the bare frame of a Finish, of the bytes of its request's and its reply's frame. Fails only when
/// out of memory.
pub fn bare_finish(alloc: Global, request: &[u8], reply: &[u8]) -> Result<Vec<u8>, AllocError>
    requires header { 18 ≤ length request.now }
    requires size { length request.now + length reply.now ≤ 8388608 }
    ensures bytes { IfOk result (λ bytes. bytes.items ≡ bare_finish_bytes request.now reply.now) }
    ensures frame { (frame : Frame) (its : Reply) → request.now ≡ frame_bytes frame
        → reply.now ≡ reply_frame frame.version frame.client frame.number its
        → IfOk result (λ bytes. bytes.items ≡ frame_bytes (frames.bare_finish frame its)) }
{
    spell(
        alloc,
        request,
        BARE_FINISH,
        &request[HEADER_LENGTH..],
        reply,
    )
}

/// Makes a frame of the kind `kind` with the version, client and number of a request's. Its body is `front` and then
/// the body of the reply. Fails only when out of memory. In the header of 18 bytes the version is byte 0, the kind byte
/// 1, client and number are bytes 2 to 13, and the rest is the length of the body.
fn spell(
    alloc: Global,
    request: &[u8],
    kind: u8,
    front: &[u8],
    reply: &[u8],
) -> Result<Vec<u8>, AllocError>
    requires header { 18 ≤ length request.now }
    requires size { length front.now + length reply.now ≤ 8388624 }
    ensures { IfOk result (λ bytes. bytes.items ≡ with_body request.now kind (front.now ++ drop 18 reply.now)) }
{
    let rest = body_of(reply);
    let size = front.len() + rest.len();
    let mut bytes = Vec::with_capacity(alloc, HEADER_LENGTH + size)?;
    bytes.push(request[0])?;
    bytes.push(kind)?;
    bytes.extend_from_slice(&request[2..14])?;
    bytes.extend_from_slice(&(size as u32).to_be_bytes())?;
    bytes.extend_from_slice(front)?;
    bytes.extend_from_slice(rest)?;
    Ok(bytes)
}

/// Returns the body of a frame: the bytes behind its header, if it has one.
fn body_of(frame: &[u8]) -> &[u8]
    ensures { result.now ≡ drop 18 frame.now }
{
    if frame.len() < HEADER_LENGTH {
        return &[];
    }
    &frame[HEADER_LENGTH..]
}
