//! Laws of bare frames. Each is the contract of a function that does nothing, and is proved with it.

ghost use Rattle.std.specs.Prelude.{◌≡◌, ℕ, List, length};
ghost use Rattle.droid_frame.specs.Bodies.{SpellsRequest};
ghost use Rattle.droid_frame.specs.Frames.{frame_bytes};
ghost use Rattle.droid_frame.specs.Replies.{HasReplySpelling, reply_kind};
ghost use Rattle.droid_frame.specs.ReplyFrames.{reply_frame};
ghost use Rattle.droid_frame.specs.Streams.{IsReadable};
ghost use Rattle.droid_frame.specs.declared.frame.Frame.{Frame};
ghost use Rattle.droid_frame.specs.declared.reply.Reply.{Reply};
ghost use Rattle.droid_frame.specs.declared.request.Request.{Request};
ghost use Rattle.droid_compaction.specs.BareFrames.{bare_finish, bare_finish_bytes, bare_piece, bare_piece_bytes};

use crate::frame_writer::{BARE_FINISH, BARE_PIECE};

/// A frame of a bare kind spells no request, so a service refuses it as malformed.
pub fn a_bare_frame_spells_no_request()
    ensures piece { (version : ℕ) (body : List ℕ) (request : Request) → SpellsRequest version 68 body request → ⊥ }
    ensures finish { (version : ℕ) (body : List ℕ) (request : Request) → SpellsRequest version 69 body request → ⊥ }
    ensures kinds { (BARE_PIECE ≡ 68) × (BARE_FINISH ≡ 69) }
{}

/// The bytes that are made of the bytes of a request's and a reply's frame are those of the bare frame.
pub fn bare_bytes_are_of_the_bare_frame()
    ensures piece { (frame : Frame) (reply : Reply)
        → bare_piece_bytes (frame_bytes frame) (reply_frame frame.version frame.client frame.number reply)
        ≡ frame_bytes (bare_piece frame reply) }
    ensures finish { (frame : Frame) (reply : Reply)
        → bare_finish_bytes (frame_bytes frame) (reply_frame frame.version frame.client frame.number reply)
        ≡ frame_bytes (bare_finish frame reply) }
{}

/// A stream can carry the bare frame of a readable piece with a Taken, and that of a readable Finish with a Finished.
pub fn a_bare_frame_can_be_read()
    ensures piece { (frame : Frame) (reply : Reply) → IsReadable frame → HasReplySpelling frame.version reply
        → reply_kind reply ≡ 131 → IsReadable (bare_piece frame reply) }
    ensures finish { (frame : Frame) (reply : Reply) → IsReadable frame → length frame.body ≡ 8
        → HasReplySpelling frame.version reply → reply_kind reply ≡ 132 → IsReadable (bare_finish frame reply) }
{}
