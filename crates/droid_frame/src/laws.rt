//! Laws of frames and of streams of frames. Each is the contract of a function that does nothing.

ghost use Rattle.droid_frame.specs.ReplyFrames.{ReplyFramesAreReadable};
ghost use Rattle.droid_frame.specs.StreamLaws.{OneFrameAtTheFront, EachStreamHasFrames, NoStreamHasOthers};

pub use crate::body_laws::{spells_one_reply, spells_one_request};
pub use crate::limit_laws::constants_are_the_limits;

/// No frame's spelling is a prefix of another frame's. If the same input begins with the spellings of two frames, the
/// frames are equal, and so are the bytes after them. The law holds for bodies within the
/// [`body_limit`](crate::versions::body_limit) of their versions.
pub fn one_frame_at_the_front()
    ensures { OneFrameAtTheFront }
{}

/// Every stream of bytes divides in exactly one way into frames and a rest that begins with no frame.
pub fn one_reading_of_a_stream()
    ensures there { EachStreamHasFrames }
    ensures only { NoStreamHasOthers }
{}

/// The frame of every reply that has a spelling is readable. So [`read_frame`](crate::streams::read_frame) returns this
/// frame from its written bytes, and [`reply_of`](crate::reading::replies::reply_of) returns the reply.
pub fn reply_frames_are_readable()
    ensures { ReplyFramesAreReadable }
{}
