//! The trait for a handler of requests.

ghost use Rattle.std.specs.Prelude.{Bool};
ghost use Rattle.droid_frame.specs.Replies.{HasReplySpelling};
ghost use Rattle.droid_frame.specs.declared.frame.Frame.{Frame};
ghost use Rattle.droid_frame.specs.declared.reply.Reply.{Reply};

use droid_frame::{Frame, Reply};

/// Handles the frames of all connections, one after another.
pub trait Handler {
    /// Relates the state before a frame, the frame, its reply, and the state after it.
    ghost handles: { Self → Frame → Reply → Self → Type 0 };

    /// Relates the state before a call of `settle`, whether it succeeded, and the state after it.
    ghost settles: { Self → Bool → Self → Type 0 };

    /// Handles a frame and returns its one reply, which has a spelling in the frame's version.
    fn handle(&mut self, frame: Frame) -> Reply
        ensures handles { handles self.old frame result self.new }
        ensures spelled { HasReplySpelling frame.version result };

    /// Makes what was handled permanent, whatever happens to the program from now on. Returns false if that failed.
    ///
    /// The loop calls this once in each turn, before it writes any reply, also if no frame was handled. A handler that
    /// has nothing to settle returns true at once.
    fn settle(&mut self) -> bool
        ensures { settles self.old result self.new };
}
