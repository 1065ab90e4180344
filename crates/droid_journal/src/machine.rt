//! A machine whose state follows from the requests that it accepted.

ghost use Rattle.std.specs.Prelude.{◌≡◌, List, Bool};
ghost use Rattle.droid_frame.specs.Frames.{mark_of};
ghost use Rattle.droid_frame.specs.Replies.{HasReplySpelling};
ghost use Rattle.droid_frame.specs.Streams.{IsReadable};
ghost use Rattle.droid_frame.specs.declared.frame.Frame.{Frame};
ghost use Rattle.droid_frame.specs.declared.reply.Reply.{Reply};
ghost use Rattle.droid_journal.specs.Machines.{extended};
ghost use Rattle.droid_journal.specs.Records.{Record};

use droid_frame::{Frame, Reply};

/// A reply, and whether a request was accepted.
#[derive(Drop)]
pub struct Handled {
    /// The reply.
    pub reply: Reply,
    /// Whether the request belongs into the journal: it was accepted, and may be a new one.
    pub accepted: bool,
}

/// A machine whose state follows from the requests that it accepted, in order.
pub trait Machine {
    /// What its replies depend on beside the requests, such as a registry of formats.
    ghost Setting: { Type 0 };

    /// In this setting the machine has the state after these accepted requests, which got these replies.
    ghost stands: { Setting → Self → List Record → Type 0 };

    /// After these accepted requests, this request may get this reply, and is accepted or not.
    ghost gives: { Setting → List Record → Frame → Reply → Bool → Type 0 };

    /// Handles one request, whose mark this is.
    fn handle(&mut self, frame: Frame, mark: [u8; 16]) -> Handled
        requires readable { IsReadable frame }
        requires mark { mark ≡ mark_of frame.kind frame.body }
        ensures gives { (setting : Setting) (records : List Record) → stands setting self.old records
            → gives setting records frame result.reply result.accepted }
        ensures stands { (setting : Setting) (records : List Record) (first : Bool) → stands setting self.old records
            → stands setting self.new (extended records first frame result.reply result.accepted) }
        ensures spelled { HasReplySpelling frame.version result.reply };
}
