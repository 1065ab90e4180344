//! One submitted request and its answer: what a reply means for it, and what is kept of it.

ghost use Rattle.std.specs.Prelude.{◌≡◌, IfSome, IfNone, None, Some, is_some};
ghost use Rattle.std.specs.Option.{option_copied};
ghost use Rattle.droid_client.specs.Cores.{answer_in, belongs, belongs_at, heard_at, new_slot, pending_in, refusal_in};
ghost use Rattle.droid_client.specs.Cores.{slot_hearing};

use crate::heard::Heard;
use droid_frame::{Frame, Refusal, Reply};

/// A submitted request: its version and kind, whether it is answered, and its last refusal.
#[derive(Drop)]
pub(crate) struct Slot {
    version: u8,
    kind: u8,
    state: State,
    refusal: Option<Refusal>,
}

/// Whether a request is answered. Its frame is kept only until then.
#[derive(Drop)]
pub(crate) enum State {
    /// Not answered. This is its frame.
    Pending(Frame),
    /// Answered by this reply.
    Answered(Reply),
}

impl Slot {
    /// Makes the slot of a request that is being submitted.
    pub(crate) fn new(frame: Frame) -> Slot
        ensures { result ≡ new_slot frame }
    {
        Slot {
            version: frame.version,
            kind: frame.kind,
            state: State::Pending(frame),
            refusal: None,
        }
    }

    /// Takes a reply in this version to this request: keeps an answer in the place of the frame, and a refusal in the
    /// place of an earlier one. Any other reply changes nothing.
    pub(crate) fn hear(&mut self, version: u8, reply: Reply) -> Heard
        ensures heard { result ≡ heard_at self.old version reply }
        ensures after { self.new ≡ slot_hearing self.old version reply }
    {
        let heard = self.heard(version, &reply);
        match heard {
            Heard::Answered => self.state = State::Answered(reply),
            Heard::Refused => self.refusal = refusal_in(&reply),
            Heard::Repeated => {}
            Heard::Stranger => {}
        }
        heard
    }

    /// Returns what a reply in this version means for this request, which it leaves as it is.
    fn heard(&self, version: u8, reply: &Reply) -> Heard
        ensures { result ≡ heard_at self.now version reply.now }
    {
        if !self.is_answered_by(version, reply) {
            return Heard::Stranger;
        }
        if self.answer().is_some() {
            return Heard::Repeated;
        }
        match reply {
            Reply::Refused(_) => Heard::Refused,
            _ => Heard::Answered,
        }
    }

    /// Returns whether a reply has the request's version and a kind that answers it.
    fn is_answered_by(&self, version: u8, reply: &Reply) -> bool
        ensures { result ≡ belongs_at self.now version reply.now }
    {
        version == self.version && belongs(self.kind, reply)
    }

    /// Returns the answer, if there is one.
    pub(crate) fn answer(&self) -> Option<&Reply>
        ensures { option_copied result ≡ answer_in self.now.state }
    {
        match &self.state {
            State::Pending(_) => None,
            State::Answered(answer) => Some(answer),
        }
    }

    /// Returns the frame, if there is no answer yet.
    pub(crate) fn pending(&self) -> Option<&Frame>
        ensures { option_copied result ≡ pending_in self.now.state }
    {
        match &self.state {
            State::Pending(frame) => Some(frame),
            State::Answered(_) => None,
        }
    }

    /// Returns the last refusal, if the request was ever refused. An answer doesn't clear it.
    pub(crate) fn refusal(&self) -> Option<Refusal>
        ensures { result ≡ self.now.refusal }
    {
        self.refusal
    }
}

/// Returns whether a reply of this kind answers a request of kind `kind`. A refusal answers every kind. The kinds are
/// those of `Request::kind`, which `belongs` of `specs/Cores.antt` has too.
fn belongs(kind: u8, reply: &Reply) -> bool
    ensures { result ≡ belongs kind reply.now }
{
    match reply {
        Reply::Made { .. } => kind == 1,
        Reply::Node { .. } => kind == 2 || kind == 3,
        Reply::Taken { .. } => kind == 4,
        Reply::Finished { .. } => kind == 5,
        Reply::Abandoned => kind == 6,
        Reply::Progress { .. } => kind == 7,
        Reply::Part { .. } => kind == 8,
        Reply::Refused(_) => true,
    }
}

/// Returns the refusal, if the reply is one.
fn refusal_in(reply: &Reply) -> Option<Refusal>
    ensures { result ≡ refusal_in reply.now }
{
    match reply {
        Reply::Refused(refusal) => Some(*refusal),
        _ => None,
    }
}
