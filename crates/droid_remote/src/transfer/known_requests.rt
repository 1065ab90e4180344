//! The requests by which a service is vouched for on each new connection, and which answers are remembered as such.

ghost use Rattle.std.specs.Prelude.{◌≡◌, None, IfErr, IfOk, OnErr};
ghost use Rattle.droid_frame.specs.Replies.{SpellsReply};
ghost use Rattle.droid_remote.specs.Vouching.{adds_newest, adds_node, remember_as};
ghost use Rattle.droid_remote.specs.TransferFaults.{ExplainsBody};

use crate::transfer::reply_checks::{copy_of, read_reply};
use crate::transfer::transfer_fault::TransferFault;
use droid_frame::kinds::{ABANDON, ADD_FILE, ADD_FOLDER, CREATE_PROFILE, FINISH};
use droid_frame::{Frame, Reply};
use std::alloc::Global;

/// A request that the service accepted, and its reply. The service keeps the reply, and repeats it when the request
/// comes again. One that replies otherwise lost what it kept, or is another service.
#[derive(Drop)]
pub struct Known {
    /// The request.
    pub request: Frame,
    /// The frame of its reply.
    pub reply: Frame,
}

/// The requests that a new connection begins with.
#[derive(Drop)]
pub struct KnownRequests {
    /// The last CreateProfile that was answered by Made.
    pub profile: Option<Known>,
    /// The last change of the profile's nodes: an AddFolder or AddFile that was answered by Node with the greatest
    /// number so far, a Finish by Finished, or an Abandon by Abandoned.
    pub change: Option<Known>,
    /// The greatest number of a node so far, or 0.
    pub newest: u32,
}

impl KnownRequests {
    /// Returns that no request is known: any service is then accepted.
    pub(crate) fn new() -> KnownRequests
        ensures profile { result.profile ≡ None }
        ensures change { result.change ≡ None }
        ensures newest { result.newest ≡ 0 }
    {
        KnownRequests {
            profile: None,
            change: None,
            newest: 0,
        }
    }

    /// Reads the reply in an answer, and remembers the answer if a profile was made or a node was made, finished or
    /// abandoned. The kinds above ABANDON are never remembered, so their replies, which may be long, are not copied:
    /// that is for speed alone.
    ///
    /// Fails if memory runs out, or as `Stranger` if the frame spells no reply; then what is known stays.
    pub(crate) fn read_answer(
        &mut self,
        alloc: Global,
        answer: Known,
    ) -> Result<Reply, TransferFault>
        ensures spelled { IfOk result (SpellsReply answer.reply.version answer.reply.kind answer.reply.body) }
        ensures known { IfOk result (λ reply. self.new ≡ remember_as self.old answer reply) }
        ensures fault { IfErr result (λ fault. ExplainsBody fault answer.reply) }
        ensures same { OnErr result (self.new ≡ self.old) }
    {
        if answer.request.kind > ABANDON {
            let reply = read_reply(alloc, answer.reply)?;
            return Ok(reply);
        }
        let copy = copy_of(alloc, &answer.reply)?;
        let reply = read_reply(alloc, copy)?;
        self.remember(answer, &reply);
        Ok(reply)
    }

    /// Remembers an answer, in the place of the one before, if a profile was made or a node was made, finished or
    /// abandoned, by a request that asks for that. A node counts by [`adds_newest`].
    ///
    /// A node with a lower number than another one was there before that one. A service that was restarted and has
    /// forgotten both may number its first node so, whatever it is: its reply would vouch for nothing.
    fn remember(&mut self, answer: Known, reply: &Reply)
        ensures { self.new ≡ remember_as self.old answer reply.now }
    {
        match reply {
            Reply::Made { .. } => {
                if answer.request.kind == CREATE_PROFILE {
                    self.profile = Some(answer);
                }
            }
            Reply::Node { id } => {
                if adds_newest(answer.request.kind, *id, self.newest) {
                    self.change = Some(answer);
                    self.newest = *id;
                }
            }
            Reply::Finished { .. } => {
                if answer.request.kind == FINISH {
                    self.change = Some(answer);
                }
            }
            Reply::Abandoned => {
                if answer.request.kind == ABANDON {
                    self.change = Some(answer);
                }
            }
            _ => {}
        }
    }
}

/// Returns whether a request of this kind adds a node, and its number is not lower than the greatest so far.
fn adds_newest(kind: u8, number: u32, newest: u32) -> bool
    ensures { result ≡ adds_newest kind number newest }
{
    adds_node(kind) && newest <= number
}

/// Returns whether this is the kind of AddFolder or AddFile.
fn adds_node(kind: u8) -> bool
    ensures { result ≡ adds_node kind }
{
    kind == ADD_FOLDER || kind == ADD_FILE
}
