//! The service, as an upload talks to it.

ghost use Rattle.std.specs.Prelude.{IfErr, IfOk, OnOk};
ghost use Rattle.droid_frame.specs.Bodies.{SpellsRequest};
ghost use Rattle.droid_frame.specs.declared.request.Request.{Request};
ghost use Rattle.droid_upload.specs.Calls.{Call, Answered, Failed, Sent};

use crate::client_fault::ClientFault;
use droid_frame::{Blob, Reply};

/// A client of a service, in this process or behind a connection. It numbers the requests. `kind` and `body` are those
/// of a frame of version 2.
pub trait Client {
    /// Relates the state before a call, the request and how the call ended, and the state after it.
    ghost calls: { Self → Call → Self → Type 0 };

    /// Sends a request and returns its reply, after those to the pieces that were sent before. `attempt` says how often
    /// the file of an AddFile was added before and found abandoned; it is 0 for other requests.
    fn ask(&mut self, attempt: u32, kind: u8, body: Blob) -> Result<Reply, ClientFault>
        ensures answered { IfOk result (λ reply.
            (request : Request) → SpellsRequest 2 kind body request
            → calls self.old (Answered attempt request reply) self.new) }
        ensures failed { IfErr result (λ fault.
            (request : Request) → SpellsRequest 2 kind body request
            → calls self.old (Failed attempt request fault) self.new) };

    /// Sends a Piece, and reads its reply later.
    fn send(&mut self, body: Blob) -> Result<(), ClientFault>
        ensures sent { OnOk result ((request : Request) → SpellsRequest 2 4 body request
            → calls self.old (Sent request) self.new) }
        ensures failed { IfErr result (λ fault.
            (request : Request) → SpellsRequest 2 4 body request → calls self.old (Failed 0 request fault) self.new) };
}
