//! Submits a whole tree over a connection.

ghost use Rattle.std.specs.Prelude.{IfErr, IfOk};
ghost use Rattle.droid_remote.specs.RemoteSubmissions.{EndsSubmission, Submits};

use crate::remote_fault::{RemoteFault, remote_fault_of};
use crate::sender::Sender;
use crate::transfer::connection::Connection;
use droid_tree::{Tree, Watcher};
use droid_upload::{Options, Submitted, Upload, submit_tree};

/// Creates a profile and submits everything in the tree to it, over a connection that may break. The watcher is
/// informed of each entry that is skipped.
///
/// To resume, call it again with a sender of the same client and name: what the service holds is not sent again.
pub fn submit<T: Tree, C: Connection, W: Watcher>(
    upload: &mut Upload<T, Sender<C>, W>,
    options: Options,
) -> Result<Submitted, RemoteFault>
    // The tree was walked; each request was written under its number, on a connection that was vouched for, and
    // answered.
    ensures submitted { IfOk result (λ submitted.
        Submits T.observes C.does W.hears options submitted upload.old upload.new) }
    // Otherwise it is the front of that, and the fault says why it ended.
    ensures ended { IfErr result (λ fault.
        EndsSubmission T.observes C.does W.hears options fault upload.old upload.new) }
{
    let submitted = match submit_tree(upload, options) {
        Ok(submitted) => submitted,
        Err(fault) => return Err(remote_fault_of(upload.client.stopped, fault)),
    };
    match upload.client.settle() {
        Ok(()) => Ok(submitted),
        Err(fault) => Err(RemoteFault::Sending(fault)),
    }
}
