//! The client of a submission: numbers its requests, sends them over a connection, and stops for good after a fault.

ghost use Rattle.std.specs.Prelude.{◌≡◌, None, [], IfErr, OnOk};
ghost use Rattle.droid_remote.specs.Calls.{EndsAll, Wherever};
ghost use Rattle.droid_remote.specs.SenderCalls.{CallsSender, FailsToSettle, IsFresh, client_fault_of, stop_of};

use crate::numbered_frame::numbered_frame;
use crate::patience::ask_patiently;
use crate::transfer::connection::Connection;
use crate::transfer::in_flight::InFlight;
use crate::transfer::transfer_fault::TransferFault;
use droid_frame::kinds::PIECE;
use droid_frame::{Blob, Reply, Text};
use droid_upload::{Client, ClientFault};
use std::alloc::Global;

/// Sends the requests of a submission over a connection that may break, each under its own number.
#[derive(Drop)]
pub struct Sender<C> {
    /// The connection, and the requests in flight.
    pub in_flight: InFlight<C>,
    /// The number of the client.
    pub client: u32,
    /// The name of the submission.
    pub name: Text,
    /// Why no more requests are sent.
    pub stopped: Option<TransferFault>,
}

impl<C: Connection> Sender<C> {
    /// Makes the client of a submission. The connection is made with the first request.
    pub fn new(alloc: Global, connection: C, client: u32, name: Text) -> Sender<C>
        ensures connection { result.in_flight.connection ≡ connection }
        ensures client { result.client ≡ client }
        ensures name { result.name ≡ name }
        ensures going { result.stopped ≡ None }
        ensures fresh { IsFresh result }
    {
        Sender {
            in_flight: InFlight::new(alloc, connection),
            client,
            name,
            stopped: None,
        }
    }

    /// Waits for the replies to all pieces in flight, which must be Taken. Any fault, a refused piece included, stops
    /// the sender; one that was stopped returns its fault.
    pub(crate) fn settle(&mut self) -> Result<(), TransferFault>
        ensures settled { OnOk result
            (Wherever self.old.in_flight (λ known facts.
            EndsAll C.does known facts self.old.in_flight self.new.in_flight)) }
        ensures same { OnOk result (self.new ≡ record self.old { in_flight = self.new.in_flight }) }
        ensures none { OnOk result (self.new.in_flight.waiting.items ≡ []) }
        ensures going { OnOk result (self.old.stopped ≡ None) }
        ensures failed { IfErr result (λ fault. FailsToSettle C.does fault self.old self.new) }
    {
        match self.stopped {
            Some(fault) => return Err(fault),
            None => {}
        }
        match self.in_flight.settle_all() {
            Ok(()) => Ok(()),
            Err(fault) => {
                self.stopped = Some(fault);
                Err(fault)
            }
        }
    }
}

impl<C: Connection> Client for Sender<C> {
    ghost calls = { CallsSender C.does };

    /// Sends a request under its number, again while the service has no place, and waits for its reply and those to the
    /// pieces before it. A sender that was stopped, and what is no request of a submission, is `Ended`: nothing is
    /// sent. Any other fault is passed on by [`client_fault_of`], and stops the sender unless a piece was refused.
    fn ask(&mut self, attempt: u32, kind: u8, body: Blob) -> Result<Reply, ClientFault> {
        match self.stopped {
            Some(_) => return Err(ClientFault::Ended),
            None => {}
        }
        let Some(frame) = numbered_frame(self.client, self.name.as_str(), attempt, kind, body)
        else {
            return Err(ClientFault::Ended);
        };
        match ask_patiently(&mut self.in_flight, frame) {
            Ok(reply) => Ok(reply),
            Err(fault) => {
                self.stopped = stop_of(fault);
                Err(client_fault_of(fault))
            }
        }
    }

    /// Sends a piece under its number. The reply comes later; only where sixteen (`IN_FLIGHT_LIMIT`) are in flight is
    /// the oldest awaited. Nothing is sent, and `Ended` is returned, in the same cases as above; any other fault does
    /// what it does there.
    fn send(&mut self, body: Blob) -> Result<(), ClientFault> {
        match self.stopped {
            Some(_) => return Err(ClientFault::Ended),
            None => {}
        }
        let Some(frame) = numbered_frame(self.client, self.name.as_str(), 0, PIECE, body) else {
            return Err(ClientFault::Ended);
        };
        match self.in_flight.send(frame) {
            Ok(()) => Ok(()),
            Err(fault) => {
                self.stopped = stop_of(fault);
                Err(client_fault_of(fault))
            }
        }
    }
}

/// Returns what the walk learns of a fault: how a piece was refused, or only `Ended`: that nothing more is sent. The
/// reason then stands in [`Sender::stopped`].
fn client_fault_of(fault: TransferFault) -> ClientFault
    ensures { result ≡ client_fault_of fault }
{
    match fault {
        TransferFault::Refused(refusal) => ClientFault::Piece(refusal),
        _ => ClientFault::Ended,
    }
}

/// Returns why no more requests are sent after a fault, or `None` after a refused piece: the sender goes on, and
/// `changed_by` of `droid_upload` decides: NumberReused ends the file alone, every other refusal the submission.
fn stop_of(fault: TransferFault) -> Option<TransferFault>
    ensures { result ≡ stop_of fault }
{
    match fault {
        TransferFault::Refused(_) => None,
        _ => Some(fault),
    }
}
