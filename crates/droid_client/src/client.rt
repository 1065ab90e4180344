//! The client of a service: `Client`, the state of all its requests.

ghost use Rattle.std.specs.Prelude.{◌≡◌, ◌↔◌, ◌<◌, ◌^◌, ◌+◌, length, IfOk, IfSome, IfNone, OnOk, OnErr, IsErrOf, None};
ghost use Rattle.std.specs.Prelude.{Some, vec_len};
ghost use Rattle.std.specs.List.{slice_get};
ghost use Rattle.std.specs.Option.{option_copied};
ghost use Rattle.droid_frame.specs.Bodies.{Fits};
ghost use Rattle.droid_frame.specs.Replies.{SpellsReply};
ghost use Rattle.droid_frame.specs.declared.reply.Reply.{Reply};
ghost use Rattle.droid_client.specs.Cores.{new_core, next_number, core_submitting, core_hearing, heard_of, answer_of};
ghost use Rattle.droid_client.specs.Cores.{refusal_of, pending_of, slot_at};
ghost use Rattle.droid_client.specs.Places.{place_of};

use crate::client_fault::{HearFault, SubmitFault};
use crate::heard::Heard;
use crate::pending_list::hear_at;
use crate::slot::Slot;
use droid_frame::{
    BodyFault, Frame, NUMBER_LIMIT, Refusal, Reply, Request, reply_of, request_frame,
};
use std::alloc::Global;
use std::collections::VecDeque;
use std::marker::Model;

/// A client of a service. It numbers its requests upwards from a first number, and keeps each until it is answered.
///
/// A refused request stays pending: if its frame arrives again later, the service may still accept it. The caller
/// decides which frames it sends, how often and in what order. [`Client::pending_at`] returns those without an answer.
#[derive(Drop)]
pub struct Client {
    alloc: Global,
    client: u32,
    first: u64,
    // One for each submitted request, in order of their numbers.
    slots: Vec<Slot>,
    // The indices of those that have no answer, in order.
    pending: VecDeque<usize>,
}

impl Model for Client {
    ghost use Rattle.droid_client.specs.Cores.{Core};
    ghost use Rattle.droid_client.specs.Places.{KeepsPlaces};

    ghost Value = { Core };

    ghost view = { λ c. record { client = c.client; first = c.first; slots = c.slots.items } };

    ghost invariant = { λ c. KeepsPlaces c.first c.slots.items c.pending.items };
}

impl Client {
    /// Makes a client that has submitted nothing. Its first request gets the number `first`. Allocates nothing.
    pub fn new(alloc: Global, client: u32, first: u64) -> Client
        requires { first < 2 ^ 63 }
        ensures { result ≡ new_core client first }
    {
        Client {
            alloc,
            client,
            first,
            slots: Vec::new(alloc),
            pending: VecDeque::new(alloc),
        }
    }

    /// Submits a request in version 1 or 2 and returns its number. The request is then pending, and its replies have to
    /// come in the same version. Numbers end below 2^63.
    pub fn submit(&mut self, version: u8, request: Request) -> Result<u64, SubmitFault>
        requires { Fits version request }
        ensures number { IfOk result (λ number. number ≡ next_number self.old) }
        ensures submitted { OnOk result (self.new ≡ core_submitting self.old version request) }
        ensures used_up { IsErrOf result SubmitFault.NumbersUsedUp ↔ (next_number self.old ≡ 2 ^ 63) }
        ensures unchanged { OnErr result (self.new ≡ self.old) }
    {
        let place = self.slots.len();
        let number = self.first + place as u64;
        if number >= NUMBER_LIMIT {
            return Err(SubmitFault::NumbersUsedUp);
        }
        let frame = request_frame(self.alloc, version, self.client, number, &request)?;
        self.slots.reserve(1)?;
        self.pending.reserve(1)?;
        self.slots.push(Slot::new(frame)).unwrap();
        self.pending.push_back_reserved(place);
        Ok(number)
    }

    /// Returns how many submitted requests have no answer, in constant time.
    pub fn pending(&self) -> usize
        ensures { result ≡ length (pending_of self.now) }
    {
        self.pending.len()
    }

    /// Returns the frame of the pending request at this index, in order of their numbers. Takes constant time. `None`
    /// from [`Client::pending`] on.
    pub fn pending_at(&self, index: usize) -> Option<&Frame>
        ensures { option_copied result ≡ slice_get (pending_of self.now) index }
    {
        let place = *self.pending.get(index)?;
        self.slots[place].pending()
    }

    /// Takes a reply that arrived. An answer frees the frame of its request. Only the list of identifiers in a Finished
    /// reply is allocated.
    ///
    /// Finds an answered request among the pending ones by binary search, and closes the gap from the shorter side.
    pub fn on_reply(&mut self, frame: Frame) -> Result<Heard, HearFault>
        // If the frame holds a reply, the client takes that reply.
        ensures heard { (reply : Reply) → SpellsReply frame.version frame.kind frame.body reply
            → IfOk result (λ heard. heard ≡ heard_of self.old frame.version frame.client frame.number reply) }
        ensures after { (reply : Reply) → SpellsReply frame.version frame.kind frame.body reply
            → OnOk result (self.new ≡ core_hearing self.old frame.version frame.client frame.number reply) }
        // If the call succeeds, the frame holds a reply.
        ensures spelled { OnOk result ((reply : Reply) × SpellsReply frame.version frame.kind frame.body reply) }
        // `Malformed` is returned exactly if the frame holds no reply.
        ensures malformed { IsErrOf result HearFault.Malformed
            ↔ ((reply : Reply) → ¬ SpellsReply frame.version frame.kind frame.body reply) }
        // `Memory` is returned only for a Finished reply, whose list is allocated.
        ensures memory { IsErrOf result HearFault.Memory → frame.kind ≡ 132 }
        ensures unchanged { OnErr result (self.new ≡ self.old) }
    {
        let version = frame.version;
        let client = frame.client;
        let number = frame.number;
        match reply_of(self.alloc, frame) {
            Ok(reply) => Ok(self.hear(version, client, number, reply)),
            Err(BodyFault::Malformed) => Err(HearFault::Malformed),
            Err(BodyFault::Memory) => Err(HearFault::Memory),
        }
    }

    /// Returns the answer to the request with this number, if it has one, in constant time.
    pub fn answer(&self, number: u64) -> Option<&Reply>
        ensures { option_copied result ≡ answer_of self.now number }
    {
        self.slot(number)?.answer()
    }

    /// Returns the last refusal of the request with this number, if it was refused, in constant time. An answer doesn't
    /// clear it.
    pub fn refusal(&self, number: u64) -> Option<Refusal>
        ensures { result ≡ refusal_of self.now number }
    {
        self.slot(number)?.refusal()
    }

    /// Takes a reply that came under this version, client and number, and says what came of it. One of another client,
    /// or of a number that was never submitted, is a `Stranger` and changes nothing.
    fn hear(&mut self, version: u8, client: u32, number: u64, reply: Reply) -> Heard
        ensures heard { result ≡ heard_of self.old version client number reply }
        ensures after { self.new ≡ core_hearing self.old version client number reply }
    {
        if client != self.client {
            return Heard::Stranger;
        }
        let Some(place) = place_of(self.first, self.slots.len(), number) else {
            return Heard::Stranger;
        };
        hear_at(&mut self.slots, &mut self.pending, place, version, reply)
    }

    /// Returns the slot of the request that was submitted under this number, or `None` if none was.
    fn slot(&self, number: u64) -> Option<&Slot>
        ensures { option_copied result ≡ slot_at self.now number }
    {
        let place = place_of(self.first, self.slots.len(), number)?;
        self.slots.get(place)
    }
}

/// Returns the index of the slot with this number, among `count` slots numbered from `first` on, or `None` if none has
/// it.
fn place_of(first: u64, count: usize, number: u64) -> Option<usize>
    ensures { result ≡ place_of first count number }
{
    let place = number.checked_sub(first)?;
    if place >= count as u64 {
        return None;
    }
    Some(place as usize)
}
