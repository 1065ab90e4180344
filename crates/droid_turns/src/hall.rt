//! All open connections, and the turn that each gets: accept, look, handle, settle, write. [`Peer`] does it for one.

ghost use Rattle.std.specs.Prelude.{◌≡◌, ◌+◌, ◌-◌, ◌<◌, ◌≤◌, ◌⊎◌, ℕ, [], true, false, IfOk, Some, length, vec_capacity};
ghost use Rattle.std.specs.List.{AllByRecursion};
ghost use Rattle.droid_turns.specs.Halls.{Admits, ClosesSome, HasRooms, Heard, HearsEach, IsAtRest, IsPatient};
ghost use Rattle.droid_turns.specs.Halls.{IsWriting, LeadsInTurn, Looked, NoPeer, Served as HadTurn, Stops, Turned};
ghost use Rattle.droid_turns.specs.Halls.{Unheard, having};
ghost use Rattle.droid_turns.specs.Peers.{IsHearing};
ghost use Rattle.droid_turns.specs.Turns.{HasEnough, share_of};
ghost use Rattle.droid_turns.specs.Steps.{Goes, Moves};
ghost use Rattle.droid_turns.specs.declared.rules.Rules.{Rules as RulesValue};

use crate::connections::Connections;
use crate::departure::Departure;
use crate::handler::Handler;
use crate::peer::Peer;
use crate::rules::Rules;
use std::alloc::{AllocError, Global};
use std::mem;

/// The longest wait, in milliseconds. No clause needs it: without it the loop could wait for ever, and `droid_sockets`
/// (`MINUTE`) could not print a line each minute.
const LONGEST_WAIT: u64 = 60_000;

/// The frames that are shared in a turn. This number and the next one stand in the definition `share_of` too.
const FRAMES: usize = 256;

/// The most frames of one connection that are handled in a turn.
const FRAMES_OF_ONE: usize = 64;

/// The open connections.
#[derive(Drop)]
pub(crate) struct Hall {
    /// The connections that wait for their part of a turn.
    pub(crate) waiting: Vec<Peer>,
    /// The connections that had their part.
    pub(crate) served: Vec<Peer>,
    /// How many were accepted. This is the number of the next one.
    pub(crate) opened: u64,
    /// The last reading of the clock.
    pub(crate) time: u64,
    /// How many frames were handled in the last turn, for [`Connections::wait`]. No clause holds it.
    pub(crate) frames: u64,
    /// How many frames of a connection are handled in the turn, at most. 1 until it is known how many have any.
    pub(crate) share: usize,
}

impl Hall {
    /// Makes a hall in which no connection is open. Takes the memory for `seats` of them, so no later move of one from
    /// list to list can fail.
    pub(crate) fn new(alloc: Global, seats: usize) -> Result<Hall, AllocError>
        ensures rooms { IfOk result (HasRooms seats) }
        ensures first { IfOk result (λ hall. hall.served.items ≡ []) }
        ensures share { IfOk result (λ hall. hall.share ≡ 64) }
        ensures empty { IfOk result (λ hall. (rules : RulesValue) → IsAtRest rules hall []) }
    {
        Ok(Hall {
            waiting: Vec::with_capacity(alloc, seats)?,
            served: Vec::with_capacity(alloc, seats)?,
            opened: 0,
            time: 0,
            frames: 0,
            share: FRAMES_OF_ONE,
        })
    }

    /// Whether as many connections as the rules allow (`total`) came and left.
    pub(crate) fn is_over(&self, total: Option<u64>) -> bool
        ensures empty { result ≡ true → self.now.waiting.items ≡ [] }
        ensures all { result ≡ true → HasEnough total self.now.opened }
    {
        self.waiting.is_empty() && !self.wants_more(total)
    }

    /// Whether the rules allow more connections. Without a `total` the numbers end at 2^64 - 1.
    fn wants_more(&self, total: Option<u64>) -> bool
        ensures more { result ≡ true → (wanted : ℕ) → total ≡ Some wanted → self.now.opened < wanted }
        ensures enough { result ≡ false → HasEnough total self.now.opened }
        ensures bound { result ≡ true → self.now.opened < 18446744073709551615 }
    {
        match total {
            Some(total) => self.opened < total,
            None => self.opened < u64::MAX,
        }
    }

    /// Returns how many milliseconds the loop may wait before the next turn: the least [`Peer::patience`] of the open
    /// connections, and at most a minute. `idle` is that of the rules.
    pub(crate) fn patience(&self, idle: u64) -> u64
        ensures { AllByRecursion (IsPatient idle self.now.time result) self.now.waiting.items }
    {
        let mut limit = LONGEST_WAIT;
        for peer in &self.waiting {
            limit = limit.min(peer.patience(self.time, idle));
        }
        limit
    }

    /// Accepts waiting connections, and gives every open connection its turn: looks what each has, handles its share of
    /// frames, has the handler settle, and writes each its replies.
    ///
    /// Returns false if the handler failed to settle. Then it has closed every connection, and written nothing.
    pub(crate) fn turn<C: Connections, H: Handler>(
        &mut self,
        alloc: Global,
        connections: &mut C,
        handler: &mut H,
        rules: Rules,
    ) -> bool
        requires rooms { HasRooms rules.seats self.old }
        requires first { self.old.served.items ≡ [] }
        ensures rooms { result ≡ true → HasRooms rules.seats self.new }
        ensures first { result ≡ true → self.new.served.items ≡ [] }
        ensures goes { Goes C.does H.handles H.settles connections.old handler.old connections.new handler.new
            (Turned result rules self.old self.new) }
    {
        self.time = connections.now();
        self.share = 1;
        self.admit(alloc, connections, rules);
        self.look_all(connections, rules.seats);
        self.share = self.fair_share();
        self.hear_all(connections, handler, rules.seats);
        let settled = handler.settle();
        if !settled {
            close_all(&mut self.served, connections, Departure::Unsettled);
            return false;
        }
        self.write_out_all(connections, rules.seats, rules.idle);
        true
    }

    /// Whether a connection may be accepted: there is a seat, and the rules allow more connections.
    fn may_accept(&self, rules: Rules) -> bool
        ensures seat { result ≡ true → length self.now.waiting.items < rules.seats }
        ensures more { result ≡ true → (wanted : ℕ) → rules.total ≡ Some wanted → self.now.opened < wanted }
        ensures bound { result ≡ true → self.now.opened < 18446744073709551615 }
        ensures enough { result ≡ false
            → (rules.seats ≤ length self.now.waiting.items) ⊎ HasEnough rules.total self.now.opened }
    {
        if self.waiting.len() >= rules.seats {
            return false;
        }
        self.wants_more(rules.total)
    }

    /// Accepts waiting connections, while there are seats and the rules allow more. One for whose state there is no
    /// memory is closed at once.
    fn admit<C: Connections>(&mut self, alloc: Global, connections: &mut C, rules: Rules)
        requires rooms { HasRooms rules.seats self.old }
        requires first { self.old.served.items ≡ [] }
        ensures rooms { HasRooms rules.seats self.new }
        ensures first { self.new.served.items ≡ [] }
        ensures now { self.new.time ≡ self.old.time }
        ensures share { self.new.share ≡ self.old.share }
        ensures moves { Moves C.does connections.old connections.new (Admits rules self.old self.new) }
    {
        while self.may_accept(rules) {
            let id = self.opened;
            if !connections.accept(id) {
                return;
            }
            self.opened += 1;
            match Peer::new(alloc, id, self.time) {
                Ok(peer) => self.waiting.push_reserved(peer),
                Err(_) => connections.close(id, Departure::Memory, 0),
            }
        }
    }

    /// Has each connection look what it has. All stand in `waiting` before and after: [`look_each`](Hall::look_each)
    /// moves them to the other list, and then the lists change places.
    fn look_all<C: Connections>(&mut self, connections: &mut C, seats: usize)
        requires rooms { HasRooms seats self.old }
        requires first { self.old.served.items ≡ [] }
        requires least { self.old.share ≡ 1 }
        ensures rooms { HasRooms seats self.new }
        ensures first { self.new.served.items ≡ [] }
        ensures now { self.new.time ≡ self.old.time }
        ensures share { self.new.share ≡ self.old.share }
        ensures moves { (rules : RulesValue) → Moves C.does connections.old connections.new
            (LeadsInTurn rules IsHearing (Unheard self.old.time) NoPeer (Looked self.old.time) NoPeer
            self.old self.new) }
    {
        self.look_each(connections, seats);
        mem::swap(&mut self.waiting, &mut self.served);
    }

    /// Has each connection look what it has, which reads those once that have no bytes, and moves it to `served`.
    fn look_each<C: Connections>(&mut self, connections: &mut C, seats: usize)
        requires rooms { HasRooms seats self.old }
        requires least { self.old.share ≡ 1 }
        ensures rooms { HasRooms seats self.new }
        ensures all { self.new.waiting.items ≡ [] }
        ensures now { self.new.time ≡ self.old.time }
        ensures share { self.new.share ≡ self.old.share }
        ensures moves { (rules : RulesValue) → Moves C.does connections.old connections.new
            (LeadsInTurn rules IsHearing (Unheard self.old.time) (Looked self.old.time) NoPeer (Looked self.old.time)
            self.old self.new) }
    {
        while let Some(mut peer) = self.waiting.pop() {
            peer.look(connections, self.time);
            self.served.push_reserved(peer);
        }
    }

    /// Returns how many frames of each connection may be handled in this turn, by how many connections have bytes.
    fn fair_share(&self) -> usize
        ensures fair { result ≡ share_of (having self.now.waiting.items) }
        ensures some { 1 ≤ result }
        ensures few { result ≤ 64 }
    {
        let mut having = 0;
        for peer in &self.waiting {
            if peer.has_bytes() {
                having += 1;
            }
        }
        share_of(having)
    }

    /// Handles the frames of each connection, of each up to its share, and moves it to `served`. Counts them in
    /// `frames`.
    fn hear_all<C: Connections, H: Handler>(
        &mut self,
        connections: &mut C,
        handler: &mut H,
        seats: usize,
    )
        requires rooms { HasRooms seats self.old }
        requires some { 1 ≤ self.old.share }
        requires few { self.old.share ≤ 64 }
        ensures rooms { HasRooms seats self.new }
        ensures now { self.new.time ≡ self.old.time }
        ensures share { self.new.share ≡ self.old.share }
        ensures opened { self.new.opened ≡ self.old.opened }
        ensures all { self.new.waiting.items ≡ [] }
        ensures goes { (rules : RulesValue)
            → Goes C.does H.handles H.settles connections.old handler.old connections.new handler.new
            (HearsEach rules (Heard self.old.share self.old.time) NoPeer self.old self.new) }
    {
        self.frames = 0;
        while let Some(mut peer) = self.waiting.pop() {
            let before = peer.frames;
            peer.hear(connections, handler, self.time, self.share);
            let more = peer.frames.saturating_sub(before);
            self.frames = self.frames.saturating_add(more);
            self.served.push_reserved(peer);
        }
    }

    /// Writes each connection its replies. Closes those that are over, and moves the others to `waiting`.
    fn write_out_all<C: Connections>(&mut self, connections: &mut C, seats: usize, idle: u64)
        requires rooms { HasRooms seats self.old }
        ensures rooms { HasRooms seats self.new }
        ensures now { self.new.time ≡ self.old.time }
        ensures share { self.new.share ≡ self.old.share }
        ensures opened { self.new.opened ≡ self.old.opened }
        ensures all { self.new.served.items ≡ [] }
        ensures moves { (rules : RulesValue) → rules.idle ≡ idle → Moves C.does connections.old connections.new
            (LeadsInTurn rules IsWriting (HadTurn self.old.share rules.idle self.old.time)
            (Heard self.old.share self.old.time) (HadTurn self.old.share rules.idle self.old.time) NoPeer
            self.old self.new) }
    {
        while let Some(mut peer) = self.served.pop() {
            match peer.write_out(connections, self.time, idle) {
                None => self.waiting.push_reserved(peer),
                Some(why) => connections.close(peer.id, why, peer.frames),
            }
        }
    }

    /// Closes every connection, since waiting failed or the turns have run out. Between two turns all are in `waiting`.
    pub(crate) fn stop<C: Connections>(&mut self, connections: &mut C)
        requires first { self.old.served.items ≡ [] }
        ensures moves { (rules : RulesValue)
            → Moves C.does connections.old connections.new (Stops rules self.old self.new) }
    {
        close_all(&mut self.waiting, connections, Departure::Stopped);
    }
}

/// Returns how many frames of each connection may be handled, if `having` connections have bytes: an equal part of
/// [`FRAMES`], at least 1 and at most [`FRAMES_OF_ONE`].
fn share_of(having: usize) -> usize
    ensures fair { result ≡ share_of having }
    ensures some { 1 ≤ result }
    ensures few { result ≤ 64 }
{
    (FRAMES / having.max(1)).max(1).min(FRAMES_OF_ONE)
}

/// Closes these connections, for this reason, and empties the list.
fn close_all<C: Connections>(peers: &mut Vec<Peer>, connections: &mut C, why: Departure)
    ensures none { peers.new.items ≡ [] }
    ensures moves { Moves C.does connections.old connections.new (ClosesSome why peers.old.items peers.new.items) }
{
    while let Some(peer) = peers.pop() {
        connections.close(peer.id, why, peer.frames);
    }
}
