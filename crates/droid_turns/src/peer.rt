//! One open connection, and its part of a turn: it looks what it has, hears its frames, and writes out its replies.

ghost use Rattle.std.specs.Prelude.{◌≡◌, ◌+◌, ◌-◌, ◌*◌, ◌<◌, ◌≤◌, ◌++◌, ◌∷◌, [], List, ℕ, None, Some, true, false};
ghost use Rattle.std.specs.Prelude.{IfNone, IfOk, IfSome, IsSome, OnOk, length};
ghost use Rattle.std.specs.List.{AllByRecursion};
ghost use Rattle.droid_frame.specs.declared.reply.Reply.{Reply};
ghost use Rattle.droid_frame.specs.declared.frame.Frame.{Frame};
ghost use Rattle.droid_frame.specs.Versions.{IsVersion};
ghost use Rattle.droid_turns.specs.Events.{CameWithin, read_event};
ghost use Rattle.droid_turns.specs.Peers.{Advances, EndsAs, Hears, HearsSome, IsNew, IsQuiet, IsWhole, Kept, Lends};
ghost use Rattle.droid_turns.specs.Peers.{Looks, RanDry, Rests, Sends, Stands, Taking, Turns, WritesOut, has_bytes};
ghost use Rattle.droid_turns.specs.Peers.{is_hungry, is_over, kept_of, leaving_behind, may_be_read, unread};
ghost use Rattle.droid_turns.specs.Steps.{Goes, Handles, IsTraffic, Moves, Step};

use crate::connections::{Came, Connections, Took};
use crate::departure::Departure;
use crate::feeding::frame_feed::FrameFeed;
use crate::handler::Handler;
use crate::reply_queue::ReplyQueue;
use droid_frame::{Frame, FrameFault};
use std::alloc::{AllocError, Global};

/// How many bytes are read at once. The definition `IsWhole` has this number too.
const BUFFER: usize = 65_536;

/// The most frames of one connection that are handled: `frames_bound` in definitions. [`Departure::Enough`] and the
/// line that `droid_sockets` prints for it name this number.
const FRAMES: u64 = 1_000_000;

/// A connection is not read while more bytes of replies than this are queued for it. The definition `may_be_read` has
/// this number too.
const QUEUE_LIMIT: usize = 8_388_608;

/// An open connection.
#[derive(Drop)]
pub(crate) struct Peer {
    /// Its number.
    pub(crate) id: u64,
    /// The bytes of the next frame so far.
    pub(crate) feed: FrameFeed,
    /// The bytes of the last read. Those from `start` to `end` are not in `feed` yet.
    pub(crate) buffer: Vec<u8>,
    pub(crate) start: usize,
    pub(crate) end: usize,
    /// The replies that are not written yet.
    pub(crate) queue: ReplyQueue,
    /// Why it will be closed, once all replies are written. It is not read any more.
    pub(crate) leaving: Option<Departure>,
    /// When a byte of it last came or went, in milliseconds of the loop's clock. At first: when it was accepted.
    pub(crate) active: u64,
    /// Whether a read returned nothing in its last turn.
    pub(crate) drained: bool,
    /// How many bytes were read of it in this turn.
    pub(crate) read: usize,
    /// How many frames of it were handled.
    pub(crate) frames: u64,
}

impl Peer {
    /// Makes the state of a connection that was accepted just now, under this number. Fails only if memory for its
    /// buffer runs out.
    pub(crate) fn new(alloc: Global, id: u64, now: u64) -> Result<Peer, AllocError>
        ensures { IfOk result (IsNew id now) }
    {
        Ok(Peer {
            id,
            feed: FrameFeed::new(alloc),
            buffer: vec![in alloc; 0u8; BUFFER]?,
            start: 0,
            end: 0,
            queue: ReplyQueue::new(alloc),
            leaving: None,
            active: now,
            drained: false,
            read: 0,
            frames: 0,
        })
    }

    /// Returns how many milliseconds the loop may wait before its next turn: 0 if it is to be read on, otherwise what
    /// is left of the `idle` milliseconds after which it is closed.
    pub(crate) fn patience(&self, now: u64, idle: u64) -> u64
        ensures hungry { is_hungry self.now ≡ true → result ≡ 0 }
        ensures prompt { result ≤ idle - (now - self.now.active) }
    {
        if self.is_hungry() {
            return 0;
        }
        idle.saturating_sub(now.saturating_sub(self.active))
    }

    /// Whether it may be read further, and was not read dry in its last turn.
    fn is_hungry(&self) -> bool
        ensures { result ≡ is_hungry self.now }
    {
        if self.leaving.is_some() {
            return false;
        }
        if self.drained {
            return false;
        }
        self.queue.len() <= QUEUE_LIMIT
    }

    /// Begins its turn: reads once, unless bytes of it wait to be handled, or it may not be read.
    pub(crate) fn look<C: Connections>(&mut self, connections: &mut C, now: u64)
        requires whole { IsWhole self.old }
        ensures whole { IsWhole self.new }
        ensures id { self.new.id ≡ self.old.id }
        ensures looks { Moves C.does connections.old connections.new (Looks now self.old self.new) }
    {
        self.drained = false;
        self.read = 0;
        if !self.may_be_read() {
            return;
        }
        if self.start < self.end {
            return;
        }
        self.receive(connections, now);
    }

    /// Whether bytes that were read of it wait in its buffer to be handled, and may be.
    pub(crate) fn has_bytes(&self) -> bool
        ensures { result ≡ has_bytes self.now }
    {
        if !self.may_be_read() {
            return false;
        }
        self.start < self.end
    }

    /// Handles its frames, and reads more: up to its share of frames, or until 64 KiB for each of them were read, or 8
    /// MiB are queued. Queues the replies.
    ///
    /// Does nothing if it has no bytes.
    pub(crate) fn hear<C: Connections, H: Handler>(
        &mut self,
        connections: &mut C,
        handler: &mut H,
        now: u64,
        share: usize,
    )
        requires whole { IsWhole self.old }
        requires few { share ≤ 64 }
        ensures whole { IsWhole self.new }
        ensures id { self.new.id ≡ self.old.id }
        ensures hears { Goes C.does H.handles H.settles connections.old handler.old connections.new handler.new
            (Hears now share self.old self.new) }
    {
        if !self.has_bytes() {
            return;
        }
        self.drained = false;
        self.answer_some(connections, handler, now, share);
    }

    /// Handles up to its share of frames, reading whenever no whole frame is there.
    fn answer_some<C: Connections, H: Handler>(
        &mut self,
        connections: &mut C,
        handler: &mut H,
        now: u64,
        share: usize,
    )
        requires whole { IsWhole self.old }
        requires awake { self.old.drained ≡ false }
        requires few { share ≤ 64 }
        ensures whole { IsWhole self.new }
        ensures id { self.new.id ≡ self.old.id }
        ensures hears { Goes C.does H.handles H.settles connections.old handler.old connections.new handler.new
            (HearsSome now share self.old self.new) }
    {
        for _ in 0..share {
            if !self.may_be_read() {
                return;
            }
            let Some(frame) = self.next_frame(connections, now, share) else {
                return;
            };
            self.answer(handler, frame);
        }
    }

    /// Whether it isn't to leave, and no more than 8 MiB ([`QUEUE_LIMIT`]) of replies are queued for it.
    fn may_be_read(&self) -> bool
        ensures is { result ≡ may_be_read self.now }
        ensures stays { result ≡ true → self.now.leaving ≡ None }
        ensures few { result ≡ true → length self.now.queue.bytes ≤ 8388608 }
        ensures rests { result ≡ false → (share count : ℕ) → Rests share self.now count }
    {
        if self.leaving.is_some() {
            return false;
        }
        self.queue.len() <= QUEUE_LIMIT
    }

    /// Handles a frame, and queues its reply. The connection is to leave if memory runs out for that reply, or if
    /// enough frames of it were handled.
    fn answer<H: Handler>(&mut self, handler: &mut H, frame: Frame)
        requires whole { IsWhole self.old }
        requires version { IsVersion frame.version }
        requires few { length self.old.queue.bytes ≤ 8388608 }
        requires stays { self.old.leaving ≡ None }
        ensures whole { IsWhole self.new }
        ensures id { self.new.id ≡ self.old.id }
        ensures drained { self.new.drained ≡ self.old.drained }
        ensures read { self.new.read ≡ self.old.read }
        ensures counted { self.new.frames ≡ self.old.frames + 1 }
        ensures answers { (reply : Reply) × H.handles handler.old frame reply handler.new
            × ((now : ℕ) (steps : List Step) → Lends self.old.id (kept_of self.old) now steps frame
            → Stands self.old.id (kept_of self.new) now (steps ++ Handles self.old.id frame reply ∷ [])) }
    {
        let (version, client, number) = (frame.version, frame.client, frame.number);
        let reply = handler.handle(frame);
        self.frames = self.frames.saturating_add(1);
        match self.queue.push(version, client, number, &reply) {
            Ok(()) => self.leaving = leaving_behind(self.frames),
            Err(_) => self.leaving = Some(Departure::Memory),
        }
    }

    /// Returns the next frame, and reads until it is whole. `None`: nothing more has come, the bytes of its share
    /// are reached, or the connection is to leave.
    fn next_frame<C: Connections>(
        &mut self,
        connections: &mut C,
        now: u64,
        share: usize,
    ) -> Option<Frame>
        requires whole { IsWhole self.old }
        requires stays { self.old.leaving ≡ None }
        requires awake { self.old.drained ≡ false }
        requires few { share ≤ 64 }
        ensures whole { IsWhole self.new }
        ensures id { self.new.id ≡ self.old.id }
        ensures version { IfSome result (λ frame. IsVersion frame.version) }
        ensures awake { IfSome result (λ frame. self.new.drained ≡ false) }
        ensures stays { IfSome result (λ frame. self.new.leaving ≡ None) }
        ensures frames { self.new.frames ≡ self.old.frames }
        ensures queue { self.new.queue ≡ self.old.queue }
        ensures within { self.old.read < share * 65536 + 65536 → self.new.read < share * 65536 + 65536 }
        ensures rests { IfNone result ((count : ℕ) → Rests share self.new count) }
        ensures moves { Moves C.does connections.old connections.new (λ steps.
            Taking self.old.id now (kept_of self.old) (kept_of self.new) result steps
            × Turns self.old.id self.old.read self.new.read 0 steps
            × (self.new.drained ≡ true → RanDry self.new steps)) }
    {
        loop {
            match self.take() {
                Some(frame) => return Some(frame),
                None => {}
            }
            if self.leaving.is_some() {
                return None;
            }
            if self.read >= share * BUFFER {
                return None;
            }
            if !self.receive(connections, now) {
                return None;
            }
        }
    }

    /// Takes the next frame from the bytes that were read, if it is whole. After a header with a fault the connection
    /// is to leave.
    fn take(&mut self) -> Option<Frame>
        requires whole { IsWhole self.old }
        requires stays { self.old.leaving ≡ None }
        ensures whole { IsWhole self.new }
        ensures id { self.new.id ≡ self.old.id }
        ensures drained { self.new.drained ≡ self.old.drained }
        ensures read { self.new.read ≡ self.old.read }
        ensures queue { self.new.queue ≡ self.old.queue }
        ensures frames { self.new.frames ≡ self.old.frames }
        ensures stays { IfSome result (λ frame. self.new.leaving ≡ None) }
        ensures takes { (now : ℕ) → Taking self.old.id now (kept_of self.old) (kept_of self.new) result [] }
        ensures version { IfSome result (λ frame. IsVersion frame.version) }
        ensures all { IfNone result (self.new.leaving ≡ None → unread self.new ≡ []) }
    {
        match self.feed.take(&self.buffer[self.start..self.end]) {
            Ok(fed) => {
                self.start += fed.taken;
                fed.frame
            }
            Err(fault) => {
                self.leaving = Some(Departure::Frame(fault));
                None
            }
        }
    }

    /// Reads once, and returns whether bytes came. A read of no bytes is one that returned nothing yet. At the end of
    /// its input, and if it is broken, the connection is to leave.
    fn receive<C: Connections>(&mut self, connections: &mut C, now: u64) -> bool
        requires whole { IsWhole self.old }
        requires stays { self.old.leaving ≡ None }
        requires none { unread self.old ≡ [] }
        requires awake { self.old.drained ≡ false }
        requires few { self.old.read ≤ 4194304 }
        ensures whole { IsWhole self.new }
        ensures id { self.new.id ≡ self.old.id }
        ensures queue { self.new.queue ≡ self.old.queue }
        ensures frames { self.new.frames ≡ self.old.frames }
        ensures moves { Moves C.does connections.old connections.new (λ steps.
            Advances self.old.id now (kept_of self.old) (kept_of self.new) steps
            × Turns self.old.id self.old.read self.new.read 0 steps
            × (self.new.drained ≡ true → RanDry self.new steps)) }
        ensures bound { self.new.read ≤ self.old.read + 65536 }
        ensures goes_on { result ≡ true
            → (self.new.leaving ≡ None) × (self.new.drained ≡ false) × (self.old.read < self.new.read)
            × (self.new.start < self.new.end) }
        ensures rests { result ≡ false → (share count : ℕ) → Rests share self.new count }
    {
        match read_into(connections, self.id, &mut self.buffer) {
            Came::Bytes(count) => {
                if count == 0 {
                    self.drained = true;
                    return false;
                }
                self.start = 0;
                self.end = count;
                self.active = now;
                self.read += count;
                true
            }
            Came::Nothing => {
                self.drained = true;
                false
            }
            Came::End => {
                self.leaving = Some(end_of(&self.feed));
                false
            }
            Came::Broken => {
                self.leaving = Some(Departure::Frame(FrameFault::Read));
                false
            }
        }
    }

    /// Writes the queued replies, as far as the connection takes them. Returns why the connection is over, if it is: it
    /// is broken; it was to leave and all is written; or for `idle` milliseconds no byte came or went.
    pub(crate) fn write_out<C: Connections>(
        &mut self,
        connections: &mut C,
        now: u64,
        idle: u64,
    ) -> Option<Departure>
        requires whole { IsWhole self.old }
        ensures whole { IsWhole self.new }
        ensures id { self.new.id ≡ self.old.id }
        ensures drained { self.new.drained ≡ self.old.drained }
        ensures leaving { self.new.leaving ≡ self.old.leaving }
        ensures read { self.new.read ≡ self.old.read }
        ensures frames { self.new.frames ≡ self.old.frames }
        ensures held { self.new.feed.bytes ++ unread self.new ≡ self.old.feed.bytes ++ unread self.old }
        ensures writes { Moves C.does connections.old connections.new (λ steps.
            WritesOut idle now self.old self.new result steps × IsQuiet self.old.id steps) }
    {
        if !self.send(connections, now) {
            return Some(Departure::Write);
        }
        if self.is_over() {
            return self.leaving;
        }
        if now.saturating_sub(self.active) >= idle {
            return Some(Departure::Idle);
        }
        None
    }

    /// Whether it leaves now: its replies are written, or memory ran out for one.
    fn is_over(&self) -> bool
        ensures { result ≡ is_over self.now }
    {
        match self.leaving {
            None => false,
            Some(Departure::Memory) => true,
            Some(_) => self.queue.len() == 0,
        }
    }

    /// Writes the queued replies until the queue is empty or the connection takes nothing more. Returns false if the
    /// connection is broken.
    fn send<C: Connections>(&mut self, connections: &mut C, now: u64) -> bool
        requires whole { IsWhole self.old }
        ensures whole { IsWhole self.new }
        ensures id { self.new.id ≡ self.old.id }
        ensures drained { self.new.drained ≡ self.old.drained }
        ensures leaving { self.new.leaving ≡ self.old.leaving }
        ensures read { self.new.read ≡ self.old.read }
        ensures frames { self.new.frames ≡ self.old.frames }
        ensures held { self.new.feed.bytes ++ unread self.new ≡ self.old.feed.bytes ++ unread self.old }
        ensures moves { Moves C.does connections.old connections.new (λ steps.
            Advances self.old.id now (kept_of self.old) (kept_of self.new) steps
            × IsQuiet self.old.id steps
            × Sends self.new steps result) }
    {
        while self.queue.len() > 0 {
            match connections.write(self.id, self.queue.front()) {
                Took::Bytes(count) => {
                    if count == 0 {
                        return true;
                    }
                    self.queue.advance(count);
                    self.active = now;
                }
                Took::Nothing => return true,
                Took::Broken => return false,
            }
        }
        true
    }
}

/// Returns why a connection leaves after this many frames of it were handled: only after the last of [`FRAMES`].
fn leaving_behind(frames: u64) -> Option<Departure>
    ensures { result ≡ leaving_behind frames }
{
    if frames == FRAMES {
        return Some(Departure::Enough);
    }
    None
}

/// Reads once, into the front of a buffer. The trait's clauses, for a `Vec`, which keeps its length.
fn read_into<C: Connections>(connections: &mut C, id: u64, buffer: &mut Vec<u8>) -> Came
    ensures size { length buffer.new.items ≡ length buffer.old.items }
    ensures bound { CameWithin result (length buffer.new.items) }
    ensures came { C.does connections.old (read_event id buffer.new.items result) connections.new }
{
    connections.read(id, buffer.as_mut_slice())
}

/// Returns why a connection leaves whose input ended here: between two frames, or within one.
fn end_of(feed: &FrameFeed) -> Departure
    ensures { EndsAs feed.now.bytes result }
{
    match feed.end() {
        Ok(()) => Departure::Closed,
        Err(fault) => Departure::Frame(fault),
    }
}
