//! Four connections in memory that send one frame at a time, in one order after the other of three frames each. Nothing
//! here allocates.

ghost use Rattle.std.specs.Prelude.{length};
ghost use Rattle.droid_turns.specs.Events.{CameWithin};

use droid_frame::{Frame, FrameFault, Reply};
use droid_turns::{
    Came, Connections, Departure, Handler, Rules, Served, Took, WaitFault, serve_in_turns,
};
use std::alloc::Global;

/// A frame: version 1, kind 3, a body of one byte. The version, the client and the number are put in.
const FRAME: [u8; 19] = [1, 3, 0, 0, 0, 0, 0, 0, 0, 0, 0, 0, 0, 0, 0, 0, 0, 1, 7];

/// How many frames each order has.
const FRAMES: u8 = 12;

/// No order has this number.
const ORDERS_END: u32 = 16_777_216;

/// The connections. Each reply is checked when it is written.
#[derive(Drop)]
pub struct Hall {
    /// The present order: who sends, a digit to base 4 for each frame, the first one last.
    order: u32,
    /// The digits of the frames that are still to come.
    rest: u32,
    /// How many frames of the order came.
    place: u8,
    /// Who sends in this turn, if that was not read yet. 4: all have ended.
    ready: Option<u8>,
    /// How many bytes of its frame were read, and the most that are given at once.
    given: usize,
    width: usize,
    /// How many were accepted.
    pub accepted: u64,
    /// How many orders came.
    pub orders: u32,
    /// How many writes there were, and how many of them were not the reply to the frame that came last, to its
    /// connection.
    written: u32,
    wrong: u32,
    /// How many closed since their input ended, with all their frames handled, and how many since memory ran out.
    pub closed: u32,
    pub short: u32,
}

impl Hall {
    /// Makes four connections that send in each order of which these are the last two digits and that is behind this
    /// one, and give at most `width` bytes at once.
    pub fn new(order: u32, width: usize) -> Hall {
        Hall {
            order,
            rest: 0,
            place: FRAMES,
            ready: None,
            given: 0,
            width,
            accepted: 0,
            orders: 0,
            written: 0,
            wrong: 0,
            closed: 0,
            short: 0,
        }
    }

    /// Serves all of them. Returns how that ended, and whether each frame was answered by one write, of its own reply,
    /// to its own connection, before the next one came.
    pub fn serve(&mut self, alloc: Global) -> (Served, bool) {
        let mut handler = Counter { handled: 0 };
        let rules = Rules {
            seats: 4,
            total: Some(4),
            idle: 60_000,
        };
        let served = serve_in_turns(alloc, self, &mut handler, rules);
        let frames = self.orders.wrapping_mul(12);
        let all = handler.handled == frames && self.written == frames && self.closed == 4;
        (served, all && self.wrong == 0 && served == Served::All)
    }
}

/// Answers each frame with how many came before it, on all connections.
#[derive(Drop)]
pub struct Counter {
    pub handled: u32,
}

impl Handler for Counter {
    ghost handles = { λ old frame reply new. Unit {0} };

    ghost settles = { λ old done new. Unit {0} };

    fn handle(&mut self, frame: Frame) -> Reply {
        let _ = frame;
        let id = self.handled;
        self.handled = self.handled.wrapping_add(1);
        Reply::Node { id }
    }

    fn settle(&mut self) -> bool {
        true
    }
}

impl Connections for Hall {
    ghost does = { λ old event new. Unit {0} };

    fn wait(&mut self, _limit: u64, _frames: u64) -> Result<(), WaitFault> {
        if self.given != 0 {
            return Ok(());
        }
        if self.place == FRAMES {
            match next_order(self.order) {
                Some(order) => {
                    self.order = order;
                    self.rest = order;
                    self.place = 0;
                    self.orders = self.orders.wrapping_add(1);
                }
                None => {
                    self.ready = Some(4);
                    return Ok(());
                }
            }
        }
        self.ready = Some((self.rest % 4) as u8);
        self.rest /= 4;
        self.place = self.place.wrapping_add(1);
        Ok(())
    }

    fn now(&mut self) -> u64 {
        0
    }

    fn accept(&mut self, id: u64) -> bool {
        if self.accepted == 4 || id != self.accepted {
            return false;
        }
        self.accepted = self.accepted.wrapping_add(1);
        true
    }

    fn read(&mut self, id: u64, buffer: &mut [u8]) -> Came {
        let Some(who) = self.ready else {
            return Came::Nothing;
        };
        if who == 4 {
            return Came::End;
        }
        if u64::from(who) != id {
            return Came::Nothing;
        }
        let came = give(who, self.place, self.given, self.width, buffer);
        self.given = self.given.wrapping_add(self.width);
        if self.given >= FRAME.len() {
            self.given = 0;
            self.ready = None;
        }
        came
    }

    fn write(&mut self, id: u64, bytes: &[u8]) -> Took {
        let count = self.written;
        self.written = count.wrapping_add(1);
        if !is_reply(bytes, id, self.place, count) {
            self.wrong = self.wrong.wrapping_add(1);
        }
        Took::Bytes(bytes.len())
    }

    fn close(&mut self, _id: u64, why: Departure, frames: u64) {
        if matches!(why, Departure::Closed) && frames == u64::from(self.orders).wrapping_mul(3) {
            self.closed = self.closed.wrapping_add(1);
        }
        if matches!(
            why,
            Departure::Memory | Departure::Frame(FrameFault::Memory)
        ) {
            self.short = self.short.wrapping_add(1);
            self.given = 0;
        }
    }
}

/// Returns the version of the frame at this place of an order.
fn version_at(place: u8) -> u8 {
    if place % 2 == 0 { 1 } else { 2 }
}

/// Gives the next bytes, behind those that were given, of the frame of a client at this place of an order, which is its
/// number.
fn give(client: u8, place: u8, given: usize, width: usize, buffer: &mut [u8]) -> Came
    ensures { CameWithin result (length buffer.new) }
{
    let mut frame = FRAME;
    frame[0] = version_at(place);
    frame[5] = client;
    frame[13] = place;
    let rest = &frame[given.min(frame.len())..];
    let size = rest.len().min(width).min(buffer.len());
    buffer[..size].copy_from_slice(&rest[..size]);
    Came::Bytes(size)
}

/// Whether the bytes are the frame of a reply, to the frame of this client at this place of an order, with this count.
fn is_reply(bytes: &[u8], client: u64, place: u8, count: u32) -> bool {
    if bytes.len() != 22 {
        return false;
    }
    let spelled = count.to_be_bytes();
    bytes[0] == version_at(place)
        && bytes[1] == 130
        && u64::from(bytes[5]) == client
        && bytes[13] == place
        && bytes[17] == 4
        && bytes[18] == spelled[0]
        && bytes[19] == spelled[1]
        && bytes[20] == spelled[2]
        && bytes[21] == spelled[3]
}

/// Whether each of the four digits to base 4 stands three times among the twelve of this number.
fn is_order(number: u32) -> bool {
    let mut rest = number;
    let mut counts = 0u32;
    for _ in 0..12u32 {
        // Each digit's count has four bits. It is too large once one of the upper two is set.
        counts = counts.wrapping_add(match rest % 4 {
            0 => 1,
            1 => 16,
            2 => 256,
            _ => 4_096,
        });
        if counts & 0xcccc != 0 {
            return false;
        }
        rest /= 4;
    }
    true
}

/// Returns the next order with the same last two digits.
fn next_order(order: u32) -> Option<u32> {
    let mut next = order;
    for _ in 0..ORDERS_END {
        next = next.wrapping_add(16);
        if next >= ORDERS_END {
            return None;
        }
        if is_order(next) {
            return Some(next);
        }
    }
    None
}
