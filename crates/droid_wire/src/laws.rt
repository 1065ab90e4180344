//! Laws of both ends of a stream, and of every schedule of deliveries between them. Each law is the contract of a
//! function that does nothing.

ghost use Rattle.droid_core_spec.specs.Setting.{Setting};
ghost use Rattle.droid_frame.specs.declared.reply.Reply.{Reply};
ghost use Rattle.droid_wire.specs.StreamServing.{StreamsAreServed};
ghost use Rattle.droid_wire.specs.WhatWasRead.{ReadFramesAreAnswered};
ghost use Rattle.droid_wire.specs.Whole.{FirstFramesAreAnswered};
ghost use Rattle.droid_wire.specs.Desks.{IsDesk, desk_of};
ghost use Rattle.droid_wire.specs.Schedules.{Event, start, run, AreOnes, AreApart, AreHeld, AreOnce, NoneReused};
ghost use Rattle.droid_wire.specs.Schedules.{answer_at};
ghost use Rattle.std.specs.Prelude.{◌≡◌, ℕ, List, ◌++◌, Some};

use droid_frame::{SteadyRead, SteadyWrite};

/// If neither stream failed and memory sufficed for each frame, [`serve`](crate::server::serve) answers the first
/// frames of the stream: as many as its turns, or all if there are fewer. It ends as `Closed` exactly if nothing
/// follows them, and with a fault of the bytes exactly if that fault is why no frame follows.
pub fn first_frames_are_answered()
    ensures { FirstFramesAreAnswered }
{}

/// However it ends, [`serve`](crate::server::serve) has answered the frames of the bytes that it read, and no others.
/// It wrote all their reply frames or, if writing failed, the first bytes of them, counted by the fault.
pub fn read_frames_are_answered()
    ensures { ReadFramesAreAnswered }
{}

/// A stream that [`answer_service`](crate::service_stream::answer_service) answers has an outcome of
/// [`serve`](crate::server::serve) with 1,000,000 turns: frames of its front were handled, in order, their reply frames
/// were written, and it ends for the same reason. But the loop may have read further than the frames that it handled,
/// and if writing fails it may have handled up to 64 frames whose replies were not written. The 1,000,000 is `FRAMES`
/// of `peer.rt`, the 64 `FRAMES_OF_ONE` of `hall.rt` in droid_turns; no clause here has the 64.
pub fn a_stream_is_answered_as_by_serve<R: SteadyRead, W: SteadyWrite>()
    ensures { StreamsAreServed R.remaining W.contents R.seen W.seen W.room }
{}

/// The service accepts each command once. A request whose number is new is accepted with one more entry, refused, or
/// answered as a query; a request that is kept under its number gets the kept reply again.
pub fn answers_once()
    ensures { (setting : Setting) → IsDesk (desk_of setting) }
{}

/// Frames between clients and a service may be lost, repeated or reordered. Still each submitted command acts at most
/// once, and an answer that a client holds is the answer to that very request.
///
/// The premise `AreOnes`: if several cores belong to one client, for instance after a restart, they submit equal frames
/// under equal numbers. The body calls [`answers_once`], since the proof needs that law.
pub fn schedules()
    // An answer to a command is the reply in the one entry of that very request. An answer to a query is what the
    // service answered to it at some event.
    ensures held { (setting : Setting) (clients : List (ℕ × ℕ)) (events : List Event) →
        AreOnes (run (desk_of setting) events (start clients)).frames
        → AreHeld (desk_of setting) (start clients) events }
    // No submitted request has two entries.
    ensures once { (setting : Setting) (clients : List (ℕ × ℕ)) (events : List Event) →
        AreOnes (run (desk_of setting) events (start clients)).frames
        → AreOnce (run (desk_of setting) events (start clients)) }
    // No request is refused because its number was used for another request.
    ensures none_reused { (setting : Setting) (clients : List (ℕ × ℕ)) (events : List Event) →
        AreOnes (run (desk_of setting) events (start clients)).frames
        → NoneReused (run (desk_of setting) events (start clients)) }
    // A held answer never changes.
    ensures answers_stay { (setting : Setting) (clients : List (ℕ × ℕ)) (early late : List Event) (which number : ℕ)
        (reply : Reply)
        → answer_at (run (desk_of setting) early (start clients)) which number ≡ Some reply →
        answer_at (run (desk_of setting) (early ++ late) (start clients)) which number ≡ Some reply }
    // If no two cores belong to one client, the premise always holds.
    ensures alone { (setting : Setting) (clients : List (ℕ × ℕ)) (events : List Event) → AreApart clients →
        AreOnes (run (desk_of setting) events (start clients)).frames }
{
    answers_once();
}
