//! The list of pending requests, by their index among all submitted ones: a reply may take one off it.

ghost use Rattle.std.specs.Prelude.{◌≡◌, List, Some, None, slice_set, vec_len, ◌<◌};
ghost use Rattle.std.specs.List.{slice_get};
ghost use Rattle.droid_client.specs.Cores.{heard_at, pending_in, slot_hearing};
ghost use Rattle.droid_client.specs.declared.slot.Slot.{Slot};
ghost use Rattle.droid_client.specs.Places.{IsPendingAt, places_from};

use crate::heard::Heard;
use crate::slot::Slot;
use droid_frame::Reply;
use std::collections::VecDeque;

/// Passes a reply in this version to the slot at this index, and returns what came of it. If it is the answer, takes
/// the request off the list `pending`.
pub(crate) fn hear_at(
    slots: &mut Vec<Slot>,
    pending: &mut VecDeque<usize>,
    place: usize,
    version: u8,
    reply: Reply,
) -> Heard
    requires { place < vec_len slots.old }
    ensures heard { (slot : Slot) → slice_get slots.old.items place ≡ Some slot → result ≡ heard_at slot version reply }
    ensures after { (slot : Slot) → slice_get slots.old.items place ≡ Some slot
        → slots.new.items ≡ slice_set slots.old.items place (slot_hearing slot version reply) }
    ensures places { pending.old.items ≡ places_from 0 slots.old.items
        → pending.new.items ≡ places_from 0 slots.new.items }
{
    let heard = slots[place].hear(version, reply);
    match heard {
        Heard::Answered => {
            settle(pending, place);
            Heard::Answered
        }
        other => other,
    }
}

/// Takes the index of a request that was just answered off the list, which is in order. An index that is not in the
/// list changes nothing; the caller's always is.
fn settle(pending: &mut VecDeque<usize>, place: usize)
    ensures { (slots : List Slot) (slot : Slot) → pending.old.items ≡ places_from 0 slots → IsPendingAt slots place
        → pending_in slot.state ≡ None → pending.new.items ≡ places_from 0 (slice_set slots place slot) }
{
    if let Ok(at) = pending.binary_search(&place) {
        pending.remove(at);
    }
}
