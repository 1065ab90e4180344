//! Handing a machine the records of a file again.

ghost use Rattle.std.specs.Prelude.{◌≡◌, ◌+◌, ◌<◌, ◌≤◌, ◌∷◌, ◌++◌, ℕ, Bool, List, [], length, true, IfErr, IfNone};
ghost use Rattle.std.specs.Prelude.{IfOk, IfSome, IsErrOf, OnOk};
ghost use Rattle.droid_frame.specs.declared.refusal.Refusal.TheVariants.{Memory};
ghost use Rattle.droid_frame.specs.declared.reply.Reply.TheVariants.{Refused};
ghost use Rattle.droid_journal.specs.Faults.{IsOfReading};
ghost use Rattle.droid_journal.specs.Replaying.{Fails, GaveOne, Refutes, Replays};
ghost use Rattle.droid_journal.specs.Chains.{BeginsNoRecord, BeginsWith};
ghost use Rattle.droid_journal.specs.Records.{Record, checksum, made};

use crate::frames::{frame_of, reply_bytes};
use crate::journal_fault::Fault;
use crate::machine::Machine;
use crate::records::comparison::is_same;
use crate::records::key::Key;
use crate::records::place::Place;
use crate::records::record_reader::{Found, record_of};
use droid_frame::{Refusal, Reply};
use std::alloc::Global;

/// Returns whether a reply says that memory ran out. Only if it does not may [`replay_one`] blame the record.
fn is_out_of_memory(reply: &Reply) -> bool
    ensures { reply.now ≡ Refused Memory → result ≡ true }
{
    matches!(reply, Reply::Refused(Refusal::Memory))
}

/// Hands a machine the request of a record, whose checksum is `sum`, and checks that it is accepted with the reply of
/// the record. If not, the fault is [`Fault::Record`] with the record's `number`, counted from 1. After a fault nothing
/// is promised of the machine: `open` drops it.
fn replay_one<M: Machine + Drop>(
    alloc: Global,
    machine: &mut M,
    request: &[u8],
    sum: [u8; 16],
    reply: &[u8],
    number: u64,
) -> Result<(), Fault>
    requires { sum ≡ checksum request.now }
    ensures stands { (setting : M.Setting) (before : List Record) (first : Bool) → M.stands setting machine.old before
        → OnOk result (M.stands setting machine.new (before ++ made first request.now reply.now ∷ [])) }
    ensures gave { (setting : M.Setting) (before : List Record) (first : Bool) → M.stands setting machine.old before
        → OnOk result (GaveOne (M.gives setting) before (made first request.now reply.now)) }
    ensures fault { IfErr result IsOfReading }
    // A record is reported only if no journal of this machine has it, and by its own number.
    ensures number { (other : ℕ) → IsErrOf result (Fault.Record other) → other ≡ number }
    ensures refuted { (other : ℕ) → IsErrOf result (Fault.Record other) → (setting : M.Setting) (before : List Record)
        → M.stands setting machine.old before
        → Refutes (M.gives setting) before request.now reply.now }
{
    let frame = match frame_of(alloc, request) {
        Ok(Some(frame)) => frame,
        Ok(None) => return Err(Fault::Record(number)),
        Err(_) => return Err(Fault::Memory),
    };
    let (version, client, its) = (frame.version, frame.client, frame.number);
    let handled = machine.handle(frame, sum);
    if is_out_of_memory(&handled.reply) {
        return Err(Fault::Memory);
    }
    if !handled.accepted {
        return Err(Fault::Record(number));
    }
    let spelled = reply_bytes(alloc, version, client, its, &handled.reply)?;
    if !is_same(&spelled, reply) {
        return Err(Fault::Record(number));
    }
    Ok(())
}

/// Reads the record at the front as [`record_of`] does, with those of its clauses that the loop of [`replay`] needs.
fn next_of<'a>(key: Key, place: Place, bytes: &'a [u8]) -> Option<Found<'a>>
    requires at { place.at + length bytes.now < 18446744073709551616 }
    requires records { place.records + length bytes.now < 18446744073709551616 }
    ensures found { IfSome result (λ x.
        BeginsWith key place bytes.now (made x.first x.request.now x.reply.now) x.after x.rest.now) }
    ensures sum { IfSome result (λ x. x.sum ≡ checksum x.request.now) }
    ensures none { IfNone result (BeginsNoRecord key place bytes.now) }
{
    record_of(key, place, bytes)
}

/// Hands a machine each record at the front of bytes that stand at a place, and returns the place behind them: `from`
/// if there is none. What comes behind a record that is cut off, or is none, is not looked at.
pub(crate) fn replay<M: Machine + Drop>(
    alloc: Global,
    machine: &mut M,
    key: Key,
    from: Place,
    bytes: &[u8],
) -> Result<Place, Fault>
    requires at { from.at + length bytes.now < 18446744073709551616 }
    requires count { from.records + length bytes.now < 18446744073709551616 }
    ensures replays { IfOk result (λ to. Replays M.stands M.gives key from bytes.now machine.old to machine.new) }
    ensures fault { IfErr result IsOfReading }
    ensures refuted { (number : ℕ) → IsErrOf result (Fault.Record number)
        → Fails M.stands M.gives key from bytes.now machine.old number }
{
    let mut rest = bytes;
    let mut place = from;
    while let Some(found) = next_of(key, place, rest) {
        match replay_one(
            alloc,
            machine,
            found.request,
            found.sum,
            found.reply,
            found.after.records,
        ) {
            Ok(()) => {}
            Err(fault) => return Err(fault),
        }
        place = found.after;
        rest = found.rest;
    }
    Ok(place)
}
