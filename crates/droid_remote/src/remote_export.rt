//! Reads the export of a profile in parts of 1 MiB, one request after the other, and joins them.

ghost use Rattle.std.specs.Prelude.{◌≡◌, ◌+◌, ◌≤◌, ◌++◌, false, max, None, [], IfErr, IfOk, IsSome, IsTrue, OnErr};
ghost use Rattle.std.specs.Prelude.{OnOk, length, vec_capacity, vec_len};
ghost use Rattle.droid_frame.specs.declared.reply.Reply.TheVariants as replies;
ghost use Rattle.droid_remote.specs.Calls.{Waits, Wherever};
ghost use Rattle.droid_remote.specs.Exports.{Disturbs, Downloads, EndsAsking, EndsExport, Exports, ExplainsReply};
ghost use Rattle.droid_remote.specs.Exports.{ExplainsRoom, part_frame, part_length, part_request};
ghost use Rattle.droid_remote.specs.declared.remote_fault.DownloadFault.TheVariants.{NoRoom};

use crate::numbered_frame::frame_of;
use crate::remote_fault::DownloadFault;
use crate::sender::Sender;
use crate::transfer::connection::Connection;
use crate::transfer::transfer_fault::TransferFault;
use droid_frame::{Blob, Criteria, Filter, PART_LIMIT, Refusal, Reply, Request};
use std::alloc::Global;

/// The most bytes of an export that a client reads: 1 GiB. `export_limit` of `specs/Exports.antt` and the clauses
/// `bound` and `within` have the number too, as do clauses of `droid_cmd_submit` and its
/// `specs/CheckedSubmissions.antt`: the prover ties these. So have the texts of the fault TooLong (`faults.rt` of
/// `droid_terminal`, `submit_help.rt` of `droid_arguments`), which `submit_lies.py` and the case `help_of_submit` of
/// `tests/program` hold, and docs/SERVICE.md, which nothing ties.
pub const EXPORT_LIMIT: u64 = 1_073_741_824;

/// How many parts an export has at most: [`EXPORT_LIMIT`] in parts of `PART_LIMIT` bytes. With fewer, the end of
/// [`download`] would not be proved.
const PARTS: u32 = 1_024;

/// A part of an export.
#[derive(Drop)]
pub(crate) struct Part {
    /// How many commands the service had accepted.
    pub as_of: u64,
    /// How many bytes the whole export has.
    pub total: u64,
    /// The bytes of this part.
    pub bytes: Blob,
}

/// Appends the export of a profile, with all its records, to a text. Returns whether all parts are of one export. If
/// not, a command came between them, and what was appended is useless. A request for a part that is refused, for
/// another reason than memory, is `TransferFault::Refused`.
///
/// Reserves room for the bytes that the first part announces, once. An export of more than `EXPORT_LIMIT` bytes is
/// refused before that.
pub fn export<C: Connection>(
    sender: &mut Sender<C>,
    profile: u32,
    text: &mut Vec<u8>,
) -> Result<bool, DownloadFault>
    // If true is returned, all parts of one export were read and appended.
    ensures whole { IfOk result (λ one.
        IsTrue one → sender.old.in_flight.waiting.items ≡ [] → Wherever sender.old.in_flight (λ known facts.
        Exports sender.old.client sender.old.name profile C.does known facts sender.old.in_flight sender.new.in_flight
        text.old.items text.new.items)) }
    // If false is returned, parts of two exports came.
    ensures disturbed { IfOk result (λ one.
        one ≡ false → sender.old.in_flight.waiting.items ≡ [] → Wherever sender.old.in_flight (λ known facts.
        Disturbs sender.old.client sender.old.name profile C.does known facts sender.old.in_flight
        sender.new.in_flight)) }
    // In any case only parts were asked for, and what was appended are the first parts of one export.
    ensures downloads { sender.old.in_flight.waiting.items ≡ [] → Wherever sender.old.in_flight (λ known facts.
        Downloads sender.old.client sender.old.name profile C.does known facts sender.old.in_flight sender.new.in_flight
        text.old.items text.new.items) }
    // The events show why it ended early: a refused request ends it with the fault `Refused`.
    ensures ended { IfErr result (λ fault.
        sender.old.stopped ≡ None → sender.old.in_flight.waiting.items ≡ []
        → Wherever sender.old.in_flight (λ known facts.
        EndsExport sender.old.client sender.old.name profile C.does fault known facts sender.old.in_flight
        sender.new.in_flight)) }
    // Whatever came, no more was appended than a client reads.
    ensures bound { length text.new.items ≤ length text.old.items + 1073741824 }
    ensures same { sender.new ≡ record sender.old { in_flight = sender.new.in_flight } }
    // A sender that was stopped writes nothing.
    ensures stopped { IsSome sender.old.stopped → sender.new ≡ sender.old }
{
    match sender.stopped {
        Some(fault) => return Err(DownloadFault::Sending(fault)),
        None => {}
    }
    let one = download(sender, profile, text)?;
    Ok(one)
}

/// Does what [`export`] does, with a sender that was not stopped. It asks for a part from the byte on that the parts so
/// far end at, until the announced length is there; a part of another export ends it with false. After an error the
/// parts that came before it stay in the text.
fn download<C: Connection>(
    sender: &mut Sender<C>,
    profile: u32,
    text: &mut Vec<u8>,
) -> Result<bool, DownloadFault>
    ensures whole { IfOk result (λ one.
        IsTrue one → sender.old.in_flight.waiting.items ≡ [] → Wherever sender.old.in_flight (λ known facts.
        Exports sender.old.client sender.old.name profile C.does known facts sender.old.in_flight sender.new.in_flight
        text.old.items text.new.items)) }
    ensures disturbed { IfOk result (λ one.
        one ≡ false → sender.old.in_flight.waiting.items ≡ [] → Wherever sender.old.in_flight (λ known facts.
        Disturbs sender.old.client sender.old.name profile C.does known facts sender.old.in_flight
        sender.new.in_flight)) }
    ensures downloads { sender.old.in_flight.waiting.items ≡ [] → Wherever sender.old.in_flight (λ known facts.
        Downloads sender.old.client sender.old.name profile C.does known facts sender.old.in_flight sender.new.in_flight
        text.old.items text.new.items) }
    ensures ended { IfErr result (λ fault.
        sender.old.in_flight.waiting.items ≡ [] → Wherever sender.old.in_flight (λ known facts.
        EndsExport sender.old.client sender.old.name profile C.does fault known facts sender.old.in_flight
        sender.new.in_flight)) }
    ensures bound { length text.new.items ≤ length text.old.items + 1073741824 }
    ensures same { sender.new ≡ record sender.old { in_flight = sender.new.in_flight } }
{
    let first = ask_part(sender, profile, 0)?;
    reserve_text(text, first.total)?;
    let mut from = append_part(text, 0, &first)?;
    for _ in 0..PARTS {
        if from == first.total {
            return Ok(true);
        }
        let part = ask_part(sender, profile, from)?;
        if are_of_one(&first, &part) {
            from = append_part(text, from, &part)?;
        } else {
            return Ok(false);
        }
    }
    Ok(true)
}

/// Returns whether two parts are of one export: it had as many bytes, and the service had accepted as many commands.
fn are_of_one(first: &Part, other: &Part) -> bool
    ensures one { IsTrue result → (other.now.as_of ≡ first.now.as_of) × (other.now.total ≡ first.now.total) }
    ensures apart { result ≡ false → (other.now.as_of ≡ first.now.as_of) × (other.now.total ≡ first.now.total) → ⊥ }
{
    if other.as_of != first.as_of {
        return false;
    }
    other.total == first.total
}

/// Reserves room for `total` bytes behind the text, exactly. More than [`EXPORT_LIMIT`] is the fault `Long`, and no
/// memory is `NoRoom`.
fn reserve_text(text: &mut Vec<u8>, total: u64) -> Result<(), DownloadFault>
    ensures same { text.new.items ≡ text.old.items }
    ensures within { OnOk result (total ≤ 1073741824) }
    ensures exact { OnOk result (vec_capacity text.new ≡ max (vec_capacity text.old) (vec_len text.old + total)) }
    ensures fault { IfErr result (λ fault. ExplainsRoom total fault) }
{
    if total > EXPORT_LIMIT {
        return Err(DownloadFault::Long(total));
    }
    text.reserve_exact(total as usize)?;
    Ok(())
}

/// Appends the part at offset `from` of the export to the text, and returns the offset behind it. Without memory it is
/// the fault `NoRoom`, and the text stays.
fn append_part(text: &mut Vec<u8>, from: u64, part: &Part) -> Result<u64, DownloadFault>
    requires { from + length part.now.bytes ≤ part.now.total }
    ensures after { IfOk result (λ after. after ≡ from + length part.now.bytes) }
    ensures wrote { OnOk result (text.new.items ≡ text.old.items ++ part.now.bytes) }
    ensures kept { OnErr result (text.new.items ≡ text.old.items) }
    ensures fault { IfErr result (λ fault. fault ≡ NoRoom) }
{
    let bytes = part.bytes.as_slice();
    text.extend_from_slice(bytes)?;
    Ok(from + bytes.len() as u64)
}

/// Returns how many bytes the part at offset `from` of an export of `total` bytes has: `PART_LIMIT`, or what is left.
fn part_length(total: u64, from: u64) -> u64
    ensures { result ≡ part_length total from }
{
    total.saturating_sub(from).min(PART_LIMIT as u64)
}

/// Requests the part at this offset. Fails as [`ask_reply`], or as [`part_of`] says of the reply.
fn ask_part<C: Connection>(
    sender: &mut Sender<C>,
    profile: u32,
    from: u64,
) -> Result<Part, TransferFault>
    ensures came { IfOk result (λ part.
        Wherever sender.old.in_flight (λ known facts.
        Waits C.does known (part_frame sender.old.client sender.old.name profile from)
        (replies.Part part.as_of part.total part.bytes) facts sender.old.in_flight sender.new.in_flight)) }
    ensures full { IfOk result (λ part. length part.bytes ≡ part_length part.total from) }
    ensures missed { IfErr result (λ fault.
        sender.old.in_flight.waiting.items ≡ [] → Wherever sender.old.in_flight (λ known facts.
        EndsAsking sender.old.client sender.old.name profile C.does fault known facts sender.old.in_flight
        sender.new.in_flight)) }
    ensures same { sender.new ≡ record sender.old { in_flight = sender.new.in_flight } }
{
    let reply = ask_reply(sender, profile, from)?;
    let part = part_of(reply, from)?;
    Ok(part)
}

/// Requests the part at this offset, under its number in the submission, and returns the reply, whatever it is. Fails
/// as [`InFlight::ask`], or if memory for the request runs out.
fn ask_reply<C: Connection>(
    sender: &mut Sender<C>,
    profile: u32,
    from: u64,
) -> Result<Reply, TransferFault>
    ensures came { IfOk result (λ reply.
        Wherever sender.old.in_flight (λ known facts.
        Waits C.does known (part_frame sender.old.client sender.old.name profile from)
        reply facts sender.old.in_flight sender.new.in_flight)) }
    ensures missed { IfErr result (λ fault.
        sender.old.in_flight.waiting.items ≡ [] → Wherever sender.old.in_flight (λ known facts.
        EndsAsking sender.old.client sender.old.name profile C.does fault known facts sender.old.in_flight
        sender.new.in_flight)) }
    ensures same { sender.new ≡ record sender.old { in_flight = sender.new.in_flight } }
{
    let alloc = sender.in_flight.alloc;
    let request = part_request(alloc, profile, from);
    let frame = frame_of(alloc, sender.client, sender.name.as_str(), &request)?;
    let reply = sender.in_flight.ask(frame)?;
    Ok(reply)
}

/// Returns the request for the part at this offset: in the largest size, with all records.
fn part_request(alloc: Global, profile: u32, from: u64) -> Request
    ensures { result ≡ part_request profile from }
{
    Request::Export {
        profile,
        from,
        max: PART_LIMIT as u32,
        filter: Filter {
            all: true,
            criteria: Criteria::new(alloc),
        },
    }
}

/// Returns the part in a reply to the request for the part at this offset. A refusal is the fault `Refused`, or
/// `Memory` if the service has none; any other reply, or a part of another length, is `Stranger`.
fn part_of(reply: Reply, from: u64) -> Result<Part, TransferFault>
    ensures part { IfOk result (λ part. reply ≡ replies.Part part.as_of part.total part.bytes) }
    ensures full { IfOk result (λ part. length part.bytes ≡ part_length part.total from) }
    ensures fault { IfErr result (λ fault. ExplainsReply from reply fault) }
{
    match reply {
        Reply::Part {
            as_of,
            total,
            bytes,
        } => {
            if bytes.len() as u64 != part_length(total, from) {
                return Err(TransferFault::Stranger);
            }
            Ok(Part {
                as_of,
                total,
                bytes,
            })
        }
        Reply::Refused(Refusal::Memory) => Err(TransferFault::Memory),
        Reply::Refused(refusal) => Err(TransferFault::Refused(refusal)),
        _ => Err(TransferFault::Stranger),
    }
}
