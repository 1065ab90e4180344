//! The specification's call: `serve`, one stream answered frame by frame. The program calls `answer_service` instead,
//! which the law `a_stream_is_answered_as_by_serve` ties to it.

ghost use Rattle.std.specs.Prelude.{◌≡◌, ◌+◌, ◌*◌, ◌≤◌, ℕ, None, IfSome, IfOk, IsErrOf, IsErrAnd};
ghost use Rattle.droid_frame.specs.declared.frame.Frame.{Frame};
ghost use Rattle.droid_frame.specs.declared.reply.Reply.{Reply};
ghost use Rattle.droid_frame.specs.Seen.{IsSound};
ghost use Rattle.droid_core.specs.Standing.{StandsFor, limits_of, registry_of};
ghost use Rattle.droid_core_spec.specs.Histories.{History};
ghost use Rattle.droid_core_spec.specs.Setting.{Setting};
ghost use Rattle.droid_frame.specs.InTurn.{ReportsFaultInOne, ReportsFaultInTurn};
ghost use Rattle.droid_wire.specs.Turns.{ReadsFrame, WritesReply};
ghost use Rattle.droid_wire.specs.Serving.{GoesOnFrom, Outcome};
ghost use Rattle.droid_wire.specs.Steps.{TurnGives};

use crate::reply_frame::send_reply;
use crate::serve_fault::ServeFault;
use crate::stream_end::Ended;
use droid_core::Service;
use droid_frame::{
    Arrival, FrameFault, HEADER_LENGTH, SteadyRead, SteadyWrite, read_frame, reply_body_len,
};
use std::alloc::Global;

/// Reads up to `turns` frames and answers each with one reply frame of the same version, client and number.
///
/// All bytes of a reply are written before the next frame is read. An interrupted read or write is tried again, up to
/// 64 times within one frame (`RETRY_LIMIT` of droid_frame). If memory runs out while a request is handled, the reply
/// says so. Any fault of a frame or a stream ends the call, and so does running out of memory for a frame's body.
pub fn serve<R: SteadyRead, W: SteadyWrite>(
    alloc: Global,
    service: &mut Service,
    reader: &mut R,
    writer: &mut W,
    turns: u32,
) -> Result<Ended, ServeFault>
    // The first frames of the input were handled one after another, and their reply frames were written. The result
    // says why no more were.
    ensures outcome { (setting : Setting) (history : History) → StandsFor setting service.old history
        → IfSome (R.remaining reader.old) (λ input.
        Outcome setting history turns input (R.remaining reader.new) (W.contents writer.old) (W.contents writer.new)
        service.new result) }
    // The call reports a failed reader exactly if the reader failed, or was interrupted for the 65th time within one
    // frame.
    ensures read_fault { IsSound (R.seen reader.old) →
        ReportsFaultInTurn R.seen (ReadsFrame R.remaining) (λ count. count ≤ turns) reader.old reader.new
        (IsErrOf result (ServeFault.Frame FrameFault.Read)) }
    // The same for a writer whose room has no end, within one reply.
    ensures write_fault { IsSound (W.seen writer.old) → W.room writer.old ≡ None →
        ReportsFaultInTurn W.seen (WritesReply W.contents) (λ count. count ≤ turns) writer.old writer.new
        (IsErrAnd result (λ fault. (written : ℕ) × (fault ≡ ServeFault.Write written))) }
    // Whatever comes, and also if the input isn't known, the service handled at most `turns` requests more.
    ensures goes_on { (setting : Setting) (history : History) → StandsFor setting service.old history
        → GoesOnFrom setting history turns service.new }
    ensures limits { limits_of service.new ≡ limits_of service.old }
    ensures registry { registry_of service.new ≡ registry_of service.old }
{
    let mut written = 0;
    for _ in 0..turns {
        match answer_next(alloc, service, reader, writer, written)? {
            Some(size) => written += size,
            None => return Ok(Ended::Closed),
        }
    }
    Ok(Ended::Turns)
}

/// Reads the next frame, answers it, and returns the length of the reply's frame in bytes; `None` where the stream
/// ends. Fails with the fault of the frame or of the writer; in the latter case the request was handled all the same.
///
/// `written` is how many bytes the turns before wrote, which a fault of the writer counts too: at most 2^53, which the
/// clause spells out, since 2^32 replies of at most 1,048,658 bytes (18 of the header, `HEADER_LENGTH`, and 1,048,640
/// of the body, the `bound` of `reply_body_len`) have fewer. The prover ties these numbers.
fn answer_next<R: SteadyRead, W: SteadyWrite>(
    alloc: Global,
    service: &mut Service,
    reader: &mut R,
    writer: &mut W,
    written: u64,
) -> Result<Option<u64>, ServeFault>
    requires { written ≤ 9007199254740992 }
    ensures gives { (setting : Setting) (history : History) → StandsFor setting service.old history
        → IfSome (R.remaining reader.old) (λ input.
        TurnGives setting history input (R.remaining reader.new) (W.contents writer.old) (W.contents writer.new)
        service.old service.new written result) }
    ensures size { IfOk result (λ answered. IfSome answered (λ size. size ≤ 1048658)) }
    ensures read_fault { IsSound (R.seen reader.old) →
        ReportsFaultInOne R.seen (ReadsFrame R.remaining) reader.old reader.new
        (IsErrOf result (ServeFault.Frame FrameFault.Read)) }
    ensures write_fault { IsSound (W.seen writer.old) → W.room writer.old ≡ None →
        ReportsFaultInOne W.seen (WritesReply W.contents) writer.old writer.new
        (IsErrAnd result (λ fault. (cut : ℕ) × (fault ≡ ServeFault.Write cut)))
        × (W.room writer.new ≡ None) }
    ensures read { IfOk result (λ answered.
        IfSome answered (λ _. (frame : Frame) × (ReadsFrame R.remaining).whole frame reader.old reader.new)) }
    ensures wrote { IfOk result (λ answered.
        IfSome answered (λ _. (sent : Frame × Reply) × (WritesReply W.contents).whole sent writer.old writer.new)) }
    ensures goes_on { (setting : Setting) (history : History) → StandsFor setting service.old history
        → GoesOnFrom setting history 1 service.new }
    ensures limits { limits_of service.new ≡ limits_of service.old }
    ensures registry { registry_of service.new ≡ registry_of service.old }
{
    let Arrival::Frame(frame) = read_frame(alloc, reader)? else {
        return Ok(None);
    };
    let (version, client, number) = (frame.version, frame.client, frame.number);
    let reply = service.handle(frame);
    let size = HEADER_LENGTH as u64 + reply_body_len(version, &reply) as u64;
    match send_reply(alloc, version, client, number, &reply, writer) {
        Ok(()) => Ok(Some(size)),
        Err(fault) => Err(ServeFault::Write {
            written: written + fault.written as u64,
        }),
    }
}
