//! One exchange: the frame of a request is sent, the frame of its reply is read, and the client takes it.

ghost use Rattle.std.specs.Prelude.{◌≡◌, ◌≤◌, ◌^◌, None, IfOk, IfErr, OnOk, OnErr, IsErr, IsErrOf};
ghost use Rattle.std.specs.Io.KnownBytes.{Appends};
ghost use Rattle.droid_frame.specs.Seen.{IsSound, ReportsFault};
ghost use Rattle.droid_frame.specs.Bodies.{Fits};
ghost use Rattle.droid_frame.specs.Frames.{frame_bytes};
ghost use Rattle.droid_client.specs.Cores.{Core, core_submitting, next_frame, next_number};
ghost use Rattle.droid_lines.specs.declared.parser.VersionedRequest.{VersionedRequest};
ghost use Rattle.droid_lines.specs.Steps.{ReplyComes, RequestGoes};
ghost use Rattle.droid_lines.specs.Stopping.{Exchanged, RequestStops, WritesFront};

use crate::parser::VersionedRequest;
use crate::reply_text::hear;
use crate::send_fault::SendFault;
use droid_client::Client;
use droid_frame::{
    Arrival, Frame, FrameFault, SteadyRead, SteadyWrite, WriteFault, read_frame, write_frame,
};
use std::alloc::Global;

/// Submits a request in its version, writes its frame, and passes the next reply to the client. Returns the text of the
/// reply.
pub(crate) fn exchange<R: SteadyRead, F: SteadyWrite>(
    alloc: Global,
    client: &mut Client,
    asked: VersionedRequest,
    replies: &mut R,
    frames: &mut F,
) -> Result<Vec<u8>, SendFault>
    requires { Fits asked.version asked.request }
    ensures exchanged { IfOk result (λ printed.
        Exchanged client.old asked (R.remaining replies.old) (R.remaining replies.new)
        (F.contents frames.old) (F.contents frames.new) client.new printed.items) }
    ensures stops { IfErr result (λ fault.
        RequestStops fault client.old asked (R.remaining replies.old) (R.remaining replies.new)
        (F.contents frames.old) (F.contents frames.new) client.new) }
    ensures replies_fault { IsSound (R.seen replies.old) →
        ReportsFault (R.seen replies.old).interruptions (R.seen replies.new)
        (IsErrOf result (SendFault.Replies FrameFault.Read)) }
    ensures frames_fault { IsSound (F.seen frames.old) → F.room frames.old ≡ None →
        ReportsFault (F.seen frames.old).interruptions (F.seen frames.new) (IsErrOf result SendFault.Frames)
        × (F.room frames.new ≡ None) }
{
    send_request(client, asked, frames)?;
    let frame = read_reply(alloc, replies)?;
    let printed = hear(alloc, client, frame)?;
    Ok(printed)
}

/// Submits a request in its version, and writes its frame. Once it is submitted, its number is used, also if the write
/// fails.
fn send_request<F: SteadyWrite>(
    client: &mut Client,
    asked: VersionedRequest,
    frames: &mut F,
) -> Result<(), SendFault>
    requires { Fits asked.version asked.request }
    ensures goes { RequestGoes client.old asked (F.contents frames.old) (F.contents frames.new) client.new result }
    ensures reported { IsSound (F.seen frames.old) → F.room frames.old ≡ None →
        ReportsFault (F.seen frames.old).interruptions (F.seen frames.new) (IsErrOf result SendFault.Frames)
        × (F.room frames.new ≡ None) }
{
    client.submit(asked.version, asked.request)?;
    match write_newest(client, frames) {
        Ok(()) => Ok(()),
        Err(_) => Err(SendFault::Frames),
    }
}

/// Writes the frame of the request that the client submitted last, which is the last one that waits for a reply.
fn write_newest<F: SteadyWrite>(client: &Client, frames: &mut F) -> Result<(), WriteFault>
    requires { (core : Core) × (asked : VersionedRequest) × Fits asked.version asked.request
        × (client.now ≡ core_submitting core asked.version asked.request) }
    ensures ok { (core : Core) (asked : VersionedRequest)
        → client.now ≡ core_submitting core asked.version asked.request
        → OnOk result
        (Appends (F.contents frames.old) (F.contents frames.new)
        (frame_bytes (next_frame core asked.version asked.request))) }
    ensures err { (core : Core) (asked : VersionedRequest)
        → client.now ≡ core_submitting core asked.version asked.request
        → OnErr result
        (WritesFront (F.contents frames.old) (F.contents frames.new)
        (frame_bytes (next_frame core asked.version asked.request))) }
    ensures reported { IsSound (F.seen frames.old) → F.room frames.old ≡ None →
        ReportsFault (F.seen frames.old).interruptions (F.seen frames.new) (IsErr result) × (F.room frames.new ≡ None) }
{
    let newest = client.pending() - 1;
    let frame = client.pending_at(newest).unwrap();
    write_frame(frame, frames)?;
    Ok(())
}

/// Reads the frame of a reply. The end of the replies is the fault `Closed`: one was due.
fn read_reply<R: SteadyRead>(alloc: Global, replies: &mut R) -> Result<Frame, SendFault>
    ensures comes { ReplyComes (R.remaining replies.old) (R.remaining replies.new) result }
    ensures failed { IsSound (R.seen replies.old) →
        ReportsFault (R.seen replies.old).interruptions (R.seen replies.new)
        (IsErrOf result (SendFault.Replies FrameFault.Read)) }
{
    match read_frame(alloc, replies) {
        Ok(Arrival::Frame(frame)) => Ok(frame),
        Ok(Arrival::End) => Err(SendFault::Closed),
        Err(fault) => Err(SendFault::Replies(fault)),
    }
}
