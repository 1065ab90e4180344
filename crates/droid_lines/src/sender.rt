//! The sender of a script: one line after another, each after the reply to the line before.

ghost use Rattle.std.specs.Prelude.{◌≡◌, None, IfOk, IfErr, IsErrOf, length};
ghost use Rattle.droid_frame.specs.Seen.{IsSound, ReportsFault};
ghost use Rattle.droid_frame.specs.InTurn.{AtMost, ReportsFaultInTurn};
ghost use Rattle.droid_lines.specs.Lines.{lines_of};
ghost use Rattle.droid_lines.specs.Along.{ReadsReply, WritesPrinted, WritesRequest};
ghost use Rattle.droid_lines.specs.Sending.{SendsAll, SendsFront};
ghost use Rattle.droid_lines.specs.Steps.{LineDone};
ghost use Rattle.droid_lines.specs.Stopping.{LineStops};

use crate::exchange::exchange;
use crate::line_reader::LineReader;
use crate::parser::parse_request_line;
use crate::reply_text::{print_bad, write_text};
use crate::send_fault::SendFault;
use crate::tally::Tally;
use droid_client::Client;
use droid_frame::{FrameFault, Retries, SteadyRead, SteadyWrite};
use std::alloc::Global;

/// Sends the requests of lines, one after another: submits each, writes its frame to `frames`, reads the reply from
/// `replies` and writes the reply as a line to `text`, before it reads the next line.
///
/// A bad line prints `bad line` and takes no number. A refusal is printed like an answer, and the next line gets the
/// next number. An interrupted read of `lines` is tried again, up to 64 times in all; on the other streams an
/// interrupted read or write is tried again up to 64 times for one line.
pub fn send<L: SteadyRead, R: SteadyRead, F: SteadyWrite, T: SteadyWrite>(
    alloc: Global,
    client: &mut Client,
    lines: &mut L,
    replies: &mut R,
    frames: &mut F,
    text: &mut T,
) -> Result<Tally, SendFault>
    // All lines were sent, and the tally counts them and the bad ones.
    ensures all { IfOk result (λ tally.
        SendsAll client.old (L.remaining lines.old) (R.remaining replies.old) (R.remaining replies.new)
        (F.contents frames.old) (F.contents frames.new) (T.contents text.old) (T.contents text.new) client.new tally) }
    // After a fault the first lines were sent, and the fault says how the next one failed.
    ensures front { IfErr result (λ fault.
        SendsFront fault client.old (L.remaining lines.old) (R.remaining replies.old) (R.remaining replies.new)
        (F.contents frames.old) (F.contents frames.new) (T.contents text.old) (T.contents text.new) client.new) }
    // `Lines` is returned exactly if their reader failed or was interrupted for the 65th time in all.
    ensures lines_fault { IsSound (L.seen lines.old)
        → ReportsFault (L.seen lines.old).interruptions (L.seen lines.new) (IsErrOf result SendFault.Lines) }
    // `Replies(Read)` is returned exactly if their reader failed or was interrupted for the 65th time within one reply.
    ensures replies_fault { IsSound (R.seen replies.old)
        → ReportsFaultInTurn R.seen (ReadsReply R.remaining)
        (AtMost (L.remaining lines.old) (λ script. length (lines_of script)))
        replies.old replies.new (IsErrOf result (SendFault.Replies FrameFault.Read)) }
    // The same for each writer whose room has no end, within one request's frame or what one line prints.
    ensures frames_fault { IsSound (F.seen frames.old) → F.room frames.old ≡ None →
        ReportsFaultInTurn F.seen (WritesRequest F.contents)
        (AtMost (L.remaining lines.old) (λ script. length (lines_of script))) frames.old frames.new
        (IsErrOf result SendFault.Frames) }
    ensures text_fault { IsSound (T.seen text.old) → T.room text.old ≡ None →
        ReportsFaultInTurn T.seen (WritesPrinted T.contents)
        (AtMost (L.remaining lines.old) (λ script. length (lines_of script))) text.old text.new
        (IsErrOf result SendFault.Text) }
{
    let mut reader = LineReader::new();
    let mut retries = Retries::new();
    let mut tally = Tally { lines: 0, bad: 0 };
    for _ in 0..u64::MAX {
        let Some(line) = reader.next_line(alloc, lines, &mut retries)? else {
            return Ok(tally);
        };
        let is_bad = send_line(alloc, client, line.as_slice(), replies, frames, text)?;
        tally.count(is_bad);
    }
    // No input has that many lines.
    Err(SendFault::Memory)
}

/// Sends one line, and writes what it prints. Returns whether the line is bad: then nothing is sent, and no number
/// used.
fn send_line<R: SteadyRead, F: SteadyWrite, T: SteadyWrite>(
    alloc: Global,
    client: &mut Client,
    line: &[u8],
    replies: &mut R,
    frames: &mut F,
    text: &mut T,
) -> Result<bool, SendFault>
    ensures done { IfOk result (λ bad. LineDone client.old line.now (R.remaining replies.old) (R.remaining replies.new)
        (F.contents frames.old) (F.contents frames.new) (T.contents text.old) (T.contents text.new) client.new bad) }
    ensures stops { IfErr result (λ fault.
        LineStops fault client.old line.now (R.remaining replies.old) (R.remaining replies.new)
        (F.contents frames.old) (F.contents frames.new) (T.contents text.old) (T.contents text.new) client.new) }
    ensures replies_fault { IsSound (R.seen replies.old) →
        ReportsFault (R.seen replies.old).interruptions (R.seen replies.new)
        (IsErrOf result (SendFault.Replies FrameFault.Read)) }
    ensures frames_fault { IsSound (F.seen frames.old) → F.room frames.old ≡ None →
        ReportsFault (F.seen frames.old).interruptions (F.seen frames.new) (IsErrOf result SendFault.Frames)
        × (F.room frames.new ≡ None) }
    ensures text_fault { IsSound (T.seen text.old) → T.room text.old ≡ None →
        ReportsFault (T.seen text.old).interruptions (T.seen text.new) (IsErrOf result SendFault.Text)
        × (T.room text.new ≡ None) }
{
    let Some(asked) = parse_request_line(alloc, line)? else {
        let printed = print_bad(alloc)?;
        write_text(text, printed.as_slice())?;
        return Ok(true);
    };
    let printed = exchange(alloc, client, asked, replies, frames)?;
    write_text(text, printed.as_slice())?;
    Ok(false)
}
