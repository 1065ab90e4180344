//! The command `send` over any streams: a client that sends the requests of lines and prints the replies.

ghost use Rattle.std.specs.Prelude.{◌≡◌, ◌<◌, ◌^◌, None, length};
ghost use Rattle.droid_frame.specs.Seen.{IsSound, ReportsFault};
ghost use Rattle.droid_client.specs.Cores.{new_core};
ghost use Rattle.droid_frame.specs.InTurn.{AtMost, ReportsFaultInTurn};
ghost use Rattle.droid_lines.specs.Lines.{lines_of};
ghost use Rattle.droid_lines.specs.Along.{ReadsReply, WritesPrinted, WritesRequest};
ghost use Rattle.droid_cmd_serve.specs.Sends.{SendEndsAs, sending_end_of};

use crate::exit::{Ending, after_lines};
use droid_client::Client;
use droid_frame::{FrameFault, SteadyRead, SteadyWrite};
use droid_lines::{SendFault, Tally, send};
use std::alloc::Global;

/// Sends the requests of `lines` as this client, under numbers from `first` on, and returns how the program ends.
/// Frames go to `frames`; for each the reply is awaited from `replies`, and is printed to `text`. `2 ^ 63` is
/// `NUMBER_LIMIT` of `droid_frame`, by which `send_command` checks `first`.
pub fn send_lines<L: SteadyRead, R: SteadyRead, F: SteadyWrite, T: SteadyWrite>(
    alloc: Global,
    client: u32,
    first: u64,
    lines: &mut L,
    replies: &mut R,
    frames: &mut F,
    text: &mut T,
) -> Ending
    requires { first < 2 ^ 63 }
    ensures ends { SendEndsAs (new_core client first) result (L.remaining lines.old) (R.remaining replies.old)
        (R.remaining replies.new)
        (F.contents frames.old) (F.contents frames.new) (T.contents text.old) (T.contents text.new) }
    // A fault of a stream is reported exactly if it failed, or was interrupted too often: the lines over all of them,
    // the other streams within one line.
    ensures lines_fault { IsSound (L.seen lines.old)
        → ReportsFault (L.seen lines.old).interruptions (L.seen lines.new) (result ≡ Ending.Send SendFault.Lines) }
    ensures replies_fault { IsSound (R.seen replies.old)
        → ReportsFaultInTurn R.seen (ReadsReply R.remaining)
        (AtMost (L.remaining lines.old) (λ script. length (lines_of script)))
        replies.old replies.new (result ≡ Ending.Send (SendFault.Replies FrameFault.Read)) }
    ensures frames_fault { IsSound (F.seen frames.old) → F.room frames.old ≡ None →
        ReportsFaultInTurn F.seen (WritesRequest F.contents)
        (AtMost (L.remaining lines.old) (λ script. length (lines_of script))) frames.old frames.new
        (result ≡ Ending.Send SendFault.Frames) }
    ensures text_fault { IsSound (T.seen text.old) → T.room text.old ≡ None →
        ReportsFaultInTurn T.seen (WritesPrinted T.contents)
        (AtMost (L.remaining lines.old) (λ script. length (lines_of script))) text.old text.new
        (result ≡ Ending.Send SendFault.Text) }
{
    let mut core = Client::new(alloc, client, first);
    let outcome = send(alloc, &mut core, lines, replies, frames, text);
    end_of(outcome)
}

/// Returns how the command ends after the sending: by the number of bad lines, or by the fault that ended it early.
fn end_of(outcome: Result<Tally, SendFault>) -> Ending
    ensures { result ≡ sending_end_of outcome }
{
    match outcome {
        Ok(tally) => after_lines(tally),
        Err(fault) => Ending::Send(fault),
    }
}
