//! What a line prints: the client takes its reply, whose text is printed; a bad line prints `bad line`.

ghost use Rattle.std.specs.Prelude.{◌≡◌, None, Some, IfOk, IfErr, OnOk, OnErr, IsErrOf, IsSome};
ghost use Rattle.std.specs.Io.KnownBytes.{Appends};
ghost use Rattle.droid_frame.specs.Seen.{IsSound, ReportsFault};
ghost use Rattle.droid_client.specs.Cores.{answer_of, refusal_of};
ghost use Rattle.droid_frame.specs.declared.refusal.Refusal.{Refusal};
ghost use Rattle.droid_frame.specs.declared.reply.Reply.{Reply};
ghost use Rattle.droid_lines.specs.Printed.{answer_line};
ghost use Rattle.droid_lines.specs.Steps.{Takes, TakesNone};
ghost use Rattle.droid_lines.specs.Stopping.{WritesFront};

use crate::printer::{print_answer, print_reply};
use crate::send_fault::SendFault;
use droid_client::{Client, Heard};
use droid_frame::{Frame, Reply, SteadyWrite, WriteState, write_all};
use std::alloc::{AllocError, Global};

/// Passes the frame of a reply to the client. Returns the text of the reply, if it answers or refuses the request: a
/// second reply and a stranger's are faults.
pub(crate) fn hear(alloc: Global, client: &mut Client, frame: Frame) -> Result<Vec<u8>, SendFault>
    ensures takes { IfOk result (λ printed. Takes client.old frame client.new printed.items) }
    ensures none { IfErr result (λ fault. TakesNone fault client.old frame client.new) }
{
    let number = frame.number;
    match client.on_reply(frame)? {
        Heard::Answered => Ok(print_held(alloc, client, number)?),
        Heard::Refused => Ok(print_refusal(alloc, client, number)?),
        Heard::Repeated => Err(SendFault::Repeated),
        Heard::Stranger => Err(SendFault::Stranger),
    }
}

/// Prints the answer that the client holds for this number: it has just taken it.
fn print_held(alloc: Global, client: &Client, number: u64) -> Result<Vec<u8>, AllocError>
    requires { IsSome (answer_of client.now number) }
    ensures { (reply : Reply) → answer_of client.now number ≡ Some reply
        → IfOk result (λ printed. printed.items ≡ answer_line (Some reply)) }
{
    let answer = client.answer(number).unwrap();
    print_reply(alloc, answer)
}

/// Prints the last refusal of this number: the client has just taken it.
fn print_refusal(alloc: Global, client: &Client, number: u64) -> Result<Vec<u8>, AllocError>
    requires { IsSome (refusal_of client.now number) }
    ensures { (refusal : Refusal) → refusal_of client.now number ≡ Some refusal
        → IfOk result (λ printed. printed.items ≡ answer_line (Some (Reply.Refused refusal))) }
{
    let refusal = client.refusal(number).unwrap();
    print_reply(alloc, &Reply::Refused(refusal))
}

/// Returns what a bad line prints, with its line feed.
pub(crate) fn print_bad(alloc: Global) -> Result<Vec<u8>, AllocError>
    ensures { IfOk result (λ printed. printed.items ≡ answer_line None) }
{
    print_answer(alloc, &None)
}

/// Writes what a line prints. An interrupted write is tried again, up to 64 times. After a fault the first bytes may be
/// written.
pub(crate) fn write_text<T: SteadyWrite>(text: &mut T, printed: &[u8]) -> Result<(), SendFault>
    ensures ok { OnOk result (Appends (T.contents text.old) (T.contents text.new) printed.now) }
    ensures err { OnErr result (WritesFront (T.contents text.old) (T.contents text.new) printed.now) }
    ensures is_text { IfErr result (λ fault. fault ≡ SendFault.Text) }
    ensures reported { IsSound (T.seen text.old) → T.room text.old ≡ None →
        ReportsFault (T.seen text.old).interruptions (T.seen text.new) (IsErrOf result SendFault.Text)
        × (T.room text.new ≡ None) }
{
    let mut progress = WriteState::new();
    match write_all(text, printed, &mut progress) {
        Ok(()) => Ok(()),
        Err(_) => Err(SendFault::Text),
    }
}
