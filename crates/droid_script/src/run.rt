//! The run of a script, line after line.

ghost use Rattle.std.specs.Prelude.{◌≡◌, ◌≤◌, ◌∷◌, [], None, Option, IfOk, IfErr, IsErrOf, OnOk, OnErr, is_none};
ghost use Rattle.std.specs.Prelude.{length};
ghost use Rattle.droid_frame.specs.Seen.{IsSound};
ghost use Rattle.droid_core_spec.specs.Histories.{History};
ghost use Rattle.droid_core_spec.specs.Setting.{Setting};
ghost use Rattle.droid_lines.specs.Lines.{lines_of, line_value};
ghost use Rattle.droid_lines.specs.Tallies.{Counts};
ghost use Rattle.droid_script.specs.Scripts.{RunsAll, RunsFront, LineAnswered, IsOfHandling, WritesAnswer, is_bad};
ghost use Rattle.droid_frame.specs.declared.reply.Reply.{Reply};
ghost use Rattle.droid_frame.specs.InTurn.{ReportsFaultInOne, ReportsFaultInTurn};
ghost use Rattle.droid_core.specs.Standing.{StandsFor, limits_of, registry_of};

use crate::script_fault::ScriptFault;
use droid_core::Service;
use droid_frame::{Reply, SteadyWrite, WriteState, request_frame, write_all};
use droid_lines::{Tally, next_line, parse_line, print_answer};
use std::alloc::{AllocError, Global};

/// Handles the lines of the input, and writes what each prints before it handles the next one. Returns how many there
/// were, and how many of them were bad. Ends at the first line at which [`run_line`] fails.
pub fn run_lines<W: SteadyWrite>(
    alloc: Global,
    service: &mut Service,
    input: &[u8],
    writer: &mut W,
) -> Result<Tally, ScriptFault>
    ensures all { (setting : Setting) (history : History) → StandsFor setting service.old history →
        OnOk result
        (RunsAll setting history (lines_of input.now) service.new (W.contents writer.old) (W.contents writer.new)) }
    ensures front { (setting : Setting) (history : History) → StandsFor setting service.old history →
        OnErr result
        (RunsFront setting history (lines_of input.now) service.new (W.contents writer.old) (W.contents writer.new)) }
    ensures tally { IfOk result (λ tally. Counts is_bad tally (lines_of input.now)) }
    ensures limits { limits_of service.new ≡ limits_of service.old }
    ensures registry { registry_of service.new ≡ registry_of service.old }
    ensures reported { IsSound (W.seen writer.old) → W.room writer.old ≡ None →
        ReportsFaultInTurn W.seen (WritesAnswer W.contents) (λ count. count ≤ length (lines_of input.now)) writer.old
        writer.new (IsErrOf result ScriptFault.Write) }
    ensures handling { IfErr result IsOfHandling }
{
    let mut tally = Tally { lines: 0, bad: 0 };
    let mut rest = input;
    while let Some((line, after)) = next_line(rest) {
        let is_bad = run_line(alloc, service, line, writer)?;
        tally.count(is_bad);
        rest = after;
    }
    Ok(tally)
}

/// Handles one line, and writes what it prints. Returns whether the line is bad. If memory for the text runs out or the
/// writer fails, the line was handled all the same; not if memory for the line or its frame runs out.
fn run_line<W: SteadyWrite>(
    alloc: Global,
    service: &mut Service,
    line: &[u8],
    writer: &mut W,
) -> Result<bool, ScriptFault>
    ensures all { (setting : Setting) (history : History) → StandsFor setting service.old history →
        OnOk result
        (RunsAll setting history (line.now ∷ []) service.new (W.contents writer.old) (W.contents writer.new)) }
    ensures front { (setting : Setting) (history : History) → StandsFor setting service.old history →
        OnErr result
        (RunsFront setting history (line.now ∷ []) service.new (W.contents writer.old) (W.contents writer.new)) }
    ensures bad { IfOk result (λ bad. bad ≡ is_bad line.now) }
    ensures limits { limits_of service.new ≡ limits_of service.old }
    ensures registry { registry_of service.new ≡ registry_of service.old }
    ensures reported { IsSound (W.seen writer.old) → W.room writer.old ≡ None →
        ReportsFaultInOne W.seen (WritesAnswer W.contents) writer.old writer.new (IsErrOf result ScriptFault.Write)
        × (W.room writer.new ≡ None) }
    ensures wrote { OnOk result
        ((answer : Option Reply) × (WritesAnswer W.contents).whole answer writer.old writer.new) }
    ensures handling { IfErr result IsOfHandling }
{
    let answer = handle_line(alloc, service, line)?;
    let printed = print_answer(alloc, &answer)?;
    write_all(writer, printed.as_slice(), &mut WriteState::new())?;
    Ok(answer.is_none())
}

/// Returns the reply to the request of a line, or `None` if the line is bad. Out of memory for the line or its frame,
/// nothing was handled.
fn handle_line(
    alloc: Global,
    service: &mut Service,
    line: &[u8],
) -> Result<Option<Reply>, AllocError>
    ensures ok { (setting : Setting) (history : History) → StandsFor setting service.old history →
        IfOk result (λ answer. LineAnswered setting history (line_value line.now) answer service.new) }
    ensures err { OnErr result (service.new ≡ service.old) }
    ensures bad { IfOk result (λ answer. is_none answer ≡ is_bad line.now) }
    ensures limits { limits_of service.new ≡ limits_of service.old }
    ensures registry { registry_of service.new ≡ registry_of service.old }
{
    let Some(line) = parse_line(alloc, line)? else {
        return Ok(None);
    };
    let frame = request_frame(alloc, line.version, line.client, line.number, &line.request)?;
    Ok(Some(service.handle(frame)))
}
