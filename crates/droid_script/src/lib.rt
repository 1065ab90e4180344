//! Scripts: requests as lines of text, which a service answers with lines of text.
#![tactic(auto)]

ghost use Rattle.std.specs.Prelude.{◌≡◌, ◌≢◌, None, length, IfOk, IfSome, IfErr, OnOk, IsErrOf, IsErrAnd};
ghost use Rattle.droid_frame.specs.Seen.{IsSound, ReportsFault};
ghost use Rattle.droid_core_spec.specs.Histories.{History};
ghost use Rattle.droid_core_spec.specs.Setting.{Setting};
ghost use Rattle.droid_lines.specs.Lines.{lines_of};
ghost use Rattle.droid_lines.specs.Tallies.{Counts};
ghost use Rattle.droid_script.specs.Scripts.{RunsAll, RunsFront, GoesOnFrom, IsOfHandling, IsOfReading, IsTooLong};
ghost use Rattle.droid_script.specs.Scripts.{WritesAnswer, is_bad};
ghost use Rattle.droid_frame.specs.InTurn.{AtMost, ReportsFaultInTurn};
ghost use Rattle.droid_core.specs.Standing.{StandsFor, limits_of, registry_of};

mod run;
mod script_fault;

use droid_core::Service;
use droid_frame::{SteadyRead, SteadyWrite, read_to_end};
use droid_lines::Tally;
use run::run_lines;
pub use script_fault::ScriptFault;
use std::alloc::Global;

/// The most bytes in a script. The definition `IsTooLong` has this number too, and the prover ties them. It also stands
/// in the sentence of the fault (`faults.rt` of droid_terminal), which the case `too_long` of `tests/program` compares,
/// in `tests/program/model/main.py`, in docs/SERVICE and on this crate's page; nothing ties those three.
const INPUT_LIMIT: usize = 67_108_864;

/// Runs a script: reads it to its end, passes the request of each line to the service, and writes for each line the
/// reply or `bad line`.
///
/// A script has at most 67,108,864 bytes. An interrupted read is tried again, up to 64 times in all, and an interrupted
/// write up to 64 times for one line (`RETRY_LIMIT` of droid_frame). [`ScriptFault`] says what each fault leaves.
pub fn script<R: SteadyRead, W: SteadyWrite>(
    alloc: Global,
    service: &mut Service,
    reader: &mut R,
    writer: &mut W,
) -> Result<Tally, ScriptFault>
    // All lines ran, and all that they print was written.
    ensures all { (setting : Setting) (history : History) → StandsFor setting service.old history
        → OnOk result (IfSome (R.remaining reader.old) (λ input.
        RunsAll setting history (lines_of input) service.new (W.contents writer.old) (W.contents writer.new))) }
    ensures tally { IfOk result (λ tally.
        IfSome (R.remaining reader.old) (λ input. Counts is_bad tally (lines_of input))) }
    // After a failed write, or out of memory, the first lines ran, and the first bytes of what they print were written.
    ensures front { (setting : Setting) (history : History) → StandsFor setting service.old history
        → IfErr result (λ fault. IsOfHandling fault → IfSome (R.remaining reader.old) (λ input.
        RunsFront setting history (lines_of input) service.new (W.contents writer.old) (W.contents writer.new))) }
    // The other two faults come before any line is handled.
    ensures before { IfErr result (λ fault.
        IsOfReading fault → (service.new ≡ service.old) × (writer.new ≡ writer.old)) }
    // `TooLong` is returned only for a script that is too long. Such a script is never run.
    ensures too_long { IsErrOf result ScriptFault.TooLong → IfSome (R.remaining reader.old) IsTooLong }
    ensures long { IfSome (R.remaining reader.old) (λ input. IsTooLong input →
        IsErrAnd result (λ fault.
        (fault ≢ ScriptFault.Write) × (service.new ≡ service.old) × (writer.new ≡ writer.old))) }
    // `Read` is returned exactly if the reader failed or was interrupted for the 65th time.
    ensures read_fault { IsSound (R.seen reader.old)
        → ReportsFault (R.seen reader.old).interruptions (R.seen reader.new) (IsErrOf result ScriptFault.Read) }
    // `Write` is returned, for a writer whose room has no end, exactly if the writer failed or was interrupted for the
    // 65th time within what one line prints.
    ensures write_fault { IsSound (W.seen writer.old) → W.room writer.old ≡ None →
        ReportsFaultInTurn W.seen (WritesAnswer W.contents)
        (AtMost (R.remaining reader.old) (λ input. length (lines_of input))) writer.old writer.new
        (IsErrOf result ScriptFault.Write) }
    // Whatever comes, and also if the input isn't known, the service handled the requests of some lines.
    ensures goes_on { (setting : Setting) (history : History) → StandsFor setting service.old history →
        GoesOnFrom setting history service.new (W.contents writer.old) (W.contents writer.new) }
    ensures limits { limits_of service.new ≡ limits_of service.old }
    ensures registry { registry_of service.new ≡ registry_of service.old }
{
    let input = read_to_end(alloc, reader, INPUT_LIMIT)?;
    run_lines(alloc, service, input.as_slice(), writer)
}
