//! The command `script` over any streams: a script over a fresh service, whose registry is read first.

ghost use Rattle.std.specs.Prelude.{◌≡◌, ◌≢◌, [], None, Some, length, IfSome};
ghost use Rattle.droid_frame.specs.Seen.{IsSound, ReportsFault};
ghost use Rattle.droid_core_spec.specs.Setting.{Setting};
ghost use Rattle.droid_core.specs.Standing.{StandsFor};
ghost use Rattle.droid_lines.specs.Lines.{lines_of};
ghost use Rattle.droid_cmd_serve.specs.Sample.{sample};
ghost use Rattle.droid_frame.specs.InTurn.{AtMost, ReportsFaultInTurn};
ghost use Rattle.droid_script.specs.Scripts.{WritesAnswer};
ghost use Rattle.droid_cmd_serve.specs.Endings.{ending_of, EndsAs, EndsOver};

use crate::exit::{Ending, after_lines};
use crate::fresh::fresh_service;
use crate::sample::sample_registry;
use droid_core::Service;
use droid_frame::{SteadyRead, SteadyWrite};
use droid_lines::Tally;
use droid_pronom::RegistryFault;
use droid_script::{ScriptFault, script};
use std::alloc::Global;

/// Runs the script of `reader` over a fresh service that identifies files by the sample registry, and prints the
/// replies to `writer`.
pub fn script_by_sample<R: SteadyRead, W: SteadyWrite>(
    alloc: Global,
    reader: &mut R,
    writer: &mut W,
) -> Ending
    ensures ends { EndsOver (Some sample) result (R.remaining reader.old) (W.contents writer.old)
        (W.contents writer.new) }
    ensures registry_fault { result ≢ Ending.Registry RegistryFault.Read }
    ensures read_fault { IsSound (R.seen reader.old)
        → ReportsFault (R.seen reader.old).interruptions (R.seen reader.new) (result ≡ Ending.Script ScriptFault.Read) }
    ensures write_fault { IsSound (W.seen writer.old) → W.room writer.old ≡ None →
        ReportsFaultInTurn W.seen (WritesAnswer W.contents)
        (AtMost (R.remaining reader.old) (λ script. length (lines_of script))) writer.old writer.new
        (result ≡ Ending.Script ScriptFault.Write) }
{
    let mut file = sample_registry();
    script_by_registry(alloc, &mut file, &mut None, reader, writer)
}

/// Reads a registry file, and runs a script over a fresh service that identifies files by it. Sets `formats` to the
/// number of formats that the registry has, once it was read: no clause holds it, since it is only noted.
pub fn script_by_registry<F: SteadyRead, R: SteadyRead, W: SteadyWrite>(
    alloc: Global,
    file: &mut F,
    formats: &mut Option<usize>,
    reader: &mut R,
    writer: &mut W,
) -> Ending
    ensures ends { EndsOver (F.remaining file.old) result (R.remaining reader.old) (W.contents writer.old)
        (W.contents writer.new) }
    // A fault of a stream is reported exactly if the stream failed, or was interrupted too often.
    ensures registry_fault { IsSound (F.seen file.old)
        → ReportsFault (F.seen file.old).interruptions (F.seen file.new) (result ≡ Ending.Registry RegistryFault.Read) }
    ensures read_fault { IsSound (R.seen reader.old)
        → ReportsFault (R.seen reader.old).interruptions (R.seen reader.new) (result ≡ Ending.Script ScriptFault.Read) }
    ensures write_fault { IsSound (W.seen writer.old) → W.room writer.old ≡ None →
        ReportsFaultInTurn W.seen (WritesAnswer W.contents)
        (AtMost (R.remaining reader.old) (λ script. length (lines_of script))) writer.old writer.new
        (result ≡ Ending.Script ScriptFault.Write) }
{
    match fresh_service(alloc, file, formats) {
        Ok(mut service) => script_over(alloc, &mut service, reader, writer),
        Err(ending) => ending,
    }
}

/// Runs a script over a fresh service: answers the lines of `reader` to `writer`.
fn script_over<R: SteadyRead, W: SteadyWrite>(
    alloc: Global,
    service: &mut Service,
    reader: &mut R,
    writer: &mut W,
) -> Ending
    ensures ends { (setting : Setting) → StandsFor setting service.old [] → IfSome (R.remaining reader.old) (λ input.
        EndsAs setting result input (W.contents writer.old) (W.contents writer.new)) }
    ensures registry_read { (fault : _) → result ≢ Ending.Registry fault }
    ensures read_fault { IsSound (R.seen reader.old)
        → ReportsFault (R.seen reader.old).interruptions (R.seen reader.new) (result ≡ Ending.Script ScriptFault.Read) }
    ensures write_fault { IsSound (W.seen writer.old) → W.room writer.old ≡ None →
        ReportsFaultInTurn W.seen (WritesAnswer W.contents)
        (AtMost (R.remaining reader.old) (λ script. length (lines_of script))) writer.old writer.new
        (result ≡ Ending.Script ScriptFault.Write) }
{
    let outcome = script(alloc, service, reader, writer);
    end_of(outcome)
}

/// Returns how the command ends after the script: by the number of bad lines, or by the fault that ended it early.
fn end_of(outcome: Result<Tally, ScriptFault>) -> Ending
    ensures { result ≡ ending_of outcome }
{
    match outcome {
        Ok(tally) => after_lines(tally),
        Err(fault) => Ending::Script(fault),
    }
}
