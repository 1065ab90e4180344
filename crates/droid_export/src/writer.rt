//! Writes an export, or text that waited, to a writer.

ghost use Rattle.std.specs.Prelude.{◌≡◌, ◌<◌, ◌^◌, IfErr, OnOk, IsErrOf, OnErr, length};
ghost use Rattle.std.specs.Io.KnownBytes.{Appends};
ghost use Rattle.droid_frame.specs.Seen.{IsSound, Lasts};
ghost use Rattle.droid_frame.specs.Writes.{StopsWithin, Takes, WriterStops};
ghost use Rattle.droid_export.specs.ExportOutcome.{GoesOut, SaysStopped, UsesRoom};
ghost use Rattle.droid_export.specs.Text.{HaveMoments, text};

use crate::fault::ExportFault;
use crate::text::export_text;
use droid_frame::{Filter, HashKind, Record, SteadyWrite, WriteFault, WriteState, write_all};
use droid_pronom::Registry;
use std::alloc::Global;

/// Writes the text that [`export_text`] returns to a writer.
///
/// If memory runs out, nothing is written. Interrupted writes are tried again, at most 64 times for the whole text. A
/// write that takes no byte is an error. The caller ensures that each record was modified from 0001-01-01T00:00:00 to
/// 9999-12-31T23:59:59. The specification names this call; the product makes the text alone.
pub fn export<W: SteadyWrite>(
    alloc: Global,
    records: &[Record],
    registry: &Registry,
    filter: &Filter,
    hash: HashKind,
    writer: &mut W,
) -> Result<(), ExportFault>
    requires { HaveMoments records.now }
    // The whole text was written, or nothing, or exactly its first `written` bytes.
    ensures bytes { GoesOut (W.contents writer.old) (W.contents writer.new)
        (text registry.now filter.now hash records.now) result }
    // Running out of memory leaves the writer as it was.
    ensures memory { IsErrOf result ExportFault.Memory → writer.new ≡ writer.old }
    ensures room { UsesRoom (W.room writer.old) (W.room writer.new) (text registry.now filter.now hash records.now)
        result }
    // The error `Write` comes exactly if the writer stopped: it failed, was interrupted for the 65th time, or had no
    // room for the rest.
    ensures stopped { IsSound (W.seen writer.old) → SaysStopped result
        → WriterStops (W.seen writer.old).interruptions (W.seen writer.new) (W.room writer.new) }
    ensures steady { IsSound (W.seen writer.old) → (SaysStopped result → ⊥)
        → Lasts (W.seen writer.old).interruptions (W.seen writer.new) }
{
    let text = export_text(alloc, records, registry, filter, hash)?;
    write_text(writer, text.as_slice())?;
    Ok(())
}

/// Writes the whole text, or as much of it as the writer takes. The fault says how many bytes it took.
pub(crate) fn write_text<W: SteadyWrite>(writer: &mut W, bytes: &[u8]) -> Result<(), WriteFault>
    requires { length bytes.now < 2 ^ 64 }
    ensures ok { OnOk result (Appends (W.contents writer.old) (W.contents writer.new) bytes.now) }
    ensures err { IfErr result (λ fault.
        StopsWithin (W.contents writer.old) (W.contents writer.new) bytes.now 0 fault.written) }
    ensures room { OnOk result (Takes (W.room writer.old) (W.room writer.new) (length bytes.now)) }
    ensures room_err { IfErr result (λ fault. Takes (W.room writer.old) (W.room writer.new) fault.written) }
    ensures stopped { IsSound (W.seen writer.old)
        → OnErr result (WriterStops (W.seen writer.old).interruptions (W.seen writer.new) (W.room writer.new)) }
    ensures steady { IsSound (W.seen writer.old)
        → OnOk result (Lasts (W.seen writer.old).interruptions (W.seen writer.new)) }
{
    let mut progress = WriteState::new();
    write_all(writer, bytes, &mut progress)
}
