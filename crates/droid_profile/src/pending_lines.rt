//! The lines of a list of checksums that are not written yet: adds one, and writes them all.

ghost use Rattle.std.specs.Prelude.{◌≡◌, ◌++◌, ◌<◌, ◌^◌, [], IfErr, OnErr, OnOk, length};
ghost use Rattle.std.specs.Io.KnownBytes.{Appends};
ghost use Rattle.droid_frame.specs.Seen.{IsSound, Lasts};
ghost use Rattle.droid_frame.specs.Writes.{StopsWithin, WriterStops};
ghost use Rattle.droid_profile.specs.Texts.{line_of};

use droid_fixity::add_line;
use droid_frame::{Record, SteadyWrite, WriteFault, WriteState, write_all};
use std::alloc::AllocError;

/// Appends the line of the file with this record. A folder has none, and neither has a file without a hash. If memory
/// runs out, nothing changes.
pub(crate) fn add_file(lines: &mut Vec<u8>, shown: &Record) -> Result<(), AllocError>
    ensures added { OnOk result (lines.new.items ≡ lines.old.items ++ line_of shown.now) }
    ensures unchanged { OnErr result (lines.new.items ≡ lines.old.items) }
{
    if !shown.kind.is_file() {
        return Ok(());
    }
    add_line(lines, shown.hash, shown.path.as_str())
}

/// Writes the lines, after which there are none. If the writer stops, it has their first bytes, and `lines` stay as
/// they are.
pub(crate) fn write_lines<M: SteadyWrite>(
    writer: &mut M,
    lines: &mut Vec<u8>,
) -> Result<(), WriteFault>
    ensures ok { OnOk result (Appends (M.contents writer.old) (M.contents writer.new) lines.old.items) }
    ensures emptied { OnOk result (lines.new.items ≡ []) }
    ensures err { IfErr result (λ fault.
        StopsWithin (M.contents writer.old) (M.contents writer.new) lines.old.items 0 fault.written) }
    ensures unchanged { OnErr result (lines.new.items ≡ lines.old.items) }
    ensures stopped { IsSound (M.seen writer.old)
        → OnErr result (WriterStops (M.seen writer.old).interruptions (M.seen writer.new) (M.room writer.new)) }
    ensures steady { IsSound (M.seen writer.old)
        → OnOk result (Lasts (M.seen writer.old).interruptions (M.seen writer.new)) }
{
    write_text(writer, lines.as_slice())?;
    lines.clear();
    Ok(())
}

/// Writes a text. After an error the writer has its first bytes, and `fault.written` says how many; an interrupted
/// write is tried again, up to 64 times.
fn write_text<M: SteadyWrite>(writer: &mut M, bytes: &[u8]) -> Result<(), WriteFault>
    requires { length bytes.now < 2 ^ 64 }
    ensures ok { OnOk result (Appends (M.contents writer.old) (M.contents writer.new) bytes.now) }
    ensures err { IfErr result (λ fault.
        StopsWithin (M.contents writer.old) (M.contents writer.new) bytes.now 0 fault.written) }
    ensures stopped { IsSound (M.seen writer.old)
        → OnErr result (WriterStops (M.seen writer.old).interruptions (M.seen writer.new) (M.room writer.new)) }
    ensures steady { IsSound (M.seen writer.old)
        → OnOk result (Lasts (M.seen writer.old).interruptions (M.seen writer.new)) }
{
    let mut progress = WriteState::new();
    write_all(writer, bytes, &mut progress)
}
