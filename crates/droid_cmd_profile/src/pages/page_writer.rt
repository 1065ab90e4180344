//! Writes a page to any writer.

ghost use Rattle.std.specs.Prelude.{◌≡◌, ℕ, IfErr, OnOk};
ghost use Rattle.std.specs.Io.KnownBytes.{Appends};
ghost use Rattle.droid_frame.specs.Seen.{Counts};
ghost use Rattle.droid_frame.specs.Writes.{StopsWithin, WritesOn};

use droid_frame::{SteadyWrite, WriteFault, WriteState, write_all};

/// Writes a page whole, or says how far it came. Interrupted writes are tried again, at most 64 times, by `write_all`
/// of `droid_frame`.
pub fn write_page<S: SteadyWrite>(writer: &mut S, page: &str) -> Result<(), WriteFault>
    ensures ok { OnOk result (Appends (S.contents writer.old) (S.contents writer.new) page.now) }
    ensures err { IfErr result (λ fault.
        StopsWithin (S.contents writer.old) (S.contents writer.new) page.now 0 fault.written) }
    // It is a fault exactly where the writer stops.
    ensures stopped { (start : ℕ) → Counts start (S.seen writer.old) 0
        → (retries : ℕ) × WritesOn start (S.seen writer.new) (S.room writer.new) retries result }
{
    let mut progress = WriteState::new();
    write_all(writer, page.as_bytes(), &mut progress)
}
