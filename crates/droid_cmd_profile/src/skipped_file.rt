//! The CSV of what is skipped, written line by line as it is reported.

ghost use Rattle.std.specs.Prelude.{◌≡◌, ◌<◌, ◌^◌, IfErr, None, OnErr, OnOk, length};
ghost use Rattle.std.specs.Io.KnownBytes.{Appends};
ghost use Rattle.droid_frame.specs.Seen.{IsSound};
ghost use Rattle.droid_frame.specs.Writes.{StopsWithin};
ghost use Rattle.droid_profile.specs.Writers.{LastsOn, Stops};
ghost use Rattle.droid_terminal.specs.SkippedTexts.{entry_text, header};
ghost use Rattle.droid_cmd_profile.specs.SkippedFiles.{GoesOn, IsLine, WritesLine};

use droid_frame::{SteadyWrite, WriteFault, WriteState, write_all};
use droid_terminal::{entry_line, header_line};
use droid_tree::Skipped;
use std::alloc::{AllocError, Global};

/// Why not all of the CSV was written.
#[derive(Clone, Copy)]
pub enum SkippedFault {
    /// Out of memory.
    Memory,
    /// The writer stopped. The fault counts the bytes of the last line.
    Write(WriteFault),
}

/// The CSV of what is skipped. After a fault nothing more is written.
#[derive(Drop)]
pub struct SkippedFile<S> {
    /// Where it is written.
    pub output: S,
    /// The first fault, if there was one.
    pub fault: Option<SkippedFault>,
}

impl<S: SteadyWrite> SkippedFile<S> {
    /// Begins the CSV: writes its header to this output. A fault is noted, as of any line.
    pub fn begin(alloc: Global, output: S) -> SkippedFile<S>
        ensures { GoesOn S.contents S.seen S.room (record { output = output; fault = None }) result header }
    {
        let mut file = SkippedFile {
            output,
            fault: None,
        };
        file.add_line(header_line(alloc));
        file
    }

    /// Writes the line of an entry, unless there was a fault: then nothing changes.
    #[tactic(auto, using(crate::proofs::SkippedLines::goes_from_some))]
    pub fn add(&mut self, alloc: Global, path: &[u8], why: Skipped)
        ensures { GoesOn S.contents S.seen S.room self.old self.new (entry_text path.now why) }
    {
        match self.fault {
            Some(_) => {}
            None => self.add_line(entry_line(alloc, path, why)),
        }
    }

    /// Writes a line, given as bytes or that there was no memory for it, and notes if it could not be made or not be
    /// written.
    fn add_line(&mut self, line: Result<Vec<u8>, AllocError>)
        ensures { (text : _) → IsLine line text → self.old.fault ≡ None
            → WritesLine S.contents S.seen S.room self.old self.new text }
    {
        match line {
            Ok(line) => self.put(line.as_slice()),
            Err(_) => self.fault = Some(SkippedFault::Memory),
        }
    }

    /// Writes these bytes of a line, and notes if not all could be written.
    fn put(&mut self, line: &[u8])
        ensures { self.old.fault ≡ None → WritesLine S.contents S.seen S.room self.old self.new line.now }
    {
        match write_line(&mut self.output, line) {
            Ok(()) => {}
            Err(fault) => self.fault = Some(SkippedFault::Write(fault)),
        }
    }
}

/// Writes a line whole, or says how far it came. Interrupted writes are tried again, at most 64 times, by `write_all`
/// of `droid_frame`.
fn write_line<S: SteadyWrite>(writer: &mut S, line: &[u8]) -> Result<(), WriteFault>
    requires { length line.now < 2 ^ 64 }
    ensures ok { OnOk result (Appends (S.contents writer.old) (S.contents writer.new) line.now) }
    ensures err { IfErr result (λ fault.
        StopsWithin (S.contents writer.old) (S.contents writer.new) line.now 0 fault.written) }
    ensures stopped { IsSound (S.seen writer.old)
        → OnErr result (Stops (S.seen writer.old) (S.seen writer.new) (S.room writer.new)) }
    ensures steady { IsSound (S.seen writer.old) → OnOk result (LastsOn (S.seen writer.old) (S.seen writer.new)) }
{
    let mut progress = WriteState::new();
    write_all(writer, line, &mut progress)
}
