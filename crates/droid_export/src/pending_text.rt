//! Text that waits to be written, in memory that later text uses again. `RowText` keeps its rows in it.

ghost use Rattle.std.specs.Prelude.{◌≡◌, ◌++◌, [], IfErr, OnErr, OnOk, length};
ghost use Rattle.std.specs.Io.KnownBytes.{Appends};
ghost use Rattle.droid_frame.specs.Seen.{IsSound, Lasts};
ghost use Rattle.droid_frame.specs.Writes.{StopsWithin, Takes, WriterStops};

use crate::writer::write_text;
use droid_frame::{SteadyWrite, WriteFault};
use std::alloc::{AllocError, Global};
use std::marker::Model;

/// Text that is not written yet. In contracts it is the list of its bytes.
///
/// Its memory is kept and used again by the text that comes later.
#[derive(Drop)]
pub struct PendingText {
    bytes: Vec<u8>,
}

impl Model for PendingText {
    ghost use Rattle.std.specs.Prelude.{List, ℕ};

    ghost Value = { List ℕ };

    ghost view = { λ text. text.bytes.items };
}

impl PendingText {
    /// Returns an empty text. Takes no memory.
    pub fn new(alloc: Global) -> PendingText
        ensures { result ≡ [] }
    {
        PendingText {
            bytes: Vec::new(alloc),
        }
    }

    /// Returns how many bytes are not written yet.
    pub fn len(&self) -> usize
        ensures { result ≡ length self.now }
    {
        self.bytes.len()
    }

    /// Appends bytes. Fails only if memory runs out, and then changes nothing.
    pub fn add(&mut self, bytes: &[u8]) -> Result<(), AllocError>
        ensures added { OnOk result (self.new ≡ self.old ++ bytes.now) }
        ensures unchanged { OnErr result (self.new ≡ self.old) }
    {
        self.bytes.extend_from_slice(bytes)?;
        Ok(())
    }

    /// Writes the text, after which it is empty. If not all can be written, it stays as it is, and the fault says how
    /// many bytes were written: exactly the first ones. Interrupted writes are tried again, at most 64 times in one
    /// call.
    pub fn write_to<W: SteadyWrite>(&mut self, writer: &mut W) -> Result<(), WriteFault>
        ensures ok { OnOk result (Appends (W.contents writer.old) (W.contents writer.new) self.old) }
        ensures emptied { OnOk result (self.new ≡ []) }
        ensures err { IfErr result (λ fault.
            StopsWithin (W.contents writer.old) (W.contents writer.new) self.old 0 fault.written) }
        ensures unchanged { OnErr result (self.new ≡ self.old) }
        ensures room { OnOk result (Takes (W.room writer.old) (W.room writer.new) (length self.old)) }
        ensures room_err { IfErr result (λ fault. Takes (W.room writer.old) (W.room writer.new) fault.written) }
        // The call fails exactly if the writer stopped: it failed, was interrupted for the 65th time, or had no room
        // for the rest.
        ensures stopped { IsSound (W.seen writer.old)
            → OnErr result (WriterStops (W.seen writer.old).interruptions (W.seen writer.new) (W.room writer.new)) }
        ensures steady { IsSound (W.seen writer.old)
            → OnOk result (Lasts (W.seen writer.old).interruptions (W.seen writer.new)) }
    {
        write_text(writer, self.bytes.as_slice())?;
        self.bytes.clear();
        Ok(())
    }

    /// Returns the text that is not written yet, without a copy.
    pub(crate) fn into_vec(self) -> Vec<u8>
        ensures { result.items ≡ self }
    {
        let PendingText { bytes } = self;
        bytes
    }
}
