//! The text of rows that are added record by record, and written whenever the caller asks: the whole export is never in
//! memory, unless the caller wants it.

ghost use Rattle.std.specs.Prelude.{◌≡◌, ◌++◌, [], IfErr, OnErr, OnOk, length};
ghost use Rattle.std.specs.Io.KnownBytes.{Appends};
ghost use Rattle.droid_frame.specs.Seen.{IsSound, Lasts};
ghost use Rattle.droid_frame.specs.Writes.{StopsWithin, Takes, WriterStops};
ghost use Rattle.droid_export.specs.Moments.{IsMoment};
ghost use Rattle.droid_export.specs.Rows.{header};
ghost use Rattle.droid_export.specs.Text.{record_text, row_text};

use crate::pending_text::PendingText;
use crate::rows::{add_header, add_rows};
use droid_frame::{HashKind, Record, SteadyWrite, WriteFault};
use droid_pronom::Registry;
use std::alloc::{AllocError, Global};
use std::marker::Model;

/// The text of rows that are not written yet. In contracts it is the list of its bytes.
///
/// Its memory is kept and used again by the rows that come later.
#[derive(Drop)]
pub struct RowText {
    /// The rows that are not written yet.
    text: PendingText,
    /// A place for the rows of the record that is added. Each call clears it first.
    rows: Vec<u8>,
    /// A place for the URI of the record that is added.
    uri: String,
}

impl Model for RowText {
    ghost use Rattle.std.specs.Prelude.{List, ℕ};

    ghost Value = { List ℕ };

    ghost view = { λ rows. rows.text };
}

impl RowText {
    /// Returns a text without rows. Takes no memory.
    pub fn new(alloc: Global) -> RowText
        ensures { result ≡ [] }
    {
        RowText {
            text: PendingText::new(alloc),
            rows: Vec::new(alloc),
            uri: String::new(alloc),
        }
    }

    /// Returns how many bytes are not written yet.
    pub fn len(&self) -> usize
        ensures { result ≡ length self.now }
    {
        self.text.len()
    }

    /// Appends the names of the columns. `hash` names the hash column. Fails only if memory runs out, and then changes
    /// nothing.
    pub fn add_header(&mut self, hash: HashKind) -> Result<(), AllocError>
        ensures added { OnOk result (self.new ≡ self.old ++ row_text (header hash)) }
        ensures unchanged { OnErr result (self.new ≡ self.old) }
    {
        self.rows.clear();
        add_header(&mut self.rows, hash)?;
        self.text.add(self.rows.as_slice())?;
        Ok(())
    }

    /// Appends the rows of a record: one for each of its formats, in order, or one row without a format. Fails only if
    /// memory runs out, and then changes nothing.
    ///
    /// The caller ensures that the record was modified from 0001-01-01T00:00:00 to 9999-12-31T23:59:59.
    pub fn add(&mut self, registry: &Registry, node: &Record) -> Result<(), AllocError>
        requires { IsMoment node.now.modified }
        ensures added { OnOk result (self.new ≡ self.old ++ record_text registry.now node.now) }
        ensures unchanged { OnErr result (self.new ≡ self.old) }
    {
        self.rows.clear();
        add_rows(&mut self.rows, &mut self.uri, registry, node)?;
        self.text.add(self.rows.as_slice())?;
        Ok(())
    }

    /// Writes the rows, after which there are none. If not all can be written, they stay as they are, and the fault
    /// says how many bytes were written: exactly the first ones. Interrupted writes are tried again, at most 64 times
    /// in one call.
    pub fn write_to<W: SteadyWrite>(&mut self, writer: &mut W) -> Result<(), WriteFault>
        ensures ok { OnOk result (Appends (W.contents writer.old) (W.contents writer.new) self.old) }
        ensures emptied { OnOk result (self.new ≡ []) }
        ensures err { IfErr result (λ fault.
            StopsWithin (W.contents writer.old) (W.contents writer.new) self.old 0 fault.written) }
        ensures unchanged { OnErr result (self.new ≡ self.old) }
        ensures room { OnOk result (Takes (W.room writer.old) (W.room writer.new) (length self.old)) }
        ensures room_err { IfErr result (λ fault. Takes (W.room writer.old) (W.room writer.new) fault.written) }
        // The call fails exactly if the writer stopped: it failed, was interrupted for the 65th time, or had no room
        // for the rest.
        ensures stopped { IsSound (W.seen writer.old)
            → OnErr result (WriterStops (W.seen writer.old).interruptions (W.seen writer.new) (W.room writer.new)) }
        ensures steady { IsSound (W.seen writer.old)
            → OnOk result (Lasts (W.seen writer.old).interruptions (W.seen writer.new)) }
    {
        self.text.write_to(writer)
    }

    /// Returns the text of the rows that are not written yet, without a copy.
    pub(crate) fn into_vec(self) -> Vec<u8>
        ensures { result.items ≡ self }
    {
        let RowText { text, .. } = self;
        text.into_vec()
    }
}
