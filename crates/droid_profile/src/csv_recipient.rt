//! A recipient that writes records as CSV, and the checksums of files as a list.

ghost use Rattle.std.specs.Prelude.{◌≡◌, ◌<◌, ◌++◌, ℕ, List, [], true, false, IfErr, IsTrue, OnErr, OnOk, length};
ghost use Rattle.droid_core_spec.specs.Conditions.{is_moment};
ghost use Rattle.droid_export.specs.Rows.{header};
ghost use Rattle.droid_export.specs.Text.{row_text};
ghost use Rattle.droid_profile.specs.Taking.{BreaksCsv, BreaksList, BreaksOne, EndsRest, Fails, FewLines, GoesOn};
ghost use Rattle.droid_profile.specs.Taking.{IsFew, LinesGrow, ListBreaks, ListGoes, Stays, Takes, TakesSoon};
ghost use Rattle.droid_profile.specs.Taking.{WritesRest};
ghost use Rattle.droid_profile.specs.Texts.{line_of};
ghost use Rattle.droid_profile.specs.WrittenTrees.{IsOfWriter};

use crate::csv_fault::CsvFault;
use crate::pending_lines::{add_file, write_lines};
use crate::recipient::{Recipient, RecipientFault};
use droid_export::RowText;
use droid_frame::{HashKind, Record, SteadyWrite, WriteFault};
use droid_pronom::Registry;
use std::alloc::{AllocError, Global};

/// Rows are written once this many bytes of them are pending, and then all of them; so are lines. `IsFew` of the
/// definitions has the number too, and the prover compares both.
const PENDING: usize = 65_536;

/// Writes records as CSV, and the checksums of files as a list.
#[derive(Drop)]
pub struct CsvRecipient<'a, O, M> {
    /// Has the names of the formats.
    pub registry: &'a Registry,
    /// Where the CSV is written.
    pub csv: O,
    /// Where the list of checksums is written, if one is wanted.
    pub manifest: Option<M>,
    /// The rows that are not written yet.
    pub(crate) rows: RowText,
    /// The lines of the list that are not written yet.
    pub(crate) lines: Vec<u8>,
    /// Whether the list was written last, and not the CSV.
    pub(crate) wrote_list: bool,
}

impl<'a, O, M> CsvRecipient<'a, O, M> {
    /// Takes the writers. The list gets a line for each file, which `md5sum -c` or `sha256sum -c` checks in the folder
    /// that is profiled.
    pub fn new(
        alloc: Global,
        registry: &'a Registry,
        csv: O,
        manifest: Option<M>,
    ) -> CsvRecipient<'a, O, M>
        ensures registry { result.registry.now ≡ registry.now }
        ensures csv { result.csv ≡ csv }
        ensures manifest { result.manifest ≡ manifest }
    {
        CsvRecipient {
            registry,
            csv,
            manifest,
            rows: RowText::new(alloc),
            lines: Vec::new(alloc),
            wrote_list: false,
        }
    }
}

impl<O: SteadyWrite, M: SteadyWrite> CsvRecipient<'_, O, M> {
    /// Begins anew, with the names of the columns pending, as they are for this kind of hash. Fails only if memory runs
    /// out; nothing is promised of the rows and lines then.
    pub(crate) fn begin(&mut self, alloc: Global, hash: HashKind) -> Result<(), AllocError>
        ensures rows { OnOk result (self.new.rows ≡ row_text (header hash)) }
        ensures lines { OnOk result (self.new.lines.items ≡ []) }
        ensures registry { self.new.registry.now ≡ self.old.registry.now }
        ensures csv { self.new.csv ≡ self.old.csv }
        ensures manifest { self.new.manifest ≡ self.old.manifest }
    {
        self.rows = RowText::new(alloc);
        self.lines = Vec::new(alloc);
        self.wrote_list = false;
        self.rows.add_header(hash)?;
        Ok(())
    }

    /// Adds the rows and the line of a record to what is pending. If memory runs out, nothing changes.
    fn add(&mut self, next: &Record) -> Result<(), AllocError>
        requires { IsTrue (is_moment next.now.modified) }
        ensures added { OnOk result (Takes O.contents O.seen M.contents M.seen self.old next.now self.new) }
        ensures unchanged { OnErr result (Stays self.old self.new) }
    {
        let before = self.lines.len();
        self.add_line(next)?;
        match self.rows.add(self.registry, next) {
            Ok(()) => Ok(()),
            Err(error) => {
                self.lines.truncate(before);
                Err(error)
            }
        }
    }

    /// Adds the line of a record, if a list is wanted: nothing for a folder, or without a hash. If memory runs out,
    /// nothing changes.
    fn add_line(&mut self, next: &Record) -> Result<(), AllocError>
        ensures same { self.new ≡ record self.old { lines = self.new.lines } }
        ensures added { OnOk result
            (LinesGrow self.old.manifest self.old.lines.items self.new.lines.items (line_of next.now)) }
        ensures front { OnOk result ((more : List ℕ) × (self.new.lines.items ≡ self.old.lines.items ++ more)) }
        ensures unchanged { OnErr result (self.new.lines.items ≡ self.old.lines.items) }
    {
        match self.manifest {
            Some(_) => add_file(&mut self.lines, next),
            None => Ok(()),
        }
    }

    /// Writes the rows if 64 KiB of them are pending, and then the lines if as many of those are. After an error
    /// `wrote_list` says which writer stopped.
    fn write_full(&mut self) -> Result<(), WriteFault>
        ensures ok { OnOk result (GoesOn O.contents O.seen M.contents M.seen self.old [] [] self.new) }
        ensures few { OnOk result (IsFew self.new) }
        ensures err { OnErr result
            (BreaksOne O.contents O.seen O.room M.contents M.seen M.room self.old [] [] self.new) }
    {
        self.write_full_rows()?;
        self.write_full_lines()
    }

    /// Writes the rows that are pending, once there are 64 KiB of them.
    fn write_full_rows(&mut self) -> Result<(), WriteFault>
        ensures ok { OnOk result (GoesOn O.contents O.seen M.contents M.seen self.old [] [] self.new) }
        ensures few { OnOk result (length self.new.rows < 65536) }
        ensures err { OnErr result (BreaksCsv O.contents O.seen O.room M.contents M.seen self.old [] [] self.new) }
        ensures flag { OnErr result (self.new.wrote_list ≡ false) }
    {
        if self.rows.len() < PENDING {
            return Ok(());
        }
        self.write_rows()
    }

    /// Writes the lines of the list that are pending, once there are 64 KiB of them.
    #[tactic(auto, using(crate::proofs::FewPending::few_lines))]
    fn write_full_lines(&mut self) -> Result<(), WriteFault>
        ensures rows { self.new.rows ≡ self.old.rows }
        ensures ok { OnOk result (GoesOn O.contents O.seen M.contents M.seen self.old [] [] self.new) }
        ensures few { OnOk result (FewLines self.new.manifest self.new.lines.items) }
        ensures err { OnErr result (BreaksList O.contents O.seen M.contents M.seen M.room self.old [] [] self.new) }
        ensures flag { OnErr result (self.new.wrote_list ≡ true) }
    {
        if self.lines.len() < PENDING {
            return Ok(());
        }
        self.write_list()
    }

    /// Writes all rows that are pending, after which there are none. After an error part of them may be written, and
    /// `wrote_list` is false.
    fn write_rows(&mut self) -> Result<(), WriteFault>
        ensures ok { OnOk result (GoesOn O.contents O.seen M.contents M.seen self.old [] [] self.new) }
        ensures emptied { OnOk result (self.new.rows ≡ []) }
        ensures few { OnOk result (length self.new.rows < 65536) }
        ensures err { OnErr result (BreaksCsv O.contents O.seen O.room M.contents M.seen self.old [] [] self.new) }
        ensures flag { OnErr result (self.new.wrote_list ≡ false) }
    {
        self.wrote_list = false;
        self.rows.write_to(&mut self.csv)
    }

    /// Writes all lines that are pending, if there is a list. After an error part of them may be written, and
    /// `wrote_list` is true.
    fn write_list(&mut self) -> Result<(), WriteFault>
        ensures rows { (self.new.csv ≡ self.old.csv) × (self.new.rows ≡ self.old.rows)
            × (self.new.registry.now ≡ self.old.registry.now) }
        ensures ok { OnOk result
            (ListGoes M.contents M.seen self.old.manifest self.new.manifest self.old.lines.items self.new.lines.items
            []) }
        ensures emptied { OnOk result
            (ListGoes M.contents M.seen self.old.manifest self.new.manifest self.old.lines.items [] []) }
        ensures few { OnOk result (FewLines self.new.manifest self.new.lines.items) }
        ensures err { OnErr result
            (ListBreaks M.contents M.seen M.room self.old.manifest self.new.manifest self.old.lines.items []) }
        ensures flag { OnErr result (self.new.wrote_list ≡ true) }
    {
        self.wrote_list = true;
        match &mut self.manifest {
            Some(writer) => write_lines(writer, &mut self.lines),
            None => Ok(()),
        }
    }

    /// Writes all rows and then all lines that are pending, at the end. Fails with the fault of the writer that
    /// stopped; if the CSV's did, no line is written.
    pub(crate) fn write_rest(&mut self) -> Result<(), CsvFault>
        ensures ok { OnOk result (WritesRest O.contents O.seen M.contents M.seen self.old self.new) }
        ensures err { IfErr result (λ fault.
            IsOfWriter fault × EndsRest O.contents O.seen O.room M.contents M.seen M.room fault self.old self.new) }
    {
        match self.write_rows() {
            Ok(()) => {}
            Err(_) => return Err(CsvFault::Csv),
        }
        match self.write_list() {
            Ok(()) => Ok(()),
            Err(_) => Err(CsvFault::Manifest),
        }
    }
}

impl<O: SteadyWrite, M: SteadyWrite> Recipient for CsvRecipient<'_, O, M> {
    ghost takes = { λ old next new. TakesSoon O.contents O.seen M.contents M.seen old next new };

    ghost fails = { λ old next fault new. Fails O.contents O.seen O.room M.contents M.seen M.room old next fault new };

    // Adds the record to what is pending, and then writes that if it is enough. So after a fault of a writer the record
    // was added; after `Memory` it was not.
    fn take(&mut self, next: &Record) -> Result<(), RecipientFault> {
        match self.add(next) {
            Ok(()) => {}
            Err(_) => return Err(RecipientFault::Memory),
        }
        match self.write_full() {
            Ok(()) => Ok(()),
            Err(fault) => Err(RecipientFault::Write(fault)),
        }
    }
}
