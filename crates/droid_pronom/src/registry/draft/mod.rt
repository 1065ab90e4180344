//! A registry that is being read: judges each record of its file, and adds it. `fields_of`, of the kit's `csv`, is the
//! list of a record's texts.
//!
//! After an error nothing is promised of the draft: `Registry::parse`, which alone calls `take`, drops it.

ghost use Rattle.std.specs.Prelude.{◌≡◌, ◌<◌, ◌^◌, length, IfOk};
ghost use Rattle.csv.specs.Records.{fields_of};
ghost use Rattle.droid_pronom.specs.RegistryCalls.{draft_of, Gives, HasOutcome};
ghost use Rattle.droid_pronom.specs.RegistryFields as field;
ghost use Rattle.droid_pronom.specs.RegistryFile.{empty_draft, taken_count};
ghost use Rattle.droid_pronom.specs.RegistryRecords.{Step, Judged, known};

mod signatures;
mod tables;

use crate::registry::Registry;
use crate::registry::fault::{Fault, Refusal};
use crate::registry::record_kind::{RecordKind, kind_of};
use crate::registry::row_text::RowText;
use csv::{ByteRecord, StringRecord};
use std::alloc::Global;

/// The most records of each of three kinds: E, P and S. `specs/RegistryRecords.antt` has the same number for each, and
/// the prover ties them.
const ROWS_LIMIT: usize = 16_384;
/// The number of fields of each record: as many texts has `RowText`. `Step` of `specs/RegistryRecords.antt` has the
/// same number, and the prover ties them.
const FIELDS: usize = 6;

/// The registry that the records so far make, and what is needed to judge the next record.
#[derive(Drop)]
pub(crate) struct Draft {
    pub registry: Registry,
    /// The number of byte sequences of all signatures together.
    pub sequences: u32,
    /// The place of the format to whose signature a B record may now add a byte sequence.
    pub current: Option<u32>,
}

impl Draft {
    /// Makes the draft before the first record. Takes no memory.
    pub(crate) fn new(alloc: Global) -> Draft
        ensures { draft_of result ≡ empty_draft }
    {
        Draft {
            registry: Registry::new(alloc),
            sequences: 0,
            current: None,
        }
    }

    /// Returns the number of records so far, for the number of the next one. Each is a row of one of the tables, or a
    /// byte sequence; a signature came with its first one.
    pub(crate) fn records(&self) -> u64
        ensures count { result ≡ taken_count (draft_of self.now) }
        ensures small { result < 2 ^ 63 }
    {
        let sequences = self.sequences as u64;
        self.registry.len() as u64
            + self.registry.extensions().len() as u64
            + self.registry.priorities().len() as u64
            + sequences
    }

    /// Adds the next record, or returns what is wrong with it: `BadRecord` if it does not have six fields, then
    /// `NotUtf8`, then what `judge` finds.
    pub(crate) fn take(&mut self, alloc: Global, row: ByteRecord) -> Result<(), Refusal>
        ensures { HasOutcome result (draft_of self.new) (Step (draft_of self.old) (fields_of row)) }
    {
        if row.len() != FIELDS {
            return Err(Refusal::Fault(Fault::BadRecord));
        }
        let Ok(row) = StringRecord::from_byte_record(row) else {
            return Err(Refusal::Fault(Fault::NotUtf8));
        };
        self.judge(alloc, RowText::of(&row))
    }

    /// Adds a record of six texts by its kind, or returns what is wrong with it: `BadRecord` if its first text names no
    /// kind.
    fn judge(&mut self, alloc: Global, row: RowText) -> Result<(), Refusal>
        ensures { HasOutcome result (draft_of self.new)
            (Judged (draft_of self.old) (field.kind_of row.entry.kind.now) row.entry.puid.now row.entry.second.now
            row.entry.third.now row.entry.fourth.now row.entry.fifth.now) }
    {
        let RowText {
            kind,
            puid,
            second,
            third,
            fourth,
            fifth,
        } = row;
        match kind_of(kind) {
            None => Err(Refusal::Fault(Fault::BadRecord)),
            Some(RecordKind::Format) => {
                self.take_format(alloc, puid, second, third, fourth, fifth)
            }
            Some(RecordKind::Extension) => {
                self.take_extension(alloc, puid, second, third, fourth, fifth)
            }
            Some(RecordKind::Priority) => self.take_priority(puid, second, third, fourth, fifth),
            Some(RecordKind::Signature) => {
                self.take_signature(alloc, puid, second, third, fourth, fifth)
            }
            Some(RecordKind::Sequence) => {
                self.take_sequence(alloc, puid, second, third, fourth, fifth)
            }
        }
    }

    /// Returns the place of the format with this PUID in an earlier record, or `UnknownPuid` if there is none.
    pub(crate) fn known(&self, puid: &str) -> Result<u32, Refusal>
        ensures gives { Gives (λ place. place) result (known puid.now (draft_of self.now)) }
        ensures below { IfOk result (λ place. place < length self.now.registry.formats) }
    {
        match self.registry.by_puid(puid) {
            Some(place) => Ok(place),
            None => Err(Refusal::Fault(Fault::UnknownPuid)),
        }
    }
}
