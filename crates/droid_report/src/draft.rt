//! Takes the records of a CSV one by one, the header first, and counts its rows.
//!
//! After a fault nothing is promised of the draft: the only caller, `read_rows` of `report.rt`, drops it. All that take
//! a record may also fail with `Memory`.

ghost use Rattle.std.specs.Prelude.{◌≡◌, ◌≢◌, IfOk, None, Some};
ghost use Rattle.std.specs.Option.{option_copied, option_map};
ghost use Rattle.csv.specs.Records.{fields_of};
ghost use Rattle.droid_report.specs.Lines.{line_of};
ghost use Rattle.droid_report.specs.Rows as profiles;

use crate::counts::Counts;
use crate::report::Report;
use crate::row::{Row, facts_of};
use csv::ByteRecord;
use droid_export::{Column, Header, ListFault, said};
use droid_frame::HashKind;
use std::alloc::{AllocError, Global};

/// The columns that a report is made of beside those that [`droid_export::read_profile`] needs: `needed` of
/// `specs/Rows.antt` has the same, which the prover ties.
const NEEDED: [Column; 5] = [
    Column::Method,
    Column::ExtensionMismatch,
    Column::Puid,
    Column::FormatName,
    Column::FormatVersion,
];

/// What was read so far.
pub(crate) struct Draft {
    // None before the first record.
    header: Option<Header>,
    // How many records, with the header.
    records: u64,
    // The last row: the next one may be of the same file.
    last: Option<Row>,
    counts: Counts,
}

// Written by hand: taken apart here once, instead of at each place that drops one. A new field also gets a line here.
impl Drop for Draft {
    fn drop(self) {
        let Draft {
            header: _header,
            records: _records,
            last: _last,
            counts: _counts,
        } = self;
    }
}

impl Draft {
    ghost use Rattle.droid_export.specs.Headers.{header_of, whole_row};
    ghost use Rattle.droid_report.specs.Calls.{Gives, IsDraft, Leaves};
    ghost use Rattle.droid_report.specs.Rows.{Draft as Read, facts_of, finished, nothing_read, taken};
    ghost use Rattle.droid_report.specs.Rows.{with_header, with_row};

    /// Makes the draft before the first record: no header, no rows, all counts zero.
    pub(crate) fn new(alloc: Global) -> Result<Draft, AllocError>
        ensures { IfOk result (λ draft. IsDraft draft nothing_read) }
    {
        let counts = Counts::new(alloc)?;
        Ok(Draft {
            header: None,
            records: 0,
            last: None,
            counts,
        })
    }

    /// Takes one record more: the first is the header, each other one a row. Returns the first fault of the record.
    pub(crate) fn take(&mut self, alloc: Global, row: ByteRecord) -> Result<(), ListFault>
        ensures { (old : Read) → IsDraft self.old old → Leaves result self.new (taken old (fields_of row)) }
    {
        match self.header {
            Some(header) => self.take_behind(alloc, header, row),
            None => self.take_header(&row),
        }
    }

    /// Takes the first record, or returns `Header` if it does not have the names of a profile's columns.
    fn take_header(&mut self, row: &ByteRecord) -> Result<(), ListFault>
        ensures { (old : Read) → IsDraft self.old old → old.header ≡ None
            → Leaves result self.new (with_header (header_of (fields_of row.now))) }
    {
        match Header::of(row) {
            Some(header) => self.begin(header),
            None => Err(ListFault::Header),
        }
    }

    /// Keeps the header, which is record 1, or returns `Missing` with the first column of [`NEEDED`] that it lacks.
    fn begin(&mut self, header: Header) -> Result<(), ListFault>
        ensures { (old : Read) → IsDraft self.old old → old.header ≡ None
            → Leaves result self.new (with_header (Some header)) }
    {
        match header.missing(&NEEDED) {
            Some(column) => Err(ListFault::Missing { column }),
            None => {
                self.header = Some(header);
                self.records = 1;
                Ok(())
            }
        }
    }

    /// Takes a record behind this header. If the CSV lacks columns, the record is first widened to all columns, with
    /// empty fields for those.
    fn take_behind(
        &mut self,
        alloc: Global,
        header: Header,
        row: ByteRecord,
    ) -> Result<(), ListFault>
        ensures { (old : Read) → IsDraft self.old old → old.header ≢ None
            → Leaves result self.new
            (with_row old header.hash (whole_row header (fields_of row))
            (facts_of (whole_row header (fields_of row)))) }
    {
        if header.is_whole() {
            return self.take_row(alloc, header.hash, row);
        }
        let mut wide = ByteRecord::new(alloc);
        header.widen(&row, &mut wide)?;
        self.take_row(alloc, header.hash, wide)
    }

    /// Counts a row that has all columns, and keeps it till the next, which may be of the same file. Returns `Column`
    /// with the first column that [`facts_of`] finds wrong, and the record's number: the header is record 1. `hash` is
    /// the header's, and stands in this fault: it names the column of hashes.
    fn take_row(&mut self, alloc: Global, hash: HashKind, row: ByteRecord) -> Result<(), ListFault>
        ensures { (old : Read) → IsDraft self.old old → old.header ≢ None
            → Leaves result self.new (with_row old hash (fields_of row) (facts_of (fields_of row))) }
    {
        // No memory holds that many records.
        let Some(record) = self.records.checked_add(1) else {
            return Err(ListFault::Memory);
        };
        match facts_of(&row) {
            Ok(facts) => {
                let is_first = !has_id(self.last.as_ref(), &row);
                let row = Row {
                    fields: row,
                    facts,
                    is_first,
                };
                self.counts.add(alloc, &row)?;
                self.last = Some(row);
                self.records = record;
                Ok(())
            }
            Err(column) => Err(ListFault::Column {
                record,
                column,
                hash,
            }),
        }
    }

    /// Returns the report of all records that were taken, or `Header` if there was none.
    pub(crate) fn finish(self) -> Result<Report, ListFault>
        ensures { (old : Read) → IsDraft self old → Gives result (finished old.header old.lines) }
    {
        let Draft {
            header,
            records: _records,
            last: _last,
            counts,
        } = self;
        match header {
            Some(header) => Ok(Report {
                hash: header.hash,
                counts,
            }),
            None => Err(ListFault::Header),
        }
    }
}

/// Returns whether a row has the ID of the row before it, `other`: then it is a further format of the same file. The
/// first row has none before it.
fn has_id(other: Option<&Row>, row: &ByteRecord) -> bool
    ensures { result ≡ profiles.has_id (option_map line_of (option_copied other.entry)) (fields_of row.now) }
{
    match other {
        Some(other) => said(&other.fields, Column::Id) == said(row, Column::Id),
        None => false,
    }
}
