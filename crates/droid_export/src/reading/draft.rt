//! A list that is being read record by record, as `csv` gives them, and whether a row repeats the one before it. After
//! a fault nothing is promised of what was read: `read_profile` drops it.

ghost use Rattle.std.specs.Prelude.{◌≡◌, [], Some, IfOk, OnOk};
ghost use Rattle.std.specs.Option.{option_copied, option_map};
ghost use Rattle.csv.specs.Records.{fields_of};
ghost use Rattle.droid_export.specs.Headers.{header_of, whole_row};
ghost use Rattle.droid_export.specs.FormatRows.{rows_added, rows_if, rows_of};
ghost use Rattle.droid_export.specs.Profiles as profiles;

use crate::column::Column;
use crate::csv_row::Row;
use crate::header::Header;
use crate::reading::fault::{ListFault, fault_at};
use crate::reading::format_row::RowFormats;
use crate::reading::profile::Profile;
use crate::reading::row::entry_of;
use crate::reading::rows::Rows;
use csv::ByteRecord;
use droid_frame::HashKind;
use std::alloc::Global;
use std::mem;

/// What was read so far.
#[derive(Drop)]
pub(crate) struct Draft {
    // The header, once it was read.
    header: Option<Header>,
    // How many records were read, the header among them.
    records: u64,
    rows: Rows,
    // The row before the next one, with all columns.
    last: Option<ByteRecord>,
    formats: RowFormats,
}

impl Draft {
    ghost use Rattle.droid_export.specs.ReadingCalls.{AddsRows, Gives, Leaves, draft_of, items_in};
    ghost use Rattle.droid_export.specs.Profiles.{finished, nothing_read, taken};

    /// Makes a draft before the first record. `formats` asks for the formats of the files. Takes no memory.
    pub(crate) fn new(alloc: Global, formats: bool) -> Draft
        ensures draft { draft_of result ≡ nothing_read formats }
        ensures kept { result.formats.kept ≡ formats }
        ensures none { result.formats.rows.items ≡ [] }
    {
        Draft {
            header: None,
            records: 0,
            rows: Rows::new(alloc),
            last: None,
            formats: RowFormats::new(alloc, formats),
        }
    }

    /// Adds a record: the header first, then the rows. The record may then have other fields, to be read into again.
    pub(crate) fn take(&mut self, alloc: Global, row: &mut ByteRecord) -> Result<(), ListFault>
        ensures draft { Leaves result (draft_of self.new) (taken (draft_of self.old) (fields_of row.old)) }
        ensures formats { OnOk result (AddsRows self.old.formats self.new.formats
            (rows_added self.old.formats.kept (draft_of self.old).stage (fields_of row.old))) }
    {
        match self.header {
            Some(header) => self.take_behind(alloc, header, row),
            None => self.take_header(alloc, row),
        }
    }

    /// Takes the first record, which has to be the header; the fault is `Header` if it is not, or `Missing`.
    fn take_header(&mut self, alloc: Global, row: &ByteRecord) -> Result<(), ListFault>
        ensures draft { Leaves result (draft_of self.new)
            (profiles.with_header self.old.formats.kept (header_of (fields_of row.now))) }
        ensures formats { OnOk result (self.new.formats ≡ self.old.formats) }
    {
        match Header::of(row) {
            Some(header) => self.begin(alloc, header),
            None => Err(ListFault::Header),
        }
    }

    /// Begins the rows behind a header, if it has the columns that are needed; otherwise the fault is `Missing`, with
    /// the first one that it lacks.
    fn begin(&mut self, alloc: Global, header: Header) -> Result<(), ListFault>
        ensures draft { Leaves result (draft_of self.new)
            (profiles.with_header self.old.formats.kept (Some header)) }
        ensures formats { OnOk result (self.new.formats ≡ self.old.formats) }
    {
        match header.missing(needed(self.formats.kept)) {
            Some(column) => Err(ListFault::Missing { column }),
            None => {
                self.header = Some(header);
                self.records = 1;
                self.rows = Rows::new(alloc);
                self.last = None;
                Ok(())
            }
        }
    }

    /// Adds a row behind this header. Columns that the list lacks are read as empty.
    fn take_behind(
        &mut self,
        alloc: Global,
        header: Header,
        row: &mut ByteRecord,
    ) -> Result<(), ListFault>
        ensures draft { Leaves result (draft_of self.new)
            (profiles.with_whole (draft_of self.old) header.hash (whole_row header (fields_of row.old))) }
        ensures formats { OnOk result (AddsRows self.old.formats self.new.formats
            (rows_if self.old.formats.kept (rows_of (whole_row header (fields_of row.old))))) }
    {
        if header.is_whole() {
            return self.take_row(alloc, header.hash, row);
        }
        let mut wide = ByteRecord::new(alloc);
        header.widen(row, &mut wide)?;
        self.take_row(alloc, header.hash, &mut wide)
    }

    /// Takes a row with all columns: the first of an item, or one more of the item before. `digest` is the kind of the
    /// list's hashes.
    fn take_row(
        &mut self,
        alloc: Global,
        digest: HashKind,
        row: &mut ByteRecord,
    ) -> Result<(), ListFault>
        ensures draft { Leaves result (draft_of self.new)
            (profiles.with_whole (draft_of self.old) digest (fields_of row.old)) }
        ensures formats { OnOk result (AddsRows self.old.formats self.new.formats
            (rows_if self.old.formats.kept (rows_of (fields_of row.old)))) }
    {
        // No memory holds that many records.
        let Some(record) = self.records.checked_add(1) else {
            return Err(ListFault::Memory);
        };
        match entry_of(alloc, digest, row)? {
            Ok(entry) => {
                let repeated = repeats(self.last.as_ref(), row);
                self.rows.take(record, entry, repeated)?;
                self.formats.add(alloc, row)?;
                self.records = record;
                keep_last(alloc, &mut self.last, row);
                Ok(())
            }
            Err(fault) => Err(fault_at(record, digest, fault)),
        }
    }

    /// Returns what all records say, after the last. The fault is `Header` if there was none, or that of
    /// [`Rows::judge`].
    pub(crate) fn finish(self, alloc: Global) -> Result<Profile, ListFault>
        ensures items { Gives (items_in result)
            (finished (draft_of self).stage (draft_of self).records (draft_of self).rows) }
        ensures formats { IfOk result (λ profile. profile.formats ≡ self.formats.rows) }
    {
        let Draft {
            header,
            records,
            rows,
            formats,
            ..
        } = self;
        match header {
            Some(_) => {
                let items = rows.judge(alloc, records)?;
                Ok(Profile {
                    items,
                    formats: formats.rows,
                })
            }
            None => Err(ListFault::Header),
        }
    }
}

/// The columns that a list is read by. The tenth and last one only where the formats of its files are asked for.
const NEEDED: [Column; 10] = [
    Column::Id,
    Column::ParentId,
    Column::FilePath,
    Column::Name,
    Column::Size,
    Column::Kind,
    Column::LastModified,
    Column::Hash,
    Column::FormatCount,
    Column::Puid,
];

/// Returns the columns that a list is read by; `formats` asks for the formats of its files.
fn needed(formats: bool) -> &'static [Column]
    ensures { result.now ≡ profiles.needed formats }
{
    if formats { &NEEDED } else { &NEEDED[..9] }
}

/// Keeps a row as the last one. `row` gets the one before it, to be read into again, so that no row takes new memory.
fn keep_last(alloc: Global, last: &mut Option<ByteRecord>, row: &mut ByteRecord)
    ensures { option_map fields_of last.new ≡ Some (fields_of row.old) }
{
    match last {
        Some(last) => mem::swap(last, row),
        None => *last = Some(mem::replace(row, ByteRecord::new(alloc))),
    }
}

/// The columns that all rows of a file share: all but PUID, MIME_TYPE, FORMAT_NAME and FORMAT_VERSION, which come last.
const SHARED_COLUMNS: [usize; 14] = [0, 1, 2, 3, 4, 5, 6, 7, 8, 9, 10, 11, 12, 13];

/// Returns whether a row repeats the row before it, if there was one.
pub(crate) fn repeats<R: Row>(last: Option<&R>, row: &R) -> bool
    ensures { result ≡ profiles.repeats (option_map R.fields (option_copied last.entry)) (R.fields row.now) }
{
    match last {
        Some(last) => are_same(last, row),
        None => false,
    }
}

/// Returns whether two rows have the same bytes in each column that all rows of a file share.
fn are_same<R: Row>(last: &R, row: &R) -> bool
    ensures { result ≡ profiles.are_same (R.fields last.now) (R.fields row.now) }
{
    SHARED_COLUMNS
        .iter()
        .all(|column| has_same(last, row, *column))
}

/// Returns whether two rows have the same bytes in the column at a place.
fn has_same<R: Row>(last: &R, row: &R, column: usize) -> bool
    ensures { result ≡ profiles.same_column (R.fields last.now) (R.fields row.now) column }
{
    last.field(column) == row.field(column)
}
