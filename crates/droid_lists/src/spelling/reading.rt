//! Reads one record of a profile's text, with all its rows, behind those before it.

ghost use Rattle.std.specs.Prelude.{[], IfOk};
ghost use Rattle.csv.specs.Records.{fields_of};
ghost use Rattle.droid_lists.specs.EntryReading.{StandsForAll, TakesEntry, TakesFirst, TakesMore, TakesRow, TakesRows};

use crate::entries::{Entries, Listed};
use crate::spelling::own_puids::OwnPuids;
use crate::spelling::row_formats::Formats;
use crate::spelling::row_tests::{formats_in, rows_in, wrong_content, wrong_shared};
use crate::spelling::text_row::read_row;
use csv::ByteRecord;
use droid_frame::HashKind;
use std::alloc::{AllocError, Global};

/// Where a record is wrong first.
#[derive(Clone, Copy)]
pub(crate) struct WrongRow {
    /// How many rows of the record come before the wrong one.
    pub(crate) rows: u64,
    /// The column, counted from 0.
    pub(crate) column: u8,
}

/// What was read of a text so far.
#[derive(Drop)]
pub(crate) struct Reading {
    pub(crate) entries: Entries,
    formats: Formats,
}

impl Reading {
    /// Makes the empty one, before the first record. Takes no memory.
    pub(crate) fn new(alloc: Global) -> Reading
        ensures { StandsForAll result [] }
    {
        Reading {
            entries: Entries::new(alloc),
            formats: Formats::new(alloc),
        }
    }

    /// Reads the record in front of a text, with as many rows as it has formats, or one. Returns the text behind it, or
    /// where it is wrong first. After that, or after an error, nothing is promised of what was read: the reading ends.
    pub(crate) fn take<'a>(
        &mut self,
        alloc: Global,
        hash: HashKind,
        text: &'a [u8],
    ) -> Result<Result<&'a [u8], WrongRow>, AllocError>
        ensures { IfOk result (λ read. TakesEntry read self.old self.new hash text.now) }
    {
        let mut first = ByteRecord::new(alloc);
        let read = read_row(alloc, &mut first, text)?;
        let rest = match read {
            Ok(rest) => rest,
            Err(column) => return Ok(Err(WrongRow { rows: 0, column })),
        };
        let mut own = OwnPuids::new(alloc);
        let wrong = wrong_first(
            &self.entries,
            &mut self.formats,
            alloc,
            hash,
            &mut own,
            &first,
        )?;
        match wrong {
            Some(column) => return Ok(Err(WrongRow { rows: 0, column })),
            None => {}
        }
        let more = take_more(&mut self.formats, alloc, &mut own, &first, rest)?;
        let rest = match more {
            Ok(rest) => rest,
            Err(wrong) => return Ok(Err(wrong)),
        };
        let count = rows_in(&first);
        let listed = Listed {
            number: self.entries.rows.saturating_add(1),
            row: first,
            puids: own.finish(),
        };
        self.entries.add(alloc, count, listed)?;
        Ok(Ok(rest))
    }
}

/// Returns the first wrong column of a row that begins a record: of its place, of its content, of its format, in this
/// order. If there is none, notes its format in `formats` and `own`.
#[tactic(auto, unfolding(crate::specs::ProfileRows::wrong_first))]
fn wrong_first(
    entries: &Entries,
    formats: &mut Formats,
    alloc: Global,
    hash: HashKind,
    own: &mut OwnPuids,
    row: &ByteRecord,
) -> Result<Option<u8>, AllocError>
    ensures { IfOk result (λ wrong.
        TakesFirst wrong entries.now formats.old formats.new own.old own.new hash (fields_of row.now)) }
{
    let place = entries.wrong_place(alloc, row)?;
    match place {
        Some(column) => return Ok(Some(column)),
        None => {}
    }
    match wrong_content(hash, row) {
        Some(column) => return Ok(Some(column)),
        None => {}
    }
    let wrong = formats.take(alloc, own, formats_in(row), row)?;
    Ok(wrong)
}

/// Reads the rows of a record behind its first. Returns the text behind them, or which is wrong, and in which column.
fn take_more<'a>(
    formats: &mut Formats,
    alloc: Global,
    own: &mut OwnPuids,
    first: &ByteRecord,
    text: &'a [u8],
) -> Result<Result<&'a [u8], WrongRow>, AllocError>
    ensures { IfOk result (λ read.
        TakesRows read formats.old formats.new own.old own.new (fields_of first.now) text.now) }
{
    let mut row = ByteRecord::new(alloc);
    let mut rest = text;
    for place in 1..rows_in(first) {
        let read = take_row(formats, alloc, own, first, &mut row, rest)?;
        match read {
            Ok(behind) => rest = behind,
            Err(column) => {
                return Ok(Err(WrongRow {
                    rows: place,
                    column,
                }));
            }
        }
    }
    Ok(Ok(rest))
}

/// Reads one more row of a record into `row`, in place of what it had. Returns the text behind it, or its first wrong
/// column.
fn take_row<'a>(
    formats: &mut Formats,
    alloc: Global,
    own: &mut OwnPuids,
    first: &ByteRecord,
    row: &mut ByteRecord,
    text: &'a [u8],
) -> Result<Result<&'a [u8], u8>, AllocError>
    ensures { IfOk result (λ read.
        TakesRow read formats.old formats.new own.old own.new (fields_of first.now) text.now) }
{
    let read = read_row(alloc, row, text)?;
    let rest = match read {
        Ok(rest) => rest,
        Err(column) => return Ok(Err(column)),
    };
    let wrong = wrong_more(formats, alloc, own, first, row)?;
    match wrong {
        Some(column) => Ok(Err(column)),
        None => Ok(Ok(rest)),
    }
}

/// Returns the first wrong column of one more row of a file with several formats: one in which it differs from the
/// first row, or one of its format. If there is none, notes its format.
#[tactic(auto, unfolding(crate::specs::ProfileRows::wrong_more))]
fn wrong_more(
    formats: &mut Formats,
    alloc: Global,
    own: &mut OwnPuids,
    first: &ByteRecord,
    row: &ByteRecord,
) -> Result<Option<u8>, AllocError>
    ensures { IfOk result (λ wrong.
        TakesMore wrong formats.old formats.new own.old own.new (fields_of first.now) (fields_of row.now)) }
{
    match wrong_shared(first, row) {
        Some(column) => return Ok(Some(column)),
        None => {}
    }
    let wrong = formats.take(alloc, own, formats_in(first), row)?;
    Ok(wrong)
}
