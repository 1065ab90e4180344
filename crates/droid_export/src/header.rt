//! The header of a profile's CSV, of all columns or of some, and the rows behind a header of some.

ghost use Rattle.std.specs.Prelude.{◌≡◌, OnOk, map};
ghost use Rattle.std.specs.Str.{bytes_eq};
ghost use Rattle.csv.specs.Records.{fields_of};
ghost use Rattle.droid_export.specs.Headers as headers;
ghost use Rattle.droid_export.specs.Table.{columns, field_or, name_of};

use crate::column::{COLUMNS, Column};
use crate::csv_row::Row;
use csv::ByteRecord;
use droid_frame::HashKind;
use std::alloc::AllocError;

/// Returns the kind of hash that a header says, if the record has the names of all columns, in their order, and no
/// other field; otherwise `None`.
pub fn hash_of_header<R: Row>(names: &R) -> Option<HashKind>
    ensures { result ≡ headers.hash_of_header (R.fields names.now) }
{
    if has_names(HashKind::Nothing, names) {
        return Some(HashKind::Nothing);
    }
    if has_names(HashKind::Md5, names) {
        return Some(HashKind::Md5);
    }
    if has_names(HashKind::Sha256, names) {
        return Some(HashKind::Sha256);
    }
    None
}

/// Returns whether a record has the names of the columns of a CSV with these hashes.
fn has_names<R: Row>(hash: HashKind, names: &R) -> bool
    ensures { result ≡ headers.has_names hash (R.fields names.now) }
{
    names.count() == COLUMNS.len() && are_named(hash, names)
}

/// Returns whether each column's name stands at its place. Fields behind the last column do not count: `has_names`
/// looks at the number.
fn are_named<R: Row>(hash: HashKind, names: &R) -> bool
    ensures { result ≡ headers.are_named hash (R.fields names.now) }
{
    COLUMNS.iter().all(|column| is_named(hash, names, *column))
}

/// Returns whether the field at a column's place is the column's name.
fn is_named<R: Row>(hash: HashKind, names: &R, column: Column) -> bool
    ensures { result ≡ headers.is_named hash (R.fields names.now) column }
{
    names.field(column.place()) == column.name(hash).as_bytes()
}

/// What the first record of a profile's CSV says.
#[derive(Clone, Copy)]
pub struct Header {
    /// The kind of the hashes, which names their column.
    pub hash: HashKind,
    /// For each of the columns, in their order, whether the CSV has it.
    pub has: [bool; 18],
}

impl Header {
    /// Reads the names of the columns: of all of them, or of some in their order. Returns `None` for other names.
    pub fn of(names: &ByteRecord) -> Option<Header>
        ensures { result ≡ headers.header_of (fields_of names.now) }
    {
        match hash_of_header(names) {
            Some(hash) => Some(Header {
                hash,
                has: [true; 18],
            }),
            None => part_of(names),
        }
    }

    /// Returns whether the CSV has all columns.
    pub fn is_whole(&self) -> bool
        ensures { result ≡ headers.is_whole self.now }
    {
        self.has.iter().all(|there| *there)
    }

    /// Returns the first of these columns that the CSV lacks, or `None` if it has them all.
    pub fn missing(&self, needed: &[Column]) -> Option<Column>
        ensures { result ≡ headers.missing needed.now self.now }
    {
        needed.iter().copied().find(|column| !self.has(*column))
    }

    /// Writes a row of this CSV to `wide`, as one with all columns: those that the CSV lacks are empty. A row that does
    /// not have as many fields as the CSV has columns gets no field, which makes it a fault for whoever reads it. Fails
    /// only if memory runs out, and then nothing is promised of `wide`: its callers drop it.
    pub fn widen(&self, row: &ByteRecord, wide: &mut ByteRecord) -> Result<(), AllocError>
        ensures { OnOk result (fields_of wide.new ≡ headers.widened self.now (fields_of row.now)) }
    {
        wide.clear();
        if row.len() != self.count() {
            return Ok(());
        }
        for column in &COLUMNS {
            wide.push_field(self.cell(row, *column))?;
        }
        Ok(())
    }

    /// Returns whether the CSV has a column.
    fn has(&self, column: Column) -> bool
        ensures { result ≡ headers.has_column self.now column }
    {
        self.has[column.place()]
    }

    /// Returns how many columns the CSV has.
    fn count(&self) -> usize
        ensures { result ≡ headers.count_in self.now.has }
    {
        self.has.iter().filter(|there| **there).count()
    }

    /// Returns how many columns of the CSV stand before a column.
    fn place(&self, column: Column) -> usize
        ensures { result ≡ headers.place_in self.now column }
    {
        self.has[..column.place()]
            .iter()
            .filter(|there| **there)
            .count()
    }

    /// Returns the field of a column, or no bytes if the CSV lacks it.
    fn cell<'a>(&self, row: &'a ByteRecord, column: Column) -> &'a [u8]
        ensures { result.now ≡ headers.cell self.now (fields_of row.now) column }
    {
        if self.has(column) {
            row.field(self.place(column))
        } else {
            &[]
        }
    }

    /// Returns whether these are exactly the names of the columns that the CSV has, in their order.
    fn is_named(&self, names: &ByteRecord) -> bool
        ensures { result ≡ headers.are_names_of self.now (fields_of names.now) }
    {
        names.len() == self.count() && self.are_in_place(names)
    }

    /// Returns whether each column that the CSV has finds its name at its place among these.
    fn are_in_place(&self, names: &ByteRecord) -> bool
        ensures { result ≡ headers.are_in_place self.now (fields_of names.now) }
    {
        COLUMNS
            .iter()
            .all(|column| self.is_in_place(names, *column))
    }

    /// Returns whether a column's name is at its place among these, or the CSV lacks the column.
    fn is_in_place(&self, names: &ByteRecord, column: Column) -> bool
        ensures { result ≡ headers.is_in_place self.now (fields_of names.now) column }
    {
        !self.has(column) || self.cell(names, column) == column.name(self.hash).as_bytes()
    }
}

/// Reads the names of some columns; `None` for other names, or another order. A CSV that lacks the column of the hashes
/// counts as one without hashes.
fn part_of(names: &ByteRecord) -> Option<Header>
    ensures { result ≡ headers.part_of (fields_of names.now) }
{
    part_with(HashKind::Nothing, names)
        .or(part_with(HashKind::Md5, names))
        .or(part_with(HashKind::Sha256, names))
}

/// Reads the names of some columns of a CSV with these hashes: takes the columns whose names are there; `None` if other
/// names are there too, or the order is another.
fn part_with(hash: HashKind, names: &ByteRecord) -> Option<Header>
    ensures { result ≡ headers.part_with hash (fields_of names.now) }
{
    let has = columns_named(hash, names);
    let header = Header { hash, has };
    if header.is_named(names) {
        Some(header)
    } else {
        None
    }
}

/// Returns for each column, in their order, whether its name is among these, at any place.
fn columns_named(hash: HashKind, names: &ByteRecord) -> [bool; 18]
    ensures { result ≡ map (headers.has_name hash (fields_of names.now)) columns }
{
    let mut has = [false; 18];
    for place in 0..18 {
        has[place] = has_name(hash, names, COLUMNS[place]);
    }
    has
}

/// Returns whether the name of a column is among these, at any place.
fn has_name(hash: HashKind, names: &ByteRecord, column: Column) -> bool
    ensures { result ≡ headers.has_name hash (fields_of names.now) column }
{
    for place in 0..names.len() {
        if is_name(hash, names, column, place) {
            return true;
        }
    }
    false
}

/// Returns whether the name at a place is that of a column.
fn is_name(hash: HashKind, names: &ByteRecord, column: Column, place: usize) -> bool
    ensures { result ≡ bytes_eq (field_or (fields_of names.now) place) (name_of hash column) }
{
    names.field(place) == column.name(hash).as_bytes()
}
