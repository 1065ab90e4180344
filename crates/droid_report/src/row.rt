//! A row of a profile: its texts, and the facts that are read of it once, or the column that is wrong.

ghost use Rattle.std.specs.Prelude.{◌≡◌, IfOk, MatchOption, false, true};
ghost use Rattle.std.specs.Str.{is_utf8};
ghost use Rattle.csv.specs.Records.{fields_of};
ghost use Rattle.droid_export.specs.Table.{place_of};
ghost use Rattle.droid_report.specs.Lines.{line_of};
ghost use Rattle.droid_report.specs.Rows as rows;

use crate::facts::Facts;
use crate::fields::{depth_of, digits_of, kind_in, method_of, number_in, truth_of, year_of};
use csv::ByteRecord;
use droid_export::{Column, said};
use droid_frame::Method;
use std::alloc::AllocError;

/// A row of a profile: a folder, or a file with one of its formats.
#[derive(Drop)]
pub struct Row {
    /// The fields.
    pub fields: ByteRecord,
    /// What they say beside their texts.
    pub facts: Facts,
    /// Whether it is the first row of its folder or file.
    pub is_first: bool,
}

impl Row {
    /// Returns the text of a column, or nothing where it is not UTF-8. [`facts_of`] has refused a row in which one of
    /// [`TEXTS`] is not; hashes and moments are ASCII.
    pub fn text(&self, column: Column) -> &str
        ensures { result.now ≡ rows.text_at (fields_of self.now.fields) (place_of column) }
    {
        match text_in(said(&self.fields, column)) {
            Some(text) => text,
            None => "",
        }
    }

    /// Copies the row, for a list. Fails only if memory runs out.
    pub fn copy(&self) -> Result<Row, AllocError>
        ensures { IfOk result (λ copy. line_of copy ≡ line_of self.now) }
    {
        let fields = self.fields.clone()?;
        Ok(Row {
            fields,
            facts: self.facts,
            is_first: self.is_first,
        })
    }
}

/// The texts that a report alone reads, in the order in which the first wrong one is named: `texts` of
/// `specs/Rows.antt`, which the prover ties. [`droid_export::read_profile`] takes them as bytes, or not at all.
const TEXTS: [Column; 4] = [
    Column::FilePath,
    Column::Puid,
    Column::FormatName,
    Column::FormatVersion,
];

/// Reads the facts of a row that has all columns, after `read_profile` judged it. Returns the first wrong column of
/// those that a report alone reads: METHOD, EXTENSION_MISMATCH, then [`TEXTS`].
#[tactic(auto, unfolding(crate::specs::Rows::facts_of))]
pub(crate) fn facts_of(row: &ByteRecord) -> Result<Facts, Column>
    ensures { result ≡ rows.facts_of (fields_of row.now) }
{
    let method = method_of(said(row, Column::Method)).ok_or(Column::Method)?;
    let is_mismatch = truth_of(said(row, Column::ExtensionMismatch)).ok_or(
        Column::ExtensionMismatch,
    )?;
    match no_text(row) {
        Some(column) => Err(column),
        None => Ok(facts_by(row, method, is_mismatch)),
    }
}

/// Returns the first column of [`TEXTS`] that is not UTF-8, or `None` if all are.
fn no_text(row: &ByteRecord) -> Option<Column>
    ensures { result ≡ rows.no_text (fields_of row.now) }
{
    TEXTS.iter().copied().find(|column| !is_text(row, *column))
}

/// Returns whether a column's bytes are UTF-8.
fn is_text(row: &ByteRecord, column: Column) -> bool
    ensures { result ≡ rows.is_printable (fields_of row.now) column }
{
    match text_in(said(row, column)) {
        Some(_) => true,
        None => false,
    }
}

/// Returns the bytes as text, or `None` if they are not UTF-8.
fn text_in(bytes: &[u8]) -> Option<&str>
    ensures { MatchOption result (is_utf8 bytes.now ≡ false) (λ text.
        (text.now ≡ bytes.now) × (is_utf8 bytes.now ≡ true)) }
{
    match str::from_utf8(bytes) {
        Ok(text) => Some(text),
        Err(_) => None,
    }
}

/// Returns the facts of a row. The two that can be wrong were read by [`facts_of`]; the others cannot, in a judged row.
fn facts_by(row: &ByteRecord, method: Method, is_mismatch: bool) -> Facts
    ensures { result ≡ rows.facts_by (fields_of row.now) method is_mismatch }
{
    Facts {
        kind: kind_in(said(row, Column::Kind)),
        size: number_in(said(row, Column::Size)),
        method,
        is_mismatch,
        formats: number_in(said(row, Column::FormatCount)),
        year: year_of(said(row, Column::LastModified)),
        moment: digits_of(said(row, Column::LastModified)),
        depth: depth_of(said(row, Column::FilePath)),
    }
}
