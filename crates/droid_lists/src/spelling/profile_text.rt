//! Reads a whole text of a profile: the names of the columns, and then one record after the other.

ghost use Rattle.std.specs.Prelude.{◌≡◌, ◌<◌, ◌^◌, IfErr, IfOk, length};
ghost use Rattle.csv.specs.Records.{fields_of};
ghost use Rattle.droid_lists.specs.TextReading.{IsFaultBehind, IsFaultOf, NamesComes, ReadsAll, ReadsText};

use crate::entries::Entries;
use crate::spelling::column_names::other_name;
use crate::spelling::reading::Reading;
use crate::spelling::text_fault::TextFault;
use crate::spelling::text_row::read_row;
use csv::ByteRecord;
use droid_frame::HashKind;
use std::alloc::{AllocError, Global};

/// Reads the records of a profile's text, whose hashes are of this kind. Fails at the first column that no profile can
/// have there.
pub(crate) fn read_text(alloc: Global, hash: HashKind, text: &[u8]) -> Result<Entries, TextFault>
    ensures read { IfOk result (λ entries. ReadsText hash text.now entries) }
    ensures wrong { IfErr result (λ fault. IsFaultOf hash text.now fault) }
{
    let names = read_names(alloc, hash, text)?;
    match names {
        Ok(rest) => read_entries(alloc, hash, rest),
        Err(column) => Err(TextFault::Wrong { record: 1, column }),
    }
}

/// Reads the names of the columns, the first row. Returns the text behind them, or the first column that is wrong.
fn read_names(alloc: Global, hash: HashKind, text: &[u8]) -> Result<Result<&[u8], u8>, AllocError>
    ensures { IfOk result (λ read. NamesComes read hash text.now) }
{
    let mut names = ByteRecord::new(alloc);
    let read = read_row(alloc, &mut names, text)?;
    let rest = match read {
        Ok(rest) => rest,
        Err(column) => return Ok(Err(column)),
    };
    match other_name(hash, &names) {
        Some(column) => Ok(Err(column)),
        None => Ok(Ok(rest)),
    }
}

/// Reads the records behind the names of the columns, to the end of the text. Each has at least one byte, so that there
/// are turns enough. A wrong row is counted from 1, which is that of the names.
fn read_entries(alloc: Global, hash: HashKind, text: &[u8]) -> Result<Entries, TextFault>
    ensures read { IfOk result (λ entries. ReadsAll hash text.now entries) }
    ensures wrong { IfErr result (λ fault. IsFaultBehind hash text.now fault) }
{
    let mut reading = Reading::new(alloc);
    let mut rest = text;
    for _ in 0..text.len() {
        if rest.is_empty() {
            return Ok(reading.entries);
        }
        let before = reading.entries.rows;
        let read = reading.take(alloc, hash, rest)?;
        match read {
            Ok(behind) => rest = behind,
            Err(wrong) => {
                return Err(TextFault::Wrong {
                    record: before + 1 + wrong.rows,
                    column: wrong.column,
                });
            }
        }
    }
    Ok(reading.entries)
}
