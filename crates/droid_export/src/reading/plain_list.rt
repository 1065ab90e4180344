//! Reads lists whose rows are all plain, the fast way: `read_profile` tries it before `csv`. `None` is always allowed,
//! and costs time alone, since `csv` then reads the list.

ghost use Rattle.std.specs.Prelude.{◌≡◌, ℕ, List, None, IfOk, IfSome};
ghost use Rattle.csv.specs.Reading.{AreRecords, default_config, strip_bom};
ghost use Rattle.csv.specs.declared.parser.State.TheVariants as st;
ghost use Rattle.droid_export.specs.ReadingCalls.{IsProfileOf};
ghost use Rattle.droid_export.specs.PlainRows.{IsOfRows};

use crate::header::hash_of_header;
use crate::reading::draft::repeats;
use crate::reading::fault::ListFault;
use crate::reading::format_row::RowFormats;
use crate::reading::plain_row::PlainRow;
use crate::reading::profile::Profile;
use crate::reading::row::entry_of;
use crate::reading::rows::Rows;
use droid_frame::HashKind;
use std::alloc::{AllocError, Global};

/// Reads the CSV of a profile that has all columns and whose rows are all plain, as this program writes it where no
/// name has a double quote. That takes less time than `csv` needs, since no field is copied. Returns `None` for every
/// other list, and for a malformed one.
pub(crate) fn plain_profile(
    alloc: Global,
    formats: bool,
    text: &[u8],
) -> Result<Option<Profile>, AllocError>
    ensures { IfOk result (λ found.
        IfSome found (λ profile.
        (records : List (List (List ℕ))) → AreRecords default_config st.StartRecord (strip_bom text.now) records
        → IsProfileOf formats records profile)) }
{
    let Some((header, rest)) = PlainRow::first(text) else {
        return Ok(None);
    };
    match hash_of_header(&header) {
        Some(digest) => {
            let profile = profile_of_rows(alloc, digest, formats, rest)?;
            Ok(profile)
        }
        None => Ok(None),
    }
}

/// Reads the rows after the header, which are `text`. `digest` is the kind of hash that the header says, `formats` asks
/// for the formats of the files. Returns `None` at the first row that is not plain, or is at fault.
fn profile_of_rows(
    alloc: Global,
    digest: HashKind,
    formats: bool,
    text: &[u8],
) -> Result<Option<Profile>, AllocError>
    ensures { IfOk result (λ found.
        IfSome found (λ profile.
        (records : List (List (List ℕ))) → AreRecords default_config st.StartRecord text.now records
        → IsOfRows digest formats records profile)) }
{
    let mut kept = RowFormats::new(alloc, formats);
    let mut rows = Rows::new(alloc);
    let mut records: u64 = 1;
    let mut last = None;
    let mut rest = text;
    while !rest.is_empty() {
        let Some((row, behind)) = PlainRow::first(rest) else {
            return Ok(None);
        };
        let Some(record) = records.checked_add(1) else {
            return Ok(None);
        };
        let Ok(entry) = entry_of(alloc, digest, &row)? else {
            return Ok(None);
        };
        let repeated = repeats(last.as_ref(), &row);
        if let Err(fault) = rows.take(record, entry, repeated) {
            return none_unless_memory(fault);
        }
        kept.add(alloc, &row)?;
        records = record;
        last = Some(row);
        rest = behind;
    }
    match rows.judge(alloc, records) {
        Ok(items) => Ok(Some(Profile {
            items,
            formats: kept.rows,
        })),
        Err(fault) => none_unless_memory(fault),
    }
}

/// Returns nothing, since `csv` then reads the list again and names the fault, unless memory ran out.
fn none_unless_memory(fault: ListFault) -> Result<Option<Profile>, AllocError>
    ensures { IfOk result (λ found. found ≡ None) }
{
    match fault {
        ListFault::Memory => Err(AllocError),
        _ => Ok(None),
    }
}
