//! Reads the CSV of a profile: the fast way if its rows are plain, otherwise record by record.

ghost use Rattle.std.specs.Prelude.{ℕ, List};
ghost use Rattle.csv.specs.Reading.{AreRecords, default_config, strip_bom};
ghost use Rattle.csv.specs.declared.parser.State.TheVariants as st;
ghost use Rattle.droid_export.specs.ReadingCalls.{GivesProfile};

use crate::csv_error::no_memory;
use crate::reading::draft::Draft;
use crate::reading::fault::ListFault;
use crate::reading::format_row::FormatRow;
use crate::reading::plain_list::plain_profile;
use csv::{ByteRecord, ReaderBuilder};
use droid_frame::Item;
use std::alloc::Global;

/// What the CSV of a profile says.
#[derive(Drop)]
pub struct Profile {
    /// The folders and files, in its order.
    pub items: Vec<Item>,
    /// A row for each format of each file, in its order, if they are asked for.
    pub formats: Vec<FormatRow>,
}

/// Reads the CSV of a profile or of an export, with any of the three hash columns. docs/CSV.md describes it. `formats`
/// asks for the formats of its files.
///
/// Columns may be left out whose fields no item has; that of the PUIDs too, if no formats are asked for. A row whose
/// columns are the same as those of the row before it, but for the last four, the format's, adds no item: a file has as
/// many rows, one behind the other, as FORMAT_COUNT says, or one. An error names the first column that is needed and
/// missing, or the first malformed record and its first wrong column. If all are well-formed, it names the first record
/// that contradicts one before it: no two items have one ID, and no folder has two numbers. A field of a hash may be
/// empty. A list with all columns whose fields all stand between double quotes and have none in them takes the least
/// time.
pub fn read_profile(alloc: Global, formats: bool, text: &[u8]) -> Result<Profile, ListFault>
    // The result is that of the records that `csv` reads, unless memory runs out.
    ensures { (records : List (List (List ℕ))) → AreRecords default_config st.StartRecord (strip_bom text.now) records
        → GivesProfile formats records result }
{
    if let Some(profile) = plain_profile(alloc, formats, text)? {
        return Ok(profile);
    }
    // `Draft::take` judges the number of fields, so the reader accepts any number.
    let mut reader = ReaderBuilder::new()
        .has_headers(false)
        .flexible(true)
        .from_reader(alloc, text);
    let mut draft = Draft::new(alloc, formats);
    let mut row = ByteRecord::new(alloc);
    for _ in 0..u64::MAX {
        match reader.read_byte_record(&mut row) {
            Err(error) => return Err(ListFault::from(no_memory(error))),
            Ok(false) => return draft.finish(alloc),
            Ok(true) => {
                if let Err(fault) = draft.take(alloc, &mut row) {
                    return Err(fault);
                }
            }
        }
    }
    // No memory holds that many records.
    Err(ListFault::Memory)
}
