//! Reads the report on a profile from its CSV, in two passes: as `verify` reads it, and then to count its rows.

ghost use Rattle.std.specs.Prelude.{◌≡◌, ℕ, List};
ghost use Rattle.csv.specs.Reading.{AreRecords, default_config, strip_bom};
ghost use Rattle.csv.specs.declared.parser.State.TheVariants as st;
ghost use Rattle.droid_report.specs.Calls.{Gives, GivesReport, IsDraft, Verifies};
ghost use Rattle.droid_report.specs.Rows.{lines_of, nothing_read};

use crate::counts::Counts;
use crate::draft::Draft;
use crate::fault::ProfileFault;
use csv::ReaderBuilder;
use droid_export::{ListFault, no_memory, read_profile};
use droid_fixity::Inventory;
use droid_frame::HashKind;
use std::alloc::Global;

/// The report on a profile.
#[derive(Drop)]
pub struct Report {
    /// Which hash the rows have.
    pub hash: HashKind,
    /// The counts of the rows.
    pub counts: Counts,
}

/// Reads the CSV of a profile or of an export, with any of the three hash columns, and counts its rows. docs/CSV.md
/// describes it.
///
/// What [`read_profile`] refuses is refused with the same fault, and then a path that stands twice. Only a CSV without
/// such a fault is looked at for the columns that a report alone reads, of which the first that is missing is named,
/// and if none is, the first that is wrong. The fault may also be that memory ran out, at any moment.
pub fn read_report(alloc: Global, text: &[u8]) -> Result<Report, ProfileFault>
    // The result is that of the records that `csv` reads, unless memory runs out.
    ensures { (records : List (List (List ℕ))) → AreRecords default_config st.StartRecord (strip_bom text.now) records
        → GivesReport records result }
{
    match verify_items(alloc, text) {
        Ok(()) => match count_rows(alloc, text) {
            Ok(report) => Ok(report),
            Err(fault) => Err(ProfileFault::Csv(fault)),
        },
        Err(fault) => Err(fault),
    }
}

/// Judges the CSV as the command `verify` does, by [`read_profile`] without formats and then for a path that stands
/// twice, and returns the fault. Keeps nothing.
fn verify_items(alloc: Global, text: &[u8]) -> Result<(), ProfileFault>
    ensures { (records : List (List (List ℕ))) → AreRecords default_config st.StartRecord (strip_bom text.now) records
        → Verifies records result }
{
    match read_profile(alloc, false, text) {
        Ok(profile) => match Inventory::of(profile.items) {
            Ok(inventory) => {
                // The prover learns from this call that the paths are in order.
                let _items = inventory.as_slice();
                Ok(())
            }
            Err(same) => Err(ProfileFault::Twice(same)),
        },
        Err(fault) => Err(ProfileFault::Csv(fault)),
    }
}

/// Counts the rows of a CSV that was judged. Returns `Missing` for the first column that a report needs and the CSV
/// lacks, `Column` for the first wrong one of those that a report alone reads, or `Memory`.
fn count_rows(alloc: Global, text: &[u8]) -> Result<Report, ListFault>
    ensures { (records : List (List (List ℕ))) → AreRecords default_config st.StartRecord (strip_bom text.now) records
        → Gives result (lines_of records) }
{
    match Draft::new(alloc) {
        Ok(draft) => read_rows(alloc, text, draft),
        Err(_) => Err(ListFault::Memory),
    }
}

/// Hands each record of the CSV to an empty draft, and returns its report, or the first fault.
fn read_rows(alloc: Global, text: &[u8], draft: Draft) -> Result<Report, ListFault>
    requires { IsDraft draft nothing_read }
    ensures { (records : List (List (List ℕ))) → AreRecords default_config st.StartRecord (strip_bom text.now) records
        → Gives result (lines_of records) }
{
    // The reader accepts any number of fields: `read_profile` has judged it, as `verify_items` has called it before.
    let reader = ReaderBuilder::new()
        .has_headers(false)
        .flexible(true)
        .from_reader(alloc, text);
    let mut draft = draft;
    for row in reader.into_byte_records() {
        match row {
            Err(error) => return Err(ListFault::from(no_memory(error))),
            Ok(row) => {
                if let Err(fault) = draft.take(alloc, row) {
                    return Err(fault);
                }
            }
        }
    }
    draft.finish()
}
