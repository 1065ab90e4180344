//! The page of a CSV: made with the time that the clock shows, and written to a file.
//!
//! Proved is that the page is that of the CSV, at some moment. Which moment the clock shows, and what becomes of the
//! file, has no contract: `check_report.py` of `tests/program/report` and `profile_report.py` and `output_calls.py` of
//! `tests/program/folders` test it. No test has a clock that fails, or is before 1970 or after 9999.

ghost use Rattle.std.specs.Prelude.{◌≡◌, ℕ, List, option_map};
ghost use Rattle.csv.specs.Reading.{AreRecords, default_config, strip_bom};
ghost use Rattle.csv.specs.declared.parser.State.TheVariants as st;
ghost use Rattle.droid_cmd_profile.specs.Abouts.{title_of};
ghost use Rattle.droid_cmd_profile.specs.PagesOfCsv.{GivesNow};

use crate::pages::csv_page::{PageTexts, page_of_csv};
use crate::pages::page_fault::PageFault;
use crate::pages::page_writer::write_page;
use droid_disk::Output;
use droid_export::{ListFault, moment_text};
use droid_frame::Text;
use droid_report::{ProfileFault, texts};
use droid_terminal::name_of;
use std::alloc::AllocError;
use std::fs::{File, Files};
use std::time::{Clock, SystemTime, UNIX_EPOCH};

/// The last second that a moment's text has a form for: 9999-12-31T23:59:59. `moment_text` requires no more
/// (`IsMoment` of `droid_export`), so the prover ties them.
const LAST_SECOND: u64 = 253_402_300_799;

/// Makes the page of a CSV of this name. It says that it was made at this moment, and by which registry the files were
/// identified, if that is known. Fails as `page_of_csv` does.
pub fn page_now<R: Clock + AllocGlobal>(
    rt: &R,
    csv: &[u8],
    title: &str,
    name: &str,
    registry: Option<&str>,
) -> Result<String, ProfileFault>
    // The page is that of the records that `csv` reads, at some moment, unless memory runs out.
    ensures { (records : List (List (List ℕ))) → AreRecords default_config st.StartRecord (strip_bom csv.now) records
        → GivesNow title.now name.now (option_map (λ text. text.now) registry.entry) records result }
{
    let Ok(moment) = moment_now(rt) else {
        return Err(ProfileFault::Csv(ListFault::Memory));
    };
    let texts = PageTexts {
        title,
        moment: moment.as_str(),
        name,
        registry,
    };
    page_of_csv(rt.alloc(), csv, texts)
}

/// Returns the title of the page of a folder with this absolute path: its last name, or `/`.
pub fn title_of(absolute: &str) -> &str
    ensures { result.now ≡ title_of absolute.now }
{
    let name = name_of(absolute);
    if name.is_empty() { "/" } else { name }
}

/// Writes a page to a file, and puts it in its place once it is complete. If not all can be written, removes it, and an
/// older file stays. Fails with `Unwritten` then, or with `NoOutput` if it can't be put in its place.
pub fn put_page<R: Files<File = File>>(output: Output<'_, R>, page: &str) -> Result<(), PageFault> {
    let mut output = output;
    if let Err(fault) = write_page(&mut output, page) {
        output.give_up();
        return Err(PageFault::Unwritten(fault));
    }
    match output.complete() {
        Ok(()) => Ok(()),
        Err(fault) => Err(PageFault::NoOutput(fault)),
    }
}

/// Returns what the clock shows, in UTC, as text. If it fails or is before 1970, returns the words that the time is
/// unknown. Fails only if memory runs out.
fn moment_now<R: Clock + AllocGlobal>(rt: &R) -> Result<Text, AllocError> {
    match seconds_now(rt) {
        Some(seconds) => moment_of(rt, seconds),
        None => Text::copy_of(rt.alloc(), texts::UNKNOWN_TIME),
    }
}

/// Returns the seconds since 1970 by the clock, or `None` if it fails or is before 1970.
fn seconds_now<R: Clock>(rt: &R) -> Option<u64> {
    let now = SystemTime::now(rt).ok()?;
    let since = now.duration_since(UNIX_EPOCH).ok()?;
    Some(since.as_secs())
}

/// Returns the text of a time in seconds since 1970; of any after the last second that has a text, that of the last.
/// Fails only if memory runs out.
fn moment_of<R: AllocGlobal>(rt: &R, seconds: u64) -> Result<Text, AllocError> {
    moment_text(rt.alloc(), seconds.min(LAST_SECOND) as i64)
}
