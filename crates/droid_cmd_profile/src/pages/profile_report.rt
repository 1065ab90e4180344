//! The command `report`: the page of a profile in a file of this machine. It joins proved calls to files, without
//! contracts, and is tested by `check_report.py` of `tests/program/report` (`faults`), by `output_calls.py` of
//! `tests/program/folders`, and by `reports_refused.py` of `tests/memory`.

use crate::pages::csv_report::{page_now, put_page};
use crate::pages::page_fault::PageFault;
use crate::pages::page_writer::write_page;
use crate::pages::report_ending::ReportEnding;
use droid_disk::Output;
use droid_frame::Noted;
use droid_terminal::{is_same_place, name_of};
use std::fs::{File, Files};
use std::io::ErrorKind;
use std::time::Clock;
use std::{fs, io};

/// Writes the page of a profile's CSV to a file or to standard output. A file is complete at the end, or as it was
/// before. Without a title the page has the name of the CSV.
pub fn report_profile<R>(
    rt: &R,
    profile: &str,
    title: Option<&str>,
    output: Option<&str>,
) -> ReportEnding
where
    R: Files<File = File> + Clock + Print + AllocGlobal,
{
    let name = name_of(profile);
    let title = title.unwrap_or(name);
    match output {
        Some(place) => report_to_file(rt, profile, title, place),
        None => report_to_output(rt, profile, title),
    }
}

/// Makes the page, and writes it to the file at `place`, which must not be the CSV itself. Whether it can be created is
/// checked before the CSV is read. Without a page, an older file stays.
fn report_to_file<R>(rt: &R, profile: &str, title: &str, place: &str) -> ReportEnding
where
    R: Files<File = File> + Clock + AllocGlobal,
{
    match is_same_place(rt, profile, place) {
        Ok(false) => {}
        Ok(true) => return ReportEnding::SameFile,
        Err(_) => return no_page(PageFault::Memory),
    }
    let output = match Output::create(rt.alloc(), rt, place) {
        Ok(output) => output,
        Err(fault) => return no_page(PageFault::NoOutput(fault)),
    };
    match page_for(rt, profile, title) {
        Ok(page) => put(output, page.as_str()),
        Err(ending) => {
            output.give_up();
            ending
        }
    }
}

/// Writes the page to its file, and returns the ending.
fn put<R: Files<File = File>>(output: Output<'_, R>, page: &str) -> ReportEnding {
    match put_page(output, page) {
        Ok(()) => ReportEnding::Whole,
        Err(fault) => no_page(fault),
    }
}

/// Makes the page, and writes it to standard output.
fn report_to_output<R>(rt: &R, profile: &str, title: &str) -> ReportEnding
where
    R: Files<File = File> + Clock + Print + AllocGlobal,
{
    let page = match page_for(rt, profile, title) {
        Ok(page) => page,
        Err(ending) => return ending,
    };
    match write_page(&mut Noted::new(io::writer(rt)), page.as_str()) {
        Ok(()) => ReportEnding::Whole,
        Err(fault) => no_page(PageFault::Unwritten(fault)),
    }
}

/// Reads the CSV at the path `profile` whole and makes its page, which names no registry, since the CSV has none. Fails
/// with the ending of the report.
fn page_for<R>(rt: &R, profile: &str, title: &str) -> Result<String, ReportEnding>
where
    R: Files<File = File> + Clock + AllocGlobal,
{
    let csv = match fs::read(rt, profile) {
        Ok(csv) => csv,
        Err(error) => return Err(unread(error.kind())),
    };
    match page_now(rt, csv.as_slice(), title, name_of(profile), None) {
        Ok(page) => Ok(page),
        Err(fault) => Err(ReportEnding::NoProfile(fault)),
    }
}

/// Returns the ending of a report whose page was not written, by this fault.
fn no_page(fault: PageFault) -> ReportEnding {
    ReportEnding::NoPage(fault)
}

/// Returns the ending of a report whose CSV could not be read, for the system's reason. Out of memory has its own.
fn unread(kind: ErrorKind) -> ReportEnding {
    match kind {
        ErrorKind::OutOfMemory => no_page(PageFault::Memory),
        kind => ReportEnding::Unread(kind),
    }
}
