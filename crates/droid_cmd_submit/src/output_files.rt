//! The files that a submission writes: each is complete, or as it was before. Nothing here has a contract, since files
//! are up to the machine: `tests/program/submissions/submit_outputs.py` tests it,
//! `tests/program/folders/output_calls.py` each call that fails, and `tests/memory/submissions_refused.py` each
//! allocation. Nothing tests that a page may not lie in the folder, that the CSV and that of skipped entries may not be
//! the same, or the order of these checks.

use crate::submission_ending::{OutputFile, SubmissionEnding};
use droid_arguments::SubmitOptions;
use droid_cmd_profile::{PageFault, page_now, put_page, title_of};
use droid_disk::{Output, OutputFault};
use droid_frame::{WriteState, write_all};
use droid_terminal::{
    SkippedEntry, absolute_path, folder_of, is_same_place, lies_in, name_of, skipped_csv,
};
use std::fs::{File, Files};
use std::time::Clock;

/// Checks, before anything is sent, that no two of the named files are the same, that none would lie in the folder with
/// this absolute path, and that each can be created. Returns the first ending that forbids it, in this order, or
/// `NoMemory`.
pub(crate) fn see_outputs<R: Files<File = File> + AllocGlobal>(
    rt: &R,
    options: SubmitOptions<'_>,
    absolute: &str,
) -> Result<(), SubmissionEnding> {
    see_other(rt, options.export, options.skipped, OutputFile::Skipped)?;
    see_other(rt, options.export, options.report, OutputFile::Page)?;
    see_other(rt, options.skipped, options.report, OutputFile::Page)?;
    see_place(rt, absolute, options.export, OutputFile::Export)?;
    see_place(rt, absolute, options.skipped, OutputFile::Skipped)?;
    see_place(rt, absolute, options.report, OutputFile::Page)?;
    Ok(())
}

/// Checks that two files are not the same, if both are named: that is the ending `SameFile`. `file` says which of the
/// three the second is: the ending names it. If memory runs out, it is `NoMemory`.
fn see_other<R: Files + AllocGlobal>(
    rt: &R,
    first: Option<&str>,
    second: Option<&str>,
    file: OutputFile,
) -> Result<(), SubmissionEnding> {
    let (Some(first), Some(second)) = (first, second) else {
        return Ok(());
    };
    match is_same_place(rt, first, second) {
        Ok(false) => Ok(()),
        Ok(true) => Err(SubmissionEnding::SameFile(file)),
        Err(_) => Err(SubmissionEnding::NoMemory),
    }
}

/// Checks that a file, if one is named, would not lie in the folder, and that it can be created: it is, and is removed.
/// In the folder it would change the modification time of the folder around it, and with it the request that adds that
/// folder. The ending is `InFolder` or `NoOutput`, or `NoMemory` if there is none for the absolute path.
fn see_place<R: Files<File = File> + AllocGlobal>(
    rt: &R,
    absolute: &str,
    path: Option<&str>,
    file: OutputFile,
) -> Result<(), SubmissionEnding> {
    let Some(path) = path else {
        return Ok(());
    };
    let Ok(folder) = absolute_path(rt, folder_of(path)) else {
        return Err(SubmissionEnding::NoMemory);
    };
    if lies_in(folder.as_str(), absolute) {
        return Err(SubmissionEnding::InFolder(file));
    }
    match Output::create(rt.alloc(), rt, path) {
        Ok(output) => {
            output.give_up();
            Ok(())
        }
        Err(fault) => Err(SubmissionEnding::NoOutput(file, fault)),
    }
}

/// Writes the CSV of the profile, as the service sent it, if a file is named for it. Fails as [`write_file`].
pub(crate) fn write_export<R: Files<File = File> + AllocGlobal>(
    rt: &R,
    path: Option<&str>,
    csv: &[u8],
) -> Result<(), SubmissionEnding> {
    match path {
        Some(path) => write_file(rt, path, csv, OutputFile::Export),
        None => Ok(()),
    }
}

/// Writes the CSV of what was skipped, if a file is named for it. It is written too if nothing was. Fails as
/// [`write_file`]; without memory for the CSV it is `NoOutput`.
pub(crate) fn write_skipped<R: Files<File = File> + AllocGlobal>(
    rt: &R,
    path: Option<&str>,
    skipped: &[SkippedEntry],
) -> Result<(), SubmissionEnding> {
    let Some(path) = path else {
        return Ok(());
    };
    match skipped_csv(rt.alloc(), skipped) {
        Ok(csv) => write_file(rt, path, csv.as_slice(), OutputFile::Skipped),
        Err(_) => Err(SubmissionEnding::NoOutput(OutputFile::Skipped, OutputFault::Memory)),
    }
}

/// Writes the page of the profile, if a file is named for it. `absolute` is the absolute path of the folder, whose name
/// is the title. The page says that it is made from the CSV's file, or from the folder if no file is named for the CSV.
/// It names no registry: the service's is not known here. Fails as `page_now`, as `put_page`, or with `NoOutput`.
pub(crate) fn write_report<R: Files<File = File> + Clock + AllocGlobal>(
    rt: &R,
    options: SubmitOptions<'_>,
    absolute: &str,
    csv: &[u8],
) -> Result<(), PageFault> {
    let Some(path) = options.report else {
        return Ok(());
    };
    let title = title_of(absolute);
    let name = name_of(options.export.unwrap_or(absolute));
    let page = page_now(rt, csv, title, name, None)?;
    match Output::create(rt.alloc(), rt, path) {
        Ok(output) => put_page(output, page.as_str()),
        Err(fault) => Err(PageFault::NoOutput(fault)),
    }
}

/// Writes a file, which is put in its place once it is complete; if it cannot be, an older one stays there. `file` says
/// which of the three it is, for the ending: `NoOutput` if it can't be created or put in its place, `Unwritten` if its
/// bytes can't be written. If only its folder can't be synced, that is `NoOutput` too, and the new file stays.
fn write_file<R: Files<File = File> + AllocGlobal>(
    rt: &R,
    path: &str,
    bytes: &[u8],
    file: OutputFile,
) -> Result<(), SubmissionEnding> {
    let mut output = match Output::create(rt.alloc(), rt, path) {
        Ok(output) => output,
        Err(fault) => return Err(SubmissionEnding::NoOutput(file, fault)),
    };
    if write_all(&mut output, bytes, &mut WriteState::new()).is_err() {
        output.give_up();
        return Err(SubmissionEnding::Unwritten(file));
    }
    match output.complete() {
        Ok(()) => Ok(()),
        Err(fault) => Err(SubmissionEnding::NoOutput(file, fault)),
    }
}
