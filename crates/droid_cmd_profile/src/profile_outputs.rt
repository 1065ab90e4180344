//! The files that a profile writes: each is complete, or as it was before.
//!
//! Nothing here has a contract: files are up to the machine, and what is done to which is tested in
//! `tests/program/folders` (`profile_output.py`, `output_calls.py`; the page's file by `profile_report.py`). Each fault
//! names its file, and may be that memory ran out.

use crate::profile_ending::ProfileEnding;
use droid_arguments::ProfileOptions;
use droid_disk::{FileId, Output, OutputFault};
use droid_terminal::is_same_place;
use std::alloc::Global;
use std::fs::{File, Files};

/// A file that a profile writes.
#[derive(Clone, Copy)]
pub enum OutputFile {
    /// The CSV.
    Csv,
    /// The list of checksums.
    Manifest,
    /// The CSV of what was skipped.
    Skipped,
    /// The page.
    Page,
}

/// The files that are named by options.
#[derive(Drop)]
pub(crate) struct OutputFiles<'a, R: Files> {
    /// The CSV.
    pub csv: Option<Output<'a, R>>,
    /// The list of checksums.
    pub manifest: Option<Output<'a, R>>,
    /// The CSV of what was skipped.
    pub skipped: Option<Output<'a, R>>,
}

impl<'a, R: Files<File = File> + AllocGlobal> OutputFiles<'a, R> {
    /// Checks that no two of the files that are named are the same, and then that each can be created. Fails with the
    /// ending that names the first at fault, of two that are the same the second; nothing is left then. None of them is
    /// there yet.
    pub fn create(
        rt: &'a R,
        options: ProfileOptions<'_>,
    ) -> Result<OutputFiles<'a, R>, ProfileEnding> {
        see_other(rt, options.output, options.manifest, OutputFile::Manifest)?;
        see_other(rt, options.output, options.skipped, OutputFile::Skipped)?;
        see_other(rt, options.manifest, options.skipped, OutputFile::Skipped)?;
        let csv = create(rt, options.output, OutputFile::Csv)?;
        let manifest = match create(rt, options.manifest, OutputFile::Manifest) {
            Ok(manifest) => manifest,
            Err(ending) => {
                give_up(csv);
                return Err(ending);
            }
        };
        let skipped = match create(rt, options.skipped, OutputFile::Skipped) {
            Ok(skipped) => skipped,
            Err(ending) => {
                give_up(csv);
                give_up(manifest);
                return Err(ending);
            }
        };
        Ok(OutputFiles {
            csv,
            manifest,
            skipped,
        })
    }

    /// Creates them under their unfinished names, and returns which files they are, so that a walk can leave them out.
    /// If one can't be created, the caller gives all up.
    pub fn begin(&mut self, alloc: Global) -> Result<Vec<FileId>, ProfileEnding> {
        let mut own = Vec::new(alloc);
        begin(&mut self.csv, OutputFile::Csv, &mut own)?;
        begin(&mut self.manifest, OutputFile::Manifest, &mut own)?;
        begin(&mut self.skipped, OutputFile::Skipped, &mut own)?;
        Ok(own)
    }

    /// Puts all in their places, the CSV last. If one can't be put there, those behind it are given up; those before it
    /// stay. So a new CSV is there only with the others: `test_profile_with_lists` of `commands_refused.py` in
    /// `tests/memory` allows no other order.
    pub fn complete(self) -> Result<(), ProfileEnding> {
        let OutputFiles {
            csv,
            manifest,
            skipped,
        } = self;
        if let Err(ending) = complete(skipped, OutputFile::Skipped) {
            give_up(manifest);
            give_up(csv);
            return Err(ending);
        }
        if let Err(ending) = complete(manifest, OutputFile::Manifest) {
            give_up(csv);
            return Err(ending);
        }
        complete(csv, OutputFile::Csv)
    }

    /// Removes all that was written. Older files stay.
    pub fn give_up(self) {
        let OutputFiles {
            csv,
            manifest,
            skipped,
        } = self;
        give_up(csv);
        give_up(manifest);
        give_up(skipped);
    }
}

/// Checks that the file for the page is none of the others, if one is named, and then that it can be created. It is
/// created only when the page is written, after the walk, so that no walk meets it.
pub(crate) fn create_page<'a, R: Files<File = File> + AllocGlobal>(
    rt: &'a R,
    options: ProfileOptions<'_>,
) -> Result<Option<Output<'a, R>>, ProfileEnding> {
    see_other(rt, options.output, options.report, OutputFile::Page)?;
    see_other(rt, options.manifest, options.report, OutputFile::Page)?;
    see_other(rt, options.skipped, options.report, OutputFile::Page)?;
    create(rt, options.report, OutputFile::Page)
}

/// Checks that the second of two files that may be named is not the first. `file` is the second, which the fault names.
fn see_other<R: Files + AllocGlobal>(
    rt: &R,
    first: Option<&str>,
    second: Option<&str>,
    file: OutputFile,
) -> Result<(), ProfileEnding> {
    let (Some(first), Some(second)) = (first, second) else {
        return Ok(());
    };
    match is_same_place(rt, first, second) {
        Ok(false) => Ok(()),
        Ok(true) => Err(ProfileEnding::SameFile(file)),
        Err(_) => Err(ProfileEnding::NoOutput(file, OutputFault::Memory)),
    }
}

/// Checks that a file can be created at this path, if one is named. `file` says which it is, for the fault.
fn create<'a, R: Files<File = File> + AllocGlobal>(
    rt: &'a R,
    path: Option<&str>,
    file: OutputFile,
) -> Result<Option<Output<'a, R>>, ProfileEnding> {
    let Some(path) = path else {
        return Ok(None);
    };
    match Output::create(rt.alloc(), rt, path) {
        Ok(output) => Ok(Some(output)),
        Err(fault) => Err(ProfileEnding::NoOutput(file, fault)),
    }
}

/// Creates a file, if there is one, and appends its device and inode to `own`. `file` says which it is, for the fault.
fn begin<R: Files<File = File>>(
    output: &mut Option<Output<'_, R>>,
    file: OutputFile,
    own: &mut Vec<FileId>,
) -> Result<(), ProfileEnding> {
    let Some(output) = output else {
        return Ok(());
    };
    match output.begin() {
        Ok(id) => match own.push(id) {
            Ok(()) => Ok(()),
            Err(_) => Err(ProfileEnding::NoOutput(file, OutputFault::Memory)),
        },
        Err(fault) => Err(ProfileEnding::NoOutput(file, fault)),
    }
}

/// Puts a file in its place, if there is one. `file` says which it is, for the fault.
fn complete<R: Files<File = File>>(
    output: Option<Output<'_, R>>,
    file: OutputFile,
) -> Result<(), ProfileEnding> {
    let Some(output) = output else {
        return Ok(());
    };
    match output.complete() {
        Ok(()) => Ok(()),
        Err(fault) => Err(ProfileEnding::NoOutput(file, fault)),
    }
}

/// Removes what was written of a file, if there is one. An older file at its path stays.
pub(crate) fn give_up<R: Files>(output: Option<Output<'_, R>>) {
    if let Some(output) = output {
        output.give_up();
    }
}
