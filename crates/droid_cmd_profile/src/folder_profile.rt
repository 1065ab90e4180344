//! The command `profile` for a folder of this machine. `profile_tree` is proved; what is here joins it to the machine's
//! files, without contracts, and is tested by `tests/program/folders` (`profile_output.py`, `profile_skipped.py`,
//! `profile_manifest.py`, `profile_report.py`), and by `commands_refused.py` of `tests/memory` where memory runs out.

use crate::kept_output::Keeping;
use crate::named_registry::{NamedRegistry, RegistryLine};
use crate::other_files::OtherFiles;
use crate::profile_ending::ProfileEnding;
use crate::profile_outputs::{OutputFiles, create_page, give_up};
use crate::profile_page::add_page;
use crate::skipped_file::SkippedFile;
use crate::skipped_writer::SkippedWriter;
use crate::tree_profile::profile_tree;
use crate::walk_options::walk_options;
use droid_arguments::ProfileOptions;
use droid_disk::{FileId, Folder, Output, System};
use droid_frame::{Noted, SteadyWrite};
use droid_profile::{CsvFault, CsvRecipient, Profiler};
use droid_pronom::Registry;
use droid_terminal::{Reporter, Verbosity, is_folder};
use std::alloc::Global;
use std::env::Env;
use std::fs::{File, Files};
use std::io;
use std::io::Write;
use std::time::Clock;

/// A folder without the files that the command writes in it.
type FolderTree<'a, R> = OtherFiles<Folder<System<'a, R>>>;

/// Where the texts go.
#[derive(Drop)]
struct Writers<'a, R: Files, O> {
    /// The CSV, which is kept if a page is wanted.
    csv: Noted<Keeping<O>>,
    /// The list of checksums.
    manifest: Option<Output<'a, R>>,
    /// The CSV of what was skipped.
    skipped: Option<Output<'a, R>>,
}

/// Profiles a folder of this machine, and prints on standard error by which registry, and what is skipped. Each file is
/// complete at the end, or as it was before. The page comes last: if it can't be written, the CSV is there all the
/// same. The registry is printed before anything is checked; then the folder, the files and the page's file are, in
/// this order, and the first fault is the ending.
pub fn profile_folder<R>(
    rt: &R,
    registry: &NamedRegistry<'_>,
    options: ProfileOptions<'_>,
    on_terminal: bool,
) -> ProfileEnding
where
    R: Files<File = File> + Env + Clock + Print + Eprint + AllocGlobal,
{
    let _ = eprint!(rt; "{}", RegistryLine(registry.name));
    if !is_folder(rt, options.folder) {
        return ProfileEnding::NoFolder;
    }
    let mut files = match OutputFiles::create(rt, options) {
        Ok(files) => files,
        Err(ending) => return ending,
    };
    let page = match create_page(rt, options) {
        Ok(page) => page,
        Err(ending) => {
            files.give_up();
            return ending;
        }
    };
    match tree_of(rt, options, &mut files) {
        Ok(tree) => {
            let verbosity = Verbosity::of(options.quiet, on_terminal);
            let keeps = page.is_some();
            let (ending, csv) = profile_to_files(
                rt,
                &registry.registry,
                options,
                verbosity,
                tree,
                files,
                keeps,
            );
            add_page(rt, registry.name, options, ending, &csv, page)
        }
        Err(ending) => {
            files.give_up();
            give_up(page);
            ending
        }
    }
}

/// Creates the files, and returns the folder without them. Fails with the ending where one can't be created or memory
/// runs out; the caller removes the files then.
fn tree_of<'a, R>(
    rt: &'a R,
    options: ProfileOptions<'_>,
    files: &mut OutputFiles<'a, R>,
) -> Result<FolderTree<'a, R>, ProfileEnding>
where
    R: Files<File = File> + Env + AllocGlobal,
{
    let own = files.begin(rt.alloc())?;
    match Folder::new(rt.alloc(), System::new(rt), options.folder) {
        Ok(tree) => Ok(OtherFiles { tree, own }),
        Err(_) => Err(ProfileEnding::Fault(CsvFault::Memory)),
    }
}

/// Writes the profile to the files, and puts them in their places once they are complete. If no file is named for the
/// CSV, it goes to standard output. `keeps` says whether the CSV is kept for a page: then it is returned too.
fn profile_to_files<'a, R>(
    rt: &'a R,
    registry: &Registry,
    options: ProfileOptions<'_>,
    verbosity: Verbosity,
    tree: FolderTree<'a, R>,
    files: OutputFiles<'a, R>,
    keeps: bool,
) -> (ProfileEnding, Option<Vec<u8>>)
where
    R: Files<File = File> + Env + Clock + Print + Eprint + AllocGlobal,
{
    let OutputFiles {
        csv,
        manifest,
        skipped,
    } = files;
    match csv {
        Some(csv) => {
            let writers = Writers {
                csv: Noted::new(Keeping::new(rt.alloc(), csv, keeps)),
                manifest,
                skipped,
            };
            let (ending, writers) = profile_to(rt, registry, options, verbosity, tree, writers);
            let (csv, text, manifest, skipped) = parts_of(writers);
            let csv = Some(csv);
            let files = OutputFiles {
                csv,
                manifest,
                skipped,
            };
            (settle(ending, files), text)
        }
        None => {
            let writers = Writers {
                csv: Noted::new(Keeping::new(rt.alloc(), io::writer(rt), keeps)),
                manifest,
                skipped,
            };
            let (ending, writers) = profile_to(rt, registry, options, verbosity, tree, writers);
            let (_, text, manifest, skipped) = parts_of(writers);
            let csv = None;
            let files = OutputFiles {
                csv,
                manifest,
                skipped,
            };
            (settle(ending, files), text)
        }
    }
}

/// The parts of what was written to: the CSV's writer and its text, the list of checksums, and what was skipped.
type Parts<'a, R, O> = (
    O,
    Option<Vec<u8>>,
    Option<Output<'a, R>>,
    Option<Output<'a, R>>,
);

/// Takes the writers apart once the walk is over: the CSV's output and what was kept of it, the list, and what was
/// skipped.
fn parts_of<'a, R: Files, O: Drop>(writers: Writers<'a, R, O>) -> Parts<'a, R, O> {
    let Writers {
        csv,
        manifest,
        skipped,
    } = writers;
    let Noted { stream, .. } = csv;
    let Keeping { output, text, .. } = stream;
    (output, text, manifest, skipped)
}

/// Puts the files in their places if everything was written, and otherwise removes them. Returns the ending of the
/// walk, or that of the first file that did not get its place.
fn settle<R: Files<File = File> + AllocGlobal>(
    ending: ProfileEnding,
    files: OutputFiles<'_, R>,
) -> ProfileEnding {
    if !ending.is_written() {
        files.give_up();
        return ending;
    }
    match files.complete() {
        Ok(()) => ending,
        Err(ending) => ending,
    }
}

/// Writes the profile to these writers, and prints the summary. Returns the ending, and the writers to be settled.
/// Where the CSV could not be kept, the ending is that memory ran out.
fn profile_to<'a, R, O: Write + Drop>(
    rt: &'a R,
    registry: &Registry,
    options: ProfileOptions<'_>,
    verbosity: Verbosity,
    tree: FolderTree<'a, R>,
    writers: Writers<'a, R, O>,
) -> (ProfileEnding, Writers<'a, R, O>)
where
    R: Files<File = File> + Env + Clock + Eprint + AllocGlobal,
{
    let alloc = rt.alloc();
    let Writers {
        csv,
        manifest,
        skipped,
    } = writers;
    let mut profiler = Profiler {
        alloc,
        tree,
        watcher: SkippedWriter {
            alloc,
            watcher: Reporter::new(rt, alloc, verbosity),
            file: begin_skipped(alloc, skipped),
        },
        recipient: CsvRecipient::new(alloc, registry, csv, manifest),
    };
    let ending = profile_tree(&mut profiler, walk_options(options));
    let Profiler {
        watcher,
        recipient,
        ..
    } = profiler;
    let SkippedWriter { watcher, file, .. } = watcher;
    watcher.end();
    let CsvRecipient { csv, manifest, .. } = recipient;
    let skipped = output_in(file);
    let ending = ending.lacking(csv.stream.lacked_memory);
    (
        ending,
        Writers {
            csv,
            manifest,
            skipped,
        },
    )
}

/// Begins the CSV of what is skipped, with its header, if there is a file for it.
fn begin_skipped<S: SteadyWrite>(alloc: Global, output: Option<S>) -> Option<SkippedFile<S>> {
    match output {
        Some(output) => Some(SkippedFile::begin(alloc, output)),
        None => None,
    }
}

/// Returns the output of the file for what was skipped, if there is one. Its fault is dropped, since `profile_tree` has
/// put it into the ending.
fn output_in<S>(file: Option<SkippedFile<S>>) -> Option<S> {
    match file {
        Some(SkippedFile { output, .. }) => Some(output),
        None => None,
    }
}
