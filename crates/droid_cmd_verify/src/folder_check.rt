//! The command `verify` for a folder of this machine: reads its list, finds the folder that the list names, and prints
//! the summary. `verify_as` is proved. What is here joins it to the machine's files, mostly without contracts, and is
//! tested in `tests/program/folders`: lists, bags and folders by `verify_lists.py`, what is printed beside the CSV by
//! `verify_unchecked.py`; and in `tests/memory` by `commands_refused.py`, where memory runs out.

ghost use Rattle.std.specs.Prelude.{◌≡◌, ◌++◌, IfOk, codes, string_bytes};
ghost use Rattle.droid_cmd_verify.specs.Lists.{is_identified, listed_folder};

use crate::lists::{ComparedList, read_lists};
use crate::measure::{Measure, measure_of};
use crate::verification::{ClearLine, Verified, verify_as};
use crate::verify_ending::VerifyEnding;
use droid_arguments::VerifyOptions;
use droid_cmd_profile::{NamedRegistry, RegistryLine};
use droid_disk::{Folder, System};
use droid_fixity::ManifestForm;
use droid_frame::{HashKind, Item, NodeKind, Noted};
use droid_lists::ListForm;
use droid_pronom::Registry;
use droid_terminal::{Reporter, Shown, Verbosity, is_folder};
use std::alloc::{AllocError, Global};
use std::env::Env;
use std::fs::{File, Files};
use std::io::ErrorKind;
use std::time::Clock;
use std::{fs, io};

/// A folder of this machine.
type FolderTree<'a, R> = Folder<System<'a, R>>;

impl<R: Eprint + Clock> ClearLine for Reporter<'_, R> {
    /// Removes it by [`Reporter::clear`], which does so on a terminal alone. No test runs `verify` on one.
    fn clear_line(&self) {
        self.clear();
    }
}

/// Compares a folder of this machine with a list, and writes what differs to standard output as a CSV. By which
/// registry, and what is skipped, is printed on standard error. Nothing in the folder is read before the list was, but
/// that it is a folder is seen first. Formats are compared if that is asked for and files are read; then there has to
/// be a registry.
pub fn verify_folder<R>(
    rt: &R,
    registry: Option<&NamedRegistry<'_>>,
    options: VerifyOptions<'_>,
    on_terminal: bool,
) -> VerifyEnding
where
    R: Files<File = File> + Env + Clock + Print + Eprint + AllocGlobal,
{
    if let Some(registry) = registry {
        let _ = eprint!(rt; "{}", RegistryLine(registry.name));
    }
    if !is_folder(rt, options.folder) {
        return VerifyEnding::NoFolder;
    }
    let lists = match lists_of(rt, options) {
        Ok(lists) => lists,
        Err(ending) => return ending,
    };
    let verbosity = Verbosity::of(options.quiet, on_terminal);
    match registry {
        Some(registry) => verify_with(rt, &registry.registry, options, verbosity, lists),
        None => verify_without(rt, options, verbosity, lists),
    }
}

/// Compares the folder where no registry is given, since formats are not compared: the walk gets one without formats.
fn verify_without<R>(
    rt: &R,
    options: VerifyOptions<'_>,
    verbosity: Verbosity,
    lists: ComparedList,
) -> VerifyEnding
where
    R: Files<File = File> + Env + Clock + Print + Eprint + AllocGlobal,
{
    match Registry::parse(rt.alloc(), b"") {
        Ok(registry) => verify_with(rt, &registry, options, verbosity, lists),
        Err(_) => VerifyEnding::NoMemory,
    }
}

/// Returns whether formats are compared: that is asked for, and files are read.
fn is_identified(options: VerifyOptions<'_>) -> bool
    ensures { result ≡ is_identified options.entry }
{
    options.identify && !options.quick
}

/// Reads the file of the list whole, and what it says. Fails with the ending of the command: memory ran out, the file
/// could not be opened or read, or `read_lists` refused it.
fn lists_of<R>(rt: &R, options: VerifyOptions<'_>) -> Result<ComparedList, VerifyEnding>
where
    R: Files<File = File> + AllocGlobal,
{
    let Ok(in_bag) = is_bag(rt, options.folder) else {
        return Err(VerifyEnding::NoMemory);
    };
    match fs::read(rt, options.against) {
        Ok(text) => {
            let how = measure_of(options.quick, options.sizes_only);
            let identify = is_identified(options);
            read_lists(rt.alloc(), in_bag, how, identify, text.as_slice())
        }
        Err(error) if error.kind() == ErrorKind::OutOfMemory => Err(VerifyEnding::NoMemory),
        Err(error) => Err(VerifyEnding::Unopened(error.kind())),
    }
}

/// Returns whether a folder is a bag: it has a file `bagit.txt` (RFC 8493, section 2.1.1). One that can't be looked at
/// counts as none. Fails only if memory runs out.
fn is_bag<R: Files + AllocGlobal>(rt: &R, folder: &str) -> Result<bool, AllocError> {
    let path = bag_file(rt.alloc(), folder)?;
    match fs::metadata(rt, path.as_str()) {
        Ok(found) => Ok(found.is_file()),
        Err(_) => Ok(false),
    }
}

/// Returns the path of the file that makes a folder a bag. Fails only if memory runs out.
fn bag_file(alloc: Global, folder: &str) -> Result<String, AllocError>
    ensures { IfOk result (λ path. string_bytes path ≡ folder.now ++ codes "/bagit.txt") }
{
    format!(in alloc; "{folder}/bagit.txt")
}

/// Compares the folder that the list names, and reports what differs: the CSV to standard output, the rest to standard
/// error.
fn verify_with<R>(
    rt: &R,
    registry: &Registry,
    options: VerifyOptions<'_>,
    verbosity: Verbosity,
    lists: ComparedList,
) -> VerifyEnding
where
    R: Files<File = File> + Env + Clock + Print + Eprint + AllocGlobal,
{
    match folder_of(rt, options.folder, lists.listed.form) {
        Ok(tree) => {
            let alloc = rt.alloc();
            warn_of_no_hash(rt, options, &lists);
            let reporter = Reporter::new(rt, alloc, verbosity);
            let mut output = Noted::new(io::writer(rt));
            let verified = verify_as(alloc, tree, reporter, &mut output, registry, options, lists);
            print_summary(rt, verbosity, verified)
        }
        Err(_) => VerifyEnding::NoMemory,
    }
}

/// Says on standard error before the walk, which may take long, that no file can be compared by its hash. Says nothing
/// with `--quiet`. `test_no_hash_at_all` of `verify_unchecked.py` holds when it is said, not that this is before.
fn warn_of_no_hash<R: Eprint>(rt: &R, options: VerifyOptions<'_>, lists: &ComparedList) {
    if !options.quiet && has_no_hash(lists) {
        let list = Shown(options.against.as_bytes());
        let _ = eprintln!(rt;
            "{list}: has no hash of any file: each will be unchecked; --sizes-only and --quick compare without"
        );
    }
}

/// Returns whether files are to be compared by their hashes, and the list has files and no hash.
fn has_no_hash(lists: &ComparedList) -> bool {
    lists.how == Measure::Hashes
        && lists.listed.hash == HashKind::Nothing
        && has_file(lists.listed.items.as_slice())
}

/// Returns whether one of the items is a file. Without one there is nothing to warn of.
fn has_file(items: &[Item]) -> bool {
    items.iter().any(|item| item.kind == NodeKind::File)
}

/// Returns the folder whose files a list of this form names, ready to be walked. Fails only if memory runs out.
fn folder_of<'a, R>(
    rt: &'a R,
    folder: &str,
    form: ListForm,
) -> Result<FolderTree<'a, R>, AllocError>
where
    R: Files<File = File> + Env + AllocGlobal,
{
    let path = listed_folder(rt.alloc(), folder, form)?;
    Folder::new(rt.alloc(), System::new(rt), path.as_str())
}

/// Returns the path of the folder whose files a list of this form names: for the manifest of a bag, the folder `data`
/// of it. Fails only if memory runs out.
fn listed_folder(alloc: Global, folder: &str, form: ListForm) -> Result<String, AllocError>
    ensures { IfOk result (λ path. string_bytes path ≡ listed_folder folder.now form) }
{
    match form {
        ListForm::Checksum(ManifestForm::Bag) => format!(in alloc; "{folder}/data"),
        ListForm::Checksum(ManifestForm::Checksums) | ListForm::Profile => {
            String::from_str(alloc, folder)
        }
    }
}

/// Prints the summary to standard error, if there is a report and that is not to be quiet, and returns the ending. The
/// clause holds the ending; what is printed, `verify_unchecked.py` and `test_quiet` of `verify_lists.py`.
fn print_summary<R: Eprint>(rt: &R, verbosity: Verbosity, verified: Verified) -> VerifyEnding
    ensures { result ≡ verified.ending }
{
    let Verified { ending, summary } = verified;
    if verbosity != Verbosity::Quiet {
        if let Some(summary) = summary {
            let _ = eprint!(rt; "{summary}");
        }
    }
    ending
}
