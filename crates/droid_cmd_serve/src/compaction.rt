//! The command `compact`, and making a large journal smaller before it is served.
//!
//! `make_smaller` is proved: at any moment one journal or the other has the name. What is here decides when that is
//! done, on files of this machine, mostly without contracts, and is tested by `tests/program/journal`
//! (`journal_compact.py`, `journal_smaller.py`, `journal_operation.py`).

ghost use Rattle.std.specs.Prelude.{◌≡◌, IfErr};
ghost use Rattle.droid_cmd_serve.specs.JournalEndings.{IsCompactionEnd, IsUnopened};
ghost use Rattle.droid_cmd_serve.specs.JournalFaults.{ComesOfShortening, needs_opening};

use crate::beside::open_beside;
use crate::command_end::Ended;
use crate::commands::note_sample;
use crate::exit::Ending;
use crate::journal_commands::{
    MachineJournal, file_at, journal_for, journal_in, journal_over, random_bytes,
    registry_and_service,
};
use crate::journal_fault::JournalFault;
use crate::smaller_journal::{is_worth_it, make_smaller};
use droid_arguments::RegistrySource;
use droid_compaction::{Folder, Size};
use droid_core::Service;
use droid_journal::{DiskLog, Fault, FileDrive};
use std::fs;
use std::fs::{File, Files};

/// A journal with more bytes is made smaller before it is served, if most of them are of files that have ended. No
/// clause needs the number: a smaller journal has the same history. It is the 64 MiB in the help of `compact`
/// (`compaction_help.rt` of droid_arguments), in docs/SERVICE.md, and `LARGE` of `journal_compact.py`; nothing but that
/// test ties them.
const LARGE: u64 = 67_108_864;

/// How large a journal was and is.
#[derive(Clone, Copy)]
struct Sizes {
    before: Size,
    after: Size,
}

/// Makes the journal at a path smaller: the command. Without `quiet` it prints the size before and after. The clause
/// holds the ending alone: `journal_compact.py` compares what is printed.
pub fn compact_command<'a, R>(
    rt: &'a R,
    source: RegistrySource<'a>,
    path: &'a str,
    quiet: bool,
) -> Ended<'a>
where
    R: Files<File = File> + Eprint + AllocGlobal,
    ensures { IsCompactionEnd result.ending }
{
    note_sample(rt, source);
    match compact_journal(rt, source, path) {
        Ok(sizes) => {
            if !quiet {
                note_sizes(rt, path, sizes);
            }
            Ended::over(Ending::Done, source)
        }
        Err(ended) => ended,
    }
}

/// Makes the journal at a path smaller, if there is one; none is made: opening it would make one, so the path is looked
/// at before. The check values show that its records are those
/// that were written. Bytes behind them are cut off or reported as damage by opening the journal as `serve` does.
fn compact_journal<'a, R>(
    rt: &'a R,
    source: RegistrySource<'a>,
    path: &'a str,
) -> Result<Sizes, Ended<'a>>
where
    R: Files<File = File> + Eprint + AllocGlobal,
    ensures { IfErr result (λ ended. IsUnopened ended.ending) }
{
    let (registry, service) = match registry_and_service(rt, source) {
        Ok(both) => both,
        Err(ended) => return Err(ended),
    };
    if let Err(error) = fs::symlink_metadata(rt, path) {
        return Err(Ended::by_journal(JournalFault::Unopened(error.kind()), path));
    }
    match compact_at(rt, path, &registry, service) {
        Ok(sizes) => Ok(sizes),
        Err(fault) => Err(Ended::by_journal(fault, path)),
    }
}

/// Makes the journal at a path smaller; its registry has these bytes, and the new service has that registry. First
/// tries it without opening the journal. Only if that finds another header, or bytes behind the records, it opens the
/// journal over the service, and then tries once more.
fn compact_at<R>(
    rt: &R,
    path: &str,
    registry: &[u8],
    service: Service,
) -> Result<Sizes, JournalFault>
where
    R: Files<File = File> + Eprint + AllocGlobal,
{
    let file = match file_at(rt, path) {
        Ok(file) => file,
        Err(fault) => return Err(fault),
    };
    match put_smaller(rt, path, &file, registry) {
        Ok(sizes) => return Ok(sizes),
        Err(fault) => {
            if !needs_opening(fault) {
                return Err(fault);
            }
        }
    }
    let journal = match journal_in(rt, file, registry, service) {
        Ok(journal) => journal,
        Err(fault) => return Err(fault),
    };
    put_smaller(rt, path, journal.file(), registry)
}

/// Returns whether a journal that could not be made smaller has to be opened to report or mend what is wrong with it:
/// its header is another one, perhaps not whole, or bytes stand behind its records, a torn end or damage.
fn needs_opening(fault: JournalFault) -> bool
    ensures { result ≡ needs_opening fault }
{
    matches!(
        fault,
        JournalFault::Closed(Fault::Header) | JournalFault::Closed(Fault::Damage(_))
    )
}

/// Reads this registry, and opens the journal at a path over a new service with it. First makes a large journal
/// smaller, if most of it is of files that have ended. If that fails, the journal is served as it is. Where its file
/// was replaced, registry and journal are read a second time: the service went with the journal that was closed.
pub(crate) fn light_journal_for<'a, R>(
    rt: &'a R,
    source: RegistrySource<'a>,
    path: &'a str,
) -> Result<MachineJournal<'a, R>, Ended<'a>>
where
    R: Files<File = File> + Eprint + AllocGlobal,
    ensures { IfErr result (λ ended. IsUnopened ended.ending) }
{
    let (registry, service) = match registry_and_service(rt, source) {
        Ok(both) => both,
        Err(ended) => return Err(ended),
    };
    let journal = match journal_over(rt, path, &registry, service) {
        Ok(journal) => journal,
        Err(ended) => return Err(ended),
    };
    if is_as_it_was(rt, path, &journal, &registry) {
        return Ok(journal);
    }
    // The file is closed before it is opened again.
    {
        let _closed = journal;
    }
    journal_for(rt, source, path)
}

/// Makes a large journal smaller, if most of it is of files that have ended. Returns whether the open journal still is
/// the one at the path: if not, or if that is uncertain, it has to be opened anew. A journal that could not be made
/// smaller is noted, one that could not be weighed is not; neither keeps anybody from being served.
fn is_as_it_was<R>(rt: &R, path: &str, journal: &MachineJournal<'_, R>, registry: &[u8]) -> bool
where
    R: Files<File = File> + Eprint + AllocGlobal,
{
    if !is_large(rt, path) {
        return true;
    }
    match is_worth_it(rt.alloc(), journal.file(), registry) {
        Ok(true) => {}
        _ => return true,
    }
    match put_smaller(rt, path, journal.file(), registry) {
        Ok(sizes) => {
            note_sizes(rt, path, sizes);
            false
        }
        Err(fault) => {
            note_as_it_was(rt, path);
            !matches!(fault, JournalFault::NotExchanged)
        }
    }
}

/// Returns whether the file at a path has more than [`LARGE`] bytes. One that cannot be looked at counts as small.
fn is_large<R: Files>(rt: &R, path: &str) -> bool {
    match fs::symlink_metadata(rt, path) {
        Ok(metadata) => metadata.len() > LARGE,
        Err(_) => false,
    }
}

/// Writes the smaller journal beside the open file of this path, as `PATH.new`, and gives it the name of that file.
/// Returns both sizes. If it fails, no other file is left: `PATH.new` is removed, unless it got the name already. The
/// suffix `.new` is in `note_as_it_was`, `told_journal.rt` and the help of `compact` too; `journal_compact.py` and
/// `journal_calls.py` hold it.
fn put_smaller<R>(
    rt: &R,
    path: &str,
    file: &DiskLog<FileDrive<'_, R>>,
    registry: &[u8],
) -> Result<Sizes, JournalFault>
where
    R: Files<File = File> + Eprint + AllocGlobal,
    ensures { IfErr result ComesOfShortening }
{
    let Ok(beside) = format!(in rt.alloc(); "{path}.new") else {
        return Err(JournalFault::Closed(Fault::Memory));
    };
    let random = match random_bytes(rt) {
        Ok(random) => random,
        Err(kind) => return Err(JournalFault::Unopened(kind)),
    };
    let drive = match open_beside(rt, beside.as_str(), path) {
        Ok(drive) => drive,
        Err(kind) => return Err(JournalFault::NotSmaller(Some(kind))),
    };
    let new = DiskLog { drive };
    let mut folder = Folder::new(rt, path, beside.as_str());
    match make_smaller(rt.alloc(), file, registry, &random, new, &mut folder) {
        Ok(smaller) => Ok(Sizes {
            before: smaller.before,
            after: smaller.after,
        }),
        Err(fault) => {
            let _ = fs::remove_file(rt, beside.as_str());
            Err(JournalFault::of_rewriting(fault))
        }
    }
}

/// Prints on standard error how many records and bytes a journal had and has.
fn note_sizes<R: Eprint>(rt: &R, path: &str, sizes: Sizes) {
    let Sizes { before, after } = sizes;
    let _ = eprintln!(rt;
        "journal: {path} had {} records and {} bytes, and has now {} records and {} bytes",
        before.records, before.bytes, after.records, after.bytes
    );
}

/// Prints on standard error that a journal could not be made smaller and is served all the same.
fn note_as_it_was<R: Eprint>(rt: &R, path: &str) {
    let _ = eprintln!(rt;
        "journal: {path} could not be made smaller: has the disk room for {path}.new? It is served all the same"
    );
}
