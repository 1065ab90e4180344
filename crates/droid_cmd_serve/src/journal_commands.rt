//! The commands of a service with a journal, over files, standard streams and ports of this machine.
//!
//! Proved is how they end, and that the service has the registry that was read. What has no contract opens files of
//! this machine, and is tested by `tests/program/journal` (`journal_files.py`, `journal_calls.py`).

ghost use Rattle.std.specs.Prelude.{◌≡◌, Some, IfErr, IfOk, IfSome};
ghost use Rattle.droid_cmd_serve.specs.Fresh.{IsMadeOf};
ghost use Rattle.droid_cmd_serve.specs.JournalEndings.{IsAnsweringEnd, IsUnopened, JournalEndsAs};
ghost use Rattle.droid_cmd_serve.specs.Many.{rules_named};

use crate::command_end::Ended;
use crate::commands::note_sample;
use crate::compaction::light_journal_for;
use crate::exit::Ending;
use crate::fresh::fresh_service;
use crate::journal::open_journal;
use crate::journal_connections::{answer_with_journal, serve_with_journal};
use crate::journal_fault::JournalFault;
use crate::many_connections::{rules_of, verbosity_of};
use crate::registry::{note_formats, open_registry};
use crate::sample::sample_registry;
use droid_arguments::{RegistrySource, ServeOptions};
use droid_core::Service;
use droid_frame::{InputFault, Noted, Retries, SteadyRead, read_some, read_to_end};
use droid_journal::{DiskLog, FileDrive};
use droid_pronom::{RegistryFault, common_registry};
use droid_sockets::{Sockets, Verbosity};
use droid_turns::{Pipe, Rules};
use droid_wire::{JournalHandler, ServeFault, ServiceJournal};
use std::alloc::Global;
use std::fs::{File, Files, OpenFile};
use std::io::ErrorKind;
use std::net::Net;
use std::time::Clock;
use std::{fs, io};

/// The most bytes of a registry file: 16 MiB, as `BYTES_LIMIT` of `registry.rt` and of `droid_pronom`. With fewer, a
/// registry that is allowed would be called too long: no clause of this crate holds that.
const REGISTRY_LIMIT: usize = 16_777_216;

/// The device that random bytes are read from.
const RANDOM: &str = "/dev/urandom";

/// A service with a journal in a file of this machine.
pub(crate) type MachineJournal<'a, R> = ServiceJournal<DiskLog<FileDrive<'a, R>>>;

/// Answers the frames of standard input on standard output, by a service with the journal at a path. That the last mark
/// cannot be written changes no ending.
pub(crate) fn run_journal_command<'a, R>(
    rt: &'a R,
    source: RegistrySource<'a>,
    path: &'a str,
) -> Ended<'a>
where
    R: Files<File = File> + Input + Print + Eprint + AllocGlobal,
    ensures { IsAnsweringEnd result.ending }
{
    note_sample(rt, source);
    let journal = match journal_for(rt, source, path) {
        Ok(journal) => journal,
        Err(ended) => return ended,
    };
    let mut handler = JournalHandler {
        journal,
        fault: None,
    };
    let mut pipe = Pipe::new(Noted::new(rt.reader()), Noted::new(io::writer(rt)));
    let ending = answer_with_journal(rt.alloc(), &mut handler, &mut pipe);
    // All that was answered is on the disk; this marks the end.
    let _ = handler.journal.settle();
    Ended::at_with_journal(ending, 0, path)
}

/// Serves connections to a port, as the options say, by a service with the journal at a path.
pub(crate) fn serve_journal_command<'a, R>(
    rt: &'a R,
    source: RegistrySource<'a>,
    port: u16,
    options: ServeOptions,
    path: &'a str,
) -> Ended<'a>
where
    R: Files<File = File> + Print + Eprint + AllocGlobal + Clock + Net,
    ensures { JournalEndsAs (rules_named options) result.ending result.cause }
{
    let rules = rules_of(options);
    serve_by(rt, source, port, rules, verbosity_of(options), path)
}

/// Opens the journal at a path, made smaller first if it is worth it, and serves connections to a port by these rules.
fn serve_by<'a, R>(
    rt: &'a R,
    source: RegistrySource<'a>,
    port: u16,
    rules: Rules,
    verbosity: Verbosity,
    path: &'a str,
) -> Ended<'a>
where
    R: Files<File = File> + Print + Eprint + AllocGlobal + Clock + Net,
    ensures { JournalEndsAs rules result.ending result.cause }
{
    note_sample(rt, source);
    match light_journal_for(rt, source, path) {
        Ok(journal) => serve_port(rt, journal, port, rules, verbosity, path),
        Err(ended) => ended,
    }
}

/// Listens on a port, prints `listening`, and serves connections in turns by a service with this open journal. Requests
/// that come soon after each other share a sync, which no clause holds (`shared_syncs.py`). That the last mark cannot
/// be written changes no ending. A port that cannot be used leaves the journal as it was: `test_a_port_in_use` of
/// `journal_operation.py`.
fn serve_port<'a, R>(
    rt: &'a R,
    journal: MachineJournal<'a, R>,
    port: u16,
    rules: Rules,
    verbosity: Verbosity,
    path: &'a str,
) -> Ended<'a>
where
    R: Files<File = File> + Print + Eprint + AllocGlobal + Clock + Net,
    ensures { JournalEndsAs rules result.ending result.cause }
{
    let mut sockets = match Sockets::bind(rt, rt.alloc(), port, rules.seats, verbosity) {
        Ok(sockets) => sockets,
        Err(error) => return Ended::unconnected(port, error.kind()),
    };
    sockets.share_syncs();
    if println!(rt; "listening {port}").is_err() {
        return Ended::at(Ending::Stream(ServeFault::Write { written: 0 }), port);
    }
    let mut handler = JournalHandler {
        journal,
        fault: None,
    };
    let ending = serve_with_journal(rt.alloc(), &mut sockets, &mut handler, rules);
    // All that was answered is on the disk; this marks the end.
    let _ = handler.journal.settle();
    Ended::at_with_journal(ending, port, path)
}

/// Reads this registry, and opens the journal at a path over a new service with it. The error is how the command ends.
pub(crate) fn journal_for<'a, R>(
    rt: &'a R,
    source: RegistrySource<'a>,
    path: &'a str,
) -> Result<MachineJournal<'a, R>, Ended<'a>>
where
    R: Files<File = File> + Eprint + AllocGlobal,
    ensures { IfErr result (λ ended. IsUnopened ended.ending) }
{
    match registry_and_service(rt, source) {
        Ok((registry, service)) => journal_over(rt, path, &registry, service),
        Err(ended) => Err(ended),
    }
}

/// Reads this registry, and makes a new service with it. Returns the registry's bytes too: a journal's header has their
/// MD5. Notes on standard error if a registry file has no formats.
pub(crate) fn registry_and_service<'a, R>(
    rt: &'a R,
    source: RegistrySource<'a>,
) -> Result<(Vec<u8>, Service), Ended<'a>>
where
    R: Files<File = File> + Eprint + AllocGlobal,
    ensures made { IfOk result (λ both. IsMadeOf (Some both.0.items) both.1) }
    ensures not_made { IfErr result (λ ended. IsUnopened ended.ending) }
{
    let registry = match registry_bytes(rt, source) {
        Ok(registry) => registry,
        Err(ended) => return Err(ended),
    };
    let mut formats = None;
    let service = match fresh_service(rt.alloc(), &mut registry.as_slice(), &mut formats) {
        Ok(service) => service,
        Err(ending) => return Err(Ended::over(ending, source)),
    };
    if let RegistrySource::File(name) = source {
        note_formats(rt, name, formats);
    }
    Ok((registry, service))
}

/// Opens the journal at a path over a new service with the registry that has these bytes. The error is how the command
/// ends.
pub(crate) fn journal_over<'a, R>(
    rt: &'a R,
    path: &'a str,
    registry: &[u8],
    service: Service,
) -> Result<MachineJournal<'a, R>, Ended<'a>>
where
    R: Files<File = File> + Eprint + AllocGlobal,
    ensures { IfErr result (λ ended. IsUnopened ended.ending) }
{
    match journal_at(rt, path, registry, service) {
        Ok(journal) => Ok(journal),
        Err(fault) => Err(Ended::by_journal(fault, path)),
    }
}

/// Opens the journal at a path, as above, or returns the fault of the journal.
fn journal_at<'a, R>(
    rt: &'a R,
    path: &'a str,
    registry: &[u8],
    service: Service,
) -> Result<MachineJournal<'a, R>, JournalFault>
where
    R: Files<File = File> + Eprint + AllocGlobal,
{
    match file_at(rt, path) {
        Ok(file) => journal_in(rt, file, registry, service),
        Err(fault) => Err(fault),
    }
}

/// Opens the file at a path, and makes it if it is not there. No other process can then open it so
/// (`test_two_processes` of `journal_files.py`).
pub(crate) fn file_at<'a, R>(
    rt: &'a R,
    path: &'a str,
) -> Result<DiskLog<FileDrive<'a, R>>, JournalFault>
where
    R: Files<File = File> + Eprint + AllocGlobal,
{
    match FileDrive::open(rt, path) {
        Ok(drive) => Ok(DiskLog { drive }),
        Err(fault) => Err(JournalFault::of_disk(fault)),
    }
}

/// Opens the journal in an open file over a new service with the registry that has these bytes. An empty file becomes
/// one. Marks the end of what is on the disk.
pub(crate) fn journal_in<'a, R>(
    rt: &'a R,
    file: DiskLog<FileDrive<'a, R>>,
    registry: &[u8],
    service: Service,
) -> Result<MachineJournal<'a, R>, JournalFault>
where
    R: Files<File = File> + Eprint + AllocGlobal,
{
    let random = match random_bytes(rt) {
        Ok(random) => random,
        Err(kind) => return Err(JournalFault::Unopened(kind)),
    };
    let mut journal = match open_journal(rt.alloc(), file, registry, &random, service) {
        Ok(journal) => journal,
        Err(fault) => return Err(JournalFault::Closed(fault)),
    };
    // Marks the end: from now on damage in the last turn shows.
    match journal.settle() {
        Ok(()) => Ok(journal),
        Err(fault) => Err(JournalFault::Closed(fault)),
    }
}

/// Reads 16 random bytes of the system, for the header of a new journal. No clause needs them to be random: a client
/// that cannot know them cannot send bytes that look like records of this file. Where reading fails or gives fewer, the
/// error is `UnexpectedEof`. `test_headers_end_differently` of `journal_files.py` tests that headers differ.
pub(crate) fn random_bytes<R: Files>(rt: &R) -> Result<[u8; 16], ErrorKind> {
    let mut bytes = [0u8; 16];
    let file = match fs::open(rt, RANDOM) {
        Ok(file) => file,
        Err(error) => return Err(error.kind()),
    };
    let mut reader = Noted::new(file);
    let mut retries = Retries::new();
    let read = read_some(&mut reader, &mut bytes, &mut retries);
    match read {
        Ok(16) => Ok(bytes),
        _ => Err(ErrorKind::UnexpectedEof),
    }
}

/// Reads the bytes of this registry, of which a journal keeps the MD5. `registry_bytes` of `registry.rt` reads them for
/// commands without a service; this one has the clause that commands with a journal need (`IsUnopened`).
fn registry_bytes<'a, R: Files + AllocGlobal>(
    rt: &R,
    source: RegistrySource<'a>,
) -> Result<Vec<u8>, Ended<'a>>
    ensures { IfErr result (λ ended. IsUnopened ended.ending) }
{
    let read = match source {
        RegistrySource::Sample => all_of(rt.alloc(), &mut sample_registry()),
        RegistrySource::Everyday => all_of(rt.alloc(), &mut common_registry()),
        RegistrySource::File(path) => {
            let file = match open_registry(rt, path) {
                Ok(file) => file,
                Err(cause) => return Err(Ended::unopened(source, cause)),
            };
            all_of(rt.alloc(), &mut Noted::new(file))
        }
    };
    match read {
        Ok(bytes) => Ok(bytes),
        Err(fault) => Err(Ended::over(Ending::Registry(fault), source)),
    }
}

/// Reads all bytes of a registry, or returns its fault: more than [`REGISTRY_LIMIT`], unread, or no memory. No clause
/// holds which.
fn all_of<F: SteadyRead>(alloc: Global, file: &mut F) -> Result<Vec<u8>, RegistryFault>
    ensures { IfOk result (λ bytes. IfSome (F.remaining file.old) (λ all. bytes.items ≡ all)) }
{
    match read_to_end(alloc, file, REGISTRY_LIMIT) {
        Ok(bytes) => Ok(bytes),
        Err(InputFault::TooLong) => Err(RegistryFault::TooLong),
        Err(InputFault::Memory) => Err(RegistryFault::Memory),
        Err(InputFault::Read) => Err(RegistryFault::Read),
    }
}
