//! Reads the registry that a command uses, parsed or as bytes: the sample, the built-in one, or a file.

ghost use Rattle.std.specs.Prelude.{◌≡◌, IfErr, IfOk};
ghost use Rattle.droid_cmd_serve.specs.Fresh.{IsMade, IsUnmade};

use crate::command_end::Ended;
use crate::exit::Ending;
use crate::fresh::service_with;
use crate::sample::sample_registry;
use droid_arguments::RegistrySource;
use droid_core::Service;
use droid_frame::{InputFault, Noted, SteadyRead, read_to_end};
use droid_pronom::{Registry, RegistryFault, common_registry};
use std::fs;
use std::fs::{Files, OpenFile};
use std::io::ErrorKind;

/// The most bytes that a registry file may have: as `BYTES_LIMIT` of `droid_pronom`, which judges them after that. No
/// clause of this crate ties them. `REGISTRY_LIMIT` of `journal_commands.rt`, docs/REGISTRY.md and the sentence of
/// `TooLong` in `droid_terminal` have it too. `registry.sh` tests that of `droid_pronom` alone, through `script`.
const BYTES_LIMIT: usize = 16_777_216;

/// Makes an empty service that identifies files by this registry, for a command without a journal. The error is how the
/// command ends.
pub(crate) fn service_for<'a, R: Files + Eprint + AllocGlobal>(
    rt: &R,
    source: RegistrySource<'a>,
) -> Result<Service, Ended<'a>>
    ensures made { IfOk result IsMade }
    ensures unmade { IfErr result (λ ended. IsUnmade ended.ending) }
{
    let registry = registry_for(rt, source)?;
    match service_with(rt.alloc(), registry) {
        Ok(service) => Ok(service),
        Err(ending) => Err(Ended::over(ending, source)),
    }
}

/// Reads and parses this registry. A registry file without formats is noted on standard error.
fn registry_for<'a, R: Files + Eprint + AllocGlobal>(
    rt: &R,
    source: RegistrySource<'a>,
) -> Result<Registry, Ended<'a>>
    ensures { IfErr result (λ ended. IsUnmade ended.ending) }
{
    let read = match source {
        RegistrySource::Sample => Registry::read(rt.alloc(), &mut sample_registry()),
        RegistrySource::Everyday => Registry::read(rt.alloc(), &mut common_registry()),
        RegistrySource::File(path) => return registry_by_file(rt, path),
    };
    match read {
        Ok(registry) => Ok(registry),
        Err(fault) => Err(Ended::over(Ending::Registry(fault), source)),
    }
}

/// Reads and parses the registry in the file at a path, or returns how the command ends without it.
fn registry_by_file<'a, R: Files + Eprint + AllocGlobal>(
    rt: &R,
    path: &'a str,
) -> Result<Registry, Ended<'a>>
    ensures { IfErr result (λ ended. IsUnmade ended.ending) }
{
    let source = RegistrySource::File(path);
    let file = match open_registry(rt, path) {
        Ok(file) => file,
        Err(cause) => return Err(Ended::unopened(source, cause)),
    };
    match Registry::read(rt.alloc(), &mut Noted::new(file)) {
        Ok(registry) => {
            note_formats(rt, path, Some(registry.len()));
            Ok(registry)
        }
        Err(fault) => Err(Ended::over(Ending::Registry(fault), source)),
    }
}

/// Reads the bytes of this registry: at most 16,777,216. `droid_desk` parses them for the commands without a service.
pub fn registry_bytes<'a, R: Files + AllocGlobal>(
    rt: &R,
    source: RegistrySource<'a>,
) -> Result<Vec<u8>, Ended<'a>>
    ensures { IfErr result (λ ended. IsUnmade ended.ending) }
{
    match source {
        RegistrySource::Sample => bytes_in(rt, source, &mut sample_registry()),
        RegistrySource::Everyday => bytes_in(rt, source, &mut common_registry()),
        RegistrySource::File(path) => match open_registry(rt, path) {
            Ok(file) => bytes_in(rt, source, &mut Noted::new(file)),
            Err(cause) => Err(Ended::unopened(source, cause)),
        },
    }
}

/// Reads the bytes of a registry to their end, or ends the command: more than [`BYTES_LIMIT`], no memory, or unread.
/// `source` is what the sentence names.
fn bytes_in<'a, R: AllocGlobal, F: SteadyRead>(
    rt: &R,
    source: RegistrySource<'a>,
    reader: &mut F,
) -> Result<Vec<u8>, Ended<'a>>
    ensures { IfErr result (λ ended. IsUnmade ended.ending) }
{
    match read_to_end(rt.alloc(), reader, BYTES_LIMIT) {
        Ok(bytes) => Ok(bytes),
        Err(InputFault::TooLong) => Err(no_registry(source, RegistryFault::TooLong)),
        Err(InputFault::Memory) => Err(no_registry(source, RegistryFault::Memory)),
        Err(InputFault::Read) => Err(no_registry(source, RegistryFault::Read)),
    }
}

/// Ends a command whose registry could not be read, or is none, by this fault.
pub fn no_registry<'a>(source: RegistrySource<'a>, fault: RegistryFault) -> Ended<'a>
    ensures { result.ending ≡ Ending.Registry fault }
{
    Ended::over(Ending::Registry(fault), source)
}

/// Opens a registry file. The error says why it could not be opened, or that it is a folder. One that cannot be looked
/// at counts as no folder: reading it reports the rest. Files are up to the machine, so it has no contract:
/// `tests/program/registry.sh` tests it.
pub(crate) fn open_registry<R: Files>(rt: &R, path: &str) -> Result<R::File, ErrorKind> {
    let file = match fs::open(rt, path) {
        Ok(file) => file,
        Err(error) => return Err(error.kind()),
    };
    if let Ok(metadata) = file.metadata()
        && metadata.is_dir()
    {
        return Err(ErrorKind::IsADirectory);
    }
    Ok(file)
}

/// Notes on standard error that the registry file at a path has no formats. `formats` is their number, or `None` if it
/// was not read. Without a contract: `tests/program/registry.sh` tests it.
pub fn note_formats<R: Eprint>(rt: &R, path: &str, formats: Option<usize>) {
    if let Some(0) = formats {
        let _ = eprintln!(rt; "registry: {path} has no formats, so no file will be identified");
    }
}
