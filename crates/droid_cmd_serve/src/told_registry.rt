//! The ending by the table of faults where a registry could not be read or is none, for each form of `RegistryFault`.

ghost use Rattle.std.specs.Prelude.{◌≡◌};
ghost use Rattle.droid_cmd_serve.specs.ToldRegistries.{registry_of, told_registry, told_unread};
ghost use Rattle.droid_terminal.specs.Endings.{told};

use crate::command_end::Used;
use droid_arguments::RegistrySource;
use droid_pronom::RegistryFault;
use droid_terminal::{About, Detail, Ending, faults};
use std::io::ErrorKind;

/// Returns the ending where a registry could not be read or is none. `cause` is why its file could not be opened, or
/// `None` if it was opened.
pub(crate) fn told_registry<'a>(
    fault: &RegistryFault,
    used: Used<'a>,
    cause: Option<ErrorKind>,
) -> Ending<'a>
    ensures { told result ≡ told_registry fault.now (registry_of used.entry) cause }
{
    let about = About::Path(registry_of(used));
    match fault {
        RegistryFault::TooLong => Ending::by(faults::REGISTRY_LONG, about),
        RegistryFault::Read => told_unread(used, cause),
        RegistryFault::Memory => Ending::by(faults::REGISTRY_MEMORY, about),
        RegistryFault::NotUtf8 { at } => Ending::numbered(faults::NOT_UTF8, about, *at),
        RegistryFault::BadRecord { at } => Ending::numbered(faults::BAD_RECORD, about, *at),
        RegistryFault::BadPattern { at } => Ending::numbered(faults::BAD_PATTERN, about, *at),
        RegistryFault::UnknownPuid { at } => Ending::numbered(faults::UNKNOWN_PUID, about, *at),
        RegistryFault::DuplicatePuid { at } => Ending::numbered(faults::DUPLICATE_PUID, about, *at),
        RegistryFault::TooMany { at } => Ending::numbered(faults::TOO_MANY_OF_A_KIND, about, *at),
    }
}

/// Returns what a sentence calls the registry: the path of its file, or `the built-in registry`, which has no path. So
/// the sample is called too; an ending by a registry's fault always has one.
fn registry_of<'a>(used: Used<'a>) -> &'a str
    ensures { result.now ≡ registry_of used.entry }
{
    match used {
        Used::Registry(RegistrySource::File(path)) => path,
        Used::Registry(RegistrySource::Everyday) => "the built-in registry",
        Used::Registry(RegistrySource::Sample) => "the built-in registry",
        Used::Port(_) => "the built-in registry",
        Used::Journal(_) => "the built-in registry",
    }
}

/// Returns the ending where a registry file could not be opened for this cause, or without one was opened and not read.
/// The words of a cause without a row are the system's, which no clause holds.
fn told_unread<'a>(used: Used<'a>, cause: Option<ErrorKind>) -> Ending<'a>
    ensures { told result ≡ told_unread (registry_of used.entry) cause }
{
    let about = About::Path(registry_of(used));
    match cause {
        None => Ending::by(faults::READING_FAILED, about),
        Some(ErrorKind::NotFound) => Ending::by(faults::REGISTRY_MISSING, about),
        Some(ErrorKind::NotADirectory) => Ending::by(faults::REGISTRY_MISSING, about),
        Some(ErrorKind::PermissionDenied) => Ending::by(faults::REGISTRY_DENIED, about),
        Some(ErrorKind::IsADirectory) => Ending::by(faults::REGISTRY_IS_A_FOLDER, about),
        Some(kind) => Ending::detailed(faults::REGISTRY_UNOPENED, about, Detail::Cause(kind)),
    }
}
