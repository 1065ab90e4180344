//! The command `registry` from reading to the ending: on this machine, and over any `Places`.

ghost use Rattle.std.specs.Prelude.{◌≡◌};
ghost use Rattle.droid_cmd_registry.specs.Machines.{IsMachineRun};
ghost use Rattle.droid_cmd_registry.specs.Runs.{Runs, Writes, ending_of};

use crate::conversion::{Conversion, conversion_of};
use crate::machine::Machine;
use crate::registry_ending::RegistryEnding;
use crate::registry_places::{Part, Places};
use std::alloc::Global;
use std::fs::{File, Files};

/// Makes a registry of PRONOM's signature file `file`, writes it to the file `output` or to standard output, and prints
/// on standard error what it has and what it does not have; with `quiet` the numbers alone. Beside a file goes the file
/// `output`.txt, with a line that says which registry it is. Each is complete at the end, or as it was before. Returns
/// how that ended; the clause says what may have been done, since of a machine no more is known. `registry_command.py`
/// of `tests/program/signatures` tests which files then stand there.
pub fn registry_command<R>(rt: &R, file: &str, output: Option<&str>, quiet: bool) -> RegistryEnding
where
    R: Files<File = File> + Print + Eprint + AllocGlobal,
    ensures { IsMachineRun quiet result }
{
    let mut places = Machine { rt, file, output };
    convert_file(rt.alloc(), &mut places, quiet)
}

/// Makes a registry of the signature file that `places` reads, and writes and reports it there. Returns how that ended.
/// With `quiet` the report has the numbers alone.
pub fn convert_file<P: Places>(alloc: Global, places: &mut P, quiet: bool) -> RegistryEnding
    // All that was done outside, in order, and the ending that follows from it.
    ensures { Runs P.does quiet places.old result places.new }
{
    let bytes = match places.read_file(alloc) {
        Ok(bytes) => bytes,
        Err(why) => return RegistryEnding::NoFile(why),
    };
    match conversion_of(alloc, quiet, bytes.as_slice()) {
        Ok(conversion) => write_conversion(places, &conversion),
        Err(ending) => ending,
    }
}

/// Writes a registry and the note, and prints the report, in this order. The first that fails ends it: without the
/// note, the registry stays and no report is printed.
fn write_conversion<P: Places>(places: &mut P, conversion: &Conversion) -> RegistryEnding
    ensures { Writes P.does conversion.now places.old result places.new }
{
    match places.put(Part::Registry, conversion.csv.as_slice()) {
        Ok(()) => {}
        Err(why) => return RegistryEnding::NoRegistry(why),
    }
    match places.put(Part::Note, conversion.note.as_bytes()) {
        Ok(()) => {}
        Err(why) => return RegistryEnding::NoNote(why),
    }
    places.report(conversion.report.as_str());
    ending_of(conversion.is_partial)
}

/// Returns the ending where registry and note were written, by whether something is not in the registry.
fn ending_of(is_partial: bool) -> RegistryEnding
    ensures { result ≡ ending_of is_partial }
{
    if is_partial {
        RegistryEnding::Partial
    } else {
        RegistryEnding::Whole
    }
}
