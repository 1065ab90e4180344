//! The command `identify`: begins its output, has each file identified, ends the output, and says how it ended.
//!
//! No function here has a contract: `tests/program/identify` holds what they print, and the exit status.

use crate::forms::sf_document::SfHead;
use crate::identify_ending::IdentifyEnding;
use crate::machine::{Machine, seconds_now};
use crate::moment::utc_text;
use crate::named::take_each;
use crate::output::Output;
use crate::printer::Printer;
use crate::run_fault::RunFault;
use droid_arguments::{IdentifyOptions, VERSION};
use droid_pronom::Registry;
use std::env::Env;
use std::fs;
use std::fs::{File, Files};
use std::os::unix::fs::MetadataExt;
use std::time::Clock;

/// A registry, and how it is named.
#[derive(Clone, Copy)]
pub struct IdentifyRegistry<'a> {
    /// The registry.
    pub registry: &'a Registry,
    /// The path of its file, or `None` for the built-in registry of everyday formats.
    pub path: Option<&'a str>,
    /// What tells it from others.
    pub details: &'a str,
}

/// What stands for a moment that is not known: the first second that has a text. It is `FIRST` of `moment.rt`; nothing
/// but this line ties the two.
const UNKNOWN: i64 = -62_135_596_800;

/// Identifies the files that the command line names, and prints what they are on standard output. What could not be
/// read is reported on standard error, and the rest is done. A file named `-` is standard input. A PUID of `--why` that
/// the registry does not have ends the command before anything is printed.
pub fn identify_command<R>(
    rt: &R,
    registry: IdentifyRegistry<'_>,
    options: IdentifyOptions<'_>,
    files: &[&str],
) -> IdentifyEnding
where
    R: Files<File = File> + Env + Clock + Input + Print + Eprint + AllocGlobal,
{
    let why = match options.why {
        Some(puid) => {
            let place = registry.registry.by_puid(puid);
            if place.is_none() {
                return IdentifyEnding::NoFormat;
            }
            place
        }
        None => None,
    };
    match identify_all(rt, registry, options, why, files) {
        Ok(ending) => ending,
        Err(fault) => fault.ending(),
    }
}

/// Prints the whole output, from what stands before the first file to what stands after the last one, and returns how
/// the command ends. `why` is the place, in the registry, of the format that `--why` asks about. After a fault what was
/// kept is still written.
fn identify_all<'a, R>(
    rt: &'a R,
    registry: IdentifyRegistry<'a>,
    options: IdentifyOptions<'a>,
    why: Option<u32>,
    files: &[&str],
) -> Result<IdentifyEnding, RunFault>
where
    R: Files<File = File> + Env + Clock + Input + Print + Eprint + AllocGlobal,
{
    let output = Output::new(rt.alloc(), rt);
    let mut machine = Machine::new(rt, registry.registry, options, why, output)?;
    begin(rt, registry, &mut machine)?;
    let done = identify_each(options, files, &mut machine);
    // Also behind a fault: what was identified before it is written.
    machine.output.flush()?;
    done?;
    Ok(IdentifyEnding::of(options.form, machine.unread, machine.unidentified))
}

/// Identifies each of the files, then those of the list of `--files-from`, and prints what stands after the last one.
fn identify_each<'a, R, P>(
    options: IdentifyOptions<'_>,
    files: &[&str],
    machine: &mut Machine<'a, R, P>,
) -> Result<(), RunFault>
where
    R: Files<File = File> + Env + Clock + Input + AllocGlobal,
    P: Printer + Drop,
{
    take_each(machine, files)?;
    if let Some(list) = options.list {
        machine.identify_list(list)?;
    }
    machine.end()
}

/// Prints what stands before the first file: in the document that is shaped as Siegfried's the program, the moment, and
/// the registry with its moment; in CSV the names of the columns; in the other forms nothing.
fn begin<'a, R, P>(
    rt: &'a R,
    registry: IdentifyRegistry<'_>,
    machine: &mut Machine<'a, R, P>,
) -> Result<(), RunFault>
where
    R: Files<File = File> + Env + Clock + Input + AllocGlobal,
    P: Printer + Drop,
{
    let alloc = rt.alloc();
    let program = format!(in alloc; "droid_desk {}", VERSION)?;
    let scanned = utc_text(alloc, seconds_now(rt))?;
    let created = utc_text(alloc, made(rt, registry.path))?;
    machine.begin(SfHead {
        program: program.as_str(),
        scanned: scanned.as_str(),
        registry: registry.path.unwrap_or("everyday formats"),
        created: created.as_str(),
        details: registry.details,
    })
}

/// Returns when the registry's file was last changed, in seconds since 1970-01-01T00:00:00 UTC. Returns `UNKNOWN` for
/// the built-in registry, and where the file can't be looked at.
fn made<R: Files>(rt: &R, path: Option<&str>) -> i64 {
    let Some(path) = path else {
        return UNKNOWN;
    };
    match fs::metadata(rt, path) {
        Ok(found) => found.mtime(),
        Err(_) => UNKNOWN,
    }
}
