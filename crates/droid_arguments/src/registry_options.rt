//! The command `registry`: its options, and what they ask for.

ghost use Rattle.std.specs.Prelude.{codes};
ghost use Rattle.clap.specs.Words.{found_of, rows_of};
ghost use Rattle.droid_arguments.specs.Asking.{IsAskedBy, IsConversion};
ghost use Rattle.droid_arguments.specs.Commands.{registry_command};
ghost use Rattle.droid_arguments.specs.Made.{Makes};
ghost use Rattle.droid_arguments.specs.Values.{Reads};

use crate::arguments::Asked;
use crate::builder::Builder;
use crate::helps::conversion_help::{
    CONVERSION_ABOUT, CONVERSION_HELP, CONVERSION_QUIET_HELP, REGISTRY_OUTPUT_HELP,
    SIGNATURE_FILE_HELP,
};
use crate::option::{REGISTRY, flag, named, word};
use crate::profile::{OUTPUT, QUIET};
use crate::value::flag_of;
use clap::{ArgMatches, Command};
use std::alloc::{AllocError, Global};

/// The name of the command's word.
const FILE: &str = "file";

/// The signature file to make a registry of, and how.
#[derive(Clone, Copy)]
pub struct RegistryOptions<'a> {
    /// The path of the signature file.
    pub file: &'a str,
    /// The path of the registry file, or `None` for standard output.
    pub output: Option<&'a str>,
    /// Whether only how much was taken and how much was left out is printed, without a line for each.
    pub quiet: bool,
}

/// Returns what the options of `registry` ask for. `None` only without the file, which `clap` demands before.
pub(crate) fn registry_asked<'a>(registry: &ArgMatches<'a>) -> Option<Asked<'a>>
    ensures { Reads result (IsAskedBy (codes "registry") (rows_of (found_of registry.now))) }
{
    let options = registry_options(registry)?;
    Some(Asked::Registry(options))
}

/// Reads the options of `registry`, or returns `None` without the path of the signature file.
fn registry_options<'a>(registry: &ArgMatches<'a>) -> Option<RegistryOptions<'a>>
    ensures { Reads result (IsConversion (rows_of (found_of registry.now))) }
{
    let file = registry.get_str(FILE)?;
    let output = registry.get_str(OUTPUT);
    let quiet = flag_of(registry, QUIET);
    Some(RegistryOptions {
        file,
        output,
        quiet,
    })
}

/// Declares the command `registry`: the signature file, where the registry goes, and `--quiet`.
pub(crate) fn conversion<'a>(alloc: Global) -> Result<Command<'a>, AllocError>
    ensures { Makes registry_command result }
{
    Builder::new(alloc, REGISTRY, CONVERSION_ABOUT, CONVERSION_HELP)
        .option(word(alloc, FILE, "FILE", SIGNATURE_FILE_HELP))
        .option(named(alloc, OUTPUT, "OUT", REGISTRY_OUTPUT_HELP))
        .option(flag(alloc, QUIET, CONVERSION_QUIET_HELP))
        .made
}
