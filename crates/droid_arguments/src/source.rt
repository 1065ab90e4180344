//! Which registry of formats a command of the service uses. (`profile`, `verify` and `identify` know no sample.)

ghost use Rattle.std.specs.Prelude.{option_map};
ghost use Rattle.clap.specs.Words.{found_of, rows_of};
ghost use Rattle.droid_arguments.specs.Values.{IsChosen, IsSource, Reads};

use crate::option::REGISTRY;
use crate::value::flag_of;
use clap::ArgMatches;

// The name of the option for the built-in registry.
pub const EVERYDAY: &str = "everyday";

/// The registry of formats that a command uses.
#[derive(Clone, Copy)]
pub enum RegistrySource<'a> {
    /// The sample registry of four invented formats.
    Sample,
    /// The built-in registry of everyday formats.
    Everyday,
    /// The registry file at this path.
    File(&'a str),
}

/// Reads the options `--everyday` and `--registry`. `None`: both are given, which is a mistake.
pub fn source_of<'a>(matches: &ArgMatches<'a>) -> Option<RegistrySource<'a>>
    ensures { Reads result (IsSource (rows_of (found_of matches.now))) }
{
    let everyday = flag_of(matches, EVERYDAY);
    let path = matches.get_str(REGISTRY);
    chosen(everyday, path)
}

/// Returns the registry by whether `--everyday` is given and the path of `--registry`, or `None` if both are.
fn chosen<'a>(everyday: bool, path: Option<&'a str>) -> Option<RegistrySource<'a>>
    ensures { Reads result (IsChosen everyday (option_map (λ text. text.now) path.entry)) }
{
    match (everyday, path) {
        (false, None) => Some(RegistrySource::Sample),
        (true, None) => Some(RegistrySource::Everyday),
        (false, Some(path)) => Some(RegistrySource::File(path)),
        (true, Some(_)) => None,
    }
}
