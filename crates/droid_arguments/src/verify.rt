//! The command `verify`: its options, and what they ask for. `names_two` is for `identify` too, which chooses a
//! registry in the same way.

ghost use Rattle.std.specs.Prelude.{◌≡◌, codes, false, option_map};
ghost use Rattle.clap.specs.Words.{found_of, rows_of, rule_of};
ghost use Rattle.droid_arguments.specs.Asking.{IsAskedBy, IsVerify, measures_twice, reads_nothing};
ghost use Rattle.droid_arguments.specs.Commands.{against_option, verify_command};
ghost use Rattle.droid_arguments.specs.Registries.{names_two};
ghost use Rattle.droid_arguments.specs.Made.{Makes};
ghost use Rattle.droid_arguments.specs.Values.{Reads};

use crate::arguments::{Asked, TWO_REGISTRIES};
use crate::builder::Builder;
use crate::helps::profile_help::{MATCH_ALL_HELP, OWN_REGISTRY_HELP, QUIET_HELP};
use crate::helps::verify_help::{
    AGAINST_HELP, IDENTIFY_HELP, OWN_EVERYDAY_HELP, QUICK_HELP, SIZES_ONLY_HELP, VERIFY_ABOUT,
    VERIFY_FOLDER_HELP, VERIFY_HELP,
};
use crate::option::{FOLDER, LIMIT, REGISTRY, flag, folder, limit, named, registry};
use crate::profile::{DEFAULT_LIMIT, MATCH_ALL, QUIET};
use crate::source::EVERYDAY;
use crate::value::flag_of;
use clap::{Arg, ArgMatches, Command};
use std::alloc::{AllocError, Global};

// The names of the command and of its options.
pub(crate) const VERIFY: &str = "verify";

const AGAINST: &str = "against";

const QUICK: &str = "quick";

const SIZES_ONLY: &str = "sizes-only";

const IDENTIFY: &str = "identify";

/// The error for formats of files that are not read.
const NO_FILE_IS_READ: &str =
    "the options '--quick' and '--identify' cannot be used together: '--quick' reads no file";

/// The error for files that are to be compared by two measures.
const TWO_MEASURES: &str =
    "the options '--quick' and '--sizes-only' cannot be used together: '--quick' compares modification times too";

/// The folder to compare, and with what.
#[derive(Clone, Copy)]
pub struct VerifyOptions<'a> {
    /// The path of the folder.
    pub folder: &'a str,
    /// The path of the list of its files.
    pub against: &'a str,
    /// Whether sizes and moments alone are compared, and no file is read.
    pub quick: bool,
    /// Whether sizes alone are compared, of a list without hashes.
    pub sizes_only: bool,
    /// Whether the formats are compared too.
    pub identify: bool,
    /// The path of the registry file, or `None` for the built-in registry of everyday formats.
    pub registry: Option<&'a str>,
    /// How many bytes at each end of a file are searched for signatures: 1 to 65,536.
    pub limit: u32,
    /// Whether extensions also count for formats that have signatures, where no signature matches.
    pub match_all: bool,
    /// Whether neither progress nor the summary is printed.
    pub quiet: bool,
}

/// Returns what the options of `verify` ask for, or `None` if they ask for nothing that can be done.
pub(crate) fn verify_asked<'a>(verify: &ArgMatches<'a>) -> Option<Asked<'a>>
    ensures { Reads result (IsAskedBy (codes "verify") (rows_of (found_of verify.now))) }
{
    let options = verify_options(verify)?;
    Some(Asked::Verify(options))
}

/// Reads the options of `verify`. `None`: `--quick` is given beside `--identify` or `--sizes-only`, or two registries
/// are; `mistake_in_verify` has a text for each, in the same order.
fn verify_options<'a>(verify: &ArgMatches<'a>) -> Option<VerifyOptions<'a>>
    ensures { Reads result (IsVerify (rows_of (found_of verify.now))) }
{
    let folder = verify.get_str(FOLDER)?;
    let against = verify.get_str(AGAINST)?;
    let quick = flag_of(verify, QUICK);
    let sizes_only = flag_of(verify, SIZES_ONLY);
    let identify = flag_of(verify, IDENTIFY);
    if reads_nothing(quick, identify) {
        return None;
    }
    if measures_twice(quick, sizes_only) {
        return None;
    }
    let registry = verify.get_str(REGISTRY);
    let everyday = flag_of(verify, EVERYDAY);
    if names_two(everyday, registry) {
        return None;
    }
    let limit = verify.get_one(LIMIT).unwrap_or(DEFAULT_LIMIT);
    let match_all = flag_of(verify, MATCH_ALL);
    let quiet = flag_of(verify, QUIET);
    Some(VerifyOptions {
        folder,
        against,
        quick,
        sizes_only,
        identify,
        registry,
        limit,
        match_all,
        quiet,
    })
}

/// Says what is wrong with options for which `verify_options` is `None`. Without a contract: each text is tested.
pub(crate) fn mistake_in_verify(verify: &ArgMatches<'_>) -> &'static str {
    if reads_nothing(flag_of(verify, QUICK), flag_of(verify, IDENTIFY)) {
        NO_FILE_IS_READ
    } else if measures_twice(flag_of(verify, QUICK), flag_of(verify, SIZES_ONLY)) {
        TWO_MEASURES
    } else {
        TWO_REGISTRIES
    }
}

/// Returns whether formats are to be compared, and no file is read: `--identify` with `--quick`.
fn reads_nothing(quick: bool, identify: bool) -> bool
    ensures { result ≡ reads_nothing quick identify }
{
    quick && identify
}

/// Returns whether sizes alone are to be compared, and modification times too: `--sizes-only` with `--quick`.
fn measures_twice(quick: bool, sizes_only: bool) -> bool
    ensures { result ≡ measures_twice quick sizes_only }
{
    quick && sizes_only
}

/// Returns whether the built-in registry is asked for by `--everyday`, beside a file. It is the default without either.
pub(crate) fn names_two(everyday: bool, registry: Option<&str>) -> bool
    ensures { result ≡ names_two everyday (option_map (λ path. path.now) registry.entry) }
{
    match (everyday, registry) {
        (true, Some(_)) => true,
        (true, None) => false,
        (false, Some(_)) => false,
        (false, None) => false,
    }
}

/// Declares the command `verify`: the rules are those of `verify_command`, in its order, which is that of the help.
pub(crate) fn verify<'a>(alloc: Global) -> Result<Command<'a>, AllocError>
    ensures { Makes verify_command result }
{
    Builder::new(alloc, VERIFY, VERIFY_ABOUT, VERIFY_HELP)
        .option(folder(alloc, VERIFY_FOLDER_HELP))
        .option(against(alloc))
        .option(flag(alloc, QUICK, QUICK_HELP))
        .option(flag(alloc, SIZES_ONLY, SIZES_ONLY_HELP))
        .option(flag(alloc, IDENTIFY, IDENTIFY_HELP))
        .option(registry(alloc, OWN_REGISTRY_HELP))
        .option(flag(alloc, EVERYDAY, OWN_EVERYDAY_HELP))
        .option(limit(alloc))
        .option(flag(alloc, MATCH_ALL, MATCH_ALL_HELP))
        .option(flag(alloc, QUIET, QUIET_HELP))
        .made
}

/// Declares the option `--against FILE` for the list, which must be given.
fn against<'a>(alloc: Global) -> Arg<'a>
    ensures rule { rule_of result ≡ against_option }
    ensures local { result.global ≡ false }
{
    named(alloc, AGAINST, "FILE", AGAINST_HELP).required(true)
}
