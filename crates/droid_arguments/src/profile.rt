//! The command `profile`: its options, and what they ask for.

ghost use Rattle.std.specs.Prelude.{◌≡◌, None, codes, option_map};
ghost use Rattle.clap.specs.Words.{found_of, rows_of};
ghost use Rattle.droid_arguments.specs.Asking.{IsAskedBy, IsProfile, has_no_checksums};
ghost use Rattle.droid_arguments.specs.Commands.{profile_command};
ghost use Rattle.droid_arguments.specs.Made.{Makes};
ghost use Rattle.droid_arguments.specs.Values.{Reads};

use crate::arguments::Asked;
use crate::builder::Builder;
use crate::helps::profile_help::{
    FOLDER_HELP, HASH_HELP, MANIFEST_HELP, MATCH_ALL_HELP, OUTPUT_HELP, OWN_REGISTRY_HELP,
    PAGE_HELP, PROFILE_ABOUT, PROFILE_HELP, PROFILE_SKIPPED_HELP, QUIET_HELP,
};
use crate::option::{FOLDER, LIMIT, REGISTRY, flag, folder, limit, named, registry};
use crate::report_options::REPORT;
use crate::value::{flag_of, hash_of};
use clap::{ArgMatches, Command};
use droid_frame::HashKind;
use std::alloc::{AllocError, Global};

// The names of the command, of its word and of its options.
pub(crate) const PROFILE: &str = "profile";

pub(crate) const MATCH_ALL: &str = "match-all";

pub(crate) const HASH: &str = "hash";

pub(crate) const OUTPUT: &str = "output";

const MANIFEST: &str = "manifest";

pub(crate) const SKIPPED: &str = "skipped";

pub(crate) const QUIET: &str = "quiet";

/// How many bytes at each end of a file are searched for signatures by default. `IsProfile`, `IsSubmit`, `IsVerify` and
/// `IsIdentify` have the same number, and the help of `limit` in words.
pub(crate) const DEFAULT_LIMIT: u32 = 65_536;

/// The folder to profile, and how.
#[derive(Clone, Copy)]
pub struct ProfileOptions<'a> {
    /// The path of the folder.
    pub folder: &'a str,
    /// The path of the registry file, or `None` for the built-in registry of everyday formats.
    pub registry: Option<&'a str>,
    /// How many bytes at each end of a file are searched for signatures: 1 to 65,536.
    pub limit: u32,
    /// Whether extensions also count for formats that have signatures, where no signature matches.
    pub match_all: bool,
    /// Which hash the files get.
    pub hash: HashKind,
    /// The path of the CSV file, or `None` for standard output.
    pub output: Option<&'a str>,
    /// The path of the file for the checksums, or `None` for no such file. `None` if the files get no hash.
    pub manifest: Option<&'a str>,
    /// The path of the file for what was skipped, or `None` for no such file.
    pub skipped: Option<&'a str>,
    /// The path of the page, or `None` for no page.
    pub report: Option<&'a str>,
    /// Whether neither progress nor the summary is printed.
    pub quiet: bool,
}

/// Returns what the options of `profile` ask for, or `None` if they ask for nothing that can be done.
pub(crate) fn profile_asked<'a>(profile: &ArgMatches<'a>) -> Option<Asked<'a>>
    ensures { Reads result (IsAskedBy (codes "profile") (rows_of (found_of profile.now))) }
{
    let options = profile_options(profile)?;
    Some(Asked::Profile(options))
}

/// Reads the options of `profile`. `None`: the hash has an unknown name, or checksums are asked for without a hash;
/// `mistake_in` of `arguments.rt` has a text for each.
fn profile_options<'a>(profile: &ArgMatches<'a>) -> Option<ProfileOptions<'a>>
    ensures { Reads result (IsProfile (rows_of (found_of profile.now))) }
{
    let folder = profile.get_str(FOLDER)?;
    let registry = profile.get_str(REGISTRY);
    let limit = profile.get_one(LIMIT).unwrap_or(DEFAULT_LIMIT);
    let match_all = flag_of(profile, MATCH_ALL);
    let hash_word = profile.get_str(HASH);
    let hash = hash_of(hash_word)?;
    let output = profile.get_str(OUTPUT);
    let manifest = profile.get_str(MANIFEST);
    if has_no_checksums(hash, manifest) {
        return None;
    }
    let skipped = profile.get_str(SKIPPED);
    let report = profile.get_str(REPORT);
    let quiet = flag_of(profile, QUIET);
    Some(ProfileOptions {
        folder,
        registry,
        limit,
        match_all,
        hash,
        output,
        manifest,
        skipped,
        report,
        quiet,
    })
}

/// Returns whether a list of checksums is asked for by `--manifest`, and files get no hash by `--hash none`.
pub(crate) fn has_no_checksums(hash: HashKind, manifest: Option<&str>) -> bool
    ensures { result ≡ has_no_checksums hash (option_map (λ path. path.now) manifest.entry) }
{
    match (hash, manifest) {
        (HashKind::Nothing, Some(_)) => true,
        (HashKind::Nothing, None) => false,
        (HashKind::Md5, _) => false,
        (HashKind::Sha256, _) => false,
    }
}

/// Declares the command `profile`: the rules are those of `profile_command`, in its order, which is that of the help.
pub(crate) fn profile<'a>(alloc: Global) -> Result<Command<'a>, AllocError>
    ensures { Makes profile_command result }
{
    Builder::new(alloc, PROFILE, PROFILE_ABOUT, PROFILE_HELP)
        .option(folder(alloc, FOLDER_HELP))
        .option(registry(alloc, OWN_REGISTRY_HELP))
        .option(limit(alloc))
        .option(flag(alloc, MATCH_ALL, MATCH_ALL_HELP))
        .option(named(alloc, HASH, "HASH", HASH_HELP))
        .option(named(alloc, OUTPUT, "FILE", OUTPUT_HELP))
        .option(named(alloc, MANIFEST, "FILE", MANIFEST_HELP))
        .option(named(alloc, SKIPPED, "FILE", PROFILE_SKIPPED_HELP))
        .option(named(alloc, REPORT, "PAGE", PAGE_HELP))
        .option(flag(alloc, QUIET, QUIET_HELP))
        .made
}
