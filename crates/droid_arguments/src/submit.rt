//! The command `submit`: its options, and what they ask for.

ghost use Rattle.std.specs.Prelude.{◌≡◌, codes, false};
ghost use Rattle.clap.specs.Words.{found_of, rows_of, rule_of};
ghost use Rattle.droid_arguments.specs.Asking.{IsAskedBy, IsSentTo, IsSubmit, checks_nothing};
ghost use Rattle.droid_arguments.specs.Commands.{name_option, submit_command};
ghost use Rattle.droid_arguments.specs.Made.{Makes};
ghost use Rattle.droid_arguments.specs.Values.{Reads};

use crate::arguments::{Asked, NO_SUCH_HASH};
use crate::builder::Builder;
use crate::helps::profile_help::{HASH_HELP, MATCH_ALL_HELP, QUIET_HELP};
use crate::helps::submit_help::{
    CHECK_HELP, EXPORT_HELP, NAME_HELP, PIECE_SIZE_HELP, SKIPPED_HELP, SUBMIT_ABOUT,
    SUBMIT_CLIENT_HELP, SUBMIT_FOLDER_HELP, SUBMIT_HELP, SUBMIT_PAGE_HELP, SUBMIT_PORT_HELP,
    TIMEOUT_HELP, WAIT_HELP,
};
use crate::option::{
    CLIENT, FOLDER, LIMIT, PORT, client, flag, folder, limit, named, number, port,
};
use crate::profile::{DEFAULT_LIMIT, HASH, MATCH_ALL, QUIET, SKIPPED};
use crate::report_options::REPORT;
use crate::value::{flag_of, hash_of};
use clap::builder::ValueParser;
use clap::{Arg, ArgMatches, Command};
use droid_frame::HashKind;
use std::alloc::{AllocError, Global};

// The names of the command and of its options.
pub(crate) const SUBMIT: &str = "submit";

const NAME: &str = "name";

const WAIT: &str = "wait";

const TIMEOUT: &str = "timeout";

const PIECE_SIZE: &str = "piece-size";

const CHECK: &str = "check";

const EXPORT: &str = "export";

/// The error for hashes to compare where files get none.
const NO_HASH_TO_COMPARE: &str =
    "the options '--check' and '--hash none' cannot be used together: '--check' compares hashes";

/// How many bytes a piece has by default. `IsSubmit` has the same number, and `PIECE_SIZE_HELP` in words.
const DEFAULT_PIECE_SIZE: u32 = 262_144;

/// For how many seconds connecting is tried by default. `IsSentTo` has the same number, and `WAIT_HELP` in words.
const DEFAULT_WAIT: u32 = 60;

/// How many seconds a reply may take by default. `IsSentTo` has the same number, and `TIMEOUT_HELP` in words.
const DEFAULT_TIMEOUT: u32 = 60;

/// The service that a submission goes to, whose requests they are, and how long to wait for the service.
#[derive(Clone, Copy)]
pub struct Destination {
    /// The port.
    pub port: u16,
    /// The client.
    pub client: u32,
    /// For how many seconds connecting and reconnecting are tried: 0 to 86,400.
    pub wait: u32,
    /// How many seconds a reply may take before the connection counts as broken: 1 to 86,400.
    pub timeout: u32,
}

/// The folder to submit, and how.
#[derive(Clone, Copy)]
pub struct SubmitOptions<'a> {
    /// The path of the folder.
    pub folder: &'a str,
    /// Where it goes.
    pub to: Destination,
    /// The name of the submission, or `None` for the folder's absolute path.
    pub name: Option<&'a str>,
    /// How many bytes each piece of a file has but the last: 1 to 4,194,304.
    pub piece_size: u32,
    /// How many bytes at each end of a file are searched for signatures: 1 to 65,536.
    pub limit: u32,
    /// Whether extensions also count for formats that have signatures, where no signature matches.
    pub match_all: bool,
    /// Which hash the files get.
    pub hash: HashKind,
    /// Whether the files that an earlier run finished are read again, and their hashes compared.
    pub check: bool,
    /// The path of the CSV file, or `None` for no CSV.
    pub export: Option<&'a str>,
    /// The path of the file for what was skipped, or `None` for no such file.
    pub skipped: Option<&'a str>,
    /// The path of the page, or `None` for no page.
    pub report: Option<&'a str>,
    /// Whether neither progress nor the summary is printed.
    pub quiet: bool,
}

/// Returns what the options of `submit` ask for, or `None` if they ask for nothing that can be done.
pub(crate) fn submit_asked<'a>(submit: &ArgMatches<'a>) -> Option<Asked<'a>>
    ensures { Reads result (IsAskedBy (codes "submit") (rows_of (found_of submit.now))) }
{
    let options = submit_options(submit)?;
    Some(Asked::Submit(options))
}

/// Reads the options of `submit`. `None`: the hash has an unknown name, or hashes are to be compared where files get
/// none; `mistake_in_submit` has a text for each.
fn submit_options<'a>(submit: &ArgMatches<'a>) -> Option<SubmitOptions<'a>>
    ensures { Reads result (IsSubmit (rows_of (found_of submit.now))) }
{
    let to = destination_of(submit)?;
    let folder = submit.get_str(FOLDER)?;
    let name = submit.get_str(NAME);
    let piece_size = submit.get_one(PIECE_SIZE).unwrap_or(DEFAULT_PIECE_SIZE);
    let limit = submit.get_one(LIMIT).unwrap_or(DEFAULT_LIMIT);
    let match_all = flag_of(submit, MATCH_ALL);
    let hash_word = submit.get_str(HASH);
    let hash = hash_of(hash_word)?;
    let check = flag_of(submit, CHECK);
    if checks_nothing(check, hash) {
        return None;
    }
    let export = submit.get_str(EXPORT);
    let skipped = submit.get_str(SKIPPED);
    let report = submit.get_str(REPORT);
    let quiet = flag_of(submit, QUIET);
    Some(SubmitOptions {
        folder,
        to,
        name,
        piece_size,
        limit,
        match_all,
        hash,
        check,
        export,
        skipped,
        report,
        quiet,
    })
}

/// Says what is wrong with options for which `submit_options` is `None`. Without a contract: each text is tested.
pub(crate) fn mistake_in_submit(submit: &ArgMatches<'_>) -> &'static str {
    match hash_of(submit.get_str(HASH)) {
        Some(_) => NO_HASH_TO_COMPARE,
        None => NO_SUCH_HASH,
    }
}

/// Returns whether finished files are to be read again, and no hash is there to compare: `--check` with `--hash none`.
fn checks_nothing(check: bool, hash: HashKind) -> bool
    ensures { result ≡ checks_nothing check hash }
{
    match (check, hash) {
        (true, HashKind::Nothing) => true,
        (true, HashKind::Md5) => false,
        (true, HashKind::Sha256) => false,
        (false, _) => false,
    }
}

/// Reads port, client and times of a submission, or returns `None` without a port or a client, which `clap` demands
/// before.
fn destination_of(submit: &ArgMatches<'_>) -> Option<Destination>
    ensures { Reads result (IsSentTo (rows_of (found_of submit.now))) }
{
    let port = submit.get_one(PORT)?;
    let client = submit.get_one(CLIENT)?;
    let wait = submit.get_one(WAIT).unwrap_or(DEFAULT_WAIT);
    let timeout = submit.get_one(TIMEOUT).unwrap_or(DEFAULT_TIMEOUT);
    Some(Destination {
        port,
        client,
        wait,
        timeout,
    })
}

/// Declares the command `submit`: the rules are those of `submit_command`, in its order, which is that of the help. The
/// ranges of its numbers stand in the help texts too, which only tests hold.
pub(crate) fn submit<'a>(alloc: Global) -> Result<Command<'a>, AllocError>
    ensures { Makes submit_command result }
{
    Builder::new(alloc, SUBMIT, SUBMIT_ABOUT, SUBMIT_HELP)
        .option(folder(alloc, SUBMIT_FOLDER_HELP))
        .option(port(alloc, SUBMIT_PORT_HELP))
        .option(client(alloc, SUBMIT_CLIENT_HELP))
        .option(name(alloc))
        .option(number(alloc, WAIT, "SECONDS", WAIT_HELP, 0, 86_400))
        .option(number(alloc, TIMEOUT, "SECONDS", TIMEOUT_HELP, 1, 86_400))
        .option(number(alloc, PIECE_SIZE, "BYTES", PIECE_SIZE_HELP, 1, 4_194_304))
        .option(limit(alloc))
        .option(flag(alloc, MATCH_ALL, MATCH_ALL_HELP))
        .option(named(alloc, HASH, "HASH", HASH_HELP))
        .option(flag(alloc, CHECK, CHECK_HELP))
        .option(named(alloc, EXPORT, "FILE", EXPORT_HELP))
        .option(named(alloc, SKIPPED, "FILE", SKIPPED_HELP))
        .option(named(alloc, REPORT, "PAGE", SUBMIT_PAGE_HELP))
        .option(flag(alloc, QUIET, QUIET_HELP))
        .made
}

/// Declares the option `--name TEXT` for the submission's name, which may not be empty.
fn name<'a>(alloc: Global) -> Arg<'a>
    ensures rule { rule_of result ≡ name_option }
    ensures local { result.global ≡ false }
{
    named(alloc, NAME, "TEXT", NAME_HELP).value_parser(ValueParser::NonEmptyString)
}
