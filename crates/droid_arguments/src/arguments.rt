//! The command line as a whole: declares the program to `clap` and reads what the words ask for. Here too are the
//! commands without a file of their own: `script`, `run`, `serve` and `send`.

ghost use Rattle.std.specs.Prelude.{◌≡◌, [], IfErr, IfOk, codes, map, string_bytes, true};
ghost use Rattle.clap.specs.Words.{app_of, fault_of, found_of, is_simple, is_simple_and_free, new_app, rows_of};
ghost use Rattle.clap.specs.Words.{subcommand_of, subcommand_rows_of};
ghost use Rattle.droid_arguments.specs.Asking.{FailsBy, IsAsked, IsAskedBy, RefusesWords, WordsAsk};
ghost use Rattle.droid_arguments.specs.Commands.{program, run_command, script_command, send_command, serve_command};
ghost use Rattle.droid_arguments.specs.Commands.{top_command};
ghost use Rattle.droid_arguments.specs.Made.{Makes};
ghost use Rattle.droid_arguments.specs.Values.{Reads};

use crate::builder::Builder;
use crate::compact_options::{COMPACT, compact, compact_asked};
use crate::connection_options::{
    AT_ONCE, CONNECTIONS, FOREVER, IDLE, ServeOptions, VERBOSE, serve_options,
};
use crate::helps::help::{ABOUT, EVERYDAY_HELP, HELP, REGISTRY_HELP, SCRIPT_ABOUT, SCRIPT_HELP};
use crate::helps::stream_help::{
    AT_ONCE_HELP, CLIENT_HELP, CONNECTIONS_HELP, FIRST_HELP, FOREVER_HELP, IDLE_HELP, JOURNAL_HELP,
    RUN_ABOUT, RUN_HELP, SEND_ABOUT, SEND_HELP, SEND_PORT_HELP, SERVE_ABOUT, SERVE_HELP,
    SERVE_PORT_HELP, VERBOSE_HELP,
};
use crate::identify::{IDENTIFY, IdentifyOptions, identify, identify_asked, mistake_in_identify};
use crate::no_command::{NoCommand, unused_words};
use crate::option::{CLIENT, PORT, REGISTRY, client, flag, named, number, port, registry};
use crate::profile::{HASH, PROFILE, ProfileOptions, profile, profile_asked};
use crate::registry_options::{RegistryOptions, conversion, registry_asked};
use crate::report_options::{REPORT, ReportOptions, report, report_asked};
use crate::source::{EVERYDAY, RegistrySource, source_of};
use crate::submit::{SUBMIT, SubmitOptions, mistake_in_submit, submit, submit_asked};
use crate::value::hash_of;
use crate::verify::{VERIFY, VerifyOptions, mistake_in_verify, verify, verify_asked};
use clap::error::ErrorKind;
use clap::{ArgMatches, Command, Error};
use std::alloc::{AllocError, Global};

// The names of the commands and of their options.
const SCRIPT: &str = "script";

const RUN: &str = "run";

const SERVE: &str = "serve";

const SEND: &str = "send";

const FIRST: &str = "first";

const JOURNAL: &str = "journal";

/// The number of the first request that `send` sends by default. `IsAskedBy` has it too, and `FIRST_HELP` in words.
const DEFAULT_FIRST: u64 = 1;

/// The version that `--version` prints.
pub const VERSION: &str = "0.9.0";

/// The error for an unknown hash.
pub(crate) const NO_SUCH_HASH: &str =
    "the value of '--hash <HASH>' is none of md5, sha256 and none";

/// The error for a list of checksums where files get no hash.
const NO_CHECKSUMS: &str =
    "the option '--manifest <FILE>' writes checksums: it cannot be used with '--hash none'";

/// The error for `--connections` beside `--forever`.
const NO_END: &str = "the options '--forever' and '--connections <K>' cannot be used together";

/// The error for two registries.
pub(crate) const TWO_REGISTRIES: &str =
    "the options '--everyday' and '--registry <FILE>' cannot be used together";

/// What the command line asks for.
#[derive(Clone, Copy)]
pub enum Asked<'a> {
    /// Write the profile of a folder of this machine.
    Profile(ProfileOptions<'a>),
    /// Submit a folder of this machine to a service.
    Submit(SubmitOptions<'a>),
    /// Compare a folder of this machine with a list of its files.
    Verify(VerifyOptions<'a>),
    /// Make a page of a profile.
    Report(ReportOptions<'a>),
    /// Say what files are, and why. [`named_files`](crate::named_files) returns which.
    Identify(IdentifyOptions<'a>),
    /// Make a registry of a signature file.
    Registry(RegistryOptions<'a>),
    /// Run a script.
    Script {
        registry: RegistrySource<'a>,
    },
    /// Answer the frames of standard input. The file `journal`, if one is named, keeps what is accepted.
    Run {
        registry: RegistrySource<'a>,
        journal: Option<&'a str>,
    },
    /// Serve connections to a port, with a journal as `Run`.
    Serve {
        registry: RegistrySource<'a>,
        journal: Option<&'a str>,
        port: u16,
        options: ServeOptions,
    },
    /// Send requests to a port, as this client, under numbers from `first` on.
    Send {
        port: u16,
        client: u32,
        first: u64,
    },
    /// Make the journal in this file smaller. With `quiet` nothing is printed.
    Compact {
        registry: RegistrySource<'a>,
        file: &'a str,
        quiet: bool,
    },
}

/// Reads the words of a command line, the program's own name first. The error has what to print, and the exit status:
/// a help, a mistake, or that memory ran out.
pub fn what_is_asked<'a>(alloc: Global, words: &'a [String]) -> Result<Asked<'a>, NoCommand>
    ensures asks { IfOk result (λ asked. WordsAsk (map string_bytes words.entry.now) asked) }
    // The words are valid: each option is known, and each number is in its range.
    ensures taken { IfOk result (λ _. fault_of program (map string_bytes words.entry.now) ≡ []) }
    // Valid words that ask for something are not refused.
    ensures refused { IfErr result (RefusesWords (map string_bytes words.entry.now)) }
{
    match asked_of_program(alloc, words) {
        Ok(asked) => Ok(asked),
        Err(error) => Err(unused_words(error)),
    }
}

/// Does what [`what_is_asked`] does, with an error of `clap`: makes the program's command and reads the words by it.
fn asked_of_program<'a>(alloc: Global, words: &'a [String]) -> Result<Asked<'a>, Error>
    ensures asks { IfOk result (λ asked. WordsAsk (map string_bytes words.entry.now) asked) }
    ensures taken { IfOk result (λ _. fault_of program (map string_bytes words.entry.now) ≡ []) }
    ensures refused { IfErr result (FailsBy program (map string_bytes words.entry.now)) }
{
    let mut command = command(alloc)?;
    asked_of(&mut command, words)
}

/// Reads the words by a command. `is_simple` and `is_simple_and_free` are the kit's conditions on a command, which the
/// program's meets. Where words match the command and ask for nothing, the error has the text of `mistake_in`.
fn asked_of<'a>(command: &mut Command<'a>, words: &'a [String]) -> Result<Asked<'a>, Error>
    ensures asks { is_simple (app_of command.old) ≡ true
        → IfOk result (λ asked. IsAsked (subcommand_of (app_of command.old) (map string_bytes words.entry.now)) asked) }
    ensures taken { is_simple_and_free (app_of command.old) ≡ true
        → IfOk result (λ _. fault_of (app_of command.old) (map string_bytes words.entry.now) ≡ []) }
    ensures refused { is_simple (app_of command.old) ≡ true → is_simple_and_free (app_of command.old) ≡ true
        → IfErr result (FailsBy (app_of command.old) (map string_bytes words.entry.now)) }
{
    let matches = command.try_get_matches_from_mut(words)?;
    match asked_by(&matches) {
        Some(asked) => Ok(asked),
        None => Err(command.error(ErrorKind::InvalidValue, mistake_in(&matches))?),
    }
}

/// Says what is wrong with words that match the command, but ask for nothing: for these `asked_by` is `None`. Without a
/// contract: each text is tested.
fn mistake_in(matches: &ArgMatches<'_>) -> &'static str {
    if let Some(profile) = matches.subcommand_matches(PROFILE) {
        return match hash_of(profile.get_str(HASH)) {
            Some(_) => NO_CHECKSUMS,
            None => NO_SUCH_HASH,
        };
    }
    if let Some(serve) = matches.subcommand_matches(SERVE) {
        return mistake_in_serve(serve);
    }
    if let Some(verify) = matches.subcommand_matches(VERIFY) {
        return mistake_in_verify(verify);
    }
    if let Some(identify) = matches.subcommand_matches(IDENTIFY) {
        return mistake_in_identify(identify);
    }
    match matches.subcommand_matches(SUBMIT) {
        Some(submit) => mistake_in_submit(submit),
        None => TWO_REGISTRIES,
    }
}

/// Says what is wrong with options of `serve` that ask for nothing: two registries, or an end and none. Without a
/// contract too.
fn mistake_in_serve(serve: &ArgMatches<'_>) -> &'static str {
    match source_of(serve) {
        Some(_) => NO_END,
        None => TWO_REGISTRIES,
    }
}

/// Returns what the matched words ask for, by the command that they name. `None`: they ask for nothing, since they name
/// an unknown hash or two registries, or their options do not fit together. What is `None` here has a text in
/// `mistake_in`.
fn asked_by<'a>(matches: &ArgMatches<'a>) -> Option<Asked<'a>>
    ensures { Reads result (IsAsked (subcommand_rows_of matches.now)) }
{
    if let Some(profile) = matches.subcommand_matches(PROFILE) {
        return profile_asked(profile);
    }
    if let Some(submit) = matches.subcommand_matches(SUBMIT) {
        return submit_asked(submit);
    }
    if let Some(verify) = matches.subcommand_matches(VERIFY) {
        return verify_asked(verify);
    }
    if let Some(report) = matches.subcommand_matches(REPORT) {
        return report_asked(report);
    }
    if let Some(identify) = matches.subcommand_matches(IDENTIFY) {
        return identify_asked(identify);
    }
    if let Some(registry) = matches.subcommand_matches(REGISTRY) {
        return registry_asked(registry);
    }
    if let Some(script) = matches.subcommand_matches(SCRIPT) {
        return script_asked(script);
    }
    if let Some(run) = matches.subcommand_matches(RUN) {
        return run_asked(run);
    }
    if let Some(serve) = matches.subcommand_matches(SERVE) {
        return serve_asked(serve);
    }
    if let Some(send) = matches.subcommand_matches(SEND) {
        return send_asked(send);
    }
    compact_asked(matches.subcommand_matches(COMPACT)?)
}

/// Returns what the options of `script` ask for, or `None` if they name two registries.
fn script_asked<'a>(script: &ArgMatches<'a>) -> Option<Asked<'a>>
    ensures { Reads result (IsAskedBy (codes "script") (rows_of (found_of script.now))) }
{
    let registry = source_of(script)?;
    Some(Asked::Script { registry })
}

/// Returns what the options of `run` ask for, or `None` if they name two registries.
fn run_asked<'a>(run: &ArgMatches<'a>) -> Option<Asked<'a>>
    ensures { Reads result (IsAskedBy (codes "run") (rows_of (found_of run.now))) }
{
    let registry = source_of(run)?;
    let journal = run.get_str(JOURNAL);
    Some(Asked::Run { registry, journal })
}

/// Returns what the options of `serve` ask for, or `None` if they name two registries or do not fit together.
fn serve_asked<'a>(serve: &ArgMatches<'a>) -> Option<Asked<'a>>
    ensures { Reads result (IsAskedBy (codes "serve") (rows_of (found_of serve.now))) }
{
    let registry = source_of(serve)?;
    let journal = serve.get_str(JOURNAL);
    let port = serve.get_one(PORT)?;
    let options = serve_options(serve)?;
    Some(Asked::Serve {
        registry,
        journal,
        port,
        options,
    })
}

/// Returns what the options of `send` ask for. `None` only without a port or a client, which `clap` demands before.
fn send_asked<'a>(send: &ArgMatches<'a>) -> Option<Asked<'a>>
    ensures { Reads result (IsAskedBy (codes "send") (rows_of (found_of send.now))) }
{
    let port = send.get_one(PORT)?;
    let client = send.get_one(CLIENT)?;
    let first = send.get_one(FIRST).unwrap_or(DEFAULT_FIRST);
    Some(Asked::Send {
        port,
        client,
        first,
    })
}

/// Declares the program and its commands to `clap`. Fails only if memory runs out. Helps list the commands in this
/// order.
pub(crate) fn command<'a>(alloc: Global) -> Result<Command<'a>, AllocError>
    ensures { Makes program result }
{
    top(alloc)
        .command(profile(alloc))
        .command(submit(alloc))
        .command(verify(alloc))
        .command(report(alloc))
        .command(identify(alloc))
        .command(conversion(alloc))
        .command(script(alloc))
        .command(run(alloc))
        .command(serve(alloc))
        .command(send(alloc))
        .command(compact(alloc))
        .made
}

/// Begins the program's command, without the commands below it: its version, its helps, and that a command is needed.
fn top<'a>(alloc: Global) -> Builder<'a>
    ensures { Makes (top_command (new_app (codes "droid_desk"))) result.made }
{
    let command = Command::new(alloc, "droid_desk")
        .version(VERSION)
        .about(ABOUT)
        .after_help(HELP)
        .subcommand_required(true);
    Builder { made: Ok(command) }
}

/// Declares the command `script`: its two options choose the registry.
fn script<'a>(alloc: Global) -> Result<Command<'a>, AllocError>
    ensures { Makes script_command result }
{
    Builder::new(alloc, SCRIPT, SCRIPT_ABOUT, SCRIPT_HELP)
        .option(flag(alloc, EVERYDAY, EVERYDAY_HELP))
        .option(registry(alloc, REGISTRY_HELP))
        .made
}

/// Declares the command `run`: its options choose the registry and the journal.
fn run<'a>(alloc: Global) -> Result<Command<'a>, AllocError>
    ensures { Makes run_command result }
{
    Builder::new(alloc, RUN, RUN_ABOUT, RUN_HELP)
        .option(flag(alloc, EVERYDAY, EVERYDAY_HELP))
        .option(registry(alloc, REGISTRY_HELP))
        .option(named(alloc, JOURNAL, "FILE", JOURNAL_HELP))
        .made
}

/// Declares the command `serve`. The ranges of its numbers stand in `specs/Commands.antt` too, and in the texts of
/// `helps/stream_help.rt`, which only tests hold.
fn serve<'a>(alloc: Global) -> Result<Command<'a>, AllocError>
    ensures { Makes serve_command result }
{
    Builder::new(alloc, SERVE, SERVE_ABOUT, SERVE_HELP)
        .option(port(alloc, SERVE_PORT_HELP))
        .option(number(alloc, CONNECTIONS, "K", CONNECTIONS_HELP, 1, 1_000))
        .option(number(alloc, AT_ONCE, "N", AT_ONCE_HELP, 1, 64))
        .option(number(alloc, IDLE, "SECONDS", IDLE_HELP, 1, 3_600))
        .option(flag(alloc, FOREVER, FOREVER_HELP))
        .option(flag(alloc, VERBOSE, VERBOSE_HELP))
        .option(flag(alloc, EVERYDAY, EVERYDAY_HELP))
        .option(registry(alloc, REGISTRY_HELP))
        .option(named(alloc, JOURNAL, "FILE", JOURNAL_HELP))
        .made
}

/// Declares the command `send`. The first number may be any below 2^63.
fn send<'a>(alloc: Global) -> Result<Command<'a>, AllocError>
    ensures { Makes send_command result }
{
    Builder::new(alloc, SEND, SEND_ABOUT, SEND_HELP)
        .option(port(alloc, SEND_PORT_HELP))
        .option(client(alloc, CLIENT_HELP))
        .option(number(alloc, FIRST, "N", FIRST_HELP, 0, 9_223_372_036_854_775_807))
        .made
}
