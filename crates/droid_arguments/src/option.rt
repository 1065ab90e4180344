//! Declares options and words: those that several commands have, and each kind, by its name. `value` is what the help
//! calls the value. The clause `local` says that the option is one of its command alone, `rule` which values it takes.
//! The help texts are held by no clause, but by `tests/program/cases`.

ghost use Rattle.std.specs.Prelude.{◌≡◌, false};
ghost use Rattle.clap.specs.Words.{rule_of};
ghost use Rattle.droid_arguments.specs.Rules.{client_option, flag_named, folder_word, limit_option, number_named};
ghost use Rattle.droid_arguments.specs.Rules.{option_named, port_option, registry_option, word_named};

use clap::builder::ValueParser;
use clap::{Arg, ArgAction};
use std::alloc::Global;

// The names of the options and words that several commands have.
pub const REGISTRY: &str = "registry";

pub const PORT: &str = "port";

pub const CLIENT: &str = "client";

pub const FOLDER: &str = "folder";

pub const LIMIT: &str = "limit";

/// The help text of the limit. Its numbers are those in `limit` and `DEFAULT_LIMIT`; nothing but this line ties them.
const LIMIT_HELP: &str = "Search this many bytes at each end of a file (1 to 65536, default 65536)";

/// Makes the option `--registry FILE` for the registry file.
pub fn registry<'a>(alloc: Global, help: &'a str) -> Arg<'a>
    ensures rule { rule_of result ≡ registry_option }
    ensures local { result.global ≡ false }
{
    Arg::new(alloc, REGISTRY)
        .long(REGISTRY)
        .value_name("FILE")
        .help(help)
        .action(ArgAction::Set)
}

/// Makes the option `--port P`, which must be given: 1 to 65,535.
pub fn port<'a>(alloc: Global, help: &'a str) -> Arg<'a>
    ensures rule { rule_of result ≡ port_option }
    ensures local { result.global ≡ false }
{
    number(alloc, PORT, "P", help, 1, 65_535).required(true)
}

/// Makes the option `--client C`, which must be given: any number of 32 bits.
pub fn client<'a>(alloc: Global, help: &'a str) -> Arg<'a>
    ensures rule { rule_of result ≡ client_option }
    ensures local { result.global ≡ false }
{
    number(alloc, CLIENT, "C", help, 0, 4_294_967_295).required(true)
}

/// Makes the word `DIR` for the folder, which must be given.
pub fn folder<'a>(alloc: Global, help: &'a str) -> Arg<'a>
    ensures rule { rule_of result ≡ folder_word }
    ensures local { result.global ≡ false }
{
    word(alloc, FOLDER, "DIR", help)
}

/// Makes a word that stands by itself and must be given, such as the path of a file.
pub fn word<'a>(alloc: Global, name: &'a str, value: &'a str, help: &'a str) -> Arg<'a>
    ensures rule { rule_of result ≡ word_named name.entry.now }
    ensures local { result.global ≡ false }
{
    Arg::new(alloc, name)
        .value_name(value)
        .help(help)
        .action(ArgAction::Set)
        .required(true)
}

/// Makes the option `--limit BYTES`: how many bytes at each end of a file are searched.
pub fn limit<'a>(alloc: Global) -> Arg<'a>
    ensures rule { rule_of result ≡ limit_option }
    ensures local { result.global ≡ false }
{
    number(alloc, LIMIT, "BYTES", LIMIT_HELP, 1, 65_536)
}

/// Makes an option `--NAME VALUE` with any text as its value.
pub fn named<'a>(alloc: Global, name: &'a str, value: &'a str, help: &'a str) -> Arg<'a>
    ensures rule { rule_of result ≡ option_named name.entry.now }
    ensures local { result.global ≡ false }
{
    Arg::new(alloc, name)
        .long(name)
        .value_name(value)
        .help(help)
        .action(ArgAction::Set)
}

/// Makes an option `--NAME` without a value, which `flag_of` reads.
pub fn flag<'a>(alloc: Global, name: &'a str, help: &'a str) -> Arg<'a>
    ensures rule { rule_of result ≡ flag_named name.entry.now }
    ensures local { result.global ≡ false }
{
    Arg::new(alloc, name)
        .long(name)
        .help(help)
        .action(ArgAction::SetTrue)
}

/// Makes an option `--NAME VALUE` with a number from `least` to `most`. `clap` refuses any other value.
pub fn number<'a>(
    alloc: Global,
    name: &'a str,
    value: &'a str,
    help: &'a str,
    least: u64,
    most: u64,
) -> Arg<'a>
    ensures rule { rule_of result ≡ number_named name.entry.now least most }
    ensures local { result.global ≡ false }
{
    Arg::new(alloc, name)
        .long(name)
        .value_name(value)
        .help(help)
        .value_parser(ValueParser::Unsigned(least, most))
        .action(ArgAction::Set)
}
