//! The command `identify`: its options, what they ask for, and the files that its words name.

ghost use Rattle.std.specs.Prelude.{◌≡◌, ◌&&◌, ◌==◌, not, [], IfErr, IfOk, codes, false, is_some, map, option_map};
ghost use Rattle.std.specs.Prelude.{count_by, string_bytes, true, unwrap_or};
ghost use Rattle.clap.specs.Words.{app_of, found_of, is_simple, is_simple_and_free, rows_of, rule_of, subcommand_of};
ghost use Rattle.droid_arguments.specs.Asking.{FailsFaulty, IsAskedBy, RefusesFaulty};
ghost use Rattle.droid_arguments.specs.Commands.{files_word, identify_command, program};
ghost use Rattle.droid_arguments.specs.Rules.{short_flag_named};
ghost use Rattle.droid_arguments.specs.Identifying.{IsHashOrNone, IsIdentify, NamesFiles, dashes, files_in, form_of};
ghost use Rattle.droid_arguments.specs.Identifying.{is_dash, is_input, is_lines, misfits, reads_twice};
ghost use Rattle.droid_arguments.specs.Made.{Makes};
ghost use Rattle.droid_arguments.specs.Values.{Reads};

use crate::arguments::{Asked, NO_SUCH_HASH, TWO_REGISTRIES, command};
use crate::builder::Builder;
use crate::helps::identify_help::{
    CSV_HELP, FILES_FROM_HELP, FILES_HELP, IDENTIFY_ABOUT, IDENTIFY_HASH_HELP, IDENTIFY_HELP,
    IDENTIFY_NAME_HELP, JSON_HELP, JSON_SF_HELP, NULL_HELP, PUID_HELP, RECURSIVE_HELP, WHY_HELP,
};
use crate::helps::profile_help::{MATCH_ALL_HELP, OWN_REGISTRY_HELP};
use crate::helps::verify_help::OWN_EVERYDAY_HELP;
use crate::no_command::{NoCommand, unused_words};
use crate::option::{LIMIT, REGISTRY, flag, limit, named, registry};
use crate::profile::{DEFAULT_LIMIT, HASH, MATCH_ALL};
use crate::source::EVERYDAY;
use crate::value::{flag_of, hash_of};
use crate::verify::names_two;
use clap::{Arg, ArgAction, ArgMatches, Command, Error};
use droid_frame::HashKind;
use std::alloc::{AllocError, Global};

// The names of the command, of its words and of its options.
pub(crate) const IDENTIFY: &str = "identify";

const FILES: &str = "file";

const RECURSIVE: &str = "recursive";

const FILES_FROM: &str = "files-from";

const NULL: &str = "null";

const NAME: &str = "name";

const CSV: &str = "csv";

const JSON: &str = "json";

const JSON_SF: &str = "json-sf";

const PUID: &str = "puid";

const WHY: &str = "why";

// The errors for options that do not fit together. `misfit_of` returns the last five.
const TWO_FORMS: &str =
    "of the options '--csv', '--json', '--json-sf' and '--puid' only one can be used";

const NO_FILE: &str = "name a FILE, or a list of files by '--files-from <LIST>'";

const NO_LIST: &str = "the option '--null' needs '--files-from <LIST>'";

const NO_INPUT: &str = "the option '--name <NAME>' needs the FILE '-'";

const ONE_INPUT: &str = "standard input can be read only once: name '-' once";

const WHY_BESIDE: &str =
    "the option '--why <PUID>' cannot be used with '--csv', '--json', '--json-sf' or '--puid'";

/// How what is said of the files is printed.
#[derive(Clone, Copy)]
pub enum IdentifyForm {
    /// A line for each format.
    Lines,
    /// The PUIDs alone.
    Puids,
    /// CSV.
    Csv,
    /// A line of JSON for each file.
    Json,
    /// One document of JSON, in the shape that Siegfried writes.
    Siegfried,
}

/// How files are identified. [`named_files`] returns which.
#[derive(Clone, Copy)]
pub struct IdentifyOptions<'a> {
    /// Whether the files in the named folders are identified too.
    pub recursive: bool,
    /// The path of a list of files, or `-` for standard input.
    pub list: Option<&'a str>,
    /// Whether a zero byte ends each name of the list, and not a line feed.
    pub zero: bool,
    /// The name of the file whose bytes come from standard input.
    pub name: Option<&'a str>,
    /// The path of the registry file, or `None` for the built-in registry of everyday formats.
    pub registry: Option<&'a str>,
    /// How many bytes at each end of a file are searched for signatures: 1 to 65,536.
    pub limit: u32,
    /// Whether extensions also count for formats that have signatures, where no signature matches.
    pub match_all: bool,
    /// Which hash the files get.
    pub hash: HashKind,
    /// How what is said of the files is printed.
    pub form: IdentifyForm,
    /// The format of which is said why a file does not have it.
    pub why: Option<&'a str>,
}

/// Returns what the options of `identify` ask for, or `None` if they ask for nothing that can be done.
pub(crate) fn identify_asked<'a>(identify: &ArgMatches<'a>) -> Option<Asked<'a>>
    ensures { Reads result (IsAskedBy (codes "identify") (rows_of (found_of identify.now))) }
{
    let options = identify_options(identify)?;
    Some(Asked::Identify(options))
}

/// Reads the options of `identify`. `None`: two registries or two forms are named, the hash has an unknown name, or
/// words and options do not fit together; `mistake_in_identify` has a text for each.
fn identify_options<'a>(identify: &ArgMatches<'a>) -> Option<IdentifyOptions<'a>>
    ensures { Reads result (IsIdentify (rows_of (found_of identify.now))) }
{
    let recursive = flag_of(identify, RECURSIVE);
    let list = identify.get_str(FILES_FROM);
    let zero = flag_of(identify, NULL);
    let name = identify.get_str(NAME);
    let registry = identify.get_str(REGISTRY);
    let everyday = flag_of(identify, EVERYDAY);
    if names_two(everyday, registry) {
        return None;
    }
    let limit = identify.get_one(LIMIT).unwrap_or(DEFAULT_LIMIT);
    let match_all = flag_of(identify, MATCH_ALL);
    let hash_word = identify.get_str(HASH);
    let hash = hash_or_none(hash_word)?;
    let csv = flag_of(identify, CSV);
    let json = flag_of(identify, JSON);
    let siegfried = flag_of(identify, JSON_SF);
    let puid = flag_of(identify, PUID);
    let form = form_of(csv, json, siegfried, puid)?;
    let why = identify.get_str(WHY);
    let files = files_of(identify);
    let inputs = dashes(files);
    if misfits(files.len(), inputs, list, zero, name, why, form) {
        return None;
    }
    Some(IdentifyOptions {
        recursive,
        list,
        zero,
        name,
        registry,
        limit,
        match_all,
        hash,
        form,
        why,
    })
}

/// Reads the name of a hash, as `hash_of` does. But without a name there is no hash, where other commands take MD5.
fn hash_or_none(word: Option<&str>) -> Option<HashKind>
    ensures { Reads result (IsHashOrNone (option_map (λ text. text.now) word.entry)) }
{
    match word {
        Some(_) => hash_of(word),
        None => Some(HashKind::Nothing),
    }
}

/// Returns the form that the four flags name: lines without one, and `None` by two or more.
fn form_of(csv: bool, json: bool, siegfried: bool, puid: bool) -> Option<IdentifyForm>
    ensures { result ≡ form_of csv json siegfried puid }
{
    match (csv, json, siegfried, puid) {
        (false, false, false, false) => Some(IdentifyForm::Lines),
        (true, false, false, false) => Some(IdentifyForm::Csv),
        (false, true, false, false) => Some(IdentifyForm::Json),
        (false, false, true, false) => Some(IdentifyForm::Siegfried),
        (false, false, false, true) => Some(IdentifyForm::Puids),
        _ => None,
    }
}

/// Returns the files that the words name, in their order: none if all files are those of a list.
fn files_of<'b, 'a>(identify: &'b ArgMatches<'a>) -> &'b [&'a str]
    ensures { map (λ file. file.now) result.now ≡ files_in (rows_of (found_of identify.now)) }
{
    let files = identify.get_strs(FILES);
    files_or_none(files)
}

/// Returns the files that `clap` found, or an empty slice if it found no such word.
fn files_or_none<'b, 'a>(files: Option<&'b [&'a str]>) -> &'b [&'a str]
    ensures { map (λ file. file.now) result.now
        ≡ unwrap_or (option_map (λ names. map (λ file. file.now) names.now) files.entry) [] }
{
    match files {
        Some(files) => files,
        None => &[],
    }
}

/// Returns how many of the files are `-`, standard input.
fn dashes(files: &[&str]) -> usize
    ensures { result ≡ dashes (map (λ file. file.now) files.now) }
{
    count_dashes(files)
}

/// Counts the files that are `-`, for `dashes`. The clause is over the files themselves, as the iterator has it; that
/// of `dashes` is over their texts.
fn count_dashes(files: &[&str]) -> usize
    ensures { result ≡ count_by (λ file. is_dash file.now) files.now }
{
    files.iter().filter(|file| is_dash(**file)).count()
}

/// Returns whether a name stands for standard input.
fn is_dash(name: &str) -> bool
    ensures { result ≡ is_dash name.now }
{
    name == "-"
}

/// Returns whether these words and options can't be used together: how many files are named, how many of them are `-`,
/// the path of a list, whether zero bytes end its names, the name of standard input, the format of `--why`, and the
/// form.
#[tactic(auto, unfolding(crate::specs::Identifying::misfits))]
fn misfits(
    files: usize,
    inputs: usize,
    list: Option<&str>,
    zero: bool,
    name: Option<&str>,
    why: Option<&str>,
    form: IdentifyForm,
) -> bool
    ensures { result
        ≡ misfits files inputs (option_map (λ text. text.now) list.entry) zero
        (option_map (λ text. text.now) name.entry) (option_map (λ text. text.now) why.entry) form }
{
    names_nothing(files, list)
        || has_no_list(zero, list)
        || names_no_input(name, inputs)
        || reads_twice(inputs, list)
        || asks_why_beside(why, form)
}

/// Returns whether an option has a value.
fn is_given(value: Option<&str>) -> bool
    ensures { result ≡ is_some (option_map (λ text. text.now) value.entry) }
{
    match value {
        Some(_) => true,
        None => false,
    }
}

/// Returns whether no file is named and no list of files, so that there is nothing to identify.
fn names_nothing(files: usize, list: Option<&str>) -> bool
    ensures { result ≡ (files == 0 && not (is_some (option_map (λ text. text.now) list.entry))) }
{
    files == 0 && !is_given(list)
}

/// Returns whether `--null` says how the names of a list end, and there is no list.
fn has_no_list(zero: bool, list: Option<&str>) -> bool
    ensures { result ≡ (zero && not (is_some (option_map (λ text. text.now) list.entry))) }
{
    zero && !is_given(list)
}

/// Returns whether `--name` names the bytes of standard input, and no file is `-`.
fn names_no_input(name: Option<&str>, inputs: usize) -> bool
    ensures { result ≡ (is_some (option_map (λ text. text.now) name.entry) && inputs == 0) }
{
    is_given(name) && inputs == 0
}

/// Returns whether standard input is asked for twice: by two files `-`, or by one beside a list `-`.
fn reads_twice(inputs: usize, list: Option<&str>) -> bool
    ensures { result ≡ reads_twice inputs (option_map (λ text. text.now) list.entry) }
{
    inputs > 1 || (is_input(list) && inputs > 0)
}

/// Returns whether there is a list and it is `-`, standard input.
fn is_input(list: Option<&str>) -> bool
    ensures { result ≡ is_input (option_map (λ text. text.now) list.entry) }
{
    match list {
        Some(list) => is_dash(list),
        None => false,
    }
}

/// Returns whether `--why` asks why a file does not have a format, and the output is not lines.
fn asks_why_beside(why: Option<&str>, form: IdentifyForm) -> bool
    ensures { result ≡ (is_some (option_map (λ text. text.now) why.entry) && not (is_lines form)) }
{
    is_given(why) && !is_lines(form)
}

/// Returns whether the output is lines: only these have a place for the reason.
fn is_lines(form: IdentifyForm) -> bool
    ensures { result ≡ is_lines form }
{
    match form {
        IdentifyForm::Lines => true,
        IdentifyForm::Puids => false,
        IdentifyForm::Csv => false,
        IdentifyForm::Json => false,
        IdentifyForm::Siegfried => false,
    }
}

/// Says what is wrong with options for which `identify_options` is `None`. Without a contract: each text is tested.
pub(crate) fn mistake_in_identify(identify: &ArgMatches<'_>) -> &'static str {
    if names_two(flag_of(identify, EVERYDAY), identify.get_str(REGISTRY)) {
        return TWO_REGISTRIES;
    }
    if hash_or_none(identify.get_str(HASH)).is_none() {
        return NO_SUCH_HASH;
    }
    let csv = flag_of(identify, CSV);
    let json = flag_of(identify, JSON);
    let siegfried = flag_of(identify, JSON_SF);
    if form_of(csv, json, siegfried, flag_of(identify, PUID)).is_none() {
        return TWO_FORMS;
    }
    misfit_of(identify)
}

/// Says which words and options can't be used together, in the order in which [`misfits`] asks. Without a contract too.
fn misfit_of(identify: &ArgMatches<'_>) -> &'static str {
    let files = files_of(identify);
    let inputs = dashes(files);
    let list = identify.get_str(FILES_FROM);
    if names_nothing(files.len(), list) {
        return NO_FILE;
    }
    if has_no_list(flag_of(identify, NULL), list) {
        return NO_LIST;
    }
    if names_no_input(identify.get_str(NAME), inputs) {
        return NO_INPUT;
    }
    if reads_twice(inputs, list) {
        return ONE_INPUT;
    }
    WHY_BESIDE
}

/// Returns the files that the words of a command line name if they ask for `identify`, and none for another command.
/// The words are those of [`what_is_asked`](crate::what_is_asked).
pub fn named_files<'a>(alloc: Global, words: &'a [String]) -> Result<Vec<&'a str>, NoCommand>
    ensures files { IfOk result (NamesFiles (subcommand_of program (map string_bytes words.entry.now))) }
    // Valid words are not refused.
    ensures refused { IfErr result (RefusesFaulty (map string_bytes words.entry.now)) }
{
    match files_by_program(alloc, words) {
        Ok(files) => Ok(files),
        Err(error) => Err(unused_words(error)),
    }
}

/// Does what [`named_files`] does, with an error of `clap`: makes the program's command and reads the words by it.
fn files_by_program<'a>(alloc: Global, words: &'a [String]) -> Result<Vec<&'a str>, Error>
    ensures files { IfOk result (NamesFiles (subcommand_of program (map string_bytes words.entry.now))) }
    ensures refused { IfErr result (FailsFaulty program (map string_bytes words.entry.now)) }
{
    let mut command = command(alloc)?;
    files_by(alloc, &mut command, words)
}

/// Reads the words by a command, and copies the list of files. Fails if they do not match it or memory runs out.
/// `is_simple` and `is_simple_and_free` are the kit's conditions on a command, which the program's meets.
fn files_by<'a>(
    alloc: Global,
    command: &mut Command<'a>,
    words: &'a [String],
) -> Result<Vec<&'a str>, Error>
    ensures files { is_simple (app_of command.old) ≡ true
        → IfOk result (NamesFiles (subcommand_of (app_of command.old) (map string_bytes words.entry.now))) }
    ensures refused { is_simple_and_free (app_of command.old) ≡ true
        → IfErr result (FailsFaulty (app_of command.old) (map string_bytes words.entry.now)) }
{
    let matches = command.try_get_matches_from_mut(words)?;
    match matches.subcommand_matches(IDENTIFY) {
        Some(identify) => {
            let files = copy_of(alloc, files_of(identify))?;
            Ok(files)
        }
        None => Ok(Vec::new(alloc)),
    }
}

/// Copies the list of files, not their names, which are those of the words. Fails only if memory runs out.
fn copy_of<'a>(alloc: Global, files: &[&'a str]) -> Result<Vec<&'a str>, AllocError>
    ensures { IfOk result (λ copy. copy.items ≡ files.now) }
{
    let mut copy = Vec::new(alloc);
    copy.extend_from_slice(files)?;
    Ok(copy)
}

/// Declares the command `identify`: the rules are those of `identify_command`, in its order, which is that of the help.
pub(crate) fn identify<'a>(alloc: Global) -> Result<Command<'a>, AllocError>
    ensures { Makes identify_command result }
{
    Builder::new(alloc, IDENTIFY, IDENTIFY_ABOUT, IDENTIFY_HELP)
        .option(files(alloc))
        .option(short_flag(alloc, RECURSIVE, 'r', RECURSIVE_HELP))
        .option(named(alloc, FILES_FROM, "LIST", FILES_FROM_HELP))
        .option(short_flag(alloc, NULL, '0', NULL_HELP))
        .option(named(alloc, NAME, "NAME", IDENTIFY_NAME_HELP))
        .option(flag(alloc, PUID, PUID_HELP))
        .option(flag(alloc, CSV, CSV_HELP))
        .option(flag(alloc, JSON, JSON_HELP))
        .option(flag(alloc, JSON_SF, JSON_SF_HELP))
        .option(named(alloc, WHY, "PUID", WHY_HELP))
        .option(named(alloc, HASH, "HASH", IDENTIFY_HASH_HELP))
        .option(registry(alloc, OWN_REGISTRY_HELP))
        .option(flag(alloc, EVERYDAY, OWN_EVERYDAY_HELP))
        .option(limit(alloc))
        .option(flag(alloc, MATCH_ALL, MATCH_ALL_HELP))
        .made
}

/// Makes the words `FILE`: any number of them, or none.
fn files<'a>(alloc: Global) -> Arg<'a>
    ensures rule { rule_of result ≡ files_word }
    ensures local { result.global ≡ false }
{
    Arg::new(alloc, FILES)
        .value_name("FILE")
        .help(FILES_HELP)
        .num_args(0..)
        .action(ArgAction::Append)
}

/// Makes an option without a value that has a short name too, as `-r`. No other command has such.
fn short_flag<'a>(alloc: Global, name: &'a str, short: char, help: &'a str) -> Arg<'a>
    ensures rule { rule_of result ≡ short_flag_named name.entry.now short }
    ensures local { result.global ≡ false }
{
    flag(alloc, name, help).short(short)
}
