//! The command `compact`: its options, and what they ask for.

ghost use Rattle.std.specs.Prelude.{codes};
ghost use Rattle.clap.specs.Words.{found_of, rows_of};
ghost use Rattle.droid_arguments.specs.Asking.{IsAskedBy};
ghost use Rattle.droid_arguments.specs.Commands.{compact_command};
ghost use Rattle.droid_arguments.specs.Made.{Makes};
ghost use Rattle.droid_arguments.specs.Values.{Reads};

use crate::arguments::Asked;
use crate::builder::Builder;
use crate::helps::compaction_help::{
    COMPACT_ABOUT, COMPACT_HELP, COMPACT_QUIET_HELP, JOURNAL_FILE_HELP,
};
use crate::helps::help::{EVERYDAY_HELP, REGISTRY_HELP};
use crate::option::{flag, registry, word};
use crate::profile::QUIET;
use crate::source::{EVERYDAY, source_of};
use crate::value::flag_of;
use clap::{ArgMatches, Command};
use std::alloc::{AllocError, Global};

// The names of the command and of its word.
pub(crate) const COMPACT: &str = "compact";

const FILE: &str = "file";

/// Returns what the options of `compact` ask for, or `None` if they name two registries.
pub(crate) fn compact_asked<'a>(compact: &ArgMatches<'a>) -> Option<Asked<'a>>
    ensures { Reads result (IsAskedBy (codes "compact") (rows_of (found_of compact.now))) }
{
    let registry = source_of(compact)?;
    let file = compact.get_str(FILE)?;
    let quiet = flag_of(compact, QUIET);
    Some(Asked::Compact {
        registry,
        file,
        quiet,
    })
}

/// Declares the command `compact`: the journal's path, the registry that it was written with, and `--quiet`.
pub(crate) fn compact<'a>(alloc: Global) -> Result<Command<'a>, AllocError>
    ensures { Makes compact_command result }
{
    Builder::new(alloc, COMPACT, COMPACT_ABOUT, COMPACT_HELP)
        .option(word(alloc, FILE, "FILE", JOURNAL_FILE_HELP))
        .option(flag(alloc, EVERYDAY, EVERYDAY_HELP))
        .option(registry(alloc, REGISTRY_HELP))
        .option(flag(alloc, QUIET, COMPACT_QUIET_HELP))
        .made
}
