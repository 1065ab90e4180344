//! Reads the values of options: the name of a hash, and whether a flag is set.

ghost use Rattle.std.specs.Prelude.{option_map};
ghost use Rattle.clap.specs.Words.{found_of, one_of, rows_of};
ghost use Rattle.droid_arguments.specs.Values.{IsFlag, IsHash, Reads};

use clap::ArgMatches;
use droid_frame::HashKind;

/// Reads the name of a hash: `md5`, `sha256` or `none`. Without a name the hash is MD5. `None`: the name is another.
pub fn hash_of(word: Option<&str>) -> Option<HashKind>
    ensures { Reads result (IsHash (option_map (λ text. text.now) word.entry)) }
{
    let Some(word) = word else {
        return Some(HashKind::Md5);
    };
    if word == "md5" {
        return Some(HashKind::Md5);
    }
    if word == "sha256" {
        return Some(HashKind::Sha256);
    }
    if word == "none" {
        return Some(HashKind::Nothing);
    }
    None
}

/// Returns whether the flag of this name is set. One that is not given is not.
pub fn flag_of(matches: &ArgMatches<'_>, name: &str) -> bool
    ensures { IsFlag (one_of name.now (rows_of (found_of matches.now))) result }
{
    matches.get_one(name).unwrap_or(false)
}
