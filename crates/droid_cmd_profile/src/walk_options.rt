//! How the options of `profile` say that a tree is profiled.

ghost use Rattle.std.specs.Prelude.{◌≡◌, ◌≤◌};
ghost use Rattle.droid_cmd_profile.specs.WalkOptions.{walk_options};

use droid_arguments::ProfileOptions;
use droid_profile::Options;

/// How many bytes at each end of a file are searched at most. The command line allows as many (`option.rt` of
/// `droid_arguments`), which only this line ties; `write_profile` and `profile_tree` require no more, and the
/// definition `walk_options` has the same number: the prover ties these. `droid_cmd_verify` and `droid_cmd_identify`
/// have their own.
const MOST_SCANNED: u32 = 65_536;

/// Returns how the tree is profiled. A limit above the most, which the command line refuses, becomes the most.
pub(crate) fn walk_options(options: ProfileOptions<'_>) -> Options
    ensures options { result ≡ walk_options options.entry }
    ensures within { result.scan_limit ≤ 65536 }
{
    Options {
        scan_limit: options.limit.min(MOST_SCANNED),
        match_all: options.match_all,
        hash: options.hash,
    }
}
