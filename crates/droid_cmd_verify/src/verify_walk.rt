//! How the options of `verify` say that a tree is walked.

ghost use Rattle.std.specs.Prelude.{◌≡◌, ◌≤◌};
ghost use Rattle.droid_cmd_verify.specs.WalkOptions.{walk_options};

use droid_frame::HashKind;
use droid_profile::Options;

/// How many bytes at each end of a file are searched at most. The command line allows as many (`option.rt` of
/// `droid_arguments`), which only this line ties. The clauses of `verification.rt`, `tree_check.rt` and
/// `listing_check.rt` and the walk require no more, and the definition `walk_options` has the same number: the prover
/// ties these. `droid_cmd_profile` has its own.
const MOST_SCANNED: u32 = 65_536;

/// Returns how the tree is walked. If formats are not compared (`identify`), a file is searched as little as can be, at
/// one byte of each end. The hash is chosen later, by the list: `options_for` puts its kind in.
pub(crate) fn walk_options(identify: bool, limit: u32, match_all: bool) -> Options
    ensures options { result ≡ walk_options identify limit match_all }
    ensures within { result.scan_limit ≤ 65536 }
{
    if identify {
        Options {
            scan_limit: limit.min(MOST_SCANNED),
            match_all,
            hash: HashKind::Nothing,
        }
    } else {
        Options {
            scan_limit: 1,
            match_all: false,
            hash: HashKind::Nothing,
        }
    }
}
