//! Why a file is not identified, in words.

ghost use Rattle.std.specs.Prelude.{◌≡◌};
ghost use Rattle.droid_cmd_identify.specs.Reasons.{reason_text};

use droid_terminal::cause;
use droid_tree::Skipped;

/// What is said of a name that is empty.
pub(crate) const EMPTY_NAME: &str = "a name is empty";

/// What is said of a path that is longer than the system takes. The number is `PATH_LIMIT` of `machine.rt`; nothing but
/// this line ties the two.
pub(crate) const TOO_LONG: &str = "its path has more than 4,095 bytes";

/// What is said of a folder whose files are not asked for.
pub(crate) const FOLDER: &str = "it is a folder: --recursive identifies the files in it";

/// What is said of a path at which nothing can be looked at.
pub(crate) const MISSING: &str = "there is no such file, or it can't be looked at";

/// What is said of standard input that can't be read.
pub(crate) const NO_INPUT: &str = "it could not be read";

/// What is said of a list that can't be read.
pub(crate) const NO_LIST: &str = "the list could not be opened or read";

/// Returns why a file or an entry of a folder was skipped, in words: in those of the other commands, but for a link,
/// which they call no part of a profile.
pub(crate) fn reason(why: Skipped) -> &'static str
    ensures { result.now ≡ reason_text why }
{
    match why {
        Skipped::Link => "it is a symbolic link, which is not followed",
        Skipped::Kind => cause(why),
        Skipped::Name => cause(why),
        Skipped::SameName => cause(why),
        Skipped::Refused(_) => cause(why),
        Skipped::Unreadable => cause(why),
        Skipped::Changed => cause(why),
        Skipped::OtherHash => cause(why),
    }
}
