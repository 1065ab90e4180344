//! Which entries no profile can have, and why each is skipped.

ghost use Rattle.std.specs.Prelude.{◌≡◌, None, Some, nat_lt, length, MatchOption};
ghost use Rattle.droid_frame.specs.declared.refusal.Refusal.{Refusal};
ghost use Rattle.droid_tree.specs.Paths.{below};
ghost use Rattle.droid_tree.specs.declared.skip_reason.Skipped.TheVariants.{Refused};
ghost use Rattle.droid_profile.specs.Kids.{IsNode, entry_refusal};
ghost use Rattle.droid_profile.specs.StepsTaken.{IsSkipped};

use droid_core_spec::{is_bad_name, is_moment};
use droid_frame::Refusal;
use droid_tree::{EntryKind, FolderEntry, Skipped};

/// Returns why this entry of the folder at `path` is skipped, if it is no folder or file, or none that a profile can
/// have. `None` for an entry that is taken. `name` is the entry's name as text.
pub(crate) fn skip_reason(path: &str, name: &str, entry: &FolderEntry) -> Option<Skipped>
    requires { name.now ≡ entry.now.name }
    ensures { MatchOption result (IsNode entry.now.kind × (entry_refusal path.now entry.now ≡ None)) (λ why.
        IsSkipped path.now entry.now why) }
{
    match entry.kind {
        EntryKind::Link => Some(Skipped::Link),
        EntryKind::Other => Some(Skipped::Kind),
        EntryKind::TooLong => Some(Skipped::Refused(Refusal::PathTooLong)),
        EntryKind::Folder | EntryKind::File => as_skipped(entry_refusal(path, name, entry)),
    }
}

/// Returns the reason to skip what is refused, or `None` if it is not.
fn as_skipped(refusal: Option<Refusal>) -> Option<Skipped>
    ensures { MatchOption result (refusal ≡ None) (λ why.
        (its : Refusal) × (refusal ≡ Some its) × (why ≡ Refused its)) }
{
    match refusal {
        Some(refusal) => Some(Skipped::Refused(refusal)),
        None => None,
    }
}

/// Returns why no profile can have this entry of the folder at this path, as a service would refuse it: its name, its
/// path or its time, the first of these that is wrong.
fn entry_refusal(path: &str, name: &str, entry: &FolderEntry) -> Option<Refusal>
    requires { name.now ≡ entry.now.name }
    ensures { result ≡ entry_refusal path.now entry.now }
{
    if is_bad_name(name) {
        return Some(Refusal::BadName);
    }
    if is_too_long(path, name) {
        return Some(Refusal::PathTooLong);
    }
    if !is_moment(entry.modified) {
        return Some(Refusal::BadOption);
    }
    None
}

/// Returns whether the path of this name in the folder, with the `/` between both, has more than 4,096 bytes.
fn is_too_long(path: &str, name: &str) -> bool
    ensures { result ≡ nat_lt 4096 (length (below path.now name.now)) }
{
    match path.len().checked_add(1) {
        Some(front) => name.len() > 4_096_usize.saturating_sub(front) || front > 4_096,
        None => true,
    }
}
