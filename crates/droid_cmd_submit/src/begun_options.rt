//! How the options that a submission was begun with differ from those given now, and the words for that.
//!
//! The service was asked for them by `options_of` of `droid_remote`. `tests/program/submissions/submit_begun.py` has
//! each pair of options and the whole sentence.

ghost use Rattle.std.specs.Prelude.{◌≡◌, false, true};
ghost use Rattle.droid_cmd_submit.specs.BegunOptions.{begun_of, begun_words, both_words, differing, matching_words};
ghost use Rattle.droid_cmd_submit.specs.BegunOptions.{same_hash, same_truth, with_hash};

use droid_frame::HashKind;
use droid_upload::Options;

/// The options that a submission was begun with, as far as they differ from those given now.
#[derive(Clone, Copy)]
pub enum BegunOptions {
    /// Another `--hash`: this one.
    OtherHash(HashKind),
    /// With `--match-all`, or without it.
    OtherMatching(bool),
    /// Both.
    OtherHashAndMatching(HashKind, bool),
    /// Another `--limit`.
    OtherLimit,
}

/// Returns which options differ. `begun` are the options with which the service takes the submission, or `None` if it
/// takes none of those that were tried: then only the limit is left. Returns `None` if nothing differs.
pub(crate) fn begun_of(given: Options, begun: Option<Options>) -> Option<BegunOptions>
    ensures { result ≡ begun_of given begun }
{
    let Some(begun) = begun else {
        return Some(BegunOptions::OtherLimit);
    };
    let hash = same_hash(given.hash, begun.hash);
    let matching = same_truth(given.match_all, begun.match_all);
    differing(hash, matching, begun)
}

/// Returns which of hash and matching differ from what the submission was begun with, or `None` if neither does. `hash`
/// and `matching` are true where it is the same now.
fn differing(hash: bool, matching: bool, begun: Options) -> Option<BegunOptions>
    ensures { result ≡ differing hash matching begun }
{
    match (hash, matching) {
        (false, true) => Some(BegunOptions::OtherHash(begun.hash)),
        (true, false) => Some(BegunOptions::OtherMatching(begun.match_all)),
        (false, false) => Some(BegunOptions::OtherHashAndMatching(begun.hash, begun.match_all)),
        (true, true) => None,
    }
}

/// Returns whether two kinds of hash are the same.
fn same_hash(given: HashKind, begun: HashKind) -> bool
    ensures { result ≡ same_hash given begun }
{
    match (given, begun) {
        (HashKind::Nothing, HashKind::Nothing) => true,
        (HashKind::Md5, HashKind::Md5) => true,
        (HashKind::Sha256, HashKind::Sha256) => true,
        _ => false,
    }
}

/// Returns whether `match_all` is the same in both.
fn same_truth(given: bool, begun: bool) -> bool
    ensures { result ≡ same_truth given begun }
{
    if given { begun } else { !begun }
}

impl BegunOptions {
    /// Returns the options that the submission was begun with as they are typed, behind `with` or `without`. They stand
    /// in the fault's sentence.
    pub(crate) fn words(self) -> &'static str
        ensures { result.now ≡ begun_words self }
    {
        match self {
            BegunOptions::OtherHash(hash) => hash_words(hash),
            BegunOptions::OtherMatching(match_all) => matching_words(match_all),
            BegunOptions::OtherHashAndMatching(hash, true) => words_with_all(hash),
            BegunOptions::OtherHashAndMatching(hash, false) => words_without(hash),
            BegunOptions::OtherLimit => "with another --limit",
        }
    }
}

/// Returns `with` and the option for this kind of hash.
fn hash_words(hash: HashKind) -> &'static str
    ensures { result.now ≡ with_hash hash }
{
    match hash {
        HashKind::Nothing => "with --hash none",
        HashKind::Md5 => "with --hash md5",
        HashKind::Sha256 => "with --hash sha256",
    }
}

/// Returns the option `--match-all` behind `with`, or behind `without`.
fn matching_words(match_all: bool) -> &'static str
    ensures { result.now ≡ matching_words match_all }
{
    if match_all {
        "with --match-all"
    } else {
        "without --match-all"
    }
}

/// Returns the option for this kind of hash, and `--match-all`, both behind `with`.
fn words_with_all(hash: HashKind) -> &'static str
    ensures { result.now ≡ both_words hash true }
{
    match hash {
        HashKind::Nothing => "with --hash none and with --match-all",
        HashKind::Md5 => "with --hash md5 and with --match-all",
        HashKind::Sha256 => "with --hash sha256 and with --match-all",
    }
}

/// Returns the option for this kind of hash behind `with`, and `--match-all` behind `without`.
fn words_without(hash: HashKind) -> &'static str
    ensures { result.now ≡ both_words hash false }
{
    match hash {
        HashKind::Nothing => "with --hash none and without --match-all",
        HashKind::Md5 => "with --hash md5 and without --match-all",
        HashKind::Sha256 => "with --hash sha256 and without --match-all",
    }
}
