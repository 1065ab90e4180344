//! Prints paths, and the reasons why they were skipped. The bytes of a path that is no plain text are in `escapes.rt`.

ghost use Rattle.std.specs.Prelude.{◌≡◌, chars, Some, None, if◌then◌else◌, option_map};
ghost use Rattle.std.specs.Char.{is_control};
ghost use Rattle.std.specs.List.{list_any};
ghost use Rattle.droid_terminal.specs.Paths.{cause_text, is_plain, skipped_text, shown_text};

use crate::escapes::write_escaped;
use droid_frame::Refusal;
use droid_tree::Skipped;
use std::fmt;
use std::fmt::{Display, Formatter, Write};

/// A path. It prints as it is if it is UTF-8 without control characters, and otherwise with escapes.
#[derive(Clone, Copy)]
pub struct Shown<'a>(pub &'a [u8]);

impl Display for Shown<'_> {
    ghost output = { λ shown. Some (shown_text shown.0.now) };

    #[tactic(auto, unfolding(crate::specs::Paths::shown_text))]
    fn fmt<W: Write>(&self, f: &mut Formatter<W>) -> fmt::Result {
        match plain_text(self.0) {
            Some(text) => f.write_str(text),
            None => write_escaped(self.0, f),
        }
    }
}

/// Returns the path as text, or `None` if it is not UTF-8 or has a control character.
fn plain_text(path: &[u8]) -> Option<&str>
    ensures { option_map (λ text. text.now) result ≡ (if is_plain path.now then Some path.now else None) }
{
    let Ok(text) = std::str::from_utf8(path) else {
        return None;
    };
    if has_control(text) {
        return None;
    }
    Some(text)
}

/// Returns whether a text has a control character, which could change what a terminal shows.
fn has_control(text: &str) -> bool
    ensures { result ≡ list_any is_control (chars text.now) }
{
    text.chars().any(|letter| letter.is_control())
}

/// The line on standard error for a skipped entry: its path, and why.
#[derive(Clone, Copy)]
pub(crate) struct SkippedLine<'a> {
    /// The path, which may be invalid UTF-8.
    pub path: &'a [u8],
    /// Why it was skipped.
    pub why: Skipped,
}

impl Display for SkippedLine<'_> {
    ghost output = { λ it. Some (skipped_text (shown_text it.path.now) (cause_text it.why)) };

    fn fmt<W: Write>(&self, f: &mut Formatter<W>) -> fmt::Result {
        writeln!(f, "skipped: {}: {}", Shown(self.path), cause(self.why))
    }
}

/// Returns why an entry was skipped, in words: those of the line on standard error and of the CSV. `cause_text` has the
/// same words, which the prover compares, and tests have most of them. The 4,095 bytes are one less than the 4,096 of
/// `is_too_long` in `entries.rt` of `droid_disk`; the helps have them too.
#[tactic(auto, unfolding(crate::specs::Paths::cause_text))]
pub fn cause(why: Skipped) -> &'static str
    ensures { result.now ≡ cause_text why }
{
    match why {
        Skipped::Link => "it is a symbolic link, which is no part of a profile",
        Skipped::Kind => "neither a folder nor a regular file, or it can't be looked at",
        Skipped::Name => "its name is no UTF-8",
        Skipped::SameName => "same name: its folder lists the name twice",
        Skipped::Unreadable => "it could not be opened or read",
        Skipped::Changed => "it changed while it was read",
        Skipped::OtherHash => "its hash in the profile is another",
        Skipped::Refused(Refusal::BadName) => "its name is too long or can't be in a profile",
        Skipped::Refused(Refusal::PathTooLong) => "with DIR, its path has more than 4,095 bytes",
        Skipped::Refused(Refusal::TooLarge) => "it is too large",
        Skipped::Refused(Refusal::BadOption) => "its modification time is out of range",
        Skipped::Refused(Refusal::LimitReached(_)) => "the profile has no place for more",
        Skipped::Refused(Refusal::NameTaken | Refusal::NumberReused) =>
            "changed since it was submitted",
        Skipped::Refused(_) => "it was refused",
    }
}
