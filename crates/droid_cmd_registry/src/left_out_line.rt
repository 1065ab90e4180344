//! The line of one thing that a registry does not have: of which format, what it is, and why.

ghost use Rattle.std.specs.Prelude.{◌≡◌, Some, option_copied, option_map};
ghost use Rattle.droid_cmd_registry.specs.Reports.{extension_by, extension_text, format_at, item_text, left_text};
ghost use Rattle.droid_cmd_registry.specs.Reports.{subject, subject_by};

use crate::reasons::why_sentence;
use droid_signature::{Item, LeftOut};
use droid_signature_file::FileFormat;
use droid_terminal::Shown;
use std::fmt;
use std::fmt::{Display, Formatter, Write};

/// Something that a registry does not have. Prints as a line: `left out: `, its format, what it is, and why.
#[derive(Clone, Copy)]
pub(crate) struct LeftOutLine<'a> {
    /// The format that it belongs to, if there is one.
    pub format: Option<&'a FileFormat>,
    /// What it is, and why.
    pub it: LeftOut,
}

impl Display for LeftOutLine<'_> {
    ghost output = { λ line. Some (left_text (option_copied line.format) line.it) };

    #[tactic(auto, unfolding(crate::specs::Reports::left_text))]
    fn fmt<W: Write>(&self, f: &mut Formatter<W>) -> fmt::Result {
        let subject = Subject(self.format);
        let item = ItemText {
            format: self.format,
            item: self.it.item,
        };
        let why = why_sentence(self.it.why);
        writeln!(f, "left out: {subject}{item}{why}")
    }
}

/// Returns the format at a place of the file's formats; `None` if there is no place, or none of them is there.
pub(crate) fn format_at(formats: &[FileFormat], place: Option<usize>) -> Option<&FileFormat>
    ensures { option_copied result ≡ format_at formats.now place }
{
    match place {
        Some(place) => formats.get(place),
        None => None,
    }
}

/// The format that something belongs to. Prints how it is named, and `: `; nothing if there is no format.
#[derive(Clone, Copy)]
struct Subject<'a>(Option<&'a FileFormat>);

impl Display for Subject<'_> {
    ghost output = { λ it. Some (subject (option_copied it.0)) };

    fn fmt<W: Write>(&self, f: &mut Formatter<W>) -> fmt::Result {
        match self.0 {
            Some(format) => write!(f, "{}: ", subject_of(format)),
            None => Ok(()),
        }
    }
}

/// A format. Prints its PUID, or without one `format ` and its ID in the file.
#[derive(Clone, Copy)]
struct SubjectText<'a> {
    puid: Option<&'a str>,
    id: u32,
}

impl Display for SubjectText<'_> {
    ghost output = { λ it. Some (subject_by (option_map (λ puid. puid.now) it.puid) it.id) };

    fn fmt<W: Write>(&self, f: &mut Formatter<W>) -> fmt::Result {
        match self.puid {
            Some(puid) => write!(f, "{}", Shown(puid.as_bytes())),
            None => write!(f, "format {}", self.id),
        }
    }
}

/// Returns how a format is named in a line: by its PUID, or else by its ID.
fn subject_of(format: &FileFormat) -> SubjectText<'_>
    ensures puid { option_map (λ puid. puid.now) result.puid ≡ format.now.puid }
    ensures id { result.id ≡ format.now.id }
{
    let puid = match format.puid() {
        Some(puid) => Some(puid.as_str()),
        None => None,
    };
    SubjectText {
        puid,
        id: format.id(),
    }
}

/// What is left out of a format. Prints its kind, which one, and `: `; nothing for a whole format.
#[derive(Clone, Copy)]
struct ItemText<'a> {
    format: Option<&'a FileFormat>,
    item: Item,
}

impl Display for ItemText<'_> {
    ghost output = { λ it. Some (item_text (option_copied it.format) it.item) };

    fn fmt<W: Write>(&self, f: &mut Formatter<W>) -> fmt::Result {
        match self.item {
            Item::Format => Ok(()),
            Item::Extension(at) => write!(f, "{}", ExtensionText(extension_at(self.format, at))),
            Item::Priority(id) => write!(f, "priority over format {id}: "),
            Item::Signature(id) => write!(f, "signature {id}: "),
        }
    }
}

/// An extension. Prints `extension `, its text and `: `, or nothing if there is none.
#[derive(Clone, Copy)]
struct ExtensionText<'a>(Option<&'a str>);

impl Display for ExtensionText<'_> {
    ghost output = { λ it. Some (extension_by (option_map (λ text. text.now) it.0)) };

    fn fmt<W: Write>(&self, f: &mut Formatter<W>) -> fmt::Result {
        match self.0 {
            Some(extension) => write!(f, "extension {}: ", Shown(extension.as_bytes())),
            None => Ok(()),
        }
    }
}

/// Returns the extension at a place among a format's; `None` without a format, or if the place is behind the last.
fn extension_at(format: Option<&FileFormat>, at: usize) -> Option<&str>
    ensures { extension_by (option_map (λ text. text.now) result) ≡ extension_text (option_copied format.entry) at }
{
    let format = format?;
    match format.extensions().get(at) {
        Some(extension) => Some(extension.as_str()),
        None => None,
    }
}
