//! A file in the document in the shape that Siegfried writes.

ghost use Rattle.std.specs.Prelude.{Some, ◌≡◌, flat_map};
ghost use Rattle.std.specs.Fmt.{WritesOnOk};
ghost use Rattle.droid_cmd_identify.specs.Siegfried.{comma, sf_basis, sf_file, sf_format, sf_kind, sf_match};
ghost use Rattle.droid_cmd_identify.specs.Siegfried.{sf_matches, sf_more, sf_pair, sf_pairs, sf_more_pair, sf_spans};
ghost use Rattle.droid_cmd_identify.specs.Siegfried.{sf_start, sf_unread, sf_warning};

use crate::forms::json_line::JsonHash;
use crate::forms::json_text::{JsonInside, JsonText};
use crate::forms::kind_name::kind_name;
use crate::forms::shown_file::ShownFile;
use crate::forms::shown_format::{Reason, ShownFormat};
use droid_frame::Method;
use droid_identity::{Match, TextKind};
use droid_pronom::{Anchor, Format};
use std::fmt::{self, Display, Formatter, Write};

/// A file that was identified, in the document, as an object of JSON.
#[derive(Clone, Copy)]
pub struct SfFile<'a> {
    /// Whether it is the first file.
    pub first: bool,
    /// The file.
    pub file: ShownFile<'a>,
}

impl Display for SfFile<'_> {
    ghost output = { λ it. Some (sf_file it.first it.file) };

    fn fmt<W: Write>(&self, f: &mut Formatter<W>) -> fmt::Result {
        let comma = Comma(self.first);
        let path = JsonText(self.file.path);
        let size = self.file.size;
        let modified = JsonText(self.file.modified);
        let hash = JsonHash(self.file.hash);
        let matches = SfMatches(self.file);
        write!(
            f,
            "{comma}{{\"filename\":{path},\"filesize\":{size},\"modified\":{modified},\"errors\":\"\"{hash},\"\
            matches\":[{matches}]}}"
        )
    }
}

/// A file that could not be read, in the document: the reason stands in its `errors`, and its size and moment are not
/// known.
#[derive(Clone, Copy)]
pub struct SfUnread<'a> {
    /// Whether it is the first file.
    pub first: bool,
    /// Its path, as it was named.
    pub path: &'a str,
    /// Why it could not be read.
    pub why: &'a str,
}

impl Display for SfUnread<'_> {
    ghost output = { λ it. Some (sf_unread it.first it.path.now it.why.now) };

    fn fmt<W: Write>(&self, f: &mut Formatter<W>) -> fmt::Result {
        let comma = Comma(self.first);
        let path = JsonText(self.path);
        let why = JsonText(self.why);
        write!(
            f,
            "{comma}{{\"filename\":{path},\"filesize\":0,\"modified\":\"0001-01-01T00:00:00Z\",\"errors\":{why},\"\
            matches\":[]}}"
        )
    }
}

/// The comma before a file. It prints nothing if this says that the file is the first one.
#[derive(Clone, Copy)]
struct Comma(bool);

impl Display for Comma {
    ghost output = { λ it. Some (comma it.0) };

    fn fmt<W: Write>(&self, f: &mut Formatter<W>) -> fmt::Result {
        if self.0 { Ok(()) } else { f.write_str(",") }
    }
}

/// The matches of a file: one for each of its formats, or one that says that there is none.
#[derive(Clone, Copy)]
struct SfMatches<'a>(ShownFile<'a>);

impl Display for SfMatches<'_> {
    ghost output = { λ it. Some (sf_matches it.0.size it.0.method it.0.text it.0.formats.now) };

    fn fmt<W: Write>(&self, f: &mut Formatter<W>) -> fmt::Result {
        let size = self.0.size;
        let method = self.0.method;
        match self.0.formats {
            [first, more @ ..] => {
                write!(
                    f,
                    "{}",
                    SfMatch {
                        size,
                        method,
                        its: *first
                    }
                )?;
                write_more(size, method, more, f)
            }
            [] => {
                let basis = SfKind(self.0.text);
                write!(
                    f,
                    "{{\"ns\":\"pronom\",\"id\":\"UNKNOWN\",\"format\":\"\",\"version\":\"\",\"mime\":\"\",\"\
                    class\":\"\",\"basis\":\"{basis}\",\"warning\":\"no match\"}}"
                )
            }
        }
    }
}

/// Writes the matches of further formats, each after a comma. `size` and `method` are those of the file.
fn write_more<W: Write>(
    size: u64,
    method: Method,
    formats: &[ShownFormat<'_>],
    f: &mut Formatter<W>,
) -> fmt::Result
    ensures { WritesOnOk W.write_str_gives f.old result (flat_map (sf_more size method) formats.now) f.new }
{
    for its in formats {
        write!(
            f,
            ",{}",
            SfMatch {
                size,
                method,
                its: *its
            }
        )?;
    }
    Ok(())
}

/// The match of a format in a file of this size, whose formats were found by this method: an object of JSON.
#[derive(Clone, Copy)]
struct SfMatch<'a> {
    size: u64,
    method: Method,
    its: ShownFormat<'a>,
}

impl Display for SfMatch<'_> {
    ghost output = { λ it. Some (sf_match it.size it.method it.its) };

    #[tactic(auto, unfolding(crate::specs::Siegfried::sf_match))]
    fn fmt<W: Write>(&self, f: &mut Formatter<W>) -> fmt::Result {
        let format = SfFormat(self.its.format);
        let basis = SfBasis {
            size: self.size,
            reason: self.its.reason,
        };
        let warning = sf_warning(self.method, self.its.mismatch);
        write!(
            f,
            "{{\"ns\":\"pronom\",{format},\"class\":\"\",\"basis\":\"{basis}\",\"warning\":\"{warning}\"}}"
        )
    }
}

/// The names of a format, as members of the object of its match.
#[derive(Clone, Copy)]
struct SfFormat<'a>(&'a Format);

impl Display for SfFormat<'_> {
    ghost output = { λ it. Some (sf_format it.0.now) };

    #[tactic(auto, unfolding(crate::specs::Siegfried::sf_format))]
    fn fmt<W: Write>(&self, f: &mut Formatter<W>) -> fmt::Result {
        let puid = JsonText(self.0.puid.as_str());
        let name = JsonText(self.0.name.as_str());
        let version = JsonText(self.0.version.as_str());
        let mime = JsonText(self.0.mime.as_str());
        write!(
            f,
            "\"id\":{puid},\"format\":{name},\"version\":{version},\"mime\":{mime}"
        )
    }
}

/// Returns what Siegfried warns of, in its words. An empty text is no warning.
fn sf_warning(method: Method, mismatch: bool) -> &'static str
    ensures { result.now ≡ sf_warning method mismatch }
{
    match method {
        Method::Signature => { if mismatch { "extension mismatch" } else { "" } }
        Method::Extension => "match on extension only",
        Method::Unidentified => "no match",
    }
}

/// How plain text without a format is written, in Siegfried's words.
#[derive(Clone, Copy)]
struct SfKind(Option<TextKind>);

impl Display for SfKind {
    ghost output = { λ it. Some (sf_kind it.0) };

    fn fmt<W: Write>(&self, f: &mut Formatter<W>) -> fmt::Result {
        match self.0 {
            Some(kind) => write!(f, "text match {}", kind_name(kind)),
            None => Ok(()),
        }
    }
}

/// Why a file of this size has a format, in Siegfried's words.
#[derive(Clone, Copy)]
struct SfBasis<'a> {
    size: u64,
    reason: Reason<'a>,
}

impl Display for SfBasis<'_> {
    ghost output = { λ it. Some (sf_basis it.size it.reason) };

    fn fmt<W: Write>(&self, f: &mut Formatter<W>) -> fmt::Result {
        let size = self.size;
        match self.reason {
            Reason::Signature { matches, .. } => {
                write!(f, "byte match at {}", SfSpans { size, matches })
            }
            Reason::Extension(extension) => {
                write!(f, "extension match {}", JsonInside(extension))
            }
        }
    }
}

/// Where matches begin in a file of this size, and how many bytes they have: `0, 8` of one, `[[0 8] [100 6]]` of
/// several.
#[derive(Clone, Copy)]
struct SfSpans<'a> {
    size: u64,
    matches: &'a [Match],
}

impl Display for SfSpans<'_> {
    ghost output = { λ it. Some (sf_spans it.size it.matches.now) };

    fn fmt<W: Write>(&self, f: &mut Formatter<W>) -> fmt::Result {
        let size = self.size;
        match self.matches {
            [its] => write!(f, "{}, {}", sf_start(size, *its), its.count),
            matches => write!(f, "[{}]", SfPairs { size, matches }),
        }
    }
}

/// The pairs of several matches, separated by spaces.
#[derive(Clone, Copy)]
struct SfPairs<'a> {
    size: u64,
    matches: &'a [Match],
}

impl Display for SfPairs<'_> {
    ghost output = { λ it. Some (sf_pairs it.size it.matches.now) };

    fn fmt<W: Write>(&self, f: &mut Formatter<W>) -> fmt::Result {
        let size = self.size;
        match self.matches {
            [first, more @ ..] => {
                write!(f, "{}", SfPair { size, its: *first })?;
                write_pairs(size, more, f)
            }
            [] => Ok(()),
        }
    }
}

/// Writes the pairs of further matches in a file of this size, each after a space.
fn write_pairs<W: Write>(size: u64, matches: &[Match], f: &mut Formatter<W>) -> fmt::Result
    ensures { WritesOnOk W.write_str_gives f.old result (flat_map (sf_more_pair size) matches.now) f.new }
{
    for its in matches {
        write!(f, " {}", SfPair { size, its: *its })?;
    }
    Ok(())
}

/// The offset and the length of a match in a file of this size: `[100 6]`. Siegfried counts all offsets from the
/// beginning.
#[derive(Clone, Copy)]
struct SfPair {
    size: u64,
    its: Match,
}

impl Display for SfPair {
    ghost output = { λ it. Some (sf_pair it.size it.its) };

    fn fmt<W: Write>(&self, f: &mut Formatter<W>) -> fmt::Result {
        write!(f, "[{} {}]", sf_start(self.size, self.its), self.its.count)
    }
}

/// Returns how many bytes of a file of this size stand before a match. Of a match that is counted from the end: the
/// size without the bytes behind it and its own, or 0 if these are more, as no match in the file has.
fn sf_start(size: u64, its: Match) -> u64
    ensures { result ≡ sf_start size its }
{
    match its.anchor {
        Anchor::Bof => u64::from(its.offset),
        Anchor::Eof => {
            let behind = u64::from(its.offset) + u64::from(its.count);
            size.saturating_sub(behind)
        }
    }
}
