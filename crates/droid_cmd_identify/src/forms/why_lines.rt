//! Why a file does not have a format, or what shows it, in lines: the answer to `--why`.

ghost use Rattle.std.specs.Prelude.{Some, flat_map};
ghost use Rattle.std.specs.Fmt.{WritesOnOk};
ghost use Rattle.droid_cmd_identify.specs.WhyLines.{beaten_line, more_tried, no_signature_line, tried_line, tried_text};
ghost use Rattle.droid_cmd_identify.specs.WhyLines.{tried_texts};

use crate::forms::match_text::MatchText;
use droid_identity::Match;
use droid_terminal::Shown;
use std::fmt::{self, Display, Formatter, Write};

/// The line of a signature that was tried.
#[derive(Clone, Copy)]
pub struct TriedLine<'a> {
    /// The path of the file, as it was named.
    pub path: &'a str,
    /// The format.
    pub puid: &'a str,
    /// The number of the signature among those of the registry, counted from 0.
    pub number: usize,
    /// The match of each of its byte sequences.
    pub matches: &'a [Option<Match>],
}

impl Display for TriedLine<'_> {
    ghost output = { λ it. Some (tried_line it.path.now it.puid.now it.number it.matches.now) };

    fn fmt<W: Write>(&self, f: &mut Formatter<W>) -> fmt::Result {
        let path = Shown(self.path.as_bytes());
        let puid = self.puid;
        let number = self.number;
        let matches = TriedTexts(self.matches);
        writeln!(f, "{path}: {puid}: signature {number}: {matches}")
    }
}

/// Byte sequences that were tried, separated by semicolons.
#[derive(Clone, Copy)]
struct TriedTexts<'a>(&'a [Option<Match>]);

impl Display for TriedTexts<'_> {
    ghost output = { λ it. Some (tried_texts it.0.now) };

    fn fmt<W: Write>(&self, f: &mut Formatter<W>) -> fmt::Result {
        match self.0 {
            [first, more @ ..] => {
                write!(f, "{}", TriedText(*first))?;
                write_more(more, f)
            }
            [] => Ok(()),
        }
    }
}

/// Writes what became of further byte sequences, each after a semicolon.
fn write_more<W: Write>(matches: &[Option<Match>], f: &mut Formatter<W>) -> fmt::Result
    ensures { WritesOnOk W.write_str_gives f.old result (flat_map more_tried matches.now) f.new }
{
    for its in matches {
        write!(f, "; {}", TriedText(*its))?;
    }
    Ok(())
}

/// A byte sequence that was tried: where it matches, or that it does not.
#[derive(Clone, Copy)]
struct TriedText(Option<Match>);

impl Display for TriedText {
    ghost output = { λ it. Some (tried_text it.0) };

    fn fmt<W: Write>(&self, f: &mut Formatter<W>) -> fmt::Result {
        match self.0 {
            Some(its) => write!(f, "{}", MatchText(its)),
            None => f.write_str("no match"),
        }
    }
}

/// The line of a format that beats another.
#[derive(Clone, Copy)]
pub struct BeatenLine<'a> {
    /// The path of the file, as it was named.
    pub path: &'a str,
    /// The format that is beaten.
    pub puid: &'a str,
    /// The format that has priority over it.
    pub by: &'a str,
}

impl Display for BeatenLine<'_> {
    ghost output = { λ it. Some (beaten_line it.path.now it.puid.now it.by.now) };

    fn fmt<W: Write>(&self, f: &mut Formatter<W>) -> fmt::Result {
        let path = Shown(self.path.as_bytes());
        let puid = self.puid;
        let by = self.by;
        writeln!(f, "{path}: {puid}: {by} has priority over it")
    }
}

/// The line of a format that has no signature.
#[derive(Clone, Copy)]
pub struct UnsignedLine<'a> {
    /// The path of the file, as it was named.
    pub path: &'a str,
    /// The format.
    pub puid: &'a str,
}

impl Display for UnsignedLine<'_> {
    ghost output = { λ it. Some (no_signature_line it.path.now it.puid.now) };

    fn fmt<W: Write>(&self, f: &mut Formatter<W>) -> fmt::Result {
        let path = Shown(self.path.as_bytes());
        let puid = self.puid;
        writeln!(f, "{path}: {puid}: it has no signature")
    }
}
