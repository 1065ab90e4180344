//! All lines of one file: of its hash and its formats, or of the PUIDs alone.

ghost use Rattle.std.specs.Prelude.{Some, flat_map};
ghost use Rattle.std.specs.Fmt.{WritesOnOk};
ghost use Rattle.droid_cmd_identify.specs.Lines.{file_lines, format_line, format_lines, hash_line, puid_line};
ghost use Rattle.droid_cmd_identify.specs.Lines.{puid_lines};

use crate::forms::kind_name::hash_name;
use crate::forms::line::{FormatLine, UnidentifiedLine};
use crate::forms::shown_file::{ShownFile, ShownHash};
use crate::forms::shown_format::ShownFormat;
use droid_identity::TextKind;
use droid_terminal::Shown;
use std::fmt::{self, Display, Formatter, Write};

/// The lines of a file: its hash if it has one, and its formats.
#[derive(Clone, Copy)]
pub struct FileLines<'a>(pub ShownFile<'a>);

impl Display for FileLines<'_> {
    ghost output = { λ it. Some (file_lines it.0) };

    fn fmt<W: Write>(&self, f: &mut Formatter<W>) -> fmt::Result {
        let ShownFile {
            path,
            text,
            hash,
            formats,
            ..
        } = self.0;
        let formats = FormatLines {
            path,
            text,
            formats,
        };
        write!(f, "{}{formats}", HashLine { path, hash })
    }
}

/// The line with the hash of a file, `PATH: md5 DIGITS`; nothing if it has none.
#[derive(Clone, Copy)]
struct HashLine<'a> {
    path: &'a str,
    hash: Option<ShownHash<'a>>,
}

impl Display for HashLine<'_> {
    ghost output = { λ it. Some (hash_line it.path.now it.hash) };

    fn fmt<W: Write>(&self, f: &mut Formatter<W>) -> fmt::Result {
        match self.hash {
            Some(hash) => {
                let path = Shown(self.path.as_bytes());
                let name = hash_name(hash.kind);
                let digits = hash.digits;
                writeln!(f, "{path}: {name} {digits}")
            }
            None => Ok(()),
        }
    }
}

/// A line for each format, or the line of a file without formats.
#[derive(Clone, Copy)]
struct FormatLines<'a> {
    path: &'a str,
    text: Option<TextKind>,
    formats: &'a [ShownFormat<'a>],
}

impl Display for FormatLines<'_> {
    ghost output = { λ it. Some (format_lines it.path.now it.text it.formats.now) };

    fn fmt<W: Write>(&self, f: &mut Formatter<W>) -> fmt::Result {
        match self.formats {
            [first, more @ ..] => {
                let path = self.path;
                write!(f, "{}", FormatLine { path, its: *first })?;
                write_more(path, more, f)
            }
            [] => {
                let path = self.path;
                let text = self.text;
                write!(f, "{}", UnidentifiedLine { path, text })
            }
        }
    }
}

/// Writes a line for each of a file's formats behind the first.
fn write_more<W: Write>(
    path: &str,
    formats: &[ShownFormat<'_>],
    f: &mut Formatter<W>,
) -> fmt::Result
    ensures { WritesOnOk W.write_str_gives f.old result (flat_map (format_line path.now) formats.now) f.new }
{
    for its in formats {
        write!(f, "{}", FormatLine { path, its: *its })?;
    }
    Ok(())
}

/// The PUIDs of a file's formats, one on a line; nothing if it has none.
#[derive(Clone, Copy)]
pub struct PuidLines<'a>(pub &'a [ShownFormat<'a>]);

impl Display for PuidLines<'_> {
    ghost output = { λ it. Some (puid_lines it.0.now) };

    fn fmt<W: Write>(&self, f: &mut Formatter<W>) -> fmt::Result {
        write_puids(self.0, f)
    }
}

/// Writes a line for the PUID of each format.
fn write_puids<W: Write>(formats: &[ShownFormat<'_>], f: &mut Formatter<W>) -> fmt::Result
    ensures { WritesOnOk W.write_str_gives f.old result (flat_map puid_line formats.now) f.new }
{
    for its in formats {
        writeln!(f, "{}", its.format.puid.as_str())?;
    }
    Ok(())
}
