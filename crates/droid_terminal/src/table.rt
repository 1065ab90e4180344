//! The lines of the summary: the table of counts and formats, and those for symbolic links and seconds. The words are
//! those of `specs/Tables.antt`, which the prover compares.

ghost use Rattle.std.specs.Prelude.{Some, option_map, flat_map};
ghost use Rattle.std.specs.Fmt.{WritesOnOk};
ghost use Rattle.droid_terminal.specs.Tables.{count_line, format_line, formats_text, held_text, links_text};
ghost use Rattle.droid_terminal.specs.Tables.{seconds_text, table_text};

use crate::counts::Counts;
use crate::format_counts::FormatCount;
use std::fmt;
use std::fmt::{Display, Formatter, Write};

/// A name and a number. Prints as a line, with `: ` between.
#[derive(Clone, Copy)]
pub(crate) struct CountLine<'a> {
    /// What is counted.
    pub name: &'a str,
    /// The number.
    pub count: u64,
}

impl Display for CountLine<'_> {
    ghost output = { λ line. Some (count_line line.name.now line.count) };

    #[tactic(auto, unfolding(crate::specs::Tables::count_line))]
    fn fmt<W: Write>(&self, f: &mut Formatter<W>) -> fmt::Result {
        writeln!(f, "{}: {}", self.name, self.count)
    }
}

/// The table of the summary: a line for each count, in a fixed order, with the formats before the bytes.
#[derive(Clone, Copy)]
pub(crate) struct Table<'a> {
    /// The numbers.
    pub counts: Counts,
    /// The most frequent formats. `None` if not all could be counted.
    pub formats: Option<&'a [FormatCount]>,
}

impl Display for Table<'_> {
    ghost output = { λ table. Some (table_text table.counts (option_map (λ formats. formats.now) table.formats)) };

    #[tactic(auto, unfolding(crate::specs::Tables::table_text))]
    fn fmt<W: Write>(&self, f: &mut Formatter<W>) -> fmt::Result {
        let Table { counts, formats } = *self;
        let taken = CountLine {
            name: "folders and files",
            count: counts.taken,
        };
        let by_signature = CountLine {
            name: "files by signature",
            count: counts.by_signature,
        };
        let by_extension = CountLine {
            name: "files by extension",
            count: counts.by_extension,
        };
        let unidentified = CountLine {
            name: "files not identified",
            count: counts.unidentified,
        };
        let mismatches = CountLine {
            name: "mismatches",
            count: counts.mismatches,
        };
        let formats = Formats(formats);
        let held = Held(counts.held);
        let bytes = CountLine {
            name: "bytes read",
            count: counts.bytes,
        };
        write!(
            f,
            "{taken}{by_signature}{by_extension}{unidentified}{mismatches}{formats}{held}{bytes}"
        )
    }
}

/// The most frequent formats. Prints a line for each, or for `None` that not all could be counted.
#[derive(Clone, Copy)]
struct Formats<'a>(Option<&'a [FormatCount]>);

impl Display for Formats<'_> {
    ghost output = { λ formats. Some (formats_text (option_map (λ reported. reported.now) formats.0)) };

    #[tactic(auto, unfolding(crate::specs::Tables::formats_text))]
    fn fmt<W: Write>(&self, f: &mut Formatter<W>) -> fmt::Result {
        match self.0 {
            Some(reported) => write_formats(f, reported),
            None => writeln!(f, "formats: too many to count, or no memory to count them"),
        }
    }
}

/// Writes a line for each of these formats, in their order. Fails only if the formatter does.
fn write_formats<W: Write>(f: &mut Formatter<W>, reported: &[FormatCount]) -> fmt::Result
    ensures { WritesOnOk W.write_str_gives f.old result (flat_map format_line reported.now) f.new }
{
    for format in reported {
        write!(f, "{format}")?;
    }
    Ok(())
}

// Prints `format `, the identifier and the number of its files, as a line.
impl Display for FormatCount {
    ghost output = { λ format. Some (format_line format) };

    #[tactic(auto, unfolding(crate::specs::Tables::format_line))]
    fn fmt<W: Write>(&self, f: &mut Formatter<W>) -> fmt::Result {
        let line = CountLine {
            name: self.puid.as_str(),
            count: self.count,
        };
        write!(f, "format {line}")
    }
}

/// How many of the skipped entries are symbolic links. Prints nothing for 0.
#[derive(Clone, Copy)]
pub(crate) struct Links(pub u64);

impl Display for Links {
    ghost output = { λ links. Some (links_text links.0) };

    fn fmt<W: Write>(&self, f: &mut Formatter<W>) -> fmt::Result {
        if self.0 == 0 {
            return Ok(());
        }
        let line = CountLine {
            name: "of these symbolic links, which are no part of a profile",
            count: self.0,
        };
        write!(f, "{line}")
    }
}

/// Bytes that the service already held. Prints nothing for 0.
#[derive(Clone, Copy)]
struct Held(u64);

impl Display for Held {
    ghost output = { λ held. Some (held_text held.0) };

    fn fmt<W: Write>(&self, f: &mut Formatter<W>) -> fmt::Result {
        if self.0 == 0 {
            return Ok(());
        }
        let line = CountLine {
            name: "bytes that were there",
            count: self.0,
        };
        write!(f, "{line}")
    }
}

/// How many seconds the walk took. Prints nothing if the clock failed.
#[derive(Clone, Copy)]
pub(crate) struct Took(pub Option<u64>);

impl Display for Took {
    ghost output = { λ took. Some (seconds_text took.0) };

    fn fmt<W: Write>(&self, f: &mut Formatter<W>) -> fmt::Result {
        match self.0 {
            Some(seconds) => write!(
                f,
                "{}",
                CountLine {
                    name: "seconds",
                    count: seconds
                }
            ),
            None => Ok(()),
        }
    }
}
