//! The report on a registry, for standard error, and the note beside it. What is left out has its line in
//! `left_out_line.rt`.
//!
//! `output` of each `Display` is the exact text. Where a line is written for each item, the clause is the kit's
//! `WritesOnOk`: after `Ok` exactly this text was written.

ghost use Rattle.std.specs.Prelude.{◌≡◌, Some, flat_map};
ghost use Rattle.std.specs.Fmt.{WritesOnOk};
ghost use Rattle.droid_cmd_registry.specs.Reports.{count_line, described, described_line, digest_line, left_line};
ghost use Rattle.droid_cmd_registry.specs.Reports.{lines_text, note_text, numbers_text, part_text, report_text};
ghost use Rattle.droid_cmd_registry.specs.Reports.{taken_line, unknown_line, unless_quiet, unlisted_line};

use crate::left_out_line::{LeftOutLine, format_at};
use droid_signature::{LeftOut, Taken};
use droid_signature_file::{FileFormat, SignatureFile, UnknownName, UnknownPart};
use droid_terminal::Shown;
use std::fmt;
use std::fmt::{Display, Formatter, Write};

/// A signature file. Prints its version and its date of creation, as the file has them.
#[derive(Clone, Copy)]
struct Described<'a>(&'a SignatureFile);

impl Display for Described<'_> {
    ghost output = { λ it. Some (described it.0.now) };

    #[tactic(auto, unfolding(crate::specs::Reports::described))]
    fn fmt<W: Write>(&self, f: &mut Formatter<W>) -> fmt::Result {
        let version = Shown(self.0.version().as_bytes());
        let created = Shown(self.0.created().as_bytes());
        write!(f, "version {version}, of {created}")
    }
}

/// The line beside a registry that says which it is: the signature file's version and date, and the registry's MD5.
#[derive(Clone, Copy)]
pub(crate) struct NoteLine<'a> {
    pub file: &'a SignatureFile,
    /// The registry's MD5.
    pub digest: &'a str,
}

impl Display for NoteLine<'_> {
    ghost output = { λ it. Some (note_text it.file.now it.digest.now) };

    #[tactic(auto, unfolding(crate::specs::Reports::note_text))]
    fn fmt<W: Write>(&self, f: &mut Formatter<W>) -> fmt::Result {
        let described = Described(self.file);
        writeln!(
            f,
            "signature file: {described}; registry: MD5 {}",
            self.digest
        )
    }
}

/// The report on a registry. Prints its numbers, and the lines of single things unless it is quiet.
#[derive(Clone, Copy)]
pub(crate) struct RegistryReport<'a> {
    /// Whether the numbers alone are printed.
    pub quiet: bool,
    pub file: &'a SignatureFile,
    pub taken: Taken,
    pub left_out: &'a [LeftOut],
    /// The registry's MD5.
    pub digest: &'a str,
}

impl Display for RegistryReport<'_> {
    ghost output = { λ it. Some (report_text it.quiet it.file.now it.taken it.left_out.now it.digest.now) };

    #[tactic(auto, unfolding(crate::specs::Reports::report_text))]
    fn fmt<W: Write>(&self, f: &mut Formatter<W>) -> fmt::Result {
        let numbers = Numbers {
            file: self.file,
            taken: self.taken,
            left_out: self.left_out,
            digest: self.digest,
        };
        let lines = LinesUnlessQuiet {
            quiet: self.quiet,
            file: self.file,
            left_out: self.left_out,
        };
        write!(f, "{numbers}{lines}")
    }
}

/// The numbers of a registry. Prints five lines: its signature file, how much it has, how much was left out, how many
/// names that are not known are listed (at most 64, see [`SignatureFile::unknown`]), and its MD5.
#[derive(Clone, Copy)]
struct Numbers<'a> {
    file: &'a SignatureFile,
    taken: Taken,
    left_out: &'a [LeftOut],
    digest: &'a str,
}

impl Display for Numbers<'_> {
    ghost output = { λ it. Some (numbers_text it.file.now it.taken it.left_out.now it.digest.now) };

    #[tactic(auto, unfolding(crate::specs::Reports::numbers_text))]
    fn fmt<W: Write>(&self, f: &mut Formatter<W>) -> fmt::Result {
        let file = FileLine(self.file);
        let taken = TakenLine(self.taken);
        let left_out = CountLine {
            name: "left out",
            count: self.left_out.len(),
        };
        let unknown = CountLine {
            name: "unknown names",
            count: self.file.unknown().len(),
        };
        let digest = DigestLine(self.digest);
        write!(f, "{file}{taken}{left_out}{unknown}{digest}")
    }
}

/// The line that says which signature file it is.
#[derive(Clone, Copy)]
struct FileLine<'a>(&'a SignatureFile);

impl Display for FileLine<'_> {
    ghost output = { λ it. Some (described_line it.0.now) };

    #[tactic(auto, unfolding(crate::specs::Reports::described_line))]
    fn fmt<W: Write>(&self, f: &mut Formatter<W>) -> fmt::Result {
        writeln!(f, "signature file: {}", Described(self.0))
    }
}

/// The line that says how much a registry has.
#[derive(Clone, Copy)]
struct TakenLine(Taken);

impl Display for TakenLine {
    ghost output = { λ it. Some (taken_line it.0) };

    #[tactic(auto, unfolding(crate::specs::Reports::taken_line))]
    fn fmt<W: Write>(&self, f: &mut Formatter<W>) -> fmt::Result {
        let taken = self.0;
        writeln!(
            f,
            "taken: {} formats, {} signatures, {} extensions, {} priorities",
            taken.formats, taken.signatures, taken.extensions, taken.priorities
        )
    }
}

/// A name and a number. Prints as a line, with `: ` between.
#[derive(Clone, Copy)]
struct CountLine {
    name: &'static str,
    count: usize,
}

impl Display for CountLine {
    ghost output = { λ line. Some (count_line line.name.now line.count) };

    #[tactic(auto, unfolding(crate::specs::Reports::count_line))]
    fn fmt<W: Write>(&self, f: &mut Formatter<W>) -> fmt::Result {
        writeln!(f, "{}: {}", self.name, self.count)
    }
}

/// The line of a registry's MD5, which is given in hexadecimal digits.
#[derive(Clone, Copy)]
struct DigestLine<'a>(&'a str);

impl Display for DigestLine<'_> {
    ghost output = { λ it. Some (digest_line it.0.now) };

    #[tactic(auto, unfolding(crate::specs::Reports::digest_line))]
    fn fmt<W: Write>(&self, f: &mut Formatter<W>) -> fmt::Result {
        writeln!(f, "registry: MD5 {}", self.0)
    }
}

/// The lines of single things. Prints nothing if it is quiet.
#[derive(Clone, Copy)]
struct LinesUnlessQuiet<'a> {
    quiet: bool,
    file: &'a SignatureFile,
    left_out: &'a [LeftOut],
}

impl Display for LinesUnlessQuiet<'_> {
    ghost output = { λ it. Some (unless_quiet it.quiet (lines_text it.file.now it.left_out.now)) };

    fn fmt<W: Write>(&self, f: &mut Formatter<W>) -> fmt::Result {
        if self.quiet {
            return Ok(());
        }
        let lines = Lines {
            file: self.file,
            left_out: self.left_out,
        };
        write!(f, "{lines}")
    }
}

/// The lines of single things: the names that are not known, how often further ones stand in the file, and what was
/// left out.
#[derive(Clone, Copy)]
struct Lines<'a> {
    file: &'a SignatureFile,
    left_out: &'a [LeftOut],
}

impl Display for Lines<'_> {
    ghost output = { λ it. Some (lines_text it.file.now it.left_out.now) };

    #[tactic(auto, unfolding(crate::specs::Reports::lines_text))]
    fn fmt<W: Write>(&self, f: &mut Formatter<W>) -> fmt::Result {
        let unknown = UnknownLines(self.file.unknown());
        let unlisted = UnlistedLine(self.file.unlisted());
        let left_out = LeftOutLines {
            formats: self.file.formats(),
            left_out: self.left_out,
        };
        write!(f, "{unknown}{unlisted}{left_out}")
    }
}

/// The names of a signature file that are not known. Prints a line for each.
#[derive(Clone, Copy)]
struct UnknownLines<'a>(&'a [UnknownName]);

impl Display for UnknownLines<'_> {
    ghost output = { λ it. Some (flat_map unknown_line it.0.now) };

    fn fmt<W: Write>(&self, f: &mut Formatter<W>) -> fmt::Result {
        write_unknown(f, self.0)
    }
}

/// Writes a line for each of these names, in their order. Fails only if the formatter does.
fn write_unknown<W: Write>(f: &mut Formatter<W>, names: &[UnknownName]) -> fmt::Result
    ensures { WritesOnOk W.write_str_gives f.old result (flat_map unknown_line names.now) f.new }
{
    for name in names {
        write_name(f, name)?;
    }
    Ok(())
}

/// Writes the line of a name that is not known: whether it is an element's or an attribute's, the name with control
/// characters shown (`Shown`), and how often it stands in the file.
#[tactic(auto, unfolding(crate::specs::Reports::unknown_line))]
fn write_name<W: Write>(f: &mut Formatter<W>, it: &UnknownName) -> fmt::Result
    ensures { WritesOnOk W.write_str_gives f.old result (unknown_line it.now) f.new }
{
    let part = part_name(it.part);
    let name = Shown(it.name.as_str().as_bytes());
    writeln!(f, "unknown {part}: {name}: {} times", it.count)
}

/// Returns the word for what has a name that is not known: an element or an attribute.
fn part_name(part: UnknownPart) -> &'static str
    ensures { result.now ≡ part_text part }
{
    match part {
        UnknownPart::Element => "element",
        UnknownPart::Attribute => "attribute",
    }
}

/// How often names stand in the file beyond those that are listed. Prints nothing for 0.
#[derive(Clone, Copy)]
struct UnlistedLine(u64);

impl Display for UnlistedLine {
    ghost output = { λ it. Some (unlisted_line it.0) };

    #[tactic(auto, unfolding(crate::specs::Reports::unlisted_line))]
    fn fmt<W: Write>(&self, f: &mut Formatter<W>) -> fmt::Result {
        if self.0 == 0 {
            return Ok(());
        }
        writeln!(f, "further unknown names: {} times", self.0)
    }
}

/// What a registry does not have. Prints a line for each, with its format among `formats`.
#[derive(Clone, Copy)]
struct LeftOutLines<'a> {
    formats: &'a [FileFormat],
    left_out: &'a [LeftOut],
}

impl Display for LeftOutLines<'_> {
    ghost output = { λ it. Some (flat_map (left_line it.formats.now) it.left_out.now) };

    fn fmt<W: Write>(&self, f: &mut Formatter<W>) -> fmt::Result {
        write_left_out(f, self.formats, self.left_out)
    }
}

/// Writes a line for each thing that was left out, in their order. Fails only if the formatter does.
fn write_left_out<W: Write>(
    f: &mut Formatter<W>,
    formats: &[FileFormat],
    left_out: &[LeftOut],
) -> fmt::Result
    ensures { WritesOnOk W.write_str_gives f.old result (flat_map (left_line formats.now) left_out.now) f.new }
{
    for it in left_out {
        write_one(f, formats, *it)?;
    }
    Ok(())
}

/// Writes the line of one thing that was left out, whose format it finds by its place among `formats`.
fn write_one<W: Write>(f: &mut Formatter<W>, formats: &[FileFormat], it: LeftOut) -> fmt::Result
    ensures { WritesOnOk W.write_str_gives f.old result (left_line formats.now it) f.new }
{
    let format = format_at(formats, it.format);
    write!(f, "{}", LeftOutLine { format, it })
}
