//! The line of one format of a file, and the line of a file that has none.

ghost use Rattle.std.specs.Prelude.{Some};
ghost use Rattle.droid_cmd_identify.specs.Lines.{after_space, format_line, in_parentheses, kind_text};
ghost use Rattle.droid_cmd_identify.specs.Lines.{unidentified_line, warning};

use crate::forms::basis_text::BasisText;
use crate::forms::kind_name::kind_name;
use crate::forms::shown_format::ShownFormat;
use droid_identity::TextKind;
use droid_terminal::Shown;
use std::fmt::{self, Display, Formatter, Write};

/// The line of a file's format: `PATH: PUID NAME VERSION (MIME), BASIS`, and a warning at its end.
#[derive(Clone, Copy)]
pub struct FormatLine<'a> {
    /// The path of the file, as it was named.
    pub path: &'a str,
    /// The format.
    pub its: ShownFormat<'a>,
}

impl Display for FormatLine<'_> {
    ghost output = { λ it. Some (format_line it.path.now it.its) };

    fn fmt<W: Write>(&self, f: &mut Formatter<W>) -> fmt::Result {
        let format = self.its.format;
        let path = Shown(self.path.as_bytes());
        let puid = format.puid.as_str();
        let name = Shown(format.name.as_str().as_bytes());
        let version = AfterSpace(format.version.as_str());
        let mime = InParentheses(format.mime.as_str());
        let basis = BasisText(self.its.reason);
        let warning = Warning(self.its.mismatch);
        writeln!(f, "{path}: {puid} {name}{version}{mime}, {basis}{warning}")
    }
}

/// A text after a space; nothing if it is empty.
#[derive(Clone, Copy)]
struct AfterSpace<'a>(&'a str);

impl Display for AfterSpace<'_> {
    ghost output = { λ it. Some (after_space it.0.now) };

    fn fmt<W: Write>(&self, f: &mut Formatter<W>) -> fmt::Result {
        if self.0.is_empty() {
            return Ok(());
        }
        write!(f, " {}", Shown(self.0.as_bytes()))
    }
}

/// A text in parentheses, after a space; nothing if it is empty.
#[derive(Clone, Copy)]
struct InParentheses<'a>(&'a str);

impl Display for InParentheses<'_> {
    ghost output = { λ it. Some (in_parentheses it.0.now) };

    fn fmt<W: Write>(&self, f: &mut Formatter<W>) -> fmt::Result {
        if self.0.is_empty() {
            return Ok(());
        }
        write!(f, " ({})", Shown(self.0.as_bytes()))
    }
}

/// The warning that the extension contradicts the formats, if it does.
#[derive(Clone, Copy)]
struct Warning(bool);

impl Display for Warning {
    ghost output = { λ it. Some (warning it.0) };

    fn fmt<W: Write>(&self, f: &mut Formatter<W>) -> fmt::Result {
        if self.0 {
            f.write_str(", warning: the format has other extensions")
        } else {
            Ok(())
        }
    }
}

/// The line of a file without formats: `PATH: unidentified`, and which text it is if it is one.
#[derive(Clone, Copy)]
pub struct UnidentifiedLine<'a> {
    /// The path of the file, as it was named.
    pub path: &'a str,
    /// How the file is written, if it is plain text.
    pub text: Option<TextKind>,
}

impl Display for UnidentifiedLine<'_> {
    ghost output = { λ it. Some (unidentified_line it.path.now it.text) };

    fn fmt<W: Write>(&self, f: &mut Formatter<W>) -> fmt::Result {
        let path = Shown(self.path.as_bytes());
        writeln!(f, "{path}: unidentified{}", KindText(self.text))
    }
}

/// The end of the line of a file without formats: `, text, UTF-8` or the like; nothing if it is no plain text.
#[derive(Clone, Copy)]
struct KindText(Option<TextKind>);

impl Display for KindText {
    ghost output = { λ it. Some (kind_text it.0) };

    fn fmt<W: Write>(&self, f: &mut Formatter<W>) -> fmt::Result {
        match self.0 {
            Some(kind) => write!(f, ", text, {}", kind_name(kind)),
            None => Ok(()),
        }
    }
}
