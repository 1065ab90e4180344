//! A fault that ends a command, with all that is printed of it.

ghost use Rattle.std.specs.Prelude.{Some, ◌++◌, decimal};
ghost use Rattle.droid_terminal.specs.Endings.{about_text, detail_text, fault_line, said, sentence_text};

use crate::ending::about::About;
use crate::ending::detail::Detail;
use crate::ending::row::Row;
use crate::path_text::Shown;
use std::fmt;
use std::fmt::{Display, Formatter, Write};

/// A fault that ends a command.
#[derive(Clone, Copy)]
pub struct Fault<'a> {
    /// Its row in the table.
    pub row: Row,
    /// The number of the line or record at fault, if the name has one behind it.
    pub at: Option<u64>,
    /// What its sentence is about.
    pub about: About<'a>,
    /// What its sentence names.
    pub detail: Detail<'a>,
}

/// The first line that is printed of a fault: `fault: `, its name and, if it has a number, ` at ` and that.
#[derive(Clone, Copy)]
pub(crate) struct FaultLine<'a>(pub Fault<'a>);

impl Display for FaultLine<'_> {
    ghost output = { λ line. Some (fault_line line.0.row.name.now line.0.at) };

    fn fmt<W: Write>(&self, f: &mut Formatter<W>) -> fmt::Result {
        let name = self.0.row.name;
        match self.0.at {
            Some(at) => writeln!(f, "fault: {name} at {at}"),
            None => writeln!(f, "fault: {name}"),
        }
    }
}

/// The text of `Detail::Numbered`: a number, what stands behind it, and words.
#[derive(Clone, Copy)]
struct Counted(u64, &'static str, &'static str);

impl Display for Counted {
    ghost output = { λ it. Some (decimal it.0 ++ (it.1.now ++ it.2.now)) };

    fn fmt<W: Write>(&self, f: &mut Formatter<W>) -> fmt::Result {
        write!(f, "{}{}{}", self.0, self.1, self.2)
    }
}

/// The second line: what the sentence is about, the row's text, the detail in its gap, and the rest.
#[derive(Clone, Copy)]
pub(crate) struct Sentence<'a>(pub Fault<'a>);

impl Display for Sentence<'_> {
    // The system's reasons are printed as the system names them: `detail_text` is `None`, and none is proved.
    ghost output = { λ sentence.
        sentence_text (said sentence.0.row) (about_text sentence.0.about) (detail_text sentence.0.detail) };

    fn fmt<W: Write>(&self, f: &mut Formatter<W>) -> fmt::Result {
        let about = self.0.about;
        let text = self.0.row.text;
        let rest = self.0.row.rest;
        match self.0.detail {
            Detail::Nothing => writeln!(f, "{about}{text}{rest}"),
            Detail::Number(number) => writeln!(f, "{about}{text}{number}{rest}"),
            Detail::Numbered(number, between, words) => writeln!(
                f,
                "{about}{text}{}{rest}",
                Counted(number, between, words)
            ),
            Detail::Words(words) => writeln!(f, "{about}{text}{words}{rest}"),
            Detail::Path(path) => writeln!(f, "{about}{text}{}{rest}", Shown(path)),
            Detail::Cause(kind) => writeln!(f, "{about}{text}{kind}{rest}"),
            Detail::CauseAt(kind, path) => {
                writeln!(f, "{about}{text}{kind}: {}{rest}", Shown(path.as_bytes()))
            }
        }
    }
}
