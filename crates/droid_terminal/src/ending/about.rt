//! What the sentence of a fault is about: its first words.

ghost use Rattle.std.specs.Prelude.{Some};
ghost use Rattle.droid_terminal.specs.Endings.{about_text};

use crate::path_text::Shown;
use std::fmt;
use std::fmt::{Display, Formatter, Write};

/// What a sentence is about. It prints as the words before the row's text, with `: ` behind a path or a port.
#[derive(Clone, Copy)]
pub enum About<'a> {
    /// Nothing that has a name.
    Nothing,
    /// The file or folder at this path, or `standard output`.
    Path(&'a str),
    /// The file at this path with an ending behind it.
    Beside(&'a str, &'static str),
    /// A port of this machine.
    Port(u16),
    /// A port on which nobody listens. Prints a whole sentence, so the row's text is empty or goes on after a comma.
    Unheard(u16),
}

impl Display for About<'_> {
    ghost output = { λ about. Some (about_text about) };

    fn fmt<W: Write>(&self, f: &mut Formatter<W>) -> fmt::Result {
        match *self {
            About::Nothing => Ok(()),
            About::Path(path) => write!(f, "{}: ", Shown(path.as_bytes())),
            About::Beside(path, ending) => write!(f, "{}{ending}: ", Shown(path.as_bytes())),
            About::Port(port) => write!(f, "port {port}: "),
            About::Unheard(port) => write!(
                f,
                "nobody listens on port {port}: start droid_desk serve --port {port} first"
            ),
        }
    }
}
