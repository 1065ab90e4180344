//! The basis of a format in words, as lines and CSV have it.

ghost use Rattle.std.specs.Prelude.{Some};
ghost use Rattle.droid_cmd_identify.specs.Lines.{basis_text};

use crate::forms::match_text::MatchesText;
use crate::forms::shown_format::Reason;
use droid_terminal::Shown;
use std::fmt::{self, Display, Formatter, Write};

/// Why a file has a format: the bytes that the signature's byte sequences match, or the extension.
#[derive(Clone, Copy)]
pub struct BasisText<'a>(pub Reason<'a>);

impl Display for BasisText<'_> {
    ghost output = { λ it. Some (basis_text it.0) };

    fn fmt<W: Write>(&self, f: &mut Formatter<W>) -> fmt::Result {
        match self.0 {
            Reason::Signature { matches, .. } => write!(f, "{}", MatchesText(matches)),
            Reason::Extension(extension) => {
                write!(f, "extension {}", Shown(extension.as_bytes()))
            }
        }
    }
}
