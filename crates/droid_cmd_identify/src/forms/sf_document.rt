//! The beginning and the end of the document in the shape that Siegfried writes.

ghost use Rattle.std.specs.Prelude.{Some};
ghost use Rattle.droid_cmd_identify.specs.Siegfried.{sf_head};

use crate::forms::json_text::JsonText;
use std::fmt::{self, Display, Formatter, Write};

/// The end of the document.
pub const SF_TAIL: &str = "]}\n";

/// The beginning of the document, up to the first file.
#[derive(Clone, Copy)]
pub struct SfHead<'a> {
    /// This program's name and version.
    pub program: &'a str,
    /// When the files are identified.
    pub scanned: &'a str,
    /// The name of the registry.
    pub registry: &'a str,
    /// When the registry was made.
    pub created: &'a str,
    /// What tells the registry from others.
    pub details: &'a str,
}

impl Display for SfHead<'_> {
    ghost output = { λ it.
        Some (sf_head it.program.now it.scanned.now it.registry.now it.created.now it.details.now) };

    fn fmt<W: Write>(&self, f: &mut Formatter<W>) -> fmt::Result {
        let program = JsonText(self.program);
        let scanned = JsonText(self.scanned);
        let registry = JsonText(self.registry);
        let created = JsonText(self.created);
        let details = JsonText(self.details);
        write!(
            f,
            "{{\"siegfried\":{program},\"scandate\":{scanned},\"signature\":{registry},\"created\":{created},\"\
            identifiers\":[{{\"name\":\"pronom\",\"details\":{details}}}],\"files\":["
        )
    }
}
