//! The line of JSON of a file.

ghost use Rattle.std.specs.Prelude.{Some, flat_map};
ghost use Rattle.std.specs.Fmt.{WritesOnOk};
ghost use Rattle.droid_cmd_identify.specs.Json.{json_format, json_formats, json_hash, json_kind, json_line};
ghost use Rattle.droid_cmd_identify.specs.Json.{json_method, json_more_formats};

use crate::forms::json_basis::JsonReason;
use crate::forms::json_text::JsonText;
use crate::forms::kind_name::{hash_name, kind_name};
use crate::forms::shown_file::{ShownFile, ShownHash};
use crate::forms::shown_format::ShownFormat;
use droid_frame::Method;
use droid_identity::TextKind;
use std::fmt::{self, Display, Formatter, Write};

/// What is said of one file, as an object of JSON on a line of its own.
#[derive(Clone, Copy)]
pub struct JsonLine<'a>(pub ShownFile<'a>);

impl Display for JsonLine<'_> {
    ghost output = { λ it. Some (json_line it.0) };

    fn fmt<W: Write>(&self, f: &mut Formatter<W>) -> fmt::Result {
        let file = self.0;
        let path = JsonText(file.path);
        let size = file.size;
        let method = JsonMethod(file.method);
        let mismatch = file.mismatch;
        let text = JsonKind(file.text);
        let hash = JsonHash(file.hash);
        let formats = JsonFormats(file.formats);
        writeln!(
            f,
            "{{\"path\":{path},\"size\":{size},\"method\":{method},\"mismatch\":{mismatch},\"text\":{text}{hash},\"\
            formats\":[{formats}]}}"
        )
    }
}

/// The hash of a file, as a further member of its object; nothing if it has none.
#[derive(Clone, Copy)]
pub(crate) struct JsonHash<'a>(pub Option<ShownHash<'a>>);

impl Display for JsonHash<'_> {
    ghost output = { λ it. Some (json_hash it.0) };

    fn fmt<W: Write>(&self, f: &mut Formatter<W>) -> fmt::Result {
        match self.0 {
            Some(hash) => {
                let name = hash_name(hash.kind);
                let digits = hash.digits;
                write!(f, ",\"{name}\":\"{digits}\"")
            }
            None => Ok(()),
        }
    }
}

/// How formats were found: a string, or null.
#[derive(Clone, Copy)]
struct JsonMethod(Method);

impl Display for JsonMethod {
    ghost output = { λ it. Some (json_method it.0) };

    fn fmt<W: Write>(&self, f: &mut Formatter<W>) -> fmt::Result {
        match self.0 {
            Method::Signature => f.write_str("\"signature\""),
            Method::Extension => f.write_str("\"extension\""),
            Method::Unidentified => f.write_str("null"),
        }
    }
}

/// The name of a kind of text, or null.
#[derive(Clone, Copy)]
struct JsonKind(Option<TextKind>);

impl Display for JsonKind {
    ghost output = { λ it. Some (json_kind it.0) };

    fn fmt<W: Write>(&self, f: &mut Formatter<W>) -> fmt::Result {
        match self.0 {
            Some(kind) => write!(f, "\"{}\"", kind_name(kind)),
            None => f.write_str("null"),
        }
    }
}

/// Formats, separated by commas.
#[derive(Clone, Copy)]
struct JsonFormats<'a>(&'a [ShownFormat<'a>]);

impl Display for JsonFormats<'_> {
    ghost output = { λ it. Some (json_formats it.0.now) };

    fn fmt<W: Write>(&self, f: &mut Formatter<W>) -> fmt::Result {
        match self.0 {
            [first, more @ ..] => {
                write!(f, "{}", JsonFormat(*first))?;
                write_more(more, f)
            }
            [] => Ok(()),
        }
    }
}

/// Writes the objects of further formats, each after a comma.
fn write_more<W: Write>(formats: &[ShownFormat<'_>], f: &mut Formatter<W>) -> fmt::Result
    ensures { WritesOnOk W.write_str_gives f.old result (flat_map json_more_formats formats.now) f.new }
{
    for its in formats {
        write!(f, ",{}", JsonFormat(*its))?;
    }
    Ok(())
}

/// A format as an object of JSON.
#[derive(Clone, Copy)]
struct JsonFormat<'a>(ShownFormat<'a>);

impl Display for JsonFormat<'_> {
    ghost output = { λ it. Some (json_format it.0) };

    #[tactic(auto, unfolding(crate::specs::Json::json_format))]
    fn fmt<W: Write>(&self, f: &mut Formatter<W>) -> fmt::Result {
        let format = self.0.format;
        let puid = JsonText(format.puid.as_str());
        let name = JsonText(format.name.as_str());
        let version = JsonText(format.version.as_str());
        let mime = JsonText(format.mime.as_str());
        let basis = JsonReason(self.0.reason);
        write!(
            f,
            "{{\"puid\":{puid},\"name\":{name},\"version\":{version},\"mime\":{mime},\"basis\":{basis}}}"
        )
    }
}
