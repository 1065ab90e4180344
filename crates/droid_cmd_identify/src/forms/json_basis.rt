//! The basis of a format as an object of JSON.

ghost use Rattle.std.specs.Prelude.{Some, flat_map};
ghost use Rattle.std.specs.Fmt.{WritesOnOk};
ghost use Rattle.droid_cmd_identify.specs.Json.{json_match, json_matches, json_more, json_reason};

use crate::forms::json_text::JsonText;
use crate::forms::shown_format::Reason;
use droid_identity::Match;
use droid_pronom::Anchor;
use std::fmt::{self, Display, Formatter, Write};

/// Why a file has a format, as an object of JSON.
#[derive(Clone, Copy)]
pub(crate) struct JsonReason<'a>(pub Reason<'a>);

impl Display for JsonReason<'_> {
    ghost output = { λ it. Some (json_reason it.0) };

    fn fmt<W: Write>(&self, f: &mut Formatter<W>) -> fmt::Result {
        match self.0 {
            Reason::Signature { number, matches } => {
                write!(
                    f,
                    "{{\"signature\":{number},\"matches\":[{}]}}",
                    JsonMatches(matches)
                )
            }
            Reason::Extension(extension) => {
                write!(f, "{{\"extension\":{}}}", JsonText(extension))
            }
        }
    }
}

/// Matches, separated by commas.
#[derive(Clone, Copy)]
struct JsonMatches<'a>(&'a [Match]);

impl Display for JsonMatches<'_> {
    ghost output = { λ it. Some (json_matches it.0.now) };

    fn fmt<W: Write>(&self, f: &mut Formatter<W>) -> fmt::Result {
        match self.0 {
            [first, more @ ..] => {
                write!(f, "{}", JsonMatch(*first))?;
                write_more(more, f)
            }
            [] => Ok(()),
        }
    }
}

/// Writes further matches, each after a comma.
fn write_more<W: Write>(matches: &[Match], f: &mut Formatter<W>) -> fmt::Result
    ensures { WritesOnOk W.write_str_gives f.old result (flat_map json_more matches.now) f.new }
{
    for its in matches {
        write!(f, ",{}", JsonMatch(*its))?;
    }
    Ok(())
}

/// A match as an object of JSON. Its offset is counted from the end of the file that `from` names, as the registry
/// counts.
#[derive(Clone, Copy)]
struct JsonMatch(Match);

impl Display for JsonMatch {
    ghost output = { λ it. Some (json_match it.0) };

    fn fmt<W: Write>(&self, f: &mut Formatter<W>) -> fmt::Result {
        let Match {
            anchor,
            offset,
            count,
        } = self.0;
        let end = match anchor {
            Anchor::Bof => "start",
            Anchor::Eof => "end",
        };
        write!(
            f,
            "{{\"from\":\"{end}\",\"offset\":{offset},\"length\":{count}}}"
        )
    }
}
