//! The bytes of a file that a match covers.

ghost use Rattle.std.specs.Prelude.{Some, flat_map};
ghost use Rattle.std.specs.Fmt.{WritesOnOk};
ghost use Rattle.droid_cmd_identify.specs.Lines.{at_begin, at_end, match_text, matches_text, more_text};

use droid_identity::Match;
use droid_pronom::Anchor;
use std::fmt::{self, Display, Formatter, Write};

/// A match. It prints as the bytes that it covers.
#[derive(Clone, Copy)]
pub struct MatchText(pub Match);

impl Display for MatchText {
    ghost output = { λ it. Some (match_text it.0) };

    fn fmt<W: Write>(&self, f: &mut Formatter<W>) -> fmt::Result {
        let Match {
            anchor,
            offset,
            count,
        } = self.0;
        match anchor {
            Anchor::Bof => write!(f, "{}", AtBegin { offset, count }),
            Anchor::Eof => write!(f, "{}", AtEnd { offset, count }),
        }
    }
}

/// Bytes that are counted from the beginning of a file: `bytes 0 to 7`, both included, or `byte 4`.
#[derive(Clone, Copy)]
struct AtBegin {
    offset: u32,
    count: u32,
}

impl Display for AtBegin {
    ghost output = { λ it. Some (at_begin it.offset it.count) };

    #[tactic(auto, unfolding(crate::specs::Lines::at_begin))]
    fn fmt<W: Write>(&self, f: &mut Formatter<W>) -> fmt::Result {
        if self.count == 1 {
            return write!(f, "byte {}", self.offset);
        }
        let end = u64::from(self.offset) + u64::from(self.count);
        write!(f, "bytes {} to {}", self.offset, end.saturating_sub(1))
    }
}

/// Bytes that are counted from the end of a file: `the last 6`, or `6 before the last 10`. `offset` counts the bytes
/// behind them.
#[derive(Clone, Copy)]
struct AtEnd {
    offset: u32,
    count: u32,
}

impl Display for AtEnd {
    ghost output = { λ it. Some (at_end it.offset it.count) };

    #[tactic(auto, unfolding(crate::specs::Lines::at_end))]
    fn fmt<W: Write>(&self, f: &mut Formatter<W>) -> fmt::Result {
        if self.offset == 0 {
            return write!(f, "the last {}", self.count);
        }
        write!(f, "{} before the last {}", self.count, self.offset)
    }
}

/// The matches of a signature's byte sequences, separated by semicolons.
#[derive(Clone, Copy)]
pub struct MatchesText<'a>(pub &'a [Match]);

impl Display for MatchesText<'_> {
    ghost output = { λ it. Some (matches_text it.0.now) };

    fn fmt<W: Write>(&self, f: &mut Formatter<W>) -> fmt::Result {
        match self.0 {
            [first, more @ ..] => {
                write!(f, "{}", MatchText(*first))?;
                write_more(more, f)
            }
            [] => Ok(()),
        }
    }
}

/// Writes further matches, each after a semicolon.
fn write_more<W: Write>(matches: &[Match], f: &mut Formatter<W>) -> fmt::Result
    ensures { WritesOnOk W.write_str_gives f.old result (flat_map more_text matches.now) f.new }
{
    for its in matches {
        write!(f, "; {}", MatchText(*its))?;
    }
    Ok(())
}
