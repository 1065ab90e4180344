//! The line that is printed for a difference between the profile and the folder, with its path.

ghost use Rattle.std.specs.Prelude.{◌≡◌, Some};
ghost use Rattle.droid_cmd_submit.specs.DifferenceLines.{line_text, path_at, path_of, words_after};
ghost use Rattle.droid_cmd_submit.specs.DifferenceLines.{words_before};

use droid_frame::HashKind;
use droid_lists::{Difference, Known, column_name};
use droid_terminal::Shown;
use std::fmt;
use std::fmt::{Display, Formatter, Write};

/// A difference, in a line.
#[derive(Clone, Copy)]
pub(crate) struct DifferenceLine<'a> {
    /// The difference.
    pub difference: &'a Difference,
    /// What is known of the folders and files that were submitted.
    pub known: &'a [Known],
    /// The kind of the profile's hashes, which name a column.
    pub hash: HashKind,
}

impl Display for DifferenceLine<'_> {
    ghost output = { λ line. Some (line_text line) };

    /// Writes the line: the words, the path with control characters shown, and the column and record that differ.
    #[tactic(auto, unfolding(crate::specs::DifferenceLines::line_text))]
    fn fmt<W: Write>(&self, f: &mut Formatter<W>) -> fmt::Result {
        let before = words_before(self.difference);
        let path = Shown(path_of(self.known, self.difference));
        let after = Rest {
            difference: self.difference,
            hash: self.hash,
        };
        writeln!(f, "{before}{path}{after}")
    }
}

/// What a line has after the path.
#[derive(Clone, Copy)]
struct Rest<'a> {
    difference: &'a Difference,
    hash: HashKind,
}

impl Display for Rest<'_> {
    ghost output = { λ rest. Some (words_after rest.hash rest.difference.now) };

    /// Writes the column, by its name in this CSV, and the record; nothing where a whole record is missing or too many.
    fn fmt<W: Write>(&self, f: &mut Formatter<W>) -> fmt::Result {
        match self.difference {
            Difference::Other { column, record, .. } => {
                let name = column_name(self.hash, *column);
                write!(f, ": the profile has another {name} (record {record})")
            }
            Difference::Missing { .. } => f.write_str(""),
            Difference::More { .. } => f.write_str(""),
        }
    }
}

/// Returns the words before the path, by the kind of difference.
fn words_before(difference: &Difference) -> &'static str
    ensures { result.now ≡ words_before difference.now }
{
    match difference {
        Difference::Other { .. } => "differs: ",
        Difference::Missing { .. } => "not in the profile: ",
        Difference::More { .. } => "not in the folder: ",
    }
}

/// Returns the path that a difference is reported at: that of the submitted folder or file, or, where the profile has
/// one more, the profile's.
pub(crate) fn path_of<'a>(known: &'a [Known], difference: &'a Difference) -> &'a [u8]
    ensures { result.now ≡ path_of known.now difference.now }
{
    match difference {
        Difference::Other { known: place, .. } => path_at(known, *place),
        Difference::Missing { known: place } => path_at(known, *place),
        Difference::More { path, .. } => path.as_slice(),
    }
}

/// Returns the path of what is known at this place, or an empty one past the end, where no difference points.
fn path_at(known: &[Known], place: usize) -> &[u8]
    ensures { result.now ≡ path_at known.now place }
{
    match known.get(place) {
        Some(one) => one.path.as_str().as_bytes(),
        None => b"",
    }
}
