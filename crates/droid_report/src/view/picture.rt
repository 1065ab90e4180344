//! Pictures of formats: a bar for each of the twelve largest, and one for all others.

ghost use Rattle.std.specs.Prelude.{◌≡◌, ◌++◌, IfOk, OnOk, map};
ghost use Rattle.droid_report.specs.Pictures.{measure_of, most_named, most_of, picture_note, picture_row, picture_rows};
ghost use Rattle.droid_report.specs.Pictures.{rest_of, rest_rows};
ghost use Rattle.droid_report.specs.Seen.{row_seen, rows_seen};

use crate::html::tables::Cell;
use crate::ranks::{Group, together};
use crate::texts;
use crate::view::cells::{bar_row, share_of};
use crate::view::cut::cut;
use std::alloc::{AllocError, Global};

/// What the bars of a picture measure.
#[derive(Clone, Copy)]
pub(crate) enum Measure {
    /// The number of files.
    Files,
    /// Their bytes.
    Bytes,
}

/// Makes a row for each of the first groups, and one for all others together: a name, a number and a bar. `groups` are
/// sorted by the measure, the greatest first. `limit` is how many rows the page's lists have; 0 means that there is no
/// room for names, so all groups are in one row.
pub(crate) fn picture_rows(
    alloc: Global,
    groups: &[Group<'_>],
    measure: Measure,
    limit: usize,
) -> Result<Vec<Vec<Cell>>, AllocError>
    ensures { IfOk result (λ lines. rows_seen lines.items ≡ picture_rows measure limit groups.now) }
{
    let (first, rest) = cut(groups, most_named(limit));
    let most = most_of(first, rest, measure);
    let mut lines = group_rows(alloc, first, measure, most)?;
    add_rest(&mut lines, alloc, rest, measure, most)?;
    Ok(lines)
}

/// Returns how many groups have a row of their own: 12, or none where lists have no rows (`limit` is 0).
///
/// 12 goes with the word in `texts::TWELVE`, which [`picture_note`] shows. The prover does not tie them: it holds this
/// number to `most_named` of `specs/Pictures.antt`, but takes any text for `TWELVE`. Change both, the definition, and
/// `numbers_of.py` of `tests/program/report`, which has the number and the sentence.
fn most_named(limit: usize) -> usize
    ensures { result ≡ most_named limit }
{
    if limit == 0 { 0 } else { 12 }
}

/// Returns the line below a picture's title, which says what its bars are: the twelve largest groups and the rest, or
/// one bar for all where lists have no rows (`limit` is 0). It has to fit what [`most_named`] returns.
pub(crate) fn picture_note(limit: usize) -> &'static str
    ensures { result.now ≡ picture_note limit }
{
    if limit == 0 {
        texts::TOGETHER
    } else {
        texts::TWELVE
    }
}

/// Makes a row for each of these groups, in their order. `most` is the picture's greatest number: the longest bar.
fn group_rows(
    alloc: Global,
    groups: &[Group<'_>],
    measure: Measure,
    most: u64,
) -> Result<Vec<Vec<Cell>>, AllocError>
    ensures { IfOk result (λ lines. rows_seen lines.items ≡ map (picture_row measure most) groups.now) }
{
    let mut lines = Vec::new(alloc);
    for group in groups {
        let line = group_row(alloc, group, measure, most)?;
        lines.push(line)?;
    }
    Ok(lines)
}

/// Makes the row of a group: its name, its number, and a bar in thousandths of `most`, the picture's greatest number.
fn group_row(
    alloc: Global,
    group: &Group<'_>,
    measure: Measure,
    most: u64,
) -> Result<Vec<Cell>, AllocError>
    ensures { IfOk result (λ line. row_seen line ≡ picture_row measure most group.now) }
{
    let amount = measure_of(group, measure);
    let line = bar_row(alloc, group.label, amount, share_of(amount, most))?;
    Ok(line)
}

/// Adds the row `all others` for the groups without a row of their own, if there are any.
fn add_rest(
    lines: &mut Vec<Vec<Cell>>,
    alloc: Global,
    rest: &[Group<'_>],
    measure: Measure,
    most: u64,
) -> Result<(), AllocError>
    ensures { OnOk result (rows_seen lines.new.items ≡ rows_seen lines.old.items ++ rest_rows measure most rest.now) }
{
    if rest.is_empty() {
        return Ok(());
    }
    let amount = rest_of(rest, measure);
    let line = bar_row(alloc, texts::OTHERS, amount, share_of(amount, most))?;
    lines.push(line)?;
    Ok(())
}

/// Returns the greatest number of the picture: that of the first group, as they are sorted, or that of the rest.
fn most_of(first: &[Group<'_>], rest: &[Group<'_>], measure: Measure) -> u64
    ensures { result ≡ most_of measure first.now rest.now }
{
    let others = rest_of(rest, measure);
    match first {
        [group, ..] => measure_of(group, measure).max(others),
        [] => others,
    }
}

/// Returns what a group measures: how many files it has, or how many bytes.
fn measure_of(group: &Group<'_>, measure: Measure) -> u64
    ensures { result ≡ measure_of measure group.now }
{
    match measure {
        Measure::Files => group.count,
        Measure::Bytes => group.bytes,
    }
}

/// Returns what these groups measure together, or 2^64 - 1 if it is more.
fn rest_of(groups: &[Group<'_>], measure: Measure) -> u64
    ensures { result ≡ rest_of measure groups.now }
{
    let sum = together(groups);
    match measure {
        Measure::Files => sum.count,
        Measure::Bytes => sum.bytes,
    }
}
