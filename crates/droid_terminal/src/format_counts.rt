//! Picks the most frequent formats for the summary.

ghost use Rattle.std.specs.Prelude.{◌≡◌, IfOk, map};
ghost use Rattle.droid_terminal.specs.Frequencies.{AreMostFrequent, format_of};

use droid_frame::Text;
use std::alloc::{AllocError, Global};
use std::collections::BTreeMap;

/// How many formats are reported at most. `AreMostFrequent` has the same 10, which the prover ties to it; the help of
/// `profile` and `test_summary` of `profile_progress.py` have it too.
const MOST_REPORTED: usize = 10;

/// A format, and how many files have it.
#[derive(Drop)]
pub(crate) struct FormatCount {
    /// The format's identifier (PUID).
    pub puid: Text,
    /// How many files have it.
    pub count: u64,
}

/// Returns the ten most frequent formats, or all if there are fewer: the most frequent first, and formats with equal
/// counts in the order of their identifiers. Fails only if memory runs out.
pub(crate) fn most_frequent(
    alloc: Global,
    formats: &BTreeMap<String, u64>,
) -> Result<Vec<FormatCount>, AllocError>
    ensures { IfOk result (λ reported. AreMostFrequent (map format_of formats.now.entries) reported.items) }
{
    let all = all_formats(alloc, formats)?;
    let reported = first_of(all)?;
    Ok(reported)
}

/// Returns a copy of all formats in the order of their identifiers. Fails only if memory runs out.
fn all_formats(
    alloc: Global,
    formats: &BTreeMap<String, u64>,
) -> Result<Vec<FormatCount>, AllocError>
    ensures { IfOk result (λ all. all.items ≡ map format_of formats.now.entries) }
{
    let mut all = Vec::new(alloc);
    for (puid, count) in formats.iter() {
        let puid = Text::copy_of(alloc, puid.as_str())?;
        all.push(FormatCount {
            puid,
            count: *count,
        })?;
    }
    Ok(all)
}

/// Sorts by count, the greatest first, and keeps the first ten. Formats with equal counts stay in their order. The sort
/// puts the least key first, so the key is what a count lacks to the greatest number (`rareness`). Fails only if the
/// sort runs out of memory.
fn first_of(all: Vec<FormatCount>) -> Result<Vec<FormatCount>, AllocError>
    ensures { IfOk result (λ reported. AreMostFrequent all.items reported.items) }
{
    let mut reported = all;
    reported.sort_by_key(|format| u64::MAX.saturating_sub(format.count))?;
    reported.truncate(MOST_REPORTED);
    Ok(reported)
}
