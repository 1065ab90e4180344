//! Which differences between the profile and the folder are reported, and what is suggested.

ghost use Rattle.std.specs.Prelude.{◌≡◌, ◌++◌, ℕ, [], ◌∷◌, List, IfOk, OnOk, map};
ghost use Rattle.droid_cmd_submit.specs.DifferenceLines.{is_older, is_reported, is_suggested};
ghost use Rattle.droid_terminal.specs.SkippedPaths.{has_path, is_held};
ghost use Rattle.droid_terminal.specs.declared.skipped.skipped_entry.SkippedEntry.{SkippedEntry};

use crate::difference_line::path_of;
use droid_frame::Refusal;
use droid_lists::{Difference, Known};
use droid_terminal::{SkippedEntry, SkippedPaths, holds_above, paths_of};
use droid_tree::Skipped;
use std::alloc::{AllocError, Global};

/// Returns of each difference, in order, whether it is reported: unless its path, or a folder above it, was reported as
/// skipped. Fails only if memory runs out.
pub(crate) fn reported_in(
    alloc: Global,
    skipped: &[SkippedEntry],
    known: &[Known],
    differences: &[Difference],
) -> Result<Vec<bool>, AllocError>
    ensures { IfOk result (λ reported. reported.items ≡ map (is_reported skipped.now known.now) differences.now) }
{
    let paths = paths_of(alloc, skipped)?;
    let mut reported = Vec::new(alloc);
    for difference in differences {
        add_reported(&mut reported, &paths, known, difference)?;
    }
    Ok(reported)
}

/// Appends whether a difference is reported. `paths` are those of the skipped entries.
fn add_reported(
    reported: &mut Vec<bool>,
    paths: &SkippedPaths<'_>,
    known: &[Known],
    difference: &Difference,
) -> Result<(), AllocError>
    ensures { OnOk result ((skipped : List SkippedEntry)
        → ((path : List ℕ) → is_held paths.now path ≡ has_path skipped path)
        → reported.new.items ≡ reported.old.items ++ is_reported skipped known.now difference.now ∷ []) }
{
    let path = path_of(known, difference);
    reported.push(!holds_above(paths, path))?;
    Ok(())
}

/// Returns whether another --name is suggested: something was skipped that the profile has as it was in an earlier run.
pub(crate) fn is_suggested(skipped: &[SkippedEntry]) -> bool
    ensures { result ≡ is_suggested skipped.now }
{
    let mut suggested = false;
    for entry in skipped {
        suggested = suggested || is_older(entry.why);
    }
    suggested
}

/// Returns whether the reason of a skip shows that the profile has the folder or file as it was in an earlier run: its
/// number or name is used for what it was, or its hash is another.
fn is_older(why: Skipped) -> bool
    ensures { result ≡ is_older why }
{
    match why {
        Skipped::Refused(Refusal::NumberReused) => true,
        Skipped::Refused(Refusal::NameTaken) => true,
        Skipped::OtherHash => true,
        _ => false,
    }
}
