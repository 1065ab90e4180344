//! Whether the positions of fragments and of subsequences are those that a registry's patterns can hold.

ghost use Rattle.std.specs.Prelude.{◌≡◌, IfErr, OnOk};
ghost use Rattle.droid_signature_file.specs.Meaning.{outermost};
ghost use Rattle.droid_signature_pattern.specs.Positions as spec;
ghost use Rattle.droid_signature_pattern.specs.Positions.{ArePositions, AreWhole};
ghost use Rattle.droid_signature_pattern.specs.Reasons.{IsReasonOfPositions};

use crate::reason::Reason;
use droid_signature_file::{Fragment, SubSequence};

/// The largest position of a fragment. This limit is the project's own, and has nothing to do with the other limits of
/// 64. The definitions `IsPosition` and `IsReasonOfPosition` have this number too. It also bounds `see_each`, which
/// goes over all fragments for each position.
const LARGEST_POSITION: u32 = 64;

/// Checks that the positions of the fragments on one side are 1 to the largest, each at least once (otherwise
/// `FragmentPositions`), and at most 64 (`LargePosition`).
pub(crate) fn see_positions(fragments: &[Fragment]) -> Result<(), Reason>
    ensures ok { OnOk result (ArePositions fragments.now) }
    ensures err { IfErr result (IsReasonOfPositions fragments.now) }
{
    for fragment in fragments {
        if fragment.position == 0 {
            return Err(Reason::FragmentPositions);
        }
        if fragment.position > LARGEST_POSITION {
            return Err(Reason::LargePosition);
        }
    }
    see_each(fragments)?;
    Ok(())
}

/// Checks that each position from 1 to the largest has a fragment, otherwise `FragmentPositions`.
fn see_each(fragments: &[Fragment]) -> Result<(), Reason>
    ensures ok { OnOk result (AreWhole fragments.now) }
    ensures err { IfErr result (IsReasonOfPositions fragments.now) }
{
    let last = outermost(fragments);
    for inner in 0..last {
        if !has_position(fragments, inner + 1) {
            return Err(Reason::FragmentPositions);
        }
    }
    Ok(())
}

/// Returns the position of the outermost fragment, 0 if there are none.
fn outermost(fragments: &[Fragment]) -> u32
    ensures { result ≡ outermost fragments.now }
{
    let mut last = 0;
    for fragment in fragments {
        last = fragment.position.max(last);
    }
    last
}

/// Returns whether a fragment has this position.
fn has_position(fragments: &[Fragment], position: u32) -> bool
    ensures { result ≡ spec.has_position position fragments.now }
{
    fragments.iter().any(|it| it.position == position)
}

/// Returns whether the subsequences' positions are 1, 2, 3 and so on.
pub(crate) fn are_numbered(parts: &[SubSequence]) -> bool
    ensures { result ≡ spec.are_numbered 1 parts.now }
{
    for place in 0..parts.len() {
        if parts[place].position() as usize != place + 1 {
            return false;
        }
    }
    true
}
