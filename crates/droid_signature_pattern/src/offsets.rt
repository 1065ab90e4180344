//! Offsets that a registry can hold: two bytes each, so at most 65,535. `IsReasonOfLower`, `IsReasonOfUpper` and
//! `AreRead` have the number, and the clauses here; the prover ties them.

ghost use Rattle.std.specs.Prelude.{◌≡◌, ◌≤◌, Some, IfErr, IfOk};
ghost use Rattle.droid_signature_file.specs.Meaning.{lowest};
ghost use Rattle.droid_signature_pattern.specs.Reasons.{IsReasonOfBounds, IsReasonOfLower, IsReasonOfUpper};

use crate::reason::Reason;
use droid_signature_file::OffsetRange;

/// Returns the lower and the upper offset of a first subsequence or a fragment, or the reason of the two below.
pub(crate) fn bounds_of(offsets: OffsetRange) -> Result<(u16, u16), Reason>
    ensures ok { IfOk result (λ bounds.
        (bounds.0 ≡ lowest offsets) × (offsets.max ≡ Some bounds.1) × (bounds.0 ≤ bounds.1) × (bounds.1 ≤ 65535)) }
    ensures err { IfErr result (IsReasonOfBounds offsets) }
{
    let least = lower_of(offsets)?;
    let most = upper_of(offsets, least)?;
    Ok((least, most))
}

/// Returns the lower offset, 0 if it is missing, or `LargeOffset`.
pub(crate) fn lower_of(offsets: OffsetRange) -> Result<u16, Reason>
    ensures ok { IfOk result (λ least. (least ≡ lowest offsets) × (least ≤ 65535)) }
    ensures err { IfErr result (IsReasonOfLower offsets) }
{
    let least = offsets.min.unwrap_or(0);
    if least > 65_535 {
        return Err(Reason::LargeOffset);
    }
    Ok(least as u16)
}

/// Returns the upper offset, which has to be there (`NoUpperOffset`), be small enough (`LargeOffset`), and no less than
/// the lower one, `least` (`OffsetOrder`).
fn upper_of(offsets: OffsetRange, least: u16) -> Result<u16, Reason>
    requires { least ≡ lowest offsets }
    ensures ok { IfOk result (λ most. (offsets.max ≡ Some most) × (least ≤ most) × (most ≤ 65535)) }
    ensures err { IfErr result (IsReasonOfUpper offsets offsets.max) }
{
    let Some(most) = offsets.max else {
        return Err(Reason::NoUpperOffset);
    };
    if most > 65_535 {
        return Err(Reason::LargeOffset);
    }
    let most = most as u16;
    if most < least {
        return Err(Reason::OffsetOrder);
    }
    Ok(most)
}
