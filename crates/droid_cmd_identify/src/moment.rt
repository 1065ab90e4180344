//! Moments as text in UTC, as the document that is shaped as Siegfried's has them.

ghost use Rattle.std.specs.Prelude.{◌≡◌, ◌++◌, IfOk, codes, string_bytes};
ghost use Rattle.droid_arguments.specs.declared.identify.IdentifyForm.TheVariants.{Siegfried};
ghost use Rattle.droid_export.specs.Moments.{IsMoment, moment_text};

use droid_arguments::IdentifyForm;
use droid_export::moment_text;
use std::alloc::{AllocError, Global};

/// The first and the last second that has a text: 0001-01-01T00:00:00 and 9999-12-31T23:59:59. `IsMoment` of
/// `droid_export` has these numbers too, and the prover ties them.
const FIRST: i64 = -62_135_596_800;

const LAST: i64 = 253_402_300_799;

/// Returns the text of the moment at which a file was last changed, in the one form that prints it: the document that
/// is shaped as Siegfried's. In the others returns an empty text, which costs nothing.
pub(crate) fn shown_moment(
    alloc: Global,
    form: IdentifyForm,
    seconds: i64,
) -> Result<String, AllocError>
    ensures { IfOk result (λ text.
        form ≡ Siegfried → IsMoment seconds → string_bytes text ≡ moment_text seconds ++ codes "Z") }
{
    match form {
        IdentifyForm::Siegfried => utc_text(alloc, seconds),
        IdentifyForm::Lines => Ok(String::new(alloc)),
        IdentifyForm::Puids => Ok(String::new(alloc)),
        IdentifyForm::Csv => Ok(String::new(alloc)),
        IdentifyForm::Json => Ok(String::new(alloc)),
    }
}

/// Writes a moment, in seconds since 1970-01-01T00:00:00 UTC, as `yyyy-mm-ddThh:mm:ssZ` (RFC 3339). One that has no
/// text is written as the nearest that has one.
pub fn utc_text(alloc: Global, seconds: i64) -> Result<String, AllocError>
    ensures { IfOk result (λ text. IsMoment seconds → string_bytes text ≡ moment_text seconds ++ codes "Z") }
{
    let moment = moment_text(alloc, nearest(seconds))?;
    format!(in alloc; "{}Z", moment.as_str())
}

/// Returns the nearest second that has a text. For a second that has none, the clauses hold that the other one has a
/// text, and not that it is the nearest.
fn nearest(seconds: i64) -> i64
    ensures moment { IsMoment result }
    ensures same { IsMoment seconds → result ≡ seconds }
{
    if seconds < FIRST {
        return FIRST;
    }
    if seconds > LAST { LAST } else { seconds }
}
