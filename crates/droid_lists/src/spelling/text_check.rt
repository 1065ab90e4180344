//! Checks the text of a profile against what is known of it.

ghost use Rattle.std.specs.Prelude.{IfErr, IfOk};
ghost use Rattle.droid_lists.specs.Differences.{Compares};
ghost use Rattle.droid_lists.specs.TextReading.{IsFaultOf};

use crate::comparison::compare;
use crate::known::{Difference, Known};
use crate::spelling::profile_text::read_text;
use crate::spelling::text_fault::TextFault;
use droid_frame::HashKind;
use std::alloc::Global;

/// Reads the CSV of a profile in its one spelling, and compares it with what is known. docs/CSV.md describes it.
///
/// Unlike other readers of CSV it takes no other spelling of a row, and only rows that a profile can have behind those
/// before them. No registry is asked: the name, version and MIME type of a PUID are not compared, but all rows with
/// this PUID have to repeat them.
pub fn check_text(
    alloc: Global,
    hash: HashKind,
    known: &[Known],
    text: &[u8],
) -> Result<Vec<Difference>, TextFault>
    ensures checked { IfOk result (λ found. Compares hash known.now text.now found.items) }
    ensures wrong { IfErr result (λ fault. IsFaultOf hash text.now fault) }
{
    let entries = read_text(alloc, hash, text)?;
    let found = compare(alloc, known, &entries)?;
    Ok(found)
}
