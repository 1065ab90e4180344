//! The list that a folder is compared with: its items, the formats of its rows, and by what its files are compared.

ghost use Rattle.std.specs.Prelude.{◌≡◌};
ghost use Rattle.droid_cmd_verify.specs.Lists.{GivesComparedList, IsComparedList, may_measure};

use crate::measure::Measure;
use crate::verify_ending::VerifyEnding;
use droid_export::FormatRow;
use droid_frame::HashKind;
use droid_lists::{Listed, read_list};
use std::alloc::Global;

/// What one list says, and how it is to be compared.
#[derive(Drop)]
pub struct ComparedList {
    /// Its items.
    pub listed: Listed,
    /// The formats that its rows give files, or `None` if they are not compared.
    pub rows: Option<Vec<FormatRow>>,
    /// By what its files are compared.
    pub how: Measure,
}

/// Reads the list that these bytes are, in any of its forms, and if formats are compared (`identify`) those of its
/// rows. `in_bag` says whether the folder that it describes is a bag, and `how` by what its files are to be compared.
/// Fails with the ending of the command: `NoList` if the bytes are no list, or `NoMemory`; then `HasHashes` if sizes
/// alone are to be compared and it has a hash; then `NoFormats` if formats are compared and it is one of checksums.
pub fn read_lists(
    alloc: Global,
    in_bag: bool,
    how: Measure,
    identify: bool,
    text: &[u8],
) -> Result<ComparedList, VerifyEnding>
    ensures { IsComparedList in_bag how identify text.now result }
{
    match read_list(alloc, in_bag, identify, text) {
        Ok((listed, rows)) => {
            if !may_measure(how, listed.hash) {
                return Err(VerifyEnding::HasHashes);
            }
            with_formats(how, identify, listed, rows)
        }
        Err(fault) => Err(VerifyEnding::unlisted(fault)),
    }
}

/// Adds the formats of a list, if they are compared. A list of checksums has none: it fails with `NoFormats`.
fn with_formats(
    how: Measure,
    identify: bool,
    listed: Listed,
    rows: Vec<FormatRow>,
) -> Result<ComparedList, VerifyEnding>
    ensures { GivesComparedList how identify listed rows result }
{
    if !identify {
        return Ok(ComparedList {
            listed,
            rows: None,
            how,
        });
    }
    if listed.form.names_files_alone() {
        return Err(VerifyEnding::NoFormats);
    }
    Ok(ComparedList {
        listed,
        rows: Some(rows),
        how,
    })
}

/// Returns whether files that have hashes of this kind may be compared so: by sizes alone, only if they have none.
fn may_measure(how: Measure, hash: HashKind) -> bool
    ensures { result ≡ may_measure how hash }
{
    match how {
        Measure::Hashes => true,
        Measure::Sizes => match hash {
            HashKind::Nothing => true,
            HashKind::Md5 => false,
            HashKind::Sha256 => false,
        },
        Measure::Moments => true,
    }
}
