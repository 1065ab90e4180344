//! The extension of a record, for the column EXT and for filters.

ghost use Rattle.std.specs.Prelude.{◌≡◌};
ghost use Rattle.droid_export.specs.Filters.{extension};

use droid_frame::{NodeKind, Record};

/// Returns the extension of a file, its letters as in its name: what stands behind the last dot, or no bytes (as
/// `droid_pronom` has it). A folder has none.
#[tactic(auto, unfolding(crate::specs::Filters::extension))]
pub(crate) fn extension(node: &Record) -> &str
    ensures { result.now ≡ extension node.now }
{
    match node.kind {
        NodeKind::File => droid_pronom::extension(node.name.as_str()),
        NodeKind::Folder => "",
    }
}
