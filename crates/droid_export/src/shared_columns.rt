//! Computes the columns that all rows of a record share, once for each record. `digits` is the place where a number's
//! digits are written.

ghost use Rattle.std.specs.Prelude.{◌≡◌, length};
ghost use Rattle.std.specs.Fmt.{decimal};
ghost use Rattle.hex.specs.Hex.{encode_lower};
ghost use Rattle.droid_frame.specs.Hashes.{hash_bytes};
ghost use Rattle.droid_export.specs.Rows.{of_file, parent_text};

use crate::hash_text::HashText;
use droid_frame::Record;
use itoa::Buffer;

/// The columns that all rows of a record share and that have to be computed from the record. `IsCommon` of
/// `specs/Columns.antt` says what each is; a column that is computed anew needs a line there too.
#[derive(Clone, Copy)]
pub(crate) struct Common<'a> {
    pub(crate) id: &'a str,
    pub(crate) parent_id: &'a str,
    pub(crate) uri: &'a str,
    pub(crate) size: &'a str,
    pub(crate) last_modified: [u8; 19],
    pub(crate) hash: &'a [u8],
    pub(crate) format_count: &'a str,
}

/// Writes the ID of the parent folder, or nothing for a node at the top, whose parent is 0.
pub(crate) fn parent_text(digits: &mut Buffer, parent: u32) -> &str
    ensures { result.now ≡ parent_text parent }
{
    if parent == 0 {
        return "";
    }
    digits.format(parent)
}

/// Writes the size of a file in bytes, or nothing for a folder.
pub(crate) fn size_text<'a>(digits: &'a mut Buffer, node: &Record) -> &'a str
    ensures { result.now ≡ of_file node.now (decimal node.now.size) }
{
    if !node.kind.is_file() {
        return "";
    }
    digits.format(node.size)
}

/// Writes the number of formats of a file, or nothing for a folder.
pub(crate) fn count_text<'a>(digits: &'a mut Buffer, node: &Record) -> &'a str
    ensures { result.now ≡ of_file node.now (decimal (length node.now.puids)) }
{
    if !node.kind.is_file() {
        return "";
    }
    digits.format(node.puids.len())
}

/// Returns the digits of the hash of a file, or nothing for a folder or if there is no hash.
pub(crate) fn hash_text(node: &Record) -> HashText
    ensures { result ≡ of_file node.now (encode_lower (hash_bytes node.now.hash)) }
{
    if !node.kind.is_file() {
        return HashText::none();
    }
    HashText::of(&node.hash)
}
