//! Makes the item of a folder or file of a profile.

ghost use Rattle.std.specs.Prelude.{◌≡◌, ◌↔◌, IfOk, IsTrue};
ghost use Rattle.droid_export.specs.Moments.{IsMoment};
ghost use Rattle.droid_lists.specs.Nodes.{IsItemOf};
ghost use Rattle.droid_lists.specs.Nodes as nodes;

use droid_export::moment_bytes;
use droid_frame::{Blob, HashValue, Item, NodeKind};
use std::alloc::{AllocError, Global};

/// Makes the item of a folder or file, as an export of its profile shows it: a folder has neither length nor hash.
///
/// `modified` is in seconds since 1970-01-01T00:00:00 in UTC. Returns `None` if the moment has no text: those before
/// 0001-01-01T00:00:00 and those after 9999-12-31T23:59:59.
pub fn item_of_node(
    alloc: Global,
    path: &str,
    kind: NodeKind,
    size: u64,
    modified: i64,
    hash: HashValue,
) -> Result<Option<Item>, AllocError>
    ensures { IfOk result (λ item. IsItemOf path.now kind size modified hash item) }
{
    if !is_moment(&modified) {
        return Ok(None);
    }
    let moment = moment_bytes(modified);
    let path = Blob::copy_of(alloc, path.as_bytes())?;
    Ok(Some(Item {
        path,
        kind,
        length: length_of(kind, size),
        modified: Some(moment),
        hash: hash_of(kind, hash),
    }))
}

/// Returns whether a moment has a text: from 0001-01-01T00:00:00 to 9999-12-31T23:59:59, in seconds since 1970. The
/// limits are those of `IsMoment` of `droid_export`, and the prover compares both.
fn is_moment(modified: &i64) -> bool
    ensures { IsTrue result ↔ IsMoment modified.now }
{
    let modified = *modified;
    modified >= -62_135_596_800 && modified <= 253_402_300_799
}

/// Returns the size of a file as the length of its item, and none for a folder.
fn length_of(kind: NodeKind, size: u64) -> Option<u64>
    ensures { result ≡ nodes.length_of kind size }
{
    match kind {
        NodeKind::File => Some(size),
        NodeKind::Folder => None,
    }
}

/// Returns the hash of a file, and none for a folder, whatever it is given.
fn hash_of(kind: NodeKind, hash: HashValue) -> HashValue
    ensures { result ≡ nodes.hash_of kind hash }
{
    match kind {
        NodeKind::File => hash,
        NodeKind::Folder => HashValue::Nothing,
    }
}
