//! Reads a row with all columns, as an item and its place among others.

ghost use Rattle.std.specs.Prelude.{◌≡◌, IfOk};
ghost use Rattle.droid_export.specs.Profiles as profiles;

use crate::column::{COLUMNS, Column};
use crate::csv_row::{Row, said};
use crate::fields::kind_of;
use crate::reading::fault::RowFault;
use crate::reading::fields::{
    above_of, hash_of, id_of, length_of, moment_of, parent_of, path_of, rows_of,
};
use droid_frame::{Blob, HashKind, HashValue, Item, NodeKind};
use std::alloc::{AllocError, Global};

/// Where a row says that its item is.
#[derive(Clone, Copy)]
pub(crate) struct Spot {
    /// The ID.
    pub(crate) id: u32,
    /// The ID of the folder above, or 0 at the top.
    pub(crate) parent: u32,
    /// How many bytes of the path are that of the folder above.
    pub(crate) above: usize,
}

/// What a row says beside its path.
#[derive(Clone, Copy)]
pub(crate) struct Parts {
    spot: Spot,
    kind: NodeKind,
    length: Option<u64>,
    modified: Option<[u8; 19]>,
    hash: HashValue,
    rows: u64,
}

/// What a row says.
#[derive(Drop)]
pub(crate) struct Entry {
    /// The item.
    pub(crate) item: Item,
    /// Where it is.
    pub(crate) spot: Spot,
    /// How many rows the item has.
    pub(crate) rows: u64,
}

/// Reads a row of a list with hashes of the kind `digest`. The inner result is what the row says, or what is wrong with
/// it: the number of its fields, or its first wrong column. The outer one fails only if memory runs out.
pub(crate) fn entry_of<R: Row>(
    alloc: Global,
    digest: HashKind,
    row: &R,
) -> Result<Result<Entry, RowFault>, AllocError>
    ensures { IfOk result (λ entry. entry ≡ profiles.entry_of digest (R.fields row.now)) }
{
    if row.count() != COLUMNS.len() {
        return Ok(Err(RowFault::Fields));
    }
    match parts_of(digest, row) {
        Ok(parts) => {
            let path = Blob::copy_of(alloc, said(row, Column::FilePath))?;
            let item = Item {
                path,
                kind: parts.kind,
                length: parts.length,
                modified: parts.modified,
                hash: parts.hash,
            };
            Ok(Ok(Entry {
                item,
                spot: parts.spot,
                rows: parts.rows,
            }))
        }
        Err(column) => Ok(Err(RowFault::Column(column))),
    }
}

/// Reads what a row says beside its path. Returns the first wrong column.
#[tactic(auto, unfolding(crate::specs::Profiles::parts_of))]
fn parts_of<R: Row>(digest: HashKind, row: &R) -> Result<Parts, Column>
    ensures { result ≡ profiles.parts_of digest (R.fields row.now) }
{
    let spot = spot_of(row)?;
    let kind = kind_of(said(row, Column::Kind)).ok_or(Column::Kind)?;
    let length = length_of(kind, said(row, Column::Size)).ok_or(Column::Size)?;
    let modified = moment_of(said(row, Column::LastModified)).ok_or(Column::LastModified)?;
    let hash = hash_of(digest, kind, said(row, Column::Hash)).ok_or(Column::Hash)?;
    let rows = rows_of(kind, said(row, Column::FormatCount)).ok_or(Column::FormatCount)?;
    Ok(Parts {
        spot,
        kind,
        length,
        modified,
        hash,
        rows,
    })
}

/// Reads where a row says that its item is: ID, PARENT_ID, FILE_PATH and NAME. Returns the first wrong column.
#[tactic(auto, unfolding(crate::specs::Profiles::spot_of))]
fn spot_of<R: Row>(row: &R) -> Result<Spot, Column>
    ensures { result ≡ profiles.spot_of (R.fields row.now) }
{
    let id = id_of(said(row, Column::Id)).ok_or(Column::Id)?;
    let parent = parent_of(said(row, Column::ParentId)).ok_or(Column::ParentId)?;
    let path = path_of(said(row, Column::FilePath)).ok_or(Column::FilePath)?;
    let above = above_of(path, said(row, Column::Name)).ok_or(Column::Name)?;
    spot_by(id, parent, above)
}

/// Returns the spot of an item, from its ID, that of the folder above it (0 for none) and the path above its own (empty
/// at the top). PARENT_ID is wrong if only one of the two says that the item is at the top.
fn spot_by(id: u32, parent: u32, above: &[u8]) -> Result<Spot, Column>
    ensures { result ≡ profiles.spot_by id parent above.now }
{
    let fits = (parent == 0) == above.is_empty();
    if fits {
        Ok(Spot {
            id,
            parent,
            above: above.len(),
        })
    } else {
        Err(Column::ParentId)
    }
}
