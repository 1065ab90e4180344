//! Whether the rows of a list agree on the numbers (IDs) of folders. After a contradiction or an error nothing is
//! promised of what was noted: `contradiction` ends.

ghost use Rattle.std.specs.Prelude.{◌≡◌, ℕ, List, IfOk, take};
ghost use Rattle.droid_export.specs.FolderMaps.{AllNoted, HasIds, Holds, Noted, RowNoted};
ghost use Rattle.droid_export.specs.FolderNumbers as numbers;
ghost use Rattle.droid_export.specs.FolderNumbers.{Saying, above_sayings, own_sayings};

use crate::column::Column;
use crate::reading::fault::ListFault;
use crate::reading::tag::Tag;
use droid_frame::{Item, NodeKind};
use std::alloc::{AllocError, Global};
use std::collections::{BTreeMap, BTreeSet};

/// The numbers of folders that rows have said so far, both ways: the path of each number, and the number of each path.
#[derive(Drop)]
pub(crate) struct Folders<'a> {
    numbers: BTreeMap<u32, &'a [u8]>,
    paths: BTreeMap<&'a [u8], u32>,
}

/// Returns the fault of the first row that contradicts rows before it, or `None`. `tags` has the tag of each item, at
/// its place; its end ends the search. Fails only if memory runs out.
pub(crate) fn contradiction(
    alloc: Global,
    items: &[Item],
    tags: &[Tag],
) -> Result<Option<ListFault>, AllocError>
    ensures { IfOk result (λ fault. fault ≡ numbers.contradiction items.now tags.now) }
{
    let mut ids = BTreeSet::new(alloc);
    let mut folders = Folders {
        numbers: BTreeMap::new(alloc),
        paths: BTreeMap::new(alloc),
    };
    for place in 0..items.len() {
        let Some(tag) = tags.get(place) else {
            return Ok(None);
        };
        match column_against(&mut ids, &mut folders, &items[place], *tag)? {
            Some(column) => {
                return Ok(Some(ListFault::Contradiction {
                    record: tag.number,
                    column,
                }));
            }
            None => {}
        }
    }
    Ok(None)
}

/// Returns the first column by which a row contradicts the rows before it: ID, where another row or folder has its
/// number, or PARENT_ID. Otherwise notes what it says.
fn column_against<'a>(
    ids: &mut BTreeSet<u32>,
    folders: &mut Folders<'a>,
    item: &'a Item,
    tag: Tag,
) -> Result<Option<Column>, AllocError>
    ensures { IfOk result (λ column.
        (seen : List ℕ) (said : List Saying) → HasIds ids.old seen → Holds folders.old said
        → RowNoted column ids.new folders.new seen said item.now tag) }
{
    let first = ids.insert(tag.id)?;
    if !first {
        return Ok(Some(Column::Id));
    }
    let own = note_own(folders, item, tag)?;
    if !own {
        return Ok(Some(Column::Id));
    }
    let above = note_above(folders, item, tag)?;
    if !above {
        return Ok(Some(Column::ParentId));
    }
    Ok(None)
}

/// Notes what the row of a folder says of its own number. Returns whether this agrees with all that was noted. The row
/// of a file says nothing of folders.
fn note_own<'a>(folders: &mut Folders<'a>, item: &'a Item, tag: Tag) -> Result<bool, AllocError>
    ensures { IfOk result (λ agrees.
        (said : List Saying) → Holds folders.old said → AllNoted agrees folders.new said (own_sayings item.now tag)) }
{
    match item.kind {
        NodeKind::File => Ok(true),
        NodeKind::Folder => {
            let agrees = note(folders, tag.id, item.path.as_slice())?;
            Ok(agrees)
        }
    }
}

/// Notes what a row says of the number of the folder above. Returns whether this agrees with all that was noted. A row
/// at the top says nothing.
fn note_above<'a>(folders: &mut Folders<'a>, item: &'a Item, tag: Tag) -> Result<bool, AllocError>
    ensures { IfOk result (λ agrees.
        (said : List Saying) → Holds folders.old said → AllNoted agrees folders.new said (above_sayings item.now tag)) }
{
    if tag.parent == 0 {
        return Ok(true);
    }
    let agrees = note(folders, tag.parent, front(item.path.as_slice(), tag.above))?;
    Ok(agrees)
}

/// Returns the first `length` bytes of a path, or all of a shorter one.
fn front(path: &[u8], length: usize) -> &[u8]
    ensures { result.now ≡ take length path.now }
{
    match path.split_at_checked(length) {
        Some((front, _)) => front,
        None => path,
    }
}

/// Notes that a folder has a number. Returns whether this agrees with all that was noted; if not, nothing changes.
fn note<'a>(folders: &mut Folders<'a>, number: u32, path: &'a [u8]) -> Result<bool, AllocError>
    ensures { IfOk result (λ agrees.
        (said : List Saying) → Holds folders.old said
        → Noted agrees folders.new said (record { number = number; path = path.now })) }
{
    match folders.numbers.get(&number) {
        // Both maps say the same, so that the other one need not be looked at.
        Some(known) => Ok(*known == path),
        None => match folders.paths.get(path) {
            Some(_) => Ok(false),
            None => {
                folders.numbers.insert(number, path)?;
                folders.paths.insert(path, number)?;
                Ok(true)
            }
        },
    }
}
