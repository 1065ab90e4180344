//! Leaves out, on both sides, the items that could not be read: those of a list and those that were found.

ghost use Rattle.std.specs.Prelude.{◌≡◌, ◌++◌, ℕ, List, [], ◌∷◌, IfOk, OnOk, map};
ghost use Rattle.droid_terminal.specs.SkippedPaths.{has_path, is_held};
ghost use Rattle.droid_terminal.specs.declared.skipped.skipped_entry.SkippedEntry.{SkippedEntry};
ghost use Rattle.droid_cmd_verify.specs.CheckedTrees.{is_readable, readable_in};
ghost use Rattle.droid_fixity.specs.Inventories.{AreInOrder};
ghost use Rattle.droid_lists.specs.Listings.{IsInventory};

use droid_fixity::Inventory;
use droid_frame::{Blob, Item};
use droid_terminal::{SkippedEntry, SkippedPaths, holds_above, paths_of};
use std::alloc::{AllocError, Global};

/// Returns the items of a list that are neither unreadable nor below an unreadable folder. Fails only if memory runs
/// out.
#[tactic(auto, using(crate::proofs::ReadableItems::some_in_order))]
pub(crate) fn readable_of(
    alloc: Global,
    unreadable: &[SkippedEntry],
    items: Inventory,
) -> Result<Inventory, AllocError>
    ensures { IfOk result (λ readable. IsInventory (readable_in unreadable.now items) readable) }
{
    if unreadable.is_empty() {
        // The prover learns from this call that the paths are in order.
        let _items = items.as_slice();
        return Ok(items);
    }
    let readable = readable_in(alloc, unreadable, items.as_slice())?;
    Ok(inventory_of(readable))
}

/// Returns the inventory of items that are in order of path, as the prover knows: no path is there twice.
fn inventory_of(items: Vec<Item>) -> Inventory
    requires { AreInOrder (map (λ item. item.path) items.items) }
    ensures { IsInventory items.items result }
{
    match Inventory::of(items) {
        Ok(inventory) => {
            // The prover learns from this call that the paths are in order.
            let _items = inventory.as_slice();
            inventory
        }
        Err(_) => unreachable!(),
    }
}

/// Copies the items that are neither unreadable nor below an unreadable folder. Fails only if memory runs out.
fn readable_in(
    alloc: Global,
    unreadable: &[SkippedEntry],
    items: &[Item],
) -> Result<Vec<Item>, AllocError>
    ensures { IfOk result (λ readable. readable.items ≡ readable_in unreadable.now items.now) }
{
    let paths = paths_of(alloc, unreadable)?;
    let mut readable = Vec::new(alloc);
    for item in items {
        add_readable(alloc, &mut readable, &paths, item)?;
    }
    Ok(readable)
}

/// Removes the items that are unreadable, and those below an unreadable folder. Fails only if memory runs out; nothing
/// is promised of the items then, and the caller drops them.
pub(crate) fn keep_readable(
    alloc: Global,
    unreadable: &[SkippedEntry],
    items: &mut Vec<Item>,
) -> Result<(), AllocError>
    ensures { OnOk result (items.new.items ≡ readable_in unreadable.now items.old.items) }
{
    if 0 < unreadable.len() {
        let paths = paths_of(alloc, unreadable)?;
        retain_readable(&paths, items);
    }
    Ok(())
}

/// Removes the items whose path, or that of a folder above, is among these. The clauses here are about any entries that
/// have just these paths, since the map alone does not say of which it was made.
fn retain_readable(paths: &SkippedPaths<'_>, items: &mut Vec<Item>)
    ensures { (unreadable : List SkippedEntry) → ((path : List ℕ) → is_held paths.now path ≡ has_path unreadable path)
        → items.new.items ≡ readable_in unreadable items.old.items }
{
    items.retain(|item| is_readable(paths, item));
}

/// Returns whether an item could be read: neither its path nor that of a folder above is among these.
fn is_readable(paths: &SkippedPaths<'_>, item: &Item) -> bool
    ensures { (unreadable : List SkippedEntry) → ((path : List ℕ) → is_held paths.now path ≡ has_path unreadable path)
        → result ≡ is_readable unreadable item.now }
{
    !holds_above(paths, item.path.as_slice())
}

/// Appends a copy of an item, if it could be read. Fails only if memory runs out; `readable_in` drops the copies then.
fn add_readable(
    alloc: Global,
    readable: &mut Vec<Item>,
    paths: &SkippedPaths<'_>,
    item: &Item,
) -> Result<(), AllocError>
    ensures { OnOk result ((unreadable : List SkippedEntry)
        → ((path : List ℕ) → is_held paths.now path ≡ has_path unreadable path)
        → readable.new.items ≡ readable.old.items ++ readable_in unreadable (item.now ∷ [])) }
{
    if holds_above(paths, item.path.as_slice()) {
        return Ok(());
    }
    let copy = copy_of(alloc, item)?;
    readable.push(copy)?;
    Ok(())
}

/// Copies an item, with its path. Fails only if memory runs out.
fn copy_of(alloc: Global, item: &Item) -> Result<Item, AllocError>
    ensures { IfOk result (λ copy. copy ≡ item.now) }
{
    let path = Blob::copy_of(alloc, item.path.as_slice())?;
    Ok(Item {
        path,
        kind: item.kind,
        length: item.length,
        modified: item.modified,
        hash: item.hash,
    })
}
