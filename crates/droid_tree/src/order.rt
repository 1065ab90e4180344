//! Sorts a folder's entries by name.

ghost use Rattle.std.specs.Prelude.{◌≡◌, ◌↔◌, ◌-◌, ◌++◌, [], ◌∷◌, List, Some, false, IfOk, IsTrue, OnOk, length};
ghost use Rattle.std.specs.Prelude.{slice_get};
ghost use Rattle.droid_tree.specs.Listings.{AreSorted, IsBeforeNone, Splits};
ghost use Rattle.droid_tree.specs.Order.{IsBefore};
ghost use Rattle.droid_tree.specs.declared.folder_entry.FolderEntry.{FolderEntry};

use crate::folder_entry::FolderEntry;
use crate::listing::Listing;
use crate::name_order::order_of_names;
use std::alloc::{AllocError, Global};
use std::cmp::Ordering;

/// Sorts entries by the bytes of their names, and sets apart those that have the name of another one. One entry of each
/// name stays in `entries`; which one, no clause says. Fails only if out of memory.
pub(crate) fn in_order(alloc: Global, entries: Vec<FolderEntry>) -> Result<Listing, AllocError>
    ensures { IfOk result (λ listing. Splits entries.items listing.entries.items listing.repeated.items) }
{
    let mut sorted = entries;
    sorted.sort_by(|first, second| order_of_names(first.name.as_slice(), second.name.as_slice()))?;
    let listing = split(alloc, sorted)?;
    Ok(listing)
}

/// Sets apart the entries that have the name of the one before them.
fn split(alloc: Global, sorted: Vec<FolderEntry>) -> Result<Listing, AllocError>
    requires { AreSorted sorted.items }
    ensures { IfOk result (λ listing. Splits sorted.items listing.entries.items listing.repeated.items) }
{
    let mut listing = Listing {
        entries: Vec::new(alloc),
        repeated: Vec::new(alloc),
    };
    for entry in sorted {
        put(&mut listing, entry)?;
    }
    Ok(listing)
}

/// Appends the next of sorted entries: to the repeated ones if the last of `entries` has its name. After an error
/// nothing is promised of `listing`: `split` drops it.
fn put(listing: &mut Listing, entry: FolderEntry) -> Result<(), AllocError>
    ensures { OnOk result ((all : List FolderEntry) → Splits all listing.old.entries.items listing.old.repeated.items
        → IsBeforeNone all entry
        → Splits (all ++ entry ∷ []) listing.new.entries.items listing.new.repeated.items) }
{
    if comes_next(listing.entries.as_slice(), &entry) {
        listing.entries.push(entry)?;
        return Ok(());
    }
    listing.repeated.push(entry)?;
    Ok(())
}

/// Returns whether the name of the last of `entries` comes before that of `entry`, or `entries` is empty. Of sorted
/// entries, the other case is that both have one name.
fn comes_next(entries: &[FolderEntry], entry: &FolderEntry) -> bool
    ensures next { IsTrue result → (last : FolderEntry) → slice_get entries.now (length entries.now - 1) ≡ Some last
        → IsBefore last.name entry.now.name }
    ensures repeated { result ≡ false
        → (last : FolderEntry) × (slice_get entries.now (length entries.now - 1) ≡ Some last)
        × ¬ (IsBefore last.name entry.now.name) }
{
    match entries.last() {
        Some(last) => is_before(last, entry),
        None => true,
    }
}

/// Returns whether the first entry's name comes before the second's. Equal names do not.
fn is_before(first: &FolderEntry, second: &FolderEntry) -> bool
    ensures { IsTrue result ↔ IsBefore first.now.name second.now.name }
{
    match order_of_names(first.name.as_slice(), second.name.as_slice()) {
        Ordering::Less => true,
        Ordering::Equal => false,
        Ordering::Greater => false,
    }
}
