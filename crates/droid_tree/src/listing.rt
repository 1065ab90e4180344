//! Reads a folder's entries, sorted by name, and an entry's name as text.

ghost use Rattle.std.specs.Prelude.{◌≡◌, IfErr, IfOk, MatchOption, MatchResult, IsUtf8};
ghost use Rattle.droid_tree.specs.Listings.{ListsInOrder};
ghost use Rattle.droid_tree.specs.Observation.{Unlisted};
ghost use Rattle.droid_tree.specs.declared.fault.WalkFault.TheVariants.{Memory};
ghost use Rattle.droid_tree.specs.declared.skip_reason.Skipped.TheVariants as reasons;

use crate::fault::WalkFault;
use crate::folder_entry::FolderEntry;
use crate::order::in_order;
use crate::skip_reason::{Skipped, unlisted};
use crate::tree::Tree;
use std::alloc::Global;

/// The entries of a folder.
#[derive(Drop)]
pub struct Listing {
    /// One entry of each name, sorted by the bytes of the names.
    pub entries: Vec<FolderEntry>,
    /// The entries that have the name of one of these.
    pub repeated: Vec<FolderEntry>,
}

/// Reads the entries of a folder, sorted by name. The inner error says that the folder is unreadable; the outer one is
/// always `Memory`, and nothing is promised of the tree after it.
pub fn read_folder<T: Tree>(
    alloc: Global,
    tree: &mut T,
    path: &str,
) -> Result<Result<Listing, Skipped>, WalkFault>
    ensures read { IfOk result (λ read. MatchResult read
        (λ listing. ListsInOrder T.observes path.now listing.entries.items listing.repeated.items tree.old tree.new)
        (λ why. (why ≡ reasons.Unreadable) × T.observes tree.old (Unlisted path.now) tree.new)) }
    ensures memory { IfErr result (λ fault. fault ≡ Memory) }
{
    match tree.entries(alloc, path) {
        Ok(entries) => {
            let listing = in_order(alloc, entries)?;
            Ok(Ok(listing))
        }
        Err(fault) => {
            let why = unlisted(fault)?;
            Ok(Err(why))
        }
    }
}

/// Returns the name as text, or `None` if it is not valid UTF-8: such an entry is skipped.
pub fn name_of(entry: &FolderEntry) -> Option<&str>
    ensures { MatchOption result (¬ (IsUtf8 entry.now.name)) (λ text.
        (text.now ≡ entry.now.name) × IsUtf8 entry.now.name) }
{
    match std::str::from_utf8(entry.name.as_slice()) {
        Ok(text) => Some(text),
        Err(_) => None,
    }
}
