//! What is still to be taken of a tree, at first the whole of it.

ghost use Rattle.std.specs.Prelude.{◌≡◌, [], ◌∷◌, IfOk};
ghost use Rattle.droid_pronom.specs.Registry.{Contents};
ghost use Rattle.droid_tree.specs.Paths.{top};
ghost use Rattle.droid_profile.specs.declared.options.Options.{Options};
ghost use Rattle.droid_profile.specs.ScanFits.{ScanFits};

use droid_frame::Text;
use droid_tree::{FolderEntry, PendingFolder, only_the_top};
use std::alloc::{AllocError, Global};
use std::collections::VecDeque;

/// What is still to be taken of a tree: the folders that wait, and the rest of the one that was listed last.
#[derive(Drop)]
pub struct Scan {
    /// The folders that wait to be listed.
    pub waiting: VecDeque<PendingFolder>,
    /// The folder that was listed last.
    pub folder: PendingFolder,
    /// Its entries that are left. The last one is next.
    pub entries: Vec<FolderEntry>,
    /// The last number that was given.
    pub number: u32,
}

/// Returns what is to be taken of a whole tree: its top waits, no entry is left of a folder, and no number was given.
pub fn whole_tree(alloc: Global) -> Result<Scan, AllocError>
    ensures waiting { IfOk result (λ scan. scan.waiting.items ≡ top ∷ []) }
    ensures begun { IfOk result (λ scan. (scan.entries.items ≡ []) × (scan.number ≡ 0)) }
    ensures fits { IfOk result (λ scan.
        (registry : Contents) (options : Options) → ScanFits registry options [] [] [] scan [] []) }
{
    let waiting = only_the_top(alloc)?;
    Ok(Scan {
        waiting,
        folder: PendingFolder {
            path: Text::from(String::new(alloc)),
            number: 0,
        },
        entries: Vec::new(alloc),
        number: 0,
    })
}
