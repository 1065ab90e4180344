//! Folders that a walk still has to visit: their paths, their order, and how many there can be.

ghost use Rattle.std.specs.Prelude.{◌≡◌, ◌++◌, [], ◌∷◌, IfOk, OnOk};
ghost use Rattle.droid_tree.specs.Paths.{below, top};

use droid_frame::Text;
use std::alloc::{AllocError, Global};
use std::collections::VecDeque;

/// How many folders and files a profile can have. `droid_core` promises to serve no more (`limits.nodes ≤ 100000` of
/// its services), and `droid_cmd_serve` begins with as many; nothing but these lines ties the numbers.
pub const NODE_LIMIT: u64 = 100_000;

/// How many turns a walk makes at most: one for each folder of a full profile, one for the top, and one that finds no
/// more.
pub const TURNS: u64 = NODE_LIMIT + 2;

/// A folder that the walk still has to visit.
pub struct PendingFolder {
    /// The path: `/` and the names from the top joined by `/`. Empty for the top.
    pub path: Text,
    /// The folder's number in the profile, or 0 for the top.
    pub number: u32,
}

// Written by hand, so that the crates above do not prove again how each part is dropped.
impl Drop for PendingFolder {
    fn drop(self) {
        let PendingFolder {
            path: _path,
            number: _number,
        } = self;
    }
}

/// Returns the path of the entry `name` of the folder at `path`: both, joined by `/`. Fails only if out of memory.
pub fn path_below(alloc: Global, path: &str, name: &str) -> Result<Text, AllocError>
    ensures { IfOk result (λ text. text ≡ below path.now name.now) }
{
    let joined = format!(in alloc; "{path}/{name}")?;
    Ok(Text::from(joined))
}

/// Appends a folder to those that the walk still has to visit: the last one is visited last. `number` is its number in
/// the profile. After an error nothing is promised of `pending`: callers end the walk.
pub fn add_pending(
    pending: &mut VecDeque<PendingFolder>,
    path: Text,
    number: u32,
) -> Result<(), AllocError>
    ensures { OnOk result (pending.new.items ≡ pending.old.items ++ record { path = path; number = number } ∷ []) }
{
    pending.push_back(PendingFolder { path, number })?;
    Ok(())
}

/// Returns the pending folders with which each walk begins: the top alone, with an empty path and the number 0.
pub fn only_the_top(alloc: Global) -> Result<VecDeque<PendingFolder>, AllocError>
    ensures { IfOk result (λ pending. pending.items ≡ top ∷ []) }
{
    let mut pending = VecDeque::new(alloc);
    let path = Text::from(String::new(alloc));
    add_pending(&mut pending, path, 0)?;
    Ok(pending)
}
