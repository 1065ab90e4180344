//! Which paths were skipped, or lie below a skipped folder.

ghost use Rattle.std.specs.Prelude.{◌≡◌, ◌||◌, ◌<◌, ℕ, List, IfOk, OnOk, bytes_eq, length};
ghost use Rattle.droid_terminal.specs.SkippedPaths.{has_path, holds_above, holds_front, is_held};

use crate::skipped::skipped_entry::SkippedEntry;
use std::alloc::{AllocError, Global};
use std::collections::BTreeMap;

/// The paths of skipped entries. The keys alone count: the value is always true.
pub type SkippedPaths<'a> = BTreeMap<&'a [u8], bool>;

/// Returns the paths of these entries, for many look-ups by `holds_above`. Fails only if memory runs out.
pub fn paths_of<'a>(
    alloc: Global,
    skipped: &'a [SkippedEntry],
) -> Result<SkippedPaths<'a>, AllocError>
    ensures { IfOk result (λ paths. (path : List ℕ) → is_held paths path ≡ has_path skipped.now path) }
{
    let mut paths = BTreeMap::new(alloc);
    for entry in skipped {
        add_path(&mut paths, entry)?;
    }
    Ok(paths)
}

/// Adds the path of an entry, which may be there already. Fails only if memory runs out; the caller drops the paths
/// then.
fn add_path<'a>(paths: &mut SkippedPaths<'a>, entry: &'a SkippedEntry) -> Result<(), AllocError>
    ensures { OnOk result ((path : List ℕ)
        → is_held paths.new path ≡ (is_held paths.old path || bytes_eq entry.now.path path)) }
{
    paths.insert(entry.path.as_slice(), true)?;
    Ok(())
}

/// Returns whether a path is among these, or a folder above it is: then its entry was not read.
#[tactic(auto, using(crate::proofs::SkippedPaths::none_next))]
pub fn holds_above(paths: &SkippedPaths<'_>, path: &[u8]) -> bool
    ensures { result ≡ holds_above (is_held paths.now) path.now }
{
    if is_held(paths, path) {
        return true;
    }
    for place in 0..path.len() {
        if holds_front(paths, path, place) {
            return true;
        }
    }
    false
}

/// Returns whether the first `place` bytes of a path are among these, and are the path of a folder above it: a `/`
/// stands behind them.
fn holds_front(paths: &SkippedPaths<'_>, path: &[u8], place: usize) -> bool
    requires { place < length path.now }
    ensures { result ≡ holds_front (is_held paths.now) path.now place }
{
    if path[place] != b'/' {
        return false;
    }
    is_held(paths, &path[..place])
}

/// Returns whether a path is among these.
fn is_held(paths: &SkippedPaths<'_>, path: &[u8]) -> bool
    ensures { result ≡ is_held paths.now path.now }
{
    paths.contains_key(path)
}
