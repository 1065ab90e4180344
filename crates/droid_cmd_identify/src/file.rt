//! Says what a file of a tree is, by its first and last bytes, its length and its name.

ghost use Rattle.std.specs.Prelude.{◌≡◌, ◌≤◌, IfErr, IfOk, MatchResult};
ghost use Rattle.droid_tree.specs.declared.fault.WalkFault.TheVariants.{Memory};
ghost use Rattle.droid_cmd_identify.specs.EndsRead.{Identifies, StopsInEnds};

use crate::ends::{FileEnds, read_ends};
use droid_identity::{Identity, identify_file};
use droid_pronom::Registry;
use droid_tree::{FolderEntry, Skipped, Tree, WalkFault};
use std::alloc::Global;

/// How files are identified.
#[derive(Clone, Copy)]
pub struct FileOptions {
    /// How many bytes at each end of a file are searched: 1 to 65,536.
    pub limit: u32,
    /// Whether a format that has signatures is also identified by extension.
    pub match_all: bool,
}

/// A file of a tree.
#[derive(Clone, Copy)]
pub struct TreeFile<'a> {
    /// The name that its extension is taken from.
    pub name: &'a str,
    /// Its path in the tree.
    pub path: &'a str,
    /// Its path as it is printed.
    pub shown: &'a str,
    /// The file as its folder listed it.
    pub listed: &'a FolderEntry,
}

/// Reads the ends of a file of a tree, and says what the file is: what is said is true of every file of its length with
/// these ends.
///
/// The inner error says that the file is unreadable, or that it is not as it was listed. `ends` has the file's ends
/// afterwards, and its memory is used again.
pub fn identify_entry<T: Tree>(
    alloc: Global,
    tree: &mut T,
    registry: &Registry,
    options: FileOptions,
    file: TreeFile<'_>,
    ends: &mut FileEnds,
) -> Result<Result<Identity, Skipped>, WalkFault>
    requires { options.limit ≤ 65536 }
    ensures read { IfOk result (λ read. MatchResult read
        (λ identity. Identifies T.observes registry.now options file.entry ends.new identity tree.old tree.new)
        (λ why. StopsInEnds T.observes file.entry.path.now file.entry.listed.now options.limit why tree.old tree.new)) }
    ensures memory { IfErr result (λ fault. fault ≡ Memory) }
{
    match read_ends(tree, file.path, file.listed, options.limit, ends)? {
        Ok(()) => {}
        Err(why) => return Ok(Err(why)),
    }
    let first = ends.first();
    let last = ends.last();
    let identity = identify_file(
        alloc,
        registry,
        file.name,
        first,
        last,
        file.listed.len,
        options.match_all,
    )?;
    Ok(Ok(identity))
}
