//! The hash of a file of a tree, which is read to its end for it.

ghost use Rattle.std.specs.Prelude.{◌≡◌, [], IfErr, IfOk, MatchResult};
ghost use Rattle.droid_tree.specs.Reading.{IsShort, StopsAt};
ghost use Rattle.droid_tree.specs.declared.fault.WalkFault.TheVariants.{Memory};
ghost use Rattle.droid_cmd_identify.specs.FilesHashed.{AddsPiece, HashesFile, StopsHashing};

use droid_frame::{HashKind, HashValue, RunningHash};
use droid_tree::{FolderEntry, Skipped, Tree, WalkFault, next_len, read_piece, see_end};
use std::alloc::Global;

/// How many bytes are read at once. `StopsHashing` has this number too, and the prover ties the two.
const PIECE: u32 = 65_536;

/// Reads a file of a tree to its end, and returns its hash. The inner error says that the file is unreadable, or that
/// it is not as it was listed.
pub fn hash_entry<T: Tree>(
    alloc: Global,
    tree: &mut T,
    path: &str,
    entry: &FolderEntry,
    kind: HashKind,
) -> Result<Result<HashValue, Skipped>, WalkFault>
    ensures read { IfOk result (λ read. MatchResult read
        (λ value. HashesFile T.observes path.now entry.now kind value tree.old tree.new)
        (λ why. StopsHashing T.observes path.now entry.now why tree.old tree.new)) }
    ensures memory { IfErr result (λ fault. fault ≡ Memory) }
{
    let mut running = RunningHash::of(kind);
    let mut piece = Vec::new(alloc);
    let mut from = 0;
    while from < entry.len {
        let wanted = next_len(entry.len, from, PIECE);
        match add_piece(tree, path, entry, from, wanted, &mut piece, &mut running)? {
            Ok(()) => {}
            Err(why) => return Ok(Err(why)),
        }
        from += u64::from(wanted);
    }
    match see_end(alloc, tree, path, entry, from, entry.len)? {
        Ok(()) => Ok(Ok(running.finish())),
        Err(why) => Ok(Err(why)),
    }
}

/// Reads the `wanted` bytes of a file that begin at offset `from`, in the place of what stood in `piece`, and adds them
/// to the hash. The inner error is that of `hash_entry`.
fn add_piece<T: Tree>(
    tree: &mut T,
    path: &str,
    entry: &FolderEntry,
    from: u64,
    wanted: u32,
    piece: &mut Vec<u8>,
    running: &mut RunningHash,
) -> Result<Result<(), Skipped>, WalkFault>
    ensures read { IfOk result (λ read. MatchResult read
        (λ _. AddsPiece T.observes path.now entry.now from wanted running.old running.new tree.old tree.new)
        (λ why. StopsAt T.observes (IsShort wanted) path.now entry.now from why tree.old tree.new)) }
    ensures memory { IfErr result (λ fault. fault ≡ Memory) }
{
    piece.clear();
    match read_piece(tree, path, entry, from, wanted, piece)? {
        Ok(()) => {
            running.update(piece.as_slice());
            Ok(Ok(()))
        }
        Err(why) => Ok(Err(why)),
    }
}
