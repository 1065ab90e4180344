//! Reads a file piece by piece.

ghost use Rattle.std.specs.Prelude.{◌≡◌, ◌≢◌, ◌-◌, ◌<◌, [], length, min, IfErr, IfOk, MatchResult, OnOk};
ghost use Rattle.droid_tree.specs.Observation.{Read};
ghost use Rattle.droid_tree.specs.Reading.{IsPastEnd, IsShort, ReadsPiece, StopsAt, begin_of};
ghost use Rattle.droid_tree.specs.declared.fault.WalkFault.TheVariants.{Memory};
ghost use Rattle.droid_tree.specs.declared.skip_reason.Skipped.TheVariants as reasons;

use crate::fault::WalkFault;
use crate::folder_entry::FolderEntry;
use crate::skip_reason::{Skipped, unread};
use crate::tree::Tree;
use std::alloc::Global;

/// Returns the offset in bytes at which the piece `index` begins, counted from 0 in a file of `size` bytes, or `size`
/// if the file ends before. A piece size of 0 gives 0.
pub fn begin_of(piece_size: u32, size: u64, index: u32) -> u64
    ensures { result ≡ begin_of piece_size size index }
{
    let before = u64::from(index).saturating_mul(u64::from(piece_size));
    before.min(size)
}

/// Returns the length of the piece that begins at offset `from` of a file of `size` bytes: the piece size, or fewer
/// bytes if the file ends before. From the end on that is 0.
pub fn next_len(size: u64, from: u64, piece_size: u32) -> u32
    ensures { result ≡ min piece_size (size - from) }
{
    let left = size.saturating_sub(from);
    match u32::try_from(left) {
        Ok(left) => piece_size.min(left),
        Err(_) => piece_size,
    }
}

/// Appends `wanted` bytes of a file to `body`, starting at offset `from`. `entry` is the file as its folder listed it.
/// The inner error says that the file is unreadable, that it ends before, or that it is not as it was listed; the outer
/// one is always `Memory`. After either nothing is promised of `body`.
pub fn read_piece<T: Tree>(
    tree: &mut T,
    path: &str,
    entry: &FolderEntry,
    from: u64,
    wanted: u32,
    body: &mut Vec<u8>,
) -> Result<Result<(), Skipped>, WalkFault>
    ensures read { IfOk result (λ read. MatchResult read
        (λ _. ReadsPiece T.observes path.now entry.now from wanted body.old.items body.new.items tree.old tree.new)
        (λ why. StopsAt T.observes (IsShort wanted) path.now entry.now from why tree.old tree.new)) }
    ensures memory { IfErr result (λ fault. fault ≡ Memory) }
{
    let before = body.len();
    match tree.read(path, entry, from, wanted, body) {
        Ok(()) => Ok(all_came(body.len().saturating_sub(before), wanted as usize)),
        Err(fault) => {
            let why = unread(fault)?;
            Ok(Err(why))
        }
    }
}

/// Checks that `count` bytes came, as many as were wanted. If not, the file is shorter than it was listed: `Changed`.
fn all_came(count: usize, wanted: usize) -> Result<(), Skipped>
    ensures { MatchResult result (λ _. count ≡ wanted) (λ why. (why ≡ reasons.Changed) × (count ≢ wanted)) }
{
    if count == wanted {
        Ok(())
    } else {
        Err(Skipped::Changed)
    }
}

/// Checks that a file of this size has no bytes after its last piece, which ends at offset `from`: asks the tree for
/// one byte there. Fails with `Reply` if not all pieces were read, which happens when the service accepts a piece size
/// of 0; no clause holds that fault, only that there is one. The inner error says that the file is unreadable, that it
/// is longer, or that it is not as it was listed.
pub fn see_end<T: Tree>(
    alloc: Global,
    tree: &mut T,
    path: &str,
    entry: &FolderEntry,
    from: u64,
    size: u64,
) -> Result<Result<(), Skipped>, WalkFault>
    ensures all { OnOk result (from ≡ size) }
    ensures observed { IfOk result (λ read. MatchResult read
        (λ _. T.observes tree.old (Read path.now entry.now from 1 []) tree.new)
        (λ why. StopsAt T.observes IsPastEnd path.now entry.now from why tree.old tree.new)) }
    ensures memory { IfErr result (λ fault. from ≡ size → fault ≡ Memory) }
{
    if from != size {
        return Err(WalkFault::Reply);
    }
    let mut more = Vec::new(alloc);
    match tree.read(path, entry, from, 1, &mut more) {
        Ok(()) => Ok(none_more(more.as_slice())),
        Err(fault) => {
            let why = unread(fault)?;
            Ok(Err(why))
        }
    }
}

/// Checks that nothing came when the byte behind the end was asked for. If it came, the file is longer than it was
/// listed: `Changed`.
fn none_more(more: &[u8]) -> Result<(), Skipped>
    ensures { MatchResult result (λ _. more.now ≡ []) (λ why. (why ≡ reasons.Changed) × (0 < length more.now)) }
{
    if more.is_empty() {
        Ok(())
    } else {
        Err(Skipped::Changed)
    }
}
