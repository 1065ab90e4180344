//! The first and last bytes of a file of a tree, and how they are read.

ghost use Rattle.std.specs.Prelude.{◌≡◌, ◌≢◌, ◌<◌, ◌↔◌, ◌+◌, [], IfErr, IfOk, IfSome, IsTrue, MatchResult, false};
ghost use Rattle.droid_tree.specs.Reading.{StopsAt};
ghost use Rattle.droid_tree.specs.declared.fault.WalkFault.TheVariants.{Memory};
ghost use Rattle.droid_tree.specs.declared.skip_reason.Skipped.TheVariants as reasons;
ghost use Rattle.droid_cmd_identify.specs.EndsRead.{IsNotToEnd, ReadsEnds, ReadsToEnd, StopsInEnds, last_of};

use droid_tree::{FolderEntry, Skipped, Tree, WalkFault, read_piece, unread};
use std::alloc::Global;

/// The first and last bytes of a file. Their memory is used again for the next file.
#[derive(Drop)]
pub struct FileEnds {
    /// The first bytes.
    pub(crate) first: Vec<u8>,
    /// The last bytes, if the file is longer than the first ones.
    pub(crate) rest: Vec<u8>,
    /// Whether the file is longer than the first bytes.
    pub(crate) goes_on: bool,
}

impl FileEnds {
    /// Returns ends without bytes. Takes no memory: `read_ends` and `read_stream` do.
    pub fn new(alloc: Global) -> FileEnds {
        FileEnds {
            first: Vec::new(alloc),
            rest: Vec::new(alloc),
            goes_on: false,
        }
    }

    /// Returns the first bytes.
    pub fn first(&self) -> &[u8]
        ensures { result.now ≡ self.now.first.items }
    {
        self.first.as_slice()
    }

    /// Returns the last bytes: in a short file they are the first ones.
    pub fn last(&self) -> &[u8]
        ensures { result.now ≡ last_of self.now }
    {
        if self.goes_on {
            self.rest.as_slice()
        } else {
            self.first.as_slice()
        }
    }

    /// Drops all bytes, for the next file, and keeps the memory.
    pub(crate) fn clear(&mut self)
        ensures first { self.new.first.items ≡ [] }
        ensures rest { self.new.rest.items ≡ [] }
    {
        self.first.clear();
        self.rest.clear();
        self.goes_on = false;
    }
}

/// Reads at most `limit` bytes of each end of a file. A file that has no more is read whole, once. `entry` is the file
/// as its folder listed it. The inner error says that the file is unreadable, or that it is not as it was listed; then
/// nothing is promised of `ends`, which the next read clears.
pub fn read_ends<T: Tree>(
    tree: &mut T,
    path: &str,
    entry: &FolderEntry,
    limit: u32,
    ends: &mut FileEnds,
) -> Result<Result<(), Skipped>, WalkFault>
    ensures read { IfOk result (λ read. MatchResult read
        (λ _. ReadsEnds T.observes path.now entry.now limit ends.new tree.old tree.new)
        (λ why. StopsInEnds T.observes path.now entry.now limit why tree.old tree.new)) }
    ensures memory { IfErr result (λ fault. fault ≡ Memory) }
{
    ends.clear();
    ends.goes_on = entry.len > u64::from(limit);
    read_both(tree, path, entry, limit, ends)
}

/// Reads a file whole, or the first `limit` bytes and the last `limit` of a longer one, which may overlap. `ends` is
/// empty before, and its flag says whether the file is longer.
fn read_both<T: Tree>(
    tree: &mut T,
    path: &str,
    entry: &FolderEntry,
    limit: u32,
    ends: &mut FileEnds,
) -> Result<Result<(), Skipped>, WalkFault>
    requires first { ends.old.first.items ≡ [] }
    requires rest { ends.old.rest.items ≡ [] }
    requires goes_on { IsTrue ends.old.goes_on ↔ (limit < entry.now.len) }
    ensures read { IfOk result (λ read. MatchResult read
        (λ _. ReadsEnds T.observes path.now entry.now limit ends.new tree.old tree.new)
        (λ why. StopsInEnds T.observes path.now entry.now limit why tree.old tree.new)) }
    ensures memory { IfErr result (λ fault. fault ≡ Memory) }
{
    if !ends.goes_on {
        let whole = read_to_end(tree, path, entry, 0, entry.len as u32, &mut ends.first)?;
        return Ok(whole);
    }
    match read_piece(tree, path, entry, 0, limit, &mut ends.first)? {
        Ok(()) => {}
        Err(why) => return Ok(Err(why)),
    }
    let from = entry.len - u64::from(limit);
    let last = read_to_end(tree, path, entry, from, limit, &mut ends.rest)?;
    Ok(last)
}

/// Appends the last `count` bytes of a file, which begin at offset `from`. The inner error says that the file is
/// unreadable, that it has fewer bytes or more, or that it is not as it was listed.
fn read_to_end<T: Tree>(
    tree: &mut T,
    path: &str,
    entry: &FolderEntry,
    from: u64,
    count: u32,
    bytes: &mut Vec<u8>,
) -> Result<Result<(), Skipped>, WalkFault>
    ensures read { IfOk result (λ read. MatchResult read
        (λ _. ReadsToEnd T.observes path.now entry.now from count bytes.old.items bytes.new.items tree.old tree.new)
        (λ why. StopsAt T.observes (IsNotToEnd count) path.now entry.now from why tree.old tree.new)) }
    ensures memory { IfErr result (λ fault. fault ≡ Memory) }
{
    // One read shows the bytes and that none stands behind them.
    let Some(wanted) = one_more(count) else {
        return Err(WalkFault::Memory);
    };
    let before = bytes.len();
    match tree.read(path, entry, from, wanted, bytes) {
        Ok(()) => Ok(just_came(bytes.len().saturating_sub(before), count as usize)),
        Err(fault) => {
            let why = unread(fault)?;
            Ok(Err(why))
        }
    }
}

/// Checks the count of bytes that a read returned, which asked for one byte more than `wanted`. If the counts differ,
/// the file is shorter or longer than it was listed.
fn just_came(count: usize, wanted: usize) -> Result<(), Skipped>
    ensures { MatchResult result (λ _. count ≡ wanted) (λ why. (why ≡ reasons.Changed) × (count ≢ wanted)) }
{
    if count == wanted {
        Ok(())
    } else {
        Err(Skipped::Changed)
    }
}

/// Returns one more. Returns `None` if 32 bits do not hold that, which `read_to_end` takes for out of memory; the
/// command's limit is at most 65,536.
fn one_more(count: u32) -> Option<u32>
    ensures { IfSome result (λ more. more ≡ count + 1) }
{
    count.checked_add(1)
}
