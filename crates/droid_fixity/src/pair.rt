//! Pairs two inventories by path: a merge, and the files that both have.

ghost use Rattle.std.specs.Prelude.{◌≡◌, ◌<◌, ◌++◌, IfOk, OnOk, filter_map, option_copied, option_to_list, slice_get};
ghost use Rattle.std.specs.Ordering.{nat_cmp};
ghost use Rattle.std.specs.Cmp.Lexicographic.{slice_cmp};
ghost use Rattle.droid_fixity.specs.FilePairs.{AreFilePairs};
ghost use Rattle.droid_fixity.specs.Holding.{file_pair, only_found, only_listed, pair_if};
ghost use Rattle.droid_fixity.specs.Pairing.{Merges, found_after, listed_after, pair_by, pair_of};

use crate::inventory::Inventory;
use droid_frame::Item;
use std::alloc::{AllocError, Global};
use std::cmp::Ordering;

/// The places of a file that a list and the items found have under one path.
#[derive(Clone, Copy, PartialEq, Eq)]
pub struct FilePair {
    /// Its place in the list.
    pub listed: usize,
    /// Its place among the items found.
    pub found: usize,
}

/// A path, by the places of its items.
#[derive(Clone, Copy)]
pub(crate) enum Pair {
    /// The list has it, and it was found.
    Both(usize, usize),
    /// Only the list has it.
    Listed(usize),
    /// It was found, and the list does not have it.
    Found(usize),
}

impl Pair {
    /// Returns the place in the list, if only the list has this path.
    pub(crate) fn only_listed(self) -> Option<usize>
        ensures { result ≡ only_listed self }
    {
        match self {
            Pair::Both(_, _) => None,
            Pair::Listed(place) => Some(place),
            Pair::Found(_) => None,
        }
    }

    /// Returns the place among the items found, if the list does not have this path.
    pub(crate) fn only_found(self) -> Option<usize>
        ensures { result ≡ only_found self }
    {
        match self {
            Pair::Both(_, _) => None,
            Pair::Listed(_) => None,
            Pair::Found(place) => Some(place),
        }
    }

    /// Returns the place in the list at which the merge goes on after this pair: one on from `listed`, unless the pair
    /// has no item of the list.
    fn listed_after(self, listed: usize) -> usize
        requires { listed < usize.MAX }
        ensures { result ≡ listed_after self listed }
    {
        match self {
            Pair::Both(_, _) => listed + 1,
            Pair::Listed(_) => listed + 1,
            Pair::Found(_) => listed,
        }
    }

    /// Returns the place among the items found at which the merge goes on after this pair: one on from `found`, unless
    /// the pair has no item found.
    fn found_after(self, found: usize) -> usize
        requires { found < usize.MAX }
        ensures { result ≡ found_after self found }
    {
        match self {
            Pair::Both(_, _) => found + 1,
            Pair::Listed(_) => found,
            Pair::Found(_) => found + 1,
        }
    }
}

/// Pairs the items of two inventories by path, in the order of the paths: each item is in one pair. Fails only if out
/// of memory.
pub(crate) fn pairs_of(
    alloc: Global,
    listed: &Inventory,
    found: &Inventory,
) -> Result<Vec<Pair>, AllocError>
    ensures { IfOk result (λ pairs. Merges 0 0 listed.now found.now pairs.items) }
{
    let listed = listed.as_slice();
    let found = found.as_slice();
    let mut pairs = Vec::new(alloc);
    let mut listed_at = 0;
    let mut found_at = 0;
    while let Some(pair) = next_pair(listed, found, listed_at, found_at) {
        pairs.push(pair)?;
        listed_at = pair.listed_after(listed_at);
        found_at = pair.found_after(found_at);
    }
    Ok(pairs)
}

/// Returns the pair of the items at these places, or of the one whose path comes first. `None` if both places are
/// behind the last items.
fn next_pair(listed: &[Item], found: &[Item], listed_at: usize, found_at: usize) -> Option<Pair>
    ensures { result ≡ pair_of (slice_get listed.now listed_at) (slice_get found.now found_at) listed_at found_at }
{
    match listed.get(listed_at) {
        Some(item) => match found.get(found_at) {
            Some(other) => Some(pair_by(item, other, listed_at, found_at)),
            None => Some(Pair::Listed(listed_at)),
        },
        None => match found.get(found_at) {
            Some(_) => Some(Pair::Found(found_at)),
            None => None,
        },
    }
}

/// Returns the pair of two items: both if they have one path, otherwise the one whose path comes first alone.
fn pair_by(item: &Item, other: &Item, listed_at: usize, found_at: usize) -> Pair
    ensures { result ≡ pair_by (slice_cmp nat_cmp item.now.path other.now.path) listed_at found_at }
{
    match item.path.as_slice().cmp(other.path.as_slice()) {
        Ordering::Less => Pair::Listed(listed_at),
        Ordering::Equal => Pair::Both(listed_at, found_at),
        Ordering::Greater => Pair::Found(found_at),
    }
}

/// Pairs the files that a list and the items found have under one path, in the order of the paths. Fails only if memory
/// runs out. The cost grows with the number of items.
pub fn file_pairs(
    alloc: Global,
    listed: &Inventory,
    found: &Inventory,
) -> Result<Vec<FilePair>, AllocError>
    ensures { IfOk result (λ files. AreFilePairs listed.now found.now files.items) }
{
    let pairs = pairs_of(alloc, listed, found)?;
    let files = files_among(alloc, listed.as_slice(), found.as_slice(), pairs.as_slice())?;
    Ok(files)
}

/// Returns the pairs of files among these pairs, in the same order. Places in `pairs` are those in `listed` and
/// `found`.
fn files_among(
    alloc: Global,
    listed: &[Item],
    found: &[Item],
    pairs: &[Pair],
) -> Result<Vec<FilePair>, AllocError>
    ensures { IfOk result (λ files. files.items ≡ filter_map (file_pair listed.now found.now) pairs.now) }
{
    let mut files = Vec::new(alloc);
    for pair in pairs {
        note_file(&mut files, file_pair(listed, found, *pair))?;
    }
    Ok(files)
}

/// Adds a pair of files, if there is one.
fn note_file(files: &mut Vec<FilePair>, file: Option<FilePair>) -> Result<(), AllocError>
    ensures { OnOk result (files.new.items ≡ files.old.items ++ option_to_list file) }
{
    if let Some(file) = file {
        files.push(file)?;
    }
    Ok(())
}

/// Returns the two places of a pair, if both sides have a file there.
fn file_pair(listed: &[Item], found: &[Item], pair: Pair) -> Option<FilePair>
    ensures { result ≡ file_pair listed.now found.now pair }
{
    match pair {
        Pair::Both(before, after) => pair_if(listed.get(before), found.get(after), before, after),
        Pair::Listed(_) => None,
        Pair::Found(_) => None,
    }
}

/// Returns the places `listed` and `found` of two items, if both are there and both are files.
fn pair_if(
    item: Option<&Item>,
    other: Option<&Item>,
    listed: usize,
    found: usize,
) -> Option<FilePair>
    ensures { result ≡ pair_if (option_copied item.entry) (option_copied other.entry) listed found }
{
    let item = item?;
    let other = other?;
    if item.kind.is_file() && other.kind.is_file() {
        Some(FilePair { listed, found })
    } else {
        None
    }
}
