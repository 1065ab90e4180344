//! Which files were compared, and how many.

ghost use Rattle.std.specs.Prelude.{◌≡◌, ◌+◌, ◌-◌, ◌^◌, filter_map, min, option_copied, option_to_list};
ghost use Rattle.droid_cmd_verify.specs.Compared as compared;
ghost use Rattle.droid_cmd_verify.specs.Summaries.{bytes_at, bytes_from, files_at, files_from, length_at, one_more};

use crate::measure::{Measure, by_hashes};
use crate::summary::one_more;
use crate::tree_check::Checked;
use droid_fixity::{Difference, FilePair};
use droid_frame::Item;

/// How many files were compared, and how many bytes they have together; each up to the greatest number of 64 bits.
#[derive(Clone, Copy)]
pub struct Amount {
    /// The number of files.
    pub files: u64,
    /// The number of their bytes.
    pub bytes: u64,
}

/// Counts the files that were compared: those that the list and the tree have under one path, by hashes or else by
/// sizes, and those that moved, whose hash is that of the list.
pub fn compared_amount(how: Measure, checked: &Checked) -> Amount
    ensures files { result.files
        ≡ files_at
        (compared.compared_in how checked.now.listed checked.now.found checked.now.files.items
        checked.now.differences.items) }
    ensures bytes { result.bytes
        ≡ bytes_at checked.now.found
        (compared.compared_in how checked.now.listed checked.now.found checked.now.files.items
        checked.now.differences.items) }
{
    let listed = checked.listed.as_slice();
    let found = checked.found.as_slice();
    let pairs = amount_of_pairs(how, listed, found, checked.files.as_slice());
    with_moved(pairs, found, checked.differences.as_slice())
}

/// Counts the files that both sides have under one path, as far as they were compared.
fn amount_of_pairs(how: Measure, listed: &[Item], found: &[Item], pairs: &[FilePair]) -> Amount
    ensures files { result.files ≡ files_from 0 (filter_map (compared.compared_at how listed.now found.now) pairs.now) }
    ensures bytes { result.bytes
        ≡ bytes_from found.now 0 (filter_map (compared.compared_at how listed.now found.now) pairs.now) }
{
    let mut amount = Amount { files: 0, bytes: 0 };
    for pair in pairs {
        amount = with_place(amount, found, compared_at(how, listed, found, *pair));
    }
    amount
}

/// Counts the files that moved, too, on top of the amount before. Other differences add nothing.
fn with_moved(before: Amount, found: &[Item], differences: &[Difference]) -> Amount
    ensures files { result.files ≡ files_from before.files (filter_map compared.moved_to differences.now) }
    ensures bytes { result.bytes ≡ bytes_from found.now before.bytes (filter_map compared.moved_to differences.now) }
{
    let mut amount = before;
    for difference in differences {
        amount = with_place(amount, found, moved_to(*difference));
    }
    amount
}

/// Counts the file at a place among the items found, if there is a place. A length that is not known counts as 0.
fn with_place(amount: Amount, found: &[Item], place: Option<usize>) -> Amount
    ensures files { result.files ≡ files_from amount.files (option_to_list place) }
    ensures bytes { result.bytes ≡ bytes_from found.now amount.bytes (option_to_list place) }
{
    match place {
        Some(place) => Amount {
            files: one_more(amount.files),
            bytes: amount.bytes.saturating_add(length_at(found, place)),
        },
        None => amount,
    }
}

/// Returns the length of the item at a place, or 0 if it is not known.
fn length_at(items: &[Item], place: usize) -> u64
    ensures { result ≡ length_at items.now place }
{
    match items.get(place) {
        Some(item) => item.length.unwrap_or(0),
        None => 0,
    }
}

/// Returns the place, among the items found, of a file of both sides, or `None` if it was not compared.
fn compared_at(how: Measure, listed: &[Item], found: &[Item], pair: FilePair) -> Option<usize>
    ensures { result ≡ compared.compared_at how listed.now found.now pair }
{
    if is_compared(how, listed, found, pair) {
        Some(pair.found)
    } else {
        None
    }
}

/// Returns the place, among the items found, of a file that moved; `None` for any other difference.
fn moved_to(difference: Difference) -> Option<usize>
    ensures { result ≡ compared.moved_to difference }
{
    match difference {
        Difference::Changed { .. } => None,
        Difference::Missing { .. } => None,
        Difference::New { .. } => None,
        Difference::Moved { found: place, .. } => Some(place),
        Difference::Touched { .. } => None,
    }
}

/// Returns whether a file of both sides is reported because it was not compared: nothing known of it differs, and not
/// both sides have a hash.
pub(crate) fn is_unchecked(how: Measure, listed: &[Item], found: &[Item], pair: FilePair) -> bool
    ensures { result ≡ compared.is_unchecked how listed.now found.now pair }
{
    by_hashes(how) && !is_hashed(listed, found, pair) && !differs(listed, found, pair)
}

/// Returns whether a file of both sides was compared: by their hashes, if that is asked for, and else by their sizes.
fn is_compared(how: Measure, listed: &[Item], found: &[Item], pair: FilePair) -> bool
    ensures { result ≡ compared.is_compared how listed.now found.now pair }
{
    if by_hashes(how) {
        is_hashed(listed, found, pair)
    } else {
        is_sized(listed, found, pair)
    }
}

/// Returns whether both sides of a pair have a hash of one kind.
fn is_hashed(listed: &[Item], found: &[Item], pair: FilePair) -> bool
    ensures { result ≡ compared.is_hashed listed.now found.now pair }
{
    hashed_by(listed.get(pair.listed), found.get(pair.found))
}

/// Returns whether both sides of a pair have a size.
fn is_sized(listed: &[Item], found: &[Item], pair: FilePair) -> bool
    ensures { result ≡ compared.is_sized listed.now found.now pair }
{
    sized_by(listed.get(pair.listed), found.get(pair.found))
}

/// Returns whether the two sides of a pair differ in what both have: kind, size or hash. The moment does not count.
fn differs(listed: &[Item], found: &[Item], pair: FilePair) -> bool
    ensures { result ≡ compared.differs listed.now found.now pair }
{
    differ_by(listed.get(pair.listed), found.get(pair.found))
}

/// Returns whether both items are there and have a hash of one kind.
fn hashed_by(item: Option<&Item>, other: Option<&Item>) -> bool
    ensures { result ≡ compared.hashed_by (option_copied item.entry) (option_copied other.entry) }
{
    match (item, other) {
        (Some(item), Some(other)) => item.both_hashed(other),
        _ => false,
    }
}

/// Returns whether both items are there and have a size.
fn sized_by(item: Option<&Item>, other: Option<&Item>) -> bool
    ensures { result ≡ compared.sized_by (option_copied item.entry) (option_copied other.entry) }
{
    match (item, other) {
        (Some(item), Some(other)) => item.both_sized(other),
        _ => false,
    }
}

/// Returns whether both items are there and differ in what both have, as `changes_to` of `droid_frame` says.
fn differ_by(item: Option<&Item>, other: Option<&Item>) -> bool
    ensures { result ≡ compared.differ_by (option_copied item.entry) (option_copied other.entry) }
{
    match (item, other) {
        (Some(item), Some(other)) => item.changes_to(other).is_any(),
        _ => false,
    }
}
