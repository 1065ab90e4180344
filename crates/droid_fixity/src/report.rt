//! Compares two inventories: the report of all differences, in which a moved file is one.

ghost use Rattle.std.specs.Prelude.{◌≡◌, ◌++◌, IfOk, OnOk, filter_map, option_copied, option_to_list};
ghost use Rattle.droid_fixity.specs.Holding.{both_by, difference_at, held, move_by, move_of, moved_if, only_found};
ghost use Rattle.droid_fixity.specs.Holding.{only_listed, or_missing, or_new};
ghost use Rattle.droid_fixity.specs.Reports.{IsReport};

use crate::difference::Difference;
use crate::holders::{Holder, Holders, holders_of};
use crate::inventory::Inventory;
use crate::pair::{Pair, pairs_of};
use droid_frame::Item;
use std::alloc::{AllocError, Global};

/// Compares a list with what was found, and returns all differences in the order of their paths.
///
/// Lengths, moments and hashes are compared only where both items have one, hashes also only if they are of one kind:
/// where moments do not matter, give the items none. Fails only if memory runs out. The cost grows with the number of
/// items, and with n log n for n items that only one side has.
pub fn compare(
    alloc: Global,
    listed: &Inventory,
    found: &Inventory,
) -> Result<Vec<Difference>, AllocError>
    ensures { IfOk result (λ report. IsReport listed.now found.now report.items) }
{
    let pairs = pairs_of(alloc, listed, found)?;
    let missing_places = places_only_listed(alloc, pairs.as_slice())?;
    let new_places = places_only_found(alloc, pairs.as_slice())?;
    let missing = holders_of(alloc, listed.as_slice(), missing_places.as_slice())?;
    let new = holders_of(alloc, found.as_slice(), new_places.as_slice())?;
    let listed = listed.as_slice();
    let found = found.as_slice();
    let report = differences_at(alloc, listed, found, &missing, &new, pairs.as_slice())?;
    Ok(report)
}

/// Returns the places in the list of the items that only the list has, in order.
fn places_only_listed(alloc: Global, pairs: &[Pair]) -> Result<Vec<usize>, AllocError>
    ensures { IfOk result (λ places. places.items ≡ filter_map only_listed pairs.now) }
{
    let mut places = Vec::new(alloc);
    for pair in pairs {
        note_place(&mut places, pair.only_listed())?;
    }
    Ok(places)
}

/// Returns the places among the items found of those that the list does not have, in order.
fn places_only_found(alloc: Global, pairs: &[Pair]) -> Result<Vec<usize>, AllocError>
    ensures { IfOk result (λ places. places.items ≡ filter_map only_found pairs.now) }
{
    let mut places = Vec::new(alloc);
    for pair in pairs {
        note_place(&mut places, pair.only_found())?;
    }
    Ok(places)
}

/// Adds a place, if there is one.
fn note_place(places: &mut Vec<usize>, place: Option<usize>) -> Result<(), AllocError>
    ensures { OnOk result (places.new.items ≡ places.old.items ++ option_to_list place) }
{
    if let Some(place) = place {
        places.push(place)?;
    }
    Ok(())
}

/// Returns the differences at these pairs, in their order. `missing` says who holds each hash among the items that only
/// the list has, `new` among those that it does not have: by them a moved file is one difference.
fn differences_at(
    alloc: Global,
    listed: &[Item],
    found: &[Item],
    missing: &Holders<'_>,
    new: &Holders<'_>,
    pairs: &[Pair],
) -> Result<Vec<Difference>, AllocError>
    ensures { IfOk result (λ report.
        report.items ≡ filter_map (difference_at listed.now found.now (held missing.now) (held new.now)) pairs.now) }
{
    let mut report = Vec::new(alloc);
    for pair in pairs {
        note_difference(
            &mut report,
            difference_at(listed, found, missing, new, *pair),
        )?;
    }
    Ok(report)
}

/// Adds a difference, if there is one.
fn note_difference(
    report: &mut Vec<Difference>,
    difference: Option<Difference>,
) -> Result<(), AllocError>
    ensures { OnOk result (report.new.items ≡ report.old.items ++ option_to_list difference) }
{
    if let Some(difference) = difference {
        report.push(difference)?;
    }
    Ok(())
}

/// Returns the difference at a pair, or `None` where both items agree, or where a new item is reported at the place
/// from which it moved.
fn difference_at(
    listed: &[Item],
    found: &[Item],
    missing: &Holders<'_>,
    new: &Holders<'_>,
    pair: Pair,
) -> Option<Difference>
    ensures { result ≡ difference_at listed.now found.now (held missing.now) (held new.now) pair }
{
    match pair {
        Pair::Both(before, after) => both_by(listed.get(before), found.get(after), before, after),
        Pair::Listed(place) => match listed.get(place) {
            Some(item) => or_missing(move_of(listed, found, missing, new, item), place),
            None => None,
        },
        Pair::Found(place) => match found.get(place) {
            Some(item) => or_new(move_of(listed, found, missing, new, item), place),
            None => None,
        },
    }
}

/// Returns the difference between two items of one path, which stand at these places: `Changed` goes before `Touched`.
/// `None` if they agree, or if one is not there, which no pair of a merge has.
fn both_by(
    item: Option<&Item>,
    other: Option<&Item>,
    listed: usize,
    found: usize,
) -> Option<Difference>
    ensures { result ≡ both_by (option_copied item.entry) (option_copied other.entry) listed found }
{
    let item = item?;
    let other = other?;
    let changes = item.changes_to(other);
    if changes.is_any() {
        return Some(Difference::Changed {
            listed,
            found,
            changes,
        });
    }
    if item.has_other_moment(other) {
        return Some(Difference::Touched { listed, found });
    }
    None
}

/// Returns the move `found`, if there is one, or that the item of the list at place `listed` is missing.
fn or_missing(found: Option<Difference>, listed: usize) -> Option<Difference>
    ensures { result ≡ or_missing found listed }
{
    match found {
        Some(difference) => Some(difference),
        None => Some(Difference::Missing { listed }),
    }
}

/// Returns that the item at place `found` is new, unless it came by a move: that is reported at its place in the list.
fn or_new(move_of_it: Option<Difference>, found: usize) -> Option<Difference>
    ensures { result ≡ or_new move_of_it found }
{
    match move_of_it {
        Some(_) => None,
        None => Some(Difference::New { found }),
    }
}

/// Returns the move that an item takes part in, from either side, or `None`. Only files move, and only by a hash: a
/// file without one finds no holder.
fn move_of(
    listed: &[Item],
    found: &[Item],
    missing: &Holders<'_>,
    new: &Holders<'_>,
    item: &Item,
) -> Option<Difference>
    ensures { result ≡ move_of listed.now found.now (held missing.now) (held new.now) item.now }
{
    if !item.kind.is_file() {
        return None;
    }
    let hash = item.hash.as_slice();
    move_by(listed, found, missing.get(hash), new.get(hash))
}

/// Returns the move of the only missing and the only new file with one hash, by the holders of that hash on either
/// side. `None` where a side has none or several.
fn move_by(
    listed: &[Item],
    found: &[Item],
    missing: Option<&Holder>,
    new: Option<&Holder>,
) -> Option<Difference>
    ensures { result ≡ move_by listed.now found.now (option_copied missing.entry) (option_copied new.entry) }
{
    let Some(Holder::One(before)) = missing else {
        return None;
    };
    let Some(Holder::One(after)) = new else {
        return None;
    };
    moved_if(listed.get(*before), found.get(*after), *before, *after)
}

/// Returns the move from the place `listed` to the place `found`, unless both items have a length and these differ.
fn moved_if(
    item: Option<&Item>,
    other: Option<&Item>,
    listed: usize,
    found: usize,
) -> Option<Difference>
    ensures { result ≡ moved_if (option_copied item.entry) (option_copied other.entry) listed found }
{
    let item = item?;
    let other = other?;
    if item.has_other_length(other) {
        None
    } else {
        Some(Difference::Moved { listed, found })
    }
}
