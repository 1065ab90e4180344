//! Inventories: items in the order of their paths.

ghost use Rattle.std.specs.Prelude.{◌≡◌, ◌<◌, ℕ, true, false, IfErr, IfNone, IfOk, IfSome, IsPermutation, length, map};
ghost use Rattle.std.specs.List.Sorted.{IsSortedBy};
ghost use Rattle.std.specs.Ordering.{nat_cmp};
ghost use Rattle.std.specs.Cmp.Lexicographic.{slice_cmp};
ghost use Rattle.droid_fixity.specs.Inventories.{AreInOrder, IsBeforeAt, IsTwice, is_before};

use droid_frame::{Blob, Item};
use std::cmp::Ordering;
use std::marker::Model;

/// Items in the order of the bytes of their paths, no path twice. In contracts it is the list of its items.
#[derive(Drop)]
pub struct Inventory {
    items: Vec<Item>,
}

impl Model for Inventory {
    ghost use Rattle.std.specs.Prelude.{List, map};
    ghost use Rattle.droid_frame.specs.declared.item.Item.{Item};

    ghost Value = { List Item };

    ghost view = { λ it. it.items.items };

    ghost use Rattle.droid_fixity.specs.Inventories.{AreInOrder};

    ghost invariant = { λ it. AreInOrder (map (λ item. item.path) it.items.items) };
}

/// Two items have one path.
#[derive(Drop)]
pub struct SamePath {
    /// The path.
    pub path: Blob,
}

impl Inventory {
    /// Sorts items by the bytes of their paths. Two items of one path are an error.
    ///
    /// Never runs out of memory: where there is none, only the sort takes longer. The cost grows with the number of
    /// items if they come in few sorted runs.
    pub fn of(items: Vec<Item>) -> Result<Inventory, SamePath>
        ensures same { IfOk result (λ inventory. IsPermutation items.items inventory) }
        // The reported path is the path of two items.
        ensures twice { IfErr result (λ fault. IsTwice items.items fault.path) }
    {
        let mut items = items;
        sort_by_path(&mut items);
        match first_repeated(items.as_slice()) {
            None => Ok(Inventory { items }),
            Some(place) => {
                let Item { path, .. } = items.swap_remove(place);
                Err(SamePath { path })
            }
        }
    }

    /// Returns the items in order.
    pub fn as_slice(&self) -> &[Item]
        ensures value { result.now ≡ self.now }
        ensures in_order { AreInOrder (map (λ item. item.path) self.now) }
    {
        self.items.as_slice()
    }
}

/// Sorts items by path. The stable sort keeps the sorted runs that lists come in, but takes memory; where there is
/// none, the other sort runs. No clause holds how items of one path stand to each other.
fn sort_by_path(items: &mut Vec<Item>)
    ensures same { IsPermutation items.old.items items.new.items }
    ensures sorted { IsSortedBy (λ a b. is_before a.path b.path) items.new.items }
{
    match items.sort_by(|first, second| order_of(first, second)) {
        Ok(()) => {}
        Err(_) => items.sort_unstable_by(|first, second| order_of(first, second)),
    }
}

/// Returns the first place, counted from 0, whose path does not come after the path in front of it: in sorted items,
/// the second one of a path. `None` if there is no such place.
fn first_repeated(items: &[Item]) -> Option<usize>
    ensures none { IfNone result ((place : ℕ) → 0 < place → place < length items.now
        → IsBeforeAt items.now place true) }
    ensures some { IfSome result (λ place.
        (0 < place) × (place < length items.now) × IsBeforeAt items.now place false) }
{
    for place in 1..items.len() {
        if !is_after_last(items, place) {
            return Some(place);
        }
    }
    None
}

/// Returns whether the path at this place comes after the path in front of it. In sorted items it is the same path
/// otherwise.
fn is_after_last(items: &[Item], place: usize) -> bool
    requires above { 0 < place }
    requires below { place < length items.now }
    ensures { IsBeforeAt items.now place result }
{
    is_before(&items[place - 1], &items[place])
}

/// Returns whether the first item's path comes before the second's. Equal paths do not.
fn is_before(first: &Item, second: &Item) -> bool
    ensures { result ≡ is_before first.now.path second.now.path }
{
    match order_of(first, second) {
        Ordering::Less => true,
        Ordering::Equal => false,
        Ordering::Greater => false,
    }
}

/// Compares the paths of two items by their bytes.
fn order_of(first: &Item, second: &Item) -> Ordering
    ensures { result ≡ slice_cmp nat_cmp first.now.path second.now.path }
{
    first.path.as_slice().cmp(second.path.as_slice())
}
