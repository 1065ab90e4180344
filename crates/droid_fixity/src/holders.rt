//! Which files hold a hash, so that a moved file is found by it.

ghost use Rattle.std.specs.Prelude.{◌≡◌, ℕ, List, IfOk, OnOk, if◌then◌else◌, option_copied, slice_get, Some};
ghost use Rattle.droid_fixity.specs.Holding.{held, holder_after, holder_among};
ghost use Rattle.droid_frame.specs.Items.{bears};

use droid_frame::Item;
use std::alloc::{AllocError, Global};
use std::collections::BTreeMap;

/// The items that hold one hash.
#[derive(Clone, Copy)]
pub(crate) enum Holder {
    /// One item, at this place.
    One(usize),
    /// Several items.
    Many,
}

/// For each hash, which items hold it.
pub(crate) type Holders<'a> = BTreeMap<&'a [u8], Holder>;

/// Returns for each hash which of the files at these places of `items` hold it. Nobody holds a hash that is not in the
/// map; folders, and files without a hash, hold none.
pub(crate) fn holders_of<'a>(
    alloc: Global,
    items: &'a [Item],
    places: &[usize],
) -> Result<Holders<'a>, AllocError>
    ensures { IfOk result (λ holders. (hash : List ℕ) → held holders hash ≡ holder_among items.now places.now hash) }
{
    let mut holders = BTreeMap::new(alloc);
    for place in places {
        if let Some(item) = item_at(items, *place) {
            note(&mut holders, item, *place)?;
        }
    }
    Ok(holders)
}

/// Returns the item at a place, or `None` behind the last. `report.rt` gives only places of items.
fn item_at(items: &[Item], place: usize) -> Option<&Item>
    ensures { option_copied result ≡ slice_get items.now place }
{
    items.get(place)
}

/// Adds the item at `place` to the holders of its hash, if it is a file that has one. After an error nothing is
/// promised of `holders`.
fn note<'a>(holders: &mut Holders<'a>, item: &'a Item, place: usize) -> Result<(), AllocError>
    ensures { OnOk result ((hash : List ℕ)
        → held holders.new hash
        ≡ (if bears hash item.now then Some (holder_after (held holders.old hash) place) else held holders.old hash)) }
{
    let hash = item.hash.as_slice();
    if item.kind.is_file() && !hash.is_empty() {
        let holder = holder_after(holders.get(hash), place);
        holders.insert(hash, holder)?;
    }
    Ok(())
}

/// Returns who holds a hash after `place` was found, too: this one item if `holder` was nobody, otherwise several.
fn holder_after(holder: Option<&Holder>, place: usize) -> Holder
    ensures { result ≡ holder_after (option_copied holder.entry) place }
{
    match holder {
        None => Holder::One(place),
        Some(_) => Holder::Many,
    }
}
