//! Reads a list of checksums, line by line.

ghost use Rattle.std.specs.Prelude.{◌≡◌, ◌++◌, ◌∷◌, [], Ok, OnOk};
ghost use Rattle.std.specs.List.{slice_split};
ghost use Rattle.droid_fixity.specs.Lines as lines;
ghost use Rattle.droid_fixity.specs.Lists.{Gives, items_of};
ghost use Rattle.droid_fixity.specs.Lists as lists;
ghost use Rattle.droid_fixity.specs.Texts as texts;

use crate::checksum_lists::form::ManifestForm;
use crate::checksum_lists::line_content::{Meaning, meaning_of};
use crate::checksum_lists::list_fault::ManifestFault;
use crate::checksum_lists::text::{ends_line, has_returns, unpaired, without_mark};
use droid_frame::{HashValue, Item};
use std::alloc::{AllocError, Global};

/// Reads a list of checksums. Each line that names a file gives an item with its path and its hash.
///
/// Paths begin with `/`, as those of a profile do; those of a bag's manifest are paths below the folder `data`. A path
/// may stand twice: `Inventory::of` refuses that. An error names the first line at fault, or says that the list names
/// no file. docs/CHECKSUMS.md says which lines are accepted.
pub fn read_manifest(
    alloc: Global,
    form: ManifestForm,
    text: &[u8],
) -> Result<Vec<Item>, ManifestFault>
    ensures { Gives result (items_of form text.now) }
{
    match items_by(alloc, form, without_mark(text)) {
        Ok(items) => if_some(items),
        Err(fault) => Err(fault),
    }
}

/// Returns the items, or the fault `Empty` if there is none.
fn if_some(items: Vec<Item>) -> Result<Vec<Item>, ManifestFault>
    ensures { Gives result (lists.some_items (Ok items.items)) }
{
    if items.is_empty() {
        return Err(ManifestFault::Empty);
    }
    Ok(items)
}

/// Reads a text without a byte order mark. Only a bag's text with carriage returns is copied first, so that one byte
/// ends each line.
fn items_by(alloc: Global, form: ManifestForm, text: &[u8]) -> Result<Vec<Item>, ManifestFault>
    ensures { Gives result
        (lists.items_from form 1 [] (slice_split (texts.ends_line form) (texts.unpaired form text.now))) }
{
    if has_returns(form, text) {
        let single = unpaired(alloc, text)?;
        let items = items_in(alloc, form, single.as_slice())?;
        return Ok(items);
    }
    match items_in(alloc, form, text) {
        Ok(items) => Ok(items),
        Err(fault) => Err(fault),
    }
}

/// Reads a text in which one byte ends each line. Lines are numbered from 1, and the first one at fault ends the
/// reading.
fn items_in(alloc: Global, form: ManifestForm, text: &[u8]) -> Result<Vec<Item>, ManifestFault>
    ensures { Gives result (lists.items_from form 1 [] (slice_split (texts.ends_line form) text.now)) }
{
    let mut items = Vec::new(alloc);
    let mut number = 1;
    for line in text.split(|byte| ends_line(form, *byte)) {
        let meaning = meaning_of(alloc, form, without_return(line))?;
        if let Err(fault) = take(&mut items, number, meaning) {
            return Err(fault);
        }
        number += 1;
    }
    Ok(items)
}

/// Adds what the line `number` says to `items`. After a fault nothing is promised of `items`: `items_in` drops them.
fn take(items: &mut Vec<Item>, number: u64, meaning: Meaning) -> Result<(), ManifestFault>
    ensures { lists.Leaves result items.new.items (lists.taken number items.old.items meaning) }
{
    match meaning {
        Meaning::Blank => Ok(()),
        Meaning::File(item) => take_file(items, number, item),
        Meaning::Malformed => Err(ManifestFault::Line { line: number }),
        Meaning::Misplaced => Err(ManifestFault::Path { line: number }),
    }
}

/// Adds the item of the line `number`, or fails with `Digest` if its hash is of another kind than those before it.
fn take_file(items: &mut Vec<Item>, number: u64, item: Item) -> Result<(), ManifestFault>
    ensures { lists.Leaves result items.new.items (lists.taken_file number items.old.items item) }
{
    if !is_alike(items.as_slice(), item.hash) {
        return Err(ManifestFault::Digest { line: number });
    }
    add_item(items, item)?;
    Ok(())
}

/// Appends an item. Fails only if out of memory, which `take_file` makes the fault `Memory`.
fn add_item(items: &mut Vec<Item>, item: Item) -> Result<(), AllocError>
    ensures { OnOk result (items.new.items ≡ items.old.items ++ item ∷ []) }
{
    items.push(item)?;
    Ok(())
}

/// Returns whether a hash is of the kind of the first item's, and so of all before it; true if it is the first.
fn is_alike(items: &[Item], hash: HashValue) -> bool
    ensures { result ≡ lists.is_alike items.now hash }
{
    match items.first() {
        Some(item) => item.hash.kind().number() == hash.kind().number(),
        None => true,
    }
}

/// Returns a line without the one carriage return at its end, if it has one. In a bag's text none is left.
fn without_return(line: &[u8]) -> &[u8]
    ensures { result.now ≡ lines.without_return line.now }
{
    match line.split_last() {
        Some((last, rest)) => { if *last == b'\r' { rest } else { line } }
        None => line,
    }
}
