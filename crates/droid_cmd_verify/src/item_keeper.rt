//! A recipient of a walk that keeps the items of a tree's records, and the formats of its files.

ghost use Rattle.std.specs.Prelude.{◌≡◌, ◌++◌, [], ◌∷◌, IfOk, IsTrue, OnErr, OnOk};
ghost use Rattle.droid_core_spec.specs.Conditions.{is_moment};
ghost use Rattle.droid_lists.specs.Exports.{item_of_record};
ghost use Rattle.droid_cmd_verify.specs.KeptItems.{Keeps, KeepsNot, formats_by, items_by};

use droid_frame::{Item, Record};
use droid_lists::{FileFormats, item_of_node};
use droid_profile::{Recipient, RecipientFault};
use std::alloc::{AllocError, Global};

/// Keeps the items of a tree's records, in order, and if that is asked for the formats of its files.
#[derive(Drop)]
pub struct ItemKeeper {
    /// The allocator.
    pub alloc: Global,
    /// Whether files alone are kept, and no folders.
    pub files_only: bool,
    /// Whether the formats of files are kept.
    pub identify: bool,
    /// The items, in the order of the records.
    pub items: Vec<Item>,
    /// The files and their formats, in the order of the records. Empty if they are not kept.
    pub formats: Vec<FileFormats>,
}

impl ItemKeeper {
    /// Keeps nothing yet. Takes no memory.
    pub fn new(alloc: Global, files_only: bool, identify: bool) -> ItemKeeper
        ensures files_only { result.files_only ≡ files_only }
        ensures items { result.items.items ≡ [] }
        ensures identify { result.identify ≡ identify }
        ensures formats { result.formats.items ≡ [] }
    {
        ItemKeeper {
            alloc,
            files_only,
            identify,
            items: Vec::new(alloc),
            formats: Vec::new(alloc),
        }
    }
}

// The formats come first: after a fault there may be those of a record without its item, and no report is made then.
impl Recipient for ItemKeeper {
    ghost takes = { Keeps };

    ghost fails = { KeepsNot };

    fn take(&mut self, next: &Record) -> Result<(), RecipientFault> {
        match keep_formats(self.alloc, self.identify, &mut self.formats, next) {
            Ok(()) => {}
            Err(_) => return Err(RecipientFault::Memory),
        }
        match keep(self.alloc, self.files_only, &mut self.items, next) {
            Ok(()) => Ok(()),
            Err(_) => Err(RecipientFault::Memory),
        }
    }
}

/// Appends the path and the formats of a record, if it is a file's and formats are kept (`identify`). Fails only if
/// memory runs out; nothing is promised of the formats then.
fn keep_formats(
    alloc: Global,
    identify: bool,
    formats: &mut Vec<FileFormats>,
    next: &Record,
) -> Result<(), AllocError>
    ensures { OnOk result (formats.new.items ≡ formats.old.items ++ formats_by identify next.now) }
{
    if identify && next.kind.is_file() {
        let file = FileFormats::of(alloc, next.path.as_str(), &next.puids)?;
        formats.push(file)?;
    }
    Ok(())
}

/// Appends the item of a record, unless it is a folder's and files alone are kept. Fails only if memory runs out.
fn keep(
    alloc: Global,
    files_only: bool,
    items: &mut Vec<Item>,
    next: &Record,
) -> Result<(), AllocError>
    requires { IsTrue (is_moment next.now.modified) }
    ensures kept { OnOk result (items.new.items ≡ items.old.items ++ items_by files_only next.now) }
    ensures unchanged { OnErr result (items.new.items ≡ items.old.items) }
{
    if files_only && !next.kind.is_file() {
        return Ok(());
    }
    let item = item_of(alloc, next)?;
    add_item(items, item)
}

/// Appends an item. If memory runs out, the items are as before.
fn add_item(items: &mut Vec<Item>, item: Item) -> Result<(), AllocError>
    ensures kept { OnOk result (items.new.items ≡ items.old.items ++ item ∷ []) }
    ensures unchanged { OnErr result (items.new.items ≡ items.old.items) }
{
    items.push(item)?;
    Ok(())
}

/// Returns the item of a record. There always is one, since the moment of its last change can be written. Fails only if
/// memory runs out.
#[tactic(auto, using(crate::proofs::Moments::moment_written))]
fn item_of(alloc: Global, next: &Record) -> Result<Item, AllocError>
    requires { IsTrue (is_moment next.now.modified) }
    ensures { IfOk result (λ item. item ≡ item_of_record next.now) }
{
    let path = next.path.as_str();
    match item_of_node(alloc, path, next.kind, next.size, next.modified, next.hash)? {
        Some(item) => Ok(item),
        None => unreachable!(),
    }
}
