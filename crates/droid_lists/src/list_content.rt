//! Reads a list of files of any form: its items, the kind of their hashes, and the formats of its files.

ghost use Rattle.std.specs.Prelude.{◌≡◌, IfOk, Ok};
ghost use Rattle.droid_fixity.specs.Lists.{items_of};
ghost use Rattle.droid_lists.specs.ListForms.{form_of};
ghost use Rattle.droid_lists.specs.Listings.{Comes, HasFormats, ListSays, ListSaysBy, Says, first_in, hash_in};
ghost use Rattle.droid_lists.specs.Listings.{manifest_fault, of_manifest, profile_fault};
ghost use Rattle.droid_lists.specs.declared.list_form.ListForm.TheVariants as forms;

use crate::list_form::ListForm;
use droid_export::{FormatRow, ListFault, read_profile};
use droid_fixity::{Inventory, ManifestFault, ManifestForm, SamePath, read_manifest};
use droid_frame::{HashKind, Item};
use std::alloc::{AllocError, Global};

/// Why a list cannot be read.
#[derive(Drop)]
pub enum UnreadList {
    /// Out of memory.
    Memory,
    /// The CSV is malformed or contradicts itself. The reason is never [`ListFault::Memory`].
    Profile(ListFault),
    /// The list of checksums is malformed or names no file. The reason is never [`ManifestFault::Memory`].
    Manifest(ManifestFault),
    /// Two items have this path.
    Twice(SamePath),
}

// A call that runs out of memory ends the reading with `Memory`, by `?` alone.
impl From<AllocError> for UnreadList {
    ghost use Rattle.droid_lists.specs.declared.list_content.UnreadList.TheVariants.{Memory};

    ghost from_gives = { λ _ fault. fault ≡ Memory };

    fn from(_error: AllocError) -> UnreadList {
        UnreadList::Memory
    }
}

/// What a list says. (Not the `Listed` of `entries.rt`, which is one record.)
#[derive(Drop)]
pub struct Listed {
    /// Its form.
    pub form: ListForm,
    /// Its folders and files, in order of path.
    pub items: Inventory,
    /// The kind of their hashes: that of the first hash.
    pub hash: HashKind,
}

/// Reads a list: the CSV of a profile or of an export, or a list of checksums. `in_bag` says whether the folder that it
/// describes is a bag, and `formats` asks for the formats that a profile gives its files. If several faults apply, the
/// first of [`UnreadList`] is returned.
pub fn read_list(
    alloc: Global,
    in_bag: bool,
    formats: bool,
    text: &[u8],
) -> Result<(Listed, Vec<FormatRow>), UnreadList>
    ensures says { ListSays in_bag formats text.now (first_in result) }
    ensures formats { IfOk result (λ read. HasFormats formats (form_of in_bag text.now) text.now read.1.items) }
{
    match ListForm::of(alloc, in_bag, text) {
        Ok(form) => list_by(alloc, form, formats, text),
        Err(_) => Err(UnreadList::Memory),
    }
}

/// Reads a list of this form, and sees the kind of its hashes. `formats` asks for the formats of files.
fn list_by(
    alloc: Global,
    form: ListForm,
    formats: bool,
    text: &[u8],
) -> Result<(Listed, Vec<FormatRow>), UnreadList>
    ensures says { ListSaysBy form formats text.now (first_in result) }
    ensures formats { IfOk result (λ read. HasFormats formats form text.now read.1.items) }
{
    match items_in(alloc, form, formats, text) {
        Ok((items, rows)) => {
            let hash = hash_in(items.as_slice());
            Ok((Listed { form, items, hash }, rows))
        }
        Err(fault) => Err(fault),
    }
}

/// Reads the items of a list of this form, in order of path, and the formats that it gives files if `formats` asks for
/// them. A list of checksums gives none.
fn items_in(
    alloc: Global,
    form: ListForm,
    formats: bool,
    text: &[u8],
) -> Result<(Inventory, Vec<FormatRow>), UnreadList>
    ensures says { Says form formats text.now (first_in result) }
    ensures formats { IfOk result (λ read. HasFormats formats form text.now read.1.items) }
{
    match form {
        ListForm::Profile => items_of_profile(alloc, formats, text),
        ListForm::Checksum(form) => match items_of_manifest(alloc, form, text) {
            Ok(items) => Ok((items, Vec::new(alloc))),
            Err(fault) => Err(fault),
        },
    }
}

/// Reads the items of a profile's CSV, in order of path, and the formats of its files if `formats` asks for them.
fn items_of_profile(
    alloc: Global,
    formats: bool,
    text: &[u8],
) -> Result<(Inventory, Vec<FormatRow>), UnreadList>
    ensures says { Says forms.Profile formats text.now (first_in result) }
    ensures formats { IfOk result (λ read. HasFormats formats forms.Profile text.now read.1.items) }
{
    match read_profile(alloc, formats, text) {
        Ok(profile) => match in_order(profile.items) {
            Ok(items) => Ok((items, profile.formats)),
            Err(fault) => Err(fault),
        },
        Err(fault) => Err(profile_fault(fault)),
    }
}

/// Returns the fault of a profile's CSV as one of a list: memory is `Memory`, any other is kept.
fn profile_fault(fault: ListFault) -> UnreadList
    ensures { result ≡ profile_fault fault }
{
    match fault {
        ListFault::Memory => UnreadList::Memory,
        ListFault::Header => UnreadList::Profile(fault),
        ListFault::Missing { .. } => UnreadList::Profile(fault),
        ListFault::Fields { .. } => UnreadList::Profile(fault),
        ListFault::Column { .. } => UnreadList::Profile(fault),
        ListFault::Contradiction { .. } => UnreadList::Profile(fault),
    }
}

/// Reads the items of a list of checksums, in order of path.
fn items_of_manifest(
    alloc: Global,
    form: ManifestForm,
    text: &[u8],
) -> Result<Inventory, UnreadList>
    ensures { Comes (of_manifest (items_of form text.now)) result }
{
    match read_manifest(alloc, form, text) {
        Ok(items) => in_order(items),
        Err(fault) => Err(manifest_fault(fault)),
    }
}

/// Returns the fault of a list of checksums as one of a list: memory is `Memory`, any other is kept.
fn manifest_fault(fault: ManifestFault) -> UnreadList
    ensures { result ≡ manifest_fault fault }
{
    match fault {
        ManifestFault::Memory => UnreadList::Memory,
        ManifestFault::Empty => UnreadList::Manifest(fault),
        ManifestFault::Line { .. } => UnreadList::Manifest(fault),
        ManifestFault::Path { .. } => UnreadList::Manifest(fault),
        ManifestFault::Digest { .. } => UnreadList::Manifest(fault),
    }
}

/// Sorts items by path. Fails with `Twice` if two have one path, never for memory.
fn in_order(items: Vec<Item>) -> Result<Inventory, UnreadList>
    ensures { Comes (Ok items.items) result }
{
    match Inventory::of(items) {
        Ok(inventory) => {
            // The prover learns from this call that the paths are in order.
            let _items = inventory.as_slice();
            Ok(inventory)
        }
        Err(same) => Err(UnreadList::Twice(same)),
    }
}

/// Returns the kind of the first hash that items have, or `Nothing` if none has one.
#[tactic(auto, using(crate::proofs::Listing::no_hash, crate::proofs::Listing::this_hash, crate::proofs::Listing::none_left))]
fn hash_in(items: &[Item]) -> HashKind
    ensures { result ≡ hash_in items.now }
{
    for item in items {
        match item.hash.kind() {
            HashKind::Nothing => {}
            HashKind::Md5 => return HashKind::Md5,
            HashKind::Sha256 => return HashKind::Sha256,
        }
    }
    HashKind::Nothing
}
