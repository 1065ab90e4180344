//! The formats that were found of a file: copies of their identifiers (PUIDs).

ghost use Rattle.std.specs.Prelude.{◌≡◌, ◌++◌, [], ◌∷◌, IfOk, OnOk};
ghost use Rattle.droid_lists.specs.Formats.{file_of, or_none};

use droid_frame::{Blob, Text, Texts};
use std::alloc::{AllocError, Global};
use std::marker::Model;

/// Identifiers (PUIDs) of formats. In contracts it is the list of their bytes.
#[derive(Drop)]
pub struct Puids {
    items: Vec<Blob>,
}

impl Model for Puids {
    ghost use Rattle.std.specs.Prelude.{List, ℕ};

    ghost Value = { List (List ℕ) };

    ghost view = { λ puids. puids.items.items };
}

impl Puids {
    /// Copies identifiers. If there are none, there is an empty one, as the row of a file without a format has it.
    pub fn or_none(alloc: Global, puids: &Texts) -> Result<Puids, AllocError>
        ensures { IfOk result (λ copies. copies ≡ or_none puids.now) }
    {
        let items = copies_or_none(alloc, puids.as_slice())?;
        Ok(Puids { items })
    }

    /// Returns the identifiers; of a file without a format, an empty one.
    pub fn as_slice(&self) -> &[Blob]
        ensures { result.now ≡ self.now }
    {
        self.items.as_slice()
    }
}

/// A file's path and its formats.
#[derive(Drop)]
pub struct FileFormats {
    /// The path.
    pub path: Blob,
    /// The identifiers of the formats, or an empty one if the file has none.
    pub puids: Puids,
}

impl FileFormats {
    /// Copies the path of a file and the identifiers of its formats. Fails only if out of memory.
    pub fn of(alloc: Global, path: &str, puids: &Texts) -> Result<FileFormats, AllocError>
        ensures { IfOk result (λ file. file ≡ file_of path.now puids.now) }
    {
        let path = Blob::copy_of(alloc, path.as_bytes())?;
        let puids = Puids::or_none(alloc, puids)?;
        Ok(FileFormats { path, puids })
    }
}

/// Copies identifiers. If there are none, returns one empty one.
fn copies_or_none(alloc: Global, puids: &[Text]) -> Result<Vec<Blob>, AllocError>
    ensures { IfOk result (λ copies. copies.items ≡ or_none puids.now) }
{
    if puids.is_empty() {
        let none = one_empty(alloc)?;
        return Ok(none);
    }
    let copies = copies_of(alloc, puids)?;
    Ok(copies)
}

/// Returns a list of one empty PUID, as the row of a file without a format has it.
fn one_empty(alloc: Global) -> Result<Vec<Blob>, AllocError>
    ensures { IfOk result (λ copies. copies.items ≡ [] ∷ []) }
{
    let mut copies = Vec::new(alloc);
    add_copy(alloc, &mut copies, &[])?;
    Ok(copies)
}

/// Copies identifiers, in their order.
fn copies_of(alloc: Global, puids: &[Text]) -> Result<Vec<Blob>, AllocError>
    ensures { IfOk result (λ copies. copies.items ≡ puids.now) }
{
    let mut copies = Vec::new(alloc);
    for puid in puids {
        add_copy(alloc, &mut copies, puid.as_str().as_bytes())?;
    }
    Ok(copies)
}

/// Appends a copy of an identifier. After an error nothing is promised of `copies`: callers drop them.
pub(crate) fn add_copy(alloc: Global, copies: &mut Vec<Blob>, puid: &[u8]) -> Result<(), AllocError>
    ensures { OnOk result (copies.new.items ≡ copies.old.items ++ puid.now ∷ []) }
{
    let copy = Blob::copy_of(alloc, puid)?;
    copies.push(copy)?;
    Ok(())
}
