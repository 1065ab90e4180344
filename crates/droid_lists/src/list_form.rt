//! Sees from its first line which form a list of files has.

ghost use Rattle.std.specs.Prelude.{◌≡◌, ◌==◌, ◌||◌, IfOk, option_map};
ghost use Rattle.std.specs.List.{position};
ghost use Rattle.droid_fixity.specs.Lists.{items_of};
ghost use Rattle.droid_fixity.specs.FilePaths.{behind};
ghost use Rattle.droid_lists.specs.ListForms as forms;

use droid_fixity::{ManifestFault, ManifestForm, read_manifest, without_mark};
use std::alloc::{AllocError, Global};

/// The form of a list of files.
#[derive(Clone, Copy)]
pub enum ListForm {
    /// The CSV of a profile or of an export.
    Profile,
    /// A list of checksums, which names files alone.
    Checksum(ManifestForm),
}

impl ListForm {
    /// Returns the form of a text, by its first line. `in_bag` says whether the folder that it describes is a bag. Each
    /// text has a form; whether it is well-formed is seen when it is read.
    pub fn of(alloc: Global, in_bag: bool, text: &[u8]) -> Result<ListForm, AllocError>
        ensures { IfOk result (λ form. form ≡ forms.form_of in_bag text.now) }
    {
        if is_profile(text) {
            return Ok(ListForm::Profile);
        }
        let form = manifest_form(alloc, in_bag, text)?;
        Ok(ListForm::Checksum(form))
    }

    /// Returns whether lists of this form name files alone, and no folders.
    pub fn names_files_alone(self) -> bool
        ensures { result ≡ forms.names_files_alone self }
    {
        match self {
            ListForm::Profile => false,
            ListForm::Checksum(_) => true,
        }
    }
}

/// Returns whether a text begins like the CSV of a profile: with the name of its first column, with or without quotes,
/// and a comma. A byte order mark may stand in front.
fn is_profile(text: &[u8]) -> bool
    ensures { result ≡ forms.is_profile text.now }
{
    let text = without_mark(text);
    let quoted: &[u8] = b"\"ID\",";
    let plain: &[u8] = b"ID,";
    begins(quoted, text) || begins(plain, text)
}

/// Returns whether a text begins with these bytes.
fn begins(front: &[u8], text: &[u8]) -> bool
    ensures { result ≡ forms.begins front.now text.now }
{
    match behind(front, text) {
        Some(_) => true,
        None => false,
    }
}

/// Returns what stands behind the text `front`, or `None` if `text` does not begin with it. As `behind` of
/// `droid_fixity`, which keeps its own to itself.
fn behind<'a>(front: &[u8], text: &'a [u8]) -> Option<&'a [u8]>
    ensures { option_map (λ rest. rest.now) result ≡ behind front.now text.now }
{
    match text.split_at_checked(front.len()) {
        Some((first, rest)) => { if first == front { Some(rest) } else { None } }
        None => None,
    }
}

/// Returns the form of a list of checksums: that of a bag's manifest only in a bag, and if its first line is one of
/// such a manifest.
fn manifest_form(alloc: Global, in_bag: bool, text: &[u8]) -> Result<ManifestForm, AllocError>
    ensures { IfOk result (λ form. form ≡ forms.manifest_form in_bag text.now) }
{
    if !in_bag {
        return Ok(ManifestForm::Checksums);
    }
    let is_of_bag = is_of_bag(alloc, first_line(text))?;
    Ok(form_by(is_of_bag))
}

/// Returns the form of a list of checksums, by whether it is that of a bag.
fn form_by(is_of_bag: bool) -> ManifestForm
    ensures { result ≡ forms.form_by is_of_bag }
{
    if is_of_bag {
        ManifestForm::Bag
    } else {
        ManifestForm::Checksums
    }
}

/// Returns whether a line, read as a bag's manifest, names a file below the folder `data`. A line at fault does not.
fn is_of_bag(alloc: Global, line: &[u8]) -> Result<bool, AllocError>
    ensures { IfOk result (λ is. is ≡ forms.has_items (items_of ManifestForm.Bag line.now)) }
{
    match read_manifest(alloc, ManifestForm::Bag, line) {
        Ok(items) => Ok(!items.as_slice().is_empty()),
        Err(ManifestFault::Memory) => Err(AllocError),
        Err(ManifestFault::Empty) => Ok(false),
        Err(ManifestFault::Line { .. }) => Ok(false),
        Err(ManifestFault::Path { .. }) => Ok(false),
        Err(ManifestFault::Digest { .. }) => Ok(false),
    }
}

/// Returns the first line, without the line feed or carriage return that ends it, which a last line may lack.
fn first_line(text: &[u8]) -> &[u8]
    ensures { result.now ≡ forms.first_line text.now }
{
    match first_end(text) {
        Some(place) => &text[..place],
        None => text,
    }
}

/// Returns the place of the first line feed or carriage return, counted from 0.
fn first_end(text: &[u8]) -> Option<usize>
    ensures { result ≡ position (λ b. (b == 10) || (b == 13)) text.now }
{
    text.iter()
        .position(|byte| *byte == b'\n' || *byte == b'\r')
}
