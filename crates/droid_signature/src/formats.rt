//! Which formats the registry has, and their rows.

ghost use Rattle.std.specs.Prelude.{◌≡◌, ℕ, List, ◌++◌, ◌∷◌, [], ◌&&◌, None, IfOk, IfSome, OnOk, length};
ghost use Rattle.droid_pronom.specs.RegistryFields as field;
ghost use Rattle.droid_pronom.specs.declared.format.Format.{Format};
ghost use Rattle.droid_signature.specs.RegistryTables.{FormatFits};
ghost use Rattle.droid_signature.specs.Formats.{IsReasonOfFormat, Placed, format_of, formats_of, placed, puid_in};
ghost use Rattle.droid_signature.specs.Keepings.{Keeps};
ghost use Rattle.droid_signature.specs.PlaceMaps.{AreOf};
ghost use Rattle.droid_signature.specs.Views.{all_of};

use crate::left_out::{Item, Why};
use crate::places::Places;
use crate::table::Table;
use droid_pronom::is_puid;
use droid_signature_file::FileFormat;
use std::alloc::{AllocError, Global};

/// The most formats of a registry, as `FORMATS_LIMIT` of `droid_pronom`. The definitions `IsReasonOfFormat` and
/// `FormatFits` have this number too; the prover ties it to them.
const FORMATS_LIMIT: usize = 4096;

/// A format that the registry has.
#[derive(Clone, Copy)]
pub struct Kept<'a> {
    /// Its place in the signature file.
    pub place: usize,
    pub format: &'a FileFormat,
}

/// The formats that the registry has, in the file's order, and their rows.
pub struct Keeping<'a> {
    pub table: Table,
    pub kept: Vec<Kept<'a>>,
    places: Places,
}

// Written by hand, so that whatever drops it does not prove again how each part is dropped.
impl Drop for Keeping<'_> {
    fn drop(self) {
        let Keeping {
            table: _table,
            kept: _kept,
            places: _places,
        } = self;
    }
}

impl<'a> Keeping<'a> {
    /// Begins with no format. Allocates nothing.
    fn new(alloc: Global) -> Keeping<'a>
        ensures { Keeps [] result }
    {
        Keeping {
            table: Table::new(alloc),
            kept: Vec::new(alloc),
            places: Places::new(alloc),
        }
    }

    /// Keeps the format at a place of the file, or leaves it out for its first reason.
    fn keep(
        &mut self,
        alloc: Global,
        place: usize,
        format: &'a FileFormat,
    ) -> Result<(), AllocError>
        ensures { OnOk result ((xs : List Placed) → Keeps xs self.old
            → Keeps (xs ++ record { place = place; format = format.now } ∷ []) self.new) }
    {
        match why_not(&self.places, self.kept.len(), format) {
            Some(why) => self.table.leave_out(place, Item::Format, why)?,
            None => self.add(alloc, place, format)?,
        }
        Ok(())
    }

    /// Adds the format at a place of the file, which the registry can hold: `why_not` found no reason.
    fn add(&mut self, alloc: Global, place: usize, format: &'a FileFormat) -> Result<(), AllocError>
        ensures { OnOk result ((xs : List Placed) → Keeps xs self.old
            → FormatFits (formats_of (all_of self.old.kept.items)) (format_of format.now)
            → Keeps (xs ++ record { place = place; format = format.now } ∷ []) self.new) }
    {
        let puid = puid_of(format);
        let count = self.kept.len();
        self.places.add(alloc, puid, count)?;
        self.table.push(
            "F",
            puid,
            format.name(),
            format.version(),
            format.mime(),
            "",
        )?;
        self.kept.push(Kept { place, format })?;
        Ok(())
    }
}

/// Returns the formats that a registry can hold, with their rows, and why it cannot hold the others.
pub fn keep_formats<'a>(alloc: Global, formats: &'a [FileFormat]) -> Result<Keeping<'a>, AllocError>
    ensures { IfOk result (Keeps (placed formats.now)) }
{
    let mut keeping = Keeping::new(alloc);
    for place in 0..formats.len() {
        keeping.keep(alloc, place, &formats[place])?;
    }
    Ok(keeping)
}

/// Returns the PUID of a format, an empty text if it has none. Each format of the registry has one.
pub fn puid_of(format: &FileFormat) -> &str
    ensures { result.now ≡ puid_in format.now }
{
    match format.puid() {
        Some(puid) => puid.as_str(),
        None => "",
    }
}

/// Returns why a registry that has `count` formats with these PUIDs cannot hold a format, if it cannot: the first
/// reason in the order below. No clause holds the order.
fn why_not(places: &Places, count: usize, format: &FileFormat) -> Option<Why>
    ensures none { result ≡ None → (formats : List Format) → AreOf places.now formats → count ≡ length formats
        → FormatFits formats (format_of format.now) }
    ensures some { IfSome result (λ why.
        (formats : List Format) → AreOf places.now formats → count ≡ length formats
        → IsReasonOfFormat formats format.now why) }
{
    if format.puid().is_none() {
        return Some(Why::NoPuid);
    }
    let puid = puid_of(format);
    if !is_puid(puid) {
        return Some(Why::BadPuid);
    }
    if places.has(puid) {
        return Some(Why::PuidTaken);
    }
    if !is_name(format.name()) {
        return Some(Why::BadName);
    }
    if !are_notes(format.version(), format.mime()) {
        return Some(Why::LongNote);
    }
    if count >= FORMATS_LIMIT {
        return Some(Why::Full);
    }
    None
}

/// Returns whether the text may be a format's name, by the definition of the registry's reader: 1 to 255 bytes. The
/// prover ties this and the next to it; the comments of `BadName` and `LongNote`, and their sentences in
/// `droid_cmd_registry`, have the number as words.
fn is_name(text: &str) -> bool
    ensures { result ≡ field.is_name text.now }
{
    1 <= text.len() && text.len() <= 255
}

/// Returns whether the texts may be a version and a media type, by the definition of the registry's reader: at most 255
/// bytes each.
fn are_notes(version: &str, mime: &str) -> bool
    ensures { result ≡ (field.is_note version.now && field.is_note mime.now) }
{
    version.len() <= 255 && mime.len() <= 255
}
