//! What the rows of a profile's text say of formats, in the last four columns: 14 (PUID), 15 (MIME_TYPE), 16
//! (FORMAT_NAME) and 17 (FORMAT_VERSION).

ghost use Rattle.std.specs.Prelude.{◌≡◌, ◌||◌, ℕ, List, None, IfOk, OnOk, nat_lt};
ghost use Rattle.std.specs.Option.{is_some};
ghost use Rattle.csv.specs.Records.{fields_of};
ghost use Rattle.droid_lists.specs.FormatMaps.{AddsKnown, TakesFormat, known_at, known_count, own_has};
ghost use Rattle.droid_lists.specs.RowTests as tests;

use crate::spelling::own_puids::OwnPuids;
use crate::spelling::text_path::text_of;
use crate::spelling::text_row::field;
use csv::ByteRecord;
use droid_frame::Blob;
use droid_pronom::is_puid;
use std::alloc::{AllocError, Global};
use std::collections::BTreeMap;

/// What a row says of its format behind the PUID.
#[derive(Drop)]
pub(crate) struct Texts {
    mime: Blob,
    name: Blob,
    version: Blob,
}

/// What the rows so far say of each PUID.
#[derive(Drop)]
pub(crate) struct Formats {
    texts: BTreeMap<String, Texts>,
}

impl Formats {
    /// Makes the empty one, before the first row of a text. Takes no memory.
    pub(crate) fn new(alloc: Global) -> Formats
        ensures known { (puid : List ℕ) → known_at result puid ≡ None }
        ensures count { known_count result ≡ 0 }
    {
        Formats {
            texts: BTreeMap::new(alloc),
        }
    }

    /// Returns the first wrong column of a row's format. Its record has `count` formats in all, and the PUIDs in `own`
    /// so far. If none is wrong, notes what the row says.
    pub(crate) fn take(
        &mut self,
        alloc: Global,
        own: &mut OwnPuids,
        count: u64,
        row: &ByteRecord,
    ) -> Result<Option<u8>, AllocError>
        ensures { IfOk result (λ wrong. TakesFormat wrong self.old self.new own.old own.new count (fields_of row.now)) }
    {
        match self.wrong(own, count, row) {
            Some(column) => return Ok(Some(column)),
            None => {}
        }
        if count == 0 {
            return Ok(None);
        }
        match text_of(field(row, 14)) {
            Some(puid) => {
                own.add(alloc, puid)?;
                self.add(alloc, puid, row)?;
                Ok(None)
            }
            None => Ok(None),
        }
    }

    /// Returns the first wrong column of a row's format, whose record has `count` formats in all. Changes nothing.
    fn wrong(&self, own: &OwnPuids, count: u64, row: &ByteRecord) -> Option<u8>
        ensures { result
            ≡ tests.first_wrong
            (tests.format_tests (known_at self.now (tests.at (fields_of row.now) 14))
            (own_has own.now (tests.at (fields_of row.now) 14)) (nat_lt (known_count self.now) 4096) count
            (fields_of row.now)) }
    {
        if count == 0 {
            return wrong_none(row);
        }
        let Some(puid) = text_of(field(row, 14)) else {
            return Some(14);
        };
        if !self.is_new(own, puid) {
            return Some(14);
        }
        match self.texts.get(puid) {
            Some(known) => wrong_repeated(known, row),
            None => wrong_new(row),
        }
    }

    /// Returns whether a row's PUID is one, is not that of a row of the same record, and finds place: a registry has at
    /// most 4,096 formats, `FORMATS_LIMIT` of `droid_pronom`. The definitions have the number too, and the prover
    /// compares them.
    fn is_new(&self, own: &OwnPuids, puid: &str) -> bool
        ensures { result
            ≡ tests.is_right_puid (is_some (known_at self.now puid.now) || nat_lt (known_count self.now) 4096)
            (own_has own.now puid.now) puid.now }
    {
        is_puid(puid)
            && !own.has(puid)
            && (self.texts.contains_key(puid) || self.texts.len() < 4096)
    }

    /// Notes what a row says of its PUID, unless an earlier one did: all rows with one PUID say the same.
    fn add(&mut self, alloc: Global, puid: &str, row: &ByteRecord) -> Result<(), AllocError>
        ensures { OnOk result (AddsKnown self.old self.new puid.now (tests.texts_in (fields_of row.now))) }
    {
        if self.texts.contains_key(puid) {
            return Ok(());
        }
        let key = String::from_str(alloc, puid)?;
        let texts = texts_in(alloc, row)?;
        self.texts.insert(key, texts)?;
        Ok(())
    }
}

/// Copies what a row says behind the PUID: the columns 15 to 17.
fn texts_in(alloc: Global, row: &ByteRecord) -> Result<Texts, AllocError>
    ensures { IfOk result (λ texts. texts ≡ tests.texts_in (fields_of row.now)) }
{
    let mime = Blob::copy_of(alloc, field(row, 15))?;
    let name = Blob::copy_of(alloc, field(row, 16))?;
    let version = Blob::copy_of(alloc, field(row, 17))?;
    Ok(Texts {
        mime,
        name,
        version,
    })
}

/// Returns the first column of the format that is not empty, in a row without a format.
fn wrong_none(row: &ByteRecord) -> Option<u8>
    ensures { result
        ≡ tests.first_wrong (tests.are_none (tests.at (fields_of row.now) 14) (tests.texts_in (fields_of row.now))) }
{
    if !field(row, 14).is_empty() {
        return Some(14);
    }
    if !field(row, 15).is_empty() {
        return Some(15);
    }
    if !field(row, 16).is_empty() {
        return Some(16);
    }
    if !field(row, 17).is_empty() {
        return Some(17);
    }
    None
}

/// Returns the first wrong column behind a PUID that no row before had: each is a note, and FORMAT_NAME is not empty.
fn wrong_new(row: &ByteRecord) -> Option<u8>
    ensures { result ≡ tests.first_wrong (tests.are_first (tests.texts_in (fields_of row.now))) }
{
    if !is_note(field(row, 15)) {
        return Some(15);
    }
    if field(row, 16).is_empty() || !is_note(field(row, 16)) {
        return Some(16);
    }
    if !is_note(field(row, 17)) {
        return Some(17);
    }
    None
}

/// Returns whether a text has at most 255 bytes, as texts of a registry have, and is UTF-8.
fn is_note(text: &[u8]) -> bool
    ensures { result ≡ tests.is_note text.now }
{
    text.len() <= 255 && text_of(text).is_some()
}

/// Returns the first column behind a PUID in which a row differs from an earlier one.
fn wrong_repeated(known: &Texts, row: &ByteRecord) -> Option<u8>
    ensures { result ≡ tests.first_wrong (tests.are_repeated known.now (tests.texts_in (fields_of row.now))) }
{
    if field(row, 15) != known.mime.as_slice() {
        return Some(15);
    }
    if field(row, 16) != known.name.as_slice() {
        return Some(16);
    }
    if field(row, 17) != known.version.as_slice() {
        return Some(17);
    }
    None
}
