//! The records of a profile's text that were read so far, found by their paths, and whether the next one may stand
//! behind them. Columns are counted from 0.

ghost use Rattle.std.specs.Prelude.{◌≡◌, ◌+◌, ◌<◌, ◌^◌, [], IfOk, OnOk, true};
ghost use Rattle.std.specs.Option.{is_some, option_copied};
ghost use Rattle.std.specs.Str.{bytes_eq};
ghost use Rattle.droid_export.specs.Uris.{uri};
ghost use Rattle.csv.specs.Records.{fields_of};
ghost use Rattle.droid_lists.specs.EntryMaps.{AddsEntry, StandsFor, id_of, listed_at, parent_by};
ghost use Rattle.droid_lists.specs.RowTests as tests;

use crate::spelling::row_tests::{id_in, is_file, is_kind, kind_in};
use crate::spelling::text_number::{is_next, is_parent, plain_number};
use crate::spelling::text_path::{above, is_named, path_of, text_of};
use crate::spelling::text_row::field;
use csv::ByteRecord;
use droid_export::uri;
use droid_frame::{HashValue, NodeKind};
use std::alloc::{AllocError, Global};
use std::collections::BTreeMap;

/// A record of a text. (Not the `Listed` of `list_content.rt`, which is a whole list.)
#[derive(Drop)]
pub(crate) struct Listed {
    /// The number of its first row, counted from 1 with that of the columns' names.
    pub(crate) number: u64,
    /// The fields of its first row.
    pub(crate) row: ByteRecord,
    /// The digest of its PUIDs.
    pub(crate) puids: HashValue,
}

/// The records so far.
#[derive(Drop)]
pub(crate) struct Entries {
    /// How many rows were read, with that of the columns' names.
    pub(crate) rows: u64,
    /// The last ID, or 0.
    last: u64,
    /// The records in order.
    listed: Vec<Listed>,
    /// Their places by their paths.
    places: BTreeMap<String, usize>,
}

impl Entries {
    /// Makes the empty one, before the first record: the row of the columns' names is counted. Takes no memory.
    pub(crate) fn new(alloc: Global) -> Entries
        ensures { StandsFor result [] }
    {
        Entries {
            rows: 1,
            last: 0,
            listed: Vec::new(alloc),
            places: BTreeMap::new(alloc),
        }
    }

    /// Returns the records in the order of the text.
    pub(crate) fn as_slice(&self) -> &[Listed]
        ensures { result.now ≡ self.now.listed.items }
    {
        self.listed.as_slice()
    }

    /// Returns the first wrong column among those that say where a record stands: its ID, path, name, type, parent and
    /// URI, in this order, since the later ones follow from the path and the type. `None` if it may stand behind the
    /// records so far.
    pub(crate) fn wrong_place(
        &self,
        alloc: Global,
        row: &ByteRecord,
    ) -> Result<Option<u8>, AllocError>
        ensures { IfOk result (λ wrong.
            wrong
            ≡ tests.first_wrong
            (tests.place_tests self.now.last (is_some (listed_at self.now (tests.at (fields_of row.now) 3)))
            (parent_by self.now (tests.above (fields_of row.now))) (fields_of row.now))) }
    {
        if !is_next(self.last, plain_number(field(row, 0))) {
            return Ok(Some(0));
        }
        let Some(path) = path_of(field(row, 3)) else {
            return Ok(Some(3));
        };
        if self.get(path).is_some() {
            return Ok(Some(3));
        }
        if !is_named(row) {
            return Ok(Some(4));
        }
        if !is_kind(row) {
            return Ok(Some(8));
        }
        if !is_parent(field(row, 1), self.parent(above(row))) {
            return Ok(Some(1));
        }
        let same = is_uri(alloc, field(row, 2), path, kind_in(row))?;
        if same { Ok(None) } else { Ok(Some(2)) }
    }

    /// Returns the ID of the folder with this path, or `None` if no such folder was read; that of the top, whose path
    /// is empty, is 0.
    fn parent(&self, path: &[u8]) -> Option<u64>
        ensures { result ≡ parent_by self.now path.now }
    {
        if path.is_empty() {
            return Some(0);
        }
        match text_of(path) {
            Some(path) => self.folder_id(path),
            None => None,
        }
    }

    /// Returns the ID of the folder at this path, or `None` if none was read, or a file is there.
    fn folder_id(&self, path: &str) -> Option<u64>
        ensures { result ≡ id_of (listed_at self.now path.now) }
    {
        match self.get(path) {
            Some(listed) => {
                if is_file(&listed.row) {
                    None
                } else {
                    Some(id_in(&listed.row))
                }
            }
            None => None,
        }
    }

    /// Returns the record with this path, if one was read.
    pub(crate) fn get(&self, path: &str) -> Option<&Listed>
        ensures { option_copied result ≡ listed_at self.now path.now }
    {
        match self.places.get(path) {
            Some(place) => self.listed.get(*place),
            None => None,
        }
    }

    /// Adds a record of `count` rows, whose path is text: `wrong_place` saw that; without one nothing is added. After
    /// an error nothing is promised: the reading ends.
    pub(crate) fn add(
        &mut self,
        alloc: Global,
        count: u64,
        listed: Listed,
    ) -> Result<(), AllocError>
        ensures { OnOk result (self.old.rows + count < 2 ^ 64
            → is_some (tests.utf8_of (tests.at (fields_of listed.row) 3)) ≡ true
            → AddsEntry self.old self.new count listed) }
    {
        match text_of(field(&listed.row, 3)) {
            Some(path) => {
                let key = String::from_str(alloc, path)?;
                self.places.insert(key, self.listed.len())?;
                self.last = id_in(&listed.row);
                self.rows = self.rows.saturating_add(count);
                self.listed.push(listed)?;
                Ok(())
            }
            None => Ok(()),
        }
    }
}

/// Returns whether a text is the URI of a folder or file with this path, as the export writes it.
fn is_uri(alloc: Global, text: &[u8], path: &str, kind: NodeKind) -> Result<bool, AllocError>
    ensures { IfOk result (λ same. same ≡ bytes_eq text.now (uri path.now kind)) }
{
    let due = uri(alloc, path, kind)?;
    Ok(text == due.as_str().as_bytes())
}
