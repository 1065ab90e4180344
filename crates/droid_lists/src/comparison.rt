//! Compares the records of a profile's text with what is known. Columns are counted from 0, in the order of `COLUMNS`
//! in `droid_export`.

ghost use Rattle.std.specs.Prelude.{◌≡◌, ◌++◌, List, IfOk, OnOk, IsTrue, map};
ghost use Rattle.std.specs.Option.{option_map};
ghost use Rattle.std.specs.Str.{bytes_eq};
ghost use Rattle.csv.specs.Records.{fields_of};
ghost use Rattle.droid_frame.specs.Hashes.{hash_bytes};
ghost use Rattle.hex.specs.Hex.{encode_lower};
ghost use Rattle.droid_export.specs.Moments.{IsMoment};
ghost use Rattle.droid_lists.specs.Comparing.{HasPaths, if_more, more_by, path_in};
ghost use Rattle.droid_lists.specs.Differences as differences;
ghost use Rattle.droid_lists.specs.EntryMaps.{StandsFor, kept_of, listed_at};
ghost use Rattle.droid_lists.specs.ProfileRows.{Entry};

use crate::entries::{Entries, Listed};
use crate::known::{Difference, Known};
use crate::spelling::text_number::{is_decimal, is_parent_text};
use crate::spelling::text_row::field;
use droid_export::{HashText, kind_name, method_name, moment_bytes, truth};
use droid_frame::{Blob, HashValue, NodeKind};
use std::alloc::{AllocError, Global};
use std::collections::BTreeMap;

/// Returns how the records differ from what is known: first what is known, in its order, then the records of which
/// nothing is known, in theirs. Of each folder or file only the first column that differs is told. Fails only if out of
/// memory.
pub(crate) fn compare(
    alloc: Global,
    known: &[Known],
    entries: &Entries,
) -> Result<Vec<Difference>, AllocError>
    ensures { IfOk result (λ found.
        (all : List Entry) → StandsFor entries.now all → found.items ≡ differences.differences_of known.now all) }
{
    let mut found = Vec::new(alloc);
    add_known(&mut found, known, entries)?;
    let paths = paths_of(alloc, known)?;
    add_more(&mut found, &paths, entries.as_slice())?;
    Ok(found)
}

/// Adds the differences of what is known, in its order: that a path is missing, or says something else.
fn add_known(
    found: &mut Vec<Difference>,
    known: &[Known],
    entries: &Entries,
) -> Result<(), AllocError>
    ensures { OnOk result ((all : List Entry) → StandsFor entries.now all
        → found.new.items ≡ found.old.items ++ differences.known_from 0 known.now all) }
{
    for place in 0..known.len() {
        add_one(found, place, &known[place], entries)?;
    }
    Ok(())
}

/// Adds the difference of `known`, which stands at this place of what is known, if there is one.
fn add_one(
    found: &mut Vec<Difference>,
    place: usize,
    known: &Known,
    entries: &Entries,
) -> Result<(), AllocError>
    ensures { OnOk result
        (found.new.items
        ≡ found.old.items
        ++ differences.difference_with place known.now (option_map kept_of (listed_at entries.now known.now.path))) }
{
    match entries.get(known.path.as_str()) {
        None => found.push(Difference::Missing { known: place })?,
        Some(listed) => match wrong_known(known, listed) {
            Some(column) => found.push(Difference::Other {
                known: place,
                column,
                record: listed.number,
            })?,
            None => {}
        },
    }
    Ok(())
}

/// The paths of all that is known.
type Paths<'a> = BTreeMap<&'a [u8], bool>;

/// Indexes what is known by its paths. What the map has for a path says nothing: that it is there does.
fn paths_of<'a>(alloc: Global, known: &'a [Known]) -> Result<Paths<'a>, AllocError>
    ensures { IfOk result (λ paths. HasPaths paths known.now) }
{
    let mut paths = BTreeMap::new(alloc);
    for one in known {
        paths.insert(one.path.as_str().as_bytes(), true)?;
    }
    Ok(paths)
}

/// Adds the records of which nothing is known, in their order. `paths` has all paths that are known.
fn add_more(
    found: &mut Vec<Difference>,
    paths: &Paths<'_>,
    listed: &[Listed],
) -> Result<(), AllocError>
    ensures { OnOk result (found.new.items ≡ found.old.items ++ more_by (path_in paths.now) (map kept_of listed.now)) }
{
    for one in listed {
        add_if_more(found, paths, one)?;
    }
    Ok(())
}

/// Adds a record if nothing is known of its path, which is in column 3.
fn add_if_more(
    found: &mut Vec<Difference>,
    paths: &Paths<'_>,
    listed: &Listed,
) -> Result<(), AllocError>
    ensures { OnOk result (found.new.items ≡ found.old.items ++ if_more (path_in paths.now) (kept_of listed.now)) }
{
    let path = field(&listed.row, 3);
    if paths.contains_key(path) {
        return Ok(());
    }
    let path = Blob::copy_of(*found.allocator(), path)?;
    found.push(Difference::More {
        record: listed.number,
        path,
    })?;
    Ok(())
}

/// Returns the first column in which a record differs from what is known of its path. Columns that follow from the
/// path, and what a registry says of a PUID, are not compared.
#[tactic(auto, unfolding(crate::specs::Differences::wrong_known))]
fn wrong_known(known: &Known, listed: &Listed) -> Option<u8>
    ensures { result ≡ differences.wrong_known known.now (kept_of listed.now) }
{
    if !is_decimal(field(&listed.row, 0), u64::from(known.number)) {
        return Some(0);
    }
    if !is_parent_text(field(&listed.row, 1), u64::from(known.parent)) {
        return Some(1);
    }
    if field(&listed.row, 5) != method_name(known.found.method).as_bytes() {
        return Some(5);
    }
    if !is_number_text(field(&listed.row, 7), known.kind, known.size) {
        return Some(7);
    }
    if field(&listed.row, 8) != kind_name(known.kind).as_bytes() {
        return Some(8);
    }
    if !is_moment_of(known.modified, field(&listed.row, 10)) {
        return Some(10);
    }
    if field(&listed.row, 11) != truth(known.found.mismatch).as_bytes() {
        return Some(11);
    }
    if !is_hash_text(field(&listed.row, 12), &known.found.hash) {
        return Some(12);
    }
    if !is_number_text(
        field(&listed.row, 13),
        known.kind,
        known.found.formats as u64,
    ) {
        return Some(13);
    }
    if !same_hash(known.found.puids, listed.puids) {
        return Some(14);
    }
    None
}

/// Returns whether a text is this number, in decimal digits, for a file, and empty for a folder.
fn is_number_text(text: &[u8], kind: NodeKind, number: u64) -> bool
    ensures { result ≡ bytes_eq text.now (differences.number_text kind number) }
{
    let nothing: &[u8] = b"";
    match kind {
        NodeKind::File => is_decimal(text, number),
        NodeKind::Folder => text == nothing,
    }
}

/// Returns whether a text is that of a moment, in seconds since 1970-01-01T00:00:00 UTC. No text is that of a moment
/// outside the years 1 to 9999.
fn is_moment_of(modified: i64, text: &[u8]) -> bool
    ensures { result ≡ differences.is_moment_of modified text.now }
{
    if !has_text(modified) {
        return false;
    }
    text == moment_bytes(modified).as_slice()
}

/// Returns whether a moment has a text: from 0001-01-01T00:00:00 to 9999-12-31T23:59:59. The limits are those of
/// `IsMoment` of `droid_export`, and the prover compares both.
fn has_text(modified: i64) -> bool
    ensures value { result ≡ differences.has_text modified }
    ensures moment { IsTrue result → IsMoment modified }
{
    modified >= -62_135_596_800 && modified <= 253_402_300_799
}

/// Returns whether a field is the lower-case digits of this hash, or empty if there is no hash.
fn is_hash_text(text: &[u8], hash: &HashValue) -> bool
    ensures { result ≡ bytes_eq text.now (encode_lower (hash_bytes hash.now)) }
{
    let digits = HashText::of(hash);
    text == digits.as_slice()
}

/// Returns whether two hashes are of one kind, and have the same bytes.
fn same_hash(one: HashValue, other: HashValue) -> bool
    ensures { result ≡ differences.same_hash one other }
{
    one.kind().number() == other.kind().number() && one.as_slice() == other.as_slice()
}
