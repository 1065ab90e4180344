//! The CSV of what is reported: a header, and a record of ten fields for each finding.

ghost use Rattle.std.specs.Prelude.{◌≡◌, ◌++◌, ℕ, List, [], ◌∷◌, IfOk, OnOk, option_copied, string_bytes};
ghost use Rattle.droid_export.specs.Csv.{line};
ghost use Rattle.droid_export.specs.CsvBuffer.{Holds};
ghost use Rattle.droid_cmd_verify.specs.ReportTexts as texts;

use crate::finding::{Finding, Kind};
use crate::tree_check::Checked;
use csv::Writer;
use droid_export::HashText;
use droid_fixity::Difference;
use droid_frame::{HashValue, Item};
use droid_terminal::{cause, finish_csv, new_csv, write_record};
use std::alloc::{AllocError, Global};

/// Returns the CSV of these findings, in their order, with each field between double quotes. Fails only if memory runs
/// out, as all here.
pub fn report_text(
    alloc: Global,
    checked: &Checked,
    findings: &[Finding],
) -> Result<Vec<u8>, AllocError>
    ensures { IfOk result (λ text. text.items ≡ texts.report_text checked.now.listed checked.now.found findings.now) }
{
    let listed = checked.listed.as_slice();
    let found = checked.found.as_slice();
    let mut writer = new_csv(alloc);
    write_names(&mut writer)?;
    for finding in findings {
        write_finding(alloc, &mut writer, listed, found, finding)?;
    }
    finish_csv(writer)
}

/// Appends the names of the columns: ten, in the order of the fields in `write_fields`. The definitions `column_names`
/// and `record_with` have these orders, which the prover compares with the code; `COLUMNS` of `verify_lists.py` and the
/// help have the names.
fn write_names(writer: &mut Writer<Vec<u8>>) -> Result<(), AllocError>
    ensures { OnOk result ((text : List ℕ) → Holds writer.old text
        → Holds writer.new (text ++ line texts.column_names)) }
{
    let names: [&[u8]; 10] = [
        b"difference",
        b"path",
        b"size",
        b"hash",
        b"formats",
        b"found_path",
        b"found_size",
        b"found_hash",
        b"found_formats",
        b"reason",
    ];
    write_record(writer, &names)
}

/// Appends the record of a finding. Its places are those of items on both sides.
fn write_finding(
    alloc: Global,
    writer: &mut Writer<Vec<u8>>,
    listed: &[Item],
    found: &[Item],
    finding: &Finding,
) -> Result<(), AllocError>
    ensures { OnOk result ((text : List ℕ) → Holds writer.old text
        → Holds writer.new (text ++ line (texts.record_of listed.now found.now finding.now))) }
{
    let before = listed_of(listed, finding.kind);
    let after = found_of(found, finding.kind);
    write_items(alloc, writer, finding, before, after)
}

/// Appends the record of a finding, by the item of the list (`before`) and that of the tree (`after`), if it has one.
fn write_items(
    alloc: Global,
    writer: &mut Writer<Vec<u8>>,
    finding: &Finding,
    before: Option<&Item>,
    after: Option<&Item>,
) -> Result<(), AllocError>
    ensures { OnOk result ((text : List ℕ) → Holds writer.old text
        → Holds writer.new
        (text ++ line (texts.record_by finding.now (option_copied before.entry) (option_copied after.entry)))) }
{
    let size = size_text(alloc, before)?;
    let hash = hash_text(before);
    let found_size = size_text(alloc, after)?;
    let found_hash = hash_text(after);
    write_fields(
        writer,
        finding,
        size.as_bytes(),
        hash.as_slice(),
        path_text(after),
        found_size.as_bytes(),
        found_hash.as_slice(),
    )
}

/// Appends the record of a finding with these texts of the item of the list, and of the item found.
fn write_fields<'a>(
    writer: &mut Writer<Vec<u8>>,
    finding: &'a Finding,
    size: &'a [u8],
    hash: &'a [u8],
    found_path: &'a [u8],
    found_size: &'a [u8],
    found_hash: &'a [u8],
) -> Result<(), AllocError>
    ensures { OnOk result ((text : List ℕ) → Holds writer.old text
        → Holds writer.new
        (text ++ line (texts.record_with finding.now size.now hash.now found_path.now found_size.now found_hash.now))) }
{
    let fields: [&[u8]; 10] = [
        name_of(finding),
        finding.path.as_slice(),
        size,
        hash,
        finding.formats.as_slice(),
        found_path,
        found_size,
        found_hash,
        finding.found_formats.as_slice(),
        reason_of(finding),
    ];
    write_record(writer, &fields)
}

/// Returns the item of the list that a finding is about, whose size and hash it shows; `None` if it is about none.
fn listed_of(listed: &[Item], kind: Kind) -> Option<&Item>
    ensures { option_copied result ≡ texts.listed_of listed.now kind }
{
    match kind {
        Kind::Differs(Difference::Changed { listed: place, .. })
        | Kind::Differs(Difference::Missing { listed: place })
        | Kind::Differs(Difference::Moved { listed: place, .. })
        | Kind::Differs(Difference::Touched { listed: place, .. }) => listed.get(place),
        Kind::Differs(Difference::New { .. }) => None,
        Kind::Unchecked(pair) => listed.get(pair.listed),
        Kind::Unreadable(_) => None,
        Kind::Formats => None,
    }
}

/// Returns the item of the tree that a finding is about, whose path, size and hash it shows; `None` if there is none.
fn found_of(found: &[Item], kind: Kind) -> Option<&Item>
    ensures { option_copied result ≡ texts.found_of found.now kind }
{
    match kind {
        Kind::Differs(Difference::Changed { found: place, .. })
        | Kind::Differs(Difference::New { found: place })
        | Kind::Differs(Difference::Moved { found: place, .. })
        | Kind::Differs(Difference::Touched { found: place, .. }) => found.get(place),
        Kind::Differs(Difference::Missing { .. }) => None,
        Kind::Unchecked(pair) => found.get(pair.found),
        Kind::Unreadable(_) => None,
        Kind::Formats => None,
    }
}

/// Returns the word for the kind of a finding: the field `difference`. Another moment is `changed` too.
fn name_of(finding: &Finding) -> &[u8]
    ensures { result.now ≡ texts.name_of finding.now.kind }
{
    match finding.kind {
        Kind::Differs(Difference::Changed { .. }) => b"changed",
        Kind::Differs(Difference::Missing { .. }) => b"missing",
        Kind::Differs(Difference::New { .. }) => b"new",
        Kind::Differs(Difference::Moved { .. }) => b"moved",
        Kind::Differs(Difference::Touched { .. }) => b"changed",
        Kind::Unchecked(_) => b"unchecked",
        Kind::Unreadable(_) => b"unreadable",
        Kind::Formats => b"format",
    }
}

/// Returns why an entry could not be read, or a file not compared: the field `reason`, empty for other findings.
fn reason_of(finding: &Finding) -> &[u8]
    ensures { result.now ≡ texts.reason_of finding.now.kind }
{
    match finding.kind {
        Kind::Differs(_) => b"",
        Kind::Unchecked(_) => b"no hash to compare",
        Kind::Unreadable(why) => cause(why).as_bytes(),
        Kind::Formats => b"",
    }
}

/// Returns the length of an item in decimal digits, or an empty text if there is no item or it has none.
fn size_text(alloc: Global, item: Option<&Item>) -> Result<String, AllocError>
    ensures { IfOk result (λ text. string_bytes text ≡ texts.size_text (option_copied item.entry)) }
{
    match item {
        Some(item) => length_text(alloc, item.length),
        None => Ok(String::new(alloc)),
    }
}

/// Returns the text of a length, which is empty if it is not known, as that of a folder.
fn length_text(alloc: Global, length: Option<u64>) -> Result<String, AllocError>
    ensures { IfOk result (λ text. string_bytes text ≡ texts.length_text length) }
{
    match length {
        Some(length) => {
            let text = format!(in alloc; "{length}")?;
            Ok(text)
        }
        None => Ok(String::new(alloc)),
    }
}

/// Returns the hexadecimal digits of an item's hash: none if there is no item or it has no hash.
fn hash_text(item: Option<&Item>) -> HashText
    ensures { result ≡ texts.hash_text (option_copied item.entry) }
{
    match item {
        Some(item) => HashText::of(&item.hash),
        None => HashText::of(&HashValue::Nothing),
    }
}

/// Returns the path of an item, or nothing if there is none.
fn path_text(item: Option<&Item>) -> &[u8]
    ensures { result.now ≡ texts.path_text (option_copied item.entry) }
{
    match item {
        Some(item) => item.path.as_slice(),
        None => &[],
    }
}
