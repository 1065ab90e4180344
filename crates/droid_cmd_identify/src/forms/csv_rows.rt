//! The CSV of files: a header, and a row for each format of a file.

ghost use Rattle.std.specs.Prelude.{◌≡◌, ◌++◌, ℕ, List, [], IfOk, OnOk};
ghost use Rattle.std.specs.Prelude.{flat_map, string_bytes};
ghost use Rattle.droid_export.specs.Csv.{line};
ghost use Rattle.droid_export.specs.CsvBuffer.{Holds};
ghost use Rattle.droid_cmd_identify.specs.CsvRows.{bool_text, csv_rows, digits_of, header, kind_basis, method_text};
ghost use Rattle.droid_cmd_identify.specs.CsvRows.{row_of_format, row_of_none, row_with};

use crate::forms::basis_text::BasisText;
use crate::forms::kind_name::kind_name;
use crate::forms::shown_file::ShownFile;
use crate::forms::shown_format::ShownFormat;
use csv::Writer;
use droid_frame::Method;
use droid_identity::TextKind;
use droid_pronom::Format;
use droid_terminal::{finish_csv, new_csv, write_record};
use std::alloc::{AllocError, Global};

/// Returns the first line of the CSV, which names its columns. They stand in the order of `write_fields`; `columns` and
/// `row_with` of `CsvRows.antt` hold both.
pub fn csv_header(alloc: Global) -> Result<Vec<u8>, AllocError>
    ensures { IfOk result (λ text. text.items ≡ header) }
{
    let mut writer = new_csv(alloc);
    let fields: [&[u8]; 10] = [
        b"PATH",
        b"SIZE",
        b"METHOD",
        b"MISMATCH",
        b"PUID",
        b"MIME_TYPE",
        b"FORMAT_NAME",
        b"FORMAT_VERSION",
        b"BASIS",
        b"HASH",
    ];
    write_record(&mut writer, &fields)?;
    finish_csv(writer)
}

/// Returns the rows of a file: one for each of its formats, or one if it has none.
pub fn csv_rows(alloc: Global, file: ShownFile<'_>) -> Result<Vec<u8>, AllocError>
    ensures { IfOk result (λ text. text.items ≡ csv_rows file.entry) }
{
    let mut writer = new_csv(alloc);
    write_rows(alloc, &mut writer, file)?;
    finish_csv(writer)
}

/// Writes the rows of a file behind what the writer holds.
fn write_rows(
    alloc: Global,
    writer: &mut Writer<Vec<u8>>,
    file: ShownFile<'_>,
) -> Result<(), AllocError>
    ensures { OnOk result ((text : List ℕ) → Holds writer.old text
        → Holds writer.new (text ++ csv_rows file.entry)) }
{
    if file.formats.is_empty() {
        return write_none(alloc, writer, file);
    }
    write_formats(alloc, writer, file)
}

/// Writes a row for each format of a file, in order.
fn write_formats(
    alloc: Global,
    writer: &mut Writer<Vec<u8>>,
    file: ShownFile<'_>,
) -> Result<(), AllocError>
    ensures { OnOk result ((text : List ℕ) → Holds writer.old text
        → Holds writer.new (text ++ flat_map (λ form. line (row_of_format file.entry form)) file.entry.formats.now)) }
{
    for its in file.formats {
        write_format(alloc, writer, file, *its)?;
    }
    Ok(())
}

/// Writes the row of a format.
fn write_format(
    alloc: Global,
    writer: &mut Writer<Vec<u8>>,
    file: ShownFile<'_>,
    its: ShownFormat<'_>,
) -> Result<(), AllocError>
    ensures { OnOk result ((text : List ℕ) → Holds writer.old text
        → Holds writer.new (text ++ line (row_of_format file.entry its.entry))) }
{
    let size = format!(in alloc; "{}", file.size)?;
    let basis = format!(in alloc; "{}", BasisText(its.reason))?;
    let format = fields_of(its.format);
    write_fields(writer, file, size.as_bytes(), format, basis.as_bytes())
}

/// Writes the row of a file without formats: the fields that a format gives are empty, and BASIS says which text it is.
fn write_none(
    alloc: Global,
    writer: &mut Writer<Vec<u8>>,
    file: ShownFile<'_>,
) -> Result<(), AllocError>
    ensures { OnOk result ((text : List ℕ) → Holds writer.old text
        → Holds writer.new (text ++ line (row_of_none file.entry))) }
{
    let size = format!(in alloc; "{}", file.size)?;
    let basis = kind_basis(alloc, file.text)?;
    let none = FormatFields {
        puid: "",
        mime: "",
        name: "",
        version: "",
    };
    write_fields(writer, file, size.as_bytes(), none, basis.as_bytes())
}

/// The fields of a row that a format gives.
#[derive(Clone, Copy)]
struct FormatFields<'a> {
    puid: &'a str,
    mime: &'a str,
    name: &'a str,
    version: &'a str,
}

/// Returns the fields that a format gives, as the registry has them.
fn fields_of(format: &Format) -> FormatFields<'_>
    ensures puid { result.puid.now ≡ format.now.puid }
    ensures mime { result.mime.now ≡ format.now.mime }
    ensures name { result.name.now ≡ format.now.name }
    ensures version { result.version.now ≡ format.now.version }
{
    FormatFields {
        puid: format.puid.as_str(),
        mime: format.mime.as_str(),
        name: format.name.as_str(),
        version: format.version.as_str(),
    }
}

/// Writes a row: these fields and those of the file, in the order of `csv_header`.
fn write_fields<'a>(
    writer: &mut Writer<Vec<u8>>,
    file: ShownFile<'a>,
    size: &'a [u8],
    format: FormatFields<'a>,
    basis: &'a [u8],
) -> Result<(), AllocError>
    ensures { OnOk result ((text : List ℕ) → Holds writer.old text
        → Holds writer.new
        (text ++ line (row_with file.entry size.now format.entry.puid.now format.entry.mime.now format.entry.name.now
        format.entry.version.now basis.now))) }
{
    let fields: [&[u8]; 10] = [
        file.path.as_bytes(),
        size,
        method_text(file),
        mismatch_text(file),
        format.puid.as_bytes(),
        format.mime.as_bytes(),
        format.name.as_bytes(),
        format.version.as_bytes(),
        basis,
        digits_of(file),
    ];
    write_record(writer, &fields)
}

/// Returns how a file without formats is written, in words; nothing if it is no plain text.
fn kind_basis(alloc: Global, text: Option<TextKind>) -> Result<String, AllocError>
    ensures { IfOk result (λ words. string_bytes words ≡ kind_basis text) }
{
    match text {
        Some(kind) => format!(in alloc; "text, {}", kind_name(kind)),
        None => Ok(String::new(alloc)),
    }
}

/// Returns the digits of a file's hash; nothing if there is none.
fn digits_of<'a>(file: ShownFile<'a>) -> &'a [u8]
    ensures { result.now ≡ digits_of file.entry.hash }
{
    match file.hash {
        Some(hash) => hash.digits.as_bytes(),
        None => b"",
    }
}

/// Returns the name of the method by which a file's formats were found, as the CSV of a profile has it.
fn method_text<'a>(file: ShownFile<'a>) -> &'a [u8]
    ensures { result.now ≡ method_text file.entry.method }
{
    match file.method {
        Method::Signature => b"Signature",
        Method::Extension => b"Extension",
        Method::Unidentified => b"",
    }
}

/// Returns `true` or `false`: whether the extension of a file contradicts its formats.
fn mismatch_text<'a>(file: ShownFile<'a>) -> &'a [u8]
    ensures { result.now ≡ bool_text file.entry.mismatch }
{
    if file.mismatch { b"true" } else { b"false" }
}
