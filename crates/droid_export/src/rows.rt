//! Appends the header and the rows of a record to a buffer: what each column says, between double quotes and with the
//! mark behind it. After an error nothing is promised of a buffer: `RowText` clears its own before it is filled.

ghost use Rattle.std.specs.Prelude.{◌≡◌, ◌++◌, OnOk, codes, map};
ghost use Rattle.std.specs.List.{flat_map};
ghost use Rattle.std.specs.Option.{option_copied};
ghost use Rattle.droid_export.specs.Filters.{found_by};
ghost use Rattle.droid_export.specs.Moments.{IsMoment};
ghost use Rattle.droid_export.specs.Rows.{header, of_format, row, rows, shown, shown_by};
ghost use Rattle.droid_export.specs.Rows as spec;
ghost use Rattle.droid_export.specs.Columns.{IsCommon, row_of};
ghost use Rattle.droid_export.specs.Text.{piece, record_text, row_text};

use crate::column::{COLUMNS, Column};
use crate::extension::extension;
use crate::filter::{found_by, mismatch};
use crate::moment::moment_bytes;
use crate::node_uri::add_uri;
use crate::shared_columns::{Common, count_text, hash_text, parent_text, size_text};
use crate::table::add_field;
use droid_frame::{HashKind, Method, NodeKind, Record};
use droid_pronom::{Format, Registry};
use itoa::Buffer;
use std::alloc::AllocError;

/// What a row shows: a record, and one of its formats, if it has any.
#[derive(Clone, Copy)]
pub(crate) struct RowParts<'a> {
    node: &'a Record,
    /// What was computed from the record.
    common: &'a Common<'a>,
    /// The format's identifier, or no bytes.
    puid: &'a str,
    /// The format, if the registry has it.
    format: Option<&'a Format>,
}

/// Appends the row of the names of all columns. One of them depends on the kind of hash.
pub(crate) fn add_header(text: &mut Vec<u8>, hash: HashKind) -> Result<(), AllocError>
    ensures { OnOk result (text.new.items ≡ text.old.items ++ row_text (header hash)) }
{
    add_names(text, &COLUMNS, hash)
}

/// Appends the names of these columns, in order, each with its mark.
fn add_names(text: &mut Vec<u8>, columns: &[Column], hash: HashKind) -> Result<(), AllocError>
    ensures { OnOk result (text.new.items ≡ text.old.items ++ flat_map (piece (header hash)) columns.now) }
{
    for column in columns {
        add_name(text, *column, hash)?;
    }
    Ok(())
}

/// Appends the name of a column, and its mark.
fn add_name(text: &mut Vec<u8>, column: Column, hash: HashKind) -> Result<(), AllocError>
    ensures { OnOk result (text.new.items ≡ text.old.items ++ piece (header hash) column) }
{
    add_field(text, column.name(hash).as_bytes(), column.mark())
}

/// Appends the rows of a record: one for each of its formats, in order, or one row without a format. `uri` is a place
/// for the URI; what was in it is lost. Computes the columns that the rows share once, into [`Common`].
#[tactic(auto, unfolding(crate::specs::Rows::rows))]
pub(crate) fn add_rows(
    text: &mut Vec<u8>,
    uri: &mut String,
    registry: &Registry,
    node: &Record,
) -> Result<(), AllocError>
    requires { IsMoment node.now.modified }
    ensures { OnOk result (text.new.items ≡ text.old.items ++ record_text registry.now node.now) }
{
    let mut id = Buffer::new();
    let mut parent_id = Buffer::new();
    let mut size = Buffer::new();
    let mut format_count = Buffer::new();
    let hash = hash_text(node);
    uri.clear();
    add_uri(uri, node.path.as_str(), node.kind)?;
    let common = Common {
        id: id.format(node.id),
        parent_id: parent_text(&mut parent_id, node.parent),
        uri: uri.as_str(),
        size: size_text(&mut size, node),
        last_modified: moment_bytes(node.modified),
        hash: hash.as_slice(),
        format_count: count_text(&mut format_count, node),
    };
    add_rows_with(text, &*registry, &*node, &common)
}

/// Appends the rows of a record with these shared columns.
fn add_rows_with<'a>(
    text: &mut Vec<u8>,
    registry: &'a Registry,
    node: &'a Record,
    common: &'a Common<'a>,
) -> Result<(), AllocError>
    requires { IsCommon node.now common.now }
    ensures { OnOk result (text.new.items ≡ text.old.items ++ record_text registry.now node.now) }
{
    if node.puids.is_empty() {
        return add_row(text, node, common, "", None);
    }
    add_format_rows(text, registry, node, common)
}

/// Appends a row for each format of a record.
fn add_format_rows<'a>(
    text: &mut Vec<u8>,
    registry: &'a Registry,
    node: &'a Record,
    common: &'a Common<'a>,
) -> Result<(), AllocError>
    requires { IsCommon node.now common.now }
    ensures { OnOk result
        (text.new.items
        ≡ text.old.items ++ flat_map row_text (map (λ puid. row node.now (shown registry.now puid)) node.now.puids)) }
{
    for place in 0..node.puids.len() {
        if let Some(puid) = node.puids.get(place) {
            let puid = puid.as_str();
            add_row(text, node, common, puid, format_of(registry, puid))?;
        }
    }
    Ok(())
}

/// Returns the registry's format with this PUID; `None` if it lacks it, and the row then shows the PUID alone.
#[tactic(auto, unfolding(crate::specs::Rows::format_of))]
fn format_of<'a>(registry: &'a Registry, puid: &str) -> Option<&'a Format>
    ensures { option_copied result ≡ spec.format_of registry.now puid.now }
{
    registry.format(registry.by_puid(puid)?)
}

/// Appends a row of a record, for one of its formats; without one, `puid` has no bytes.
fn add_row<'a>(
    text: &mut Vec<u8>,
    node: &'a Record,
    common: &'a Common<'a>,
    puid: &'a str,
    format: Option<&'a Format>,
) -> Result<(), AllocError>
    requires { IsCommon node.now common.now }
    ensures { OnOk result
        (text.new.items ≡ text.old.items ++ row_text (row node.now (shown_by puid.now (option_copied format.entry)))) }
{
    let parts = RowParts {
        node,
        common,
        puid,
        format,
    };
    add_texts(text, &COLUMNS, &parts)
}

/// Appends what these columns of a row say, in order, each with its mark.
fn add_texts(text: &mut Vec<u8>, columns: &[Column], parts: &RowParts<'_>) -> Result<(), AllocError>
    requires { IsCommon parts.now.node.now parts.now.common.now }
    ensures { OnOk result (text.new.items ≡ text.old.items ++ flat_map (piece (row_of parts.now)) columns.now) }
{
    for column in columns {
        add_text(text, *column, parts)?;
    }
    Ok(())
}

/// Appends what a column of a row says between double quotes, and its mark.
fn add_text(text: &mut Vec<u8>, column: Column, parts: &RowParts<'_>) -> Result<(), AllocError>
    requires { IsCommon parts.now.node.now parts.now.common.now }
    ensures { OnOk result (text.new.items ≡ text.old.items ++ piece (row_of parts.now) column) }
{
    add_field(text, text_of(column, parts), column.mark())
}

/// Returns what a column of a row says, without quotes. Seven columns are computed in [`Common`], four are the
/// format's; the others come from the record itself, but for STATUS.
#[tactic(auto, unfolding(crate::specs::Rows::row))]
fn text_of<'a>(column: Column, parts: &RowParts<'a>) -> &'a [u8]
    requires { IsCommon parts.now.node.now parts.now.common.now }
    ensures { result.now ≡ row_of parts.now column }
{
    let node = parts.node;
    let common = parts.common;
    match column {
        Column::Id => common.id.as_bytes(),
        Column::ParentId => common.parent_id.as_bytes(),
        Column::Uri => common.uri.as_bytes(),
        Column::FilePath => node.path.as_str().as_bytes(),
        Column::Name => node.name.as_str().as_bytes(),
        Column::Method => method_text(node).as_bytes(),
        Column::Status => status().as_bytes(),
        Column::Size => common.size.as_bytes(),
        Column::Kind => kind_name(node.kind).as_bytes(),
        Column::Ext => extension(node).as_bytes(),
        Column::LastModified => common.last_modified.as_slice(),
        Column::ExtensionMismatch => truth(mismatch(node)).as_bytes(),
        Column::Hash => common.hash,
        Column::FormatCount => common.format_count.as_bytes(),
        Column::Puid => parts.puid.as_bytes(),
        Column::MimeType => mime_type(parts.format).as_bytes(),
        Column::FormatName => format_name(parts.format).as_bytes(),
        Column::FormatVersion => format_version(parts.format).as_bytes(),
    }
}

/// Returns the field MIME_TYPE, which is empty without a format.
fn mime_type(format: Option<&Format>) -> &str
    ensures { result.now ≡ of_format (option_copied format.entry) (λ it. it.mime) }
{
    match format {
        Some(format) => format.mime.as_str(),
        None => "",
    }
}

/// Returns the field FORMAT_NAME, which is empty without a format.
fn format_name(format: Option<&Format>) -> &str
    ensures { result.now ≡ of_format (option_copied format.entry) (λ it. it.name) }
{
    match format {
        Some(format) => format.name.as_str(),
        None => "",
    }
}

/// Returns the field FORMAT_VERSION, which is empty without a format.
fn format_version(format: Option<&Format>) -> &str
    ensures { result.now ≡ of_format (option_copied format.entry) (λ it. it.version) }
{
    match format {
        Some(format) => format.version.as_str(),
        None => "",
    }
}

/// Returns the field METHOD.
fn method_text(node: &Record) -> &'static str
    ensures { result.now ≡ spec.method_name (found_by node.now) }
{
    method_name(found_by(node))
}

/// Returns what METHOD says of a method: nothing of a file that was not identified.
pub fn method_name(method: Method) -> &'static str
    ensures { result.now ≡ spec.method_name method }
{
    match method {
        Method::Unidentified => "",
        Method::Signature => "Signature",
        Method::Extension => "Extension",
    }
}

/// Returns the field STATUS, which is the same for every record: folders and finished files.
fn status() -> &'static str
    ensures { result.now ≡ codes "Done" }
{
    "Done"
}

/// Returns what TYPE says of a kind.
pub fn kind_name(kind: NodeKind) -> &'static str
    ensures { result.now ≡ spec.kind_name kind }
{
    match kind {
        NodeKind::File => "File",
        NodeKind::Folder => "Folder",
    }
}

/// Returns what EXTENSION_MISMATCH says of a truth value.
pub fn truth(value: bool) -> &'static str
    ensures { result.now ≡ spec.truth value }
{
    if value { "true" } else { "false" }
}
