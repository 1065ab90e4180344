//! The columns of a profile's CSV: their order, their names and the bytes behind their fields.

ghost use Rattle.std.specs.Prelude.{◌≡◌, ◌<◌};
ghost use Rattle.droid_export.specs.Table as table;

use droid_frame::HashKind;

/// A column of a profile's CSV. The order of the variants is that of the columns.
#[derive(Clone, Copy, Debug)]
pub enum Column {
    /// The number of the folder or file.
    Id,
    /// The number of the folder above.
    ParentId,
    /// The URI.
    Uri,
    /// The path.
    FilePath,
    /// The last part of the path.
    Name,
    /// How the formats were found.
    Method,
    /// Always `Done`.
    Status,
    /// The number of bytes.
    Size,
    /// Whether it is a file or a folder: the column TYPE.
    Kind,
    /// The extension.
    Ext,
    /// The moment.
    LastModified,
    /// Whether the extension contradicts the formats.
    ExtensionMismatch,
    /// The hash, whose kind names the column.
    Hash,
    /// The number of formats.
    FormatCount,
    /// The identifier of a format.
    Puid,
    /// Its MIME type.
    MimeType,
    /// Its name.
    FormatName,
    /// Its version.
    FormatVersion,
}

/// All columns, in their order, which is that of the variants. Where their number stands again, in `Header` and
/// `PlainRow`, the prover ties it to this list.
pub const COLUMNS: [Column; 18] = [
    Column::Id,
    Column::ParentId,
    Column::Uri,
    Column::FilePath,
    Column::Name,
    Column::Method,
    Column::Status,
    Column::Size,
    Column::Kind,
    Column::Ext,
    Column::LastModified,
    Column::ExtensionMismatch,
    Column::Hash,
    Column::FormatCount,
    Column::Puid,
    Column::MimeType,
    Column::FormatName,
    Column::FormatVersion,
];

impl Column {
    /// Returns the column's name, in a CSV with hashes of this kind. Only the name of [`Column::Hash`] depends on it.
    pub fn name(self, hash: HashKind) -> &'static str
        ensures { result.now ≡ table.name_of hash self }
    {
        match self {
            Column::Id => "ID",
            Column::ParentId => "PARENT_ID",
            Column::Uri => "URI",
            Column::FilePath => "FILE_PATH",
            Column::Name => "NAME",
            Column::Method => "METHOD",
            Column::Status => "STATUS",
            Column::Size => "SIZE",
            Column::Kind => "TYPE",
            Column::Ext => "EXT",
            Column::LastModified => "LAST_MODIFIED",
            Column::ExtensionMismatch => "EXTENSION_MISMATCH",
            Column::Hash => hash_name(hash),
            Column::FormatCount => "FORMAT_COUNT",
            Column::Puid => "PUID",
            Column::MimeType => "MIME_TYPE",
            Column::FormatName => "FORMAT_NAME",
            Column::FormatVersion => "FORMAT_VERSION",
        }
    }

    /// Returns the name, or the names that the column of the hashes may have, to tell a person what is missing.
    pub fn names(self) -> &'static str
        ensures { result.now ≡ table.names_of self }
    {
        match self {
            Column::Hash => "MD5_HASH, SHA256_HASH or HASH",
            column => column.name(HashKind::Nothing),
        }
    }

    /// Returns how many columns stand before this one, where all are there.
    pub fn place(self) -> usize
        ensures value { result ≡ table.place_of self }
        ensures within { result < 18 }
    {
        self as usize
    }

    /// Returns the byte behind the column's field: a line feed behind the last, and a comma behind each other one.
    pub fn mark(self) -> u8
        ensures { result ≡ table.mark_of self }
    {
        if self.place() + 1 == COLUMNS.len() {
            b'\n'
        } else {
            b','
        }
    }

    /// Returns the column at a place, counted from 0; `None` from 18 on.
    pub fn at(place: usize) -> Option<Column>
        ensures { result ≡ table.column_at place }
    {
        COLUMNS.get(place).copied()
    }
}

/// Returns the name of the column of these hashes, by which a reader knows their kind.
fn hash_name(hash: HashKind) -> &'static str
    ensures { result.now ≡ table.hash_column hash }
{
    match hash {
        HashKind::Nothing => "HASH",
        HashKind::Md5 => "MD5_HASH",
        HashKind::Sha256 => "SHA256_HASH",
    }
}
