//! Rows of records that no script can make, byte by byte, at once and as they come.

ghost use Rattle.std.specs.Prelude.{IfOk};
ghost use Rattle.droid_export.specs.Text.{HaveMoments};

use crate::formats::export::nodes::{file, folder};
use droid_export::{RowText, export_text, meets, text_goes_by_records, text_is_read_back};
use droid_frame::{Criteria, Criterion, Filter, HashKind, Method, Noted, Record, Text, WriteFault};
use droid_pronom::Registry;
use droid_testing::{SAMPLE, STEADY, ShakyWriter, Stop};
use std::alloc::{AllocError, Global};
use std::test::Fail;

/// The names of the columns of a profile with MD5, the row of a folder, and that of a file whose format is unknown.
pub(crate) const HEADER: &str =
    "\"ID\",\"PARENT_ID\",\"URI\",\"FILE_PATH\",\"NAME\",\"METHOD\",\"STATUS\",\"SIZE\",\"TYPE\",\"EXT\",\"\
    LAST_MODIFIED\",\"EXTENSION_MISMATCH\",\"MD5_HASH\",\"FORMAT_COUNT\",\"PUID\",\"MIME_TYPE\",\"FORMAT_NAME\",\"\
    FORMAT_VERSION\"\n";

const FOLDER: &str =
    "\"1\",\"\",\"file:/in/\",\"/in\",\"in\",\"\",\"Done\",\"\",\"Folder\",\"\",\"1970-01-01T00:00:00\",\"false\",\"\",\
    \"\",\"\",\"\",\"\",\"\"\n";

const FILE: &str =
    "\"2\",\"\",\"file:/a%22b\",\"/a\"\"b\",\"a\"\"b\",\"Signature\",\"Done\",\"3\",\"File\",\"\",\"\
    1970-01-01T00:00:00\",\"false\",\"d41d8cd98f00b204e9800998ecf8427e\",\"1\",\"dev/9\",\"\",\"\",\"\"\n";

/// The rows of an unidentified file, of one whose format is unknown, and of a folder in a folder.
pub(crate) const ODD: [&str; 3] = [
    "\"1\",\"\",\"file:/a.abc\",\"/a.abc\",\"a.abc\",\"\",\"Done\",\"0\",\"File\",\"abc\",\"1970-01-01T00:00:00\",\"\
    false\",\"d41d8cd98f00b204e9800998ecf8427e\",\"0\",\"\",\"\",\"\",\"\"\n",
    "\"7\",\"\",\"file:/a\",\"/a\",\"a\",\"Signature\",\"Done\",\"18446744073709551615\",\"File\",\"\",\"\
    1970-01-01T00:00:00\",\"false\",\"d41d8cd98f00b204e9800998ecf8427e\",\"1\",\"dev/9\",\"\",\"\",\"\"\n",
    "\"4294967295\",\"12\",\"file:/a/b/\",\"/a/b\",\"b\",\"\",\"Done\",\"\",\"Folder\",\"\",\"1970-01-01T00:00:00\",\"\
    false\",\"\",\"\",\"\",\"\",\"\",\"\"\n",
];

/// Their records. That of the folder says that it was identified by a signature, which no record of a service does.
pub(crate) fn three(alloc: Global) -> Result<[Record; 3], AllocError>
    ensures { IfOk result (λ it. HaveMoments it) }
{
    let mut below = folder(alloc, 4_294_967_295, "b")?;
    below.parent = 12;
    below.method = Method::Signature;
    below.path = Text::copy_of(alloc, "/a/b")?;
    Ok([
        file(alloc, 1, "a.abc", 0, &[])?,
        file(alloc, 7, "a", 18_446_744_073_709_551_615, &["dev/9"])?,
        below,
    ])
}

/// Those of the first and the last record meet the filter.
#[test]
fn odd_records(rt: HostRuntime) -> Result<(), Fail> {
    text_is_read_back();
    let alloc = rt.alloc();
    let registry = Registry::parse(alloc, SAMPLE.as_bytes())?;
    let records = three(alloc)?;
    let mut criteria = Criteria::new(alloc);
    criteria.push(Criterion::MethodIs(Method::Unidentified))?;
    let filter = Filter {
        all: false,
        criteria,
    };
    let text = export_text(alloc, &records, &registry, &filter, HashKind::Md5)?;
    let [file, other, folder] = &records;
    assert!(rt; meets(&filter, file) && !meets(&filter, other) && meets(&filter, folder));
    let expected = format!(in alloc; "{HEADER}{}{}", ODD[0], ODD[2])?;
    assert!(rt; text.as_slice() == expected.as_bytes());
    Ok(())
}

/// A file whose name has a double quote, and whose format is unknown.
fn quoted(alloc: Global) -> Result<Record, AllocError> {
    file(alloc, 2, "a\"b", 3, &["dev/9"])
}

/// Returns whether a writer that stops after this many bytes gets them. The rows stay, and another writer gets them,
/// and one more row.
fn goes_on_after(
    alloc: Global,
    registry: &Registry,
    room: usize,
    text: &[u8],
) -> Result<bool, AllocError> {
    let mut rows = RowText::new(alloc);
    rows.add_header(HashKind::Md5)?;
    let mut node = folder(alloc, 1, "in")?;
    node.modified = 0;
    rows.add(registry, &node)?;
    let mut writer = Noted::new(ShakyWriter::new(Vec::new(alloc), room, Stop::Fails, STEADY));
    let stops = rows.write_to(&mut writer) == Err(WriteFault { written: room })
        && rows.len() == HEADER.len() + FOLDER.len();
    let mut second = Noted::new(Vec::new(alloc));
    let goes_on = rows.write_to(&mut second).is_ok() && rows.len() == 0;
    let mut node = quoted(alloc)?;
    node.modified = 0;
    rows.add(registry, &node)?;
    let ends = rows.write_to(&mut second).is_ok() && second.stream.as_slice() == text;
    Ok(stops && goes_on && ends && Some(writer.stream.taken()) == text.get(..room))
}

#[test]
fn stops_after_each_byte(rt: HostRuntime) -> Result<(), Fail> {
    text_goes_by_records();
    let alloc = rt.alloc();
    let registry = Registry::parse(alloc, SAMPLE.as_bytes())?;
    let text = format!(in alloc; "{HEADER}{FOLDER}{FILE}")?;
    for room in 0..HEADER.len() + FOLDER.len() {
        let right = goes_on_after(alloc, &registry, room, text.as_bytes())?;
        assert!(rt; right, "{room}");
    }
    Ok(())
}

/// Adds the file, a second time if memory runs out at the first. Returns whether that changed nothing.
fn added(alloc: Global, registry: &Registry, rows: &mut RowText) -> Result<bool, AllocError> {
    let mut node = quoted(alloc).or_else(|_| quoted(alloc))?;
    node.modified = 0;
    let before = rows.len();
    if rows.add(registry, &node).is_ok() {
        return Ok(true);
    }
    let same = rows.len() == before;
    rows.add(registry, &node)?;
    Ok(same)
}

// This test also passes if any one allocation is refused: tests/memory refuses each in turn.
#[test]
fn each_growth_of_rows(rt: HostRuntime) -> Result<(), Fail> {
    let alloc = rt.alloc();
    let file = SAMPLE.as_bytes();
    let registry = Registry::parse(alloc, file).or_else(|_| Registry::parse(alloc, file))?;
    let mut rows = RowText::new(alloc);
    if rows.add_header(HashKind::Md5).is_err() {
        assert!(rt; rows.len() == 0);
        rows.add_header(HashKind::Md5)?;
    }
    assert!(rt; added(alloc, &registry, &mut rows)? && added(alloc, &registry, &mut rows)?);
    assert!(rt; rows.len() == HEADER.len() + 2 * FILE.len());
    Ok(())
}
