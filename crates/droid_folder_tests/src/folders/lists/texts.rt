//! The CSV of a profile beside what is known of its folders and files. Python's `hashlib` computed the digests, its
//! `datetime` the moments. (More wrong CSVs are in tests/program/submissions/submit_texts.py.)

use droid_frame::{HashKind, HashValue, Method, NodeKind, Text};
use droid_hash::{Finding, no_finding};
use droid_lists::{
    Difference, Known, TextFault, a_text_is_wrong_in_one_place, check_text, column_name,
    export_lists_its_records, the_items_of_the_list_agree,
};
use std::alloc::{AllocError, Global};
use std::test::Fail;

/// The names of the columns of a profile with MD5 hashes, as an export writes them.
const NAMES: &str =
    "\"ID\",\"PARENT_ID\",\"URI\",\"FILE_PATH\",\"NAME\",\"METHOD\",\"STATUS\",\"SIZE\",\"TYPE\",\"EXT\",\"\
    LAST_MODIFIED\",\"EXTENSION_MISMATCH\",\"MD5_HASH\",\"FORMAT_COUNT\",\"PUID\",\"MIME_TYPE\",\"FORMAT_NAME\",\"\
    FORMAT_VERSION\"\n";

/// The folder and the file of docs/CSV.md.
const FOLDER: &str =
    "\"1\",\"\",\"file:/letters/\",\"/letters\",\"letters\",\"\",\"Done\",\"\",\"Folder\",\"\",\"2026-01-31T23:59:59\",\
    \"false\",\"\",\"\",\"\",\"\",\"\",\"\"\n";

const FILE: &str =
    "\"2\",\"1\",\"file:/letters/first.txt\",\"/letters/first.txt\",\"first.txt\",\"Extension\",\"Done\",\"9\",\"\
    File\",\"txt\",\"2026-01-31T23:59:59\",\"false\",\"b59a94e604faec0d5849fb2179502bac\",\"1\",\"x-fmt/111\",\"\
    text/plain\",\"Plain Text File\",\"\"\n";

/// A file behind it, with no format.
const LAST: &str =
    "\"3\",\"\",\"file:/z\",\"/z\",\"z\",\"\",\"Done\",\"0\",\"File\",\"\",\"2026-01-31T23:59:59\",\"false\",\"\
    d41d8cd98f00b204e9800998ecf8427e\",\"0\",\"\",\"\",\"\",\"\"\n";

/// The MD5 of the file in docs/CSV.md.
const MD5: [u8; 16] = [
    0xb5, 0x9a, 0x94, 0xe6, 0x04, 0xfa, 0xec, 0x0d, 0x58, 0x49, 0xfb, 0x21, 0x79, 0x50, 0x2b, 0xac,
];

/// The SHA-256 of `x-fmt/111` behind its length in eight bytes.
const PUIDS: [u8; 32] = [
    0xd3, 0x0b, 0x84, 0xa9, 0xdc, 0xa1, 0x19, 0x40, 0x45, 0xa5, 0x01, 0xb0, 0xb2, 0x39, 0x8e, 0x01,
    0xf3, 0x0d, 0xd7, 0x19, 0x2f, 0x25, 0xd4, 0x45, 0xac, 0xf8, 0x8f, 0x48, 0xaf, 0x8d, 0x9b, 0x5b,
];

/// What is known of the folder, and of the file if it has this length.
fn known(alloc: Global, size: u64) -> Result<Vec<Known>, AllocError> {
    let mut known = Vec::new(alloc);
    known.push(Known {
        number: 1,
        parent: 0,
        path: Text::copy_of(alloc, "/letters")?,
        kind: NodeKind::Folder,
        size: 0,
        modified: 1_769_903_999,
        found: no_finding(),
    })?;
    known.push(Known {
        number: 2,
        parent: 1,
        path: Text::copy_of(alloc, "/letters/first.txt")?,
        kind: NodeKind::File,
        size,
        modified: 1_769_903_999,
        found: Finding {
            method: Method::Extension,
            mismatch: false,
            hash: HashValue::Md5(MD5),
            formats: 1,
            puids: HashValue::Sha256(PUIDS),
        },
    })?;
    Ok(known)
}

/// CSVs, the length that is known of the file, and what `check_text` says: differences, each by its place or path, its
/// record and its column, or the fault. A CSV has a letter for each row.
#[rattlefmt::skip]
const TEXTS: [(&str, u64, &str); 11] = [
    ("ndf", 9, ""),
    ("ndf", 8, "1: SIZE (record 3)\n"),
    ("nd", 9, "1 missing\n"),
    ("n", 9, "0 missing\n1 missing\n"),
    ("ndfz", 9, "/z more (record 4)\n"),
    ("ndz", 9, "1 missing\n/z more (record 3)\n"),
    ("nf", 9, "record 2 is wrong in column 1"), // no folder above
    ("ndd", 9, "record 3 is wrong in column 0"),
    ("nzdf", 9, "record 3 is wrong in column 0"), // not by ID
    ("d", 9, "record 1 is wrong in column 0"),
    ("ndf.", 9, "record 4 is wrong in column 0"), // an empty row
];

fn row_of(letter: u8) -> &'static str {
    match letter {
        b'n' => NAMES,
        b'd' => FOLDER,
        b'f' => FILE,
        b'z' => LAST,
        _ => "\n",
    }
}

/// Returns what `check_text` says of a CSV, in words.
fn said_of(alloc: Global, rows: &str, size: u64) -> Result<String, AllocError> {
    let mut csv = Vec::new(alloc);
    for letter in rows.as_bytes() {
        csv.extend_from_slice(row_of(*letter).as_bytes())?;
    }
    let known = known(alloc, size)?;
    match check_text(alloc, HashKind::Md5, known.as_slice(), csv.as_slice()) {
        Ok(found) => words_of(alloc, found.as_slice()),
        Err(TextFault::Memory) => Err(AllocError),
        Err(TextFault::Wrong { record, column }) => {
            Ok(format!(in alloc; "record {record} is wrong in column {column}")?)
        }
    }
}

fn words_of(alloc: Global, found: &[Difference]) -> Result<String, AllocError> {
    let mut words = String::new(alloc);
    for difference in found {
        let word = match difference {
            Difference::Other {
                known,
                column,
                record,
            } => {
                let name = column_name(HashKind::Md5, *column);
                format!(in alloc; "{known}: {name} (record {record})\n")?
            }
            Difference::Missing { known } => format!(in alloc; "{known} missing\n")?,
            Difference::More { record, path } => {
                let path = str::from_utf8(path.as_slice()).unwrap_or("?");
                format!(in alloc; "{path} more (record {record})\n")?
            }
        };
        words.push_str(word.as_str())?;
    }
    Ok(words)
}

#[test]
fn each_text(rt: HostRuntime) -> Result<(), Fail> {
    a_text_is_wrong_in_one_place();
    export_lists_its_records();
    the_items_of_the_list_agree();
    for (place, (rows, size, due)) in TEXTS.iter().enumerate() {
        let said = said_of(rt.alloc(), rows, *size)?;
        assert!(rt; said.as_str() == *due, "{place}: {said}");
    }
    Ok(())
}

/// Returns whether a CSV with each kind of difference is compared right.
fn is_compared(alloc: Global) -> Result<bool, AllocError> {
    let said = said_of(alloc, "ndfz", 8)?;
    Ok(said.as_str() == "1: SIZE (record 3)\n/z more (record 4)\n")
}

#[test]
fn each_growth_of_a_text(rt: HostRuntime) -> Result<(), Fail> {
    let alloc = rt.alloc();
    assert!(rt; is_compared(alloc).or_else(|_| is_compared(alloc))?);
    Ok(())
}

/// A file that is known and has no row.
#[test]
fn a_missing_row(rt: HostRuntime) -> Result<(), Fail> {
    let alloc = rt.alloc();
    let mut known = Vec::new(alloc);
    known.push(Known {
        number: 1,
        parent: 0,
        path: Text::copy_of(alloc, "/letter.txt")?,
        kind: NodeKind::File,
        size: 5,
        modified: 0,
        found: no_finding(),
    })?;
    let names = NAMES.as_bytes();
    let found = check_text(alloc, HashKind::Md5, known.as_slice(), names).ok();
    let found = found.expect(&rt, "a comparison");
    assert!(rt; found.len() == 1 && matches!(&found[0], Difference::Missing { known: 0 }));
    Ok(())
}
