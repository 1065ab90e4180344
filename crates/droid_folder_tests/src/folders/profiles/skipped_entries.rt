//! What no folder of this machine has: a name three times, and a name of 256 bytes. (tests/program/folders has all else
//! that is skipped.)

use crate::folders::memory_tree::Row;
use crate::folders::profiles::small_trees::{WHOLE, written};
use droid_frame::HashKind;
use droid_pronom::Registry;
use droid_testing::SAMPLE;
use droid_tree::EntryKind;
use std::test::Fail;

const TWICE: [Row; 4] = [
    ("", b"same", EntryKind::File, 1, Some(b"a")),
    ("", b"then", EntryKind::Folder, 0, Some(b"")),
    ("", b"same", EntryKind::File, 2, Some(b"bc")),
    ("", b"same", EntryKind::Folder, 0, Some(b"")),
];

const LONG_NAMES: [Row; 2] = [
    ("", &[b'n'; 256], EntryKind::File, 0, Some(b"")),
    ("", &[b'n'; 255], EntryKind::Folder, 0, Some(b"")),
];

/// Rows, the number of files that are taken, and what is skipped: how many bytes, and how they end.
const CASES: [(&[Row], u64, usize, &[u8]); 2] = [
    (&TWICE, 1, 32, b"/same same name\n/same same name\n"),
    (&LONG_NAMES, 0, 266, b"nnn refused\n"),
];

/// The rest is taken: a folder of each tree. The profiles have no hashes, so the list has no line.
#[test]
fn skipped(rt: HostRuntime) -> Result<(), Fail> {
    let alloc = rt.alloc();
    let registry = Registry::parse(alloc, SAMPLE.as_bytes())?;
    for (rows, files, length, end) in &CASES {
        let got = written(alloc, &registry, rows, HashKind::Nothing, WHOLE);
        let skipped = got.watcher.skipped.as_slice();
        assert!(rt; got.ended == Ok(false) && got.list.stream.taken().is_empty());
        assert!(rt; got.watcher.folders == 1 && got.watcher.files == *files);
        assert!(rt; skipped.len() == *length && skipped.ends_with(end));
    }
    Ok(())
}
