//! The counts of small trees, and the example of the page of `droid_tree` (crates/droid_tree/README.md), word for word.

use crate::folders::memory_tree::{MemoryTree, Row};
use droid_tree::{EntryKind, WalkFault, count, read_folder};
use std::test::Fail;

/// Two rows are folders, one of them sealed; four are files of 3, 6, 2 and 1 bytes; one is neither; and one has a name
/// that is not UTF-8.
const ROWS: [Row; 8] = [
    ("", b"grows", EntryKind::File, 3, Some(b"abcd")),
    ("", b"shrinks", EntryKind::File, 6, Some(b"abcde")),
    ("", b"gone", EntryKind::File, 2, None),
    ("", b"\xFF", EntryKind::File, 0, Some(b"")),
    ("", b"pipe", EntryKind::Other, 0, None),
    ("", b"sealed", EntryKind::Folder, 0, None),
    ("", b"open", EntryKind::Folder, 0, Some(b"")),
    ("/open", b"kept", EntryKind::File, 1, Some(b"k")),
];

const PAGE: [Row; 2] = [
    ("", b"one", EntryKind::File, 3, Some(b"abc")),
    ("", b"other", EntryKind::File, 5, Some(b"defgh")),
];

/// Six folders and files are within a limit of six, and past one of five.
#[test]
fn counts(rt: HostRuntime) -> Result<(), Fail> {
    let alloc = rt.alloc();
    let mut tree = MemoryTree::of(&ROWS);
    let counted = count(alloc, &mut tree, 6)?;
    assert!(rt; counted.folders == 2 && counted.files == 4);
    assert!(rt; counted.bytes == 12 && counted.skipped == 3);
    let counted = count(alloc, &mut tree, 5);
    assert!(rt; matches!(&counted, Err(WalkFault::Entries)));
    Ok(())
}

#[test]
fn example_of_the_page(rt: HostRuntime) -> Result<(), Fail> {
    let alloc = rt.alloc();
    let mut tree = MemoryTree::of(&PAGE);
    let counted = count(alloc, &mut tree, 100_000)?;
    let entries = match read_folder(alloc, &mut tree, "")? {
        Ok(listing) => listing.entries.len(),
        Err(_) => 0,
    };
    assert!(rt; counted.files == 2 && counted.bytes == 8 && entries == 2);
    Ok(())
}
