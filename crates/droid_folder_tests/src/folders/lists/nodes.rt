//! Items of folders and files. Python's `datetime` computed the moments, its `hashlib` the hash.

use droid_frame::{HashValue, NodeKind};
use droid_lists::item_of_node;
use std::alloc::{AllocError, Global};
use std::test::Fail;

/// The MD5 of `first\n`.
const FIRST: [u8; 16] = [
    0xeb, 0x26, 0x0e, 0x9a, 0xe8, 0x27, 0x82, 0x1b, 0xec, 0xee, 0xed, 0x41, 0x04, 0xf0, 0xad, 0x89,
];

const MD5: HashValue = HashValue::Md5(FIRST);

/// The kind, size, moment and hash of a node, and the length, moment and hash of its item, if it has one.
type Node = (
    NodeKind,
    u64,
    i64,
    HashValue,
    Option<(Option<u64>, &'static [u8; 19], HashValue)>,
);

#[rattlefmt::skip]
const NODES: [Node; 10] = [
    (NodeKind::File, 6, 1_769_903_999, MD5, Some((Some(6), b"2026-01-31T23:59:59", MD5))),
    (NodeKind::File, u64::MAX, 0, HashValue::Nothing,
    Some((Some(u64::MAX), b"1970-01-01T00:00:00", HashValue::Nothing))),
    (NodeKind::Folder, 6, -1, MD5, Some((None, b"1969-12-31T23:59:59", HashValue::Nothing))),
    (NodeKind::Folder, 0, 951_782_400, HashValue::Nothing, Some((None, b"2000-02-29T00:00:00", HashValue::Nothing))),
    (NodeKind::File, 0, -62_135_596_800, MD5, Some((Some(0), b"0001-01-01T00:00:00", MD5))),
    (NodeKind::File, 0, -62_135_596_801, MD5, None),
    (NodeKind::File, 0, 253_402_300_799, MD5, Some((Some(0), b"9999-12-31T23:59:59", MD5))),
    (NodeKind::File, 0, 253_402_300_800, MD5, None),
    (NodeKind::File, 0, i64::MIN, MD5, None),
    (NodeKind::File, 0, i64::MAX, MD5, None),
];

/// Returns whether the item of a node is as it should be.
fn is_made(alloc: Global, node: &Node) -> Result<bool, AllocError> {
    let (kind, size, modified, hash, due) = *node;
    let item = item_of_node(alloc, "/a", kind, size, modified, hash)?;
    Ok(match (item, due) {
        (Some(item), Some((length, moment, hash))) => {
            item.path.as_slice() == b"/a".as_slice()
                && item.length == length
                && item.modified == Some(*moment)
                && item.hash == hash
        }
        (None, None) => true,
        _ => false,
    })
}

#[test]
fn moments_and_hashes(rt: HostRuntime) -> Result<(), Fail> {
    for (place, node) in NODES.iter().enumerate() {
        assert!(rt; is_made(rt.alloc(), node)?, "{place}");
    }
    Ok(())
}
