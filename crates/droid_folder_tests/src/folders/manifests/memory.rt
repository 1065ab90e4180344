// Each test also passes if any one allocation is refused: tests/memory refuses each in turn.
//! Out of memory: a call that fails for it works when it is called again.

use droid_fixity::{ManifestFault, ManifestForm, add_line, read_manifest};
use droid_frame::HashValue;
use std::alloc::{AllocError, Global};
use std::test::Fail;

/// Two files, by a line of `md5sum` with an escaped path and by one without.
const LIST: &str =
    "b1946ac92492d2347c6235b4d2611184  a\n\\b1946ac92492d2347c6235b4d2611184  b\\nc\n";

const DIGEST: [u8; 16] = [
    0xb1, 0x94, 0x6a, 0xc9, 0x24, 0x92, 0xd2, 0x34, 0x7c, 0x62, 0x35, 0xb4, 0xd2, 0x61, 0x11, 0x84,
];

/// Two files of a bag, the first with an encoded path.
const BAG: &str =
    "b1946ac92492d2347c6235b4d2611184  data/a%0Ab%25\nb1946ac92492d2347c6235b4d2611184  data/c\n";

/// Returns whether two files are read, at the second call if memory runs out at the first.
fn is_read(alloc: Global, form: ManifestForm, list: &str) -> bool {
    let list = list.as_bytes();
    let read = match read_manifest(alloc, form, list) {
        Err(ManifestFault::Memory) => read_manifest(alloc, form, list),
        read => read,
    };
    match read {
        Ok(items) => items.len() == 2,
        Err(_) => false,
    }
}

#[test]
fn each_growth_of_a_list(rt: HostRuntime) {
    assert!(rt; is_read(rt.alloc(), ManifestForm::Checksums, LIST));
}

#[test]
fn each_growth_of_a_manifest(rt: HostRuntime) {
    assert!(rt; is_read(rt.alloc(), ManifestForm::Bag, BAG));
}

/// Appends a line, again if memory runs out.
fn add(list: &mut Vec<u8>, path: &str) -> Result<(), AllocError> {
    match add_line(list, HashValue::Md5(DIGEST), path) {
        Ok(()) => Ok(()),
        Err(_) => add_line(list, HashValue::Md5(DIGEST), path),
    }
}

#[test]
fn each_growth_of_a_text(rt: HostRuntime) -> Result<(), Fail> {
    let mut list = Vec::new(rt.alloc());
    add(&mut list, "/a")?;
    add(&mut list, "/b\nc")?;
    assert!(rt; list.as_slice() == LIST.as_bytes());
    Ok(())
}
