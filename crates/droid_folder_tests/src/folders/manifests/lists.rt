//! Lists of checksums. The program reads no list whose first line is at fault as the manifest of a bag, and writes no
//! list without hashes; tests/program/folders/checksum_lists.py has all other lists.

use droid_fixity::{ManifestFault, ManifestForm, add_line, read_manifest};
use droid_frame::HashValue;
use std::alloc::Global;
use std::test::Fail;

/// Manifests of bags that can't be read: a line without a path, and a path that does not begin with `data/`.
const NO_PATH: &[u8] = b"b1946ac92492d2347c6235b4d2611184  \n";

const OTHER_PATH: &[u8] = b"b1946ac92492d2347c6235b4d2611184  a\n";

/// Returns why the manifest of a bag can't be read.
fn fault_of(alloc: Global, list: &[u8]) -> Option<ManifestFault> {
    read_manifest(alloc, ManifestForm::Bag, list).err()
}

#[test]
fn manifests_of_bags(rt: HostRuntime) -> Result<(), Fail> {
    let alloc = rt.alloc();
    let fault = fault_of(alloc, NO_PATH);
    assert!(rt; matches!(fault, Some(ManifestFault::Line { line: 1 })));
    let fault = fault_of(alloc, OTHER_PATH);
    assert!(rt; matches!(fault, Some(ManifestFault::Path { line: 1 })));
    let mut list = Vec::new(alloc);
    add_line(&mut list, HashValue::Nothing, "/a")?;
    let fault = fault_of(alloc, b"");
    assert!(rt; matches!(fault, Some(ManifestFault::Empty)) && list.is_empty());
    Ok(())
}
