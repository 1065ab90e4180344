//! A line of a list of checksums, written and read back.

use droid_fixity::{ManifestForm, add_line, read_manifest};
use droid_frame::HashValue;
use std::test::Fail;

#[test]
fn a_line_is_read_back(rt: HostRuntime) -> Result<(), Fail> {
    let alloc = rt.alloc();
    let mut list = Vec::new(alloc);
    add_line(&mut list, HashValue::Md5([17; 16]), "/old/letter.txt")?;
    let line = b"11111111111111111111111111111111  old/letter.txt\n".as_slice();
    assert!(rt; list.as_slice() == line);
    let items = read_manifest(alloc, ManifestForm::Checksums, line)?;
    assert!(rt; items.len() == 1 && items[0].path.as_slice() == b"/old/letter.txt".as_slice());
    Ok(())
}
