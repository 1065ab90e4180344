//! The example of the page crates/droid_assembly/README.md.

use droid_assembly::Assembly;
use droid_frame::{Blob, HashKind};
use std::test::Fail;

#[test]
fn example_of_the_page(rt: HostRuntime) -> Result<(), Fail> {
    // A file of 5 bytes in pieces of 4, with windows of 2 bytes. The second piece comes first.
    let mut file = Assembly::new(rt.alloc(), 5, 4, 2, HashKind::Md5)?;
    file.put(1, Blob::copy_of(rt.alloc(), b"o")?)?;
    assert!(rt; file.settle().is_empty() && file.missing() == 0);
    file.put(0, Blob::copy_of(rt.alloc(), b"Hell")?)?;
    assert!(rt; file.settle().len() == 2);

    // The file is complete.
    let sealed = file.seal()?;
    assert!(rt; sealed.size == 5);
    let windows = file.windows();
    assert!(rt; windows.first == b"He".as_slice() && windows.last == b"lo".as_slice());
    Ok(())
}
