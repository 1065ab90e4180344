//! The example of crates/droid_store/README.md, and how the store's errors are printed.

use droid_frame::{Blob, HashKind};
use droid_store::{Entry, Store, StoreFault};
use std::test::Fail;

#[test]
fn example_of_the_page(rt: HostRuntime) -> Result<(), Fail> {
    let mut store = Store::in_memory(rt.alloc())?;
    let entry = Entry {
        client: 1,
        number: 1,
        version: 1,
        mark: [0; 16],
        kind: 129,
        body: Blob::copy_of(rt.alloc(), b"\0\0\0\x01")?,
    };
    store.commit_profile(&entry, 1, 65_536, false, HashKind::Md5)?;
    assert_eq!(rt; store.counts()?.profiles, 1);
    assert!(rt; store.reply_of(1, 1)?.is_some());
    Ok(())
}

#[test]
fn texts(rt: HostRuntime) -> Result<(), Fail> {
    let alloc = rt.alloc();
    let (memory, refused) = (StoreFault::Memory, StoreFault::Refused);
    let printed = format!(in alloc; "{memory}, {refused}")?;
    assert!(rt; printed.as_str() == "out of memory, the database refused");
    Ok(())
}
