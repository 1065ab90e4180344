//! The example of crates/droid_pronom/README.md.

use droid_frame::Method;
use droid_pronom::Registry;
use std::test::Fail;

#[test]
fn example_of_the_page(rt: HostRuntime) -> Result<(), Fail> {
    let alloc = rt.alloc();
    let file = b"F,my/1,Greeting,,text/plain,\nS,my/1,BOF,0,0,48656C6C6F\n";
    let registry = Registry::parse(alloc, file)?;
    let bytes = b"Hello, world";
    let found = registry.identify(alloc, "letter.txt", bytes, bytes, 12, false)?;
    assert!(rt; found.method == Method::Signature && found.puids.len() == 1);
    Ok(())
}
