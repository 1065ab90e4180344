//! The registry of everyday formats.

use droid_frame::Method;
use droid_pronom::{Registry, common_registry};
use std::test::Fail;

#[test]
fn common_registry_knows_gif(rt: HostRuntime) -> Result<(), Fail> {
    let alloc = rt.alloc();
    let registry = Registry::parse(alloc, common_registry())?;
    let bytes = b"GIF89a";
    let found = registry.identify(alloc, "picture.gif", bytes, bytes, 6, false)?;
    assert!(rt; found.method == Method::Signature && !found.mismatch);
    Ok(())
}
