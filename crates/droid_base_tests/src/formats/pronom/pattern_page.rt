//! The example of crates/droid_pattern/README.md.

use droid_pattern::Pattern;
use std::test::Fail;

#[test]
fn example_of_the_page(rt: HostRuntime) -> Result<(), Fail> {
    let alloc = rt.alloc();
    // `PK`, up to four bytes of any kind, and a digit
    let pattern = Pattern::read(alloc, "504B{0-4}[30:39]")?;
    assert!(rt; pattern.matches_from(alloc, b"..PK..7", 2)?);
    assert!(rt; !pattern.matches_from(alloc, b"..PK..x", 2)?);
    Ok(())
}
