//! The example of crates/droid_script/README.md.

use droid_core::{Limits, Service};
use droid_frame::Noted;
use droid_pronom::Registry;
use droid_script::script;
use std::test::Fail;

const LIMITS: Limits = Limits {
    profiles: 1,
    nodes: 100,
    unfinished: 4,
};

#[test]
fn example_of_the_page(rt: HostRuntime) -> Result<(), Fail> {
    let alloc = rt.alloc();
    let registry = Registry::parse(alloc, b"")?;
    let mut service = Service::new(alloc, registry, LIMITS)?;
    let mut input = b"1 1 create 65536 0\nhello\n".as_slice();
    let mut output = Noted::new(Vec::new(alloc));
    let tally = script(alloc, &mut service, &mut input, &mut output)?;
    assert!(rt; tally.lines == 2 && tally.bad == 1);
    assert!(rt; output.stream.as_slice() == b"made 1\nbad line\n".as_slice());
    Ok(())
}
