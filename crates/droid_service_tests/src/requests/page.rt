//! The example of the page of `droid_core` (crates/droid_core/README.md), word for word.

use droid_core::{Limits, Service};
use droid_frame::{HashKind, Reply, Request, request_frame};
use droid_pronom::Registry;
use std::test::Fail;

#[test]
fn example_of_the_page(rt: HostRuntime) -> Result<(), Fail> {
    let alloc = rt.alloc();
    let registry = Registry::parse(alloc, b"F,x/1,Text,,,\nE,x/1,txt,,,\n")?;
    let limits = Limits {
        profiles: 1,
        nodes: 100,
        unfinished: 4,
    };
    let mut service = Service::new(alloc, registry, limits)?;
    let request = Request::CreateProfile {
        scan_limit: 65_536,
        match_all: false,
        hash: HashKind::Md5,
    };
    let frame = request_frame(alloc, 1, 7, 1, &request)?;
    let reply = service.handle(frame);
    assert!(rt; matches!(reply, Reply::Made { profile: 1 }));
    Ok(())
}
