//! The example of the crate's page, README.md of droid_lines.

use droid_frame::{Reply, request_frame};
use droid_lines::{parse_line, print_reply};
use std::test::Fail;

#[test]
fn example_of_the_page(rt: HostRuntime) -> Result<(), Fail> {
    let alloc = rt.alloc();
    let line = parse_line(alloc, b"7 1 create 65536 0")?;
    assert!(rt; line.is_some());
    if let Some(line) = line {
        assert!(rt; line.version == 1 && line.client == 7 && line.number == 1);
        let frame = request_frame(alloc, line.version, line.client, line.number, &line.request)?;
        assert!(rt; frame.kind == 1);
    }
    let typing_error = parse_line(alloc, b"7 2 creat 65536 0")?;
    assert!(rt; typing_error.is_none());
    let printed = print_reply(alloc, &Reply::Made { profile: 1 })?;
    let wanted: &[u8] = b"made 1\n";
    assert!(rt; printed.as_slice() == wanted);
    Ok(())
}
