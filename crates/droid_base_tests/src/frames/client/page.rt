//! The example of crates/droid_client/README.md.

use droid_client::{Client, Heard};
use droid_frame::{Blob, Frame, Reply, Request};
use std::test::Fail;

#[test]
fn example_of_the_page(rt: HostRuntime) -> Result<(), Fail> {
    let alloc = rt.alloc();
    let mut client = Client::new(alloc, 7, 1);
    let request = Request::Abandon {
        profile: 1,
        file: 2,
    };
    assert!(rt; request.fits(2));
    let number = client.submit(2, request)?;

    // the reply of the service, as it is read from a stream
    let frame = Frame {
        version: 2,
        kind: 133,
        client: 7,
        number,
        body: Blob::copy_of(alloc, b"")?,
    };
    let heard = client.on_reply(frame)?;
    assert!(rt; heard == Heard::Answered && client.pending() == 0);
    assert!(rt; matches!(client.answer(number), Some(Reply::Abandoned)));
    Ok(())
}
