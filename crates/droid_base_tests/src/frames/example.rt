//! The example of the page crates/droid_frame/README.md.

use droid_frame::{Arrival, Request, read_frame, request_frame, request_of, write_frame};
use std::test::Fail;

#[test]
fn example_of_the_page(rt: HostRuntime) -> Result<(), Fail> {
    // Client 7 makes its first request, in version 2, and writes its frame.
    let request = Request::Status {
        profile: 1,
        file: 2,
    };
    assert!(rt; request.fits(2));
    let frame = request_frame(rt.alloc(), 2, 7, 1, &request)?;
    let mut stream = [0u8; 26];
    write_frame(&frame, &mut stream.as_mut_slice())?;

    // The service reads the frame, and the request in it.
    let arrival = read_frame(rt.alloc(), &mut stream.as_slice())?;
    assert!(rt; matches!(&arrival, Arrival::Frame(frame) if frame.client == 7));
    if let Arrival::Frame(frame) = arrival {
        let request = request_of(rt.alloc(), frame);
        assert!(rt; matches!(request, Ok(Request::Status { file: 2, .. })));
    }
    Ok(())
}
