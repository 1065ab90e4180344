//! The messages of the faults of both ends of a stream. A frame's fault is displayed with its own message.

use droid_client::{HearFault, SubmitFault};
use droid_frame::FrameFault;
use droid_wire::ServeFault;
use std::alloc::Global;
use std::fmt::Display;

fn says<T: Display>(alloc: Global, fault: &T, text: &str) -> bool {
    match format!(in alloc; "{fault}") {
        Ok(said) => said.as_str() == text,
        Err(_) => false,
    }
}

#[test]
fn texts(rt: HostRuntime) {
    let alloc = rt.alloc();
    let truncated = ServeFault::Frame(FrameFault::Truncated);
    let memory = ServeFault::Frame(FrameFault::Memory);
    let write = ServeFault::Write { written: 7 };
    assert!(rt;
        says(alloc, &truncated, "the stream ends within a frame")
            & says(alloc, &memory, "out of memory")
            & says(alloc, &write, "a reply could not be written, after 7 bytes")
            & says(
                alloc,
                &SubmitFault::NumbersUsedUp,
                "all numbers are used up"
            )
            & says(alloc, &SubmitFault::Memory, "out of memory")
            & says(alloc, &HearFault::Malformed, "the frame holds no reply")
            & says(alloc, &HearFault::Memory, "out of memory")
    );
}
