//! Lists of requests in one call, which answers each list at once.

use crate::requests::steps::{LARGEST, frame_of, service};
use droid_core::Service;
use droid_frame::Reply;
use std::alloc::Global;

const CREATE: &str = "1 0 create 65536 0";

/// Whether the service answers a list of `count` requests at once, each as it would be answered alone: the first makes
/// a profile, the others a folder each, under their places as numbers.
fn answers_all(alloc: Global, service: &mut Service, count: usize) -> Option<bool> {
    let mut frames = Vec::new(alloc);
    for place in 0..count {
        let folder = format!(in alloc; "1 {place} folder 1 0 0 f{place}").ok()?;
        let line = if place == 0 { CREATE } else { folder.as_str() };
        frames.push(frame_of(alloc, line)?).ok()?;
    }
    let replies = service.run(frames).ok()?;
    let mut right = replies.len() == count;
    for (place, reply) in replies.iter().enumerate() {
        right &= match *reply {
            Reply::Made { profile } => place == 0 && profile == 1,
            Reply::Node { id } => place > 0 && id as usize == place,
            _ => false,
        };
    }
    Some(right)
}

/// Lists of a profile and folders in it, each handed to an empty service, and then once more.
#[test]
fn lists(rt: HostRuntime) {
    let alloc = rt.alloc();
    for count in [0usize, 1, 3, 300] {
        let mut service = service(alloc, LARGEST, 256).expect(&rt, "a service");
        let first = answers_all(alloc, &mut service, count);
        let second = answers_all(alloc, &mut service, count);
        assert!(rt; first == Some(true) && second == Some(true), "{count}");
    }
}
