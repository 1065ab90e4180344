//! Lines of scripts as requests to a service, and its replies as they are printed.

use droid_core::{Limits, Service};
use droid_frame::{Frame, Reply, request_frame};
use droid_lines::{parse_line, print_answer};
use droid_pronom::Registry;
use droid_testing::SAMPLE;
use std::alloc::Global;
use std::num::NonZeroUsize;

/// A line of a script, and what its reply prints.
pub type Step<'a> = (&'a str, &'a str);

/// The largest limits that there are.
pub const LARGEST: Limits = Limits {
    profiles: 64,
    nodes: 100_000,
    unfinished: 64,
};

/// The first step of most scripts.
pub const CREATE: Step = ("1 1 create 65536 0", "made 1\n");

/// An empty service that caches up to `places` replies, or `None` if there is no memory.
pub fn service(alloc: Global, limits: Limits, places: usize) -> Option<Service> {
    let limits = Limits {
        profiles: limits.profiles.min(64),
        nodes: limits.nodes.min(100_000),
        unfinished: limits.unfinished.min(64),
    };
    let places = NonZeroUsize::new(places)?;
    let registry = Registry::parse(alloc, SAMPLE.as_bytes()).ok()?;
    Service::with_cache(alloc, registry, limits, places).ok()
}

/// The request of a line, or `None` if there is no memory or the line asks nothing.
pub fn frame_of(alloc: Global, line: &str) -> Option<Frame> {
    let line = parse_line(alloc, line.as_bytes()).ok()??;
    request_frame(alloc, line.version, line.client, line.number, &line.request).ok()
}

/// What a reply prints, or `None` if there is no memory.
pub fn printed(alloc: Global, reply: Reply) -> Option<Vec<u8>> {
    let answer = Some(reply);
    print_answer(alloc, &answer).ok()
}

/// What the reply to a line prints, or `None` if there is no memory for the request or the text.
pub fn answer(alloc: Global, service: &mut Service, line: &str) -> Option<Vec<u8>> {
    let frame = frame_of(alloc, line)?;
    printed(alloc, service.handle(frame))
}

/// What the reply to a line prints, once more if there was no memory for the request.
pub fn answer_in_the_end(alloc: Global, service: &mut Service, line: &str) -> Option<Vec<u8>> {
    let text = answer(alloc, service, line)?;
    if text.as_slice() == b"refused 18\n".as_slice() {
        return answer(alloc, service, line);
    }
    Some(text)
}

/// Whether the service answers the step as it should.
pub fn is_answered(alloc: Global, service: &mut Service, step: &Step<'_>) -> bool {
    let (line, wanted) = *step;
    match answer(alloc, service, line) {
        Some(printed) => printed.as_slice() == wanted.as_bytes(),
        None => false,
    }
}

/// Whether the service makes the folder of this number, or made it before, with this number of a node.
pub fn is_made(alloc: Global, service: &mut Service, number: u64, id: u64) -> bool {
    let line = format!(in alloc; "1 {number} folder 1 0 0 f{number}");
    match (line, format!(in alloc; "node {id}\n")) {
        (Ok(line), Ok(wanted)) => is_answered(alloc, service, &(line.as_str(), wanted.as_str())),
        _ => false,
    }
}
