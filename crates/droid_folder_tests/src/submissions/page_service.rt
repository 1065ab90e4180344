//! A service over the sample registry, and a connection to it that does not break.

use droid_core::{Limits, Service};
use droid_frame::{Frame, reply_body};
use droid_pronom::Registry;
use droid_remote::{Broken, Connection};
use droid_testing::SAMPLE;
use std::alloc::Global;
use std::collections::VecDeque;

#[derive(Drop)]
pub struct PageService {
    alloc: Global,
    /// Nothing if memory runs out.
    service: Option<Service>,
    replies: VecDeque<Frame>,
}

impl PageService {
    pub fn new(alloc: Global) -> PageService {
        PageService {
            alloc,
            service: service_of(alloc),
            replies: VecDeque::new(alloc),
        }
    }
}

fn service_of(alloc: Global) -> Option<Service> {
    let registry = Registry::parse(alloc, SAMPLE.as_bytes()).ok()?;
    let limits = Limits {
        profiles: 64,
        nodes: 100_000,
        unfinished: 64,
    };
    Service::new(alloc, registry, limits).ok()
}

/// Lets the service handle a copy of a frame. All frames of a submission are of version 2.
fn replied(alloc: Global, service: &mut Option<Service>, frame: &Frame) -> Option<Frame> {
    let service = service.as_mut()?;
    let body = frame.body.try_clone(alloc).ok()?;
    let reply = service.handle(Frame {
        version: 2,
        kind: frame.kind,
        client: frame.client,
        number: frame.number,
        body,
    });
    let body = reply_body(alloc, 2, &reply).ok()?;
    Some(Frame {
        version: 2,
        kind: reply.kind(),
        client: frame.client,
        number: frame.number,
        body,
    })
}

impl Connection for PageService {
    ghost does = { λ old event new. Unit {0} };

    fn connect(&mut self) -> Result<(), Broken> {
        Ok(())
    }

    fn write(&mut self, frame: &Frame) -> Result<(), Broken> {
        let Some(reply) = replied(self.alloc, &mut self.service, frame) else {
            return Err(Broken);
        };
        let kept = self.replies.push_back(reply).is_ok();
        if kept { Ok(()) } else { Err(Broken) }
    }

    fn read(&mut self, _alloc: Global) -> Result<Frame, Broken> {
        match self.replies.pop_front() {
            Some(frame) => Ok(frame),
            None => Err(Broken),
        }
    }

    fn pause(&mut self) -> bool {
        false
    }

    fn start_wait(&mut self) {}
}
