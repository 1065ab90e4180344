//! The example of the crate's page, README.md of droid_wire.

use crate::server::serving::LIMITS;
use droid_client::Client;
use droid_core::Service;
use droid_frame::{Arrival, HashKind, Noted, Reply, Request, body_limit, read_frame, write_frame};
use droid_pronom::Registry;
use droid_wire::{Ended, serve};
use std::test::Fail;

fn is_made(answer: Option<&Reply>, wanted: u32) -> bool {
    match answer {
        Some(Reply::Made { profile }) => *profile == wanted,
        _ => false,
    }
}

#[test]
fn example_of_the_page(rt: HostRuntime) -> Result<(), Fail> {
    let alloc = rt.alloc();
    let registry = Registry::parse(alloc, b"")?;
    let mut service = Service::new(alloc, registry, LIMITS)?;
    let mut client = Client::new(alloc, 1, 1);
    let request = Request::CreateProfile {
        scan_limit: 65_536,
        match_all: false,
        hash: HashKind::Sha256,
    };
    assert!(rt; request.fits(2));
    let number = client.submit(2, request)?;
    let mut sent = Noted::new(Vec::new(alloc));
    if let Some(frame) = client.pending_at(0) {
        assert!(rt; frame.body.len() <= body_limit(2));
        write_frame(frame, &mut sent)?;
    }
    let mut requests = sent.stream.as_slice();
    let mut replies = Noted::new(Vec::new(alloc));
    let ended = serve(alloc, &mut service, &mut requests, &mut replies, 10)?;
    assert!(rt; ended == Ended::Closed);
    let mut answers = replies.stream.as_slice();
    if let Arrival::Frame(reply) = read_frame(alloc, &mut answers)? {
        client.on_reply(reply)?;
    }
    assert!(rt; is_made(client.answer(number), 1));
    Ok(())
}
