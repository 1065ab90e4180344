//! How many bytes of content a service keeps of a file, and frames of versions that no stream carries.

use crate::requests::steps::{CREATE, LARGEST, Step, is_answered, printed, service};
use droid_core::Service;
use droid_frame::{Blob, Reply, Request, request_frame};
use droid_testing::frame;
use std::alloc::Global;

/// A line and what its reply prints, the profile and the file whose bytes are counted then, and how many there are.
type Kept<'a> = (&'a str, &'a str, u32, u32, Option<u64>);

const BAD_PIECE: &str = "1 7 piece 1 1 4 00";

const FINISHED: &str = "finished none false f96b697d7cb7938d525a2f31aaf161d0 -\n";

const OUT_OF_ORDER: &[Kept] = &[
    ("1 1 create 3 0", "made 1\n", 1, 1, None),
    ("1 2 file 1 0 0 14 4 m", "node 1\n", 1, 1, Some(0)),
    ("1 3 piece 1 1 3 7374", "taken 1\n", 1, 1, Some(2)),
    (BAD_PIECE, "refused 13\n", 1, 1, Some(2)),
    ("1 4 piece 1 1 1 61676520", "taken 2\n", 1, 1, Some(6)),
    (BAD_PIECE, "refused 13\n", 1, 1, Some(6)),
    ("1 5 piece 1 1 0 6d657373", "taken 3\n", 1, 1, Some(8)),
    (BAD_PIECE, "refused 13\n", 1, 1, Some(8)),
    ("1 6 piece 1 1 2 64696765", "taken 4\n", 1, 1, Some(6)),
    (BAD_PIECE, "refused 13\n", 1, 1, Some(6)),
    ("1 8 finish 1 1", FINISHED, 1, 1, None),
];

const AGAIN: &str = "1 1 create 65536 0";

const OF_NODES: &[Kept] = &[
    (AGAIN, "made 1\n", 1, 1, None),
    ("1 2 folder 1 0 0 in", "node 1\n", 1, 1, None),
    ("1 3 file 1 0 0 8 4 x", "node 2\n", 1, 2, Some(0)),
    ("1 4 file 1 0 0 8 4 y", "node 3\n", 1, 3, Some(0)),
    ("1 5 piece 1 2 0 61616161", "taken 1\n", 1, 2, Some(8)),
    ("1 6 piece 1 3 1 61616161", "taken 1\n", 1, 3, Some(4)),
    (AGAIN, "made 1\n", 1, 1, None),
    (AGAIN, "made 1\n", 1, 2, Some(8)),
    (AGAIN, "made 1\n", 1, 3, Some(4)),
    (AGAIN, "made 1\n", 1, 4, None),
    (AGAIN, "made 1\n", 1, 0, None),
    (AGAIN, "made 1\n", 2, 2, None),
    ("1 7 abandon 1 2", "abandoned\n", 1, 2, None),
    (AGAIN, "made 1\n", 1, 3, Some(4)),
];

/// The place of the first step, each of which comes twice, that is answered wrongly or leaves another number of bytes.
fn first_wrong(alloc: Global, service: &mut Service, steps: &[Kept<'_>]) -> Option<usize> {
    for (place, step) in steps.iter().enumerate() {
        let (line, wanted, profile, file, kept) = *step;
        for _ in 0..2u32 {
            let right = is_answered(alloc, service, &(line, wanted));
            if !right || service.kept_bytes(profile, file) != kept {
                return Some(place);
            }
        }
    }
    None
}

#[test]
fn of_pieces_and_nodes(rt: HostRuntime) {
    let alloc = rt.alloc();
    for steps in [OUT_OF_ORDER, OF_NODES] {
        let mut service = service(alloc, LARGEST, 256).expect(&rt, "a service");
        let kept = service.kept_bytes(1, 1);
        let wrong = first_wrong(alloc, &mut service, steps);
        assert!(rt; kept.is_none() && wrong.is_none(), "{wrong:?}");
    }
}

// Pieces of the largest size of version 2, in a profile without a hash: only the mark is a hash of their bytes.
const ANNOUNCED: [Step; 2] = [
    ("v2 1 1 create 65536 0 none", "made 1\n"),
    ("v2 1 2 file 1 0 0 8388608 4194304 z", "node 1\n"),
];

/// How many bytes a service keeps of a second piece of 4,194,304 bytes while the first is missing.
fn kept_of_largest(alloc: Global) -> Option<u64> {
    let mut service = service(alloc, LARGEST, 256)?;
    let mut right = true;
    for step in ANNOUNCED {
        right &= is_answered(alloc, &mut service, &step);
    }
    let bytes = vec![in alloc; 0u8; 4_194_304].ok()?;
    let bytes = Blob::copy_of(alloc, bytes.as_slice()).ok()?;
    let piece = Request::Piece {
        profile: 1,
        file: 1,
        index: 1,
        bytes,
    };
    right &= service.kept_bytes(1, 1) == Some(0);
    if !piece.fits(2) {
        return None;
    }
    let frame = request_frame(alloc, 2, 1, 3, &piece).ok()?;
    match service.handle(frame) {
        Reply::Taken { held: 1 } if right => service.kept_bytes(1, 1),
        _ => None,
    }
}

#[test]
fn largest_piece(rt: HostRuntime) {
    assert!(rt; kept_of_largest(rt.alloc()) == Some(4_194_304));
}

// The version, the kind, the number and the body: requests but for their versions. Under the number 1 a reply is kept.
const MALFORMED: [(u8, u8, u64, &[u8]); 6] = [
    (0, 5, 9, b"\0\0\0\x01\0\0\0\0"),
    (3, 5, 9, b"\0\0\0\x01\0\0\0\0"),
    (255, 5, 9, b"\0\0\0\x01\0\0\0\0"),
    (0, 1, 1, b"\0\x01\0\0\0\x01"),
    (3, 1, 1, b"\0\x01\0\0\0\x01"),
    (255, 1, 1, b"\0\x01\0\0\0\x01"),
];

const AFTERWARDS: [Step; 3] = [
    CREATE,
    ("1 9 finish 1 1", "refused 4\n"),
    ("1 9 folder 1 0 0 in", "node 1\n"),
];

/// Whether the frames are malformed, and the service goes on as before.
fn are_malformed(alloc: Global, places: usize) -> Option<bool> {
    let mut service = service(alloc, LARGEST, places)?;
    let mut right = is_answered(alloc, &mut service, &CREATE);
    for (version, kind, number, body) in MALFORMED {
        let frame = frame(alloc, version, kind, number, body).ok()?;
        let text = printed(alloc, service.handle(frame))?;
        right &= text.as_slice() == b"refused 1\n".as_slice();
    }
    for step in AFTERWARDS {
        right &= is_answered(alloc, &mut service, &step);
    }
    Some(right)
}

#[test]
fn other_versions(rt: HostRuntime) {
    let alloc = rt.alloc();
    assert!(rt; are_malformed(alloc, 1) == Some(true) && are_malformed(alloc, 256) == Some(true));
}
