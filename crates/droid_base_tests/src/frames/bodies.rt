//! Bodies of replies, and what a version carries.

use droid_frame::{BodyFault, HashKind, Request, reply_body, reply_of, request_of};
use droid_testing::frame;
use std::alloc::{AllocError, Global};
use std::test::Fail;

/// Kinds and bodies of replies that no shared frame has. (tests/program has each refusal.)
const REPLIES: [(u8, &[u8]); 10] = [
    (131, &[0xff, 0, 0, 0x10]),
    (133, &[]),
    (134, &[0, 0, 0, 3, 0, 0, 1, 2]),
    (135, b"\0\0\0\0\0\0\0\x05\x80\0\0\0\0\0\0\x01\"ID\""),
    (135, b"\0\0\0\0\0\0\0\x05\x80\0\0\0\0\0\0\x01"),
    (136, &[15, 0, 0, 0, 7]),
    (136, &[16, 0, 1, 0, 0]),
    (136, &[17, 1]),
    (136, &[17, 2]),
    (136, &[17, 3]),
];

/// Returns whether a copy of the reply of this body is written as the same body again.
fn is_written_again(alloc: Global, version: u8, kind: u8, body: &[u8]) -> Result<bool, AllocError> {
    let frame = frame(alloc, version, kind, 1, body)?;
    let version = frame.version;
    match reply_of(alloc, frame) {
        Ok(reply) => {
            let written = reply_body(alloc, version, &reply.try_clone(alloc)?)?;
            Ok(reply.kind() == kind && written.as_slice() == body)
        }
        Err(_) => Ok(false),
    }
}

#[test]
fn replies(rt: HostRuntime) -> Result<(), Fail> {
    for version in [1, 2] {
        for (kind, body) in REPLIES {
            assert!(rt;
                is_written_again(rt.alloc(), version, kind, body)?,
                "{body:?}"
            );
        }
    }
    Ok(())
}

/// Returns whether the body is malformed in a version, for a request or a reply of this kind.
fn is_malformed(alloc: Global, version: u8, kind: u8, body: &[u8]) -> Result<bool, AllocError> {
    let frame = frame(alloc, version, kind, 9, body)?;
    let fault = if kind < 129 {
        request_of(alloc, frame).err()
    } else {
        reply_of(alloc, frame).err()
    };
    Ok(fault == Some(BodyFault::Malformed))
}

// A body that is a request or a reply in versions 1 and 2 is malformed in every other version.
#[test]
fn other_versions(rt: HostRuntime) -> Result<(), Fail> {
    let alloc = rt.alloc();
    let (create, status) = ([0, 1, 0, 0, 0], [0, 0, 0, 1, 0, 0, 0, 2]);
    for version in [0, 3, 9, 255] {
        let requests = is_malformed(alloc, version, 5, &status)?
            && is_malformed(alloc, version, 1, &create)?;
        assert!(rt;
            requests && is_malformed(alloc, version, 129, &[0, 0, 0, 1])?,
            "{version}"
        );
    }
    assert!(rt; !is_malformed(alloc, 1, 5, &status)? && !is_malformed(alloc, 2, 5, &status)?);
    Ok(())
}

fn carries(version: u8, hash: HashKind) -> bool {
    let request = Request::CreateProfile {
        scan_limit: 65_536,
        match_all: false,
        hash,
    };
    request.fits(version)
}

#[test]
fn hashes_that_fit(rt: HostRuntime) {
    for version in [0, 1, 2, 3] {
        assert!(rt; carries(version, HashKind::Md5) == (version == 1 || version == 2));
        assert!(rt; carries(version, HashKind::Nothing) == (version == 2));
        assert!(rt; carries(version, HashKind::Sha256) == (version == 2));
    }
}
