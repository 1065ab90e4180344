//! First and last values of each field come back as they were sent. The longest reply, and the most profiles.

use crate::store::commands::commit;
use crate::store::queries::{has_profile, has_reply, shows};
use crate::store::rows::{Change, Kept, MADE, NODE, Node, Options, TAKEN};
use droid_frame::{HashKind, Method};
use droid_store::{NodeState, Store};
use std::alloc::Global;
use std::test::Fail;

const LAST_NUMBER: u64 = 9_223_372_036_854_775_807;

/// Each differs from others in the client alone, in the number alone, or in what is kept: the first and the last in
/// number and version. The store takes versions that no frame has.
const ENTRIES: [Kept<'static>; 14] = [
    (1, 1, 1, 0x00, 129, &[]),
    (1, 2, 2, 0xff, 130, &[0]),
    (2, 1, 1, 0x80, 131, &[0, 0]),
    (2, 2, 2, 0x7f, 132, &[0xff]),
    (0, 0, 2, 0x20, 133, b" "),
    (0, 1, 1, 0x27, 0, b"'"),
    (1, 0, 2, 0x25, 127, b"x'00'"),
    (0, LAST_NUMBER, 1, 0x01, 128, b"last"),
    (4_294_967_295, LAST_NUMBER, 2, 0x02, 255, &[0, 1, 254, 255]),
    (4_294_967_295, 0, 255, 0x03, 1, b"\xe9"),
    (2_147_483_648, 4_294_967_296, 0, 0x04, 2, b"\xff\xfe"),
    (2_147_483_647, 2_147_483_648, 127, 0x05, 3, b"\n"),
    (1, 9_007_199_254_740_993, 128, 0x06, 4, b"NULL"),
    (1, LAST_NUMBER, 2, 0x00, 129, &[]),
];

/// Clients and numbers of no entry, each beside one of them, or as far past the last number as one of them is past 0.
const NO_ENTRIES: [(u32, u64); 13] = [
    (0, 2),
    (2, 0),
    (2, LAST_NUMBER),
    (0, LAST_NUMBER - 1),
    (4_294_967_294, LAST_NUMBER),
    (4_294_967_295, 1),
    (2_147_483_648, 2_147_483_648),
    (1, 9_007_199_254_740_992),
    (1, 9_007_199_254_740_994),
    (1, 9_223_372_036_854_775_808),
    (1, 9_223_372_036_854_775_809),
    (0, 18_446_744_073_709_551_615),
    (4_294_967_295, 18_446_744_073_709_551_615),
];

/// Whether the replies are kept, and none is found under another client or number.
fn keeps(alloc: Global, store: &mut Store) -> bool {
    let mut all = true;
    for kept in &ENTRIES {
        all &= commit(alloc, store, kept, &Change::Piece).is_ok();
    }
    for kept in &ENTRIES {
        all &= has_reply(store, kept);
    }
    for (client, number) in &NO_ENTRIES {
        all &= matches!(store.reply_of(*client, *number), Ok(None));
    }
    all && matches!(store.counts(), Ok(counts) if counts.accepted == 14)
}

#[test]
fn replies(rt: HostRuntime) -> Result<(), Fail> {
    let mut store = Store::in_memory(rt.alloc())?;
    assert!(rt; keeps(rt.alloc(), &mut store));
    Ok(())
}

/// A reply as long as a frame's body may be.
#[test]
fn long_body(rt: HostRuntime) -> Result<(), Fail> {
    let mut store = Store::in_memory(rt.alloc())?;
    let mut body = vec![in rt.alloc(); 0xa5; 1_048_640]?;
    body[0] = 0;
    body[1_048_639] = 1;
    let kept: Kept<'_> = (1, 1, 2, 0, TAKEN, body.as_slice());
    commit(rt.alloc(), &mut store, &kept, &Change::Piece)?;
    assert!(rt; has_reply(&mut store, &kept));
    Ok(())
}

/// The options of the profile with this number.
fn options(profile: u32) -> Options {
    let hash = match profile % 3 {
        0 => HashKind::Nothing,
        1 => HashKind::Md5,
        _ => HashKind::Sha256,
    };
    (profile.wrapping_mul(1_024), profile % 2 == 1, hash)
}

/// Makes as many profiles as a service may have. Whether they are shown, and no other.
fn keeps_profiles(alloc: Global, store: &mut Store) -> bool {
    let mut all = true;
    for profile in 1..65u32 {
        let kept: Kept<'_> = (profile, 1, 1, 0, MADE, b"");
        let change = Change::Profile(profile, options(profile));
        all &= commit(alloc, store, &kept, &change).is_ok();
    }
    for profile in 1..65u32 {
        all &= has_profile(store, profile, &options(profile), 0);
    }
    for profile in [0, 65, 4_294_967_295] {
        all &= matches!(store.profile(profile), Ok(None));
    }
    all
}

#[test]
fn profiles(rt: HostRuntime) -> Result<(), Fail> {
    let mut store = Store::in_memory(rt.alloc())?;
    assert!(rt; keeps_profiles(rt.alloc(), &mut store));
    Ok(())
}

/// Files of one name, each with the number before it as its parent, but for the last values of a number.
const FILES: &[Node<'static>] = &[
    (
        (1, 1, 0, -62_135_596_800, "f", "/f"),
        (0, 1),
        (
            Method::Unidentified,
            false,
            b"\0\0\0\0\0\0\0\0\0\0\0\0\0\0\0\0\0\0\0\0\0\0\0\0\0\0\0\0\0\0\0\0",
            "",
        ),
    ),
    (
        (1, 2, 1, 253_402_300_799, "f", "/f"),
        (1_099_511_627_776, 1_048_576),
        (
            Method::Signature,
            true,
            b"\xff\xff\xff\xff\xff\xff\xff\xff\xff\xff\xff\xff\xff\xff\xff\xff\xff\xff\xff\xff\xff\xff\xff\xff\xff\xff\
            \xff\xff\xff\xff\xff\xff",
            "fmt/1",
        ),
    ),
    (
        (1, 3, 2, -1, "f", "/f"),
        (1, 1_048_575),
        (
            Method::Extension,
            false,
            b"\x00\x01\x02\x03\x04\x05\x06\x07\x08\x09\x0a\x0b\x0c\x0d\x0e\x0f\x10\x11\x12\x13\x14\x15\x16\x17\x18\x19\
            \x1a\x1b\x1c\x1d\x1e\x1f",
            "fmt/2 fmt/1",
        ),
    ),
    (
        (1, 4, 3, 0, "f", "/f"),
        (1_099_511_627_775, 1),
        (
            Method::Signature,
            false,
            b"                                ",
            "a a b a",
        ),
    ),
    (
        (1, 5, 4_294_967_295, 9_223_372_036_854_775_807, "f", "/f"),
        (LAST_NUMBER, 4_294_967_295),
        (
            Method::Extension,
            true,
            b"''''''''''''''''''''''''''''''''",
            "abcdefghijklmnopqrstuvwxyz/12345 ' '' % NULL 0",
        ),
    ),
    (
        (1, 6, 5, -9_223_372_036_854_775_808, "f", "/f"),
        (4_294_967_296, 2),
        (
            Method::Unidentified,
            true,
            b"\x01\x01\x01\x01\x01\x01\x01\x01\x01\x01\x01\x01\x01\x01\x01\x01\x01\x01\x01\x01\x01\x01\x01\x01\x01\x01\
            \x01\x01\x01\x01\x01\x01",
            "\u{e9} \u{10ffff} \t \u{1} \u{a0}",
        ),
    ),
    (
        (1, 7, 6, 1, "f", "/f"),
        (2, 3),
        (
            Method::Signature,
            true,
            b"\x7f\x7f\x7f\x7f\x7f\x7f\x7f\x7f\x7f\x7f\x7f\x7f\x7f\x7f\x7f\x7f\x7f\x7f\x7f\x7f\x7f\x7f\x7f\x7f\x7f\x7f\
            \x7f\x7f\x7f\x7f\x7f\x7f",
            "",
        ),
    ),
];

/// Changes each file by a command of this client, in the version of this number. Whether it is shown so.
fn shows_each(alloc: Global, store: &mut Store, client: u8, finishes: bool) -> bool {
    let mut all = true;
    for file in FILES {
        let ((_, id, ..), ..) = *file;
        let kept: Kept<'_> = (u32::from(client), u64::from(id), client, 1, NODE, b"");
        let (change, state) = if finishes {
            (Change::Finish(*file), NodeState::Finished)
        } else {
            (Change::Node(*file), NodeState::Unfinished)
        };
        all &= commit(alloc, store, &kept, &change).is_ok() && shows(store, file, Some(state));
    }
    all
}

#[test]
fn files(rt: HostRuntime) -> Result<(), Fail> {
    let alloc = rt.alloc();
    let mut store = Store::in_memory(alloc)?;
    let kept: Kept<'_> = (1, 0, 1, 0, MADE, b"");
    let options = (4_294_967_295, true, HashKind::Sha256);
    commit(alloc, &mut store, &kept, &Change::Profile(1, options))?;
    assert!(rt;
        has_profile(&mut store, 1, &options, 0)
            & shows_each(alloc, &mut store, 1, false)
            & shows_each(alloc, &mut store, 2, true)
    );
    Ok(())
}
