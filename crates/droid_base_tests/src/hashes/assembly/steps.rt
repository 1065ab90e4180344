//! Files assembled step by step, from tables with the result of each step and of the calls after it.

ghost use Rattle.std.specs.Prelude.{◌≡◌, IsSome, None};

use crate::hashes::assembly::files::{End, ends, put, settle, take_back};
use droid_assembly::{Assembly, PutFault, Spent};
use droid_frame::{Blob, HashKind, HashValue};
use std::alloc::{AllocError, Global};
use std::test::Fail;

// The digests of no bytes, of `abc` and of `message digest` (RFC 1321, A.5; FIPS 180-4's examples).
const MD5_OF_NOTHING: [u8; 16] = [
    0xd4, 0x1d, 0x8c, 0xd9, 0x8f, 0x00, 0xb2, 0x04, 0xe9, 0x80, 0x09, 0x98, 0xec, 0xf8, 0x42, 0x7e,
];

pub const MD5_OF_ABC: [u8; 16] = [
    0x90, 0x01, 0x50, 0x98, 0x3c, 0xd2, 0x4f, 0xb0, 0xd6, 0x96, 0x3f, 0x7d, 0x28, 0xe1, 0x7f, 0x72,
];

const MD5_OF_MESSAGE_DIGEST: [u8; 16] = [
    0xf9, 0x6b, 0x69, 0x7d, 0x7c, 0xb7, 0x93, 0x8d, 0x52, 0x5a, 0x2f, 0x31, 0xaa, 0xf1, 0x61, 0xd0,
];

const SHA256_OF_NOTHING: [u8; 32] = [
    0xe3, 0xb0, 0xc4, 0x42, 0x98, 0xfc, 0x1c, 0x14, 0x9a, 0xfb, 0xf4, 0xc8, 0x99, 0x6f, 0xb9, 0x24,
    0x27, 0xae, 0x41, 0xe4, 0x64, 0x9b, 0x93, 0x4c, 0xa4, 0x95, 0x99, 0x1b, 0x78, 0x52, 0xb8, 0x55,
];

const SHA256_OF_ABC: [u8; 32] = [
    0xba, 0x78, 0x16, 0xbf, 0x8f, 0x01, 0xcf, 0xea, 0x41, 0x41, 0x40, 0xde, 0x5d, 0xae, 0x22, 0x23,
    0xb0, 0x03, 0x61, 0xa3, 0x96, 0x17, 0x7a, 0x9c, 0xb4, 0x10, 0xff, 0x61, 0xf2, 0x00, 0x15, 0xad,
];

/// The result of putting a piece.
#[derive(Clone, Copy)]
enum Then {
    /// It is settled; this many bytes are kept while it is pending.
    Settled(u64),
    /// It is taken back; this many bytes are kept while it is pending.
    TakenBack(u64),
    BadPiece,
    PieceHeld,
    /// It is too far ahead of the first missing piece, which has this index.
    TooFarAhead(u32),
}

/// A piece's index, its bytes and its result, and then the number of settled pieces, the index of the first missing one
/// and the number of bytes kept.
type Step = (u32, &'static str, Then, (u32, u32, u64));

/// A file's bytes, the size of its pieces, and the scan limit.
type File = (&'static str, u32, u32);

// The last piece comes first; the first is taken back once.
const ALONE: [Step; 3] = [
    (1, "c", Then::Settled(1), (1, 0, 1)),
    (0, "ab", Then::TakenBack(3), (1, 0, 1)),
    (0, "ab", Then::Settled(3), (2, 2, 4)),
];

// A piece that is settled already, and five that the file does not have.
const REFUSED: [Step; 8] = [
    (0, "mess", Then::Settled(4), (1, 1, 8)),
    (0, "mess", Then::PieceHeld, (1, 1, 8)),
    (3, "s", Then::BadPiece, (1, 1, 8)),
    (3, "stt", Then::BadPiece, (1, 1, 8)),
    (3, "stst", Then::BadPiece, (1, 1, 8)),
    (4, "s", Then::BadPiece, (1, 1, 8)),
    (0, "", Then::BadPiece, (1, 1, 8)),
    (3, "st", Then::Settled(10), (2, 1, 10)),
];

// A piece 16 past the first missing one, before and after that one comes.
const FAR: [Step; 4] = [
    (15, "p", Then::Settled(1), (1, 0, 1)),
    (16, "q", Then::TooFarAhead(0), (1, 0, 1)),
    (0, "a", Then::Settled(2), (2, 1, 3)),
    (16, "q", Then::Settled(4), (3, 1, 4)),
];

// Each piece that is passed takes the next one along.
const HANDED_BACK: [Step; 4] = [
    (3, "st", Then::Settled(2), (1, 0, 2)),
    (1, "age ", Then::Settled(6), (2, 0, 6)),
    (0, "mess", Then::Settled(10), (3, 2, 8)),
    (2, "dige", Then::Settled(12), (4, 4, 6)),
];

// All of the first sixteen pieces but piece 14, for which piece 15 waits; then piece 14.
const WAITING: [Step; 16] = [
    (15, "p", Then::Settled(1), (1, 0, 1)),
    (0, "a", Then::Settled(2), (2, 1, 3)),
    (1, "b", Then::Settled(4), (3, 2, 5)),
    (2, "c", Then::Settled(6), (4, 3, 7)),
    (3, "d", Then::Settled(8), (5, 4, 9)),
    (4, "e", Then::Settled(10), (6, 5, 9)),
    (5, "f", Then::Settled(10), (7, 6, 9)),
    (6, "g", Then::Settled(10), (8, 7, 9)),
    (7, "h", Then::Settled(10), (9, 8, 9)),
    (8, "i", Then::Settled(10), (10, 9, 9)),
    (9, "j", Then::Settled(10), (11, 10, 9)),
    (10, "k", Then::Settled(10), (12, 11, 9)),
    (11, "l", Then::Settled(10), (13, 12, 9)),
    (12, "m", Then::Settled(10), (14, 13, 9)),
    (13, "n", Then::Settled(10), (15, 14, 9)),
    (14, "o", Then::Settled(10), (16, 16, 8)),
];

fn is_refusal(fault: &PutFault, then: Then, text: &[u8]) -> bool {
    match (fault, then) {
        (PutFault::BadPiece { bytes }, Then::BadPiece) => bytes.as_slice() == text,
        (PutFault::PieceHeld { bytes }, Then::PieceHeld) => bytes.as_slice() == text,
        (PutFault::TooFarAhead { missing, bytes }, Then::TooFarAhead(first)) => {
            *missing == first && bytes.as_slice() == text
        }
        _ => false,
    }
}

// Returns whether the returned pieces are those from one index to another, in order.
fn hands_back(spent: &Spent, file: File, from: u32, end: u32) -> bool {
    let pieces = file.0.as_bytes().chunks(file.1.max(1) as usize);
    let count = end.saturating_sub(from) as usize;
    let mut right = spent.len() == count && spent.is_empty() == (count == 0);
    for (place, piece) in pieces.skip(from as usize).take(count).enumerate() {
        right &= spent
            .get(place)
            .is_some_and(|bytes| bytes.as_slice() == piece);
    }
    right && spent.get(count).is_none()
}

fn is_taken(assembly: &mut Assembly, index: u32, then: Then, file: File) -> bool
    requires { IsSome assembly.old.pending }
    ensures { assembly.new.pending ≡ None }
{
    let from = assembly.missing();
    let pending = (assembly.pending(), assembly.kept_bytes());
    match then {
        Then::Settled(kept) => {
            let spent = settle(assembly);
            pending == (Some(index), kept) && hands_back(&spent, file, from, assembly.missing())
        }
        Then::TakenBack(kept) => {
            take_back(assembly);
            pending == (Some(index), kept) && assembly.pending().is_none()
        }
        _ => {
            take_back(assembly);
            false
        }
    }
}

// Takes one step of a file that is incomplete before it.
fn goes(alloc: Global, assembly: &mut Assembly, file: File, step: &Step) -> Result<bool, AllocError>
    requires { assembly.old.pending ≡ None }
    ensures { assembly.new.pending ≡ None }
{
    let (index, text, then, views) = *step;
    let bytes = Blob::copy_of(alloc, text.as_bytes())?;
    let incomplete = assembly.seal().is_err();
    let right = match put(assembly, index, bytes) {
        Err(fault) => is_refusal(&fault, then, text.as_bytes()),
        Ok(()) => is_taken(assembly, index, then, file),
    };
    let shown = (assembly.held(), assembly.missing(), assembly.kept_bytes());
    Ok(incomplete && right && shown == views)
}

// Returns whether the steps of a file go as they say, and it ends so, twice.
fn go(
    alloc: Global,
    file: File,
    hash: HashKind,
    steps: &[Step],
    end: End,
) -> Result<bool, AllocError> {
    let (text, piece_size, limit) = file;
    let size = text.len() as u64;
    if size > 100 || piece_size == 0 || piece_size > 100 || limit == 0 || limit > 100 {
        return Ok(false);
    }
    let mut assembly = Assembly::new(alloc, size, piece_size, limit, hash)?;
    let mut right = true;
    for step in steps {
        right &= goes(alloc, &mut assembly, file, step)?;
    }
    Ok(right && ends(&mut assembly, size, end) && ends(&mut assembly, size, end))
}

#[test]
fn each_step(rt: HostRuntime) -> Result<(), Fail> {
    let (alloc, md5) = (rt.alloc(), HashKind::Md5);
    let (abc, nothing) = (HashValue::Md5(MD5_OF_ABC), HashValue::Md5(MD5_OF_NOTHING));
    for hash in [HashValue::Nothing, abc, HashValue::Sha256(SHA256_OF_ABC)] {
        assert!(rt;
            go(
                alloc,
                ("abc", 2, 2),
                hash.kind(),
                &ALONE,
                Ok((hash, "ab", "bc"))
            )?
        );
    }
    for hash in [
        HashValue::Nothing,
        nothing,
        HashValue::Sha256(SHA256_OF_NOTHING),
    ] {
        assert!(rt; go(alloc, ("", 1, 5), hash.kind(), &[], Ok((hash, "", "")))?);
    }
    assert!(rt; go(alloc, ("message digest", 4, 9), md5, &REFUSED, Err(1))?);
    assert!(rt; go(alloc, ("abcdefghijklmnopqrst", 1, 1), md5, &FAR, Err(1))?);
    assert!(rt;
        go(
            alloc,
            ("abcdefghijklmnopqrst", 1, 4),
            md5,
            &WAITING,
            Err(16)
        )?
    );
    let end = Ok((HashValue::Md5(MD5_OF_MESSAGE_DIGEST), "mes", "est"));
    assert!(rt; go(alloc, ("message digest", 4, 3), md5, &HANDED_BACK, end)?);
    Ok(())
}

// The digest of a million letters a (FIPS 180-4's example).
const SHA256_OF_A_MILLION: [u8; 32] = [
    0xcd, 0xc7, 0x6e, 0x5c, 0x99, 0x14, 0xfb, 0x92, 0x81, 0xa1, 0xc7, 0xe2, 0x84, 0xd7, 0x3e, 0x67,
    0xf1, 0x80, 0x9a, 0x48, 0xa4, 0x97, 0x20, 0x0e, 0x04, 0x6d, 0x39, 0xcc, 0xc7, 0x11, 0x2c, 0xd0,
];

// Each letter is a piece. (tests/program has longer pieces.)
fn has_a_million(alloc: Global) -> Result<bool, AllocError> {
    let mut assembly = Assembly::new(alloc, 1_000_000, 1, 5, HashKind::Sha256)?;
    let mut right = true;
    for index in 0..1_000_000u32 {
        match put(&mut assembly, index, Blob::copy_of(alloc, b"a")?) {
            Ok(()) => right &= settle(&mut assembly).len() == 1,
            Err(_) => right = false,
        }
    }
    let end = Ok((HashValue::Sha256(SHA256_OF_A_MILLION), "aaaaa", "aaaaa"));
    Ok(right && ends(&mut assembly, 1_000_000, end))
}

#[test]
fn million_in_pieces(rt: HostRuntime) -> Result<(), Fail> {
    assert!(rt; has_a_million(rt.alloc())?);
    Ok(())
}
