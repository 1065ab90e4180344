//! Values: copies, lists and numbers; and the texts of faults.

use droid_frame::{
    Blob, Criteria, Criterion, Filter, FrameFault, HashKind, HashValue, Limit, Method, NodeKind,
    Record, Refusal, Text, Texts, WriteFault,
};
use std::alloc::{AllocError, Global};
use std::fmt::Display;
use std::test::Fail;

/// The MD5 of no bytes (RFC 1321, its test suite).
const MD5_OF_NOTHING: [u8; 16] = [
    0xd4, 0x1d, 0x8c, 0xd9, 0x8f, 0, 0xb2, 0x04, 0xe9, 0x80, 0x09, 0x98, 0xec, 0xf8, 0x42, 0x7e,
];

fn one_text(alloc: Global, text: &str) -> Result<Texts, AllocError> {
    let mut texts = Texts::new(alloc);
    texts.push(Text::copy_of(alloc, text)?)?;
    Ok(texts)
}

fn are_texts(alloc: Global) -> Result<bool, AllocError> {
    let copy = one_text(alloc, "dev/1")?.try_clone(alloc)?;
    let first = copy.get(0).is_some_and(|text| text.len() == 5);
    let counted = copy.len() == 1 && copy.as_slice().len() == 1 && copy.get(1).is_none();
    Ok(first && counted && Texts::new(alloc).is_empty())
}

fn are_bytes(alloc: Global) -> Result<bool, AllocError> {
    let blob = Blob::copy_of(alloc, b"abc")?.try_clone(alloc)?;
    let counted = blob.len() == 3 && !blob.is_empty();
    let text = Text::copy_of(alloc, "abc")?.try_clone(alloc)?;
    Ok(
        counted
            && Blob::from(blob.into_vec()).as_slice() == b"abc".as_slice()
            && Text::from(text.into_string()).as_str() == "abc",
    )
}

fn are_criteria(alloc: Global) -> Result<bool, AllocError> {
    let mut criteria = Criteria::new(alloc);
    let none = criteria.is_empty();
    criteria.push(Criterion::MismatchIs(true))?;
    let filter = Filter {
        all: true,
        criteria,
    };
    let filter = filter.try_clone(alloc)?;
    let copy = filter.criteria.try_clone(alloc)?;
    let first = matches!(copy.get(0), Some(Criterion::MismatchIs(true)));
    let counted = copy.len() == 1 && !copy.is_empty() && copy.as_slice().len() == 1;
    Ok(none && filter.all && first && counted && copy.get(1).is_none())
}

fn is_record(alloc: Global) -> Result<bool, AllocError> {
    let record = Record {
        id: 2,
        parent: 1,
        path: Text::copy_of(alloc, "/in/a.txt")?,
        name: Text::copy_of(alloc, "a.txt")?,
        kind: NodeKind::File,
        size: 3,
        modified: -1,
        method: Method::Extension,
        mismatch: true,
        hash: HashValue::Md5(MD5_OF_NOTHING),
        puids: one_text(alloc, "dev/4")?,
    };
    let copy = record.try_clone(alloc)?;
    let texts = copy.path.as_str() == "/in/a.txt" && copy.name.as_str() == "a.txt";
    let puid = copy
        .puids
        .get(0)
        .is_some_and(|puid| puid.as_str() == "dev/4");
    Ok(
        texts
            && puid
            && (copy.id, copy.parent, copy.size, copy.modified) == (2, 1, 3, -1)
            && (copy.kind.number(), copy.method.number()) == (0, 2)
            && copy.mismatch
            && copy.hash == HashValue::Md5(MD5_OF_NOTHING)
            && copy.puids.len() == 1,
    )
}

#[test]
fn copies(rt: HostRuntime) -> Result<(), Fail> {
    let alloc = rt.alloc();
    assert!(rt;
        are_texts(alloc)? && are_bytes(alloc)? && are_criteria(alloc)? && is_record(alloc)?
    );
    Ok(())
}

fn are_numbers() -> bool {
    Refusal::LimitReached(Limit::Nodes).number() == 17
        && Limit::Nodes.number() == 2
        && Method::Extension.number() == 2
        && NodeKind::Folder.number() == 1
        && HashKind::Nothing.number() == 0
        && HashKind::Md5.number() == 1
        && HashKind::Sha256.number() == 2
}

fn are_hashes() -> bool {
    HashValue::Nothing.kind().number() == 0
        && HashValue::Md5([0; 16]).kind().number() == 1
        && HashValue::Sha256([0; 32]).kind().number() == 2
        && HashValue::Nothing.as_slice().is_empty()
        && HashValue::Md5([7; 16]).as_slice() == [7; 16].as_slice()
        && HashValue::Sha256([9; 32]).as_slice() == [9; 32].as_slice()
}

#[test]
fn numbers(rt: HostRuntime) {
    assert!(rt; are_numbers() && are_hashes());
}

const FRAME_FAULTS: [(FrameFault, &str); 5] = [
    (FrameFault::Truncated, "the stream ends within a frame"),
    (
        FrameFault::BadVersion,
        "the version of a frame is neither 1 nor 2",
    ),
    (
        FrameFault::TooLong,
        "the body of a frame is longer than its version allows",
    ),
    (FrameFault::Memory, "out of memory"),
    (FrameFault::Read, "the stream could not be read"),
];

const WRITE_FAULT: [(WriteFault, &str); 1] = [(
    WriteFault { written: 7 },
    "the output could not be written past its first 7 bytes",
)];

#[test]
fn faults(rt: HostRuntime) -> Result<(), Fail> {
    let alloc = rt.alloc();
    assert!(rt; say(alloc, &FRAME_FAULTS)? && say(alloc, &WRITE_FAULT)?);
    Ok(())
}

/// Returns whether each value is printed as its text.
fn say<T: Display>(alloc: Global, rows: &[(T, &str)]) -> Result<bool, Fail> {
    let mut right = true;
    for (value, text) in rows {
        right &= format!(in alloc; "{value}")?.as_str() == *text;
    }
    Ok(right)
}
