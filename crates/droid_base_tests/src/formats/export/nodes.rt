//! Records to export, modified at moment 0.

ghost use Rattle.std.specs.Prelude.{◌≡◌, IfOk, pos};
ghost use Rattle.droid_export.specs.Moments.{IsMoment};

use droid_frame::{HashValue, Method, NodeKind, Record, Text, Texts};
use std::alloc::{AllocError, Global};

/// The MD5 of no bytes (RFC 1321, its test suite).
const MD5_OF_NOTHING: [u8; 16] = [
    0xd4, 0x1d, 0x8c, 0xd9, 0x8f, 0x00, 0xb2, 0x04, 0xe9, 0x80, 0x09, 0x98, 0xec, 0xf8, 0x42, 0x7e,
];

/// A folder at the top.
pub fn folder(alloc: Global, id: u32, name: &str) -> Result<Record, AllocError>
    ensures { IfOk result (λ it. it.modified ≡ pos 0) }
{
    Ok(Record {
        id,
        parent: 0,
        path: Text::from(format!(in alloc; "/{name}")?),
        name: Text::copy_of(alloc, name)?,
        kind: NodeKind::Folder,
        size: 0,
        modified: 0,
        method: Method::Unidentified,
        mismatch: false,
        hash: HashValue::Nothing,
        puids: Texts::new(alloc),
    })
}

/// A file at the top with the MD5 of no bytes. Signatures found its formats, if it has some.
pub fn file(
    alloc: Global,
    id: u32,
    name: &str,
    size: u64,
    puids: &[&str],
) -> Result<Record, AllocError>
    ensures { IfOk result (λ it. it.modified ≡ pos 0) }
{
    let mut record = folder(alloc, id, name)?;
    record.kind = NodeKind::File;
    record.size = size;
    record.hash = HashValue::Md5(MD5_OF_NOTHING);
    record.puids = texts(alloc, puids)?;
    if !puids.is_empty() {
        record.method = Method::Signature;
    }
    Ok(record)
}

/// The texts as a list.
pub fn texts(alloc: Global, items: &[&str]) -> Result<Texts, AllocError> {
    let mut texts = Texts::new(alloc);
    for item in items {
        texts.push(Text::copy_of(alloc, item)?)?;
    }
    Ok(texts)
}
