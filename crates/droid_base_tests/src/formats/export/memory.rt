// Each test also passes if any one allocation is refused: tests/memory refuses each in turn.
//! Out of memory: a call that fails for it works when it is called again.

use crate::formats::export::nodes::texts;
use crate::formats::export::row_texts::three;
use droid_export::{export, export_text, moment_text, uri};
use droid_frame::{Criteria, Criterion, Filter, HashKind, NodeKind, Noted};
use droid_pronom::Registry;
use droid_testing::SAMPLE;
use std::alloc::{AllocError, Global};
use std::test::Fail;

/// Returns whether URIs and a moment are right.
fn are_written(alloc: Global) -> Result<bool, AllocError> {
    Ok(
        uri(alloc, "/in", NodeKind::Folder)?.as_str() == "file:/in/"
            && uri(alloc, "/a b", NodeKind::File)?.as_str() == "file:/a%20b"
            && uri(alloc, "", NodeKind::Folder)?.as_str() == "file:/"
            && uri(alloc, "/-._~/", NodeKind::File)?.as_str() == "file:/-._~/"
            && moment_text(alloc, 0)?.as_str() == "1970-01-01T00:00:00",
    )
}

#[test]
fn each_growth_of_small_texts(rt: HostRuntime) -> Result<(), Fail> {
    let alloc = rt.alloc();
    assert!(rt; are_written(alloc).or_else(|_| are_written(alloc))?);
    Ok(())
}

/// Makes a filter that each of the odd records meets by another criterion.
fn filter_with_lists(alloc: Global) -> Result<Filter, AllocError> {
    let mut criteria = Criteria::new(alloc);
    criteria.push(Criterion::KindIs(NodeKind::Folder))?;
    criteria.push(Criterion::ExtIn(texts(alloc, &["x", "ABC"])?))?;
    criteria.push(Criterion::PuidIn(texts(alloc, &["dev/9"])?))?;
    Ok(Filter {
        all: false,
        criteria,
    })
}

/// Returns whether the writer gets the text of the records. It is a buffer, so running out of memory may also be its
/// own error.
fn is_written(alloc: Global, registry: &Registry) -> Result<bool, AllocError> {
    let records = three(alloc)?;
    let filter = filter_with_lists(alloc)?;
    let text = export_text(alloc, &records, registry, &filter, HashKind::Md5)?;
    let mut writer = Noted::new(Vec::new(alloc));
    match export(
        alloc,
        &records,
        registry,
        &filter,
        HashKind::Md5,
        &mut writer,
    ) {
        Ok(()) => Ok(writer.stream.as_slice() == text.as_slice()),
        Err(_) => Err(AllocError),
    }
}

#[test]
fn each_growth_of_an_export(rt: HostRuntime) -> Result<(), Fail> {
    let alloc = rt.alloc();
    let file = SAMPLE.as_bytes();
    let registry = Registry::parse(alloc, file).or_else(|_| Registry::parse(alloc, file))?;
    assert!(rt; is_written(alloc, &registry).or_else(|_| is_written(alloc, &registry))?);
    Ok(())
}
