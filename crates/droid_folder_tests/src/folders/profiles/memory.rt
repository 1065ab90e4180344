// The test also passes if any one allocation is refused: tests/memory refuses each in turn.
//! A profile while memory runs out.

use crate::folders::profiles::small_trees::{LIST, ROWS, TEXT, WHOLE, WrittenProfile, written};
use droid_frame::HashKind;
use droid_profile::CsvFault;
use droid_pronom::Registry;
use droid_testing::SAMPLE;
use std::test::Fail;

/// The length of the first row.
const HEADER: usize = 193;

/// Writes the profile again if memory ran out.
#[test]
fn each_allocation(rt: HostRuntime) -> Result<(), Fail> {
    let alloc = rt.alloc();
    let file = SAMPLE.as_bytes();
    let registry = Registry::parse(alloc, file).or_else(|_| Registry::parse(alloc, file))?;
    let mut got = written(alloc, &registry, &ROWS, HashKind::Md5, WHOLE);
    assert!(rt; is_front(&got));
    if got.ended.is_err() {
        got = written(alloc, &registry, &ROWS, HashKind::Md5, WHOLE);
    }
    assert!(rt; got.ended.is_ok() && is_front(&got));
    Ok(())
}

/// Returns whether what was written is as the result says: all, whole rows and lines of the first records, or first
/// bytes.
pub fn is_front(got: &WrittenProfile) -> bool {
    let text = got.csv.stream.taken();
    let list = got.list.stream.taken();
    if !TEXT.as_bytes().starts_with(text) || !LIST.as_bytes().starts_with(list) {
        return false;
    }
    match got.ended {
        Ok(whole) => whole && text.len() == TEXT.len() && list.len() == LIST.len(),
        Err(CsvFault::Memory) => {
            text.is_empty() && list.is_empty() || text.len() >= HEADER && text.ends_with(b"\n")
        }
        Err(CsvFault::Csv) => list.is_empty(),
        Err(CsvFault::Manifest) => text.len() == TEXT.len(),
        Err(CsvFault::Numbers) => false,
    }
}
