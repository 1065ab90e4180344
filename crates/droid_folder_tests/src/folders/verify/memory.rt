// The test also passes if any one allocation is refused: tests/memory refuses each in turn.
//! Comparisons of a tree with a list while memory runs out.

use crate::folders::memory_tree::MemoryTree;
use crate::folders::noting_watcher::NotingWatcher;
use crate::folders::verify::changed_tree::{LIST, QUICK_REPORT, REPORT, ROWS};
use droid_arguments::VerifyOptions;
use droid_cmd_verify::{Measure, VerifyEnding, read_lists, verify_as};
use droid_frame::Noted;
use droid_pronom::Registry;
use droid_testing::SAMPLE;
use std::alloc::Global;

/// Compares again if memory ran out.
#[test]
fn each_allocation(rt: HostRuntime) {
    let alloc = rt.alloc();
    for quick in [false, true] {
        let right = match compared(alloc, quick) {
            None => compared(alloc, quick),
            right => right,
        };
        assert!(rt; right == Some(true));
    }
}

fn compared(alloc: Global, quick: bool) -> Option<bool> {
    match Registry::parse(alloc, SAMPLE.as_bytes()) {
        Ok(registry) => compared_by(alloc, &registry, quick),
        Err(_) => None,
    }
}

/// Returns whether the report is right, or `None` if memory ran out, and the report is a front of the right one.
fn compared_by(alloc: Global, registry: &Registry, quick: bool) -> Option<bool> {
    let how = if quick {
        Measure::Moments
    } else {
        Measure::Hashes
    };
    let lists = match read_lists(alloc, false, how, !quick, LIST.as_bytes()) {
        Ok(lists) => lists,
        Err(VerifyEnding::NoMemory) => return None,
        Err(_) => return Some(false),
    };
    let options = VerifyOptions {
        folder: "",
        against: "",
        quick,
        sizes_only: false,
        identify: !quick,
        registry: None,
        limit: 64,
        match_all: false,
        quiet: true,
    };
    let tree = MemoryTree::of(&ROWS);
    let watcher = NotingWatcher::new(alloc);
    let mut output = Noted::new(Vec::new(alloc));
    let verified = verify_as(alloc, tree, watcher, &mut output, registry, options, lists);
    let due = if quick { QUICK_REPORT } else { REPORT };
    let text = output.stream.as_slice();
    match &verified.ending {
        VerifyEnding::Differing => Some(text == due.as_bytes()),
        VerifyEnding::NoMemory if text.is_empty() => None,
        VerifyEnding::Unwritten if due.as_bytes().starts_with(text) => None,
        _ => Some(false),
    }
}
