//! The example of the page README.md of droid_profile.

use crate::folders::memory_tree::MemoryTree;
use crate::folders::noting_watcher::NotingWatcher;
use crate::folders::profiles::small_trees::{Memory, ROWS, memory};
use droid_frame::HashKind;
use droid_profile::{CsvRecipient, Options, Profiler, profile};
use droid_pronom::Registry;
use droid_testing::SAMPLE;
use std::test::Fail;

const OPTIONS: Options = Options {
    scan_limit: 65_536,
    match_all: false,
    hash: HashKind::Md5,
};

#[test]
fn example_of_the_page(rt: HostRuntime) -> Result<(), Fail> {
    let alloc = rt.alloc();
    let registry = Registry::parse(alloc, SAMPLE.as_bytes())?;
    // three files in two folders, all of it in memory
    let no_list: Option<Memory> = None;
    let mut profiler = Profiler {
        alloc,
        tree: MemoryTree::of(&ROWS),
        watcher: NotingWatcher::new(alloc),
        recipient: CsvRecipient::new(alloc, &registry, memory(alloc), no_list),
    };
    let whole = profile(&mut profiler, &registry, OPTIONS);
    assert!(rt; matches!(whole, Ok(true)) && profiler.watcher.files == 3);
    Ok(())
}
