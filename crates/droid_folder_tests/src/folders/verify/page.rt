//! The examples of the pages README.md of droid_cmd_verify and droid_cmd_profile.

use crate::folders::memory_tree::MemoryTree;
use crate::folders::noting_watcher::NotingWatcher;
use crate::folders::verify::changed_tree::ROWS;
use droid_cmd_profile::{PageTexts, page_of_csv};
use droid_cmd_verify::{ItemKeeper, Measure, VerifyEnding, read_lists, verify_tree};
use droid_frame::{HashKind, Noted};
use droid_profile::{Options, Profiler};
use droid_pronom::Registry;
use droid_terminal::Recorder;
use droid_testing::SAMPLE;
use std::test::Fail;

/// How files are searched for formats. The list says which hash they get.
const OPTIONS: Options = Options {
    scan_limit: 64,
    match_all: false,
    hash: HashKind::Nothing,
};

#[test]
fn example_of_verify(rt: HostRuntime) -> Result<(), Fail> {
    let alloc = rt.alloc();
    let registry = Registry::parse(alloc, SAMPLE.as_bytes())?;
    // the tree and the watcher are a test's: any tree, and a watcher that prints nothing
    let list = b"f97c5d29941bfb1b2fdab0874906ab82  one.txt\n";
    let Ok(lists) = read_lists(alloc, false, Measure::Hashes, false, list) else {
        return Err(Fail::from("no list"));
    };
    let mut profiler = Profiler {
        alloc,
        tree: MemoryTree::of(&ROWS),
        watcher: Recorder::new(alloc, NotingWatcher::new(alloc)),
        recipient: ItemKeeper::new(alloc, false, false),
    };
    let mut output = Noted::new(Vec::new(alloc));
    let verified = verify_tree(&mut profiler, &mut output, &registry, OPTIONS, lists);
    assert!(rt; matches!(&verified.ending, VerifyEnding::Differing));
    Ok(())
}

/// A profile of one file.
const CSV: &str =
    "ID,PARENT_ID,URI,FILE_PATH,NAME,METHOD,STATUS,SIZE,TYPE,EXT,LAST_MODIFIED,EXTENSION_MISMATCH,MD5_HASH,\
    FORMAT_COUNT,PUID,MIME_TYPE,FORMAT_NAME,FORMAT_VERSION\n\
1,,file:/a.txt,/a.txt,a.txt,,Done,3,File,txt,1970-01-01T00:00:00,false,900150983cd24fb0d6963f7d28e17f72,0,,,,\n";

#[test]
fn example_of_reports(rt: HostRuntime) -> Result<(), Fail> {
    let alloc = rt.alloc();
    // the profile of one file is in `CSV`
    let texts = PageTexts {
        title: "Deposit",
        moment: "2026-11-28T20:00:00",
        name: "deposit.csv",
        registry: None,
    };
    let Ok(page) = page_of_csv(alloc, CSV.as_bytes(), texts) else {
        return Err(Fail::from("no profile"));
    };
    assert!(rt; page.as_str().contains("<title>Deposit</title>"));
    Ok(())
}
