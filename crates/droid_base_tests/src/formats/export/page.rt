//! The example of crates/droid_export/README.md.

use crate::formats::export::nodes::{file, folder};
use droid_export::export_text;
use droid_frame::{Criteria, Criterion, Filter, HashKind, NodeKind};
use droid_pronom::Registry;
use droid_testing::SAMPLE;
use std::test::Fail;

#[test]
fn example_of_the_page(rt: HostRuntime) -> Result<(), Fail> {
    let alloc = rt.alloc();
    let registry = Registry::parse(alloc, SAMPLE.as_bytes())?;
    let records = [
        folder(alloc, 1, "in")?,
        file(alloc, 2, "m.msg", 14, &["dev/1", "dev/3"])?,
    ];
    let mut criteria = Criteria::new(alloc);
    criteria.push(Criterion::KindIs(NodeKind::Folder))?;
    let filter = Filter {
        all: true,
        criteria,
    };
    let text = export_text(alloc, &records, &registry, &filter, HashKind::Md5)?;
    let text = str::from_utf8(text.as_slice())?;
    assert!(rt; text.contains("\"file:/in/\"") && !text.contains("\"file:/m.msg\""));
    Ok(())
}
