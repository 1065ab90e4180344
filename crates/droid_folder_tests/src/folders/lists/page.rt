//! The examples of the pages README.md of droid_fixity and droid_lists.

use droid_fixity::{Difference, Inventory, compare};
use droid_frame::{Blob, HashValue, Item, NodeKind};
use droid_lists::read_list;
use std::test::Fail;

/// The names of the columns of a profile with MD5 hashes.
const NAMES: &str =
    "ID,PARENT_ID,URI,FILE_PATH,NAME,METHOD,STATUS,SIZE,TYPE,EXT,LAST_MODIFIED,EXTENSION_MISMATCH,MD5_HASH,\
    FORMAT_COUNT,PUID,MIME_TYPE,FORMAT_NAME,FORMAT_VERSION\n";

#[test]
fn example_of_fixity(rt: HostRuntime) -> Result<(), Fail> {
    let alloc = rt.alloc();
    let path = Blob::copy_of(alloc, b"/letter.txt")?;
    let mut letter = Vec::new(alloc);
    letter.push(Item {
        path,
        kind: NodeKind::File,
        length: Some(5),
        modified: None,
        hash: HashValue::Nothing,
    })?;
    if let Ok(listed) = Inventory::of(letter) {
        if let Ok(found) = Inventory::of(Vec::new(alloc)) {
            let report = compare(alloc, &listed, &found)?;
            assert!(rt;
                report.len() == 1 && matches!(report[0], Difference::Missing { listed: 0 })
            );
        }
    }
    Ok(())
}

#[test]
fn example_of_lists(rt: HostRuntime) -> Result<(), Fail> {
    let alloc = rt.alloc();
    let csv = format!(in alloc;
        "{NAMES}1,,u,/letter.txt,letter.txt,,Done,5,File,txt,,false,,0,,,,\n"
    )?;
    if let Ok((listed, _)) = read_list(alloc, false, false, csv.as_bytes()) {
        let items = listed.items.as_slice();
        assert!(rt; items.len() == 1 && items[0].length == Some(5));
    }
    Ok(())
}
