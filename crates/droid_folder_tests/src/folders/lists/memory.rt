// Each test also passes if any one allocation is refused: tests/memory refuses each in turn.
//! Out of memory: a call that fails for it works when it is called again.

use crate::folders::lists::cases::{is_reported, items};
use droid_export::{ListFault, read_profile};
use droid_fixity::{FilePair, Inventory, file_pairs};
use std::alloc::{AllocError, Global};
use std::test::Fail;

/// Returns whether a comparison is right: `/a` has another length, `/b` another moment, `/c` is now `/y`, `/e` is
/// missing, and `/z` is new.
fn is_compared(alloc: Global) -> Result<bool, AllocError> {
    is_reported(
        alloc,
        "f5515/e f5111/a f5212/b f5313/c f5414/d",
        "f6111/a f5919/z f5712/b f5313/y f5414/d",
        "c00lt11.>23.-4..+.4.",
    )
}

#[test]
fn each_growth_of_a_report(rt: HostRuntime) -> Result<(), Fail> {
    let alloc = rt.alloc();
    assert!(rt; is_compared(alloc).or_else(|_| is_compared(alloc))?);
    Ok(())
}

/// The files of both sides below: `/a`, `/b` and `/d`.
const PAIRS: [FilePair; 3] = [
    FilePair {
        listed: 0,
        found: 0,
    },
    FilePair {
        listed: 1,
        found: 1,
    },
    FilePair {
        listed: 3,
        found: 2,
    },
];

/// Returns whether the files of both sides are paired right; the folder `/e` is no file.
fn is_paired(alloc: Global) -> Result<bool, AllocError> {
    let listed = items(alloc, "d0515/e f5111/a f5212/b f5313/c f5414/d")?;
    let found = items(alloc, "f6111/a f5919/z f5712/b d0515/e f5414/d")?;
    match (Inventory::of(listed), Inventory::of(found)) {
        (Ok(listed), Ok(found)) => {
            let expected: &[FilePair] = &PAIRS;
            Ok(file_pairs(alloc, &listed, &found)?.as_slice() == expected)
        }
        _ => Ok(false),
    }
}

#[test]
fn each_growth_of_pairs(rt: HostRuntime) -> Result<(), Fail> {
    let alloc = rt.alloc();
    assert!(rt; is_paired(alloc).or_else(|_| is_paired(alloc))?);
    Ok(())
}

/// Two files, the first with two formats, and a folder.
const CSV: &str =
    "ID,PARENT_ID,URI,FILE_PATH,NAME,METHOD,STATUS,SIZE,TYPE,EXT,LAST_MODIFIED,EXTENSION_MISMATCH,MD5_HASH,\
    FORMAT_COUNT,PUID,MIME_TYPE,FORMAT_NAME,FORMAT_VERSION\n1,,u,/b,b,,Done,5,File,,2026-01-31T23:59:51,false,\
    07070707070707070707070707070731,2,fmt/1,,,\n1,,u,/b,b,,Done,5,File,,2026-01-31T23:59:51,false,\
    07070707070707070707070707070731,2,fmt/2,,,\n2,,u,/a,a,,Done,5,File,,2026-01-31T23:59:52,false,\
    07070707070707070707070707070732,0,,,,\n3,,u,/d,d,,Done,,Folder,,2026-01-31T23:59:53,false,,,,,,\n";

/// Returns whether a profile is read right.
fn is_read(alloc: Global) -> Result<bool, AllocError> {
    match read_profile(alloc, true, CSV.as_bytes()) {
        Ok(profile) => Ok(profile.items.len() == 3 && profile.formats.len() == 3),
        Err(ListFault::Memory) => Err(AllocError),
        Err(_) => Ok(false),
    }
}

#[test]
fn each_growth_of_a_list(rt: HostRuntime) -> Result<(), Fail> {
    let alloc = rt.alloc();
    assert!(rt; is_read(alloc).or_else(|_| is_read(alloc))?);
    Ok(())
}
