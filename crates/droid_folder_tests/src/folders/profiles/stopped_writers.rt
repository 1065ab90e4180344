//! Profiles whose CSV or list can't be written to its end. (tests/program/folders/profile_output.py has writers that
//! stop in the walk.)

use crate::folders::profiles::small_trees::{LIST, ROWS, TEXT, written};
use droid_frame::HashKind;
use droid_profile::CsvFault;
use droid_pronom::Registry;
use droid_testing::SAMPLE;
use std::alloc::Global;
use std::test::Fail;

/// Returns whether the CSV ends after this many bytes if its writer stops there, and nothing of the list is written.
fn csv_ends_after(alloc: Global, registry: &Registry, room: usize) -> bool {
    let rooms = (room, usize::MAX);
    let got = written(alloc, registry, &ROWS, HashKind::Md5, rooms);
    got.ended == Err(CsvFault::Csv)
        && Some(got.csv.stream.taken()) == TEXT.as_bytes().get(..room)
        && got.list.stream.taken().is_empty()
}

/// Returns whether the list ends after this many bytes if its writer stops there, and the CSV is complete.
fn list_ends_after(alloc: Global, registry: &Registry, room: usize) -> bool {
    let rooms = (usize::MAX, room);
    let got = written(alloc, registry, &ROWS, HashKind::Md5, rooms);
    got.ended == Err(CsvFault::Manifest)
        && got.csv.stream.taken() == TEXT.as_bytes()
        && Some(got.list.stream.taken()) == LIST.as_bytes().get(..room)
}

/// The CSV's writer stops after each byte in turn. It is not asked again.
#[test]
fn csv_stops_after_each_byte(rt: HostRuntime) -> Result<(), Fail> {
    let alloc = rt.alloc();
    let registry = Registry::parse(alloc, SAMPLE.as_bytes())?;
    for room in 0..TEXT.len() {
        assert!(rt; csv_ends_after(alloc, &registry, room), "{room}");
    }
    Ok(())
}

/// The list's writer stops after each byte in turn.
#[test]
fn list_stops_after_each_byte(rt: HostRuntime) -> Result<(), Fail> {
    let alloc = rt.alloc();
    let registry = Registry::parse(alloc, SAMPLE.as_bytes())?;
    for room in 0..LIST.len() {
        assert!(rt; list_ends_after(alloc, &registry, room), "{room}");
    }
    Ok(())
}
