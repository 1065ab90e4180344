//! The profile of a small tree, as CSV and as a list. (The digests are those of RFC 1321's test suite.)

use crate::folders::memory_tree::{MemoryTree, Row};
use crate::folders::noting_watcher::NotingWatcher;
use crate::folders::profiles::memory::is_front;
use droid_frame::{HashKind, Noted};
use droid_profile::{CsvFault, CsvRecipient, Options, Profiler, write_profile};
use droid_pronom::Registry;
use droid_testing::{SAMPLE, STEADY, ShakyWriter, Stop};
use droid_tree::EntryKind;
use std::alloc::Global;
use std::test::Fail;

pub const ROWS: [Row; 4] = [
    ("", b"none.txt", EntryKind::File, 0, Some(b"")),
    ("", b"d", EntryKind::Folder, 0, Some(b"")),
    (
        "/d",
        b"digest.msg",
        EntryKind::File,
        14,
        Some(b"message digest"),
    ),
    ("", b"a.abc", EntryKind::File, 1, Some(b"a")),
];

pub const TEXT: &str =
    "\"ID\",\"PARENT_ID\",\"URI\",\"FILE_PATH\",\"NAME\",\"METHOD\",\"STATUS\",\"SIZE\",\"TYPE\",\"EXT\",\"\
    LAST_MODIFIED\",\"EXTENSION_MISMATCH\",\"MD5_HASH\",\"FORMAT_COUNT\",\"PUID\",\"MIME_TYPE\",\"FORMAT_NAME\",\"\
    FORMAT_VERSION\"\n\
\"1\",\"\",\"file:/a.abc\",\"/a.abc\",\"a.abc\",\"\",\"Done\",\"1\",\"File\",\"abc\",\"1970-01-01T00:00:00\",\"false\",\
\"0cc175b9c0f1b6a831c399e269772661\",\"0\",\"\",\"\",\"\",\"\"\n\
\"2\",\"\",\"file:/d/\",\"/d\",\"d\",\"\",\"Done\",\"\",\"Folder\",\"\",\"1970-01-01T00:00:00\",\"false\",\"\",\"\",\"\
\",\"\",\"\",\"\"\n\
\"3\",\"\",\"file:/none.txt\",\"/none.txt\",\"none.txt\",\"Extension\",\"Done\",\"0\",\"File\",\"txt\",\"\
1970-01-01T00:00:00\",\"false\",\"d41d8cd98f00b204e9800998ecf8427e\",\"1\",\"dev/4\",\"text/plain\",\"Plain\",\"\"\n\
\"4\",\"2\",\"file:/d/digest.msg\",\"/d/digest.msg\",\"digest.msg\",\"Signature\",\"Done\",\"14\",\"File\",\"msg\",\"\
1970-01-01T00:00:00\",\"false\",\"f96b697d7cb7938d525a2f31aaf161d0\",\"2\",\"dev/1\",\"\",\"Message\",\"1\"\n\
\"4\",\"2\",\"file:/d/digest.msg\",\"/d/digest.msg\",\"digest.msg\",\"Signature\",\"Done\",\"14\",\"File\",\"msg\",\"\
1970-01-01T00:00:00\",\"false\",\"f96b697d7cb7938d525a2f31aaf161d0\",\"2\",\"dev/3\",\"\",\"Letters\",\"\"\n";

/// What `md5sum a.abc none.txt d/digest.msg` of GNU coreutils 9.1 prints in a folder with these files.
pub const LIST: &str = "0cc175b9c0f1b6a831c399e269772661  a.abc\n\
d41d8cd98f00b204e9800998ecf8427e  none.txt\n\
f96b697d7cb7938d525a2f31aaf161d0  d/digest.msg\n";

/// A writer to memory.
pub type Memory = Noted<ShakyWriter>;

/// A profile that was written.
#[derive(Drop)]
pub struct WrittenProfile {
    pub ended: Result<bool, CsvFault>,
    pub watcher: NotingWatcher,
    pub csv: Memory,
    pub list: Memory,
}

/// Writers that do not stop.
pub const WHOLE: (usize, usize) = (usize::MAX, usize::MAX);

/// Writes the profile of a tree to writers that stop after so many bytes: the CSV's, and the list's.
pub fn written(
    alloc: Global,
    registry: &Registry,
    rows: &[Row],
    hash: HashKind,
    rooms: (usize, usize),
) -> WrittenProfile {
    let (room, room_of_list) = rooms;
    let mut profiler = Profiler {
        alloc,
        tree: MemoryTree::of(rows),
        watcher: NotingWatcher::new(alloc),
        recipient: CsvRecipient::new(
            alloc,
            registry,
            memory_of(alloc, room),
            Some(memory_of(alloc, room_of_list)),
        ),
    };
    let options = Options {
        scan_limit: 65_536,
        match_all: false,
        hash,
    };
    let ended = write_profile(&mut profiler, options);
    let Profiler {
        watcher,
        recipient,
        ..
    } = profiler;
    let CsvRecipient { csv, manifest, .. } = recipient;
    let list = match manifest {
        Some(list) => list,
        None => memory(alloc),
    };
    WrittenProfile {
        ended,
        watcher,
        csv,
        list,
    }
}

/// Makes a writer that stops after this many bytes: it fails, or takes none.
fn memory_of(alloc: Global, room: usize) -> Memory {
    let stop = if room % 2 == 0 {
        Stop::Fails
    } else {
        Stop::Ends
    };
    Noted::new(ShakyWriter::new(Vec::new(alloc), room, stop, STEADY))
}

pub fn memory(alloc: Global) -> Memory {
    memory_of(alloc, usize::MAX)
}

#[test]
fn small_tree(rt: HostRuntime) -> Result<(), Fail> {
    let alloc = rt.alloc();
    let registry = Registry::parse(alloc, SAMPLE.as_bytes())?;
    let got = written(alloc, &registry, &ROWS, HashKind::Md5, WHOLE);
    assert!(rt; got.ended == Ok(true) && is_front(&got));
    assert!(rt; got.watcher.files == 3 && got.watcher.folders == 1 && got.watcher.bytes == 15);
    Ok(())
}
