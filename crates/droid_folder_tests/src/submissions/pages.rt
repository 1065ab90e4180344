//! The examples of crates/droid_upload/README.md and crates/droid_remote/README.md, and small runs of what they stand
//! on: hashes, a tree, one file. The tree and the service of these runs are in memory.

use crate::submissions::page_service::PageService;
use crate::submissions::page_tree::{PageTree, Unwatched, entry_of};
use droid_frame::{HashKind, HashValue, RunningHash, Text};
use droid_hash::RunningPuids;
use droid_remote::{Sender, export, submit};
use droid_tree::{FolderEntry, count, name_of, read_folder};
use droid_upload::{
    Destination, Options, SubmissionFault, Upload, Uploaded, create_profile, submit_tree,
    upload_file,
};
use std::alloc::Global;
use std::test::Fail;

/// The MD5 of `abc` (RFC 1321).
const MD5_OF_ABC: [u8; 16] = [
    0x90, 0x01, 0x50, 0x98, 0x3c, 0xd2, 0x4f, 0xb0, 0xd6, 0x96, 0x3f, 0x7d, 0x28, 0xe1, 0x7f, 0x72,
];

/// The SHA-256 (FIPS 180-4) of `fmt/1` and `fmt/10`, each behind its length in eight bytes.
const DIGEST_OF_TWO: [u8; 32] = [
    0x57, 0xa8, 0x2b, 0xe0, 0x0e, 0x7e, 0x0a, 0x45, 0xa8, 0x59, 0xd7, 0x8b, 0xe3, 0x10, 0x30, 0xff,
    0x93, 0xe7, 0xca, 0xfa, 0x5b, 0xdd, 0x56, 0x95, 0x8b, 0x92, 0x65, 0x3e, 0x7e, 0x78, 0xad, 0x3b,
];

/// What the service exports of the tree, by the model in tests/program/model.
const TEXT: &str =
    "\"ID\",\"PARENT_ID\",\"URI\",\"FILE_PATH\",\"NAME\",\"METHOD\",\"STATUS\",\"SIZE\",\"TYPE\",\"EXT\",\"\
    LAST_MODIFIED\",\"EXTENSION_MISMATCH\",\"SHA256_HASH\",\"FORMAT_COUNT\",\"PUID\",\"MIME_TYPE\",\"FORMAT_NAME\",\"\
    FORMAT_VERSION\"\n\
\"1\",\"\",\"file:/a.txt\",\"/a.txt\",\"a.txt\",\"Extension\",\"Done\",\"5\",\"File\",\"txt\",\"1970-01-01T00:00:00\",\
\"false\",\"185f8db32271fe25f561a6fc938b2e264306ec304eda518007d1764826381969\",\"1\",\"dev/4\",\"text/plain\",\"\
Plain\",\"\"\n\
\"2\",\"\",\"file:/b.txt\",\"/b.txt\",\"b.txt\",\"Extension\",\"Done\",\"3\",\"File\",\"txt\",\"1970-01-01T00:00:00\",\
\"false\",\"ba7816bf8f01cfea414140de5dae2223b00361a396177a9cb410ff61f20015ad\",\"1\",\"dev/4\",\"text/plain\",\"\
Plain\",\"\"\n";

const OPTIONS: Options = Options {
    scan_limit: 65_536,
    match_all: false,
    hash: HashKind::Sha256,
    piece_size: 4,
    check: false,
};

/// All that a run works with.
type Run = Upload<PageTree, Sender<PageService>, Unwatched>;

/// Makes a run over the tree. The submission's name is the empty one.
fn run_over(alloc: Global) -> Run {
    let name = Text::from(String::new(alloc));
    Upload {
        alloc,
        tree: PageTree,
        client: Sender::new(alloc, PageService::new(alloc), 7, name),
        watcher: Unwatched,
    }
}

#[test]
fn hash(rt: HostRuntime) {
    let mut running = RunningHash::of(HashKind::Md5);
    running.update(b"a");
    running.update(b"bc");
    let found: HashValue = running.finish();
    assert!(rt; found == HashValue::Md5(MD5_OF_ABC));
}

#[test]
fn formats(rt: HostRuntime) {
    let mut running = RunningPuids::new();
    running.add(b"fmt/1");
    running.add(b"fmt/10");
    assert!(rt; running.finish() == HashValue::Sha256(DIGEST_OF_TWO));
}

#[test]
fn tree(rt: HostRuntime) {
    let alloc = rt.alloc();
    let mut tree = PageTree;
    let is_counted = match count(alloc, &mut tree, 100_000) {
        Ok(counted) => (counted.files == 2) & (counted.bytes == 8),
        Err(_) => false,
    };
    let entries = match read_folder(alloc, &mut tree, "") {
        Ok(Ok(listing)) => listing.entries.len(),
        _ => 0,
    };
    assert!(rt; is_counted & (entries == 2));
}

/// Returns whether a file is taken.
fn takes(upload: &mut Run, entry: &FolderEntry) -> Result<bool, SubmissionFault> {
    let Some(name) = name_of(entry) else {
        return Ok(false);
    };
    let profile = create_profile(upload, 65_536, false, HashKind::Sha256)?;
    let into = Destination {
        profile,
        folder: 0,
        piece_size: 65_536,
        hash: HashKind::Sha256,
        check: false,
    };
    let uploaded = upload_file(upload, into, "/a.txt", name, entry)?;
    Ok(matches!(&uploaded, Uploaded::Taken(_)))
}

#[test]
fn upload(rt: HostRuntime) -> Result<(), Fail> {
    let alloc = rt.alloc();
    let entry = entry_of(alloc, "a.txt", "Hello", 0)?;
    let mut upload = run_over(alloc);
    let taken = takes(&mut upload, &entry);
    assert!(rt; matches!(taken, Ok(true)));
    Ok(())
}

#[test]
fn example_of_uploads(rt: HostRuntime) -> Result<(), Fail> {
    let alloc = rt.alloc();
    // a tree of two files, and the client of a service in memory
    let mut upload = run_over(alloc);
    let Ok(submitted) = submit_tree(&mut upload, OPTIONS) else {
        return Err("the tree was not submitted".into());
    };
    assert!(rt; submitted.whole & (submitted.nodes.len() == 2));
    Ok(())
}

#[test]
fn example_of_submissions(rt: HostRuntime) -> Result<(), Fail> {
    let alloc = rt.alloc();
    let mut csv = Vec::new(alloc);
    // a tree of two files, and a `Sender` over a connection to a service in memory
    let mut upload = run_over(alloc);
    let Ok(submitted) = submit(&mut upload, OPTIONS) else {
        return Err("the tree was not submitted".into());
    };
    let is_one = export(&mut upload.client, submitted.profile, &mut csv);
    assert!(rt; submitted.whole & matches!(is_one, Ok(true)));
    assert!(rt; csv.as_slice() == TEXT.as_bytes());
    Ok(())
}
