//! Commands that are committed once their conditions are looked up.

ghost use Rattle.std.specs.Prelude.{◌≡◌, ◌+◌, ◌<◌, ◌^◌, IsTrue, None, length, OnOk};
ghost use Rattle.std.specs.List.{AllByRecursion};
ghost use Rattle.droid_store.specs.Changes.{IsNext, IsOfKind, IsOpen, IsWord};
ghost use Rattle.droid_store.specs.Rows.{child_at, reply_for};

use crate::store::rows::{Change, Kept, Node, Options};
use crate::store::words::words;
use droid_frame::{Blob, HashValue, Texts};
use droid_store::{Entry, NodeState, Store, StoreFault};
use std::alloc::Global;

/// The error where a condition does not hold. The store itself only fails for memory.
const WRONG: StoreFault = StoreFault::Refused;

/// Fails unless this holds.
pub fn expect(holds: bool) -> Result<(), StoreFault>
    ensures { OnOk result (IsTrue holds) }
{
    if holds { Ok(()) } else { Err(WRONG) }
}

/// Commits the command: this reply, and what it changes.
pub fn commit(
    alloc: Global,
    store: &mut Store,
    kept: &Kept<'_>,
    change: &Change<'_>,
) -> Result<(), StoreFault> {
    let (client, number, version, byte, kind, body) = *kept;
    let entry = Entry {
        client,
        number,
        version,
        mark: [byte; 16],
        kind,
        body: Blob::copy_of(alloc, body)?,
    };
    match change {
        Change::Profile(profile, options) => commit_profile(store, &entry, *profile, options),
        Change::Node(node) => commit_node(store, &entry, node),
        Change::Piece => {
            expect_new(store, &entry)?;
            store.commit_piece(&entry)
        }
        Change::Finish(node) => {
            let (_, _, (_, _, _, identifiers)) = *node;
            let puids = words(alloc, identifiers)?;
            commit_found(store, &entry, node, &puids)
        }
        Change::Abandon(node) => commit_abandon(store, &entry, node),
    }
}

fn commit_profile(
    store: &mut Store,
    entry: &Entry,
    profile: u32,
    options: &Options,
) -> Result<(), StoreFault> {
    let (scan_limit, match_all, hash) = *options;
    expect_new(store, entry)?;
    expect_next_profile(store, profile)?;
    store.commit_profile(entry, profile, scan_limit, match_all, hash)
}

fn commit_node(store: &mut Store, entry: &Entry, node: &Node<'_>) -> Result<(), StoreFault> {
    let ((profile, id, parent, modified, name, path), (size, piece_size), _) = *node;
    expect_new(store, entry)?;
    expect_place(store, profile, id, parent, name)?;
    if piece_size == 0 {
        return store.commit_folder(entry, profile, id, parent, modified, name, path);
    }
    expect(size < 1 << 63)?;
    store.commit_file(
        entry, profile, id, parent, modified, size, piece_size, name, path,
    )
}

fn commit_found(
    store: &mut Store,
    entry: &Entry,
    node: &Node<'_>,
    puids: &Texts,
) -> Result<(), StoreFault>
    requires { AllByRecursion IsWord puids.now }
{
    let ((profile, file, ..), _, (method, mismatch, digest, _)) = *node;
    let hash = hash_of(digest);
    expect_new(store, entry)?;
    expect_open(store, profile, file)?;
    expect_kind(store, profile, hash)?;
    store.commit_finish(entry, profile, file, method, mismatch, hash, puids)
}

fn commit_abandon(store: &mut Store, entry: &Entry, node: &Node<'_>) -> Result<(), StoreFault> {
    let ((profile, file, ..), ..) = *node;
    expect_new(store, entry)?;
    expect_open(store, profile, file)?;
    store.commit_abandon(entry, profile, file)
}

// The hash with these bytes: none, the 16 of an MD5, or the 32 of a SHA-256.
fn hash_of(digest: &[u8]) -> HashValue {
    if let Ok(bytes) = <[u8; 16]>::try_from(digest) {
        return HashValue::Md5(bytes);
    }
    match <[u8; 32]>::try_from(digest) {
        Ok(bytes) => HashValue::Sha256(bytes),
        Err(_) => HashValue::Nothing,
    }
}

// ---- the conditions

// No reply is kept under the entry's client and number.
fn expect_new(store: &mut Store, entry: &Entry) -> Result<(), StoreFault>
    ensures same { store.new ≡ store.old }
    ensures new { OnOk result (reply_for entry.now.client entry.now.number store.old ≡ None) }
    ensures small { OnOk result (entry.now.number < 2 ^ 63) }
{
    expect(entry.number < 1 << 63)?;
    let kept = store.reply_of(entry.client, entry.number)?;
    expect(kept.is_none())
}

// The profile's number is the next one.
fn expect_next_profile(store: &mut Store, profile: u32) -> Result<(), StoreFault>
    ensures same { store.new ≡ store.old }
    ensures next { OnOk result (profile ≡ length store.old.profiles + 1) }
{
    let counts = store.counts()?;
    let is_next = counts.profiles.checked_add(1) == Some(u64::from(profile));
    expect(is_next)
}

// The node's number is the next one of its profile, and no node of its parent has its name.
fn expect_place(
    store: &mut Store,
    profile: u32,
    id: u32,
    parent: u32,
    name: &str,
) -> Result<(), StoreFault>
    ensures same { store.new ≡ store.old }
    ensures next { OnOk result (IsNext profile id store.old) }
    ensures free { OnOk result (child_at profile parent name.now store.old ≡ None) }
{
    let Some(row) = store.profile(profile)? else {
        return Err(WRONG);
    };
    let is_next = row.nodes.checked_add(1) == Some(id);
    expect(is_next)?;
    let found = store.child(profile, parent, name)?;
    expect(found.is_none())
}

// The node is an unfinished file.
fn expect_open(store: &mut Store, profile: u32, file: u32) -> Result<(), StoreFault>
    ensures same { store.new ≡ store.old }
    ensures open { OnOk result (IsOpen profile file store.old) }
{
    let Some(row) = store.node(profile, file)? else {
        return Err(WRONG);
    };
    expect(row.state == NodeState::Unfinished)
}

// The hash is of the kind of the profile's files.
fn expect_kind(store: &mut Store, profile: u32, hash: HashValue) -> Result<(), StoreFault>
    ensures same { store.new ≡ store.old }
    ensures kind { OnOk result (IsOfKind profile hash store.old) }
{
    let Some(row) = store.profile(profile)? else {
        return Err(WRONG);
    };
    expect(row.hash == hash.kind())
}
