//! Converts rows of the database to profiles, nodes, records and replies. `column row at`, of the kit's `sqlite`, is
//! the value in that column.
//!
//! The number of a column is its place, counted from 0, in the SELECT of `statements` that returned the row, and in the
//! definition of `specs/Shown.antt` that the clause names; the prover ties them. For a row that the store wrote, only
//! `Memory` comes. A value that no such row has (another type, an unknown number, a digest of another length) is
//! `Refused`.

ghost use Rattle.std.specs.Prelude.{◌≡◌, ◌<◌, ◌^◌, List, ℕ, IfOk, IfErr, IsTrue, Some, length, pos};
ghost use Rattle.std.specs.List.{AllByRecursion};
ghost use Rattle.sqlite.specs.Order.{column};
ghost use Rattle.sqlite.specs.declared.types.Value.TheVariants.{Int, Blob as BlobValue};
ghost use Rattle.droid_frame.specs.declared.method.Method.{Method as MethodValue};
ghost use Rattle.droid_store.specs.declared.rows.Entry.{Entry as EntryValue};
ghost use Rattle.droid_store.specs.declared.rows.NodeState.{NodeState as NodeStateValue};
ghost use Rattle.droid_store.specs.declared.rows.ProfileRow.{ProfileRow as ProfileRowValue};
ghost use Rattle.droid_store.specs.Changes.{IsWord};
ghost use Rattle.droid_frame.specs.Fields.{method_number};
ghost use Rattle.droid_store.specs.Encoded.{state_number};
ghost use Rattle.droid_store.specs.Rows.{Node, hash_of, row_of, record_of, kind_of};
ghost use Rattle.droid_store.specs.Ranges.{is_hash_length, ProfileFits, NodeFits, EntryFits};
ghost use Rattle.droid_store.specs.declared.fault.StoreFault.TheVariants.{Memory};
ghost use Rattle.droid_store.specs.Shown.{shown_profile, shown_node, shown_reply};

use crate::fault::StoreFault;
use crate::hashes::{hash_of, kind_of as hash_kind_of};
use crate::identifiers::words;
use crate::rows::{Entry, NodeRow, NodeState, ProfileRow};
use droid_frame::{Blob, HashKind, HashValue, Method, NodeKind, Record, Text, Texts};
use sqlite::Row;
use std::alloc::Global;

/// Reads the row of a profile, as `FIND_PROFILE` selects it.
pub(crate) fn profile_of(row: &Row) -> Result<ProfileRow, StoreFault>
    ensures read { IfOk result (λ read. (p : ProfileRowValue) → row.now ≡ shown_profile p → read ≡ p) }
    ensures memory { (p : ProfileRowValue) → row.now ≡ shown_profile p → ProfileFits p
        → IfErr result (λ fault. fault ≡ Memory) }
{
    let scan_limit = row.get(0)?;
    let match_all = row.get(1)?;
    let nodes = row.get(2)?;
    let hash = hash_kind_column(row)?;
    Ok(ProfileRow {
        scan_limit,
        match_all,
        nodes,
        hash,
    })
}

/// Reads the column of a profile's hash, the kind that its files get.
fn hash_kind_column(row: &Row) -> Result<HashKind, StoreFault>
    ensures read { IfOk result (λ read. (p : ProfileRowValue) → row.now ≡ shown_profile p → read ≡ p.hash) }
    ensures memory { (p : ProfileRowValue) → row.now ≡ shown_profile p → IfErr result (λ fault. fault ≡ Memory) }
{
    let number: u32 = row.get(3)?;
    match hash_kind_of(number) {
        Some(kind) => Ok(kind),
        None => Err(StoreFault::Refused),
    }
}

/// Reads a digest of 16 bytes from this column.
fn digest_in(row: &Row, at: usize) -> Result<[u8; 16], StoreFault>
    ensures read { IfOk result (λ read. (bytes : List ℕ) → column row.now at ≡ BlobValue bytes → read ≡ bytes) }
    ensures memory { (bytes : List ℕ) → at < length row.now → column row.now at ≡ BlobValue bytes → length bytes ≡ 16
        → IfErr result (λ fault. fault ≡ Memory) }
{
    let bytes: Vec<u8> = row.get(at)?;
    match <[u8; 16]>::try_from(bytes.as_slice()) {
        Ok(digest) => Ok(digest),
        Err(_) => Err(StoreFault::Refused),
    }
}

/// Reads a hash from this column.
fn hash_in(row: &Row, at: usize) -> Result<HashValue, StoreFault>
    ensures read { IfOk result (λ read. (bytes : List ℕ) → column row.now at ≡ BlobValue bytes → read ≡ hash_of bytes) }
    ensures memory { (bytes : List ℕ) → at < length row.now → column row.now at ≡ BlobValue bytes
        → IsTrue (is_hash_length (length bytes)) → IfErr result (λ fault. fault ≡ Memory) }
{
    let bytes: Vec<u8> = row.get(at)?;
    match hash_of(bytes.as_slice()) {
        Some(hash) => Ok(hash),
        None => Err(StoreFault::Refused),
    }
}

/// Converts the row of a reply, as `FIND_REPLY` selects it. It is kept under this client and number, which the row
/// doesn't repeat.
pub(crate) fn entry_of(row: &Row, client: u32, number: u64) -> Result<Entry, StoreFault>
    ensures read { IfOk result (λ read.
        (e : EntryValue) → e.client ≡ client → e.number ≡ number → row.now ≡ shown_reply e → read ≡ e) }
    ensures memory { (e : EntryValue) → row.now ≡ shown_reply e → EntryFits e → IfErr result (λ fault. fault ≡ Memory) }
{
    let version = byte_in(row, 0)?;
    let kind = byte_in(row, 1)?;
    let mark = digest_in(row, 2)?;
    let body: Vec<u8> = row.get(3)?;
    let body = Blob::from(body);
    Ok(Entry {
        client,
        number,
        version,
        mark,
        kind,
        body,
    })
}

/// Reads a number below 256 from this column.
fn byte_in(row: &Row, at: usize) -> Result<u8, StoreFault>
    ensures read { IfOk result (λ read. (n : ℕ) → column row.now at ≡ Int (pos n) → read ≡ n) }
    ensures memory { (n : ℕ) → at < length row.now → column row.now at ≡ Int (pos n) → n < 2 ^ 8
        → IfErr result (λ fault. fault ≡ Memory) }
{
    let number: u32 = row.get(at)?;
    match u8::try_from(number) {
        Ok(byte) => Ok(byte),
        Err(_) => Err(StoreFault::Refused),
    }
}

/// The columns of a node that are numbers and don't change except for the state.
#[derive(Clone, Copy)]
struct Head {
    id: u32,
    parent: u32,
    modified: i64,
    state: NodeState,
    size: u64,
    piece_size: u32,
}

/// Reads the first six columns of a node: its numbers and its state.
fn head_of(row: &Row) -> Result<Head, StoreFault>
    ensures read { IfOk result (λ read.
        (n : Node) → row.now ≡ shown_node n
        → read
        ≡ record {
          id = n.id;
          parent = n.parent;
          modified = n.modified;
          state = n.state;
          size = n.size;
          piece_size = n.piece_size;
        }) }
    ensures memory { (n : Node) → row.now ≡ shown_node n → NodeFits n → IfErr result (λ fault. fault ≡ Memory) }
{
    let id = row.get(0)?;
    let parent = row.get(1)?;
    let modified = row.get(2)?;
    let state = state_column(row)?;
    let size = row.get(4)?;
    let piece_size = row.get(5)?;
    Ok(Head {
        id,
        parent,
        modified,
        state,
        size,
        piece_size,
    })
}

/// What was found in a file.
#[derive(Drop)]
struct Findings {
    method: Method,
    mismatch: bool,
    hash: HashValue,
    puids: Texts,
}

/// Reads the columns of a node that are set when it is finished. Before that they say that nothing was found.
fn findings_of(alloc: Global, row: &Row) -> Result<Findings, StoreFault>
    ensures read { IfOk result (λ read.
        (n : Node) → AllByRecursion IsWord n.puids → row.now ≡ shown_node n
        → read ≡ record { method = n.method; mismatch = n.mismatch; hash = hash_of n.hash; puids = n.puids }) }
    ensures memory { (n : Node) → row.now ≡ shown_node n → NodeFits n → IfErr result (λ fault. fault ≡ Memory) }
{
    let method = method_column(row)?;
    let mismatch = row.get(7)?;
    let formats: String = row.get(10)?;
    let hash = hash_in(row, 11)?;
    let puids = words(alloc, formats.as_str())?;
    Ok(Findings {
        method,
        mismatch,
        hash,
        puids,
    })
}

/// Returns whether a node is a folder or a file, by its state.
fn kind_of(state: NodeState) -> NodeKind
    ensures { result ≡ kind_of state }
{
    match state {
        NodeState::Folder => NodeKind::Folder,
        NodeState::Unfinished => NodeKind::File,
        NodeState::Finished => NodeKind::File,
    }
}

/// Reads the row of a folder or file, as `FIND_NODE` selects it.
pub(crate) fn node_of(alloc: Global, row: &Row) -> Result<NodeRow, StoreFault>
    ensures read { IfOk result (λ read.
        (n : Node) → AllByRecursion IsWord n.puids → row.now ≡ shown_node n → read ≡ row_of n) }
    ensures memory { (n : Node) → row.now ≡ shown_node n → NodeFits n → IfErr result (λ fault. fault ≡ Memory) }
{
    let head = head_of(row)?;
    let name: String = row.get(8)?;
    let path: String = row.get(9)?;
    let findings = findings_of(alloc, row)?;
    let hash = findings.hash;
    let item = Record {
        id: head.id,
        parent: head.parent,
        path: Text::from(path),
        name: Text::from(name),
        kind: kind_of(head.state),
        size: head.size,
        modified: head.modified,
        method: findings.method,
        mismatch: findings.mismatch,
        hash,
        puids: findings.puids,
    };
    Ok(NodeRow {
        state: head.state,
        piece_size: head.piece_size,
        item,
    })
}

/// Reads the column of a node's state. A number that no state has is `Refused`.
fn state_column(row: &Row) -> Result<NodeState, StoreFault>
    ensures read { IfOk result (λ read. (n : Node) → row.now ≡ shown_node n → read ≡ n.state) }
    ensures memory { (n : Node) → row.now ≡ shown_node n → IfErr result (λ fault. fault ≡ Memory) }
{
    let number: u32 = row.get(3)?;
    match state_of(number) {
        Some(state) => Ok(state),
        None => Err(StoreFault::Refused),
    }
}

/// Reads the column of a node's method. A number that no method has is `Refused`.
fn method_column(row: &Row) -> Result<Method, StoreFault>
    ensures read { IfOk result (λ read. (n : Node) → row.now ≡ shown_node n → read ≡ n.method) }
    ensures memory { (n : Node) → row.now ≡ shown_node n → IfErr result (λ fault. fault ≡ Memory) }
{
    let number: u32 = row.get(6)?;
    match method_of(number) {
        Some(method) => Ok(method),
        None => Err(StoreFault::Refused),
    }
}

/// Returns the state of this number (`NodeState::number`), or `None` if no state has it.
fn state_of(number: u32) -> Option<NodeState>
    ensures { (s : NodeStateValue) → number ≡ state_number s → result ≡ Some s }
{
    match number {
        0 => Some(NodeState::Folder),
        1 => Some(NodeState::Unfinished),
        2 => Some(NodeState::Finished),
        _ => None,
    }
}

/// Returns the method of this number (`number_of` of `row_change`), or `None` if no method has it.
fn method_of(number: u32) -> Option<Method>
    ensures { (m : MethodValue) → number ≡ method_number m → result ≡ Some m }
{
    match number {
        0 => Some(Method::Unidentified),
        1 => Some(Method::Signature),
        2 => Some(Method::Extension),
        _ => None,
    }
}

/// Converts the row of a folder or file, as `LIST_RECORDS` selects it, to its record.
pub(crate) fn record_in(alloc: Global, row: &Row) -> Result<Record, StoreFault>
    ensures read { IfOk result (λ read.
        (n : Node) → AllByRecursion IsWord n.puids → row.now ≡ shown_node n → read ≡ record_of n) }
    ensures memory { (n : Node) → row.now ≡ shown_node n → NodeFits n → IfErr result (λ fault. fault ≡ Memory) }
{
    let NodeRow {
        state: _,
        piece_size: _,
        item,
    } = node_of(alloc, row)?;
    Ok(item)
}
