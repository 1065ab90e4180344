//! AddFile: new files, whose pieces are still to come.

ghost use Rattle.std.specs.Prelude.{◌≡◌, ◌<◌, ◌^◌, ℕ, None, IfOk, IfErr, OnOk, IsOk, IsTrue, length};
ghost use Rattle.droid_assembly.specs.Pieces.{AreSizes};
ghost use Rattle.droid_core.specs.Answering.{Answers};
ghost use Rattle.droid_core.specs.Changes.{answered};
ghost use Rattle.droid_core.specs.NewAssemblies.{IsNew};
ghost use Rattle.droid_core_spec.specs.Conditions.{is_scan_limit};
ghost use Rattle.droid_core_spec.specs.Judging.{judge_file};
ghost use Rattle.droid_frame.specs.Versions.{IsVersion};
ghost use Rattle.droid_store.specs.Rows.{reply_for};
ghost use Rattle.droid_core.specs.Files.{open_at};

use crate::checks::options::is_scan_limit;
use crate::checks::refusals::file_refusal;
use crate::checks::room::Room;
use crate::commands::destination::{node_room, path_of_new};
use crate::holdings::Holdings;
use crate::look_ups::profile_of;
use crate::replies::entry_of;
use crate::stamps::Stamp;
use crate::unfinished::files::UnfinishedFiles;
use droid_assembly::Assembly;
use droid_frame::{HashKind, Refusal, Reply, Text};
use std::alloc::Global;

/// Adds a file to a profile, whose pieces are still to come. Its number is the count of nodes that the profile has had
/// and 1. Refuses with NoSuchProfile, then as [`path_of_new`], then as [`file_refusal`]. Behind the commit nothing
/// takes memory: the assembly is put into its reserved place.
pub fn add_file(
    holdings: &mut Holdings,
    stamp: Stamp,
    profile: u32,
    parent: u32,
    modified: i64,
    size: u64,
    piece_size: u32,
    name: Text,
) -> Result<Reply, Refusal>
    requires new { reply_for stamp.client stamp.number holdings.old.store ≡ None }
    requires small { stamp.number < 2 ^ 63 }
    requires version { IsVersion stamp.version }
    ensures answers { Answers
        (λ setting world. judge_file setting world stamp.version profile parent modified size piece_size name) stamp
        holdings.old holdings.new (answered result) }
{
    let row = profile_of(holdings.store.profile(profile))?;
    let path = path_of_new(
        holdings.alloc,
        &mut holdings.store,
        profile,
        parent,
        name.as_str(),
    )?;
    let nodes = node_room(holdings, row);
    let unfinished = unfinished_room(holdings);
    if let Some(refusal) = file_refusal(
        stamp.version,
        modified,
        size,
        piece_size,
        nodes,
        unfinished,
    ) {
        return Err(refusal);
    }
    let id = row.nodes + 1;
    let assembly = new_assembly(holdings.alloc, size, piece_size, row.scan_limit, row.hash)?;
    has_room(&holdings.files, profile, id)?;
    let reply = Reply::Node { id };
    let entry = entry_of(holdings.alloc, stamp, &reply)?;
    holdings.store.commit_file(
        &entry,
        profile,
        id,
        parent,
        modified,
        size,
        piece_size,
        name.as_str(),
        path.as_str(),
    )?;
    holdings.files.add(profile, id, assembly);
    Ok(reply)
}

/// Returns the number of unfinished files of all profiles, and the service's limit on them.
fn unfinished_room(holdings: &Holdings) -> Room
    ensures count { result.count ≡ length holdings.now.files.files }
    ensures limit { result.limit ≡ holdings.now.limits.unfinished }
{
    Room {
        count: u64::from(holdings.files.len()),
        limit: holdings.limits.unfinished,
    }
}

/// Returns the assembly of a new file whose sizes are in range, with its profile's scan limit and kind of hash. Fails
/// if there is no memory. It cannot happen that the scan limit is out of range, since no profile has such a one; the
/// code would answer Store.
fn new_assembly(
    alloc: Global,
    size: u64,
    piece_size: u32,
    scan_limit: u32,
    hash: HashKind,
) -> Result<Assembly, Refusal>
    requires sizes { (any : ℕ) → IsTrue (is_scan_limit any) → AreSizes size piece_size any }
    ensures new { IfOk result (λ assembly. IsNew assembly size piece_size scan_limit hash) }
    ensures small { OnOk result (size < 2 ^ 63) }
    ensures memory { IsTrue (is_scan_limit scan_limit) → IfErr result (λ refusal. refusal ≡ Refusal.Memory) }
{
    if !is_scan_limit(scan_limit) {
        return Err(Refusal::Store);
    }
    let assembly = Assembly::new(alloc, size, piece_size, scan_limit, hash)?;
    Ok(assembly)
}

/// Checks that there is room for one unfinished file more and that none has its number, as the prover needs it. It
/// cannot happen that one of the two fails; the code would answer Store.
fn has_room(files: &UnfinishedFiles, profile: u32, file: u32) -> Result<(), Refusal>
    ensures room { OnOk result (length files.now.files < files.now.limit) }
    ensures fresh { OnOk result (open_at profile file files.now.files ≡ None) }
    ensures fits { length files.now.files < files.now.limit → open_at profile file files.now.files ≡ None
        → IsOk result }
    ensures failure { IfErr result (λ refusal. refusal ≡ Refusal.Store) }
{
    if files.is_full() {
        return Err(Refusal::Store);
    }
    if files.place_of(profile, file).is_some() {
        return Err(Refusal::Store);
    }
    Ok(())
}
