//! Finish: the end of a file whose pieces were all taken.

ghost use Rattle.std.specs.Prelude.{◌≡◌, ◌<◌, ◌^◌, ℕ, List, length, false, None, Some, IsOk, MatchBool, ⊤, IfOk, IfErr};
ghost use Rattle.std.specs.Prelude.{OnOk, OnErr};
ghost use Rattle.std.specs.List.{AllByRecursion};
ghost use Rattle.droid_assembly.specs.Pieces.{Piece};
ghost use Rattle.droid_assembly.specs.State.{StandsFor, IsUnchanged};
ghost use Rattle.droid_core.specs.Answering.{Answers};
ghost use Rattle.droid_core.specs.Changes.{answered};
ghost use Rattle.droid_core.specs.Rows.{IsShort};
ghost use Rattle.droid_core.specs.Causes.{says_store};
ghost use Rattle.droid_core.specs.Findings.{IsJudged, IsKept, MayKeep, finding_in};
ghost use Rattle.droid_frame.specs.Hashes.{hash_value_kind};
ghost use Rattle.droid_frame.specs.Replies.{HasRefusalSpelling, HasReplySpelling, IsSpelledHash};
ghost use Rattle.droid_core_spec.specs.Files.{finished_reply};
ghost use Rattle.droid_core_spec.specs.Judging.{judge_finish};
ghost use Rattle.droid_core_spec.specs.MemoryFaults.{is_out_of_memory_of};
ghost use Rattle.droid_frame.specs.Versions.{IsVersion};
ghost use Rattle.droid_store.specs.Rows.{reply_for};
ghost use Rattle.droid_core.specs.Files.{At, Turns, IsAlikeBut};
ghost use Rattle.droid_core.specs.Identifying.{IsFindingOf, IsWellFormed};

use crate::checks::options::is_carried;
use crate::file_rows::{FileRow, unfinished_file};
use crate::holdings::Holdings;
use crate::replies::entry_of;
use crate::stamps::Stamp;
use crate::unfinished::files::UnfinishedFiles;
use crate::unfinished::finding::Finding;
use droid_frame::{HashKind, HashValue, Refusal, Reply};
use droid_pronom::Registry;
use droid_store::Store;
use std::alloc::Global;

/// Finishes a file: identifies it, keeps the finding with the reply in one commit, and then drops its pieces, which
/// takes no memory. Refuses as [`unfinished_file`], then with BadOption if a Finished of the stamp's version can't
/// carry the hash of its profile, then with Incomplete if a piece is missing.
pub fn finish(
    holdings: &mut Holdings,
    stamp: Stamp,
    profile: u32,
    file: u32,
) -> Result<Reply, Refusal>
    requires new { reply_for stamp.client stamp.number holdings.old.store ≡ None }
    requires small { stamp.number < 2 ^ 63 }
    requires version { IsVersion stamp.version }
    ensures answers { Answers (λ setting world. judge_finish setting world stamp.version profile file) stamp
        holdings.old holdings.new (answered result) }
{
    let found = unfinished_file(&mut holdings.store, &holdings.files, profile, file)?;
    let hash = found.row.profile.hash;
    if !is_carried(stamp.version, hash) {
        return Err(Refusal::BadOption);
    }
    let finding = identify_file(
        holdings.alloc,
        &mut holdings.files,
        found.place,
        &holdings.registry,
        &found.row,
    )?;
    is_of_kind(finding.sealed.hash, hash)?;
    let reply = keep_finding(
        holdings.alloc,
        &mut holdings.store,
        stamp,
        profile,
        file,
        finding,
    )?;
    holdings.files.remove(found.place);
    Ok(reply)
}

/// Identifies the file at this place by its name and its profile's mode (`match_all`), which `row` has. Refuses with
/// Incomplete, which has the first missing piece, or with Memory. No piece of it may be pending.
fn identify_file(
    alloc: Global,
    files: &mut UnfinishedFiles,
    place: usize,
    registry: &Registry,
    row: &FileRow,
) -> Result<Finding, Refusal>
    requires within { place < length files.old.files }
    requires none_pending { At files.old place (λ file. file.pending ≡ None) }
    ensures refused { IfErr result (λ refusal.
        At files.old place (IsJudged (λ first. MatchBool (is_out_of_memory_of refusal) ⊤ (first ≡ Some refusal)))) }
    ensures allowed { OnOk result (At files.old place (IsJudged (λ first. first ≡ None))) }
    ensures finding { IfOk result (λ finding. At files.old place (λ file. (pieces : List Piece) → StandsFor file pieces
        → IsFindingOf registry.now row.now.node.item.name row.now.profile.match_all file pieces finding)) }
    ensures well_formed { IfOk result IsWellFormed }
    ensures unchanged { Turns files.old files.new place IsUnchanged }
    ensures others { IsAlikeBut place files.old files.new }
    ensures memory { IfErr result (λ refusal. says_store refusal ≡ false) }
    ensures spelled { IfErr result (λ refusal. HasRefusalSpelling refusal) }
{
    let name = row.node.item.name.as_str();
    match files.identify(alloc, place, registry, name, row.profile.match_all) {
        Ok(finding) => Ok(finding),
        Err(fault) => Err(Refusal::from(fault)),
    }
}

/// Checks that a file's hash is of its profile's kind, as the prover needs it. It cannot happen that it is not; the
/// code would answer Store.
fn is_of_kind(hash: HashValue, kind: HashKind) -> Result<(), Refusal>
    ensures kind { OnOk result (hash_value_kind hash ≡ kind) }
    ensures its { hash_value_kind hash ≡ kind → IsOk result }
    ensures failure { IfErr result (λ refusal. refusal ≡ Refusal.Store) }
{
    if hash.kind() != kind {
        return Err(Refusal::Store);
    }
    Ok(())
}

/// Keeps the finding and the reply with it, in one commit of the store, and returns the reply. Fails only if memory
/// runs out, as long as each name and path in the rows is short; then nothing is kept.
fn keep_finding(
    alloc: Global,
    store: &mut Store,
    stamp: Stamp,
    profile: u32,
    file: u32,
    finding: Finding,
) -> Result<Reply, Refusal>
    requires { MayKeep stamp profile file finding store.old }
    ensures kept { IfOk result (IsKept stamp profile file finding store.old store.new) }
    ensures not_kept { OnErr result (store.new ≡ store.old) }
    ensures memory { AllByRecursion IsShort store.old.nodes → IfErr result (λ refusal. refusal ≡ Refusal.Memory) }
    ensures spelled { HasReplySpelling stamp.version (answered result) }
{
    let reply = finished_reply(alloc, &finding)?;
    let entry = entry_of(alloc, stamp, &reply)?;
    let found = &finding.found;
    store.commit_finish(
        &entry,
        profile,
        file,
        found.method,
        found.mismatch,
        finding.sealed.hash,
        &found.puids,
    )?;
    Ok(reply)
}

/// Returns the reply Finished with the finding, and with a copy of the identifiers: the store gets the originals. Fails
/// only if there is no memory.
fn finished_reply(alloc: Global, finding: &Finding) -> Result<Reply, Refusal>
    requires well_formed { IsWellFormed finding.now }
    ensures reply { IfOk result (λ reply. reply ≡ finished_reply (finding_in finding.now)) }
    ensures spelled { IfOk result (λ reply.
        (version : ℕ) → IsSpelledHash version finding.now.sealed.hash → HasReplySpelling version reply) }
    ensures failure { IfErr result (λ refusal. refusal ≡ Refusal.Memory) }
{
    let found = &finding.found;
    let puids = found.puids.try_clone(alloc)?;
    Ok(Reply::Finished {
        method: found.method,
        mismatch: found.mismatch,
        hash: finding.sealed.hash,
        puids,
    })
}
