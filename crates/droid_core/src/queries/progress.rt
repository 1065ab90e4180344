//! Status: how many pieces of a file were taken.

ghost use Rattle.std.specs.Prelude.{◌≡◌, ◌<◌, ◌^◌, ℕ, ℤ, List, false, Some, None, IsOk, IfOk, IfErr, OnErr};
ghost use Rattle.droid_assembly.specs.Pieces.{piece_count};
ghost use Rattle.droid_core.specs.Assemblies.{HasAssemblies};
ghost use Rattle.droid_core.specs.Answering.{Answers};
ghost use Rattle.droid_core.specs.Changes.{answered};
ghost use Rattle.droid_core.specs.declared.stamps.Stamp.{Stamp};
ghost use Rattle.droid_frame.specs.Replies.{HasReplySpelling};
ghost use Rattle.droid_core_spec.specs.Files.{progress_of};
ghost use Rattle.droid_core_spec.specs.Judging.{judge_status};
ghost use Rattle.droid_core_spec.specs.World.{Content, File, Profile, World, numbered, node_at as node_there};
ghost use Rattle.droid_store.specs.Rows.{is_unfinished};
ghost use Rattle.droid_core.specs.Files.{open_at};

use crate::file_rows::{file_of, place_of_file};
use crate::holdings::Holdings;
use crate::unfinished::files::UnfinishedFiles;
use droid_frame::{Refusal, Reply};

/// Returns how many pieces of a file were taken, and the first missing one. Of a finished file both are the number of
/// its pieces. Refuses with NoSuchProfile, NoSuchNode or NotAFile, in this order, or with Memory.
pub fn status(holdings: &mut Holdings, profile: u32, file: u32) -> Result<Reply, Refusal>
    ensures answers { (stamp : Stamp)
        → Answers (λ setting world. judge_status world profile file) stamp holdings.old holdings.new (answered result) }
{
    let row = file_of(&mut holdings.store, profile, file)?;
    if row.is_unfinished() {
        return progress_of(&holdings.files, profile, file);
    }
    let pieces = count_of(row.node.item.size, row.node.piece_size)?;
    Ok(Reply::Progress {
        held: pieces,
        missing: pieces,
    })
}

/// Returns the progress of an unfinished file, from its assembly. It cannot happen that it has none; the code would
/// answer Store.
fn progress_of(files: &UnfinishedFiles, profile: u32, file: u32) -> Result<Reply, Refusal>
    ensures progress { IfOk result (λ reply.
        (world : World) (its : Profile) (parent : ℕ) (modified : ℤ) (name : List ℕ) (content : Content)
        → HasAssemblies world files.now
        → numbered world.profiles profile ≡ Some its
        → node_there its.nodes file ≡ Some (File parent modified name content) → content.finished ≡ false
        → reply ≡ progress_of content) }
    ensures spelled { (version : ℕ) → HasReplySpelling version (answered result) }
    ensures none { OnErr result (open_at profile file files.now.files ≡ None) }
    ensures failure { IfErr result (λ refusal. refusal ≡ Refusal.Store) }
{
    let place = place_of_file(files, profile, file)?;
    Ok(Reply::Progress {
        held: files.held(place),
        missing: files.missing(place),
    })
}

/// Returns the number of pieces of a finished file, from the size and piece size in its row. It cannot happen that
/// pieces have no bytes or that there are 2^32 or more, since no such file is accepted; the code would answer Store.
fn count_of(size: u64, piece_size: u32) -> Result<u32, Refusal>
    ensures count { IfOk result (λ count. count ≡ piece_count size piece_size) }
    ensures fits { 0 < piece_size → piece_count size piece_size < 2 ^ 32 → IsOk result }
    ensures failure { IfErr result (λ refusal. refusal ≡ Refusal.Store) }
{
    if piece_size == 0 {
        return Err(Refusal::Store);
    }
    let count = size.div_ceil(u64::from(piece_size));
    if u64::from(u32::MAX) < count {
        return Err(Refusal::Store);
    }
    Ok(count as u32)
}
