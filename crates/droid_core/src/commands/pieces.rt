//! Piece: the pieces of files.

ghost use Rattle.std.specs.Prelude.{◌≡◌, ◌<◌, ◌^◌, ◌++◌, ◌∷◌, [], List, length, false, None, Some, IsSome, IfErr, OnOk};
ghost use Rattle.std.specs.Prelude.{OnErr};
ghost use Rattle.droid_assembly.specs.Pieces.{Piece};
ghost use Rattle.droid_assembly.specs.State.{StandsFor, IsOfSameFile, with_pending};
ghost use Rattle.droid_core.specs.Assemblies.{IsAssemblyOf};
ghost use Rattle.droid_core.specs.Answering.{Answers};
ghost use Rattle.droid_core.specs.Changes.{answered};
ghost use Rattle.droid_core.specs.Taking.{refusal_in};
ghost use Rattle.droid_frame.specs.Replies.{HasRefusalSpelling};
ghost use Rattle.droid_core_spec.specs.Judging.{judge_piece, refusal_of, piece_checks};
ghost use Rattle.droid_core_spec.specs.World.{Content, Profile};
ghost use Rattle.droid_frame.specs.Versions.{IsVersion};
ghost use Rattle.droid_store.specs.Changes.{with_reply};
ghost use Rattle.droid_store.specs.Rows.{reply_for};
ghost use Rattle.droid_store.specs.Sizes.{entry_size, FitsARow};
ghost use Rattle.droid_core.specs.Files.{At, Turns, IsAlikeBut};

use crate::file_rows::unfinished_file;
use crate::holdings::Holdings;
use crate::replies::entry_of;
use crate::stamps::Stamp;
use crate::unfinished::files::UnfinishedFiles;
use droid_frame::{Blob, Refusal, Reply};
use droid_store::{Entry, Store};

/// Takes a piece of a file; its index is counted from 0. Replies how many pieces are held, this one included. Refuses
/// as [`unfinished_file`], then as [`put_piece`]. The piece is pending until the reply to it is kept.
pub fn take_piece(
    holdings: &mut Holdings,
    stamp: Stamp,
    profile: u32,
    file: u32,
    index: u32,
    bytes: Blob,
) -> Result<Reply, Refusal>
    requires new { reply_for stamp.client stamp.number holdings.old.store ≡ None }
    requires small { stamp.number < 2 ^ 63 }
    requires version { IsVersion stamp.version }
    ensures answers { Answers (λ setting world. judge_piece world profile file index bytes) stamp holdings.old
        holdings.new (answered result) }
{
    let found = unfinished_file(&mut holdings.store, &holdings.files, profile, file)?;
    let held = holdings.files.held(found.place) + 1;
    let reply = Reply::Taken { held };
    // Takes memory before the piece is checked and put: behind `put_piece` only `keep_piece` can fail, and that takes
    // the piece back. A failure between the two would leave a pending piece behind.
    let entry = entry_of(holdings.alloc, stamp, &reply)?;
    put_piece(&mut holdings.files, found.place, index, bytes)?;
    keep_piece(
        &mut holdings.store,
        &mut holdings.files,
        found.place,
        &entry,
    )?;
    Ok(reply)
}

/// Makes the piece the pending one of the file at this place, or refuses it: BadPiece, PieceHeld or TooFarAhead, the
/// first that holds. Takes no memory.
fn put_piece(
    files: &mut UnfinishedFiles,
    place: usize,
    index: u32,
    bytes: Blob,
) -> Result<(), Refusal>
    requires within { place < length files.old.files }
    requires none_pending { At files.old place (λ file. file.pending ≡ None) }
    ensures judged { At files.old place (λ file.
        (profile : Profile) (content : Content) → IsAssemblyOf profile content file → content.finished ≡ false
        → refusal_in result ≡ refusal_of (piece_checks content index bytes)) }
    ensures spelled { IfErr result (λ refusal. HasRefusalSpelling refusal) }
    ensures pending { OnOk result
        (Turns files.old files.new place (λ before after. after ≡ with_pending before (Some (index, bytes)))) }
    ensures stands { Turns files.old files.new place (λ before after.
        (pieces : List Piece) → StandsFor before pieces → StandsFor after pieces) }
    ensures others { IsAlikeBut place files.old files.new }
    ensures same { OnErr result (files.new ≡ files.old) }
{
    match files.put(place, index, bytes) {
        Ok(()) => Ok(()),
        Err(fault) => Err(Refusal::from(fault)),
    }
}

/// Keeps the reply to the pending piece of the file at this place, and then takes the piece for good. If the reply is
/// not kept, since memory ran out, the piece is taken back, and all is as it was before.
fn keep_piece(
    store: &mut Store,
    files: &mut UnfinishedFiles,
    place: usize,
    entry: &Entry,
) -> Result<(), Refusal>
    requires new { reply_for entry.now.client entry.now.number store.old ≡ None }
    requires small { entry.now.number < 2 ^ 63 }
    requires within { place < length files.old.files }
    requires pending { At files.old place (λ file. IsSome file.pending) }
    requires fits { FitsARow (entry_size entry.now) }
    ensures kept { OnOk result (store.new ≡ with_reply entry.now store.old) }
    ensures stands { OnOk result (Turns files.old files.new place (λ before after.
        (pieces : List Piece) (piece : Piece) → StandsFor before pieces
        → before.pending ≡ Some piece → StandsFor after (pieces ++ piece ∷ []))) }
    ensures same_file { OnOk result (Turns files.old files.new place IsOfSameFile) }
    ensures none_pending { OnOk result (Turns files.old files.new place (λ before after. after.pending ≡ None)) }
    ensures not_kept { OnErr result (store.new ≡ store.old) }
    ensures taken_back { OnErr result
        (Turns files.old files.new place (λ before after. after ≡ with_pending before None)) }
    ensures others { IsAlikeBut place files.old files.new }
    ensures memory { IfErr result (λ refusal. refusal ≡ Refusal.Memory) }
    ensures spelled { IfErr result (λ refusal. HasRefusalSpelling refusal) }
{
    match store.commit_piece(entry) {
        Ok(()) => {
            files.settle(place);
            Ok(())
        }
        Err(fault) => {
            files.take_back(place);
            Err(Refusal::from(fault))
        }
    }
}
