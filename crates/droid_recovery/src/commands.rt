//! Recovering a command that needs no bytes of a bare file: it is carried out as a service does.

ghost use Rattle.std.specs.Prelude.{◌≡◌, ◌<◌, ◌^◌, ◌++◌, ◌∷◌, [], Err, None, Some, MatchBool, true, false};
ghost use Rattle.droid_recovery.specs.BareWorlds.{Bare};
ghost use Rattle.droid_recovery.specs.Recovering.{IsWhole, Recovers};
ghost use Rattle.droid_core.specs.Answering.{Answers};
ghost use Rattle.droid_core_spec.specs.Histories.{Entry as Accepted, History, is_same_request, kept};
ghost use Rattle.droid_core_spec.specs.Judging.{judge};
ghost use Rattle.droid_core_spec.specs.MemoryFaults.{is_out_of_memory};
ghost use Rattle.droid_core_spec.specs.Setting.{Setting};
ghost use Rattle.droid_core_spec.specs.Verdicts.{is_command};
ghost use Rattle.droid_frame.specs.Replies.{HasReplySpelling, is_refused};
ghost use Rattle.droid_core.specs.Changes.{answered};
ghost use Rattle.droid_frame.specs.Versions.{IsVersion};
ghost use Rattle.droid_store.specs.Rows.{reply_for};

use crate::reply_conditions::kept_row;
use crate::revival_fault::RecoveryFault;
use droid_core::{
    Holdings, Stamp, abandon, add_file, add_folder, answer_again, create_profile, finish,
    reply_from, take_piece,
};
use droid_frame::{Filter, Refusal, Reply, Request};

/// Handles an accepted command that needs no bytes of a bare file, or one that came again, and returns its reply. It is
/// the one that the command got, or says that memory ran out. A number of 2^63 or more is refused as Malformed. Any
/// other request is answered as droid_core does, under a used number with NumberReused, but a query under a new number
/// with Malformed.
pub fn recover_command(holdings: &mut Holdings, stamp: Stamp, request: Request) -> Reply
    requires version { IsVersion stamp.version }
    ensures recovers { (setting : Setting) (bare : Bare) (history : History) (entry : Accepted)
        → Recovers setting bare holdings.old history
        → (is : IsWhole setting bare history entry stamp) → is.may.request ≡ request
        → MatchBool (is_out_of_memory result) (Recovers setting bare holdings.new history)
        ((result ≡ entry.reply) × Recovers setting bare holdings.new (history ++ entry ∷ [])) }
    // One that came again changes nothing.
    ensures again { (setting : Setting) (bare : Bare) (history : History) (entry : Accepted)
        → Recovers setting bare holdings.old history → stamp.number < 2 ^ 63
        → kept history stamp.client stamp.number ≡ Some entry
        → is_same_request entry.frame.version entry.mark stamp.version stamp.mark ≡ true
        → (is_out_of_memory result ≡ false → result ≡ entry.reply) × Recovers setting bare holdings.new history }
    // A refusal leaves them as recovered as they were.
    ensures still { (setting : Setting) (bare : Bare) (history : History) → Recovers setting bare holdings.old history
        → is_refused result ≡ true → Recovers setting bare holdings.new history }
    ensures spelled { HasReplySpelling stamp.version result }
{
    match kept_row(&mut holdings.store, stamp) {
        Ok(None) => reply_from(apply(holdings, stamp, request)),
        Ok(Some(row)) => answer_again(holdings.alloc, row, stamp),
        Err(RecoveryFault::Memory) => Reply::Refused(Refusal::Memory),
        Err(RecoveryFault::Unfit) => Reply::Refused(Refusal::Malformed),
    }
}

/// Judges a command under a new number, and carries it out if it is accepted, by the calls of droid_core. A query is
/// refused as Malformed, as no journal has one.
fn apply(holdings: &mut Holdings, stamp: Stamp, request: Request) -> Result<Reply, Refusal>
    requires new { reply_for stamp.client stamp.number holdings.old.store ≡ None }
    requires small { stamp.number < 2 ^ 63 }
    requires version { IsVersion stamp.version }
    ensures answers { is_command request ≡ true
        → Answers (λ setting world. judge setting world stamp.version request) stamp holdings.old holdings.new
        (answered result) }
    ensures query { is_command request ≡ false → holdings.new ≡ holdings.old }
    ensures spelled { HasReplySpelling stamp.version (answered result) }
{
    match request {
        Request::CreateProfile {
            scan_limit,
            match_all,
            hash,
        } => create_profile(holdings, stamp, scan_limit, match_all, hash),
        Request::AddFolder {
            profile,
            parent,
            modified,
            name,
        } => add_folder(holdings, stamp, profile, parent, modified, name),
        Request::AddFile {
            profile,
            parent,
            modified,
            size,
            piece_size,
            name,
        } => add_file(
            holdings, stamp, profile, parent, modified, size, piece_size, name,
        ),
        Request::Piece {
            profile,
            file,
            index,
            bytes,
        } => take_piece(holdings, stamp, profile, file, index, bytes),
        Request::Finish { profile, file } => finish(holdings, stamp, profile, file),
        Request::Abandon { profile, file } => abandon(holdings, stamp, profile, file),
        Request::Status { .. } => Err(Refusal::Malformed),
        Request::Export { filter, .. } => refuse_export(filter),
    }
}

/// Refuses an Export, as no query is in a journal, and drops its filter.
fn refuse_export(_filter: Filter) -> Result<Reply, Refusal>
    ensures { result ≡ Err Refusal.Malformed }
{
    Err(Refusal::Malformed)
}
