//! How the service answers a request: a kept reply again, and a new request by its kind.

ghost use Rattle.std.specs.Prelude.{◌≡◌, ◌≢◌, ◌<◌, ◌^◌, ◌&&◌, not, ℕ, true, false, None, Some, IsTrue};
ghost use Rattle.droid_core.specs.Answering.{AnswersIn};
ghost use Rattle.droid_core.specs.Changes.{again, answered, is_row_of, stamped};
ghost use Rattle.droid_core.specs.Handled.{IsHandled};
ghost use Rattle.droid_core.specs.Recent.{AreKept, IsKeptRow};
ghost use Rattle.droid_core.specs.KeptTexts.{IsFor, IsLastText, is_followed};
ghost use Rattle.droid_core.specs.HoldingsStanding.{IsIn};
ghost use Rattle.droid_frame.specs.Replies.{HasReplySpelling, SpellsReply, is_refused};
ghost use Rattle.droid_frame.specs.Versions.{IsVersion};
ghost use Rattle.droid_frame.specs.declared.filter.Filter.{Filter};
ghost use Rattle.droid_frame.specs.declared.refusal.Refusal.TheVariants.{NumberReused};
ghost use Rattle.droid_frame.specs.declared.reply.Reply.{Reply as ReplyValue};
ghost use Rattle.droid_frame.specs.declared.reply.Reply.TheVariants.{Refused};
ghost use Rattle.droid_frame.specs.declared.request.Request.{Request as RequestValue};
ghost use Rattle.droid_frame.specs.declared.request.Request.TheVariants as requests;
ghost use Rattle.droid_core_spec.specs.Histories.{History};
ghost use Rattle.droid_core_spec.specs.Judging.{judge};
ghost use Rattle.droid_core_spec.specs.Setting.{Setting};
ghost use Rattle.droid_core_spec.specs.Verdicts.{is_command};
ghost use Rattle.droid_core_spec.specs.World.{World};
ghost use Rattle.droid_store.specs.Rows.{reply_for};

use crate::commands::abandonment::abandon;
use crate::commands::completion::finish;
use crate::commands::new_files::add_file;
use crate::commands::new_folders::add_folder;
use crate::commands::new_profiles::create_profile;
use crate::commands::pieces::take_piece;
use crate::holdings::Holdings;
use crate::queries::export_parts::export;
use crate::queries::kept_text::{KeptText, forget_text};
use crate::queries::progress::status;
use crate::replies::{answer_again, reply_from};
use crate::service::Service;
use crate::service::recent::RecentReplies;
use crate::stamps::Stamp;
use droid_frame::{Refusal, Reply, Request};
use droid_store::Entry;

/// What came of a request: its reply, and whether it added an entry to the history.
#[derive(Drop)]
pub struct Outcome {
    /// The reply.
    pub reply: Reply,
    /// Whether the request is a new command that was accepted. A repeated command is not new, however old it is.
    pub is_new: bool,
}

/// Answers the request of a frame. Looks for a kept reply under its number, first in the cache and then in the store,
/// and judges the request if there is none. Answers Memory if the store has no memory for the look-up.
pub fn answer(service: &mut Service, stamp: Stamp, request: Request) -> Outcome
    requires small { stamp.number < 2 ^ 63 }
    requires version { IsVersion stamp.version }
    ensures answers { IsHandled stamp request service.old service.new result.reply result.is_new }
{
    if let Some(row) = service.recent.find(stamp.client, stamp.number) {
        let reply = answer_again(service.holdings.alloc, row, stamp);
        return Outcome {
            reply,
            is_new: false,
        };
    }
    match service.holdings.store.reply_of(stamp.client, stamp.number) {
        Err(fault) => Outcome {
            reply: Reply::Refused(Refusal::from(fault)),
            is_new: false,
        },
        Ok(Some(row)) => {
            let reply = answer_kept(service, stamp, row);
            Outcome {
                reply,
                is_new: false,
            }
        }
        Ok(None) => answer_new(service, stamp, request),
    }
}

/// Answers a request under whose number the store keeps this row, and caches the row. If there is no memory to cache
/// it, the reply is the same: another version or mark is refused as such, and only a Finished, the kind 132, takes
/// memory to be read.
fn answer_kept(service: &mut Service, stamp: Stamp, row: Entry) -> Reply
    requires found { reply_for stamp.client stamp.number service.old.holdings.store ≡ Some row }
    ensures answers { (request : RequestValue) → IsHandled stamp request service.old service.new result false }
    ensures reused { is_row_of row stamp ≡ false → result ≡ Refused NumberReused }
    ensures exact { (kept : ReplyValue) → SpellsReply row.version row.kind row.body kept → row.kind ≢ 132
        → result ≡ again row stamp kept }
{
    service.recent.put_copy(stamp.client, stamp.number, &row);
    answer_again(service.holdings.alloc, row, stamp)
}

/// Answers a request under a new number by its verdict, and caches the reply to an accepted command.
fn answer_new(service: &mut Service, stamp: Stamp, request: Request) -> Outcome
    requires new { reply_for stamp.client stamp.number service.old.holdings.store ≡ None }
    requires small { stamp.number < 2 ^ 63 }
    requires version { IsVersion stamp.version }
    ensures answers { IsHandled stamp request service.old service.new result.reply result.is_new }
{
    let commands = asks_command(&request);
    let outcome = apply(&mut service.holdings, &mut service.last, stamp, request);
    let reply = reply_from(outcome);
    cache_reply(
        &mut service.recent,
        &mut service.last,
        stamp,
        commands,
        &reply,
    );
    let is_new = is_accepted(commands, &reply);
    Outcome { reply, is_new }
}

/// Caches the reply to an accepted command, and forgets the text of the last export, which the command has made out of
/// date. Does nothing after a query or a refusal. If there is no memory to cache the reply, nothing is reported. No
/// clause says that it is cached; `recent.rt` names the tests.
fn cache_reply(
    recent: &mut RecentReplies,
    last: &mut Option<KeptText>,
    stamp: Stamp,
    commands: bool,
    reply: &Reply,
)
    requires version { IsVersion stamp.version }
    requires spelled { HasReplySpelling stamp.version reply.now }
    ensures kept { (history : History) → AreKept history recent.old.rows.entries
        → (commands ≡ true → is_refused reply.now ≡ false
        → IsKeptRow history (stamp.client, stamp.number) (stamped stamp reply.now))
        → AreKept history recent.new.rows.entries }
    ensures still { (setting : Setting) (world : World) → IsLastText setting world last.old
        → IsLastText setting world last.new }
    ensures forgotten { commands ≡ true → is_refused reply.now ≡ false → last.new ≡ None }
    ensures query { commands ≡ false → last.new ≡ last.old }
    ensures refused { is_refused reply.now ≡ true → last.new ≡ last.old }
    ensures room { recent.new.rows.cap ≡ recent.old.rows.cap }
{
    if !commands {
        return;
    }
    if reply.is_refused() {
        return;
    }
    forget_text(last);
    recent.put_reply(stamp, reply);
}

/// Returns whether a request is a command, which changes the service if it is accepted: any but Status and Export,
/// which are queries.
fn asks_command(request: &Request) -> bool
    ensures { result ≡ is_command request.now }
{
    !matches!(request, Request::Status { .. } | Request::Export { .. })
}

/// Returns whether a request is a command that was accepted: `commands` says that it is one, and its reply is no
/// refusal.
fn is_accepted(commands: bool, reply: &Reply) -> bool
    ensures { result ≡ (commands && not (is_refused reply.now)) }
{
    commands && !reply.is_refused()
}

/// Judges a request under a new number by its kind, and carries out an accepted command. Keeps the text of an export
/// that leaves something of it unread in `last`.
fn apply(
    holdings: &mut Holdings,
    last: &mut Option<KeptText>,
    stamp: Stamp,
    request: Request,
) -> Result<Reply, Refusal>
    requires new { reply_for stamp.client stamp.number holdings.old.store ≡ None }
    requires small { stamp.number < 2 ^ 63 }
    requires version { IsVersion stamp.version }
    ensures answers { AnswersIn (λ setting world. IsIn setting world holdings.old × IsLastText setting world last.old)
        (λ setting world. judge setting world stamp.version request) stamp holdings.old holdings.new (answered result) }
    ensures last { (setting : Setting) (world : World) → IsIn setting world holdings.old
        → IsLastText setting world last.old → IsLastText setting world last.new }
    ensures text { (profile from max : ℕ) (filter : Filter) → request ≡ requests.Export profile from max filter
        → IsTrue (is_followed from max (answered result)) → IsFor profile filter last.new }
{
    match request {
        Request::CreateProfile {
            scan_limit,
            match_all,
            hash,
        } => create_profile(holdings, stamp, scan_limit, match_all, hash),
        Request::AddFolder {
            profile,
            parent,
            modified,
            name,
        } => add_folder(holdings, stamp, profile, parent, modified, name),
        Request::AddFile {
            profile,
            parent,
            modified,
            size,
            piece_size,
            name,
        } => add_file(
            holdings, stamp, profile, parent, modified, size, piece_size, name,
        ),
        Request::Piece {
            profile,
            file,
            index,
            bytes,
        } => take_piece(holdings, stamp, profile, file, index, bytes),
        Request::Finish { profile, file } => finish(holdings, stamp, profile, file),
        Request::Abandon { profile, file } => abandon(holdings, stamp, profile, file),
        Request::Status { profile, file } => status(holdings, profile, file),
        Request::Export {
            profile,
            from,
            max,
            filter,
        } => export(holdings, last, profile, from, max, filter),
    }
}
