//! Export: parts of the text that shows a profile.

ghost use Rattle.std.specs.Prelude.{◌≡◌, ◌≤◌, ℕ, IfOk, IfErr, IsOk, IsTrue, length};
ghost use Rattle.droid_core.specs.Answering.{AnswersIn};
ghost use Rattle.droid_core.specs.Changes.{answered};
ghost use Rattle.droid_core.specs.HoldingsStanding.{IsIn};
ghost use Rattle.droid_core.specs.declared.stamps.Stamp.{Stamp};
ghost use Rattle.droid_export.specs.Text.{HaveMoments};
ghost use Rattle.droid_frame.specs.Replies.{HasReplySpelling};
ghost use Rattle.droid_core.specs.KeptTexts.{IsFor, IsLastText, is_followed};
ghost use Rattle.droid_core_spec.specs.Exported.{part};
ghost use Rattle.droid_core_spec.specs.Judging.{judge_export};
ghost use Rattle.droid_core_spec.specs.Setting.{Setting};
ghost use Rattle.droid_core_spec.specs.World.{World};
ghost use Rattle.droid_store.specs.Rows.{records_of};

use crate::checks::refusals::export_refusal;
use crate::holdings::Holdings;
use crate::look_ups::profile_of;
use crate::queries::kept_text::{KeptText, forget_text, keep_text, text_for};
use droid_core_spec::is_moment;
use droid_export::export_text;
use droid_frame::{Blob, Filter, Record, Refusal, Reply};
use droid_store::Store;
use std::alloc::Global;

/// Returns a part of the text that shows the profile's records that meet the filter. Keeps the text for its further
/// parts, and reads a kept one if it is the same. Refuses with NoSuchProfile or BadOption, in this order, or with
/// Memory. A kept text of another export goes before the new one is made, so that not both take memory: if memory then
/// runs out, none is kept.
pub fn export(
    holdings: &mut Holdings,
    last: &mut Option<KeptText>,
    profile: u32,
    from: u64,
    max: u32,
    filter: Filter,
) -> Result<Reply, Refusal>
    ensures answers { (stamp : Stamp)
        → AnswersIn (λ setting world. IsIn setting world holdings.old × IsLastText setting world last.old)
        (λ setting world. judge_export setting world profile from max filter) stamp holdings.old holdings.new
        (answered result) }
    ensures last { (setting : Setting) (world : World) → IsIn setting world holdings.old
        → IsLastText setting world last.old → IsLastText setting world last.new }
    // The text is kept if this part leaves something of it unread, so that the next part needs no new one.
    ensures kept { IfOk result (λ reply. IsTrue (is_followed from max reply) → IsFor profile filter last.new) }
{
    let row = profile_of(holdings.store.profile(profile))?;
    if let Some(refusal) = export_refusal(max) {
        return Err(refusal);
    }
    let accepted = accepted_by(&mut holdings.store);
    if let Some(text) = text_for(last, profile, &filter) {
        let reply = part_of(holdings.alloc, accepted, text, from, max)?;
        return Ok(reply);
    }
    forget_text(last);
    let records = records_in(&mut holdings.store, profile)?;
    let shown = records.as_slice();
    let text = export_text(holdings.alloc, shown, &holdings.registry, &filter, row.hash)?;
    let reply = part_of(holdings.alloc, accepted, &text, from, max)?;
    keep_text(last, profile, filter, text, from, max);
    Ok(reply)
}

/// Returns the records of a profile, each with a moment that can be written, as the export's text needs it. Fails only
/// if there is no memory.
fn records_in(store: &mut Store, profile: u32) -> Result<Vec<Record>, Refusal>
    ensures same { store.new ≡ store.old }
    ensures found { IfOk result (λ records. records.items ≡ records_of profile store.old) }
    ensures moments { IfOk result (λ records. HaveMoments records.items) }
    ensures memory { HaveMoments (records_of profile store.old) → IfErr result (λ refusal. refusal ≡ Refusal.Memory) }
{
    let records = store.records(profile)?;
    with_moments(records)
}

/// Returns the records, each with a moment that can be written. It cannot happen that one has not: a service accepts no
/// other moment. The code would answer Store.
fn with_moments(records: Vec<Record>) -> Result<Vec<Record>, Refusal>
    ensures same { IfOk result (λ written. written.items ≡ records.items) }
    ensures moments { IfOk result (λ written. HaveMoments written.items) }
    ensures written { HaveMoments records.items → IsOk result }
    ensures failure { IfErr result (λ refusal. refusal ≡ Refusal.Store) }
{
    if !have_moments(records.as_slice()) {
        return Err(Refusal::Store);
    }
    Ok(records)
}

/// Returns whether each record has a moment that can be written: one of a year from 0001 to 9999, as `is_moment` of
/// droid_core_spec tests.
fn have_moments(records: &[Record]) -> bool
    ensures all { IsTrue result → HaveMoments records.now }
    ensures none { HaveMoments records.now → IsTrue result }
{
    for node in records {
        if !is_moment(node.modified) {
            return false;
        }
    }
    true
}

/// Returns the number of accepted commands, which the store always knows: the `as_of` of a part.
fn accepted_by(store: &mut Store) -> u64
    ensures same { store.new ≡ store.old }
    ensures found { result ≡ length store.old.replies }
{
    let counts = store.counts().unwrap();
    counts.accepted
}

/// Returns the reply with the part of a text that begins at `from`, counted from 0, and has at most `max` bytes. From
/// the text's end on it has none. Only the part's own bytes are copied, once; that copy alone can fail. 1048576 in the
/// clause is the most bytes of a part: `is_part_size`, and `PART_LIMIT` of droid_frame.
fn part_of(alloc: Global, accepted: u64, text: &Blob, from: u64, max: u32) -> Result<Reply, Refusal>
    ensures part { IfOk result (λ reply. reply ≡ part accepted text.now from max) }
    ensures spelled { (version : ℕ) → max ≤ 1048576 → HasReplySpelling version (answered result) }
    ensures failure { IfErr result (λ refusal. refusal ≡ Refusal.Memory) }
{
    let bytes = text.as_slice();
    let start = bytes.len().min(from as usize);
    let rest = &bytes[start..];
    let end = rest.len().min(max as usize);
    let bytes = Blob::copy_of(alloc, &rest[..end])?;
    Ok(Reply::Part {
        as_of: accepted,
        total: text.len() as u64,
        bytes,
    })
}
