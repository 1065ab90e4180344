//! Recovering the Finish of a bare file: there are no bytes to identify, so its reply says what was found.

ghost use Rattle.std.specs.Prelude.{◌≡◌, ◌<◌, ◌^◌, ◌++◌, ◌∷◌, [], None, IfErr, OnErr, OnOk};
ghost use Rattle.droid_recovery.specs.BareWorlds.{Bare};
ghost use Rattle.droid_recovery.specs.Recovering.{IsBareFinish, Recovers};
ghost use Rattle.droid_recovery.specs.Taking.{MayTake};
ghost use Rattle.droid_core_spec.specs.Files.{Finding, finished_reply};
ghost use Rattle.droid_core_spec.specs.Histories.{Entry as Accepted, History};
ghost use Rattle.droid_core_spec.specs.Setting.{Setting};
ghost use Rattle.droid_core.specs.Rows.{with_finding};
ghost use Rattle.droid_frame.specs.Replies.{HasReplySpelling};
ghost use Rattle.droid_frame.specs.Versions.{IsVersion};
ghost use Rattle.std.specs.List.{AllByRecursion};
ghost use Rattle.droid_store.specs.Changes.{IsOfKind, IsOpen, IsWord, with_reply};
ghost use Rattle.droid_store.specs.Rows.{reply_for};
ghost use Rattle.droid_store.specs.Sizes.{FitsARow, entry_size};

use crate::reply_conditions::{are_words, is_of_kind, is_open, see_new};
use crate::revival_fault::RecoveryFault;
use droid_core::{Holdings, Stamp, entry_of};
use droid_frame::{HashValue, Reply, Texts};
use droid_store::{Entry, Store};

/// Finishes a bare file: keeps the reply, with what it says was found, and then drops the file's assembly, which takes
/// no memory. `Memory` if memory runs out; `Unfit` if a reply is kept under this number, the number is 2^63 or more,
/// the file is not an unfinished one, or the reply is no Finished that fits it.
pub fn recover_finish(
    holdings: &mut Holdings,
    stamp: Stamp,
    profile: u32,
    file: u32,
    reply: &Reply,
) -> Result<(), RecoveryFault>
    requires version { IsVersion stamp.version }
    requires spelled { HasReplySpelling stamp.version reply.now }
    ensures recovers { (setting : Setting) (bare : Bare) (history : History) (entry : Accepted)
        → Recovers setting bare holdings.old history
        → IsBareFinish setting bare history entry stamp profile file → reply.now ≡ entry.reply
        → OnOk result (Recovers setting bare holdings.new (history ++ entry ∷ [])) }
    ensures memory { (setting : Setting) (bare : Bare) (history : History) (entry : Accepted)
        → Recovers setting bare holdings.old history
        → IsBareFinish setting bare history entry stamp profile file → reply.now ≡ entry.reply
        → IfErr result (λ fault. fault ≡ RecoveryFault.Memory) }
    ensures unchanged { OnErr result (holdings.new ≡ holdings.old) }
{
    see_new(&mut holdings.store, stamp)?;
    let Some(place) = holdings.files.place_of(profile, file) else {
        return Err(RecoveryFault::Unfit);
    };
    let Ok(entry) = entry_of(holdings.alloc, stamp, reply) else {
        return Err(RecoveryFault::Memory);
    };
    keep_reply(&mut holdings.store, &entry, profile, file, reply)?;
    holdings.files.remove(place);
    Ok(())
}

/// Keeps the reply to the Finish of a file, and what it says was found, in one commit. `entry` is the row of this
/// reply. `Unfit` if it is no Finished, or [`see_file`] or the store says so; `Memory` if memory runs out.
fn keep_reply(
    store: &mut Store,
    entry: &Entry,
    profile: u32,
    file: u32,
    reply: &Reply,
) -> Result<(), RecoveryFault>
    requires new { reply_for entry.now.client entry.now.number store.old ≡ None }
    requires small { entry.now.number < 2 ^ 63 }
    requires fits { FitsARow (entry_size entry.now) }
    requires spelled { HasReplySpelling entry.now.version reply.now }
    ensures kept { (finding : Finding) → reply.now ≡ finished_reply finding
        → OnOk result (store.new ≡ with_reply entry.now (with_finding profile file finding store.old)) }
    ensures memory { (finding : Finding) → reply.now ≡ finished_reply finding → MayTake profile file finding store.old
        → IfErr result (λ fault. fault ≡ RecoveryFault.Memory) }
    ensures not_kept { OnErr result (store.new ≡ store.old) }
{
    match reply {
        Reply::Finished {
            method,
            mismatch,
            hash,
            puids,
        } => {
            see_file(store, profile, file, *hash, puids)?;
            match store.commit_finish(entry, profile, file, *method, *mismatch, *hash, puids) {
                Ok(()) => Ok(()),
                Err(fault) => Err(RecoveryFault::from(fault)),
            }
        }
        _ => Err(RecoveryFault::Unfit),
    }
}

/// Checks that the file is unfinished, that the hash is of its profile's kind, and that the identifiers are words, so
/// that the store can keep them. `Unfit` if not; `Memory` if a look-up fails.
#[tactic(auto, using(crate::proofs::WordLists::words_of, crate::proofs::WordLists::words_seen))]
fn see_file(
    store: &mut Store,
    profile: u32,
    file: u32,
    hash: HashValue,
    puids: &Texts,
) -> Result<(), RecoveryFault>
    ensures same { store.new ≡ store.old }
    ensures open { OnOk result (IsOpen profile file store.old) }
    ensures kind { OnOk result (IsOfKind profile hash store.old) }
    ensures words { OnOk result (AllByRecursion IsWord puids.now) }
    ensures memory { IsOpen profile file store.old → IsOfKind profile hash store.old → AllByRecursion IsWord puids.now
        → IfErr result (λ fault. fault ≡ RecoveryFault.Memory) }
{
    let open = is_open(store, profile, file)?;
    let same_kind = is_of_kind(store, profile, hash)?;
    if !open {
        return Err(RecoveryFault::Unfit);
    }
    if !same_kind {
        return Err(RecoveryFault::Unfit);
    }
    if !are_words(puids) {
        return Err(RecoveryFault::Unfit);
    }
    Ok(())
}
