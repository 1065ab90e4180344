//! What the rows say before a reply is kept: whether one is kept already, and whether they can take what it says.

ghost use Rattle.std.specs.Prelude.{◌≡◌, ◌<◌, ◌^◌, ◌↔◌, ◌==◌, None, IsTrue, IfErr, IfOk, OnOk};
ghost use Rattle.std.specs.List.{list_all, list_any};
ghost use Rattle.droid_recovery.specs.WordTests.{is_word};
ghost use Rattle.droid_store.specs.Changes.{IsOfKind, IsOpen};
ghost use Rattle.droid_store.specs.Rows.{reply_for};
ghost use Rattle.droid_store.specs.declared.fault.StoreFault.TheVariants.{Memory};

use crate::revival_fault::RecoveryFault;
use droid_core::Stamp;
use droid_frame::{HashValue, NUMBER_LIMIT, Text, Texts};
use droid_store::{Entry, NodeState, Store, StoreFault};

/// Returns the row of the reply that is kept under the client and number of this stamp, or `None` if there is none.
/// `Unfit`: the number is not below 2^63. `Memory`: memory ran out.
pub(crate) fn kept_row(store: &mut Store, stamp: Stamp) -> Result<Option<Entry>, RecoveryFault>
    ensures same { store.new ≡ store.old }
    ensures found { IfOk result (λ row. row ≡ reply_for stamp.client stamp.number store.old) }
    ensures small { OnOk result (stamp.number < 2 ^ 63) }
    ensures memory { stamp.number < 2 ^ 63 → IfErr result (λ fault. fault ≡ RecoveryFault.Memory) }
{
    if stamp.number >= NUMBER_LIMIT {
        return Err(RecoveryFault::Unfit);
    }
    match store.reply_of(stamp.client, stamp.number) {
        Ok(row) => Ok(row),
        Err(_) => Err(RecoveryFault::Memory),
    }
}

/// Checks that no reply is kept under the client and number of this stamp, and that the number is below 2^63. `Unfit`
/// if not; `Memory` if memory runs out.
pub(crate) fn see_new(store: &mut Store, stamp: Stamp) -> Result<(), RecoveryFault>
    ensures same { store.new ≡ store.old }
    ensures new { OnOk result (reply_for stamp.client stamp.number store.old ≡ None) }
    ensures small { OnOk result (stamp.number < 2 ^ 63) }
    ensures memory { reply_for stamp.client stamp.number store.old ≡ None → stamp.number < 2 ^ 63
        → IfErr result (λ fault. fault ≡ RecoveryFault.Memory) }
{
    if stamp.number >= NUMBER_LIMIT {
        return Err(RecoveryFault::Unfit);
    }
    match store.reply_of(stamp.client, stamp.number) {
        Ok(None) => Ok(()),
        Ok(Some(_)) => Err(RecoveryFault::Unfit),
        Err(_) => Err(RecoveryFault::Memory),
    }
}

/// Returns whether there is this profile, and its files have hashes of the kind of this one. Fails only if memory runs
/// out.
pub(crate) fn is_of_kind(
    store: &mut Store,
    profile: u32,
    hash: HashValue,
) -> Result<bool, StoreFault>
    ensures same { store.new ≡ store.old }
    ensures kind { IfOk result (λ it. IsTrue it ↔ IsOfKind profile hash store.old) }
    ensures memory { IfErr result (λ fault. fault ≡ Memory) }
{
    match store.profile(profile) {
        Ok(Some(row)) => Ok(row.hash == hash.kind()),
        Ok(None) => Ok(false),
        Err(fault) => Err(fault),
    }
}

/// Returns whether this profile has an unfinished file with this number. Fails only if memory runs out.
pub(crate) fn is_open(store: &mut Store, profile: u32, file: u32) -> Result<bool, StoreFault>
    ensures same { store.new ≡ store.old }
    ensures found { IfOk result (λ it. IsTrue it ↔ IsOpen profile file store.old) }
    ensures memory { IfErr result (λ fault. fault ≡ Memory) }
{
    match store.node(profile, file) {
        Ok(Some(row)) => Ok(row.state == NodeState::Unfinished),
        Ok(None) => Ok(false),
        Err(fault) => Err(fault),
    }
}

/// Returns whether each text is a word: not empty and without a space. The store keeps identifiers in one text with
/// spaces between them.
pub(crate) fn are_words(texts: &Texts) -> bool
    ensures { result ≡ list_all is_word texts.now }
{
    are_all_words(texts.as_slice())
}

/// Does the work of [`are_words`], on a slice.
fn are_all_words(texts: &[Text]) -> bool
    ensures { result ≡ list_all is_word texts.now }
{
    for place in 0..texts.len() {
        if !is_word(texts[place].as_str()) {
            return false;
        }
    }
    true
}

/// Returns whether a text has at least one byte and no space, so that the store can keep it as an identifier.
fn is_word(text: &str) -> bool
    ensures { result ≡ is_word text.now }
{
    let bytes = text.as_bytes();
    if bytes.len() > 0 {
        return !has_space(bytes);
    }
    false
}

/// Returns whether bytes have a space, which is 32.
fn has_space(bytes: &[u8]) -> bool
    ensures { result ≡ list_any (λ byte. byte == 32) bytes.now }
{
    bytes.contains(&32)
}
