//! CreateProfile: new profiles.

ghost use Rattle.std.specs.Prelude.{◌≡◌, ◌<◌, ◌^◌, Err, None, length};
ghost use Rattle.droid_core.specs.Answering.{Answers};
ghost use Rattle.droid_core.specs.Changes.{answered};
ghost use Rattle.droid_core.specs.HoldingsStanding.{IsIn};
ghost use Rattle.droid_frame.specs.declared.refusal.Refusal.{Refusal as RefusalValue};
ghost use Rattle.droid_core_spec.specs.Judging.{judge_create, Refuses};
ghost use Rattle.droid_core_spec.specs.Setting.{Setting};
ghost use Rattle.droid_core_spec.specs.World.{World};
ghost use Rattle.droid_frame.specs.Versions.{IsVersion};
ghost use Rattle.droid_store.specs.Rows.{reply_for};

use crate::checks::refusals::create_refusal;
use crate::checks::room::Room;
use crate::holdings::Holdings;
use crate::replies::entry_of;
use crate::stamps::Stamp;
use droid_frame::{HashKind, Refusal, Reply};

/// Makes an empty profile with this scan limit and this mode (`match_all`), whose files get a hash of this kind. Its
/// number is the count of profiles and 1. Refuses as [`create_refusal`].
pub fn create_profile(
    holdings: &mut Holdings,
    stamp: Stamp,
    scan_limit: u32,
    match_all: bool,
    hash: HashKind,
) -> Result<Reply, Refusal>
    requires new { reply_for stamp.client stamp.number holdings.old.store ≡ None }
    requires small { stamp.number < 2 ^ 63 }
    requires version { IsVersion stamp.version }
    ensures answers { Answers (λ setting world. judge_create setting world scan_limit match_all hash) stamp holdings.old
        holdings.new (answered result) }
    // A refusal comes before any call that takes memory.
    ensures refused { (setting : Setting) (world : World) (refusal : RefusalValue) → IsIn setting world holdings.old
        → judge_create setting world scan_limit match_all hash ≡ Refuses refusal → result ≡ Err refusal }
{
    let profiles = profile_room(holdings);
    if let Some(refusal) = create_refusal(scan_limit, profiles) {
        return Err(refusal);
    }
    let profile = profiles.count as u32 + 1;
    let reply = Reply::Made { profile };
    let entry = entry_of(holdings.alloc, stamp, &reply)?;
    holdings
        .store
        .commit_profile(&entry, profile, scan_limit, match_all, hash)?;
    Ok(reply)
}

/// Returns the number of profiles, which the store always knows, and the service's limit on them. Nothing of the
/// holdings changes.
fn profile_room(holdings: &mut Holdings) -> Room
    ensures count { result.count ≡ length holdings.old.store.profiles }
    ensures limit { result.limit ≡ holdings.old.limits.profiles }
    ensures store { holdings.new.store ≡ holdings.old.store }
    ensures files { holdings.new.files ≡ holdings.old.files }
    ensures limits { holdings.new.limits ≡ holdings.old.limits }
    ensures registry { holdings.new.registry ≡ holdings.old.registry }
{
    let counts = holdings.store.counts().unwrap();
    Room {
        count: counts.profiles,
        limit: holdings.limits.profiles,
    }
}
