//! AddFolder: new folders.

ghost use Rattle.std.specs.Prelude.{◌≡◌, ◌<◌, ◌^◌, None};
ghost use Rattle.droid_core.specs.Answering.{Answers};
ghost use Rattle.droid_core.specs.Changes.{answered};
ghost use Rattle.droid_core_spec.specs.Judging.{judge_folder};
ghost use Rattle.droid_frame.specs.Versions.{IsVersion};
ghost use Rattle.droid_store.specs.Rows.{reply_for};

use crate::checks::refusals::folder_refusal;
use crate::commands::destination::{node_room, path_of_new};
use crate::holdings::Holdings;
use crate::look_ups::profile_of;
use crate::replies::entry_of;
use crate::stamps::Stamp;
use droid_frame::{Refusal, Reply, Text};

/// Adds a folder to a profile, below the folder `parent` or, if that is 0, at the top. Its number is the count of nodes
/// that the profile has had and 1. Refuses with NoSuchProfile, then as [`path_of_new`], then as [`folder_refusal`].
pub fn add_folder(
    holdings: &mut Holdings,
    stamp: Stamp,
    profile: u32,
    parent: u32,
    modified: i64,
    name: Text,
) -> Result<Reply, Refusal>
    requires new { reply_for stamp.client stamp.number holdings.old.store ≡ None }
    requires small { stamp.number < 2 ^ 63 }
    requires version { IsVersion stamp.version }
    ensures answers { Answers (λ setting world. judge_folder setting world profile parent modified name) stamp
        holdings.old holdings.new (answered result) }
{
    let row = profile_of(holdings.store.profile(profile))?;
    let path = path_of_new(
        holdings.alloc,
        &mut holdings.store,
        profile,
        parent,
        name.as_str(),
    )?;
    let nodes = node_room(holdings, row);
    if let Some(refusal) = folder_refusal(modified, nodes) {
        return Err(refusal);
    }
    let id = row.nodes + 1;
    let reply = Reply::Node { id };
    let entry = entry_of(holdings.alloc, stamp, &reply)?;
    holdings.store.commit_folder(
        &entry,
        profile,
        id,
        parent,
        modified,
        name.as_str(),
        path.as_str(),
    )?;
    Ok(reply)
}
