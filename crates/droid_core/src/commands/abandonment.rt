//! Abandon: the end of a file that is given up.

ghost use Rattle.std.specs.Prelude.{◌≡◌, ◌<◌, ◌^◌, None};
ghost use Rattle.droid_core.specs.Answering.{Answers};
ghost use Rattle.droid_core.specs.Changes.{answered};
ghost use Rattle.droid_core_spec.specs.Judging.{judge_abandon};
ghost use Rattle.droid_frame.specs.Versions.{IsVersion};
ghost use Rattle.droid_store.specs.Rows.{reply_for};

use crate::file_rows::unfinished_file;
use crate::holdings::Holdings;
use crate::replies::entry_of;
use crate::stamps::Stamp;
use droid_frame::{Refusal, Reply};

/// Abandons an unfinished file, and drops its pieces: first the store's row goes, with the reply kept, and then, which
/// takes no memory, the assembly. Refuses as [`unfinished_file`].
pub fn abandon(
    holdings: &mut Holdings,
    stamp: Stamp,
    profile: u32,
    file: u32,
) -> Result<Reply, Refusal>
    requires new { reply_for stamp.client stamp.number holdings.old.store ≡ None }
    requires small { stamp.number < 2 ^ 63 }
    requires version { IsVersion stamp.version }
    ensures answers { Answers (λ setting world. judge_abandon world profile file) stamp holdings.old holdings.new
        (answered result) }
{
    let found = unfinished_file(&mut holdings.store, &holdings.files, profile, file)?;
    let entry = entry_of(holdings.alloc, stamp, &Reply::Abandoned)?;
    holdings.store.commit_abandon(&entry, profile, file)?;
    holdings.files.remove(found.place);
    Ok(Reply::Abandoned)
}
