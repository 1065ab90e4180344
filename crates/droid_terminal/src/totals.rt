//! The totals of a walk: its counts, and how many files have each format.

ghost use Rattle.std.specs.Prelude.{◌≡◌, [], ◌∷◌, OnOk};
ghost use Rattle.droid_terminal.specs.WalkCounts.{after_found, puids_of, CountsFormats, HasFew, KeepsFormats};

use crate::counts::Counts;
use droid_frame::{Reply, Text, Texts};
use std::alloc::{AllocError, Global};
use std::collections::BTreeMap;

/// How many formats are counted at most: a registry has no more. `HasFew` has the same number, which the prover ties to
/// it. Only this line ties it to the limit of `droid_pronom` (`FORMATS_LIMIT`) and to `PUIDS_LIMIT` of `droid_frame`.
const FORMATS_LIMIT: usize = 4_096;

/// The totals of a walk.
#[derive(Drop)]
pub(crate) struct Totals {
    alloc: Global,
    /// The counts of entries, files and bytes.
    pub counts: Counts,
    /// How many files have each format.
    pub formats: BTreeMap<String, u64>,
    /// Whether all formats were counted. False after memory ran out, and if there are too many.
    pub has_all_formats: bool,
}

impl Totals {
    /// Starts with zeros, and with no formats. Without a contract: all that is proved is what a file adds, and
    /// `test_summary` of `profile_progress.py` in `tests/program/folders` holds that it counts from 0.
    pub fn new(alloc: Global) -> Totals {
        Totals {
            alloc,
            counts: Counts::none(),
            formats: BTreeMap::new(alloc),
            has_all_formats: true,
        }
    }

    /// Counts how a file was identified and its formats, by the reply that finished it. Any other reply than `Finished`
    /// changes nothing. Where a format cannot be counted, `has_all_formats` becomes false for good.
    pub fn count_found(&mut self, found: &Reply)
        ensures counts { self.new.counts ≡ after_found found.now self.old.counts }
        ensures formats { KeepsFormats (puids_of found.now) self.old self.new }
        ensures few { HasFew self.old.formats self.new.formats }
    {
        self.counts.count_found(found);
        let Reply::Finished { puids, .. } = found else {
            return;
        };
        if count_formats(self.alloc, &mut self.formats, puids).is_err() {
            self.has_all_formats = false;
        }
    }
}

/// Counts each of these formats once. Fails if memory runs out or there are too many: only some are counted then, and
/// the caller notes that.
fn count_formats(
    alloc: Global,
    formats: &mut BTreeMap<String, u64>,
    puids: &Texts,
) -> Result<(), AllocError>
    ensures counts { OnOk result (CountsFormats puids.now formats.old formats.new) }
    ensures few { HasFew formats.old formats.new }
{
    for puid in puids.as_slice() {
        count_format(alloc, formats, puid)?;
    }
    Ok(())
}

/// Counts a format once. Fails if it is new, and there is no memory for it or enough formats are there.
fn count_format(
    alloc: Global,
    formats: &mut BTreeMap<String, u64>,
    puid: &Text,
) -> Result<(), AllocError>
    ensures counts { OnOk result (CountsFormats (puid.now ∷ []) formats.old formats.new) }
    ensures few { HasFew formats.old formats.new }
{
    if let Some(count) = formats.get_mut(puid.as_str()) {
        *count = count.saturating_add(1);
        return Ok(());
    }
    if formats.len() >= FORMATS_LIMIT {
        return Err(AllocError);
    }
    let puid = puid.try_clone(alloc)?.into_string();
    formats.insert(puid, 1)?;
    Ok(())
}
