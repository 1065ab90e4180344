//! The PUIDs of the rows of one record, so that none comes twice, and their digest.

ghost use Rattle.std.specs.Prelude.{◌≡◌, [], List, IfOk, OnOk};
ghost use Rattle.droid_hash.specs.Findings.{puids_digest};
ghost use Rattle.droid_lists.specs.FormatMaps.{AddsOwn, HasOwn, own_has};
ghost use Rattle.droid_lists.specs.ProfileRows.{puids_by};
ghost use Rattle.droid_lists.specs.RowTests.{Row};

use droid_frame::HashValue;
use droid_hash::RunningPuids;
use std::alloc::{AllocError, Global};
use std::collections::BTreeSet;

/// The PUIDs of the rows of a record so far.
#[derive(Drop)]
pub(crate) struct OwnPuids {
    puids: BTreeSet<String>,
    digest: RunningPuids,
}

impl OwnPuids {
    /// Makes the empty one, before the first row of a record. Takes no memory.
    pub(crate) fn new(alloc: Global) -> OwnPuids
        ensures { HasOwn result [] }
    {
        OwnPuids {
            puids: BTreeSet::new(alloc),
            digest: RunningPuids::new(),
        }
    }

    /// Returns whether a row of the record so far has this PUID.
    pub(crate) fn has(&self, puid: &str) -> bool
        ensures { result ≡ own_has self.now puid.now }
    {
        self.puids.contains(puid)
    }

    /// Adds the PUID of a row, also to the digest. After an error nothing is promised: the reading ends.
    pub(crate) fn add(&mut self, alloc: Global, puid: &str) -> Result<(), AllocError>
        ensures { OnOk result (AddsOwn self.old self.new puid.now) }
    {
        let key = String::from_str(alloc, puid)?;
        self.digest.add(puid.as_bytes());
        self.puids.insert(key)?;
        Ok(())
    }

    /// Returns the digest of the PUIDs, in the order in which they were added. It is compared with that of a reply.
    pub(crate) fn finish(self) -> HashValue
        ensures { (rows : List Row) → HasOwn self rows → result ≡ puids_digest (puids_by rows) }
    {
        let OwnPuids { puids: _, digest } = self;
        digest.finish()
    }
}
