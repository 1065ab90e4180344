//! The machine that reads a journal that was made small.

ghost use Rattle.std.specs.NonZero.{non_zero_usize_get};
ghost use Rattle.std.specs.Prelude.{◌≡◌, ◌≤◌, [], IfErr, IfOk, List, not};
ghost use Rattle.droid_core.specs.Cached.{cache_size_of};
ghost use Rattle.droid_core.specs.Standing.{StandsFor};
ghost use Rattle.droid_recovery.specs.BareWorlds.{HaveEnded};
ghost use Rattle.droid_core_spec.specs.Histories.{History, world_of};
ghost use Rattle.droid_frame.specs.Replies.{is_refused};
ghost use Rattle.droid_core.specs.Identified.{IsOf};
ghost use Rattle.droid_core.specs.HoldingsStanding.{limits_given};
ghost use Rattle.droid_journal.specs.Records.{Record};
ghost use Rattle.droid_recovery.specs.BareRecords.{HaveHistory};
ghost use Rattle.droid_recovery.specs.Standing.{Recovery, StandsForRecords};

use crate::record_step::take;
use crate::service::service_of;
use crate::words::see_words;
use droid_core::{Holdings, Limits, Service, UnfinishedFiles};
use droid_frame::{Frame, Reply};
use droid_journal::{Handled, Machine};
use droid_pronom::Registry;
use droid_store::{Store, StoreFault};
use std::alloc::{AllocError, Global};
use std::num::NonZeroUsize;

/// The machine that reads a journal that was made small. It gives the request of each record that such a journal can
/// have the reply of that record, or says that memory ran out. Not every other request is refused: opening, in
/// `replay.rt` of droid_journal, compares the reply with the record's.
pub struct RecoveringMachine {
    holdings: Holdings,
}

// Frees its one field, as a derived `Drop` would. Written by hand, so that the crates above do not prove again how each
// part is dropped. No clause says more.
impl Drop for RecoveringMachine {
    fn drop(self) {
        let RecoveringMachine {
            holdings: _holdings,
        } = self;
    }
}

impl RecoveringMachine {
    /// Makes a machine that has read nothing yet, for a service with this registry and these limits, which are at most
    /// those of `Limits` in droid_core; its `AreAllowed` ties the numbers. Fails only if memory runs out.
    pub fn new(
        alloc: Global,
        registry: Registry,
        limits: Limits,
    ) -> Result<RecoveringMachine, StoreFault>
        requires profiles { limits.profiles ≤ 64 }
        requires nodes { limits.nodes ≤ 100000 }
        requires unfinished { limits.unfinished ≤ 64 }
        ensures empty { IfOk result (λ machine.
            (recovery : Recovery) → recovery.setting.limits ≡ limits_given limits → IsOf registry recovery.setting
            → StandsForRecords recovery machine []) }
        ensures memory { IfErr result (λ fault. fault ≡ StoreFault.Memory) }
    {
        see_words(&registry);
        let holdings = Holdings {
            alloc,
            limits,
            registry,
            store: Store::in_memory(alloc)?,
            files: UnfinishedFiles::new(alloc, limits.unfinished)?,
        };
        Ok(RecoveringMachine { holdings })
    }

    /// Makes the service, which caches up to `places` replies. If each bare file has ended, the service has the history
    /// of the records, so it answers every request as if it had received the requests whole. Fails only if memory runs
    /// out.
    pub fn into_service(self, places: NonZeroUsize) -> Result<Service, AllocError>
        ensures stands { IfOk result (λ service.
            (recovery : Recovery) (records : List Record) (history : History) → StandsForRecords recovery self records
            → HaveHistory recovery.setting recovery.bare [] records history
            → HaveEnded recovery.bare (world_of recovery.setting history)
            → StandsFor recovery.setting service history) }
        ensures cache { IfOk result (λ service. cache_size_of service ≡ non_zero_usize_get places) }
    {
        let RecoveringMachine { holdings } = self;
        let service = service_of(holdings, places)?;
        Ok(service)
    }
}

impl Machine for RecoveringMachine {
    ghost use Rattle.droid_recovery.specs.Standing as standing;

    ghost Setting = { standing.Recovery };

    ghost stands = { standing.StandsForRecords };

    ghost gives = { standing.GivesReply };

    /// Handles the frame of the next record, whose mark this is. It is accepted if its reply is no refusal: a journal
    /// has accepted requests alone.
    fn handle(&mut self, frame: Frame, mark: [u8; 16]) -> Handled {
        let reply = take(&mut self.holdings, frame, mark);
        let accepted = accepts(&reply);
        Handled { reply, accepted }
    }
}

/// Returns whether a reply is no refusal, so that its request may stand in a journal.
fn accepts(reply: &Reply) -> bool
    ensures { result ≡ not (is_refused reply.now) }
{
    !reply.is_refused()
}
