//! The machine that reads any journal whole, bare records included, and notes whether there was a bare one: whether the
//! journal was made small.

ghost use Rattle.std.specs.Prelude.{◌≡◌, ◌≤◌, ◌⊎◌, [], true, IfErr, IfOk};
ghost use Rattle.droid_core.specs.Identified.{IsOf};
ghost use Rattle.droid_core.specs.HoldingsStanding.{limits_given};
ghost use Rattle.droid_recovery.specs.Standing.{Recovery};
ghost use Rattle.droid_wire.specs.Standing.{ReadsRecords};

use droid_compaction::{BARE_FINISH, BARE_PIECE};
use droid_core::Limits;
use droid_frame::Frame;
use droid_journal::{Fault, Handled, Machine};
use droid_pronom::Registry;
use droid_recovery::RecoveringMachine;
use std::alloc::Global;

/// Reads a journal, and notes whether it was made small: whether a record has a piece or a Finish without the bytes of
/// the file.
#[derive(Drop)]
pub struct SmallReader {
    /// Takes the records.
    pub machine: RecoveringMachine,
    /// Whether such a record was read.
    pub is_small: bool,
}

impl SmallReader {
    /// Makes one that has read nothing yet, for a service with this registry and these limits, which are at most those
    /// of `Limits` in droid_core. Fails only if memory runs out.
    pub(crate) fn new(
        alloc: Global,
        registry: Registry,
        limits: Limits,
    ) -> Result<SmallReader, Fault>
        requires profiles { limits.profiles ≤ 64 }
        requires nodes { limits.nodes ≤ 100000 }
        requires unfinished { limits.unfinished ≤ 64 }
        ensures empty { IfOk result (λ reader.
            (recovery : Recovery) → recovery.setting.limits ≡ limits_given limits → IsOf registry recovery.setting
            → ReadsRecords recovery reader []) }
        ensures memory { IfErr result (λ fault. fault ≡ Fault.Memory) }
    {
        match RecoveringMachine::new(alloc, registry, limits) {
            Ok(machine) => Ok(SmallReader {
                machine,
                is_small: false,
            }),
            Err(_) => Err(Fault::Memory),
        }
    }
}

impl Machine for SmallReader {
    ghost use Rattle.droid_recovery.specs.Standing.{GivesReply};
    ghost use Rattle.droid_recovery.specs.Standing as recovering;
    ghost use Rattle.droid_wire.specs.Standing as standing;

    ghost Setting = { recovering.Recovery };

    ghost stands = { standing.ReadsRecords };

    ghost gives = { GivesReply };

    /// Handles the frame of the next record by the recovering machine, and notes whether it is a bare one that was
    /// accepted.
    fn handle(&mut self, frame: Frame, mark: [u8; 16]) -> Handled {
        let bare = is_bare(frame.kind);
        let handled = self.machine.handle(frame, mark);
        self.is_small = has_bare(self.is_small, bare, handled.accepted);
        handled
    }
}

/// Returns whether a frame of this kind is bare, that is, lacks the bytes of a file: kinds 68 and 69, which
/// droid_compaction writes. Its law `a_bare_frame_spells_no_request` ties its two constants to these numbers.
fn is_bare(kind: u8) -> bool
    ensures bare { result ≡ true → (kind ≡ 68) ⊎ (kind ≡ 69) }
    ensures all { (kind ≡ 68) ⊎ (kind ≡ 69) → result ≡ true }
{
    kind == BARE_PIECE || kind == BARE_FINISH
}

/// Returns whether a bare frame was accepted: one before this frame (`before`), or this one.
fn has_bare(before: bool, bare: bool, accepted: bool) -> bool
    ensures one { result ≡ true → (before ≡ true) ⊎ ((bare ≡ true) × (accepted ≡ true)) }
    ensures stays { before ≡ true → result ≡ true }
    ensures comes { bare ≡ true → accepted ≡ true → result ≡ true }
{
    before || (bare && accepted)
}
