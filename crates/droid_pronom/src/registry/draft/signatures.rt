//! S and B records: a new signature, and one more byte sequence of the signature before it.
//!
//! Each is judged in two parts, since its pattern is read in between: the fields before the pattern, then what it adds.
//! `specs/RegistryRecords.antt` writes both parts, with the order of the faults, under the same names.

ghost use Rattle.std.specs.Prelude.{◌≡◌, ◌<◌, ◌&&◌, nat_lt, Some, length, IfOk};
ghost use Rattle.droid_pronom.specs.Registry.{place_of};
ghost use Rattle.droid_pronom.specs.RegistryCalls.{draft_of, Gives, HasOutcome};
ghost use Rattle.droid_pronom.specs.RegistryRecords.{WithPattern, signature_head, signature_added, sequence_head};
ghost use Rattle.droid_pronom.specs.RegistryRecords.{sequence_added, is_same_place};

use crate::fields::{is_puid, offsets_of};
use crate::registry::draft::{Draft, ROWS_LIMIT};
use crate::registry::fault::{Fault, Refusal, check};
use crate::registry::row_text::pattern_of;
use crate::rows::{ByteSequence, Offsets, Signature};
use std::alloc::Global;

/// The most byte sequences that a registry may have. `specs/RegistryRecords.antt` has the same number, and the prover
/// ties them.
const SEQUENCES_LIMIT: u32 = 32_768;

impl Draft {
    /// Reads the fields of an S record before its pattern. Returns the place of the format and the offsets; `BadRecord`
    /// if a field is not of its form, and otherwise `UnknownPuid` if no earlier record has the format.
    #[tactic(auto, unfolding(crate::specs::RegistryRecords::signature_head))]
    fn signature_head(
        &self,
        puid: &str,
        anchor: &str,
        min: &str,
        max: &str,
    ) -> Result<(u32, Offsets), Refusal>
        ensures gives { Gives (λ head. head) result
            (signature_head (draft_of self.now) puid.now anchor.now min.now max.now) }
        ensures below { IfOk result (λ head. head.0 < length self.now.registry.formats) }
    {
        check(is_puid(puid), Fault::BadRecord)?;
        let Some(offsets) = offsets_of(anchor, min, max) else {
            return Err(Refusal::Fault(Fault::BadRecord));
        };
        let place = self.known(puid)?;
        Ok((place, offsets))
    }

    /// Adds an S record, or returns what is wrong with it: with its first fields, then with its pattern, then
    /// `TooMany`.
    #[tactic(auto, unfolding(crate::specs::RegistryRecords::signature_added))]
    pub(crate) fn take_signature(
        &mut self,
        alloc: Global,
        puid: &str,
        anchor: &str,
        min: &str,
        max: &str,
        pattern: &str,
    ) -> Result<(), Refusal>
        ensures { HasOutcome result (draft_of self.new)
            (WithPattern (signature_head (draft_of self.old) puid.now anchor.now min.now max.now) pattern.now
            (signature_added (draft_of self.old))) }
    {
        let (place, offsets) = self.signature_head(puid, anchor, min, max)?;
        let pattern = pattern_of(alloc, pattern)?;
        self.add_signature(alloc, place, ByteSequence { offsets, pattern })
    }

    /// Returns whether the limits allow one more signature, and one more byte sequence, which it comes with.
    fn has_room(&self) -> bool
        ensures { result ≡ (nat_lt (length self.now.registry.signatures) 16384 && nat_lt self.now.sequences 32768) }
    {
        self.registry.signatures().len() < ROWS_LIMIT && self.sequences < SEQUENCES_LIMIT
    }

    /// Adds a signature of the format at `place` with its first byte sequence, or returns `TooMany`. B records may then
    /// add to it.
    #[tactic(auto, unfolding(crate::specs::RegistryRecords::signature_added))]
    fn add_signature(
        &mut self,
        alloc: Global,
        place: u32,
        first: ByteSequence,
    ) -> Result<(), Refusal>
        requires { place < length self.old.registry.formats }
        ensures { Gives (λ _. draft_of self.new) result
            (signature_added (draft_of self.old) (place, first.offsets) (Some first.pattern)) }
    {
        check(self.has_room(), Fault::TooMany)?;
        let signature = Signature::new(alloc, place, first)?;
        self.registry.push_signature(signature)?;
        self.sequences += 1;
        self.current = Some(place);
        Ok(())
    }

    /// Returns whether the record just before is an S or a B with this PUID, so that a B record may stand here.
    fn goes_on(&self, puid: &str) -> bool
        ensures { result ≡ is_same_place self.now.current (place_of puid.now self.now.registry.formats) }
    {
        match (self.current, self.registry.by_puid(puid)) {
            (Some(current), Some(place)) => current == place,
            _ => false,
        }
    }

    /// Reads the fields of a B record before its pattern. Returns the offsets; `BadRecord` if a field is not of its
    /// form, or if the record may not stand here.
    #[tactic(auto, unfolding(crate::specs::RegistryRecords::sequence_head))]
    fn sequence_head(
        &self,
        puid: &str,
        anchor: &str,
        min: &str,
        max: &str,
    ) -> Result<Offsets, Refusal>
        ensures { Gives (λ offsets. offsets) result
            (sequence_head (draft_of self.now) puid.now anchor.now min.now max.now) }
    {
        let Some(offsets) = offsets_of(anchor, min, max) else {
            return Err(Refusal::Fault(Fault::BadRecord));
        };
        check(self.goes_on(puid), Fault::BadRecord)?;
        Ok(offsets)
    }

    /// Adds a B record, or returns what is wrong with it: with its first fields, then with its pattern, then `TooMany`.
    #[tactic(auto, unfolding(crate::specs::RegistryRecords::sequence_added))]
    pub(crate) fn take_sequence(
        &mut self,
        alloc: Global,
        puid: &str,
        anchor: &str,
        min: &str,
        max: &str,
        pattern: &str,
    ) -> Result<(), Refusal>
        ensures { HasOutcome result (draft_of self.new)
            (WithPattern (sequence_head (draft_of self.old) puid.now anchor.now min.now max.now) pattern.now
            (sequence_added (draft_of self.old))) }
    {
        let offsets = self.sequence_head(puid, anchor, min, max)?;
        let pattern = pattern_of(alloc, pattern)?;
        self.add_sequence(ByteSequence { offsets, pattern })
    }

    /// Adds a byte sequence to the last signature, or returns `TooMany`.
    #[tactic(auto, unfolding(crate::specs::RegistryRecords::sequence_added))]
    fn add_sequence(&mut self, sequence: ByteSequence) -> Result<(), Refusal>
        ensures { Gives (λ _. draft_of self.new) result
            (sequence_added (draft_of self.old) sequence.offsets (Some sequence.pattern)) }
    {
        check(self.sequences < SEQUENCES_LIMIT, Fault::TooMany)?;
        self.registry.push_sequence(sequence)?;
        self.sequences += 1;
        Ok(())
    }
}
