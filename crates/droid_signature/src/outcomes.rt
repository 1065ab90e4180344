//! What each signature of a file becomes in the registry, made once, however many formats name it.

ghost use Rattle.std.specs.Prelude.{◌≡◌, ℕ, List, Some, slice_get, option_copied, IfErr, IfOk};
ghost use Rattle.droid_signature_pattern.specs.Choices.{AreTaken};
ghost use Rattle.droid_signature_file.specs.Records.{SignatureRecord};
ghost use Rattle.droid_signature.specs.Outcomes.{AreOutcomes, AreOutcomesOf, IsOutcome, IsReasonHere};
ghost use Rattle.droid_signature.specs.Signatures.{IsOnlySignature, IsReasonOfId};

use crate::ids::{Holder, Ids};
use crate::left_out::Why;
use droid_signature_file::InternalSignature;
use droid_signature_pattern::{Choices, Reason, Stop, choices_of};
use std::alloc::{AllocError, Global};

/// What a signature of the file becomes.
#[derive(Drop)]
pub enum Outcome {
    /// For each byte sequence the choices that stand for it.
    Taken(Vec<Choices>),
    LeftOut(Reason),
}

/// The signatures of a file, by their IDs, and what each becomes.
#[derive(Drop)]
pub struct Outcomes {
    ids: Ids,
    outcomes: Vec<Outcome>,
}

impl Outcomes {
    /// Makes what each signature of the file becomes, also of those that no format names.
    pub fn of(alloc: Global, signatures: &[InternalSignature]) -> Result<Outcomes, AllocError>
        ensures { IfOk result (AreOutcomesOf signatures.now) }
    {
        let mut ids = Ids::new(alloc);
        let mut outcomes = Vec::new(alloc);
        for place in 0..signatures.len() {
            let outcome = outcome_of(alloc, &signatures[place])?;
            ids.note(signatures[place].id(), place)?;
            outcomes.push(outcome)?;
        }
        Ok(Outcomes { ids, outcomes })
    }

    /// Returns what the only signature of the file with an ID becomes, or why nothing: there is none or there are
    /// several, or a registry cannot hold it.
    pub fn of_id(&self, id: u32) -> Result<&[Choices], Why>
        ensures ok { IfOk result (λ all.
            (signatures : List SignatureRecord) → AreOutcomesOf signatures self.now
            → (at : ℕ) × (signature : SignatureRecord) × IsOnlySignature signatures id at signature
            × AreTaken signature.sequences all.now) }
        ensures err { IfErr result (λ why.
            (signatures : List SignatureRecord) → AreOutcomesOf signatures self.now → IsReasonOfId signatures id why) }
    {
        match self.ids.holder(id) {
            Holder::Nobody => Err(Why::NoSuchSignature),
            Holder::Several => Err(Why::SeveralSignatures),
            Holder::Only(place) => taken_at(self.outcomes.as_slice(), place),
        }
    }
}

/// Returns the choices that the signature at a place becomes, or why nothing. There is a signature at each place that
/// [`Ids`] returns, so `None` cannot come, and no clause says what it would give.
fn taken_at(outcomes: &[Outcome], place: usize) -> Result<&[Choices], Why>
    ensures ok { IfOk result (λ all.
        (signatures : List SignatureRecord) (signature : SignatureRecord) → AreOutcomes signatures outcomes.now
        → slice_get signatures place ≡ Some signature → AreTaken signature.sequences all.now) }
    ensures err { IfErr result (λ why.
        (signatures : List SignatureRecord) (signature : SignatureRecord) → AreOutcomes signatures outcomes.now
        → slice_get signatures place ≡ Some signature → IsReasonHere signature why) }
{
    match outcome_at(outcomes, place) {
        Some(Outcome::Taken(all)) => Ok(all.as_slice()),
        Some(Outcome::LeftOut(reason)) => Err(Why::Signature(*reason)),
        None => Err(Why::NoSuchSignature),
    }
}

/// Returns what the signature at a place becomes, if there is one.
fn outcome_at(outcomes: &[Outcome], place: usize) -> Option<&Outcome>
    ensures { option_copied result ≡ slice_get outcomes.now place }
{
    outcomes.get(place)
}

/// Returns what a signature becomes: choices for its byte sequences, or why it is left out. Fails only if memory runs
/// out.
fn outcome_of(alloc: Global, signature: &InternalSignature) -> Result<Outcome, AllocError>
    ensures { IfOk result (IsOutcome signature.now) }
{
    match choices_of(alloc, signature) {
        Ok(all) => Ok(Outcome::Taken(all)),
        Err(Stop::LeftOut(reason)) => Ok(Outcome::LeftOut(reason)),
        Err(Stop::Memory) => Err(AllocError),
    }
}
