//! What a signature becomes: for each of its byte sequences, offsets and patterns any of which has to hit.

ghost use Rattle.std.specs.Prelude.{◌≡◌, ◌≤◌, IfOk, length};
ghost use Rattle.std.specs.List.{list_all};
ghost use Rattle.droid_signature_pattern.specs.Outcomes.{IfLeftOut};
ghost use Rattle.droid_signature_pattern.specs.Choices.{AreTaken, IsReasonOf, IsTaken};
ghost use Rattle.droid_signature_pattern.specs.Ends as ends;
ghost use Rattle.droid_signature_pattern.specs.Reasons.{IsReasonOfOne};

use crate::part_texts::sequence_texts;
use crate::pattern_text::PatternText;
use crate::pattern_texts::PatternTexts;
use crate::reason::{Reason, Stop};
use crate::sequence_reader::read_sequence;
use droid_pronom::Offsets;
use droid_signature_file::{InternalSignature, SequenceRecord};
use std::alloc::Global;

/// The most ways to choose one pattern for each byte sequence of a signature. This limit is the project's own. The
/// definitions `AreTaken` and `HaveManyWays` have this number too, and the clauses `ways all.now ≤ 64` of
/// `droid_signature`, which makes a signature of a registry of each way. `MOST_PATTERNS` is another 64.
const MOST_WAYS: usize = 64;

/// Offsets, and the patterns any of which has to hit there.
pub struct Choices {
    pub offsets: Offsets,
    pub texts: PatternTexts,
}

// Written by hand, so that the crates above do not prove again how each part is dropped.
impl Drop for Choices {
    fn drop(self) {
        let Choices {
            offsets: _offsets,
            texts: _texts,
        } = self;
    }
}

/// Returns what a signature becomes: for each byte sequence the choices that stand for it, or why a registry cannot
/// hold it. There are at most 64 ways to take one choice of each.
pub fn choices_of(alloc: Global, signature: &InternalSignature) -> Result<Vec<Choices>, Stop>
    // The choices hit where the signature's byte sequences do, and a registry reads them.
    ensures taken { IfOk result (λ all. AreTaken signature.now.sequences all.items) }
    // The reason is true.
    ensures left_out { IfLeftOut result (IsReasonOf signature.now.sequences) }
{
    let all = choices_of_sequences(alloc, signature.sequences())?;
    Ok(all)
}

/// Returns what byte sequences become that all have to hit. There has to be one at least (`NoSequence`). Ends at the
/// first that a registry cannot hold, or with which there are too many ways to choose (`ManyAlternatives`).
fn choices_of_sequences(alloc: Global, sequences: &[SequenceRecord]) -> Result<Vec<Choices>, Stop>
    ensures taken { IfOk result (λ all. AreTaken sequences.now all.items) }
    ensures left_out { IfLeftOut result (IsReasonOf sequences.now) }
{
    if sequences.is_empty() {
        return Err(Stop::LeftOut(Reason::NoSequence));
    }
    let mut all = Vec::new(alloc);
    let mut count = 1;
    for sequence in sequences {
        let choices = choices_of_sequence(alloc, sequence)?;
        count *= choices.texts.len();
        all.push(choices)?;
        if count > MOST_WAYS {
            return Err(Stop::LeftOut(Reason::ManyAlternatives));
        }
    }
    Ok(all)
}

/// Returns what a byte sequence becomes: its offsets and the texts of its patterns, none of which may be empty or end
/// in a gap (`GapAtEnd`). The clause `few` has `MOST_PATTERNS` of `pattern_texts.rt`: so the caller's product fits.
fn choices_of_sequence(alloc: Global, sequence: &SequenceRecord) -> Result<Choices, Stop>
    ensures taken { IfOk result (IsTaken sequence.now) }
    ensures few { IfOk result (λ choices. length choices.texts ≤ 64) }
    ensures left_out { IfLeftOut result (λ reason. IsReasonOfOne reason sequence.now) }
{
    let read = read_sequence(alloc, sequence)?;
    let texts = sequence_texts(alloc, &read)?;
    if !end_in_bytes(texts.as_slice()) {
        return Err(Stop::LeftOut(Reason::GapAtEnd));
    }
    Ok(Choices {
        offsets: read.offsets,
        texts,
    })
}

/// Returns whether no text is empty or ends in a gap.
fn end_in_bytes(texts: &[PatternText]) -> bool
    ensures { result ≡ list_all ends.ends_in_byte texts.now }
{
    texts.iter().all(|text| ends_in_byte(text.as_slice()))
}

/// Returns whether a text is not empty and does not end in a gap: the text of a gap ends in `}` or `*`, and no other.
#[tactic(auto, using(crate::proofs::Ends::ends_last, crate::proofs::Ends::ends_none))]
fn ends_in_byte(text: &[u8]) -> bool
    ensures { result ≡ ends.ends_in_byte text.now }
{
    if text.is_empty() {
        return false;
    }
    let last = text[text.len() - 1];
    last != b'}' && last != b'*'
}
