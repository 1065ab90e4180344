//! Reads the texts of byte sequences, and checks what a registry asks of their offsets and positions.

ghost use Rattle.std.specs.Prelude.{◌≡◌, ◌↔◌, ◌<◌, ◌∷◌, IsTrue, IfErr, IfOk, OnOk, map};
ghost use Rattle.droid_signature_file.specs.Sequences.{IsAnchorOf};
ghost use Rattle.droid_signature_file.specs.declared.sequence.Reference.TheVariants.{End, Other};
ghost use Rattle.droid_signature_pattern.specs.TermValues.{term_of};
ghost use Rattle.droid_signature_pattern.specs.Outcomes.{IfLeftOut};
ghost use Rattle.droid_signature_pattern.specs.declared.reason.Reason.TheVariants as reasons;
ghost use Rattle.droid_signature_pattern.specs.Parts.{AreReadFragments, AreReadParts, IsReadFragment, IsReadPart};
ghost use Rattle.droid_signature_pattern.specs.Parts.{IsReadText};
ghost use Rattle.droid_signature_pattern.specs.Positions.{ArePositions};
ghost use Rattle.droid_signature_pattern.specs.Reasons.{AreRead, HasNoUpper, IsRead, IsReasonOfFragment};
ghost use Rattle.droid_signature_pattern.specs.Reasons.{IsReasonOfFurther, IsReasonOfPart, IsReasonOfParts};
ghost use Rattle.droid_signature_pattern.specs.Reasons.{IsReasonOfSequence, IsReasonOfSide, IsReasonOfText};
ghost use Rattle.std.specs.List.{AllByRecursion, Any};

use crate::offsets::{bounds_of, lower_of};
use crate::parser::read_text;
use crate::positions::{are_numbered, see_positions};
use crate::read_parts::{ReadFragment, ReadPart, ReadSequence};
use crate::reason::{Reason, Stop};
use crate::term::TextTerm;
use crate::text_fault::TextFault;
use droid_pronom::{Anchor, Offsets};
use droid_signature_file::{Fragment, Reference, SequenceRecord, SubSequence};
use std::alloc::Global;

/// The most bytes of the text of a sequence or a fragment. This limit is the project's own. The definitions
/// `IsReadText` and `IsReasonOfText` have this number too.
const LONGEST_TEXT: usize = 65_536;

/// Reads a byte sequence. If there are several reasons why a registry cannot hold it, returns one of them; which one,
/// no clause says.
pub(crate) fn read_sequence(alloc: Global, sequence: &SequenceRecord) -> Result<ReadSequence, Stop>
    ensures ok { IfOk result (λ read. IsRead sequence.now read.offsets read.first read.further.items) }
    ensures err { IfLeftOut result (IsReasonOfSequence sequence.now) }
{
    let from = sequence.reference();
    let parts = sequence.parts();
    let anchor = anchor_of(from)?;
    if are_several_from_end(from, parts.len()) {
        return Err(Stop::LeftOut(Reason::SeveralFromEnd));
    }
    if !are_numbered(parts) {
        return Err(Stop::LeftOut(Reason::SubsequencePositions));
    }
    let Some((first, further)) = parts.split_first() else {
        return Err(Stop::LeftOut(Reason::NoSubsequence));
    };
    let read = read_parts(alloc, anchor, first, further)?;
    Ok(read)
}

/// Returns whether there are several subsequences whose offsets count from the end.
fn are_several_from_end(reference: Reference, count: usize) -> bool
    ensures { IsTrue result ↔ ((reference ≡ End) × (1 < count)) }
{
    match reference {
        Reference::End => count > 1,
        Reference::Beginning | Reference::Other => false,
    }
}

/// Reads the subsequences of a byte sequence. Its offsets are those of the first.
fn read_parts(
    alloc: Global,
    anchor: Anchor,
    first: &SubSequence,
    further: &[SubSequence],
) -> Result<ReadSequence, Stop>
    ensures ok { IfOk result (λ read. AreRead anchor first.now further.now read.offsets read.first read.further.items) }
    ensures err { IfLeftOut result (λ reason. IsReasonOfParts reason (first.now ∷ further.now)) }
{
    let bounds = bounds_of(first.offsets())?;
    let first = read_part(alloc, first)?;
    let further = read_further(alloc, further)?;
    Ok(ReadSequence {
        offsets: Offsets {
            anchor,
            min: bounds.0,
            max: bounds.1,
        },
        first,
        further,
    })
}

/// Returns the end of a file from which a registry counts: it knows no other reference.
fn anchor_of(reference: Reference) -> Result<Anchor, Reason>
    ensures ok { IfOk result (IsAnchorOf reference) }
    ensures err { IfErr result (λ reason. (reason ≡ reasons.Reference) × (reference ≡ Other)) }
{
    match reference {
        Reference::Beginning => Ok(Anchor::Bof),
        Reference::End => Ok(Anchor::Eof),
        Reference::Other => Err(Reason::Reference),
    }
}

/// Reads the subsequences behind the first, up to the first of them that a registry cannot hold.
fn read_further(alloc: Global, parts: &[SubSequence]) -> Result<Vec<ReadPart>, Stop>
    ensures ok { IfOk result (λ read. AreReadParts parts.now read.items) }
    // None of them has an upper offset.
    ensures plain { OnOk result (AllByRecursion HasNoUpper parts.now) }
    ensures err { IfLeftOut result (λ reason. Any (IsReasonOfFurther reason) parts.now) }
{
    let mut read = Vec::new(alloc);
    for part in parts {
        let more = read_one_further(alloc, part)?;
        read.push(more)?;
    }
    Ok(read)
}

/// Reads a subsequence behind the first. A registry cannot hold how far at most it lies behind the one before: an upper
/// offset is refused with `FurtherUpperOffset`, but 0 is taken as none.
fn read_one_further(alloc: Global, part: &SubSequence) -> Result<ReadPart, Stop>
    ensures ok { IfOk result (IsReadPart part.now) }
    ensures plain { OnOk result (HasNoUpper part.now) }
    ensures err { IfLeftOut result (λ reason. IsReasonOfFurther reason part.now) }
{
    let upper = part.offsets().max.unwrap_or(0);
    if upper != 0 {
        return Err(Stop::LeftOut(Reason::FurtherUpperOffset));
    }
    let read = read_part(alloc, part)?;
    Ok(read)
}

/// Reads a subsequence: its lower offset, its text and its fragments. Whether it has an upper offset is for the
/// callers.
fn read_part(alloc: Global, part: &SubSequence) -> Result<ReadPart, Stop>
    ensures ok { IfOk result (IsReadPart part.now) }
    ensures err { IfLeftOut result (λ reason. IsReasonOfPart reason part.now) }
{
    let least = lower_of(part.offsets())?;
    let left = read_fragments(alloc, part.left())?;
    let terms = read_terms(alloc, part.text())?;
    let right = read_fragments(alloc, part.right())?;
    Ok(ReadPart::new(least, left, terms, right))
}

/// Reads the fragments on one side of a subsequence, once all their positions are right.
fn read_fragments(alloc: Global, fragments: &[Fragment]) -> Result<Vec<ReadFragment>, Stop>
    ensures ok { IfOk result (λ read. AreReadFragments fragments.now read.items) }
    ensures positions { OnOk result (ArePositions fragments.now) }
    ensures err { IfLeftOut result (IsReasonOfSide fragments.now) }
{
    see_positions(fragments)?;
    let mut read = Vec::new(alloc);
    for fragment in fragments {
        let more = read_fragment(alloc, fragment)?;
        read.push(more)?;
    }
    Ok(read)
}

/// Reads a fragment. How far away it lies has to have an upper limit.
fn read_fragment(alloc: Global, fragment: &Fragment) -> Result<ReadFragment, Stop>
    ensures ok { IfOk result (IsReadFragment fragment.now) }
    ensures err { IfLeftOut result (λ reason. IsReasonOfFragment reason fragment.now) }
{
    let bounds = bounds_of(fragment.offsets)?;
    let terms = read_terms(alloc, fragment.text.as_str())?;
    Ok(ReadFragment::new(fragment.position, bounds.0, bounds.1, terms))
}

/// Reads the text of a sequence or a fragment, if it is not too long (`LongText`) and follows the grammar (`Text`).
fn read_terms(alloc: Global, text: &str) -> Result<Vec<TextTerm>, Stop>
    ensures ok { IfOk result (λ terms. IsReadText text.now (map term_of terms.items)) }
    ensures err { IfLeftOut result (IsReasonOfText text.now) }
{
    if text.len() > LONGEST_TEXT {
        return Err(Stop::LeftOut(Reason::LongText));
    }
    match read_text(alloc, text) {
        Ok(terms) => Ok(terms),
        Err(TextFault::BadText) => Err(Stop::LeftOut(Reason::Text)),
        Err(TextFault::Memory) => Err(Stop::Memory),
    }
}
