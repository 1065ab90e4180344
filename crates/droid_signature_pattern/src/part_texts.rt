//! Writes the texts of the patterns that stand for subsequences: level by level, as `growth` explains.

ghost use Rattle.std.specs.Prelude.{◌≡◌, ◌==◌, ◌++◌, ◌∷◌, [], ℕ, IfOk, OnOk, map, if◌then◌else◌};
ghost use Rattle.droid_pattern.specs.Patterns.{OpenGap};
ghost use Rattle.droid_signature_file.specs.Pieces.{gap_patterns};
ghost use Rattle.droid_signature_pattern.specs.Outcomes.{IfLeftOut};
ghost use Rattle.droid_signature_pattern.specs.Texts.{AreSmall, joined_all};
ghost use Rattle.droid_signature_pattern.specs.Written.{written_each};
ghost use Rattle.droid_signature_pattern.specs.Parts as spec;
ghost use Rattle.droid_signature_pattern.specs.Reasons.{IsReasonOfFirstPart, IsReasonOfLevel, IsReasonOfNextPart};
ghost use Rattle.droid_signature_pattern.specs.Reasons.{IsReasonOfReadFragment, IsReasonOfReadPart, IsReasonOfRow};
ghost use Rattle.droid_signature_pattern.specs.declared.part_texts.Way.TheVariants as way;

use crate::element_texts::push_gap;
use crate::growth::{Growing, expanded};
use crate::pattern_texts::PatternTexts;
use crate::read_parts::{ReadFragment, ReadPart, ReadSequence};
use crate::reason::Stop;
use crate::term_texts::texts_of;
use std::alloc::{AllocError, Global};

/// The side of a sequence on which fragments lie.
#[derive(Clone, Copy)]
pub(crate) enum Way {
    Left,
    Right,
}

/// Returns the texts of the patterns that stand for a byte sequence: at most 64, each of at most 4,096 bytes, with at
/// most 16,384 bytes in all.
pub(crate) fn sequence_texts(alloc: Global, read: &ReadSequence) -> Result<PatternTexts, Stop>
    ensures ok { IfOk result (λ texts. texts ≡ written_each (spec.row_patterns read.now.first read.now.further.items)) }
    ensures small { IfOk result AreSmall }
    ensures err { IfLeftOut result (IsReasonOfRow read.now.first read.now.further.items) }
{
    let texts = row_texts(alloc, &read.first, read.further.as_slice())?;
    Ok(texts)
}

/// Returns the texts of a subsequence and of those behind it, each behind an open gap. Ends early if the first of them
/// are too much.
fn row_texts(alloc: Global, first: &ReadPart, further: &[ReadPart]) -> Result<PatternTexts, Stop>
    ensures ok { IfOk result (λ texts. texts ≡ written_each (spec.row_patterns first.now further.now)) }
    ensures small { IfOk result AreSmall }
    ensures err { IfLeftOut result (IsReasonOfRow first.now further.now) }
{
    let texts = part_texts(alloc, first)?;
    let mut growing = Growing::of(alloc, texts);
    for part in further {
        let level = next_texts(alloc, part)?;
        growing.push(alloc, &level)?;
    }
    let texts = growing.texts(alloc)?;
    Ok(texts)
}

/// Returns the texts of the patterns of a first subsequence, with all its fragments.
fn part_texts(alloc: Global, part: &ReadPart) -> Result<PatternTexts, Stop>
    ensures ok { IfOk result (λ texts. texts ≡ joined_all (map written_each (spec.part_levels part.now))) }
    ensures err { IfLeftOut result (λ reason. IsReasonOfFirstPart reason part.now) }
{
    let mut levels = Vec::new(alloc);
    push_part(alloc, &mut levels, part)?;
    let texts = expanded(alloc, levels.as_slice())?;
    Ok(texts)
}

/// Returns the texts of the patterns of a further subsequence, behind an open gap of at least its lower offset.
fn next_texts(alloc: Global, part: &ReadPart) -> Result<PatternTexts, Stop>
    ensures ok { IfOk result (λ texts. texts ≡ joined_all (map written_each (spec.next_levels part.now))) }
    ensures err { IfLeftOut result (λ reason. IsReasonOfNextPart reason part.now) }
{
    let mut levels = Vec::new(alloc);
    push_open_gap(alloc, &mut levels, part.least())?;
    push_part(alloc, &mut levels, part)?;
    let texts = expanded(alloc, levels.as_slice())?;
    Ok(texts)
}

/// Appends a level of one open gap of at least `least` bytes.
fn push_open_gap(
    alloc: Global,
    levels: &mut Vec<PatternTexts>,
    least: u16,
) -> Result<(), AllocError>
    ensures { OnOk result (levels.new.items ≡ levels.old.items ++ written_each ((OpenGap least ∷ []) ∷ []) ∷ []) }
{
    let mut gap = Vec::new(alloc);
    push_gap(&mut gap, least, None)?;
    let texts = PatternTexts::one(alloc, gap)?;
    levels.push(texts)?;
    Ok(())
}

/// Appends the levels of a subsequence: left fragments from the outermost in, its sequence, right fragments from the
/// innermost out.
fn push_part(alloc: Global, levels: &mut Vec<PatternTexts>, part: &ReadPart) -> Result<(), Stop>
    ensures ok { OnOk result (levels.new.items ≡ levels.old.items ++ map written_each (spec.part_levels part.now)) }
    ensures err { IfLeftOut result (λ reason. IsReasonOfReadPart reason part.now) }
{
    push_left(alloc, levels, part.left())?;
    let texts = texts_of(alloc, part.terms())?;
    levels.push(texts)?;
    push_right(alloc, levels, part.right())?;
    Ok(())
}

/// Appends the levels of left fragments, from the outermost in: one level for each position.
fn push_left(
    alloc: Global,
    levels: &mut Vec<PatternTexts>,
    fragments: &[ReadFragment],
) -> Result<(), Stop>
    ensures ok { OnOk result
        (levels.new.items
        ≡ levels.old.items ++ map written_each (spec.left_levels fragments.now (spec.outermost_of fragments.now))) }
    ensures err { IfLeftOut result (λ reason. (position : ℕ) × IsReasonOfLevel way.Left position fragments.now reason) }
{
    let outer = outermost(fragments);
    for place in 0..outer {
        let level = level_texts(alloc, fragments, outer - place, Way::Left)?;
        levels.push(level)?;
    }
    Ok(())
}

/// Appends the levels of right fragments, from the innermost out: one level for each position.
fn push_right(
    alloc: Global,
    levels: &mut Vec<PatternTexts>,
    fragments: &[ReadFragment],
) -> Result<(), Stop>
    ensures ok { OnOk result
        (levels.new.items
        ≡ levels.old.items ++ map written_each (spec.right_levels fragments.now (spec.outermost_of fragments.now))) }
    ensures err { IfLeftOut result (λ reason.
        (position : ℕ) × IsReasonOfLevel way.Right position fragments.now reason) }
{
    for place in 0..outermost(fragments) {
        let level = level_texts(alloc, fragments, place + 1, Way::Right)?;
        levels.push(level)?;
    }
    Ok(())
}

/// Returns the position of the outermost fragment, 0 if there are none.
fn outermost(fragments: &[ReadFragment]) -> u32
    ensures { result ≡ spec.outermost_of fragments.now }
{
    let mut last = 0;
    for fragment in fragments {
        last = fragment.position().max(last);
    }
    last
}

/// Returns the texts of the fragments of a position, any of which may stand there, each with its gap.
fn level_texts(
    alloc: Global,
    fragments: &[ReadFragment],
    position: u32,
    from: Way,
) -> Result<PatternTexts, Stop>
    ensures ok { IfOk result (λ texts. texts ≡ written_each (spec.level from position fragments.now)) }
    ensures err { IfLeftOut result (IsReasonOfLevel from position fragments.now) }
{
    let mut texts = PatternTexts::new(alloc);
    for fragment in fragments {
        let more = texts_at(alloc, fragment, position, from)?;
        texts.add_all(more)?;
    }
    Ok(texts)
}

/// Returns the texts of a fragment with its gap, if it has this position, otherwise none.
#[tactic(auto, using(crate::proofs::PartLevels::not_at, crate::proofs::PartLevels::at_it))]
fn texts_at(
    alloc: Global,
    fragment: &ReadFragment,
    position: u32,
    from: Way,
) -> Result<PatternTexts, Stop>
    ensures ok { IfOk result (λ texts.
        texts ≡ written_each (if fragment.now.position == position then spec.side_patterns from fragment.now else [])) }
    ensures err { IfLeftOut result (λ reason. IsReasonOfReadFragment from reason fragment.now) }
{
    if fragment.position() != position {
        return Ok(PatternTexts::new(alloc));
    }
    let texts = fragment_texts(alloc, fragment, from)?;
    Ok(texts)
}

/// Returns the texts of a fragment with its gap, which lies behind a left one and before a right one.
fn fragment_texts(alloc: Global, fragment: &ReadFragment, from: Way) -> Result<PatternTexts, Stop>
    ensures ok { IfOk result (λ texts. texts ≡ written_each (spec.side_patterns from fragment.now)) }
    ensures err { IfLeftOut result (λ reason. IsReasonOfReadFragment from reason fragment.now) }
{
    let own = texts_of(alloc, fragment.terms())?;
    let gap = gap_texts(alloc, fragment.least(), fragment.most())?;
    let levels = two(alloc, own, gap, from)?;
    let texts = expanded(alloc, levels.as_slice())?;
    Ok(texts)
}

/// Puts two levels in order: what lies further out comes first on the left, and last on the right.
fn two(
    alloc: Global,
    outer: PatternTexts,
    inner: PatternTexts,
    from: Way,
) -> Result<Vec<PatternTexts>, AllocError>
    ensures { IfOk result (λ levels. levels.items ≡ spec.in_order from outer inner) }
{
    match from {
        Way::Left => pair(alloc, outer, inner),
        Way::Right => pair(alloc, inner, outer),
    }
}

/// Makes a list of two levels, in this order.
fn pair(
    alloc: Global,
    first: PatternTexts,
    second: PatternTexts,
) -> Result<Vec<PatternTexts>, AllocError>
    ensures { IfOk result (λ levels. levels.items ≡ first ∷ second ∷ []) }
{
    let mut levels = Vec::with_capacity(alloc, 2)?;
    levels.push(first)?;
    levels.push(second)?;
    Ok(levels)
}

/// Returns the text of a gap, which is empty if the gap never has a byte.
#[tactic(auto, using(crate::proofs::PartLevels::gap_none, crate::proofs::PartLevels::gap_some))]
fn gap_texts(alloc: Global, least: u16, most: u16) -> Result<PatternTexts, AllocError>
    ensures { IfOk result (λ texts. texts ≡ written_each (gap_patterns least most)) }
{
    let mut text = Vec::new(alloc);
    if most == 0 {
        let texts = PatternTexts::one(alloc, text)?;
        return Ok(texts);
    }
    push_gap(&mut text, least, Some(most))?;
    let texts = PatternTexts::one(alloc, text)?;
    Ok(texts)
}
