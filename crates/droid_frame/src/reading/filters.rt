//! Readers of filters, from the front of the bytes.
//!
//! The functions `after_..` check bytes and skip them, and allocate nothing. Those that make lists allocate as they
//! read; only [`filter_of`] is called from outside, and it checks all bytes first. The prover ties the two ways to one
//! definition, and the tags 1 to 7 of the criteria to `criterion_bytes` of `specs/Filters.antt`, which
//! `append_criterion` writes.

ghost use Rattle.std.specs.Prelude.{◌≡◌, is_some};
ghost use Rattle.std.specs.Option.{option_map};
ghost use Rattle.droid_frame.specs.FilterValues.{node_kind_at, list_at, plain_at, criterion_at, tagged_at, filter_at};
ghost use Rattle.droid_frame.specs.FilterValues.{filter_value};
ghost use Rattle.droid_frame.specs.Outcomes.{Gives, IsAnswer};
ghost use Rattle.droid_frame.specs.SequenceFields.{sequence_at};

use crate::body_fault::BodyFault;
use crate::criteria::Criteria;
use crate::criterion::Criterion;
use crate::filter::Filter;
use crate::node_kind::NodeKind;
use crate::reading::fields::text_lists::{after_texts, texts_at};
use crate::reading::fields::{bool_at, method_at, u8_at, u64_at};
use crate::texts::Texts;
use std::alloc::Global;

/// Reads the filter that the bytes spell, with none left over. Checks all of them before it allocates: `Malformed` if
/// they spell none, `Memory` if memory runs out for one.
#[tactic(auto, unfolding(crate::specs::FilterValues::filter_value, crate::specs::Reading::whole))]
pub(crate) fn filter_of(alloc: Global, bytes: &[u8]) -> Result<Filter, BodyFault>
    ensures { IsAnswer result (filter_value bytes.now) }
{
    if !is_filter(bytes) {
        return Err(BodyFault::Malformed);
    }
    let (filter, _) = filter_at(alloc, bytes)?;
    Ok(filter)
}

/// Returns whether all these bytes spell a filter. Allocates nothing.
#[tactic(auto, unfolding(crate::specs::FilterValues::filter_value, crate::specs::Reading::whole))]
fn is_filter(bytes: &[u8]) -> bool
    ensures { result ≡ is_some (filter_value bytes.now) }
{
    match after_filter(bytes) {
        Some(rest) => rest.is_empty(),
        None => false,
    }
}

/// Skips a filter, and returns the bytes after it, or `None` if there is none at the front. Allocates nothing.
#[tactic(auto, unfolding(crate::specs::FilterValues::filter_at, crate::specs::SequenceFields::counted_at))]
fn after_filter(bytes: &[u8]) -> Option<&[u8]>
    ensures { option_map (λ rest. rest.now) result ≡ option_map (λ x. x.1) (filter_at bytes.now) }
{
    let (_, rest) = bool_at(bytes)?;
    let (count, rest) = u8_at(rest)?;
    after_criteria(usize::from(count), rest)
}

/// Skips this many criteria, and returns the bytes after them, or `None` if one is missing or malformed. Allocates
/// nothing.
fn after_criteria(count: usize, bytes: &[u8]) -> Option<&[u8]>
    ensures { option_map (λ rest. rest.now) result ≡ option_map (λ x. x.1) (sequence_at criterion_at count bytes.now) }
{
    let mut rest = bytes;
    for _ in 0..count {
        rest = after_criterion(rest)?;
    }
    Some(rest)
}

/// Skips a criterion, and returns the bytes after it, or `None` if it is missing or malformed, or its tag is unknown.
/// Allocates nothing.
#[tactic(auto, unfolding(crate::specs::FilterValues::criterion_at, crate::specs::FilterValues::tagged_at))]
fn after_criterion(bytes: &[u8]) -> Option<&[u8]>
    ensures { option_map (λ rest. rest.now) result ≡ option_map (λ x. x.1) (criterion_at bytes.now) }
{
    let (tag, rest) = u8_at(bytes)?;
    match tag {
        2 => after_list(rest),
        3 => after_list(rest),
        _ => {
            let (_, rest) = plain_at(tag, rest)?;
            Some(rest)
        }
    }
}

/// Skips a list of texts: its count in one byte, and texts of 0 to 255 bytes. Returns the bytes after it, or `None` if
/// it is malformed. Allocates nothing.
#[tactic(auto, unfolding(crate::specs::FilterValues::list_at, crate::specs::SequenceFields::counted_at))]
fn after_list(bytes: &[u8]) -> Option<&[u8]>
    ensures { option_map (λ rest. rest.now) result ≡ option_map (λ x. x.1) (list_at bytes.now) }
{
    let (count, rest) = u8_at(bytes)?;
    after_texts(usize::from(count), 0, 255, rest)
}

/// Reads a filter, and returns it and the bytes after it. It allocates as it reads, so [`filter_of`] checks the bytes
/// with [`is_filter`] first.
#[tactic(auto, unfolding(crate::specs::FilterValues::filter_at, crate::specs::SequenceFields::counted_at))]
fn filter_at(alloc: Global, bytes: &[u8]) -> Result<(Filter, &[u8]), BodyFault>
    ensures { Gives (λ x. (x.0, x.1.now)) result (filter_at bytes.now) }
{
    let (all, rest) = bool_at(bytes).ok_or(BodyFault::Malformed)?;
    let (count, rest) = u8_at(rest).ok_or(BodyFault::Malformed)?;
    let (criteria, rest) = criteria_at(alloc, usize::from(count), rest)?;
    Ok((Filter { all, criteria }, rest))
}

/// Reads this many criteria, and returns them and the bytes after them. `Malformed` if one is missing or malformed.
/// Callers have checked the bytes.
fn criteria_at(alloc: Global, count: usize, bytes: &[u8]) -> Result<(Criteria, &[u8]), BodyFault>
    ensures { Gives (λ x. (x.0, x.1.now)) result (sequence_at criterion_at count bytes.now) }
{
    let mut criteria = Criteria::new(alloc);
    let mut rest = bytes;
    for _ in 0..count {
        let (criterion, after) = criterion_at(alloc, rest)?;
        criteria.push(criterion)?;
        rest = after;
    }
    Ok((criteria, rest))
}

/// Reads a criterion: its tag, and what the tag says that follows. `Malformed` if it is missing or malformed, or its
/// tag is unknown.
#[tactic(auto, unfolding(crate::specs::FilterValues::criterion_at))]
fn criterion_at(alloc: Global, bytes: &[u8]) -> Result<(Criterion, &[u8]), BodyFault>
    ensures { Gives (λ x. (x.0, x.1.now)) result (criterion_at bytes.now) }
{
    let (tag, rest) = u8_at(bytes).ok_or(BodyFault::Malformed)?;
    tagged_at(alloc, tag, rest)
}

/// Reads what stands behind this tag of a criterion: a list of texts behind 2 and 3, otherwise what [`plain_at`] reads.
#[tactic(auto, unfolding(crate::specs::FilterValues::tagged_at, crate::specs::FilterValues::puid_in_at, crate::specs::FilterValues::ext_in_at))]
fn tagged_at(alloc: Global, tag: u8, bytes: &[u8]) -> Result<(Criterion, &[u8]), BodyFault>
    ensures { Gives (λ x. (x.0, x.1.now)) result (tagged_at tag bytes.now) }
{
    match tag {
        2 => {
            let (texts, rest) = list_at(alloc, bytes)?;
            Ok((Criterion::PuidIn(texts), rest))
        }
        3 => {
            let (texts, rest) = list_at(alloc, bytes)?;
            Ok((Criterion::ExtIn(texts), rest))
        }
        _ => plain_at(tag, bytes).ok_or(BodyFault::Malformed),
    }
}

/// Reads a list of texts: its count in one byte, and texts of 0 to 255 bytes.
#[tactic(auto, unfolding(crate::specs::FilterValues::list_at, crate::specs::SequenceFields::counted_at))]
fn list_at(alloc: Global, bytes: &[u8]) -> Result<(Texts, &[u8]), BodyFault>
    ensures { Gives (λ x. (x.0, x.1.now)) result (list_at bytes.now) }
{
    let (count, rest) = u8_at(bytes).ok_or(BodyFault::Malformed)?;
    texts_at(alloc, usize::from(count), 0, 255, rest)
}

/// Reads the value of a criterion that has no list, given its tag. `None` if it is malformed, or if the tag is 2, 3 or
/// unknown. Allocates nothing.
#[tactic(auto, unfolding(crate::specs::FilterValues::plain_at, crate::specs::FilterValues::method_is_at, crate::specs::FilterValues::mismatch_is_at, crate::specs::FilterValues::size_at_least_at, crate::specs::FilterValues::size_at_most_at, crate::specs::FilterValues::kind_is_at))]
fn plain_at(tag: u8, bytes: &[u8]) -> Option<(Criterion, &[u8])>
    ensures { option_map (λ x. (x.0, x.1.now)) result ≡ plain_at tag bytes.now }
{
    match tag {
        1 => {
            let (method, rest) = method_at(bytes)?;
            Some((Criterion::MethodIs(method), rest))
        }
        4 => {
            let (mismatch, rest) = bool_at(bytes)?;
            Some((Criterion::MismatchIs(mismatch), rest))
        }
        5 => {
            let (size, rest) = u64_at(bytes)?;
            Some((Criterion::SizeAtLeast(size), rest))
        }
        6 => {
            let (size, rest) = u64_at(bytes)?;
            Some((Criterion::SizeAtMost(size), rest))
        }
        7 => {
            let (kind, rest) = node_kind_at(bytes)?;
            Some((Criterion::KindIs(kind), rest))
        }
        _ => None,
    }
}

/// Reads whether a node is a folder or a file, from its number: 0 is a file, 1 a folder. `None` for any other byte.
/// `NodeKind::number` has the same numbers; the prover ties both to `node_kind_number`.
#[tactic(auto, unfolding(crate::specs::FilterValues::node_kind_at))]
fn node_kind_at(bytes: &[u8]) -> Option<(NodeKind, &[u8])>
    ensures { option_map (λ x. (x.0, x.1.now)) result ≡ node_kind_at bytes.now }
{
    match bytes {
        [0, rest @ ..] => Some((NodeKind::File, rest)),
        [1, rest @ ..] => Some((NodeKind::Folder, rest)),
        _ => None,
    }
}
