//! Selects the records of an export, by an index of the filter's lists.
//!
//! An export asks this for each record. [`meets`](crate::filter::meets) answers the same question for a single record
//! without memory, but goes through each list.

ghost use Rattle.std.specs.Prelude.{◌≡◌, IfOk, map, if◌then◌else◌};
ghost use Rattle.std.specs.List.{list_any, list_all};
ghost use Rattle.droid_export.specs.Filters.{is_met, meets};
ghost use Rattle.droid_export.specs.Index.{IsIndex, has_list, is_met_plainly};

use crate::extension::extension;
use crate::filter::is_met;
use crate::flags::{mark, mark_all};
use crate::index::{Index, key_of, places_of};
use droid_frame::{Criteria, Criterion, Filter, Record};
use std::alloc::{AllocError, Global};

/// Returns whether a record meets a filter, by look-ups in the index. Fails only if memory runs out.
#[tactic(auto, unfolding(crate::specs::Filters::meets))]
pub(crate) fn is_chosen(
    alloc: Global,
    filter: &Filter,
    index: &Index,
    node: &Record,
) -> Result<bool, AllocError>
    requires { IsIndex filter.now.criteria index.now }
    ensures { IfOk result (λ chosen. chosen ≡ meets filter.now node.now) }
{
    if filter.criteria.is_empty() {
        return Ok(true);
    }
    let met = met_by(alloc, &filter.criteria, index, node)?;
    Ok(are_set(met.as_slice(), filter.all))
}

/// Returns whether all flags are set, or with `all` false, whether at least one is. Its caller has at least one flag.
fn are_set(flags: &[bool], all: bool) -> bool
    ensures { result ≡ (if all then list_all (λ flag. flag) flags.now else list_any (λ flag. flag) flags.now) }
{
    if all {
        !flags.contains(&false)
    } else {
        flags.contains(&true)
    }
}

/// Returns, for each criterion at its place, whether the record meets it: without a list by comparison, with one by a
/// look-up in the index. Fails only if memory runs out.
fn met_by(
    alloc: Global,
    criteria: &Criteria,
    index: &Index,
    node: &Record,
) -> Result<Vec<bool>, AllocError>
    requires { IsIndex criteria.now index.now }
    ensures { IfOk result (λ met. met.items ≡ map (is_met node.now) criteria.now) }
{
    let mut met = met_plainly(alloc, criteria, node)?;
    let extension = key_of(alloc, extension(node), true)?;
    let flags = met.as_mut_slice();
    mark_all(flags, &index.identifiers, &node.puids);
    mark(flags, places_of(&index.extensions, extension.as_str()));
    Ok(met)
}

/// Returns, for each criterion at its place, whether it has no list and the record meets it. Fails only if memory runs
/// out.
fn met_plainly(alloc: Global, criteria: &Criteria, node: &Record) -> Result<Vec<bool>, AllocError>
    ensures { IfOk result (λ met. met.items ≡ map (is_met_plainly node.now) criteria.now) }
{
    let items = criteria.as_slice();
    let mut met = Vec::with_capacity(alloc, items.len())?;
    for criterion in items {
        met.push(is_met_plainly(criterion, node))?;
    }
    Ok(met)
}

/// Returns whether a record meets a criterion without a list; false for one with a list, whose flag a look-up sets.
#[tactic(auto, unfolding(crate::specs::Index::is_met_plainly))]
fn is_met_plainly(criterion: &Criterion, node: &Record) -> bool
    ensures { result ≡ is_met_plainly node.now criterion.now }
{
    if has_list(criterion) {
        return false;
    }
    is_met(criterion, node)
}

/// Returns whether a criterion has a list of texts.
fn has_list(criterion: &Criterion) -> bool
    ensures { result ≡ has_list criterion.now }
{
    match criterion {
        Criterion::PuidIn(_) => true,
        Criterion::ExtIn(_) => true,
        Criterion::MethodIs(_) => false,
        Criterion::MismatchIs(_) => false,
        Criterion::SizeAtLeast(_) => false,
        Criterion::SizeAtMost(_) => false,
        Criterion::KindIs(_) => false,
    }
}
