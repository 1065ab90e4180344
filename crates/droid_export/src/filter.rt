//! Whether a record meets a filter, criterion by criterion; and its method and mismatch, which rows show as filters see
//! them.

ghost use Rattle.std.specs.Prelude.{◌≡◌};
ghost use Rattle.std.specs.List.{list_any, list_all};
ghost use Rattle.droid_export.specs.Filters.{found_by, is_among, is_among_in_any_case, is_met, mismatch, same_method};
ghost use Rattle.droid_export.specs.Filters.{same_truth};
ghost use Rattle.droid_export.specs.Filters as filters;

use crate::extension::extension;
use droid_frame::{Criteria, Criterion, Filter, Method, Record, Texts};

/// Returns whether a record meets a filter. Takes no memory. The specification names this call; an export asks the
/// index of the filter's lists.
///
/// With `all` the record has to meet every criterion, without it at least one. Every record meets a filter without
/// criteria. Extensions are compared without regard to the case of ASCII letters, PUIDs byte for byte. A folder meets
/// no criterion on sizes.
#[tactic(auto, unfolding(crate::specs::Filters::meets))]
pub fn meets(filter: &Filter, node: &Record) -> bool
    ensures { result ≡ filters.meets filter.now node.now }
{
    if filter.all {
        meets_all(&filter.criteria, node)
    } else if filter.criteria.is_empty() {
        true
    } else {
        meets_any(&filter.criteria, node)
    }
}

/// Returns whether a record meets each criterion; true if there is none.
fn meets_all(criteria: &Criteria, node: &Record) -> bool
    ensures { result ≡ list_all (is_met node.now) criteria.now }
{
    for place in 0..criteria.len() {
        if let Some(criterion) = criteria.get(place) {
            if !is_met(criterion, node) {
                return false;
            }
        }
    }
    true
}

/// Returns whether a record meets one of the criteria; false if there is none.
fn meets_any(criteria: &Criteria, node: &Record) -> bool
    ensures { result ≡ list_any (is_met node.now) criteria.now }
{
    for place in 0..criteria.len() {
        if let Some(criterion) = criteria.get(place) {
            if is_met(criterion, node) {
                return true;
            }
        }
    }
    false
}

/// Returns whether a record meets a criterion. Goes through a criterion's list text by text; `selection.rt` calls it
/// only for criteria without a list.
#[tactic(auto, unfolding(crate::specs::Filters::is_met))]
pub(crate) fn is_met(criterion: &Criterion, node: &Record) -> bool
    ensures { result ≡ is_met node.now criterion.now }
{
    match criterion {
        Criterion::MethodIs(wanted) => is_same_method(*wanted, found_by(node)),
        Criterion::PuidIn(texts) => shares_one(texts, &node.puids),
        Criterion::ExtIn(texts) => is_among_in_any_case(texts, extension(node)),
        Criterion::MismatchIs(wanted) => *wanted == mismatch(node),
        Criterion::SizeAtLeast(size) => node.kind.is_file() && *size <= node.size,
        Criterion::SizeAtMost(size) => node.kind.is_file() && node.size <= *size,
        Criterion::KindIs(kind) => kind.is_file() == node.kind.is_file(),
    }
}

/// Returns whether two methods are the same.
fn is_same_method(left: Method, right: Method) -> bool
    ensures { result ≡ same_method left right }
{
    left == right
}

/// Returns whether a file's extension contradicts its formats. A folder has no mismatch.
#[tactic(auto, unfolding(crate::specs::Filters::mismatch))]
pub(crate) fn mismatch(node: &Record) -> bool
    ensures { result ≡ mismatch node.now }
{
    node.kind.is_file() && node.mismatch
}

/// Returns the method by which a file was identified. A folder is unidentified, whatever its record says.
#[tactic(auto, unfolding(crate::specs::Filters::found_by))]
pub(crate) fn found_by(node: &Record) -> Method
    ensures { result ≡ found_by node.now }
{
    if node.kind.is_file() {
        node.method
    } else {
        Method::Unidentified
    }
}

/// Returns whether one of the PUIDs is among the texts, byte for byte.
fn shares_one(texts: &Texts, puids: &Texts) -> bool
    ensures { result ≡ list_any (λ puid. is_among texts.now puid) puids.now }
{
    for place in 0..puids.len() {
        if let Some(puid) = puids.get(place) {
            if is_among(texts, puid.as_str()) {
                return true;
            }
        }
    }
    false
}

/// Returns whether a text is in a list, byte for byte.
fn is_among(texts: &Texts, text: &str) -> bool
    ensures { result ≡ is_among texts.now text.now }
{
    for place in 0..texts.len() {
        if let Some(other) = texts.get(place) {
            if text == other.as_str() {
                return true;
            }
        }
    }
    false
}

/// Returns whether a text is in a list, where the case of ASCII letters makes no difference.
fn is_among_in_any_case(texts: &Texts, text: &str) -> bool
    ensures { result ≡ is_among_in_any_case texts.now text.now }
{
    for place in 0..texts.len() {
        if let Some(other) = texts.get(place) {
            if text.eq_ignore_ascii_case(other.as_str()) {
                return true;
            }
        }
    }
    false
}
