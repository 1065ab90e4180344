//! Equality of filters, criterion by criterion and in order. A filter that selects the same records by other criteria
//! is another one.

ghost use Rattle.std.specs.Prelude.{◌≡◌, IsTrue};

use droid_frame::{Criterion, Filter, Text};

/// Returns whether two filters are equal: both join by all or both by any, and they have the same criteria in the same
/// order.
pub fn are_same_filters(one: &Filter, other: &Filter) -> bool
    ensures same { IsTrue result → one.now ≡ other.now }
    ensures found { one.now ≡ other.now → IsTrue result }
{
    if one.all != other.all {
        return false;
    }
    are_same_criteria(one.criteria.as_slice(), other.criteria.as_slice())
}

/// Returns whether two lists have the same criteria in the same order.
fn are_same_criteria(one: &[Criterion], other: &[Criterion]) -> bool
    ensures same { IsTrue result → one.now ≡ other.now }
    ensures found { one.now ≡ other.now → IsTrue result }
{
    if one.len() != other.len() {
        return false;
    }
    for place in 0..one.len() {
        if !are_same(&one[place], &other[place]) {
            return false;
        }
    }
    true
}

/// Returns whether two criteria are of one kind and ask for the same value.
fn are_same(one: &Criterion, other: &Criterion) -> bool
    ensures same { IsTrue result → one.now ≡ other.now }
    ensures found { one.now ≡ other.now → IsTrue result }
{
    match (one, other) {
        (Criterion::MethodIs(one), Criterion::MethodIs(other)) => one == other,
        (Criterion::PuidIn(one), Criterion::PuidIn(other)) => {
            are_same_texts(one.as_slice(), other.as_slice())
        }
        (Criterion::ExtIn(one), Criterion::ExtIn(other)) => {
            are_same_texts(one.as_slice(), other.as_slice())
        }
        (Criterion::MismatchIs(one), Criterion::MismatchIs(other)) => one == other,
        (Criterion::SizeAtLeast(one), Criterion::SizeAtLeast(other)) => one == other,
        (Criterion::SizeAtMost(one), Criterion::SizeAtMost(other)) => one == other,
        (Criterion::KindIs(one), Criterion::KindIs(other)) => one == other,
        _ => false,
    }
}

/// Returns whether two lists have the same texts in the same order.
fn are_same_texts(one: &[Text], other: &[Text]) -> bool
    ensures same { IsTrue result → one.now ≡ other.now }
    ensures found { one.now ≡ other.now → IsTrue result }
{
    if one.len() != other.len() {
        return false;
    }
    for place in 0..one.len() {
        if one[place].as_str() != other[place].as_str() {
            return false;
        }
    }
    true
}
