//! Reads the text of a sequence or a fragment, term by term.

ghost use Rattle.std.specs.Prelude.{◌≡◌, ◌<◌, ℕ, List, length, map, IfOk, IsErrOf};
ghost use Rattle.droid_signature_file.specs.Terms.{Atom, Term};
ghost use Rattle.droid_signature_file.specs.TermText.{SpellsTerm, SpellsTerms};
ghost use Rattle.droid_signature_pattern.specs.TermValues.{atom_of, term_of};
ghost use Rattle.droid_signature_pattern.specs.TextFronts.{IsOnlyFront, HasNoFront, AtomsTo, InParentheses, is_stop};

use crate::item_parser::item_of;
use crate::term::{TextItem, TextTerm};
use crate::text_fault::TextFault;
use std::alloc::Global;

/// Reads the terms of a text.
///
/// A text is written as a registry's pattern, and may also have `[!61:7A]`, `[0100:0300]`, `'text'` and, between the
/// bars of its alternatives, any items. An empty text has no terms.
pub fn read_text(alloc: Global, text: &str) -> Result<Vec<TextTerm>, TextFault>
    // The text spells the terms that are returned.
    ensures spelled { IfOk result (λ terms. SpellsTerms text.now (map term_of terms.items)) }
    // A text spells one list of terms at most.
    ensures only { (ts : List Term) → SpellsTerms text.now ts → IfOk result (λ terms. map term_of terms.items ≡ ts) }
    ensures bad { IsErrOf result TextFault.BadText → (ts : List Term) → SpellsTerms text.now ts → ⊥ }
{
    let mut terms = Vec::new(alloc);
    let mut rest = text.as_bytes();
    while !rest.is_empty() {
        let (term, after) = first_term(alloc, rest)?;
        terms.push(term)?;
        rest = after;
    }
    Ok(terms)
}

/// Reads the first term of the text. Returns it and the text after it.
fn first_term(alloc: Global, text: &[u8]) -> Result<(TextTerm, &[u8]), TextFault>
    ensures front { IfOk result (λ found. IsOnlyFront SpellsTerm text.now (term_of found.0) found.1.now) }
    ensures bad { IsErrOf result TextFault.BadText → HasNoFront SpellsTerm text.now }
{
    let (first, after) = text.split_first().ok_or(TextFault::BadText)?;
    if *first == b'(' {
        let (alternatives, rest) = alternatives_of(alloc, after)?;
        return Ok((TextTerm::OneOf(alternatives), rest));
    }
    let (item, rest) = item_of(alloc, text)?;
    Ok((TextTerm::One(item), rest))
}

/// Reads alternatives up to the closing parenthesis. Returns them and the text after it.
fn alternatives_of(alloc: Global, text: &[u8]) -> Result<(Vec<Vec<TextItem>>, &[u8]), TextFault>
    ensures spelled { IfOk result (λ found.
        InParentheses text.now (map (λ items. map atom_of items.items) found.0.items) found.1.now) }
    ensures only { (all : List (List Atom)) (end : List ℕ) → InParentheses text.now all end
        → IfOk result (λ found. (all ≡ map (λ items. map atom_of items.items) found.0.items) × (end ≡ found.1.now)) }
    ensures bad { IsErrOf result TextFault.BadText → (all : List (List Atom)) (end : List ℕ)
        → InParentheses text.now all end → ⊥ }
{
    let mut alternatives = Vec::new(alloc);
    let mut rest = text;
    loop {
        let (items, after) = items_of(alloc, rest)?;
        alternatives.push(items)?;
        let (stop, more) = after.split_first().ok_or(TextFault::BadText)?;
        if *stop == b')' {
            return Ok((alternatives, more));
        }
        rest = more;
    }
}

/// Reads one or more items, up to a bar, a closing parenthesis or the end. Returns them and the text after them. The
/// room for one item that is taken first is for speed: no clause needs it.
fn items_of(alloc: Global, text: &[u8]) -> Result<(Vec<TextItem>, &[u8]), TextFault>
    ensures spelled { IfOk result (λ found. AtomsTo text.now (map atom_of found.0.items) found.1.now) }
    ensures some { IfOk result (λ found. 0 < length (map atom_of found.0.items)) }
    ensures only { (all : List Atom) (end : List ℕ) → AtomsTo text.now all end
        → IfOk result (λ found. (all ≡ map atom_of found.0.items) × (end ≡ found.1.now)) }
    ensures bad { IsErrOf result TextFault.BadText → (all : List Atom) (end : List ℕ) → AtomsTo text.now all end
        → 0 < length all → ⊥ }
{
    let mut items = Vec::with_capacity(alloc, 1)?;
    let mut rest = text;
    while !stops(rest) {
        let (item, after) = item_of(alloc, rest)?;
        items.push(item)?;
        rest = after;
    }
    if items.is_empty() {
        return Err(TextFault::BadText);
    }
    Ok((items, rest))
}

/// Returns whether no item can follow: the text ends, or a bar or a closing parenthesis stands there.
fn stops(text: &[u8]) -> bool
    ensures { result ≡ is_stop text.now }
{
    match text.first() {
        None => true,
        Some(c) => *c == b'|' || *c == b')',
    }
}
