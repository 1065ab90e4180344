//! Finds elements among the pieces of a document, and what stands directly in them.

ghost use Rattle.std.specs.Prelude.{◌≡◌, ◌+◌, ◌<◌, ◌≤◌, ◌^◌, ◌++◌, ◌∷◌, [], IfOk, IfSome, MatchOption, OnOk, drop};
ghost use Rattle.std.specs.Prelude.{length, map, string_bytes};
ghost use Rattle.std.specs.List.{position_or_len};
ghost use Rattle.std.specs.Option.{option_map};
ghost use Rattle.droid_xml.specs.Views.{part, setting, tag};
ghost use Rattle.droid_signature_file.specs.Elements as spec;
ghost use Rattle.droid_signature_file.specs.Outcomes.{node_of};

use droid_xml::{Attribute, Element, Piece};
use std::alloc::{AllocError, Global};

/// An element among pieces.
#[derive(Clone, Copy)]
pub(crate) struct Node<'a, 'b> {
    /// The element, as its start tag has it.
    pub element: &'a Element<'b>,
    /// The pieces between its tags.
    pub inside: &'a [Piece<'b>],
}

impl<'a, 'b> Node<'a, 'b> {
    /// Returns the value of the attribute of this name, if there is one.
    pub(crate) fn value(&self, name: &str) -> Option<&'a str>
        ensures { option_map (λ value. value.now) result ≡ spec.value_of name.now (node_of self.now).attributes }
    {
        value_of(self.element.attributes.as_slice(), name)
    }

    /// Returns the text that stands directly in the element, one part after the other, without that of elements inside.
    pub(crate) fn words(&self, alloc: Global) -> Result<String, AllocError>
        ensures { IfOk result (λ words. string_bytes words ≡ spec.words_from 0 (node_of self.now).inside) }
    {
        words_of(alloc, self.inside)
    }
}

/// Returns the text that stands directly among the pieces, without that of elements among them.
fn words_of(alloc: Global, pieces: &[Piece<'_>]) -> Result<String, AllocError>
    ensures { IfOk result (λ words. string_bytes words ≡ spec.words_from 0 (map part pieces.now)) }
{
    let mut words = String::new(alloc);
    let mut at = 0;
    'parts: while at < pieces.len() {
        let piece = &pieces[at];
        add_word(&mut words, piece)?;
        let own = len_of(piece, &pieces[at + 1..]);
        at += 1 + own;
    }
    Ok(words)
}

/// Returns the value of the attribute of this name, if there is one.
fn value_of<'a>(attributes: &'a [Attribute<'_>], name: &str) -> Option<&'a str>
    ensures { option_map (λ value. value.now) result ≡ spec.value_of name.now (map setting attributes.entry.now) }
{
    for attribute in attributes {
        if attribute.name == name {
            return Some(attribute.value.as_str());
        }
    }
    None
}

/// Returns the first element that stands directly among the pieces, if there is one, and the place behind its end.
pub(crate) fn first_node<'a, 'b>(pieces: &'a [Piece<'b>]) -> Option<(Node<'a, 'b>, usize)>
    ensures found { MatchOption result (spec.nodes_from 0 (map part pieces.entry.now) ≡ []) (λ found.
        spec.nodes_from 0 (map part pieces.entry.now)
        ≡ node_of found.0 ∷ spec.nodes_from 0 (map part (drop found.1 pieces.entry.now))) }
    ensures some { IfSome result (λ found. 0 < found.1) }
    ensures inside { IfSome result (λ found. found.1 ≤ length pieces.entry.now) }
{
    let place = start_place(pieces);
    let (piece, behind) = pieces[place..].split_first()?;
    let element = element_of(piece)?;
    let inside = inside_of(element, behind);
    let own = len_of(piece, behind);
    Some((Node { element, inside }, place + 1 + own))
}

/// Returns the element that a piece begins, if it begins one.
fn element_of<'a, 'b>(piece: &'a Piece<'b>) -> Option<&'a Element<'b>>
    ensures { option_map (λ element. tag element.now) result ≡ spec.tag_of (part piece.entry.now) }
{
    match piece {
        Piece::Start(element) => Some(element),
        Piece::End(_) | Piece::Text(_) | Piece::Data(_) | Piece::Reference(_) => None,
        Piece::Comment(_) | Piece::Instruction(_, _) => None,
    }
}

/// Returns how many pieces stand before the first that begins an element: all, if none does.
fn start_place(pieces: &[Piece<'_>]) -> usize
    ensures value { result ≡ position_or_len spec.is_start (map part pieces.now) }
    ensures few { result ≤ length pieces.now }
{
    for place in 0..pieces.len() {
        if is_start(&pieces[place]) {
            return place;
        }
    }
    pieces.len()
}

/// Returns whether a piece begins an element.
fn is_start(piece: &Piece<'_>) -> bool
    ensures { result ≡ spec.is_start (part piece.now) }
{
    match piece {
        Piece::Start(_) => true,
        Piece::End(_) | Piece::Text(_) | Piece::Data(_) | Piece::Reference(_) => false,
        Piece::Comment(_) | Piece::Instruction(_, _) => false,
    }
}

/// Returns the pieces inside an element, out of those behind its start tag: none if its start tag ends it too.
fn inside_of<'a, 'b>(element: &Element<'_>, behind: &'a [Piece<'b>]) -> &'a [Piece<'b>]
    ensures { map part result.now ≡ spec.inside_of (tag element.now) (map part behind.entry.now) }
{
    if element.is_empty {
        return &[];
    }
    &behind[..inner_len(behind)]
}

/// Returns how many of the pieces behind a piece belong to the element that it begins. A piece that begins no element
/// has none.
fn len_of(piece: &Piece<'_>, behind: &[Piece<'_>]) -> usize
    ensures value { drop result behind.now ≡ drop (spec.len_of (part piece.now) (map part behind.now)) behind.now }
    ensures few { result ≤ length behind.now }
{
    if !opens(piece) {
        return 0;
    }
    let inner = inner_len(behind);
    if inner >= behind.len() {
        return inner;
    }
    inner + 1
}

/// Returns whether a piece begins an element that an end tag ends.
fn opens(piece: &Piece<'_>) -> bool
    ensures { result ≡ spec.opens (part piece.now) }
{
    match piece {
        Piece::Start(element) => !element.is_empty,
        Piece::End(_) | Piece::Text(_) | Piece::Data(_) | Piece::Reference(_) => false,
        Piece::Comment(_) | Piece::Instruction(_, _) => false,
    }
}

/// Returns how many pieces stand before the end tag of the element that they are in: all, if it is not among them.
fn inner_len(pieces: &[Piece<'_>]) -> usize
    ensures value { result ≡ spec.inner_len 0 (map part pieces.now) }
    ensures few { result ≤ length pieces.now }
{
    let mut depth = 0;
    for place in 0..pieces.len() {
        match deeper(depth, &pieces[place]) {
            Some(next) => depth = next,
            None => return place,
        }
    }
    pieces.len()
}

/// Returns how many elements are open behind a piece, where `depth` were before it, or `None` where it ends the element
/// outside.
fn deeper(depth: usize, piece: &Piece<'_>) -> Option<usize>
    requires { depth + 1 < 2 ^ 64 }
    ensures { result ≡ spec.deeper depth (part piece.now) }
{
    match piece {
        Piece::Start(element) => Some(if element.is_empty { depth } else { depth + 1 }),
        Piece::End(_) => depth.checked_sub(1),
        Piece::Text(_) | Piece::Data(_) | Piece::Reference(_) => Some(depth),
        Piece::Comment(_) | Piece::Instruction(_, _) => Some(depth),
    }
}

/// Adds the text of a piece: text as it stands, a CDATA section, or the character of a reference. Others have none.
fn add_word(words: &mut String, piece: &Piece<'_>) -> Result<(), AllocError>
    ensures { OnOk result (string_bytes words.new ≡ string_bytes words.old ++ spec.word (part piece.now)) }
{
    match piece {
        Piece::Text(text) => words.push_str(text),
        Piece::Data(text) => words.push_str(text),
        Piece::Reference(c) => words.push(*c),
        Piece::Start(_) | Piece::End(_) | Piece::Comment(_) | Piece::Instruction(_, _) => Ok(()),
    }
}
