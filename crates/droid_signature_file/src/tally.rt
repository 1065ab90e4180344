//! Counts the names of elements and attributes that are not known, over all pieces of a document.

ghost use Rattle.std.specs.Prelude.{◌≡◌, ◌<◌, ◌≤◌, List, map, length, IfOk, OnOk};
ghost use Rattle.std.specs.List.{position_or_len};
ghost use Rattle.droid_xml.specs.Views.{part, tag};
ghost use Rattle.droid_signature_file.specs.Unknown as spec;

use crate::kinds::{Kind, kind_outside};
use crate::whole_file::{UnknownName, UnknownPart};
use droid_frame::Text;
use droid_xml::{Attribute, Element, Piece};
use std::alloc::{AllocError, Global};
use std::marker::Model;

/// How many names are listed. The definition `noted_new` has this number too.
const MOST_NAMES: usize = 64;

/// The names that are not known, and how many came beyond those that are listed.
#[derive(Drop)]
pub(crate) struct Tally {
    pub names: Vec<UnknownName>,
    pub unlisted: u64,
}

impl Model for Tally {
    ghost use Rattle.droid_signature_file.specs.Unknown as spec;

    ghost Value = { spec.Tally };

    ghost view = { λ it. record { names = it.names.items; unlisted = it.unlisted } };
}

/// Counts the unknown elements and attributes among the pieces of a document. What stands in an unknown element is not
/// looked at.
#[tactic(auto, unfolding(crate::specs::Unknown::tally))]
pub(crate) fn unknown_names(alloc: Global, pieces: &[Piece<'_>]) -> Result<Tally, AllocError>
    ensures { IfOk result (λ found. found ≡ spec.tally (map part pieces.now)) }
{
    let mut counting = Counting {
        stack: Vec::new(alloc),
        found: Tally {
            names: Vec::new(alloc),
            unlisted: 0,
        },
    };
    for piece in pieces {
        counting.count(alloc, piece)?;
    }
    let Counting { found, .. } = counting;
    Ok(found)
}

/// The elements that are open, the innermost last, and what is counted so far. After out of memory nothing is promised
/// of it: `unknown_names` drops it.
#[derive(Drop)]
struct Counting {
    stack: Vec<Option<Kind>>,
    found: Tally,
}

impl Model for Counting {
    ghost use Rattle.std.specs.Prelude.{reverse};
    ghost use Rattle.droid_signature_file.specs.Unknown as spec;

    ghost Value = { spec.Counting };

    ghost view = { λ it. record { stack = reverse it.stack.items; found = it.found } };
}

impl Counting {
    /// Counts what a piece has that is not known, and keeps in mind which elements are open behind it.
    fn count(&mut self, alloc: Global, piece: &Piece<'_>) -> Result<(), AllocError>
        ensures { OnOk result (self.new ≡ spec.counted self.old (part piece.now)) }
    {
        match piece {
            Piece::Start(element) => self.count_tag(alloc, element),
            Piece::End(_) => {
                self.close();
                Ok(())
            }
            _ => Ok(()),
        }
    }

    /// Closes the innermost element, if one is open.
    #[tactic(auto, using(crate::proofs::Loops::reverse_push))]
    fn close(&mut self)
        ensures { self.new ≡ record self.old { stack = spec.closed self.old.stack } }
    {
        let _ = self.stack.pop();
    }

    /// Counts what a start tag has that is not known, and opens its element.
    #[tactic(auto, using(crate::proofs::Loops::reverse_push))]
    fn count_tag(&mut self, alloc: Global, element: &Element<'_>) -> Result<(), AllocError>
        ensures { OnOk result (self.new ≡ spec.counted_tag self.old (tag element.now)) }
    {
        let kind = self.kind_of(element.name);
        self.note_tag(alloc, kind, element)?;
        if !element.is_empty {
            self.stack.push(kind)?;
        }
        Ok(())
    }

    /// Counts what a start tag has that is not known: attributes if its element has a kind, otherwise the element.
    #[tactic(auto, using(crate::proofs::Loops::names_of))]
    fn note_tag(
        &mut self,
        alloc: Global,
        kind: Option<Kind>,
        element: &Element<'_>,
    ) -> Result<(), AllocError>
        ensures { OnOk result (self.new ≡ record self.old { found = spec.noted_tag self.old kind (tag element.now) }) }
    {
        match kind {
            Some(kind) => self
                .found
                .note_attributes(alloc, kind, element.attributes.as_slice()),
            None => self.note_element(alloc, element.name),
        }
    }

    /// Counts an unknown element, unless the element outside is unknown too. A root of another name isn't counted:
    /// such a file isn't read at all.
    fn note_element(&mut self, alloc: Global, name: &str) -> Result<(), AllocError>
        ensures { OnOk result
            (self.new ≡ record self.old { found = spec.noted_element self.old.stack name.now self.old.found }) }
    {
        match self.innermost() {
            Some(Some(_)) => self.found.note(alloc, UnknownPart::Element, name),
            Some(None) | None => Ok(()),
        }
    }

    /// Returns the kind of an element of this name in the innermost element. `None`: it is not known there.
    fn kind_of(&self, name: &str) -> Option<Kind>
        ensures { result ≡ spec.kind_under self.now.stack name.now }
    {
        match self.innermost() {
            None => kind_outside(name),
            Some(None) => None,
            Some(Some(outer)) => outer.of_inner(name),
        }
    }

    /// Returns the kind of the innermost open element, or `None` if none is open. An unknown element has no kind.
    #[tactic(auto, using(crate::proofs::Loops::innermost_last))]
    fn innermost(&self) -> Option<Option<Kind>>
        ensures { result ≡ spec.innermost self.now.stack }
    {
        self.stack.last().copied()
    }
}

impl Tally {
    /// Counts the attributes that an element of a kind is not known to have.
    #[tactic(auto, unfolding(crate::specs::Unknown::noted_attributes))]
    fn note_attributes(
        &mut self,
        alloc: Global,
        kind: Kind,
        attributes: &[Attribute<'_>],
    ) -> Result<(), AllocError>
        ensures { OnOk result (self.new ≡ spec.noted_attributes kind (map spec.name_of attributes.now) self.old) }
    {
        for attribute in attributes {
            self.note_attribute(alloc, kind, attribute.name)?;
        }
        Ok(())
    }

    /// Counts an attribute of this kind of element, if its name is not known.
    fn note_attribute(&mut self, alloc: Global, kind: Kind, name: &str) -> Result<(), AllocError>
        ensures { OnOk result (self.new ≡ spec.noted_attribute kind self.old name.now) }
    {
        if kind.has_attribute(name) {
            return Ok(());
        }
        self.note(alloc, UnknownPart::Attribute, name)
    }

    /// Counts a name: at its place, as a new one, or beyond those that are listed. No count goes beyond 2^64 - 1.
    #[tactic(auto, unfolding(crate::specs::Unknown::noted))]
    fn note(&mut self, alloc: Global, part: UnknownPart, name: &str) -> Result<(), AllocError>
        ensures { OnOk result (self.new ≡ spec.noted part name.now self.old) }
    {
        let place = place_of(self.names.as_slice(), part, name);
        if place < self.names.len() {
            count_again(self.names.as_mut_slice(), place);
            return Ok(());
        }
        if self.names.len() >= MOST_NAMES {
            self.unlisted = self.unlisted.saturating_add(1);
            return Ok(());
        }
        let name = Text::copy_of(alloc, name)?;
        self.names.push(UnknownName {
            part,
            name,
            count: 1,
        })?;
        Ok(())
    }
}

/// Returns the place of a name, or how many names there are, if it is not among them.
fn place_of(names: &[UnknownName], part: UnknownPart, name: &str) -> usize
    ensures value { result ≡ position_or_len (spec.is_name part name.now) names.now }
    ensures few { result ≤ length names.now }
{
    for place in 0..names.len() {
        if is_name(&names[place], part, name) {
            return place;
        }
    }
    names.len()
}

/// Counts the name at a place once more, up to 2^64 - 1.
fn count_again(names: &mut [UnknownName], place: usize)
    requires { place < length names.old }
    ensures { names.new ≡ spec.again_at place names.old }
{
    let known = &mut names[place];
    known.count = known.count.saturating_add(1);
}

/// Returns whether this is the name of such a part.
fn is_name(known: &UnknownName, part: UnknownPart, name: &str) -> bool
    ensures { result ≡ spec.is_name part name.now known.now }
{
    known.part == part && known.name.as_str() == name
}
