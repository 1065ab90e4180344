//! Reads elements as records.
//!
//! A record's `impl` of [`FromNode`] reads one element; its `ghost says` is the definition that its `from_node` meets.
//! The functions below read all elements of a name, each by its record's `from_node`, in the document's order, up to
//! the first that is wrong. After a fault nothing is promised of `all`: `read_each` and `read_collected` drop it.

ghost use Rattle.std.specs.Prelude.{◌∷◌, ◌<◌, ◌≤◌, [], drop, filter, length, map, IfOk, IfSome};
ghost use Rattle.std.specs.List.{flat_map};
ghost use Rattle.droid_xml.specs.Views.{part};
ghost use Rattle.droid_signature_file.specs.Elements.{inside_named, is_named, nodes_from};
ghost use Rattle.droid_signature_file.specs.Outcomes.{Adds, Gives, Steps, node_of};
ghost use Rattle.droid_signature_file.specs.Signatures.{collected, every};

use crate::fault::Stop;
use crate::node::{Node, first_node};
use droid_xml::Piece;
use std::alloc::Global;

/// A record that an element is read as.
pub(crate) trait FromNode: Sized + Drop {
    ghost use Rattle.std.specs.Prelude.{Result};
    ghost use Rattle.droid_signature_file.specs.Elements.{Node as Element};
    ghost use Rattle.droid_signature_file.specs.declared.fault.Wrong.{Wrong};
    ghost use Rattle.droid_signature_file.specs.Outcomes.{Gives, node_of};

    /// What an element says, or what is wrong with it.
    ghost says: { Element → Result Self Wrong };

    /// Reads an element as the record, or returns what is wrong with it. The caller has seen to its name.
    fn from_node(alloc: Global, node: &Node<'_, '_>) -> Result<Self, Stop>
        ensures { Gives (λ it. it) result (says (node_of node.now)) };
}

/// Reads the elements of a name that stand directly in an element, and passes over the others there.
pub(crate) fn read_each<T: FromNode>(
    alloc: Global,
    node: &Node<'_, '_>,
    name: &str,
) -> Result<Vec<T>, Stop>
    ensures { Gives (λ all. all.items) result (every T.says (inside_named name.now (node_of node.now))) }
{
    let mut all = Vec::new(alloc);
    match add_each(alloc, &mut all, node.inside, name) {
        Ok(()) => Ok(all),
        Err(stop) => Err(stop),
    }
}

/// Adds the elements of a name that stand directly among the pieces, one after the other.
fn add_each<T: FromNode>(
    alloc: Global,
    all: &mut Vec<T>,
    pieces: &[Piece<'_>],
    name: &str,
) -> Result<(), Stop>
    ensures { Adds result all.old.items all.new.items
        (every T.says (filter (is_named name.now) (nodes_from 0 (map part pieces.now)))) }
{
    let mut at = 0;
    'elements: loop {
        match add_next(alloc, all, pieces, at, name) {
            Ok(Some(next)) => at = next,
            Ok(None) => return Ok(()),
            Err(stop) => return Err(stop),
        }
    }
}

/// Adds the next element that stands directly among the pieces from a place on, if it has this name. Returns the place
/// behind it, or `None` if there is no element.
fn add_next<T: FromNode>(
    alloc: Global,
    all: &mut Vec<T>,
    pieces: &[Piece<'_>],
    at: usize,
    name: &str,
) -> Result<Option<usize>, Stop>
    requires { at ≤ length pieces.now }
    ensures added { Steps result all.old.items all.new.items
        (λ at. every T.says (filter (is_named name.now) (nodes_from 0 (map part (drop at pieces.now))))) at }
    ensures later { IfOk result (λ next. IfSome next (λ next. (at < next) × (next ≤ length pieces.now))) }
{
    match first_node(&pieces[at..]) {
        None => Ok(None),
        Some((one, len)) => match add_named(alloc, all, &one, name) {
            Ok(()) => Ok(Some(at + len)),
            Err(stop) => Err(stop),
        },
    }
}

/// Adds an element, if it has this name. Passes over any other one.
fn add_named<T: FromNode>(
    alloc: Global,
    all: &mut Vec<T>,
    node: &Node<'_, '_>,
    name: &str,
) -> Result<(), Stop>
    ensures { Adds result all.old.items all.new.items
        (every T.says (filter (is_named name.now) (node_of node.now ∷ []))) }
{
    if node.element.name != name {
        return Ok(());
    }
    match T::from_node(alloc, node) {
        Ok(one) => {
            all.push(one)?;
            Ok(())
        }
        Err(stop) => Err(stop),
    }
}

/// Reads the elements of a name that stand directly in the root's elements of another name, the collections.
pub(crate) fn read_collected<T: FromNode>(
    alloc: Global,
    root: &Node<'_, '_>,
    collection: &str,
    name: &str,
) -> Result<Vec<T>, Stop>
    ensures { Gives (λ all. all.items) result (every T.says (collected collection.now name.now (node_of root.now))) }
{
    let mut all = Vec::new(alloc);
    match add_collected(alloc, &mut all, root.inside, collection, name) {
        Ok(()) => Ok(all),
        Err(stop) => Err(stop),
    }
}

/// Adds the elements of a name that stand directly in the elements of another name among the pieces.
fn add_collected<T: FromNode>(
    alloc: Global,
    all: &mut Vec<T>,
    pieces: &[Piece<'_>],
    collection: &str,
    name: &str,
) -> Result<(), Stop>
    ensures { Adds result all.old.items all.new.items
        (every T.says
        (flat_map (inside_named name.now) (filter (is_named collection.now) (nodes_from 0 (map part pieces.now))))) }
{
    let mut at = 0;
    'elements: loop {
        match add_next_inside(alloc, all, pieces, at, collection, name) {
            Ok(Some(next)) => at = next,
            Ok(None) => return Ok(()),
            Err(stop) => return Err(stop),
        }
    }
}

/// Adds the elements of a name that stand directly in the next element that stands directly among the pieces from a
/// place on, if that has the name of a collection. Returns the place behind it, or `None` if there is no element.
fn add_next_inside<T: FromNode>(
    alloc: Global,
    all: &mut Vec<T>,
    pieces: &[Piece<'_>],
    at: usize,
    collection: &str,
    name: &str,
) -> Result<Option<usize>, Stop>
    requires { at ≤ length pieces.now }
    ensures added { Steps result all.old.items all.new.items
        (λ at.
        every T.says
        (flat_map (inside_named name.now)
        (filter (is_named collection.now) (nodes_from 0 (map part (drop at pieces.now))))))
        at }
    ensures later { IfOk result (λ next. IfSome next (λ next. (at < next) × (next ≤ length pieces.now))) }
{
    match first_node(&pieces[at..]) {
        None => Ok(None),
        Some((it, len)) => match add_inside(alloc, all, &it, collection, name) {
            Ok(()) => Ok(Some(at + len)),
            Err(stop) => Err(stop),
        },
    }
}

/// Adds the elements of a name that stand directly in an element, if that has the name of a collection.
fn add_inside<T: FromNode>(
    alloc: Global,
    all: &mut Vec<T>,
    it: &Node<'_, '_>,
    collection: &str,
    name: &str,
) -> Result<(), Stop>
    ensures { Adds result all.old.items all.new.items
        (every T.says (flat_map (inside_named name.now) (filter (is_named collection.now) (node_of it.now ∷ [])))) }
{
    if it.element.name != collection {
        return Ok(());
    }
    add_each(alloc, all, it.inside, name)
}
