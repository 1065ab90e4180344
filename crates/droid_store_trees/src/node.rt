//! A balanced tree of rows. An edit makes new nodes on the way from the root to its position and shares all others, so
//! the old tree stays as it was.
//!
//! Balance is for speed alone: no clause asks for it. The clauses name the rows from left to right, and the counts.
//!
//! The weight of a tree is the number of its rows and 1. `balanced` turns a tree when one side has more than three
//! times the weight of the other, and `Fork::after` and `Fork::before` turn twice when the inner side has more than
//! twice that of the outer: 3 and 2 go together, and nothing but this line says so.
//!
//! Every edit and every copy fails when memory runs out, or when a counter of the copies that share a node is full.

ghost use Rattle.std.specs.Prelude.{◌≡◌, ◌≤◌, ◌<◌, ◌∷◌, ◌++◌, length, slice_index_or, slice_set, [], IfOk, IfSome};
ghost use Rattle.std.specs.Prelude.{IfNone};
ghost use Rattle.std.specs.List.{insert, remove};
ghost use Rattle.sqlite_trees.specs.Probe.{IsCutBy, IsPlaceOf};
ghost use Rattle.droid_store_trees.specs.Probe.{passes};
ghost use Rattle.droid_store_trees.specs.Entries.{rows, IsCounted};

use crate::packed_row::PackedRow;
use crate::probe::Probe;
use std::alloc::{AllocError, Global};
use std::rc::Rc;

/// A tree: empty, or a row between two trees.
#[cycle(tree)]
#[derive(Drop)]
pub(crate) enum Node {
    Empty,
    Fork(Rc<Fork>),
}

/// A row between two trees, and how many rows that are.
#[cycle(tree)]
#[derive(Drop)]
pub(crate) struct Fork {
    left: Node,
    row: Rc<PackedRow>,
    right: Node,
    len: usize,
}

impl Node {
    /// Returns how many rows the tree has, without counting them again.
    pub(crate) fn len(&self) -> usize
        requires { IsCounted self.now }
        ensures { result ≡ length (rows self.now) }
    {
        match self {
            Node::Empty => 0,
            Node::Fork(fork) => fork.len,
        }
    }

    /// Copies the tree. The copy shares all its nodes.
    pub(crate) fn copy(&self) -> Result<Node, AllocError>
        requires { IsCounted self.now }
        ensures counted { IfOk result IsCounted }
        ensures same { IfOk result (λ node. rows node ≡ rows self.now) }
    {
        match self {
            Node::Empty => Ok(Node::Empty),
            Node::Fork(fork) => Ok(Node::Fork(fork.clone()?)),
        }
    }

    /// Makes a node that shares two trees and the row between them, and counts its rows.
    fn joined(
        alloc: Global,
        left: &Node,
        row: &Rc<PackedRow>,
        right: &Node,
    ) -> Result<Node, AllocError>
        requires left { IsCounted left.now }
        requires right { IsCounted right.now }
        ensures counted { IfOk result IsCounted }
        ensures rows { IfOk result (λ node. rows node ≡ rows left.now ++ row.now.value ∷ rows right.now) }
    {
        let before = left.len().checked_add(1).ok_or(AllocError)?;
        let len = before.checked_add(right.len()).ok_or(AllocError)?;
        let fork = Fork {
            left: left.copy()?,
            row: row.clone()?,
            right: right.copy()?,
            len,
        };
        Ok(Node::Fork(Rc::new(alloc, fork)?))
    }

    /// Joins both sides, with the row between them, and rotates if one of them has more than three times the weight of
    /// the other.
    fn balanced(
        alloc: Global,
        left: &Node,
        row: &Rc<PackedRow>,
        right: &Node,
    ) -> Result<Node, AllocError>
        requires left { IsCounted left.now }
        requires right { IsCounted right.now }
        ensures counted { IfOk result IsCounted }
        ensures rows { IfOk result (λ node. rows node ≡ rows left.now ++ row.now.value ∷ rows right.now) }
    {
        if right.len() / 3 > left.len() {
            return Node::turned_left(alloc, left, row, right);
        }
        if left.len() / 3 > right.len() {
            return Node::turned_right(alloc, left, row, right);
        }
        Node::joined(alloc, left, row, right)
    }

    /// Makes a node whose right tree, the heavier one, gives its first part to the left: one of the two turns that keep
    /// trees balanced.
    fn turned_left(
        alloc: Global,
        left: &Node,
        row: &Rc<PackedRow>,
        right: &Node,
    ) -> Result<Node, AllocError>
        requires left { IsCounted left.now }
        requires right { IsCounted right.now }
        ensures counted { IfOk result IsCounted }
        ensures rows { IfOk result (λ node. rows node ≡ rows left.now ++ row.now.value ∷ rows right.now) }
    {
        match right {
            Node::Empty => Node::joined(alloc, left, row, right),
            Node::Fork(fork) => fork.after(alloc, left, row),
        }
    }

    /// Makes a node whose left tree, the heavier one, gives its last part to the right: the other turn.
    fn turned_right(
        alloc: Global,
        left: &Node,
        row: &Rc<PackedRow>,
        right: &Node,
    ) -> Result<Node, AllocError>
        requires left { IsCounted left.now }
        requires right { IsCounted right.now }
        ensures counted { IfOk result IsCounted }
        ensures rows { IfOk result (λ node. rows node ≡ rows left.now ++ row.now.value ∷ rows right.now) }
    {
        match left {
            Node::Empty => Node::joined(alloc, left, row, right),
            Node::Fork(fork) => fork.before(alloc, row, right),
        }
    }

    /// Returns the row at a place, counted from 0 from the left, or `None` past the end.
    pub(crate) fn get(&self, at: usize) -> Option<&Rc<PackedRow>>
        requires { IsCounted self.now }
        ensures found { IfSome result (λ row.
            (at < length (rows self.now)) × (row.now.value ≡ slice_index_or (rows self.now) at [])) }
        ensures none { IfNone result (length (rows self.now) ≤ at) }
    {
        match self {
            Node::Empty => None,
            Node::Fork(fork) => {
                let before = fork.left.len();
                if at < before {
                    return fork.left.get(at);
                }
                if before < at {
                    return fork.right.get(at - before - 1);
                }
                Some(&fork.row)
            }
        }
    }

    /// Returns the number of rows that pass the test, if these stand before all others. If they don't, only that the
    /// number is not above that of all rows is promised.
    pub(crate) fn place(&self, probe: Probe<'_>) -> usize
        requires { IsCounted self.now }
        ensures within { result ≤ length (rows self.now) }
        ensures place { IsCutBy (passes probe.entry) (rows self.now)
            → IsPlaceOf (passes probe.entry) (rows self.now) result }
    {
        match self {
            Node::Empty => 0,
            Node::Fork(fork) => {
                if probe.passes(&fork.row) {
                    fork.len - fork.right.len() + fork.right.place(probe)
                } else {
                    fork.left.place(probe)
                }
            }
        }
    }

    /// Returns a tree with this row instead of the one at this place. Past the end the rows are the same.
    #[tactic(auto, using(crate::proofs::Edits::set_left, crate::proofs::Edits::set_here, crate::proofs::Edits::set_right))]
    pub(crate) fn set(
        &self,
        alloc: Global,
        at: usize,
        row: &Rc<PackedRow>,
    ) -> Result<Node, AllocError>
        requires { IsCounted self.now }
        ensures counted { IfOk result IsCounted }
        ensures rows { IfOk result (λ node. rows node ≡ slice_set (rows self.now) at row.now.value) }
    {
        match self {
            Node::Empty => Ok(Node::Empty),
            Node::Fork(fork) => {
                let before = fork.left.len();
                if at < before {
                    let left = fork.left.set(alloc, at, row)?;
                    return Node::joined(alloc, &left, &fork.row, &fork.right);
                }
                if before < at {
                    let right = fork.right.set(alloc, at - before - 1, row)?;
                    return Node::joined(alloc, &fork.left, &fork.row, &right);
                }
                Node::joined(alloc, &fork.left, row, &fork.right)
            }
        }
    }

    /// Returns a tree with this row more, before the one at this place, or at the end.
    #[tactic(auto, using(crate::proofs::Edits::insert_left, crate::proofs::Edits::insert_right))]
    pub(crate) fn insert(
        &self,
        alloc: Global,
        at: usize,
        row: &Rc<PackedRow>,
    ) -> Result<Node, AllocError>
        requires counted { IsCounted self.now }
        requires within { at ≤ length (rows self.now) }
        ensures counted { IfOk result IsCounted }
        ensures rows { IfOk result (λ node. rows node ≡ insert (rows self.now) at row.now.value) }
    {
        match self {
            Node::Empty => Node::joined(alloc, self, row, self),
            Node::Fork(fork) => {
                let before = fork.left.len();
                if at <= before {
                    let left = fork.left.insert(alloc, at, row)?;
                    return Node::balanced(alloc, &left, &fork.row, &fork.right);
                }
                let right = fork.right.insert(alloc, at - before - 1, row)?;
                Node::balanced(alloc, &fork.left, &fork.row, &right)
            }
        }
    }

    /// Returns a tree without the row at this place. In the middle, the next row takes its place in the node.
    #[tactic(auto, using(crate::proofs::Edits::remove_left, crate::proofs::Edits::remove_here, crate::proofs::Edits::remove_right))]
    pub(crate) fn remove(&self, alloc: Global, at: usize) -> Result<Node, AllocError>
        requires counted { IsCounted self.now }
        requires within { at < length (rows self.now) }
        ensures counted { IfOk result IsCounted }
        ensures rows { IfOk result (λ node. rows node ≡ remove (rows self.now) at) }
    {
        match self {
            Node::Empty => Ok(Node::Empty),
            Node::Fork(fork) => {
                let before = fork.left.len();
                if at < before {
                    let left = fork.left.remove(alloc, at)?;
                    return Node::balanced(alloc, &left, &fork.row, &fork.right);
                }
                if before < at {
                    let right = fork.right.remove(alloc, at - before - 1)?;
                    return Node::balanced(alloc, &fork.left, &fork.row, &right);
                }
                match fork.right.get(0) {
                    None => fork.left.copy(),
                    Some(next) => {
                        let right = fork.right.remove(alloc, 0)?;
                        Node::balanced(alloc, &fork.left, next, &right)
                    }
                }
            }
        }
    }
}

impl Fork {
    /// Joins a smaller tree and a row in front of this tree: a rotation to the left, a double one if the left side has
    /// more than twice the weight of the right one.
    fn after(&self, alloc: Global, left: &Node, row: &Rc<PackedRow>) -> Result<Node, AllocError>
        requires left { IsCounted left.now }
        requires parts { IsCounted self.now.left × IsCounted self.now.right }
        ensures counted { IfOk result IsCounted }
        ensures rows { IfOk result (λ node. rows node
            ≡ rows left.now ++ row.now.value ∷ (rows self.now.left ++ self.now.row.value ∷ rows self.now.right)) }
    {
        if self.left.len() / 2 > self.right.len() {
            if let Node::Fork(middle) = &self.left {
                let first = Node::joined(alloc, left, row, &middle.left)?;
                let last = Node::joined(alloc, &middle.right, &self.row, &self.right)?;
                return Node::joined(alloc, &first, &middle.row, &last);
            }
        }
        let first = Node::joined(alloc, left, row, &self.left)?;
        Node::joined(alloc, &first, &self.row, &self.right)
    }

    /// Joins a row and a smaller tree behind this tree: a rotation to the right, a double one if the right side has
    /// more than twice the weight of the left one.
    fn before(&self, alloc: Global, row: &Rc<PackedRow>, right: &Node) -> Result<Node, AllocError>
        requires right { IsCounted right.now }
        requires parts { IsCounted self.now.left × IsCounted self.now.right }
        ensures counted { IfOk result IsCounted }
        ensures rows { IfOk result (λ node. rows node
            ≡ (rows self.now.left ++ self.now.row.value ∷ rows self.now.right) ++ row.now.value ∷ rows right.now) }
    {
        if self.right.len() / 2 > self.left.len() {
            if let Node::Fork(middle) = &self.right {
                let first = Node::joined(alloc, &self.left, &self.row, &middle.left)?;
                let last = Node::joined(alloc, &middle.right, row, right)?;
                return Node::joined(alloc, &first, &middle.row, &last);
            }
        }
        let last = Node::joined(alloc, &self.right, row, right)?;
        Node::joined(alloc, &self.left, &self.row, &last)
    }
}
