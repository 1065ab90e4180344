//! A list of rows, which is what callers of this crate use.
//!
//! Of the kit's `sqlite_trees`: `IsCutBy test rows` says that all rows that pass the test stand before all that fail
//! it, `IsPlaceOf test rows n` that the first n rows pass and no others.

ghost use Rattle.std.specs.Prelude.{◌≡◌, ◌≤◌, ◌<◌, length, slice_index_or, slice_set, [], IfOk, IfSome, IfNone, OnOk};
ghost use Rattle.std.specs.Prelude.{OnErr};
ghost use Rattle.std.specs.List.{insert, remove};
ghost use Rattle.sqlite_trees.specs.Probe.{IsCutBy, IsPlaceOf};
ghost use Rattle.droid_store_trees.specs.Probe.{passes};

use crate::node::Node;
use crate::packed_row::PackedRow;
use crate::probe::Probe;
use std::alloc::{AllocError, Global};
use std::marker::Model;
use std::rc::Rc;

/// A list of rows. The caller chooses the order and keeps it.
///
/// A balanced tree holds the rows, so an edit, a look-up and a search take time in the logarithm of their number. A
/// copy shares the tree and takes no memory.
#[derive(Drop)]
pub struct Entries {
    root: Node,
}

impl Model for Entries {
    ghost use Rattle.std.specs.Prelude.{List};
    ghost use Rattle.sqlite_value.specs.Order.{Row};
    ghost use Rattle.droid_store_trees.specs.Entries.{rows, IsCounted};

    ghost Value = { List Row };

    ghost view = { λ e. rows e.root };

    ghost invariant = { λ e. IsCounted e.root };
}

impl Entries {
    /// Makes a list without rows. It takes no memory.
    pub fn new() -> Entries
        ensures { result ≡ [] }
    {
        Entries { root: Node::Empty }
    }

    /// Returns the number of rows, without counting them again.
    pub fn len(&self) -> usize
        ensures { result ≡ length self.now }
    {
        self.root.len()
    }

    /// Copies the list; both copies share the rows. Fails only if a counter of the copies that share a part of the tree
    /// is full.
    pub fn copy(&self) -> Result<Entries, AllocError>
        ensures { IfOk result (λ copy. copy ≡ self.now) }
    {
        Ok(Entries {
            root: self.root.copy()?,
        })
    }

    /// Returns the row at this position, counted from 0, or `None` past the end.
    pub fn get(&self, at: usize) -> Option<&PackedRow>
        ensures found { IfSome result (λ row. (at < length self.now) × (row.now ≡ slice_index_or self.now at [])) }
        ensures none { IfNone result (length self.now ≤ at) }
    {
        match self.root.get(at) {
            Some(row) => Some(row.as_ref()),
            None => None,
        }
    }

    /// Searches: returns the number of rows that pass the test. They stand before all rows that fail it.
    pub fn place(&self, probe: Probe<'_>) -> usize
        requires { IsCutBy (passes probe) self.now }
        ensures { IsPlaceOf (passes probe.entry) self.now result }
    {
        self.root.place(probe)
    }

    /// Replaces the row at this position; past the end it changes nothing. If memory runs out, the list stays as it
    /// was.
    pub fn set(&mut self, alloc: Global, at: usize, row: PackedRow) -> Result<(), AllocError>
        ensures ok { OnOk result (self.new ≡ slice_set self.old at row) }
        ensures err { OnErr result (self.new ≡ self.old) }
    {
        self.root = self.root.set(alloc, at, &Rc::new(alloc, row)?)?;
        Ok(())
    }

    /// Inserts the row before the one at this position, or at the end. If memory runs out, the list stays as it was.
    pub fn insert(&mut self, alloc: Global, at: usize, row: PackedRow) -> Result<(), AllocError>
        requires { at ≤ length self.old }
        ensures ok { OnOk result (self.new ≡ insert self.old at row) }
        ensures err { OnErr result (self.new ≡ self.old) }
    {
        self.root = self.root.insert(alloc, at, &Rc::new(alloc, row)?)?;
        Ok(())
    }

    /// Removes the row at this position. This takes memory too, and if that runs out, the list stays as it was.
    pub fn remove(&mut self, alloc: Global, at: usize) -> Result<(), AllocError>
        requires { at < length self.old }
        ensures ok { OnOk result (self.new ≡ remove self.old at) }
        ensures err { OnErr result (self.new ≡ self.old) }
    {
        self.root = self.root.remove(alloc, at)?;
        Ok(())
    }
}
