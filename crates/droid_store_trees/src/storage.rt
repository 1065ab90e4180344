//! The storage of a database in memory, as `sqlite_trees` asks for it.
//!
//! Of that crate's definitions: the user version of a database is the one row of the tree `version_tree`, and
//! `version_rows n` is that tree's list of rows for version n. `SetsTree old new t edit`: this edit was made to tree t,
//! and nothing else changed but perhaps the cursors.

ghost use Rattle.std.specs.Prelude.{◌≡◌, ◌≢◌, ℕ, [], IfOk, IfErr, OnOk, OnErr};
ghost use Rattle.sqlite_trees.specs.declared.error.StoreError.TheVariants.{OutOfMemory};
ghost use Rattle.sqlite_trees.specs.Objects.{version_tree, version_rows};
ghost use Rattle.sqlite_trees.specs.View.{SetsTree};

use crate::cursor::Cursor;
use crate::edit::Edit;
use crate::forest::Forest;
use crate::tree::Tree;
use sqlite_trees::error::StoreError;
use sqlite_trees::store::Shape;
use std::alloc::{AllocError, Global};

mod alteration;
mod row_access;

/// Numbered trees in memory, with one transaction that is always open.
///
/// A write allocates new nodes on the way down its tree. If memory runs out, it changes nothing. A commit and a
/// rollback only move and drop trees: neither allocates.
#[derive(Drop)]
pub struct TreeStore {
    alloc: Global,
    base: Forest,
    /// What the transaction sees, once it has written something.
    changed: Option<Forest>,
    cursors: Vec<Option<Cursor>>,
    marks: Vec<Forest>,
}

impl TreeStore {
    ghost use Rattle.droid_store_trees.specs.Alike.{AreAlike, Replaces};
    ghost use Rattle.droid_store_trees.specs.Edits.{edited, Fits};
    ghost use Rattle.droid_store_trees.specs.Shown.{current, view, SetsCursor, IsStill};

    /// Makes a store without trees. It takes no memory.
    pub fn new(alloc: Global) -> TreeStore
        ensures trees { (t : ℕ) → t ≢ version_tree → (view result).trees t ≡ [] }
        ensures version { (view result).trees version_tree ≡ version_rows 0 }
        ensures clean { (view result).trees ≡ (view result).committed }
        ensures unmarked { (view result).marks ≡ [] }
    {
        TreeStore {
            alloc,
            base: Forest::new(alloc),
            changed: None,
            cursors: Vec::new(alloc),
            marks: Vec::new(alloc),
        }
    }

    /// Returns the trees as the transaction sees them: those that it wrote, or the committed ones if it wrote nothing.
    fn current(&self) -> &Forest
        ensures { result.now ≡ current self.now }
    {
        match &self.changed {
            Some(forest) => forest,
            None => &self.base,
        }
    }

    /// Takes the trees that the transaction writes to out of the store: those it has written already, or a copy.
    /// Callers put them back as `changed`.
    fn take_changed(&mut self) -> Result<Forest, AllocError>
        ensures ok { IfOk result (AreAlike (current self.old)) }
        ensures err { OnErr result (self.new ≡ self.old) }
        ensures rest { (self.new.base ≡ self.old.base) × (self.new.marks ≡ self.old.marks)
            × (self.new.cursors ≡ self.old.cursors) }
    {
        match self.changed.take() {
            Some(forest) => Ok(forest),
            None => self.base.copy(self.alloc),
        }
    }

    /// Puts a cursor under the number `at`, and keeps the others. After an error, which is out of memory, some numbers
    /// below it may stand without a cursor, as before.
    fn set_cursor(
        cursors: &mut Vec<Option<Cursor>>,
        at: usize,
        cursor: Cursor,
    ) -> Result<(), AllocError>
        ensures ok { OnOk result (SetsCursor cursors.old.items cursors.new.items at cursor) }
    {
        while cursors.len() <= at {
            cursors.push(None)?;
        }
        cursors[at] = Some(cursor);
        Ok(())
    }

    /// Changes the rows of a tree within the transaction. If memory runs out, all rows are as before. The cursors
    /// may go either way: none may be used after a write.
    fn write(&mut self, tree: u32, edit: Edit<'_>) -> Result<(), StoreError>
        requires { Fits edit ((view self.old).shape tree) }
        ensures ok { OnOk result (SetsTree (view self.old) (view self.new) tree (edited edit.entry)) }
        ensures err { OnErr result (IsStill (view self.old) (view self.new)) }
        ensures failure { IfErr result (λ e. e ≡ OutOfMemory) }
    {
        let mut forest = self.take_changed()?;
        let done = forest.edit(self.alloc, tree, edit);
        self.changed = Some(forest);
        self.cursors.clear();
        Ok(done?)
    }

    /// Puts the tree `new` in the place of the one with the number `tree`, within the transaction. If memory runs out,
    /// all trees are as before. The cursors may go either way.
    fn replace(&mut self, tree: u32, new: Tree) -> Result<(), StoreError>
        ensures ok { OnOk result (Replaces (current self.old) (current self.new) tree new) }
        ensures err { OnErr result (IsStill (view self.old) (view self.new)) }
        ensures rest { (self.new.base ≡ self.old.base) × (self.new.marks ≡ self.old.marks) }
        ensures failure { IfErr result (λ e. e ≡ OutOfMemory) }
    {
        let mut forest = self.take_changed()?;
        let done = forest.replace(self.alloc, tree, new);
        self.changed = Some(forest);
        self.cursors.clear();
        Ok(done?)
    }
}
