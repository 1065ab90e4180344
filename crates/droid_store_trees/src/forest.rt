//! All trees of the database by number, with its user version.
//!
//! Of the kit's `sqlite_trees`: `sought order direction key rows` are the rows that a cursor has to read after a
//! search, `with_tree trees t rows` the trees with these rows in tree t.

ghost use Rattle.std.specs.Prelude.{◌≡◌, ◌<◌, [], length, IfOk, OnOk, OnErr};
ghost use Rattle.sqlite_trees.specs.Tree.{order_of, sought, with_tree};

use crate::cursor::Cursor;
use crate::edit::Edit;
use crate::probe::Probe;
use crate::tree::Tree;
use sqlite_trees::schema::Object;
use sqlite_trees::store::{Direction, Shape};
use sqlite_value::row::Row;
use std::alloc::{AllocError, Global};

/// The trees of a database, and SQLite's user version.
#[derive(Drop)]
pub(crate) struct Forest {
    pub trees: Vec<Tree>,
    pub version: u32,
}

impl Forest {
    ghost use Rattle.droid_store_trees.specs.Shown.{headings, rows_of, shape_of, left_of, Steps};
    ghost use Rattle.droid_store_trees.specs.Edits.{edited, Fits};
    ghost use Rattle.droid_store_trees.specs.Alike.{AreAlike, Replaces, Relabels};

    /// Makes a database without trees.
    pub(crate) fn new(alloc: Global) -> Forest
        ensures { (result.trees.items ≡ []) × (result.version ≡ 0) }
    {
        Forest {
            trees: Vec::new(alloc),
            version: 0,
        }
    }

    /// Copies all trees, which share their rows. Fails only if memory runs out.
    pub(crate) fn copy(&self, alloc: Global) -> Result<Forest, AllocError>
        ensures { IfOk result (AreAlike self.now) }
    {
        let mut trees = Vec::with_capacity(alloc, self.trees.len())?;
        for tree in &self.trees {
            trees.push(tree.copy()?)?;
        }
        Ok(Forest {
            trees,
            version: self.version,
        })
    }

    /// Returns whether the tree of this number is a table, an index or absent. A number past the last tree is absent.
    pub(crate) fn shape(&self, tree: u32) -> Shape
        ensures { result ≡ shape_of self.now tree }
    {
        self.trees
            .get(tree as usize)
            .map_or(Shape::Absent, |t| t.shape)
    }

    /// Returns a cursor at the first row that is not below the key, or, backward, behind the last that is not above it.
    /// Where there is no such tree, it has nothing to read.
    pub(crate) fn placed(&self, tree: usize, key: &Row, direction: Direction) -> Cursor
        ensures { left_of self.now result
            ≡ sought (order_of (shape_of self.now tree)) direction key.now (rows_of self.now tree) }
    {
        let Some(found) = self.trees.get(tree) else {
            return Cursor {
                tree,
                at: 0,
                direction,
            };
        };
        let order = found.shape.order();
        let at = match direction {
            Direction::Forward => found.rows.place(Probe::BelowKey(order, key)),
            Direction::Backward => found.rows.place(Probe::UpToKey(order, key)),
        };
        Cursor {
            tree,
            at,
            direction,
        }
    }

    /// Reads the cursor's next row into `row`. Returns the moved cursor, or `None` at the end. Fails only if memory
    /// runs out.
    pub(crate) fn step(&self, cursor: Cursor, row: &mut Row) -> Result<Option<Cursor>, AllocError>
        ensures { IfOk result (Steps self.now cursor row.new) }
    {
        let Some(tree) = self.trees.get(cursor.tree) else {
            return Ok(None);
        };
        match cursor.direction {
            Direction::Forward => {
                if tree.rows.len() <= cursor.at {
                    return Ok(None);
                }
                let Some(found) = tree.rows.get(cursor.at) else {
                    return Ok(None);
                };
                found.copy_into(row)?;
                Ok(Some(Cursor {
                    at: cursor.at + 1,
                    ..cursor
                }))
            }
            Direction::Backward => {
                let behind = cursor.at.min(tree.rows.len());
                if behind == 0 {
                    return Ok(None);
                }
                let at = behind - 1;
                let Some(found) = tree.rows.get(at) else {
                    return Ok(None);
                };
                found.copy_into(row)?;
                Ok(Some(Cursor { at, ..cursor }))
            }
        }
    }

    /// Makes a write to the rows of a tree. If memory runs out, all rows stay. The tree has to be there, with the shape
    /// that the write asks for.
    pub(crate) fn edit(
        &mut self,
        alloc: Global,
        tree: u32,
        edit: Edit<'_>,
    ) -> Result<(), AllocError>
        requires { Fits edit (shape_of self.old tree) }
        ensures headings { headings self.new ≡ headings self.old }
        ensures version { self.new.version ≡ self.old.version }
        ensures ok { OnOk result
            (rows_of self.new ≡ with_tree (rows_of self.old) tree (edited edit.entry (rows_of self.old tree))) }
        ensures err { OnErr result (rows_of self.new ≡ rows_of self.old) }
    {
        self.trees[tree as usize].apply(alloc, edit)
    }

    /// Adds absent trees until there is one with this number. If memory runs out, some may have been added; they show
    /// nothing.
    fn make_room(&mut self, alloc: Global, tree: u32) -> Result<(), AllocError>
        ensures room { OnOk result (tree < length self.new.trees.items) }
        ensures same { AreAlike self.old self.new }
    {
        while self.trees.len() <= tree as usize {
            self.trees.push(Tree::absent(alloc)?)?;
        }
        Ok(())
    }

    /// Puts a tree in the place of the one that has this number. If memory runs out, the same trees are shown as
    /// before.
    pub(crate) fn replace(&mut self, alloc: Global, tree: u32, new: Tree) -> Result<(), AllocError>
        ensures ok { OnOk result (Replaces self.old self.new tree new) }
        ensures err { OnErr result (AreAlike self.old self.new) }
    {
        self.make_room(alloc, tree)?;
        self.trees[tree as usize] = new;
        Ok(())
    }

    /// Describes one tree anew, as this object (a table or an index). All rows stay.
    pub(crate) fn relist(
        &mut self,
        alloc: Global,
        tree: u32,
        object: &Object<'_>,
    ) -> Result<(), AllocError>
        requires { tree < length self.old.trees.items }
        ensures ok { OnOk result (Relabels self.old self.new tree object.now) }
        ensures err { OnErr result (AreAlike self.old self.new) }
    {
        let new = self.trees[tree as usize].described_as(alloc, object)?;
        self.trees[tree as usize] = new;
        Ok(())
    }
}
