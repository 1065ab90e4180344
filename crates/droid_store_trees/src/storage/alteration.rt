//! Creates trees, drops them and describes them anew.

use crate::storage::TreeStore;
use crate::tree::Tree;
use sqlite_trees::error::StoreError;
use sqlite_trees::schema::Object;
use sqlite_trees::store::{Alter, Shape};
use sqlite_value::row::Row;
use std::alloc::{AllocError, Global};

// The trait of the kit's `sqlite_trees` that creates and removes tables and indexes (objects). Its contracts are those
// of the methods; a line at each says what they ask. A write fails for memory alone, and then no tree has changed. No
// cursor may be used after a write.
impl Alter for TreeStore {
    ghost use Rattle.droid_store_trees.specs.Shown.{current};
    ghost use Rattle.droid_store_trees.specs.Laws.{is_listed};

    ghost listed = { λ s _. is_listed (current s) };

    /// Lists the trees that are not absent: for each its number plus 1, type, name, table and SQL text.
    fn objects(&self, alloc: Global) -> Result<Vec<Row>, AllocError> {
        let mut rows = Vec::new(alloc);
        let trees = self.current().trees.as_slice();
        for at in 0..trees.len() {
            let tree = &trees[at];
            if tree.shape != Shape::Absent {
                rows.push(tree.listing(alloc, at)?)?;
            }
        }
        Ok(rows)
    }

    /// Makes a tree without rows, described as this object, in the place of an absent one.
    fn create(&mut self, tree: u32, object: &Object<'_>) -> Result<(), StoreError> {
        let new = Tree::new(self.alloc, object)?;
        self.replace(tree, new)
    }

    /// Makes the tree of this number absent: its rows and its description go, its number stays.
    fn destroy(&mut self, tree: u32) -> Result<(), StoreError> {
        let new = Tree::absent(self.alloc)?;
        self.replace(tree, new)
    }

    /// Returns SQLite's user version, as the transaction sees it: a number that a database keeps for its user.
    fn version(&self) -> u32 {
        self.current().version
    }

    /// Sets SQLite's user version, within the transaction.
    fn set_version(&mut self, version: u32) -> Result<(), StoreError> {
        let mut forest = self.take_changed()?;
        forest.version = version;
        self.changed = Some(forest);
        self.cursors.clear();
        Ok(())
    }

    /// Describes each tree as the object beside it, all or none. They are changed in a copy, so that a failure drops
    /// it.
    fn relist(&mut self, changes: &[(u32, Object<'_>)]) -> Result<(), StoreError> {
        let mut forest = self.current().copy(self.alloc)?;
        for (tree, object) in changes {
            forest.relist(self.alloc, *tree, object)?;
        }
        self.changed = Some(forest);
        self.cursors.clear();
        Ok(())
    }
}
