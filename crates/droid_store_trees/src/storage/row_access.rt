//! Reads and writes rows, and ends the transaction.

ghost use Rattle.std.specs.Prelude.{◌≡◌, refl, true, false};
ghost use Rattle.std.proofs.Common.{true≢false};

use crate::edit::Edit;
use crate::storage::TreeStore;
use sqlite_trees::error::StoreError;
use sqlite_trees::store::{Direction, Shape, Store};
use sqlite_trees::typed::is_typed;
use sqlite_value::row::Row;

// The trait of the kit's `sqlite_trees` for rows and transactions. Its contracts are those of the methods; a line at
// each says what they ask. A write fails for memory alone, but that `put` and `insert` also refuse rows of other types;
// then no row has changed. No cursor may be used after a write. The `ghost` lines say that this storage never breaks:
// it has no disk, so there are no faults, and a crash leaves what was committed last.
impl Store for TreeStore {
    ghost use Rattle.droid_store_trees.specs.Shown.{view, current};
    ghost use Rattle.droid_store_trees.specs.Laws.{is_ordered, is_unaltered};

    ghost view = { view };

    ghost faults = { λ _. 0 };

    ghost recovers = { λ s db. db ≡ (view s).committed };

    ghost is_shielded = { λ _. Unit {0} };

    ghost is_step = { λ _ _ _. Unit {0} };

    ghost ordered = { λ s _. is_ordered (current s) };

    ghost shut_if_dirty = { λ s dirty. absurd (true≢false dirty) };

    ghost empty_if_dirty = { λ s dirty. absurd (true≢false dirty) };

    ghost broken_if_shut = { λ s shut. absurd (true≢false shut) };

    ghost settled = { λ s db _ same. same };

    ghost stays = { λ s _. refl };

    ghost survives = { λ s _. ∣ (_, refl) ∣₁ };

    ghost unaltered = { λ s _. is_unaltered (current s) s.base };

    /// Returns whether the storage failed in a way that only a rollback mends. In memory it never does.
    fn is_broken(&self) -> bool {
        false
    }

    /// Returns the number after that of the last tree that is not absent, at most 2^32, or 0 if there is none.
    fn tree_count(&self) -> u64 {
        let mut count = (self.current().trees.len() as u64).min(1 << 32);
        while count > 0 && self.shape((count - 1) as u32) == Shape::Absent {
            count -= 1;
        }
        count
    }

    /// Returns which columns of a tree hold REAL numbers, as a bit set. An absent tree has none.
    fn reals(&self, tree: u32) -> u64 {
        self.current()
            .trees
            .get(tree as usize)
            .map_or(0, |t| if t.shape == Shape::Absent { 0 } else { t.reals })
    }

    /// Returns whether the tree of this number is a table, an index or absent. A number without a tree is absent.
    fn shape(&self, tree: u32) -> Shape {
        self.current().shape(tree)
    }

    /// Places the cursor of this number at the first row that is not below the key, or, backward, at the last that is
    /// not above it. Fails only if memory runs out.
    fn seek(
        &mut self,
        cursor: u16,
        tree: u32,
        key: &Row,
        direction: Direction,
    ) -> Result<(), StoreError> {
        let placed = self.current().placed(tree as usize, key, direction);
        Ok(Self::set_cursor(&mut self.cursors, usize::from(cursor), placed)?)
    }

    /// Reads the cursor's row into `row` and moves on, or returns `false` at the end. The cursor has to be placed.
    fn next(&mut self, cursor: u16, row: &mut Row) -> Result<bool, StoreError> {
        let at = usize::from(cursor);
        match self.current().step(self.cursors[at].unwrap(), row)? {
            Some(moved) => {
                self.cursors[at] = Some(moved);
                Ok(true)
            }
            None => Ok(false),
        }
    }

    /// Reads the table's row of this number into `row`, or returns `false` if there is none.
    fn get(&mut self, table: u32, id: i64, row: &mut Row) -> Result<bool, StoreError> {
        Ok(self.current().trees[table as usize].get(id, row)?)
    }

    /// Adds a row to a table, or replaces the one of its number. Refuses a row without a column beside its number, or
    /// with a value that its column cannot hold.
    fn put(&mut self, table: u32, row: &Row) -> Result<(), StoreError> {
        if row.len() < 2 || !is_typed(row, self.reals(table)) {
            return Err(StoreError::Unstorable);
        }
        self.write(table, Edit::Put(row))
    }

    /// Removes the row of this number from a table. If there is none, nothing changes, and that is no fault.
    fn delete(&mut self, table: u32, id: i64) -> Result<(), StoreError> {
        self.write(table, Edit::Delete(id))
    }

    /// Adds an entry to an index; one that is there stays as it is. Refuses an entry with a value that its column
    /// cannot hold.
    fn insert(&mut self, index: u32, entry: &Row) -> Result<(), StoreError> {
        if !is_typed(entry, self.reals(index)) {
            return Err(StoreError::Unstorable);
        }
        self.write(index, Edit::Insert(self.shape(index).order(), entry))
    }

    /// Removes an entry from an index. If it is not there, nothing changes, and that is no fault; so, unlike in
    /// `insert`, its types need no test.
    fn remove(&mut self, index: u32, entry: &Row) -> Result<(), StoreError> {
        self.write(index, Edit::Remove(self.shape(index).order(), entry))
    }

    /// Makes what the transaction wrote the committed trees, and drops the marks. Allocates nothing and never fails.
    fn commit(&mut self) -> Result<(), StoreError> {
        self.marks.clear();
        if let Some(forest) = self.changed.take() {
            self.base = forest;
        }
        Ok(())
    }

    /// Drops what the transaction wrote, the marks and the cursors.
    fn rollback(&mut self) {
        self.changed = None;
        self.marks.clear();
        self.cursors.clear();
    }

    /// Marks what the transaction sees, so that `rollback_to` can go back to it.
    fn savepoint(&mut self) -> Result<(), StoreError> {
        let mark = self.current().copy(self.alloc)?;
        Ok(self.marks.push(mark)?)
    }

    /// Drops the newest mark, and keeps what was written since. Without a mark nothing changes.
    fn release(&mut self) -> Result<(), StoreError> {
        self.marks.pop();
        Ok(())
    }

    /// Goes back to the newest mark, which stays. Without a mark nothing changes.
    fn rollback_to(&mut self) -> Result<(), StoreError> {
        let Some(mark) = self.marks.last() else {
            return Ok(());
        };
        self.changed = Some(mark.copy(self.alloc)?);
        self.cursors.clear();
        Ok(())
    }
}
