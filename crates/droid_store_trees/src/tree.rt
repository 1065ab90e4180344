//! One table or index: its description, and its rows in order.
//!
//! Of the kit's `sqlite_trees`: `put_row`, `without_rowid`, `insert_entry` and `remove_entry` are the rows after an
//! edit; `remove_entry` and `without_rowid` leave the rows as they are if there is nothing to remove, and
//! `insert_entry` if the entry is there. `rowid` is a row's first column. `Finds rows id row found`: the row has that
//! number, or none has. `IsTestAt test rows at result`: there is a row at the place, and it passes. `IsShaped`: the
//! rows are in their order. `description` and `listing` are the columns of `sqlite_schema`.

ghost use Rattle.std.specs.Prelude.{◌≡◌, ◌^◌, ◌<◌, false, [], take, true, IsTrue, IfOk, IfSome, OnOk, OnErr};
ghost use Rattle.std.specs.Ordering.{is_eq};
ghost use Rattle.sqlite_value.specs.Value.{owned};
ghost use Rattle.sqlite_value.specs.Order.{value_cmp};
ghost use Rattle.sqlite_value.specs.Keys.{entry_cmp};
ghost use Rattle.sqlite_trees.specs.Probe.{IsTestAt};
ghost use Rattle.sqlite_trees.specs.Tree.{rowid, put_row, insert_entry, remove_entry, without_rowid};
ghost use Rattle.sqlite_trees.specs.View.{IsShaped, Finds, is_int};
ghost use Rattle.sqlite_trees.specs.Objects.{description, listing};

use crate::edit::Edit;
use crate::entries::Entries;
use crate::packed_row::PackedRow;
use crate::probe::Probe;
use sqlite_trees::schema::Object;
use sqlite_trees::store::Shape;
use sqlite_value::keys::Order;
use sqlite_value::order::compare;
use sqlite_value::row::Row;
use sqlite_value::value::ValueRef;
use std::alloc::{AllocError, Global};
use std::rc::Rc;

/// A table or an index. `reals` has a bit for each column that holds REAL numbers.
#[derive(Drop)]
pub(crate) struct Tree {
    pub shape: Shape,
    pub reals: u64,
    pub described: Rc<Row>,
    pub rows: Entries,
    pub ghost ordered: { ∥ IsShaped shape rows ∥₁ },
}

/// Returns whether there is a row at this place and its first column is this number.
fn has_rowid_at(rows: &Entries, at: usize, id: ValueRef<'_>) -> bool
    ensures { IsTestAt (λ r. is_eq (value_cmp (rowid r) (owned id.entry))) rows.now at result }
{
    match rows.get(at) {
        Some(row) => compare(row.first(), id).is_eq(),
        None => false,
    }
}

/// Returns whether there is a row at this place and it is this entry of an index.
fn has_entry_at(order: Order, rows: &Entries, at: usize, entry: &Row) -> bool
    ensures { IsTestAt (λ e. is_eq (entry_cmp order e entry.now)) rows.now at result }
{
    match rows.get(at) {
        Some(row) => row.cmp_entry(order, entry).is_eq(),
        None => false,
    }
}

impl Tree {
    ghost use Rattle.droid_store_trees.specs.Shown.{heading};
    ghost use Rattle.droid_store_trees.specs.Edits.{edited, Fits};

    /// Makes a tree without rows for this object, a table or an index. Fails only if memory runs out.
    pub(crate) fn new(alloc: Global, object: &Object<'_>) -> Result<Tree, AllocError>
        ensures heading { IfOk result (λ t. heading t ≡ (object.now.shape, object.now.reals, description object.now)) }
        ensures rows { IfOk result (λ t. t.rows ≡ []) }
    {
        let described = Rc::new(alloc, object.describe(alloc)?)?;
        Ok(Tree {
            shape: object.shape,
            reals: object.reals,
            described,
            rows: Entries::new(),
        })
    }

    /// Makes an absent tree: what stands in the place of one that was removed.
    pub(crate) fn absent(alloc: Global) -> Result<Tree, AllocError>
        ensures heading { IfOk result (λ t. heading t ≡ (Shape.Absent, 0, [])) }
        ensures rows { IfOk result (λ t. t.rows ≡ []) }
    {
        let described = Rc::new(alloc, Row::new(alloc))?;
        Ok(Tree {
            shape: Shape::Absent,
            reals: 0,
            described,
            rows: Entries::new(),
        })
    }

    /// Copies the tree with another object's description and REAL columns. Shape and rows stay; the rows are shared.
    pub(crate) fn described_as(
        &self,
        alloc: Global,
        object: &Object<'_>,
    ) -> Result<Tree, AllocError>
        ensures heading { IfOk result (λ t. heading t ≡ (self.now.shape, object.now.reals, description object.now)) }
        ensures rows { IfOk result (λ t. t.rows ≡ self.now.rows) }
    {
        let described = Rc::new(alloc, object.describe(alloc)?)?;
        Ok(Tree {
            shape: self.shape,
            reals: object.reals,
            described,
            rows: self.rows.copy()?,
        })
    }

    /// Returns the tree's row in the list of tables and indexes: its number plus 1, type, name, table and SQL text.
    pub(crate) fn listing(&self, alloc: Global, tree: usize) -> Result<Row, AllocError>
        requires { tree < 2 ^ 62 }
        ensures { IfOk result (λ row.
            row ≡ take 5 (listing tree self.now.described.value self.now.shape self.now.reals)) }
    {
        let mut row = Row::new(alloc);
        row.push(ValueRef::Int(tree as i64 + 1))?;
        row.push(self.described.get(0))?;
        row.push(self.described.get(1))?;
        row.push(self.described.get(2))?;
        row.push(self.described.get(3))?;
        Ok(row)
    }

    /// Copies the tree, which shares its rows.
    pub(crate) fn copy(&self) -> Result<Tree, AllocError>
        ensures heading { IfOk result (λ t. heading t ≡ heading self.now) }
        ensures rows { IfOk result (λ t. t.rows ≡ self.now.rows) }
    {
        Ok(Tree {
            shape: self.shape,
            reals: self.reals,
            described: self.described.clone()?,
            rows: self.rows.copy()?,
        })
    }

    /// Writes the table's row of this number into `row`, and returns whether there is one. If there is none, nothing is
    /// promised of `row`.
    pub(crate) fn get(&self, id: i64, row: &mut Row) -> Result<bool, AllocError>
        requires { self.now.shape ≡ Shape.Table }
        ensures { IfOk result (Finds self.now.rows id row.new) }
    {
        if let Some(found) = self.found_at_once(id) {
            found.copy_into(row)?;
            return Ok(true);
        }
        let at = self.rows.place(Probe::BelowRowid(ValueRef::Int(id)));
        if !has_rowid_at(&self.rows, at, ValueRef::Int(id)) {
            return Ok(false);
        }
        match self.rows.get(at) {
            Some(found) => {
                found.copy_into(row)?;
                Ok(true)
            }
            None => Ok(false),
        }
    }

    /// Finds the row with this rowid at one of two likely positions, without a search. This is for speed: after `None`
    /// the row is searched for.
    ///
    /// Rowids begin with 1, so until a row is deleted each row stands at its rowid. After that it stands before the row
    /// at that position, by the difference of their rowids, unless a row between them was deleted too.
    fn found_at_once(&self, id: i64) -> Option<&PackedRow>
        requires { self.now.shape ≡ Shape.Table }
        ensures { IfSome result (λ found. Finds self.now.rows id found.now true) }
    {
        let number = usize::try_from(id).ok()?;
        let at = number.checked_sub(1)?;
        if let Some(found) = self.numbered_at(at, id) {
            return Some(found);
        }
        let at = self.earlier_place(at, id)?;
        self.numbered_at(at, id)
    }

    /// Returns the row at this position, if there is one and it has this rowid. `None` promises nothing.
    fn numbered_at(&self, at: usize, id: i64) -> Option<&PackedRow>
        requires { self.now.shape ≡ Shape.Table }
        ensures { IfSome result (λ found. Finds self.now.rows id found.now true) }
    {
        let found = self.rows.get(at)?;
        if compare(found.first(), ValueRef::Int(id)).is_eq() {
            Some(found)
        } else {
            None
        }
    }

    /// Guesses the position of the rowid: before this position, or before the last one, by the difference to the rowid
    /// there. It has no contract, and needs none: `numbered_at` looks at the rowid there.
    fn earlier_place(&self, at: usize, id: i64) -> Option<usize> {
        let last = self.rows.len().checked_sub(1)?;
        let at = at.min(last);
        let ValueRef::Int(number) = self.rows.get(at)?.first() else {
            return None;
        };
        let below = usize::try_from(number.checked_sub(id)?).ok()?;
        at.checked_sub(below)
    }

    /// Adds a row to a table, or replaces the one of its number, which is the row's first column.
    fn put(&mut self, alloc: Global, new: &Row) -> Result<(), AllocError>
        requires table { self.old.shape ≡ Shape.Table }
        requires keyed { IsTrue (is_int (rowid new.now)) }
        ensures ok { OnOk result (self.new.rows ≡ put_row new.now self.old.rows) }
        ensures err { OnErr result (self.new.rows ≡ self.old.rows) }
        ensures heading { heading self.new ≡ heading self.old }
    {
        let packed = PackedRow::of(alloc, new)?;
        let at = self.rows.place(Probe::BelowRowid(new.get(0)));
        if has_rowid_at(&self.rows, at, new.get(0)) {
            self.rows.set(alloc, at, packed)
        } else {
            self.rows.insert(alloc, at, packed)
        }
    }

    /// Removes the row of this number from a table, if there is one.
    fn delete(&mut self, alloc: Global, id: i64) -> Result<(), AllocError>
        requires { self.old.shape ≡ Shape.Table }
        ensures ok { OnOk result (self.new.rows ≡ without_rowid id self.old.rows) }
        ensures err { OnErr result (self.new.rows ≡ self.old.rows) }
        ensures heading { heading self.new ≡ heading self.old }
    {
        let at = self.rows.place(Probe::BelowRowid(ValueRef::Int(id)));
        if has_rowid_at(&self.rows, at, ValueRef::Int(id)) {
            self.rows.remove(alloc, at)
        } else {
            Ok(())
        }
    }

    /// Adds an entry to an index, unless it is there.
    fn insert(&mut self, alloc: Global, order: Order, new: &Row) -> Result<(), AllocError>
        requires { self.old.shape ≡ Shape.Index order }
        ensures ok { OnOk result (self.new.rows ≡ insert_entry order new.now self.old.rows) }
        ensures err { OnErr result (self.new.rows ≡ self.old.rows) }
        ensures heading { heading self.new ≡ heading self.old }
    {
        let packed = PackedRow::of(alloc, new)?;
        let at = self.rows.place(Probe::BelowEntry(order, new));
        if has_entry_at(order, &self.rows, at, new) {
            Ok(())
        } else {
            self.rows.insert(alloc, at, packed)
        }
    }

    /// Removes an entry from an index, if it is there.
    fn remove(&mut self, alloc: Global, order: Order, entry: &Row) -> Result<(), AllocError>
        requires { self.old.shape ≡ Shape.Index order }
        ensures ok { OnOk result (self.new.rows ≡ remove_entry order entry.now self.old.rows) }
        ensures err { OnErr result (self.new.rows ≡ self.old.rows) }
        ensures heading { heading self.new ≡ heading self.old }
    {
        let at = self.rows.place(Probe::BelowEntry(order, entry));
        if has_entry_at(order, &self.rows, at, entry) {
            self.rows.remove(alloc, at)
        } else {
            Ok(())
        }
    }

    /// Makes the write, one of the four kinds. If memory runs out, the rows stay.
    pub(crate) fn apply(&mut self, alloc: Global, edit: Edit<'_>) -> Result<(), AllocError>
        requires { Fits edit self.old.shape }
        ensures ok { OnOk result (self.new.rows ≡ edited edit.entry self.old.rows) }
        ensures err { OnErr result (self.new.rows ≡ self.old.rows) }
        ensures heading { heading self.new ≡ heading self.old }
    {
        match edit {
            Edit::Put(row) => self.put(alloc, row),
            Edit::Delete(id) => self.delete(alloc, id),
            Edit::Insert(order, entry) => self.insert(alloc, order, entry),
            Edit::Remove(order, entry) => self.remove(alloc, order, entry),
        }
    }
}
