//! A write to a tree. The four kinds share the steps around them.

use sqlite_value::keys::Order;
use sqlite_value::row::Row;

/// A write: puts or deletes a row of a table, or inserts or removes an entry of an index.
#[derive(Clone, Copy)]
pub(crate) enum Edit<'a> {
    Put(&'a Row),
    Delete(i64),
    Insert(Order, &'a Row),
    Remove(Order, &'a Row),
}
