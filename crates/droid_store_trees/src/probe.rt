//! The tests by which a search finds its position.

ghost use Rattle.std.specs.Prelude.{◌≡◌};
ghost use Rattle.droid_store_trees.specs.Probe.{passes};

use crate::packed_row::PackedRow;
use sqlite_value::keys::Order;
use sqlite_value::order::compare;
use sqlite_value::row::Row;
use sqlite_value::value::ValueRef;

/// A test that the first rows of an ordered list pass, and all rows after them fail.
#[derive(Clone, Copy)]
pub enum Probe<'a> {
    /// The row is below this key. Only as many columns count as the key has.
    BelowKey(Order, &'a Row),
    /// The row is not above this key. Only as many columns count as the key has.
    UpToKey(Order, &'a Row),
    /// The row's first value is below this one.
    BelowRowid(ValueRef<'a>),
    /// The row is below this one.
    BelowEntry(Order, &'a Row),
}

impl Probe<'_> {
    /// Returns whether the row passes this test. `Node::place` asks it of the rows on the way down its tree.
    pub(crate) fn passes(self, row: &PackedRow) -> bool
        ensures { result ≡ passes self.entry row.now }
    {
        match self {
            Probe::BelowKey(order, key) => row.cmp_prefix(order, key).is_lt(),
            Probe::UpToKey(order, key) => !row.cmp_prefix(order, key).is_gt(),
            Probe::BelowRowid(id) => compare(row.first(), id).is_lt(),
            Probe::BelowEntry(order, other) => row.cmp_entry(order, other).is_lt(),
        }
    }
}
