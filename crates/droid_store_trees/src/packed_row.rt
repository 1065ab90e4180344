//! A row in one buffer, in the record format of SQLite (https://www.sqlite.org/fileformat2.html, section 2.1).
//!
//! Of the kit's definitions: `decode` is the row that such a record has, `owned` a value that was lent, `rowid` a row's
//! first column, `entry_cmp` the order of rows, and `prefix_cmp` their order over a key's columns alone.

ghost use Rattle.std.specs.Prelude.{◌≡◌, [], IfOk, OnOk, OnErr};
ghost use Rattle.sqlite_value.specs.Value.{owned};
ghost use Rattle.sqlite_value.specs.Keys.{entry_cmp, prefix_cmp};
ghost use Rattle.sqlite_trees.specs.Tree.{rowid};

use sqlite_record::compare;
use sqlite_record::encode::encode;
use sqlite_record::fields::{Fields, decode_into};
use sqlite_value::keys::Order;
use sqlite_value::row::Row;
use sqlite_value::value::ValueRef;
use std::alloc::{AllocError, Global};
use std::cmp::Ordering;
use std::marker::Model;

/// Bytes that are reserved for the types of a record while it is written. For speed; a longer record takes more.
const TYPES_ROOM: usize = 16;

/// Bytes that are reserved for a whole record while it is written. For speed; a longer record takes more.
const BYTES_ROOM: usize = 120;

/// A list of values in one buffer: the types of all values, and then their bytes. Each value has only the bytes that it
/// needs.
#[derive(Drop)]
pub struct PackedRow {
    record: Vec<u8>,
}

impl Model for PackedRow {
    ghost use Rattle.std.specs.Prelude.{List};
    ghost use Rattle.std.specs.Coded.{coded_list};
    ghost use Rattle.sqlite_value.specs.declared.value.Value.{Value as SqlValue};
    ghost use Rattle.sqlite_value.specs.contracts.value.Value.{the_row};
    ghost use Rattle.sqlite_record.specs.Record.{decode};

    ghost Value = { List SqlValue };

    ghost coded = { coded_list the_row.coded };

    ghost view = { λ packed. decode packed.record.items };
}

impl PackedRow {
    /// Packs the values of the row. Fails if memory runs out, and in the same way for a NaN or for more than a billion
    /// bytes.
    pub fn of(alloc: Global, row: &Row) -> Result<PackedRow, AllocError>
        ensures { IfOk result (λ packed. packed ≡ row.now) }
    {
        let mut types = Vec::with_capacity(alloc, TYPES_ROOM)?;
        let mut bytes = Vec::with_capacity(alloc, BYTES_ROOM)?;
        match encode(row, 0, &mut types, &mut bytes) {
            Ok(()) => {
                let record = Vec::from_slice(alloc, bytes.as_slice())?;
                Ok(PackedRow { record })
            }
            Err(_) => Err(AllocError),
        }
    }

    /// Returns the first value, or NULL if the row has none. In a table it is the row's number.
    pub fn first(&self) -> ValueRef<'_>
        ensures { owned result ≡ rowid self.now }
    {
        let mut fields = Fields::new(self.record.as_slice());
        match fields.next() {
            Some(value) => value,
            None => ValueRef::Null,
        }
    }

    /// Compares this row with the other one, column by column, where `order` says which columns descend. A row that
    /// ends early comes before the longer ones that begin with it.
    pub fn cmp_entry(&self, order: Order, other: &Row) -> Ordering
        ensures { result ≡ entry_cmp order self.now other.now }
    {
        compare::with_row(order, self.record.as_slice(), other)
    }

    /// Compares this row with the key, in only as many columns as the key has: a row that begins with the key is equal.
    pub fn cmp_prefix(&self, order: Order, key: &Row) -> Ordering
        ensures { result ≡ prefix_cmp order self.now key.now }
    {
        compare::with_key(order, self.record.as_slice(), key)
    }

    /// Replaces the values of `row` by these. If memory runs out, `row` is left empty.
    pub fn copy_into(&self, row: &mut Row) -> Result<(), AllocError>
        ensures ok { OnOk result (row.new ≡ self.now) }
        ensures err { OnErr result (row.new ≡ []) }
    {
        row.clear();
        let written = decode_into(self.record.as_slice(), 0, row);
        if written.is_err() {
            row.clear();
        }
        written
    }
}
