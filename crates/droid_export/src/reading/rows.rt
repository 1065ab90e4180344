//! The rows of a list that were read so far: their items, and how many rows the last item still has to have. After a
//! fault nothing is promised of them: the readers drop them.

ghost use Rattle.std.specs.Prelude.{◌≡◌, ◌∷◌, ◌++◌, [], OnOk};
ghost use Rattle.droid_export.specs.Profiles as profiles;

use crate::column::Column;
use crate::reading::fault::ListFault;
use crate::reading::folder_numbers::contradiction;
use crate::reading::row::Entry;
use crate::reading::tag::Tag;
use droid_frame::Item;
use std::alloc::{AllocError, Global};

/// The rows that were read so far.
#[derive(Drop)]
pub(crate) struct Rows {
    items: Vec<Item>,
    // The tag of each item, at its place.
    tags: Vec<Tag>,
    // How many rows of the last item are still to come.
    left: u64,
}

impl Rows {
    ghost use Rattle.std.specs.Prelude.{◌≡◌, true, false};
    ghost use Rattle.droid_export.specs.ReadingCalls.{Gives, Leaves, rows_of};
    ghost use Rattle.droid_export.specs.declared.reading.row.Entry.{Entry};

    /// Makes a list of no rows. Takes no memory.
    pub(crate) fn new(alloc: Global) -> Rows
        ensures { rows_of result ≡ profiles.no_rows }
    {
        Rows {
            items: Vec::new(alloc),
            tags: Vec::new(alloc),
            left: 0,
        }
    }

    /// Adds the row of the record of this number, which repeats the row before it, or is the first of another item.
    pub(crate) fn take(
        &mut self,
        number: u64,
        entry: Entry,
        repeated: bool,
    ) -> Result<(), ListFault>
        ensures { Leaves result (rows_of self.new) (profiles.with_entry number (rows_of self.old) entry repeated) }
    {
        if repeated {
            self.repeat(number)
        } else {
            self.begin(number, entry)
        }
    }

    /// Takes a row that repeats the one before it, if its item has one more row; otherwise it contradicts FORMAT_COUNT.
    fn repeat(&mut self, number: u64) -> Result<(), ListFault>
        ensures { (entry : Entry)
            → Leaves result (rows_of self.new) (profiles.with_entry number (rows_of self.old) entry true) }
    {
        if self.left == 0 {
            return Err(ListFault::Contradiction {
                record: number,
                column: Column::FormatCount,
            });
        }
        self.left -= 1;
        Ok(())
    }

    /// Takes the first row of an item, if the item before has all its rows; otherwise the record before contradicts
    /// FORMAT_COUNT.
    fn begin(&mut self, number: u64, entry: Entry) -> Result<(), ListFault>
        ensures { Leaves result (rows_of self.new) (profiles.with_entry number (rows_of self.old) entry false) }
    {
        if self.left != 0 {
            return Err(ListFault::Contradiction {
                record: number.saturating_sub(1),
                column: Column::FormatCount,
            });
        }
        let Entry { item, spot, rows } = entry;
        let tag = Tag {
            number,
            id: spot.id,
            parent: spot.parent,
            above: spot.above,
        };
        add(&mut self.items, &mut self.tags, item, tag)?;
        self.left = rows.saturating_sub(1);
        Ok(())
    }

    /// Returns the items of all rows, unless rows are missing at the end, or contradict each other. `records` is the
    /// number of all records, the header among them, and so that of the last one.
    pub(crate) fn judge(self, alloc: Global, records: u64) -> Result<Vec<Item>, ListFault>
        ensures { Gives result (profiles.judged records (rows_of self)) }
    {
        let Rows { items, tags, left } = self;
        if left != 0 {
            return Err(ListFault::Contradiction {
                record: records,
                column: Column::FormatCount,
            });
        }
        match contradiction(alloc, items.as_slice(), tags.as_slice())? {
            Some(fault) => Err(fault),
            None => Ok(items),
        }
    }
}

/// Adds an item and its tag. Fails only if memory runs out, and then nothing is promised of both lists.
fn add(items: &mut Vec<Item>, tags: &mut Vec<Tag>, item: Item, tag: Tag) -> Result<(), AllocError>
    ensures added { OnOk result (items.new.items ≡ items.old.items ++ item ∷ []) }
    ensures tagged { OnOk result (tags.new.items ≡ tags.old.items ++ tag ∷ []) }
{
    tags.push(tag)?;
    items.push(item)?;
    Ok(())
}
