//! All counts of a profile's rows, side by side: a row is handed to each of them.

ghost use Rattle.std.specs.Prelude.{◌++◌, ◌∷◌, [], List, IfOk, OnOk};
ghost use Rattle.droid_report.specs.Lines.{line_of};
ghost use Rattle.droid_report.specs.Rows.{Line};

use crate::classes::Classes;
use crate::groups::{Groups, add_row};
use crate::keys::Alike;
use crate::lists::Lists;
use crate::row::Row;
use crate::totals::Totals;
use std::alloc::{AllocError, Global};
use std::collections::BTreeMap;

/// The counts of a profile's rows. They grow row by row. Of a row something is kept only if it begins a group, whose
/// key and label stay (of a file with another content than all before: its hash, size and path), or stands in a list.
/// No clause says so.
pub struct Counts {
    /// The totals.
    pub totals: Totals,
    /// How many files there are of each year, size and depth.
    pub classes: Classes,
    /// The files of each format, by its PUID.
    pub formats: Groups,
    /// The files of each hash and size.
    pub contents: Groups,
    /// Lists of files.
    pub lists: Lists,
}

// Written by hand: taken apart here once, instead of at each place that drops one. A new field also gets a line here.
impl Drop for Counts {
    fn drop(self) {
        let Counts {
            totals: _totals,
            classes: _classes,
            formats: _formats,
            contents: _contents,
            lists: _lists,
        } = self;
    }
}

impl Counts {
    ghost use Rattle.droid_report.specs.Reports.{AreCounts};

    /// Makes the counts of no row. Fails only if memory runs out.
    pub fn new(alloc: Global) -> Result<Counts, AllocError>
        ensures { IfOk result (AreCounts []) }
    {
        let classes = Classes::new(alloc)?;
        Ok(Counts {
            totals: Totals::none(),
            classes,
            formats: BTreeMap::new(alloc),
            contents: BTreeMap::new(alloc),
            lists: Lists::new(alloc),
        })
    }

    /// Counts a row. If memory runs out, some of it may be counted: the counts are of no use then.
    pub fn add(&mut self, alloc: Global, row: &Row) -> Result<(), AllocError>
        ensures { OnOk result ((lines : List Line) → AreCounts lines self.old
            → AreCounts (lines ++ line_of row.now ∷ []) self.new) }
    {
        self.totals.add(row);
        self.classes.add(row);
        add_row(&mut self.formats, alloc, row, Alike::Format)?;
        add_row(&mut self.contents, alloc, row, Alike::Content)?;
        self.lists.add(row)?;
        Ok(())
    }
}
