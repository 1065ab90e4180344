//! A table of the registry that is made: of formats, extensions or priorities.

ghost use Rattle.std.specs.Prelude.{◌≡◌, ◌∷◌, [], Some, OnOk};
ghost use Rattle.droid_signature.specs.Tables.{HasLeft, HasRow, IsNew};

use crate::left_out::{Item, LeftOut, Why};
use crate::row_text::push_row;
use std::alloc::{AllocError, Global};

/// The rows of a table, and what it does not have.
pub struct Table {
    /// The rows' text.
    pub text: Vec<u8>,
    /// How many rows there are.
    pub count: u64,
    pub left_out: Vec<LeftOut>,
}

// Written by hand, so that whatever drops it does not prove again how each part is dropped.
impl Drop for Table {
    fn drop(self) {
        let Table {
            text: _text,
            count: _,
            left_out: _left_out,
        } = self;
    }
}

impl Table {
    /// Makes a table without rows. Allocates nothing.
    pub fn new(alloc: Global) -> Table
        ensures { IsNew result }
    {
        Table {
            text: Vec::new(alloc),
            count: 0,
            left_out: Vec::new(alloc),
        }
    }

    /// Adds a row of six fields, of which `kind` is the letter. Fields that it does not need are empty: each record of
    /// a registry has six (`FIELDS` of `droid_pronom`). The clause counts rows while they are fewer than 2^32, far
    /// above the limits of the tables.
    pub fn push(
        &mut self,
        kind: &str,
        puid: &str,
        second: &str,
        third: &str,
        fourth: &str,
        fifth: &str,
    ) -> Result<(), AllocError>
        ensures { OnOk result
            (HasRow self.old self.new (kind.now ∷ puid.now ∷ second.now ∷ third.now ∷ fourth.now ∷ fifth.now ∷ [])) }
    {
        push_row(
            &mut self.text,
            kind.as_bytes(),
            puid.as_bytes(),
            second.as_bytes(),
            third.as_bytes(),
            fourth.as_bytes(),
            fifth.as_bytes(),
        )?;
        self.count = self.count.saturating_add(1);
        Ok(())
    }

    /// Lists that an item is left out, of the format at a place of the file.
    pub fn leave_out(&mut self, format: usize, item: Item, why: Why) -> Result<(), AllocError>
        ensures { OnOk result (HasLeft self.old self.new (record { format = Some format; item = item; why = why })) }
    {
        self.left_out.push(LeftOut {
            format: Some(format),
            item,
            why,
        })?;
        Ok(())
    }
}
