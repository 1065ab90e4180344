//! The store: what it holds, and how one is made. `commands` has a call for each kind of accepted command, `queries`
//! what reads.

ghost use Rattle.std.specs.Prelude.{◌≡◌, IfOk, IfErr};
ghost use Rattle.droid_store.specs.Rows.{no_rows};
ghost use Rattle.droid_store.specs.declared.fault.StoreFault.TheVariants.{Memory};

use crate::fault::StoreFault;
use crate::rows::Counts;
use crate::schema::{make_tables, open_empty};
use droid_store_trees::TreeStore;
use sqlite::Connection;
use std::alloc::Global;
use std::marker::Model;

mod commands;
mod queries;

/// The rows of a service: profiles, nodes and replies. They live as long as this value, and nothing is written to disk.
///
/// Each call takes its memory from the allocator with which the store was made. A call that fails changes nothing.
pub struct Store {
    conn: Connection<TreeStore>,
    alloc: Global,
    counts: Counts,
}

// Written by hand, so that the crates above do not prove again how each part is dropped.
impl Drop for Store {
    fn drop(self) {
        let Store {
            conn: _conn,
            alloc: _alloc,
            counts: _counts,
        } = self;
    }
}

impl Model for Store {
    ghost use Rattle.std.specs.Prelude.{◌≡◌, None};
    ghost use Rattle.sqlite.specs.Held.{state};
    ghost use Rattle.droid_store_trees.specs.Over.{over_trees};
    ghost use Rattle.droid_store.specs.Transactions.{Settled};
    ghost use Rattle.droid_store.specs.Kept.{kept, Holds, AreApart};
    ghost use Rattle.droid_store.specs.Ranges.{AreReadable};
    ghost use Rattle.droid_store.specs.Rows.{Rows, counts_of};

    ghost Value = { Rows };

    ghost view = { λ s. kept s.conn };

    ghost invariant = { λ s.
        Settled (state over_trees s.conn) (Holds (kept s.conn)) × AreApart (kept s.conn)
        × (s.counts ≡ counts_of (kept s.conn)) × (s.conn.step_limit ≡ None) × AreReadable (kept s.conn) };
}

impl Store {
    /// Makes a store without rows. Fails only if memory runs out.
    pub fn in_memory(alloc: Global) -> Result<Store, StoreFault>
        ensures empty { IfOk result (λ store. store ≡ no_rows) }
        ensures memory { IfErr result (λ fault. fault ≡ Memory) }
    {
        let mut conn = open_empty(alloc)?;
        make_tables(&mut conn)?;
        let counts = Counts {
            profiles: 0,
            unfinished: 0,
            accepted: 0,
        };
        Ok(Store {
            conn,
            alloc,
            counts,
        })
    }
}
