//! Lists the records of a profile. It changes nothing, even if it fails. `lib.rt` explains the words of the kit's
//! `sqlite` in the contract.

ghost use Rattle.std.specs.Prelude.{◌≡◌, None, IfOk, IfErr};
ghost use Rattle.sqlite.specs.Held.{state};
ghost use Rattle.droid_store_trees.specs.Over.{over_trees};
ghost use Rattle.droid_store.specs.Transactions.{Settled};
ghost use Rattle.droid_store.specs.Kept.{kept, Holds, AreApart};
ghost use Rattle.droid_store.specs.Ranges.{AreReadable};
ghost use Rattle.droid_store.specs.Rows.{records_of};
ghost use Rattle.droid_store.specs.declared.fault.StoreFault.TheVariants.{Memory};

use crate::fault::StoreFault;
use crate::row_reader::record_in;
use crate::statements::LIST_RECORDS;
use droid_frame::Record;
use droid_store_trees::TreeStore;
use sqlite::{Connection, params};
use std::alloc::Global;

/// Returns the folders and finished files of the profile in the order of their numbers.
///
/// Each row is converted before the next one is read, so beside the records there is at most about a quarter of a
/// megabyte of rows in memory.
pub(crate) fn list_records(
    conn: &mut Connection<TreeStore>,
    alloc: Global,
    profile: u32,
) -> Result<Vec<Record>, StoreFault>
    requires holds { Settled (state over_trees conn.old) (Holds (kept conn.old)) }
    requires apart { AreApart (kept conn.old) }
    requires unlimited { conn.old.step_limit ≡ None }
    requires readable { AreReadable (kept conn.old) }
    ensures same { kept conn.new ≡ kept conn.old }
    ensures holds { Settled (state over_trees conn.new) (Holds (kept conn.new)) }
    ensures limit { conn.new.step_limit ≡ conn.old.step_limit }
    ensures found { IfOk result (λ records. records.items ≡ records_of profile (kept conn.old)) }
    ensures memory { IfErr result (λ fault. fault ≡ Memory) }
{
    let mut records = Vec::new(alloc);
    let mut rows = conn.query(LIST_RECORDS, params![profile])?;
    // The prover asks for a bound. No database has as many rows.
    'rows: for _ in 0..u64::MAX {
        let Some(row) = rows.next()? else {
            return Ok(records);
        };
        let record = record_in(alloc, row)?;
        match records.push(record) {
            Ok(()) => {}
            Err(_) => return Err(StoreFault::Memory),
        }
    }
    Err(StoreFault::Memory)
}
