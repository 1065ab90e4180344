//! A transaction: it writes a change and the reply to its command, both or neither. `lib.rt` explains the words of the
//! kit's `sqlite` in the contracts.

ghost use Rattle.std.specs.Prelude.{◌≡◌, ◌<◌, ◌^◌, None, OnOk, OnErr, IfErr};
ghost use Rattle.sqlite.specs.Held.{state};
ghost use Rattle.droid_store_trees.specs.Over.{over_trees};
ghost use Rattle.droid_store.specs.Transactions.{Settled};
ghost use Rattle.droid_store.specs.MemoryFaults.{IsOutOfMemory};
ghost use Rattle.droid_store.specs.Changes.{with_reply};
ghost use Rattle.droid_store.specs.CommandChanges.{changed, IsInTurn, IsWritable, WritesARow, Applies};
ghost use Rattle.droid_store.specs.Kept.{kept, Holds, AreApart, HasKeys};
ghost use Rattle.droid_store.specs.Ranges.{EntryFits};
ghost use Rattle.droid_store.specs.Sizes.{entry_size, FitsARow};

use crate::change::Change;
use crate::row_change::{add_node, delete_node, finish_node, insert_profile, insert_reply};
use crate::rows::Entry;
use droid_store_trees::TreeStore;
use sqlite::{Connection, Error, Transaction};

/// Writes the change and the reply `entry`, both or neither: a transaction that is dropped before its commit is rolled
/// back.
pub(crate) fn write(
    conn: &mut Connection<TreeStore>,
    entry: &Entry,
    change: &Change<'_>,
) -> Result<(), Error>
    requires holds { Settled (state over_trees conn.old) (Holds (kept conn.old)) }
    requires apart { AreApart (kept conn.old) }
    requires small { entry.now.number < 2 ^ 63 }
    requires writable { IsWritable change.now }
    requires turn { IsInTurn change.now (kept conn.old) }
    ensures ok { OnOk result
        (Settled (state over_trees conn.new) (Holds (with_reply entry.now (changed change.now (kept conn.old))))) }
    ensures err { OnErr result (Settled (state over_trees conn.new) (Holds (kept conn.old))) }
    ensures limit { conn.new.step_limit ≡ conn.old.step_limit }
    ensures fits { OnOk result (EntryFits entry.now) }
    ensures failure { HasKeys (changed change.now (kept conn.old))
        → HasKeys (with_reply entry.now (changed change.now (kept conn.old))) → FitsARow (entry_size entry.now)
        → WritesARow change.now (kept conn.old) → conn.old.step_limit ≡ None → IfErr result IsOutOfMemory }
{
    let mut tx = conn.transaction();
    apply(&mut tx, change)?;
    insert_reply(&mut tx, entry)?;
    tx.commit()
}

/// Makes the change by the statement of its kind. The number of rows that it returns is that of the last statement;
/// `write` doesn't use it.
fn apply(tx: &mut Transaction<'_, TreeStore>, change: &Change<'_>) -> Result<usize, Error>
    requires writable { IsWritable change.now }
    ensures same_reference { tx.new.conn.ghost_name ≡ tx.old.conn.ghost_name }
    ensures limit { tx.new.conn.now.step_limit ≡ tx.old.conn.now.step_limit }
    ensures applies { Applies (state over_trees tx.old.conn.now) (state over_trees tx.new.conn.now) result change.now }
{
    match *change {
        Change::Reply => Ok(0),
        Change::Profile {
            profile,
            scan_limit,
            match_all,
            hash,
        } => insert_profile(tx, profile, scan_limit, match_all, hash),
        Change::Node { node, modified } => add_node(tx, &node, modified),
        Change::Finish {
            profile,
            file,
            findings,
        } => finish_node(tx, profile, file, &findings),
        Change::Abandon { profile, file } => delete_node(tx, profile, file),
    }
}
