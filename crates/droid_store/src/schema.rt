//! Opens the database and creates its three tables. `lib.rt` explains the words of the kit's `sqlite` in the contracts.

ghost use Rattle.std.specs.Prelude.{◌≡◌, None, OnOk, IfOk, IfErr, [], ◌∷◌};
ghost use Rattle.sqlite.specs.Held.{state};
ghost use Rattle.droid_store_trees.specs.Over.{over_trees};
ghost use Rattle.droid_store.specs.Transactions.{Settled};
ghost use Rattle.droid_store.specs.MemoryFaults.{IsOutOfMemory};
ghost use Rattle.droid_store.specs.Kept.{Holds, HasEmpty};
ghost use Rattle.droid_store.specs.Rows.{no_rows};
ghost use Rattle.droid_store.specs.Tables.{no_schema, first_schema, second_schema};

use crate::statements::{MAKE_NODES, MAKE_PROFILES, MAKE_REPLIES};
use droid_store_trees::TreeStore;
use sqlite::{Connection, Error};
use std::alloc::Global;

/// Opens a database in memory without tables, and without a limit on the steps of a statement.
pub(crate) fn open_empty(alloc: Global) -> Result<Connection<TreeStore>, Error>
    ensures empty { IfOk result (λ conn. Settled (state over_trees conn) (HasEmpty no_schema [])) }
    ensures limit { IfOk result (λ conn. conn.step_limit ≡ None) }
    ensures failure { IfErr result IsOutOfMemory }
{
    match Connection::over(alloc, TreeStore::new(alloc)) {
        Ok(conn) => Ok(conn),
        Err((error, _store)) => Err(error),
    }
}

/// Creates the three tables in an empty database. After an error nothing is promised of it: `Store::in_memory`, the
/// only caller, drops it.
pub(crate) fn make_tables(conn: &mut Connection<TreeStore>) -> Result<(), Error>
    requires { Settled (state over_trees conn.old) (HasEmpty no_schema []) }
    ensures made { OnOk result (Settled (state over_trees conn.new) (Holds no_rows)) }
    ensures limit { conn.new.step_limit ≡ conn.old.step_limit }
    ensures failure { conn.old.step_limit ≡ None → IfErr result IsOutOfMemory }
{
    make_profiles(conn)?;
    make_nodes(conn)?;
    make_replies(conn)?;
    Ok(())
}

/// Creates the table of profiles, the first one.
fn make_profiles(conn: &mut Connection<TreeStore>) -> Result<usize, Error>
    requires { Settled (state over_trees conn.old) (HasEmpty no_schema []) }
    ensures made { OnOk result (Settled (state over_trees conn.new) (HasEmpty first_schema (0 ∷ []))) }
    ensures limit { conn.new.step_limit ≡ conn.old.step_limit }
    ensures failure { conn.old.step_limit ≡ None → IfErr result IsOutOfMemory }
{
    conn.execute(MAKE_PROFILES, &[])
}

/// Creates the table of folders and files, the second one.
fn make_nodes(conn: &mut Connection<TreeStore>) -> Result<usize, Error>
    requires { Settled (state over_trees conn.old) (HasEmpty first_schema (0 ∷ [])) }
    ensures made { OnOk result (Settled (state over_trees conn.new) (HasEmpty second_schema (0 ∷ 1 ∷ []))) }
    ensures limit { conn.new.step_limit ≡ conn.old.step_limit }
    ensures failure { conn.old.step_limit ≡ None → IfErr result IsOutOfMemory }
{
    conn.execute(MAKE_NODES, &[])
}

/// Creates the table of accepted commands and their replies, the third one.
fn make_replies(conn: &mut Connection<TreeStore>) -> Result<usize, Error>
    requires { Settled (state over_trees conn.old) (HasEmpty second_schema (0 ∷ 1 ∷ [])) }
    ensures made { OnOk result (Settled (state over_trees conn.new) (Holds no_rows)) }
    ensures limit { conn.new.step_limit ≡ conn.old.step_limit }
    ensures failure { conn.old.step_limit ≡ None → IfErr result IsOutOfMemory }
{
    conn.execute(MAKE_REPLIES, &[])
}
