//! The single statements of a transaction, and the numbers that they take. `lib.rt` explains the words of the kit's
//! `sqlite` in the contracts.
//!
//! Each returns how many rows it changed, which nobody uses and no clause names. After an error the transaction is
//! rolled back, so nothing but the committed rows is promised.

ghost use Rattle.std.specs.Prelude.{◌≡◌, ◌+◌, ◌<◌, ◌^◌, ◌++◌, ◌∷◌, [], List, ℕ, Some, length, pos};
ghost use Rattle.sqlite.specs.Held.{state};
ghost use Rattle.droid_store_trees.specs.Over.{over_trees};
ghost use Rattle.std.specs.List.{AllByRecursion};
ghost use Rattle.droid_store.specs.Changes.{with_profile, with_reply, with_node, with_finished, finished, without_node};
ghost use Rattle.droid_store.specs.Changes.{counted, IsWord};
ghost use Rattle.droid_frame.specs.Fields.{method_number};
ghost use Rattle.droid_store.specs.Encoded.{joined};
ghost use Rattle.droid_store.specs.Kept.{AreApart, HasKeys, Steps, Saves, FailsForMemory};
ghost use Rattle.droid_store.specs.Ranges.{EntryFits};
ghost use Rattle.droid_store.specs.Rows.{Rows, Node, node_at};
ghost use Rattle.droid_store.specs.Sizes.{entry_size, node_size, FitsARow};
ghost use Rattle.droid_store.specs.Nodes.{node_of};

use crate::change::{FindingColumns, NewNode};
use crate::hashes::kind_number;
use crate::rows::Entry;
use crate::statements::{ADD_NODE, ADD_PROFILE, ADD_REPLY, COUNT_NODES, FINISH_NODE, REMOVE_NODE};
use droid_frame::{HashKind, Method};
use droid_store_trees::TreeStore;
use sqlite::{Error, Transaction, params};

/// Converts a number to the signed one that the database takes, for a command's number and a file's size. The number
/// stays.
pub(crate) fn signed(number: u64) -> i64
    requires { number < 2 ^ 63 }
    ensures { result ≡ pos number }
{
    number.cast_signed()
}

/// Adds the row of a profile, which has no node yet.
pub(crate) fn insert_profile(
    tx: &mut Transaction<'_, TreeStore>,
    profile: u32,
    scan_limit: u32,
    match_all: bool,
    hash: HashKind,
) -> Result<usize, Error>
    ensures same_reference { tx.new.conn.ghost_name ≡ tx.old.conn.ghost_name }
    ensures ok { (rows : Rows) → profile ≡ length rows.profiles + 1
        → Steps (state over_trees tx.old.conn.now) (state over_trees tx.new.conn.now) result rows
        (with_profile scan_limit match_all hash rows) }
    ensures err { (rows : Rows)
        → Saves (state over_trees tx.old.conn.now) (state over_trees tx.new.conn.now) result rows }
    ensures limit { tx.new.conn.now.step_limit ≡ tx.old.conn.now.step_limit }
    ensures failure { (rows : Rows) → profile ≡ length rows.profiles + 1 → HasKeys rows
        → FailsForMemory (state over_trees tx.old.conn.now) (state over_trees tx.new.conn.now) result rows }
{
    tx.execute(
        ADD_PROFILE,
        params![profile, scan_limit, match_all, kind_number(hash)],
    )
}

/// Adds the row of an accepted command with its reply, after all others.
pub(crate) fn insert_reply(
    tx: &mut Transaction<'_, TreeStore>,
    entry: &Entry,
) -> Result<usize, Error>
    requires small { entry.now.number < 2 ^ 63 }
    ensures same_reference { tx.new.conn.ghost_name ≡ tx.old.conn.ghost_name }
    ensures ok { (rows : Rows)
        → Steps (state over_trees tx.old.conn.now) (state over_trees tx.new.conn.now) result rows
        (with_reply entry.now rows) }
    ensures err { (rows : Rows)
        → Saves (state over_trees tx.old.conn.now) (state over_trees tx.new.conn.now) result rows }
    ensures limit { tx.new.conn.now.step_limit ≡ tx.old.conn.now.step_limit }
    ensures fits { EntryFits entry.now }
    ensures failure { (rows : Rows) → HasKeys (with_reply entry.now rows) → FitsARow (entry_size entry.now)
        → FailsForMemory (state over_trees tx.old.conn.now) (state over_trees tx.new.conn.now) result rows }
{
    let mark = entry.mark.as_slice();
    let body = entry.body.as_slice();
    tx.execute(
        ADD_REPLY,
        params![
            entry.client,
            signed(entry.number),
            u32::from(entry.version),
            u32::from(entry.kind),
            mark,
            body
        ],
    )
}

/// Adds the row of a folder or file, in which nothing is found yet. `modified` is in seconds since 1970.
fn insert_node(
    tx: &mut Transaction<'_, TreeStore>,
    node: &NewNode<'_>,
    modified: i64,
) -> Result<usize, Error>
    requires small { node.now.size < 2 ^ 63 }
    ensures same_reference { tx.new.conn.ghost_name ≡ tx.old.conn.ghost_name }
    ensures ok { (rows : Rows)
        → Steps (state over_trees tx.old.conn.now) (state over_trees tx.new.conn.now) result rows (record rows {
          nodes = rows.nodes ++ node_of node.now modified ∷ [];
        }) }
    ensures err { (rows : Rows)
        → Saves (state over_trees tx.old.conn.now) (state over_trees tx.new.conn.now) result rows }
    ensures limit { tx.new.conn.now.step_limit ≡ tx.old.conn.now.step_limit }
    ensures failure { (rows : Rows) → HasKeys (record rows { nodes = rows.nodes ++ node_of node.now modified ∷ [] })
        → FitsARow (node_size (node_of node.now modified))
        → FailsForMemory (state over_trees tx.old.conn.now) (state over_trees tx.new.conn.now) result rows }
{
    tx.execute(
        ADD_NODE,
        params![
            node.profile,
            node.id,
            node.parent,
            modified,
            node.state.number(),
            signed(node.size),
            node.piece_size,
            node.name,
            node.path
        ],
    )
}

/// Sets how many folders and files a profile has accepted.
fn count_nodes(
    tx: &mut Transaction<'_, TreeStore>,
    profile: u32,
    nodes: u32,
) -> Result<usize, Error>
    ensures same_reference { tx.new.conn.ghost_name ≡ tx.old.conn.ghost_name }
    ensures ok { (rows : Rows)
        → Steps (state over_trees tx.old.conn.now) (state over_trees tx.new.conn.now) result rows (record rows {
          profiles = counted profile nodes rows.profiles;
        }) }
    ensures err { (rows : Rows)
        → Saves (state over_trees tx.old.conn.now) (state over_trees tx.new.conn.now) result rows }
    ensures limit { tx.new.conn.now.step_limit ≡ tx.old.conn.now.step_limit }
    ensures failure { (rows : Rows) → HasKeys rows
        → FailsForMemory (state over_trees tx.old.conn.now) (state over_trees tx.new.conn.now) result rows }
{
    tx.execute(COUNT_NODES, params![profile, nodes])
}

/// Adds the node, and has its profile count it: a new node's number is the count.
pub(crate) fn add_node(
    tx: &mut Transaction<'_, TreeStore>,
    node: &NewNode<'_>,
    modified: i64,
) -> Result<usize, Error>
    requires small { node.now.size < 2 ^ 63 }
    ensures same_reference { tx.new.conn.ghost_name ≡ tx.old.conn.ghost_name }
    ensures ok { (rows : Rows)
        → Steps (state over_trees tx.old.conn.now) (state over_trees tx.new.conn.now) result rows
        (with_node (node_of node.now modified) rows) }
    ensures err { (rows : Rows)
        → Saves (state over_trees tx.old.conn.now) (state over_trees tx.new.conn.now) result rows }
    ensures limit { tx.new.conn.now.step_limit ≡ tx.old.conn.now.step_limit }
    ensures failure { (rows : Rows) → HasKeys (record rows { nodes = rows.nodes ++ node_of node.now modified ∷ [] })
        → FitsARow (node_size (node_of node.now modified))
        → FailsForMemory (state over_trees tx.old.conn.now) (state over_trees tx.new.conn.now) result rows }
{
    insert_node(tx, node, modified)?;
    count_nodes(tx, node.profile, node.id)
}

/// Sets what was found in a file, and that it is finished.
pub(crate) fn finish_node(
    tx: &mut Transaction<'_, TreeStore>,
    profile: u32,
    file: u32,
    findings: &FindingColumns<'_>,
) -> Result<usize, Error>
    ensures same_reference { tx.new.conn.ghost_name ≡ tx.old.conn.ghost_name }
    ensures ok { (rows : Rows) → AreApart rows → (puids : List (List ℕ)) → AllByRecursion IsWord puids
        → findings.now.formats.now ≡ joined puids
        → Steps (state over_trees tx.old.conn.now) (state over_trees tx.new.conn.now) result rows
        (with_finished profile file findings.now.method findings.now.mismatch findings.now.hash puids rows) }
    ensures err { (rows : Rows)
        → Saves (state over_trees tx.old.conn.now) (state over_trees tx.new.conn.now) result rows }
    ensures limit { tx.new.conn.now.step_limit ≡ tx.old.conn.now.step_limit }
    ensures failure { (rows : Rows) → HasKeys rows → (puids : List (List ℕ)) → findings.now.formats.now ≡ joined puids
        → HasKeys (with_finished profile file findings.now.method findings.now.mismatch findings.now.hash puids rows)
        → ((n : Node) → node_at profile file rows ≡ Some n
        → FitsARow (node_size (finished findings.now.method findings.now.mismatch findings.now.hash puids n)))
        → FailsForMemory (state over_trees tx.old.conn.now) (state over_trees tx.new.conn.now) result rows }
{
    tx.execute(
        FINISH_NODE,
        params![
            profile,
            file,
            number_of(findings.method),
            findings.mismatch,
            findings.formats,
            findings.hash.as_slice()
        ],
    )
}

/// Returns the number of the method in the database, which is that in a frame. `method_of` of `row_reader` reads it
/// back.
fn number_of(method: Method) -> u32
    ensures { result ≡ method_number method }
{
    u32::from(method.number())
}

/// Removes the row of an abandoned file.
pub(crate) fn delete_node(
    tx: &mut Transaction<'_, TreeStore>,
    profile: u32,
    file: u32,
) -> Result<usize, Error>
    ensures same_reference { tx.new.conn.ghost_name ≡ tx.old.conn.ghost_name }
    ensures ok { (rows : Rows) → AreApart rows
        → Steps (state over_trees tx.old.conn.now) (state over_trees tx.new.conn.now) result rows
        (without_node profile file rows) }
    ensures err { (rows : Rows)
        → Saves (state over_trees tx.old.conn.now) (state over_trees tx.new.conn.now) result rows }
    ensures limit { tx.new.conn.now.step_limit ≡ tx.old.conn.now.step_limit }
    ensures failure { (rows : Rows) → HasKeys rows → HasKeys (without_node profile file rows)
        → FailsForMemory (state over_trees tx.old.conn.now) (state over_trees tx.new.conn.now) result rows }
{
    tx.execute(REMOVE_NODE, params![profile, file])
}
