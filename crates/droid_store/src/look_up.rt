//! Look-ups of one row by its key, which return `None` if there is no such row. A row has the columns that the
//! statement selects. They change nothing, even if they fail. `lib.rt` explains the words of the kit's `sqlite` in the
//! contracts.

ghost use Rattle.std.specs.Prelude.{◌≡◌, ◌≢◌, ◌<◌, ◌^◌, None, IfOk, IfErr, MatchOption, Ok, Err, option_map};
ghost use Rattle.sqlite.specs.Held.{state};
ghost use Rattle.droid_store_trees.specs.Over.{over_trees};
ghost use Rattle.sqlite.specs.declared.error.Error.TheVariants.{QueryReturnedNoRows};
ghost use Rattle.droid_store.specs.Transactions.{Settled};
ghost use Rattle.droid_store.specs.MemoryFaults.{IsOutOfMemory};
ghost use Rattle.droid_store.specs.Kept.{kept, Holds, AreApart};
ghost use Rattle.droid_store.specs.Rows.{profile_at, node_at, child_at, reply_for};
ghost use Rattle.droid_store.specs.Shown.{shown_profile, shown_node, shown_id, shown_reply};

use crate::row_change::signed;
use crate::statements::{FIND_CHILD, FIND_NODE, FIND_PROFILE, FIND_REPLY};
use droid_store_trees::TreeStore;
use sqlite::{Connection, Error, Row, params};

/// Turns the error for "no row", of the kit's `query_row`, into `None`. Other errors stay.
fn or_none(answer: Result<Row, Error>) -> Result<Option<Row>, Error>
    ensures found { IfOk result (λ found.
        MatchOption found (answer ≡ Err QueryReturnedNoRows) (λ row. answer ≡ Ok row)) }
    ensures err { IfErr result (λ e. (answer ≡ Err e) × (e ≢ QueryReturnedNoRows)) }
{
    match answer {
        Ok(row) => Ok(Some(row)),
        Err(Error::QueryReturnedNoRows) => Ok(None),
        Err(error) => Err(error),
    }
}

/// Looks for the row of the profile with this number.
pub(crate) fn find_profile(
    conn: &mut Connection<TreeStore>,
    profile: u32,
) -> Result<Option<Row>, Error>
    requires holds { Settled (state over_trees conn.old) (Holds (kept conn.old)) }
    ensures same { kept conn.new ≡ kept conn.old }
    ensures holds { Settled (state over_trees conn.new) (Holds (kept conn.new)) }
    ensures found { IfOk result (λ found. found ≡ option_map shown_profile (profile_at profile (kept conn.old))) }
    ensures limit { conn.new.step_limit ≡ conn.old.step_limit }
    ensures failure { conn.old.step_limit ≡ None → IfErr result IsOutOfMemory }
{
    let answer = conn.query_row(FIND_PROFILE, params![profile]);
    or_none(answer)
}

/// Looks for the row of a folder or file of this profile by its number, `id`. An abandoned file has none.
pub(crate) fn find_node(
    conn: &mut Connection<TreeStore>,
    profile: u32,
    id: u32,
) -> Result<Option<Row>, Error>
    requires holds { Settled (state over_trees conn.old) (Holds (kept conn.old)) }
    requires apart { AreApart (kept conn.old) }
    ensures same { kept conn.new ≡ kept conn.old }
    ensures holds { Settled (state over_trees conn.new) (Holds (kept conn.new)) }
    ensures found { IfOk result (λ found. found ≡ option_map shown_node (node_at profile id (kept conn.old))) }
    ensures limit { conn.new.step_limit ≡ conn.old.step_limit }
    ensures failure { conn.old.step_limit ≡ None → IfErr result IsOutOfMemory }
{
    let answer = conn.query_row(FIND_NODE, params![profile, id]);
    or_none(answer)
}

/// Looks for the row of a folder or file of this profile by its name, byte for byte, and the number of the folder that
/// it lies in, 0 at the top. Of the row it returns the number alone.
pub(crate) fn find_child(
    conn: &mut Connection<TreeStore>,
    profile: u32,
    parent: u32,
    name: &str,
) -> Result<Option<Row>, Error>
    requires holds { Settled (state over_trees conn.old) (Holds (kept conn.old)) }
    requires apart { AreApart (kept conn.old) }
    ensures same { kept conn.new ≡ kept conn.old }
    ensures holds { Settled (state over_trees conn.new) (Holds (kept conn.new)) }
    ensures found { IfOk result (λ found.
        found ≡ option_map shown_id (child_at profile parent name.now (kept conn.old))) }
    ensures limit { conn.new.step_limit ≡ conn.old.step_limit }
    ensures failure { conn.old.step_limit ≡ None → IfErr result IsOutOfMemory }
{
    let answer = conn.query_row(FIND_CHILD, params![profile, parent, name]);
    or_none(answer)
}

/// Looks for the row of an accepted command by its client and the number that the client gave it.
pub(crate) fn find_reply(
    conn: &mut Connection<TreeStore>,
    client: u32,
    number: u64,
) -> Result<Option<Row>, Error>
    requires holds { Settled (state over_trees conn.old) (Holds (kept conn.old)) }
    requires apart { AreApart (kept conn.old) }
    requires small { number < 2 ^ 63 }
    ensures same { kept conn.new ≡ kept conn.old }
    ensures holds { Settled (state over_trees conn.new) (Holds (kept conn.new)) }
    ensures found { IfOk result (λ found. found ≡ option_map shown_reply (reply_for client number (kept conn.old))) }
    ensures limit { conn.new.step_limit ≡ conn.old.step_limit }
    ensures failure { conn.old.step_limit ≡ None → IfErr result IsOutOfMemory }
{
    let answer = conn.query_row(FIND_REPLY, params![client, signed(number)]);
    or_none(answer)
}
