//! Groups of rows with one key, as they grow row by row: how many rows, and the sum of their sizes.

ghost use Rattle.std.specs.Prelude.{◌≡◌, ℕ, List, Some, IfOk, OnOk, false, if◌then◌else◌, option_map, string_bytes};
ghost use Rattle.std.specs.Prelude.{unwrap_or};
ghost use Rattle.std.specs.Str.{bytes_eq};
ghost use Rattle.droid_report.specs.Lines.{line_of};
ghost use Rattle.droid_report.specs.Groups.{fresh, grown, sum_after, sum_at, summed};

use crate::keys::{Alike, key_of, label_of};
use crate::row::Row;
use std::alloc::{AllocError, Global};
use std::collections::BTreeMap;

/// What the rows of a group come to.
#[derive(Drop)]
pub struct GroupSum {
    /// How many rows there are.
    pub count: u64,
    /// The sum of their sizes, or 2^64 - 1 if it is more.
    pub bytes: u64,
    /// The size of the first.
    pub first_size: u64,
    /// The name of the group: of a format its name and version, of equal files the path of the first.
    pub label: String,
}

/// For each key what the rows that have it come to.
pub type Groups = BTreeMap<String, GroupSum>;

/// Adds a row to the group of its key, which it begins if there is none. A row with an empty key is in no group. The
/// group is taken out of the table, grown and put back: so it may be gone if memory runs out, and `Counts::add` says
/// that the counts are then of no use.
pub(crate) fn add_row(
    groups: &mut Groups,
    alloc: Global,
    row: &Row,
    alike: Alike,
) -> Result<(), AllocError>
    ensures { OnOk result ((key : List ℕ)
        → sum_at groups.new key ≡ sum_after alike key (sum_at groups.old key) (line_of row.now)) }
{
    let key = key_of(alloc, row, alike)?;
    if key.is_empty() {
        return Ok(());
    }
    let old = taken(groups, key.as_str());
    let sum = sum_with(alloc, old, row, alike)?;
    put(groups, key, sum)?;
    Ok(())
}

/// Takes the group of a key out of the table, or returns `None` if there is none. The others stay.
fn taken(groups: &mut Groups, key: &str) -> Option<GroupSum>
    ensures value { option_map summed result ≡ sum_at groups.old key.now }
    ensures others { (other : List ℕ) → bytes_eq key.now other ≡ false
        → sum_at groups.new other ≡ sum_at groups.old other }
{
    groups.remove(key)
}

/// Puts a group under its key, in the place of what is there. The others stay. Fails only if memory runs out.
fn put(groups: &mut Groups, key: String, sum: GroupSum) -> Result<(), AllocError>
    ensures { OnOk result ((other : List ℕ)
        → sum_at groups.new other
        ≡ (if bytes_eq (string_bytes key) other then Some (summed sum) else sum_at groups.old other)) }
{
    groups.insert(key, sum)?;
    Ok(())
}

/// Returns the group `old` with this row counted, or the group that the row begins if there is none.
fn sum_with(
    alloc: Global,
    old: Option<GroupSum>,
    row: &Row,
    alike: Alike,
) -> Result<GroupSum, AllocError>
    ensures { IfOk result (λ sum.
        summed sum ≡ grown (unwrap_or (option_map summed old) (fresh alike (line_of row.now))) row.now.facts.size) }
{
    match old {
        Some(sum) => Ok(with_size(sum, row.facts.size)),
        None => begun(alloc, row, alike),
    }
}

/// Returns the group of a row that is the first with its key: named by it, and with the row itself counted.
fn begun(alloc: Global, row: &Row, alike: Alike) -> Result<GroupSum, AllocError>
    ensures { IfOk result (λ sum. summed sum ≡ grown (fresh alike (line_of row.now)) row.now.facts.size) }
{
    let label = label_of(alloc, row, alike)?;
    let first_size = row.facts.size;
    let sum = GroupSum {
        count: 0,
        bytes: 0,
        first_size,
        label,
    };
    Ok(with_size(sum, first_size))
}

/// Counts one row more of this size, in bytes. Count and sum stay at 2^64 - 1 when they are there.
fn with_size(sum: GroupSum, size: u64) -> GroupSum
    ensures { summed result ≡ grown (summed sum) size }
{
    let GroupSum {
        count,
        bytes,
        first_size,
        label,
    } = sum;
    GroupSum {
        count: count.saturating_add(1),
        bytes: bytes.saturating_add(size),
        first_size,
        label,
    }
}
