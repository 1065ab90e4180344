//! Finished groups of rows: listed, sorted with the greatest first, and added up.

ghost use Rattle.std.specs.Prelude.{◌≡◌, IfOk, map};
ghost use Rattle.droid_report.specs.Ranks.{AreRanked, by_bytes, by_count, by_saved, group_seen, groups_in, together};
ghost use Rattle.droid_report.specs.Ranks.{with_group};

use crate::groups::Groups;
use std::alloc::{AllocError, Global};

/// Rows that are alike.
#[derive(Clone, Copy)]
pub struct Group<'a> {
    /// What they have in common: a PUID, or a hash and a size.
    pub key: &'a str,
    /// The name of the group: of a format its name and version, of equal files the path of the first.
    pub label: &'a str,
    /// How many rows there are.
    pub count: u64,
    /// The sum of their sizes, or 2^64 - 1 if it is more.
    pub bytes: u64,
    /// That sum without the size of the first.
    pub saved: u64,
}

/// Lists the groups of at least `least` rows, in the order of their keys' bytes. Fails only if memory runs out.
pub fn list_groups<'a>(
    alloc: Global,
    groups: &'a Groups,
    least: u64,
) -> Result<Vec<Group<'a>>, AllocError>
    ensures { IfOk result (λ all. map group_seen all.items ≡ groups_in least groups.now.entries) }
{
    let mut all = Vec::new(alloc);
    for (key, sum) in groups.iter() {
        if sum.count >= least {
            all.push(Group {
                key: key.as_str(),
                label: sum.label.as_str(),
                count: sum.count,
                bytes: sum.bytes,
                saved: sum.bytes.saturating_sub(sum.first_size),
            })?;
        }
    }
    Ok(all)
}

/// Sorts groups: those with the most rows first. Groups with as many rows stay in their order.
pub fn rank_by_count(groups: Vec<Group<'_>>) -> Result<Vec<Group<'_>>, AllocError>
    ensures { IfOk result (λ ranked. AreRanked by_count groups.entry.items ranked.items) }
{
    let mut ranked = groups;
    ranked.sort_by_key(|group| u64::MAX.saturating_sub(group.count))?;
    Ok(ranked)
}

/// Sorts groups: those with the most bytes first. Groups with as many bytes stay in their order.
pub fn rank_by_bytes(groups: Vec<Group<'_>>) -> Result<Vec<Group<'_>>, AllocError>
    ensures { IfOk result (λ ranked. AreRanked by_bytes groups.entry.items ranked.items) }
{
    let mut ranked = groups;
    ranked.sort_by_key(|group| u64::MAX.saturating_sub(group.bytes))?;
    Ok(ranked)
}

/// Sorts groups: those whose rows but the first have the most bytes come first. Groups with as many stay in their
/// order.
pub fn rank_by_saved(groups: Vec<Group<'_>>) -> Result<Vec<Group<'_>>, AllocError>
    ensures { IfOk result (λ ranked. AreRanked by_saved groups.entry.items ranked.items) }
{
    let mut ranked = groups;
    ranked.sort_by_key(|group| u64::MAX.saturating_sub(group.saved))?;
    Ok(ranked)
}

/// What several groups come to together. Each sum is at most 2^64 - 1.
#[derive(Clone, Copy)]
pub struct GroupsTotal {
    /// How many rows they have.
    pub count: u64,
    /// The sum of their bytes.
    pub bytes: u64,
    /// The sum of what they have beside their first rows.
    pub saved: u64,
}

/// Returns the sums over groups: their rows, bytes, and bytes without their first rows.
pub fn together(groups: &[Group<'_>]) -> GroupsTotal
    ensures { result ≡ together groups.now }
{
    let mut sum = GroupsTotal {
        count: 0,
        bytes: 0,
        saved: 0,
    };
    for group in groups {
        sum = with_group(sum, group);
    }
    sum
}

/// Returns the sums with those of one group more. Each stays at 2^64 - 1 when it is there.
fn with_group(sum: GroupsTotal, group: &Group<'_>) -> GroupsTotal
    ensures { result ≡ with_group sum group.now }
{
    GroupsTotal {
        count: sum.count.saturating_add(group.count),
        bytes: sum.bytes.saturating_add(group.bytes),
        saved: sum.saved.saturating_add(group.saved),
    }
}
