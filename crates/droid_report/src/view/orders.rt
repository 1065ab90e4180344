//! The groups of a report in the three orders in which its page shows them, sorted once for all lengths of its lists.

ghost use Rattle.std.specs.Prelude.{IfOk};
ghost use Rattle.droid_report.specs.Ranks.{by_bytes, by_count, by_saved};
ghost use Rattle.droid_report.specs.Orders.{IsOrder};

use crate::counts::Counts;
use crate::groups::Groups;
use crate::ranks::{Group, list_groups, rank_by_bytes, rank_by_count, rank_by_saved};
use std::alloc::{AllocError, Global};

/// The groups of a report in the orders of its page.
#[derive(Drop)]
pub(crate) struct Orders<'a> {
    /// The formats, those of the most files first.
    pub by_count: Vec<Group<'a>>,
    /// The formats, those of the most bytes first.
    pub by_bytes: Vec<Group<'a>>,
    /// Equal files, those whose copies have the most bytes first.
    pub copies: Vec<Group<'a>>,
}

impl<'a> Orders<'a> {
    ghost use Rattle.droid_report.specs.Orders.{AreOrders};

    /// Lists the groups of a report in each of the three orders. Fails only if memory runs out, as the calls below.
    pub(crate) fn of(alloc: Global, counts: &'a Counts) -> Result<Orders<'a>, AllocError>
        ensures { IfOk result (AreOrders counts.now) }
    {
        let by_count = by_count(alloc, &counts.formats)?;
        let by_bytes = by_bytes(alloc, &counts.formats)?;
        let copies = copies(alloc, &counts.contents)?;
        Ok(Orders {
            by_count,
            by_bytes,
            copies,
        })
    }
}

/// Lists all groups by how many files they have, the largest first, and equals in the order of their keys. Each has a
/// row at least, so 1 leaves out none.
fn by_count<'a>(alloc: Global, groups: &'a Groups) -> Result<Vec<Group<'a>>, AllocError>
    ensures { IfOk result (λ ranked. IsOrder by_count 1 groups.now ranked.items) }
{
    let listed = list_groups(alloc, groups, 1)?;
    let ranked = rank_by_count(listed)?;
    Ok(ranked)
}

/// Lists all groups, as above, by their bytes, the largest first, and equals in the order of their keys.
fn by_bytes<'a>(alloc: Global, groups: &'a Groups) -> Result<Vec<Group<'a>>, AllocError>
    ensures { IfOk result (λ ranked. IsOrder by_bytes 1 groups.now ranked.items) }
{
    let listed = list_groups(alloc, groups, 1)?;
    let ranked = rank_by_bytes(listed)?;
    Ok(ranked)
}

/// Lists the groups of equal files, which have two files or more, by the bytes of all but their first file, the largest
/// first, and equals in the order of their keys.
fn copies<'a>(alloc: Global, groups: &'a Groups) -> Result<Vec<Group<'a>>, AllocError>
    ensures { IfOk result (λ ranked. IsOrder by_saved 2 groups.now ranked.items) }
{
    let listed = list_groups(alloc, groups, 2)?;
    let ranked = rank_by_saved(listed)?;
    Ok(ranked)
}
