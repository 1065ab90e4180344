//! Which priorities the registry has, and their rows.

ghost use Rattle.std.specs.Prelude.{◌≡◌, ◌<◌, ◌++◌, ◌∷◌, [], List, ℕ, IfErr, IfOk, OnOk, length};
ghost use Rattle.droid_signature.specs.RegistryTables.{priority_fields};
ghost use Rattle.droid_signature.specs.Holders.{holder};
ghost use Rattle.droid_signature.specs.Holdings.{AreOf};
ghost use Rattle.droid_signature.specs.Priorities as spec;
ghost use Rattle.droid_signature.specs.Priorities.{IsReasonOfHolder, LeavesPriority, Priority, TakesPriority};
ghost use Rattle.droid_signature.specs.Tables.{Fills};
ghost use Rattle.droid_signature.specs.Views.{all_of, kept_of};
ghost use Rattle.droid_signature.specs.declared.ids.Holder.TheVariants.{Only};

use crate::formats::{Kept, puid_of};
use crate::ids::{Holder, Ids};
use crate::left_out::{Item, Why};
use crate::table::Table;
use std::alloc::{AllocError, Global};

/// The most priorities of a registry, as `ROWS_LIMIT` of `droid_pronom`. The definitions of `specs/Priorities.antt` and
/// of `specs/RegistryTables.antt` have this number too; the prover ties it to them.
const PRIORITIES_LIMIT: u64 = 16_384;

/// Returns which of the registry's formats has which ID, by places in the registry.
pub fn ids_of(alloc: Global, kept: &[Kept<'_>]) -> Result<Ids, AllocError>
    ensures { IfOk result (λ ids. AreOf ids (spec.ids_of (all_of kept.now))) }
{
    let mut ids = Ids::new(alloc);
    for place in 0..kept.len() {
        ids.note(kept[place].format.id(), place)?;
    }
    Ok(ids)
}

/// Returns the rows of the formats' priorities, and why the registry cannot hold the others. `ids` says which format
/// has which ID.
pub fn list_priorities(alloc: Global, kept: &[Kept<'_>], ids: &Ids) -> Result<Table, AllocError>
    requires { AreOf ids.now (spec.ids_of (all_of kept.now)) }
    ensures { IfOk result
        (Fills (TakesPriority (all_of kept.now)) (LeavesPriority (all_of kept.now)) priority_fields
        (spec.all_priorities (all_of kept.now))) }
{
    let mut table = Table::new(alloc);
    for place in 0..kept.len() {
        add_priorities(&mut table, kept, ids, place, &kept[place])?;
    }
    Ok(table)
}

/// Adds the priorities of the format at a place of the registry, or leaves them out, one by one.
fn add_priorities(
    table: &mut Table,
    kept: &[Kept<'_>],
    ids: &Ids,
    place: usize,
    of: &Kept<'_>,
) -> Result<(), AllocError>
    requires { AreOf ids.now (spec.ids_of (all_of kept.now)) }
    ensures { OnOk result ((xs : List Priority)
        → Fills (TakesPriority (all_of kept.now)) (LeavesPriority (all_of kept.now)) priority_fields xs table.old
        → Fills (TakesPriority (all_of kept.now)) (LeavesPriority (all_of kept.now)) priority_fields
        (xs ++ spec.priorities_of place (kept_of of.now) of.now.format.now.priorities) table.new) }
{
    let priorities = of.format.priorities();
    for at in 0..priorities.len() {
        add_priority(table, kept, ids, place, of, priorities[at])?;
    }
    Ok(())
}

/// Adds the priority of a format over the one with an ID, or leaves it out: no format, several formats or the format
/// itself has that ID, or the table is full.
fn add_priority(
    table: &mut Table,
    kept: &[Kept<'_>],
    ids: &Ids,
    place: usize,
    of: &Kept<'_>,
    id: u32,
) -> Result<(), AllocError>
    requires { AreOf ids.now (spec.ids_of (all_of kept.now)) }
    ensures { OnOk result ((xs : List Priority)
        → Fills (TakesPriority (all_of kept.now)) (LeavesPriority (all_of kept.now)) priority_fields xs table.old
        → Fills (TakesPriority (all_of kept.now)) (LeavesPriority (all_of kept.now)) priority_fields
        (xs ++ record { place = place; of = kept_of of.now; id = id } ∷ []) table.new) }
{
    match other_of(ids, id) {
        Err(why) => table.leave_out(of.place, Item::Priority(id), why)?,
        Ok(over) => add_priority_over(table, kept, place, of, id, over)?,
    }
    Ok(())
}

/// Returns the place in the registry of the only format with an ID, or why there is no such format.
fn other_of(ids: &Ids, id: u32) -> Result<usize, Why>
    ensures ok { IfOk result (λ place. (all : List ℕ) → AreOf ids.now all → holder id all ≡ Only place) }
    ensures err { IfErr result (λ reason.
        (all : List ℕ) → AreOf ids.now all → IsReasonOfHolder (holder id all) reason) }
{
    match ids.holder(id) {
        Holder::Nobody => Err(Why::NoSuchFormat),
        Holder::Several => Err(Why::SeveralFormats),
        Holder::Only(place) => Ok(place),
    }
}

/// Adds the priority of a format over the one at the place `over` of the registry, which has this ID; or leaves it out:
/// the two are one format (`OverItself`), which the PUIDs tell, since a registry has each once; or the table is full.
fn add_priority_over(
    table: &mut Table,
    kept: &[Kept<'_>],
    place: usize,
    of: &Kept<'_>,
    id: u32,
    over: usize,
) -> Result<(), AllocError>
    requires { over < length kept.now }
    ensures { OnOk result ((xs : List Priority) → holder id (spec.ids_of (all_of kept.now)) ≡ Only over
        → Fills (TakesPriority (all_of kept.now)) (LeavesPriority (all_of kept.now)) priority_fields xs table.old
        → Fills (TakesPriority (all_of kept.now)) (LeavesPriority (all_of kept.now)) priority_fields
        (xs ++ record { place = place; of = kept_of of.now; id = id } ∷ []) table.new) }
{
    let other = &kept[over];
    let puid = puid_of(of.format);
    let over_puid = puid_of(other.format);
    if puid == over_puid {
        table.leave_out(of.place, Item::Priority(id), Why::OverItself)?;
        return Ok(());
    }
    if table.count >= PRIORITIES_LIMIT {
        table.leave_out(of.place, Item::Priority(id), Why::Full)?;
        return Ok(());
    }
    table.push("P", puid, over_puid, "", "", "")?;
    Ok(())
}
