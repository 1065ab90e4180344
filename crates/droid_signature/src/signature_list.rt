//! Which signatures the registry has: goes over those that its formats name, and adds or leaves out each.

ghost use Rattle.std.specs.Prelude.{◌≡◌, ◌++◌, ◌∷◌, [], ℕ, List, IfOk, OnOk};
ghost use Rattle.droid_signature_file.specs.Records.{SignatureRecord};
ghost use Rattle.droid_signature.specs.Views.{all_of, kept_of};
ghost use Rattle.droid_signature.specs.Outcomes.{AreOutcomesOf};
ghost use Rattle.droid_signature.specs.Signatures.{Named, Signs, all_signatures, signatures_of};

use crate::formats::Kept;
use crate::outcomes::Outcomes;
use crate::signature_table::SignatureTable;
use std::alloc::{AllocError, Global};

/// Returns the rows of the formats' signatures, and why the registry cannot hold the others.
pub fn list_signatures(
    alloc: Global,
    kept: &[Kept<'_>],
    outcomes: &Outcomes,
) -> Result<SignatureTable, AllocError>
    requires { (signatures : List SignatureRecord) × AreOutcomesOf signatures outcomes.now }
    ensures { IfOk result (λ table.
        (signatures : List SignatureRecord) → AreOutcomesOf signatures outcomes.now
        → Signs signatures (all_signatures (all_of kept.now)) table) }
{
    let mut table = SignatureTable::new(alloc);
    for place in 0..kept.len() {
        add_signatures(&mut table, &kept[place], outcomes)?;
    }
    Ok(table)
}

/// Adds the signatures that a format names, or leaves them out, one by one.
fn add_signatures(
    table: &mut SignatureTable,
    of: &Kept<'_>,
    outcomes: &Outcomes,
) -> Result<(), AllocError>
    requires { (signatures : List SignatureRecord) × AreOutcomesOf signatures outcomes.now }
    ensures { OnOk result ((signatures : List SignatureRecord) (xs : List Named) (place : ℕ)
        → AreOutcomesOf signatures outcomes.now → Signs signatures xs table.old
        → Signs signatures (xs ++ signatures_of place (kept_of of.now) of.now.format.now.signatures) table.new) }
{
    let ids = of.format.signatures();
    for at in 0..ids.len() {
        add_signature(table, of, outcomes, ids[at])?;
    }
    Ok(())
}

/// Adds the signature with an ID, by what it becomes, or leaves it out, for the reason why it becomes nothing.
fn add_signature(
    table: &mut SignatureTable,
    of: &Kept<'_>,
    outcomes: &Outcomes,
    id: u32,
) -> Result<(), AllocError>
    requires { (signatures : List SignatureRecord) × AreOutcomesOf signatures outcomes.now }
    ensures { OnOk result ((signatures : List SignatureRecord) (xs : List Named) (place : ℕ)
        → AreOutcomesOf signatures outcomes.now → Signs signatures xs table.old
        → Signs signatures (xs ++ record { place = place; of = kept_of of.now; id = id } ∷ []) table.new) }
{
    match outcomes.of_id(id) {
        Err(why) => table.leave_out(of.place, id, why)?,
        Ok(all) => table.add(of, id, all)?,
    }
    Ok(())
}
