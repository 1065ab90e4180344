//! Which extensions the registry has, and their rows.

ghost use Rattle.std.specs.Prelude.{◌≡◌, ◌++◌, ◌∷◌, [], List, IfOk, OnOk};
ghost use Rattle.std.specs.List.{list_all};
ghost use Rattle.droid_pronom.specs.RegistryFields as field;
ghost use Rattle.droid_signature.specs.RegistryTables.{extension_fields};
ghost use Rattle.droid_signature.specs.Extensions.{Extension, LeavesExtension, TakesExtension, all_extensions};
ghost use Rattle.droid_signature.specs.Extensions.{extensions_of};
ghost use Rattle.droid_signature.specs.Tables.{Fills};
ghost use Rattle.droid_signature.specs.Views.{all_of, kept_of};

use crate::formats::{Kept, puid_of};
use crate::left_out::{Item, Why};
use crate::table::Table;
use std::alloc::{AllocError, Global};

/// The most extensions of a registry, as `ROWS_LIMIT` of `droid_pronom`. The definitions `TakesExtension` and
/// `IsReasonOfExtension`, and those of `specs/RegistryTables.antt`, have this number too; the prover ties it to them.
const EXTENSIONS_LIMIT: u64 = 16_384;

/// Returns the rows of the formats' extensions, and why the registry cannot hold the others.
pub fn list_extensions(alloc: Global, kept: &[Kept<'_>]) -> Result<Table, AllocError>
    ensures { IfOk result (Fills TakesExtension LeavesExtension extension_fields (all_extensions (all_of kept.now))) }
{
    let mut table = Table::new(alloc);
    for place in 0..kept.len() {
        add_extensions(&mut table, place, &kept[place])?;
    }
    Ok(table)
}

/// Adds the extensions of the format at a place of the registry, or leaves them out, one by one.
fn add_extensions(table: &mut Table, place: usize, of: &Kept<'_>) -> Result<(), AllocError>
    ensures { OnOk result ((xs : List Extension) → Fills TakesExtension LeavesExtension extension_fields xs table.old
        → Fills TakesExtension LeavesExtension extension_fields
        (xs ++ extensions_of place (kept_of of.now) of.now.format.now.extensions) table.new) }
{
    let extensions = of.format.extensions();
    for at in 0..extensions.len() {
        add_extension(table, place, of, at, extensions[at].as_str())?;
    }
    Ok(())
}

/// Adds an extension, or leaves it out: if it is none (`BadExtension`), or if the table is full (`Full`). `at` is its
/// place among the format's.
fn add_extension(
    table: &mut Table,
    place: usize,
    of: &Kept<'_>,
    at: usize,
    text: &str,
) -> Result<(), AllocError>
    ensures { OnOk result ((xs : List Extension) → Fills TakesExtension LeavesExtension extension_fields xs table.old
        → Fills TakesExtension LeavesExtension extension_fields
        (xs ++ record { place = place; of = kept_of of.now; at = at; text = text.now } ∷ []) table.new) }
{
    if !is_extension(text) {
        table.leave_out(of.place, Item::Extension(at), Why::BadExtension)?;
        return Ok(());
    }
    if table.count >= EXTENSIONS_LIMIT {
        table.leave_out(of.place, Item::Extension(at), Why::Full)?;
        return Ok(());
    }
    table.push("E", puid_of(of.format), text, "", "", "")?;
    Ok(())
}

/// Returns whether the text is an extension, by the definition of the registry's reader: 1 to 64 bytes, none of them a
/// dot or a slash. The prover ties this to that definition; the comment of `BadExtension` and its sentence in
/// `droid_cmd_registry` have the 64 as words.
fn is_extension(text: &str) -> bool
    ensures { result ≡ field.is_extension text.now }
{
    1 <= text.len() && text.len() <= 64 && are_extension_bytes(text)
}

/// Returns whether a text has no dot and no slash.
fn are_extension_bytes(text: &str) -> bool
    ensures { result ≡ list_all field.is_extension_byte text.now }
{
    text.bytes().all(|c| c != b'.' && c != b'/')
}
