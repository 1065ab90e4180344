//! All four tables of the registry that a signature file becomes, and what they have in all.

ghost use Rattle.std.specs.Prelude.{◌≡◌, ◌++◌, IfOk, OnOk};
ghost use Rattle.droid_signature.specs.AllTables.{AreTablesOf, all_left, all_text};
ghost use Rattle.droid_signature.specs.Priorities.{LeavesPriority, TakesPriority, all_priorities};
ghost use Rattle.droid_signature.specs.RegistryTables.{priority_fields};
ghost use Rattle.droid_signature.specs.Signatures.{Signs, all_signatures};
ghost use Rattle.droid_signature.specs.Tables.{Fills};
ghost use Rattle.droid_signature.specs.Views.{all_of};

use crate::extensions::list_extensions;
use crate::formats::{Keeping, Kept, keep_formats};
use crate::left_out::LeftOut;
use crate::outcomes::Outcomes;
use crate::priorities::{ids_of, list_priorities};
use crate::signature_list::list_signatures;
use crate::signature_table::SignatureTable;
use crate::table::Table;
use droid_signature_file::{InternalSignature, SignatureFile};
use std::alloc::{AllocError, Global};

/// The tables of a registry.
pub(crate) struct AllTables<'a> {
    pub formats: Keeping<'a>,
    pub extensions: Table,
    pub priorities: Table,
    pub signatures: SignatureTable,
}

// Written by hand, so that whatever drops it does not prove again how each part is dropped.
impl Drop for AllTables<'_> {
    fn drop(self) {
        let AllTables {
            formats: _formats,
            extensions: _extensions,
            priorities: _priorities,
            signatures: _signatures,
        } = self;
    }
}

/// Makes the tables of a signature file. The three others are those of the formats that the first one has.
pub(crate) fn tables_of<'a>(
    alloc: Global,
    file: &'a SignatureFile,
) -> Result<AllTables<'a>, AllocError>
    ensures { IfOk result (AreTablesOf file.now) }
{
    let formats = keep_formats(alloc, file.formats())?;
    let extensions = list_extensions(alloc, formats.kept.as_slice())?;
    let priorities = priorities_of(alloc, formats.kept.as_slice())?;
    let signatures = signatures_of(alloc, file.signatures(), formats.kept.as_slice())?;
    Ok(AllTables {
        formats,
        extensions,
        priorities,
        signatures,
    })
}

/// Makes the table of the priorities between these formats, those that the registry has.
fn priorities_of(alloc: Global, kept: &[Kept<'_>]) -> Result<Table, AllocError>
    ensures { IfOk result
        (Fills (TakesPriority (all_of kept.now)) (LeavesPriority (all_of kept.now)) priority_fields
        (all_priorities (all_of kept.now))) }
{
    let ids = ids_of(alloc, kept)?;
    list_priorities(alloc, kept, &ids)
}

/// Makes the table of the signatures that these formats have in the file.
fn signatures_of(
    alloc: Global,
    signatures: &[InternalSignature],
    kept: &[Kept<'_>],
) -> Result<SignatureTable, AllocError>
    ensures { IfOk result (Signs signatures.now (all_signatures (all_of kept.now))) }
{
    let outcomes = Outcomes::of(alloc, signatures)?;
    list_signatures(alloc, kept, &outcomes)
}

/// Returns the text of all rows: formats, extensions, priorities, signatures.
pub(crate) fn text_of(alloc: Global, tables: &AllTables<'_>) -> Result<Vec<u8>, AllocError>
    ensures { IfOk result (λ text. text.items ≡ all_text tables.now) }
{
    let mut text = Vec::new(alloc);
    text.extend_from_slice(tables.formats.table.text.as_slice())?;
    text.extend_from_slice(tables.extensions.text.as_slice())?;
    text.extend_from_slice(tables.priorities.text.as_slice())?;
    text.extend_from_slice(tables.signatures.text.as_slice())?;
    Ok(text)
}

/// Returns what is left out of all tables, in the order of their rows.
pub(crate) fn left_out_of(alloc: Global, tables: &AllTables<'_>) -> Result<Vec<LeftOut>, AllocError>
    ensures { IfOk result (λ left. left.items ≡ all_left tables.now) }
{
    let mut left = Vec::new(alloc);
    push_all(&mut left, tables.formats.table.left_out.as_slice())?;
    push_all(&mut left, tables.extensions.left_out.as_slice())?;
    push_all(&mut left, tables.priorities.left_out.as_slice())?;
    push_all(&mut left, tables.signatures.left_out.as_slice())?;
    Ok(left)
}

/// Appends a copy of each item of another list.
pub(crate) fn push_all(left: &mut Vec<LeftOut>, more: &[LeftOut]) -> Result<(), AllocError>
    ensures { OnOk result (left.new.items ≡ left.old.items ++ more.now) }
{
    for it in more {
        left.push(*it)?;
    }
    Ok(())
}
