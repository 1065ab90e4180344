//! Finds the signatures that no format of the file names, by their IDs: the unnamed ones.

ghost use Rattle.std.specs.Prelude.{◌≡◌, ◌++◌, ◌∷◌, [], ℕ, List, IfOk, OnOk, if◌then◌else◌};
ghost use Rattle.droid_signature.specs.Unnamed.{AreNamed, ids_named, is_named, unnamed, unnamed_among};

use droid_signature_file::{FileFormat, InternalSignature, SignatureFile};
use std::alloc::{AllocError, Global};
use std::collections::BTreeMap;

/// Returns the IDs of the signatures that no format of the file names, in the file's order.
pub fn unnamed_signatures(alloc: Global, file: &SignatureFile) -> Result<Vec<u32>, AllocError>
    ensures { IfOk result (λ ids. ids.items ≡ unnamed file.now) }
{
    let mut named = Named::new(alloc);
    note_all(&mut named, file.formats())?;
    let ids = others(alloc, file.signatures(), &named)?;
    Ok(ids)
}

/// The IDs that formats name.
#[derive(Drop)]
struct Named {
    ids: BTreeMap<u32, bool>,
}

impl Named {
    /// Begins with no ID. Allocates nothing.
    fn new(alloc: Global) -> Named
        ensures { AreNamed result [] }
    {
        Named {
            ids: BTreeMap::new(alloc),
        }
    }

    /// Notes that a format names this ID. Some are named several times.
    fn note(&mut self, id: u32) -> Result<(), AllocError>
        ensures { OnOk result ((ids : List ℕ) → AreNamed self.old ids → AreNamed self.new (ids ++ id ∷ [])) }
    {
        self.ids.insert(id, true)?;
        Ok(())
    }

    /// Returns whether a format names this ID.
    fn has(&self, id: u32) -> bool
        ensures { (ids : List ℕ) → AreNamed self.now ids → result ≡ is_named ids id }
    {
        self.ids.contains_key(&id)
    }
}

/// Notes the signatures that all formats of the file name, also those that the registry does not have.
fn note_all(named: &mut Named, formats: &[FileFormat]) -> Result<(), AllocError>
    ensures { OnOk result (AreNamed named.old [] → AreNamed named.new (ids_named formats.now)) }
{
    for format in formats {
        note_ids(named, format.signatures())?;
    }
    Ok(())
}

/// Notes the signatures that a format names.
fn note_ids(named: &mut Named, ids: &[u32]) -> Result<(), AllocError>
    ensures { OnOk result ((before : List ℕ) → AreNamed named.old before → AreNamed named.new (before ++ ids.now)) }
{
    for id in ids {
        named.note(*id)?;
    }
    Ok(())
}

/// Returns the IDs of the signatures that are not named, in the file's order. One that several have comes several
/// times.
fn others(
    alloc: Global,
    signatures: &[InternalSignature],
    named: &Named,
) -> Result<Vec<u32>, AllocError>
    ensures { IfOk result (λ others.
        (ids : List ℕ) → AreNamed named.now ids → others.items ≡ unnamed_among ids signatures.now) }
{
    let mut others = Vec::new(alloc);
    for signature in signatures {
        add_other(&mut others, named, signature.id())?;
    }
    Ok(others)
}

/// Appends a signature's ID, if no format names it.
fn add_other(others: &mut Vec<u32>, named: &Named, id: u32) -> Result<(), AllocError>
    ensures { OnOk result ((ids : List ℕ) → AreNamed named.now ids
        → others.new.items ≡ others.old.items ++ (if is_named ids id then [] else id ∷ [])) }
{
    if !named.has(id) {
        others.push(id)?;
    }
    Ok(())
}
