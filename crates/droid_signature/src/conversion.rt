//! Makes the registry of a signature file, within a registry's limits.

ghost use Rattle.std.specs.Prelude.{◌≡◌, ◌<◌, ◌≤◌, Err, IfOk, length};
ghost use Rattle.droid_signature.specs.Conversion.{IsConversion, IsTooLong};
ghost use Rattle.droid_signature.specs.AllTables.{taken_in};
ghost use Rattle.droid_signature.specs.declared.conversion.ConversionFault.TheVariants as faults;

use crate::left_out::LeftOut;
use crate::tables::{AllTables, left_out_of, tables_of, text_of};
use droid_signature_file::SignatureFile;
use std::alloc::{AllocError, AllocFailed, Global};

/// The most bytes of a registry file, as `BYTES_LIMIT` of `droid_pronom`. The clauses of `convert` and the definitions
/// of `specs/Conversion.antt` have this number too, and the law `tables_are_read_back`; the prover ties them. The words
/// at `TooLong` and in `registry_ending.rt` of `droid_cmd_registry` no proof ties.
const BYTES_LIMIT: usize = 16_777_216;

/// Why no registry could be made.
#[derive(Clone, Copy)]
pub enum ConversionFault {
    /// Out of memory.
    Memory,
    /// The registry file would have more than 16,777,216 bytes.
    TooLong,
}

impl From<AllocError> for ConversionFault {
    ghost from_gives = { λ _ e. e ≡ faults.Memory };

    /// Memory ran out.
    fn from(_: AllocError) -> Self {
        ConversionFault::Memory
    }
}

impl<T: Drop> From<AllocFailed<T>> for ConversionFault {
    ghost from_gives = { λ _ e. e ≡ faults.Memory };

    /// Memory ran out. Drops what it ran out for.
    fn from(_: AllocFailed<T>) -> Self {
        ConversionFault::Memory
    }
}

/// How much of the signature file the registry has.
#[derive(Clone, Copy)]
pub struct Taken {
    pub formats: u64,
    pub extensions: u64,
    pub priorities: u64,
    /// The signatures, once for each format.
    pub signatures: u64,
}

/// The registry of a signature file.
#[derive(Drop)]
pub struct Converted {
    /// The registry file.
    pub csv: Vec<u8>,
    /// What the registry has.
    pub taken: Taken,
    /// What the registry does not have: formats, extensions, priorities and signatures, each kind in the file's order.
    pub left_out: Vec<LeftOut>,
}

/// Makes a registry of a signature file.
///
/// `Registry::parse` reads the registry file. Its formats are those of the signature file, with name, version, media
/// type, extensions and priorities, and each hits only files that it hits by the signature file, under every scan
/// limit. It hits all of them, if none of its signatures is left out. What is left out is listed, with the reason.
///
/// Fails with `Memory`, or with `TooLong`, which is found once the whole registry is made.
pub fn convert(alloc: Global, file: &SignatureFile) -> Result<Converted, ConversionFault>
    ensures made { IfOk result (λ made. IsConversion file.now made.csv.items made.left_out.items made.taken) }
    ensures short { IfOk result (λ made. length made.csv.items ≤ 16777216) }
    ensures too_long { result ≡ Err faults.TooLong → IsTooLong file.now }
{
    let made = make(alloc, file)?;
    if made.csv.len() > BYTES_LIMIT {
        return Err(ConversionFault::TooLong);
    }
    Ok(made)
}

/// Makes the registry, however long its file is. Fails only if memory runs out.
fn make(alloc: Global, file: &SignatureFile) -> Result<Converted, AllocError>
    ensures { IfOk result (λ made. IsConversion file.now made.csv.items made.left_out.items made.taken) }
{
    let tables = tables_of(alloc, file)?;
    let csv = text_of(alloc, &tables)?;
    let left_out = left_out_of(alloc, &tables)?;
    Ok(Converted {
        csv,
        taken: taken_of(&tables),
        left_out,
    })
}

/// Counts what the registry has. A signature of the file counts once for each format, however many rows it becomes.
fn taken_of(tables: &AllTables<'_>) -> Taken
    ensures { result ≡ taken_in tables.now }
{
    Taken {
        formats: tables.formats.kept.len() as u64,
        extensions: tables.extensions.count,
        priorities: tables.priorities.count,
        signatures: tables.signatures.taken,
    }
}
