//! Makes a registry, its note and its report from the bytes of a signature file. Nothing is read or written.

ghost use Rattle.std.specs.Prelude.{◌≡◌, IfOk, string_bytes};
ghost use Rattle.droid_cmd_registry.specs.Conversions as spec;
ghost use Rattle.droid_cmd_registry.specs.Conversions.{Converts};
ghost use Rattle.droid_cmd_registry.specs.Reports.{digest_text, note_text, report_text};

use crate::registry_ending::RegistryEnding;
use crate::registry_report::{NoteLine, RegistryReport};
use droid_signature::{ConversionFault, Converted, LeftOut, all_left_out, convert};
use droid_signature_file::{SignatureFile, read};
use md5::{Digest, Md5};
use std::alloc::{AllocError, Global};

/// The registry of a signature file, and its note and report.
#[derive(Drop)]
pub struct Conversion {
    /// The registry file.
    pub csv: Vec<u8>,
    /// The line that says which registry it is.
    pub note: String,
    /// What the registry has, and what it does not have.
    pub report: String,
    /// Whether something of the signature file is not in the registry.
    pub is_partial: bool,
}

/// Makes a registry of the bytes of a signature file. With `quiet` the report has the numbers alone. The error is the
/// ending of the command: the bytes are no signature file, the registry would be too long, or memory ran out.
pub fn conversion_of(alloc: Global, quiet: bool, bytes: &[u8]) -> Result<Conversion, RegistryEnding>
    ensures { Converts quiet bytes.now result }
{
    let file = match read(alloc, bytes) {
        Ok(file) => file,
        Err(fault) => return Err(RegistryEnding::unconverted(fault)),
    };
    let made = match convert(alloc, &file) {
        Ok(made) => made,
        Err(ConversionFault::Memory) => return Err(RegistryEnding::NoMemory),
        Err(ConversionFault::TooLong) => return Err(RegistryEnding::LongRegistry),
    };
    match described(alloc, quiet, &file, made) {
        Ok(conversion) => Ok(conversion),
        Err(_) => Err(RegistryEnding::NoMemory),
    }
}

/// Adds the note and the report to a registry that was made of this file. Fails only if memory runs out, as all below.
fn described(
    alloc: Global,
    quiet: bool,
    file: &SignatureFile,
    made: Converted,
) -> Result<Conversion, AllocError>
    ensures { IfOk result (spec.IsDescribed quiet file.now made) }
{
    let left_out = all_left_out(alloc, file, made.left_out.as_slice())?;
    let digest = digest_of(alloc, made.csv.as_slice())?;
    let note = note_of(alloc, file, digest.as_str())?;
    let report = report_of(
        alloc,
        quiet,
        file,
        &made,
        left_out.as_slice(),
        digest.as_str(),
    )?;
    Ok(Conversion {
        csv: made.csv,
        note,
        report,
        is_partial: is_partial(file, left_out.as_slice()),
    })
}

/// Returns the MD5 of the bytes of a registry file, in 32 hexadecimal digits.
fn digest_of(alloc: Global, csv: &[u8]) -> Result<String, AllocError>
    ensures { IfOk result (λ text. string_bytes text ≡ digest_text csv.now) }
{
    let mut hasher = Md5::new();
    hasher.update(csv);
    let digest = hasher.finalize();
    let text = hex::encode(alloc, digest.as_slice())?;
    Ok(text)
}

/// Returns the line of the note beside the registry, whose MD5 is `digest`.
fn note_of(alloc: Global, file: &SignatureFile, digest: &str) -> Result<String, AllocError>
    ensures { IfOk result (λ note. string_bytes note ≡ note_text file.now digest.now) }
{
    let line = NoteLine { file, digest };
    let note = format!(in alloc; "{line}")?;
    Ok(note)
}

/// Returns the report for standard error: on the registry that was `made`, all that was left out of it, and its MD5.
fn report_of(
    alloc: Global,
    quiet: bool,
    file: &SignatureFile,
    made: &Converted,
    left_out: &[LeftOut],
    digest: &str,
) -> Result<String, AllocError>
    ensures { IfOk result (λ report.
        string_bytes report ≡ report_text quiet file.now made.now.taken left_out.now digest.now) }
{
    let report = RegistryReport {
        quiet,
        file,
        taken: made.taken,
        left_out,
        digest,
    };
    let report = format!(in alloc; "{report}")?;
    Ok(report)
}

/// Returns whether something of a signature file is left out, or has a name that is not known, listed or not. Then the
/// command ends with status 5.
fn is_partial(file: &SignatureFile, left_out: &[LeftOut]) -> bool
    ensures { result ≡ spec.is_partial file.now left_out.now }
{
    let is_whole = left_out.is_empty() && file.unknown().is_empty() && file.unlisted() == 0;
    !is_whole
}
