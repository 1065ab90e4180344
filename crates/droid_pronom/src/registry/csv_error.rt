//! The errors of the CSV reader, as errors of a registry file.

ghost use Rattle.std.specs.Prelude.{◌≡◌};
ghost use Rattle.csv.specs.Reading.{error_kind};
ghost use Rattle.droid_pronom.specs.RegistryCalls.{EndsReading};

use crate::registry::fault::RegistryFault;
use csv::{Error, ErrorKind};

/// Converts an error of `csv`, which can only be that memory ran out.
///
/// Records are read as bytes, with any number of fields, so there are no errors of UTF-8 or of lengths. Reading from a
/// slice never fails.
pub(crate) fn csv_fault(error: Error) -> RegistryFault
    requires { EndsReading (error_kind error) }
    ensures { result ≡ RegistryFault.Memory }
{
    match error.into_kind() {
        ErrorKind::OutOfMemory => RegistryFault::Memory,
        ErrorKind::Io(_) => RegistryFault::Memory,
        ErrorKind::Utf8 { .. } => unreachable!(),
        ErrorKind::UnequalLengths { .. } => unreachable!(),
        ErrorKind::Serialize(_) => unreachable!(),
        ErrorKind::Deserialize { .. } => unreachable!(),
    }
}
