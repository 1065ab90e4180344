//! The errors of the reader of `csv`: where byte records are read from a slice, all of them mean that memory ran out.

ghost use Rattle.csv.specs.Reading.{error_kind};
ghost use Rattle.droid_export.specs.ReadErrors.{EndsReading};

use csv::{Error, ErrorKind};
use std::alloc::AllocError;

/// Converts an error of `csv`, which can only be that memory ran out.
///
/// Records are read as bytes, with any number of fields, so there are no errors of UTF-8 or of lengths. Reading from a
/// slice never fails.
pub fn no_memory(error: Error) -> AllocError
    requires { EndsReading (error_kind error) }
{
    match error.into_kind() {
        ErrorKind::OutOfMemory => AllocError,
        ErrorKind::Io(_) => AllocError,
        ErrorKind::Utf8 { .. } => unreachable!(),
        ErrorKind::UnequalLengths { .. } => unreachable!(),
        ErrorKind::Serialize(_) => unreachable!(),
        ErrorKind::Deserialize { .. } => unreachable!(),
    }
}
