//! Writes the records of a CSV, with each field between double quotes, for this crate and the commands above it.

ghost use Rattle.std.specs.Prelude.{◌≡◌, ◌<◌, ◌++◌, ℕ, List, [], IfOk, OnOk, length, map};
ghost use Rattle.droid_export.specs.Csv.{line};
ghost use Rattle.droid_export.specs.CsvBuffer.{Holds};

use csv::{QuoteStyle, Writer, WriterBuilder};
use std::alloc::{AllocError, Global};

/// Makes a writer with an empty buffer, which puts each field between double quotes. Takes no memory.
pub fn new_csv(alloc: Global) -> Writer<Vec<u8>>
    ensures { Holds result [] }
{
    WriterBuilder::new()
        .quote_style(QuoteStyle::Always)
        .from_writer(Vec::new(alloc))
}

/// Appends a record of two or more fields and its line feed. Fails only if the buffer can't grow; nothing is promised
/// of the writer then, and each caller drops it.
pub fn write_record(writer: &mut Writer<Vec<u8>>, fields: &[&[u8]]) -> Result<(), AllocError>
    requires { 1 < length fields.now }
    ensures { OnOk result ((text : List ℕ) → Holds writer.old text
        → Holds writer.new (text ++ line (map (λ field. field.now) fields.now))) }
{
    match writer.write_fields(fields) {
        Ok(()) => Ok(()),
        Err(_) => Err(AllocError),
    }
}

/// Ends the writing and returns the buffer with all that was written. Fails only if the buffer can't grow.
pub fn finish_csv(writer: Writer<Vec<u8>>) -> Result<Vec<u8>, AllocError>
    ensures { IfOk result (λ bytes. (text : List ℕ) → Holds writer text → bytes.items ≡ text) }
{
    match writer.into_inner() {
        Ok(bytes) => Ok(bytes),
        Err(_) => Err(AllocError),
    }
}
