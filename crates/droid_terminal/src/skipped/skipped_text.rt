//! Writes the CSV of what was skipped: whole, or line by line.

ghost use Rattle.std.specs.Prelude.{◌≡◌, ◌++◌, ℕ, List, [], ◌∷◌, IfOk, OnOk};
ghost use Rattle.droid_export.specs.Csv.{line};
ghost use Rattle.droid_export.specs.CsvBuffer.{Holds};
ghost use Rattle.droid_terminal.specs.SkippedTexts.{entry_record, entry_text, header, skipped_csv};

use crate::csv_records::{finish_csv, new_csv, write_record};
use crate::path_text::cause;
use crate::skipped::skipped_entry::SkippedEntry;
use csv::Writer;
use droid_tree::Skipped;
use std::alloc::{AllocError, Global};

/// Returns the CSV of these entries, with its header and each field between double quotes. Fails only if memory runs
/// out, as all here.
pub fn skipped_csv(alloc: Global, skipped: &[SkippedEntry]) -> Result<Vec<u8>, AllocError>
    ensures { IfOk result (λ csv. csv.items ≡ skipped_csv skipped.now) }
{
    let mut writer = new_csv(alloc);
    write_pair(&mut writer, b"path", b"reason")?;
    for entry in skipped {
        write_entry(&mut writer, entry)?;
    }
    finish_csv(writer)
}

/// Returns the first line of this CSV, which names its columns `path` and `reason`. It is for a file that is written
/// during the walk, by this and `entry_line`.
pub fn header_line(alloc: Global) -> Result<Vec<u8>, AllocError>
    ensures { IfOk result (λ text. text.items ≡ header) }
{
    let mut writer = new_csv(alloc);
    write_pair(&mut writer, b"path", b"reason")?;
    finish_csv(writer)
}

/// Returns the line of one entry: its path, which may be invalid UTF-8, and the reason in words.
pub fn entry_line(alloc: Global, path: &[u8], why: Skipped) -> Result<Vec<u8>, AllocError>
    ensures { IfOk result (λ text. text.items ≡ entry_text path.now why) }
{
    let mut writer = new_csv(alloc);
    write_pair(&mut writer, path, cause(why).as_bytes())?;
    finish_csv(writer)
}

/// Appends the record of an entry: its path and the reason in words. Fails only if the buffer can't grow.
fn write_entry(writer: &mut Writer<Vec<u8>>, entry: &SkippedEntry) -> Result<(), AllocError>
    ensures { OnOk result ((text : List ℕ) → Holds writer.old text
        → Holds writer.new (text ++ line (entry_record entry.now))) }
{
    write_pair(writer, entry.path.as_slice(), cause(entry.why).as_bytes())
}

/// Appends a record of two fields. Fails only if the buffer can't grow.
fn write_pair(writer: &mut Writer<Vec<u8>>, first: &[u8], second: &[u8]) -> Result<(), AllocError>
    ensures { OnOk result ((text : List ℕ) → Holds writer.old text
        → Holds writer.new (text ++ line (first.now ∷ second.now ∷ []))) }
{
    let fields: [&[u8]; 2] = [first, second];
    write_record(writer, &fields)
}
