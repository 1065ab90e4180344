//! What is printed of a file, before the first and after the last one, in each form.

ghost use Rattle.std.specs.Prelude.{◌≡◌, IfOk, string_bytes};
ghost use Rattle.droid_cmd_identify.specs.FileTexts.{file_text, head_text, tail_text, unread_text};
ghost use Rattle.droid_cmd_identify.specs.Json.{json_line};
ghost use Rattle.droid_cmd_identify.specs.Lines.{file_lines, puid_lines};
ghost use Rattle.droid_cmd_identify.specs.Siegfried.{sf_file, sf_head};

use crate::forms::csv_rows::{csv_header, csv_rows};
use crate::forms::file_lines::{FileLines, PuidLines};
use crate::forms::json_line::JsonLine;
use crate::forms::sf_document::{SF_TAIL, SfHead};
use crate::forms::sf_file::{SfFile, SfUnread};
use crate::forms::shown_file::ShownFile;
use droid_arguments::IdentifyForm;
use std::alloc::{AllocError, Global};

/// Returns what is printed of a file. `first` says whether it is the first one that is printed: before the others the
/// document that is shaped as Siegfried's has a comma.
pub fn file_text(
    alloc: Global,
    form: IdentifyForm,
    first: bool,
    file: ShownFile<'_>,
) -> Result<Vec<u8>, AllocError>
    ensures { IfOk result (λ text. text.items ≡ file_text form first file.entry) }
{
    let text = match form {
        IdentifyForm::Csv => return csv_rows(alloc, file),
        IdentifyForm::Lines => format!(in alloc; "{}", FileLines(file))?,
        IdentifyForm::Puids => format!(in alloc; "{}", PuidLines(file.formats))?,
        IdentifyForm::Json => format!(in alloc; "{}", JsonLine(file))?,
        IdentifyForm::Siegfried => format!(in alloc; "{}", SfFile { first, file })?,
    };
    Ok(text.into_bytes())
}

/// Returns what is printed before the first file.
pub fn head_text(alloc: Global, form: IdentifyForm, head: SfHead<'_>) -> Result<Vec<u8>, AllocError>
    ensures { IfOk result (λ text. text.items ≡ head_text form head.entry) }
{
    match form {
        IdentifyForm::Csv => csv_header(alloc),
        IdentifyForm::Siegfried => {
            let text = format!(in alloc; "{head}")?;
            Ok(text.into_bytes())
        }
        IdentifyForm::Lines => Ok(Vec::new(alloc)),
        IdentifyForm::Puids => Ok(Vec::new(alloc)),
        IdentifyForm::Json => Ok(Vec::new(alloc)),
    }
}

/// Returns what is printed after the last file.
pub fn tail_text(form: IdentifyForm) -> &'static str
    ensures { result.now ≡ tail_text form }
{
    match form {
        IdentifyForm::Siegfried => SF_TAIL,
        IdentifyForm::Csv => "",
        IdentifyForm::Lines => "",
        IdentifyForm::Puids => "",
        IdentifyForm::Json => "",
    }
}

/// Returns what is printed, beside the report, of a file that could not be read: nothing but in the document that is
/// shaped as Siegfried's. `first` is that of `file_text`.
pub fn unread_text(
    alloc: Global,
    form: IdentifyForm,
    first: bool,
    path: &str,
    why: &str,
) -> Result<String, AllocError>
    ensures { IfOk result (λ text. string_bytes text ≡ unread_text form first path.now why.now) }
{
    match form {
        IdentifyForm::Siegfried => format!(in alloc; "{}", SfUnread { first, path, why }),
        IdentifyForm::Csv => Ok(String::new(alloc)),
        IdentifyForm::Lines => Ok(String::new(alloc)),
        IdentifyForm::Puids => Ok(String::new(alloc)),
        IdentifyForm::Json => Ok(String::new(alloc)),
    }
}
