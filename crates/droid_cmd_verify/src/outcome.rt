//! What a comparison came to, and its report.

ghost use Rattle.std.specs.Prelude.{◌≡◌, ℕ, IfOk};
ghost use Rattle.droid_frame.specs.Seen.{Counts};
ghost use Rattle.droid_cmd_verify.specs.Outcomes.{HasFindings, IsOutcome, ReportsUnwritten, WritesOutcome, changes_by};
ghost use Rattle.droid_cmd_verify.specs.Outcomes.{ending_by};

use crate::compared::compared_amount;
use crate::finding::{Finding, findings_of};
use crate::measure::Measure;
use crate::report::report_text;
use crate::summary::{KindCounts, Summary};
use crate::tree_check::Checked;
use crate::verify_ending::VerifyEnding;
use droid_export::FormatRow;
use droid_frame::{SteadyWrite, WriteState, write_all};
use droid_lists::{FileFormats, FormatChange, format_changes};
use droid_terminal::SkippedEntry;
use std::alloc::{AllocError, Global};

/// What a comparison came to.
#[derive(Drop)]
pub struct Outcome {
    /// The CSV of what is reported.
    pub text: Vec<u8>,
    /// The summary.
    pub summary: Summary,
    /// Whether anything is reported.
    pub differs: bool,
}

/// Returns what a comparison came to. `rows` are those of the list, if formats are compared, and `formats` those that
/// were found. `how` says by what files were compared. Fails only if memory runs out, as all that makes an outcome.
pub fn outcome_of(
    alloc: Global,
    how: Measure,
    rows: &Option<Vec<FormatRow>>,
    formats: &[FileFormats],
    checked: &Checked,
    unreadable: &[SkippedEntry],
) -> Result<Outcome, AllocError>
    ensures { IfOk result (λ outcome. IsOutcome how rows.now formats.now checked.now unreadable.now outcome) }
{
    let changes = changes_by(alloc, rows, formats)?;
    let findings = findings_of(alloc, how, checked, unreadable, changes.as_slice())?;
    let outcome = outcome_by(alloc, how, rows.is_some(), checked, findings.as_slice())?;
    Ok(outcome)
}

/// Returns the files with other formats than the rows of the list give them: none if formats are not compared.
fn changes_by(
    alloc: Global,
    rows: &Option<Vec<FormatRow>>,
    formats: &[FileFormats],
) -> Result<Vec<FormatChange>, AllocError>
    ensures { IfOk result (λ changes. changes.items ≡ changes_by rows.now formats.now) }
{
    match rows {
        Some(rows) => {
            let changes = format_changes(alloc, rows.as_slice(), formats)?;
            Ok(changes)
        }
        None => Ok(Vec::new(alloc)),
    }
}

/// Returns what a comparison with these findings came to: their CSV, the summary, and whether there are any.
fn outcome_by(
    alloc: Global,
    how: Measure,
    identify: bool,
    checked: &Checked,
    findings: &[Finding],
) -> Result<Outcome, AllocError>
    ensures { IfOk result (λ outcome. HasFindings how identify checked.now findings.now outcome) }
{
    let amount = compared_amount(how, checked);
    let text = report_text(alloc, checked, findings)?;
    let summary = Summary {
        how,
        identify,
        files: amount.files,
        bytes: amount.bytes,
        kinds: KindCounts::of(findings),
    };
    Ok(Outcome {
        text,
        summary,
        differs: !findings.is_empty(),
    })
}

/// Writes the report, and returns how the command ends. Interrupted writes are tried again, at most 64 times, by
/// `write_all` of `droid_frame`.
pub fn write_outcome<O: SteadyWrite>(output: &mut O, outcome: &Outcome) -> VerifyEnding
    // All of the report was written, or the writer stopped; the ending says which.
    ensures written { WritesOutcome (O.contents output.old) (O.contents output.new) outcome.now result }
    ensures stopped { (start : ℕ) → Counts start (O.seen output.old) 0
        → ReportsUnwritten start (O.seen output.new) (O.room output.new) result }
{
    match write_all(output, outcome.text.as_slice(), &mut WriteState::new()) {
        Ok(()) => ending_by(outcome.differs),
        Err(_) => VerifyEnding::Unwritten,
    }
}

/// Returns the ending where the report was written, by whether it has anything.
fn ending_by(differs: bool) -> VerifyEnding
    ensures { result ≡ ending_by differs }
{
    if differs {
        VerifyEnding::Differing
    } else {
        VerifyEnding::Same
    }
}
