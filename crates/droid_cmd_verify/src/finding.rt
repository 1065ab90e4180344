//! Finds what is reported of a tree beside a list: gathers it from four sources, and sorts it by path.

ghost use Rattle.std.specs.Prelude.{◌≡◌, ◌++◌, [], ◌∷◌, IfOk, OnOk, filter, map};
ghost use Rattle.std.specs.Ordering.{nat_cmp};
ghost use Rattle.std.specs.Cmp.Lexicographic.{slice_cmp};
ghost use Rattle.droid_fixity.specs.Reports.{path_at, path_of};
ghost use Rattle.droid_cmd_verify.specs.Compared.{is_unchecked};
ghost use Rattle.droid_cmd_verify.specs.Findings.{AreFindings, difference_at, finding_at, format_at, is_file_at};
ghost use Rattle.droid_cmd_verify.specs.Findings.{is_reported, unchecked_at, unreadable_at};

use crate::compared::is_unchecked;
use crate::measure::{Measure, by_moments};
use crate::tree_check::Checked;
use droid_fixity::{Difference, FilePair};
use droid_frame::{Blob, Item};
use droid_lists::FormatChange;
use droid_terminal::SkippedEntry;
use droid_tree::Skipped;
use std::alloc::{AllocError, Global};
use std::cmp::Ordering;

/// What is reported at a path.
#[derive(Drop)]
pub struct Finding {
    /// The path: that of the list, if the list has it.
    pub path: Blob,
    /// What is reported.
    pub kind: Kind,
    /// The formats that the list gives the file, if they are reported.
    pub formats: Blob,
    /// The formats that were found, if they are reported.
    pub found_formats: Blob,
}

/// What is reported.
#[derive(Clone, Copy)]
pub enum Kind {
    /// A difference between the list and the tree.
    Differs(Difference),
    /// A file that the list and the tree have, and of which nothing known differs, was not compared: not both have a
    /// hash.
    Unchecked(FilePair),
    /// An entry could not be read, for this reason.
    Unreadable(Skipped),
    /// A file has other formats than the list gives it.
    Formats,
}

/// Returns what is reported, in order of path: the differences, the files that were not compared, all that is
/// unreadable, and the files with other formats. Differences of the moment alone are reported only if moments are
/// compared, and of files. Files that were not compared are reported only if they are to be compared by hashes. Where
/// two are at one path, as other bytes and other formats, no clause and no test says which comes first. Fails only if
/// memory runs out, as all here; nothing is promised of the findings then, and they are dropped.
pub fn findings_of(
    alloc: Global,
    how: Measure,
    checked: &Checked,
    unreadable: &[SkippedEntry],
    changes: &[FormatChange],
) -> Result<Vec<Finding>, AllocError>
    ensures { IfOk result (λ findings.
        AreFindings how checked.now.listed checked.now.found checked.now.differences.items checked.now.files.items
        unreadable.now changes.now findings.items) }
{
    let mut findings = Vec::new(alloc);
    let listed = checked.listed.as_slice();
    let found = checked.found.as_slice();
    add_differences(
        alloc,
        how,
        &mut findings,
        listed,
        found,
        checked.differences.as_slice(),
    )?;
    let files = checked.files.as_slice();
    add_unchecked(alloc, how, &mut findings, listed, found, files)?;
    add_unreadable(alloc, &mut findings, unreadable)?;
    add_changes(alloc, &mut findings, changes)?;
    findings.sort_unstable_by(|first, second| order_of(first, second));
    Ok(findings)
}

/// Compares the paths of two findings, byte by byte, for the order of the report.
fn order_of(first: &Finding, second: &Finding) -> Ordering
    ensures { result ≡ slice_cmp nat_cmp first.now.path second.now.path }
{
    first.path.as_slice().cmp(second.path.as_slice())
}

/// Appends the differences that are reported, in their order.
fn add_differences(
    alloc: Global,
    how: Measure,
    findings: &mut Vec<Finding>,
    listed: &[Item],
    found: &[Item],
    differences: &[Difference],
) -> Result<(), AllocError>
    ensures { OnOk result
        (findings.new.items
        ≡ findings.old.items
        ++ map (difference_at listed.now found.now) (filter (is_reported how found.now) differences.now)) }
{
    for difference in differences {
        add_difference(alloc, how, findings, listed, found, *difference)?;
    }
    Ok(())
}

/// Appends a difference, if it is reported.
fn add_difference(
    alloc: Global,
    how: Measure,
    findings: &mut Vec<Finding>,
    listed: &[Item],
    found: &[Item],
    difference: Difference,
) -> Result<(), AllocError>
    ensures { OnOk result
        (findings.new.items
        ≡ findings.old.items
        ++ map (difference_at listed.now found.now) (filter (is_reported how found.now) (difference ∷ []))) }
{
    if is_reported(how, found, difference) {
        let finding = finding_of(
            alloc,
            path_of(listed, found, difference),
            Kind::Differs(difference),
        )?;
        findings.push(finding)?;
    }
    Ok(())
}

/// Returns a finding of this kind at this path that is not about formats: its formats are empty.
fn finding_of(alloc: Global, path: &[u8], kind: Kind) -> Result<Finding, AllocError>
    ensures { IfOk result (λ finding. finding ≡ finding_at path.now kind) }
{
    let path = Blob::copy_of(alloc, path)?;
    let formats = Blob::copy_of(alloc, &[])?;
    let found_formats = Blob::copy_of(alloc, &[])?;
    Ok(Finding {
        path,
        kind,
        formats,
        found_formats,
    })
}

/// Returns whether a difference is reported: each is, but another moment only of a file, and if moments are compared.
fn is_reported(how: Measure, found: &[Item], difference: Difference) -> bool
    ensures { result ≡ is_reported how found.now difference }
{
    match difference {
        Difference::Changed { .. } => true,
        Difference::Missing { .. } => true,
        Difference::New { .. } => true,
        Difference::Moved { .. } => true,
        Difference::Touched { found: place, .. } => by_moments(how) && is_file_at(found, place),
    }
}

/// Returns whether the item at this place is a file. False if the place is behind the end.
fn is_file_at(items: &[Item], place: usize) -> bool
    ensures { result ≡ is_file_at items.now place }
{
    match items.get(place) {
        Some(item) => item.kind.is_file(),
        None => false,
    }
}

/// Appends those of these files, which both sides have, that were not compared, if such are reported.
fn add_unchecked(
    alloc: Global,
    how: Measure,
    findings: &mut Vec<Finding>,
    listed: &[Item],
    found: &[Item],
    pairs: &[FilePair],
) -> Result<(), AllocError>
    ensures { OnOk result
        (findings.new.items
        ≡ findings.old.items
        ++ map (unchecked_at listed.now) (filter (is_unchecked how listed.now found.now) pairs.now)) }
{
    for pair in pairs {
        add_pair(alloc, how, findings, listed, found, *pair)?;
    }
    Ok(())
}

/// Appends a file that both sides have, if it was not compared and such are reported.
fn add_pair(
    alloc: Global,
    how: Measure,
    findings: &mut Vec<Finding>,
    listed: &[Item],
    found: &[Item],
    pair: FilePair,
) -> Result<(), AllocError>
    ensures { OnOk result
        (findings.new.items
        ≡ findings.old.items
        ++ map (unchecked_at listed.now) (filter (is_unchecked how listed.now found.now) (pair ∷ []))) }
{
    if is_unchecked(how, listed, found, pair) {
        let path = path_at(listed, pair.listed);
        let finding = finding_of(alloc, path, Kind::Unchecked(pair))?;
        findings.push(finding)?;
    }
    Ok(())
}

/// Appends all that is unreadable, with the reason of each.
fn add_unreadable(
    alloc: Global,
    findings: &mut Vec<Finding>,
    unreadable: &[SkippedEntry],
) -> Result<(), AllocError>
    ensures { OnOk result (findings.new.items ≡ findings.old.items ++ map unreadable_at unreadable.now) }
{
    for entry in unreadable {
        add_entry(alloc, findings, entry)?;
    }
    Ok(())
}

/// Appends that an entry could not be read, at its path and for its reason.
fn add_entry(
    alloc: Global,
    findings: &mut Vec<Finding>,
    entry: &SkippedEntry,
) -> Result<(), AllocError>
    ensures { OnOk result (findings.new.items ≡ findings.old.items ++ unreadable_at entry.now ∷ []) }
{
    let finding = finding_of(alloc, entry.path.as_slice(), Kind::Unreadable(entry.why))?;
    findings.push(finding)?;
    Ok(())
}

/// Appends the files with other formats, in their order.
fn add_changes(
    alloc: Global,
    findings: &mut Vec<Finding>,
    changes: &[FormatChange],
) -> Result<(), AllocError>
    ensures { OnOk result (findings.new.items ≡ findings.old.items ++ map format_at changes.now) }
{
    for change in changes {
        add_change(alloc, findings, change)?;
    }
    Ok(())
}

/// Appends that a file has other formats: those of the list, and those that were found.
fn add_change(
    alloc: Global,
    findings: &mut Vec<Finding>,
    change: &FormatChange,
) -> Result<(), AllocError>
    ensures { OnOk result (findings.new.items ≡ findings.old.items ++ format_at change.now ∷ []) }
{
    let path = Blob::copy_of(alloc, change.path.as_slice())?;
    let formats = Blob::copy_of(alloc, change.listed.as_slice())?;
    let found_formats = Blob::copy_of(alloc, change.found.as_slice())?;
    findings.push(Finding {
        path,
        kind: Kind::Formats,
        formats,
        found_formats,
    })?;
    Ok(())
}

/// Returns the path by which a difference is sorted: that of the list, if the list has it.
fn path_of<'a>(listed: &'a [Item], found: &'a [Item], difference: Difference) -> &'a [u8]
    ensures { result.now ≡ path_of listed.entry.now found.entry.now difference }
{
    match difference {
        Difference::Changed { listed: place, .. } => path_at(listed, place),
        Difference::Touched { listed: place, .. } => path_at(listed, place),
        Difference::Missing { listed: place } => path_at(listed, place),
        Difference::New { found: place } => path_at(found, place),
        Difference::Moved { listed: place, .. } => path_at(listed, place),
    }
}

/// Returns the path of the item at this place, or an empty one.
fn path_at(items: &[Item], place: usize) -> &[u8]
    ensures { result.now ≡ path_at items.entry.now place }
{
    match items.get(place) {
        Some(item) => item.path.as_slice(),
        None => b"",
    }
}
