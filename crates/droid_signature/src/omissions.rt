//! Lists all that a registry does not have of a signature file.

ghost use Rattle.std.specs.Prelude.{◌≡◌, ◌+◌, ◌-◌, ◌^◌, ◌++◌, ◌∷◌, [], List, map, min, IfOk, OnOk};
ghost use Rattle.droid_signature.specs.declared.left_out.LeftOut.{LeftOut};
ghost use Rattle.droid_signature.specs.AllLeftOut as spec;
ghost use Rattle.droid_signature.specs.AllLeftOut.{AreCountsOf, all_left_out, holder_of, is_without, unnamed_item};
ghost use Rattle.droid_signature.specs.AllLeftOut.{without};

use crate::left_out::{Item, LeftOut, Why};
use crate::nameless_signatures::unnamed_signatures;
use crate::tables::push_all;
use droid_signature_file::{FileFormat, SignatureFile};
use std::alloc::{AllocError, Global};
use std::collections::BTreeMap;

/// Returns all that a registry does not have of a signature file: what [`convert`](crate::conversion::convert) left
/// out, and behind it the formats of the registry that have signatures in the file and none in the registry, and the
/// signatures that no format names.
pub fn all_left_out(
    alloc: Global,
    file: &SignatureFile,
    left_out: &[LeftOut],
) -> Result<Vec<LeftOut>, AllocError>
    ensures { IfOk result (λ all. all.items ≡ all_left_out file.now left_out.now) }
{
    let counts = Counts::of(alloc, left_out)?;
    let ids = unnamed_signatures(alloc, file)?;
    let mut all = Vec::new(alloc);
    push_all(&mut all, left_out)?;
    push_without(&mut all, file.formats(), &counts)?;
    push_unnamed(&mut all, ids.as_slice())?;
    Ok(all)
}

/// For each format, by its place in the file, how many of its signatures are left out.
#[derive(Drop)]
struct Counts {
    counts: BTreeMap<usize, u64>,
}

impl Counts {
    /// Begins with no count. Allocates nothing.
    fn new(alloc: Global) -> Counts
        ensures { AreCountsOf [] result }
    {
        Counts {
            counts: BTreeMap::new(alloc),
        }
    }

    /// Counts for each format how many of its signatures are among the items that are left out.
    fn of(alloc: Global, left_out: &[LeftOut]) -> Result<Counts, AllocError>
        ensures { IfOk result (AreCountsOf left_out.now) }
    {
        let mut counts = Counts::new(alloc);
        for it in left_out {
            counts.note(it)?;
        }
        Ok(counts)
    }

    /// Counts an item that is left out, if it is a signature of a format.
    fn note(&mut self, it: &LeftOut) -> Result<(), AllocError>
        ensures { OnOk result ((left : List LeftOut) → AreCountsOf left self.old
            → AreCountsOf (left ++ it.now ∷ []) self.new) }
    {
        match holder_of(it) {
            Some(place) => self.add(place)?,
            None => {}
        }
        Ok(())
    }

    /// Counts one more signature of the format at a place.
    fn add(&mut self, place: usize) -> Result<(), AllocError>
        ensures { OnOk result (spec.Adds place self.old self.new) }
    {
        let count = one_more(self.at(place));
        self.counts.insert(place, count)?;
        Ok(())
    }

    /// Returns how many signatures of the format at a place are left out.
    fn at(&self, place: usize) -> u64
        ensures { result ≡ spec.count_at self.now place }
    {
        match self.counts.get(&place) {
            Some(count) => *count,
            None => 0,
        }
    }
}

/// Adds one, up to the greatest number of 64 bits.
fn one_more(count: u64) -> u64
    ensures { result ≡ min (count + 1) (2 ^ 64 - 1) }
{
    count.saturating_add(1)
}

/// Returns the place of the format whose signature was left out, if a signature was.
fn holder_of(it: &LeftOut) -> Option<usize>
    ensures { result ≡ holder_of it.now.format it.now.item }
{
    match it.item {
        Item::Signature(_) => it.format,
        Item::Format | Item::Extension(_) | Item::Priority(_) => None,
    }
}

/// Appends the formats that are left without a signature, in the file's order.
fn push_without(
    all: &mut Vec<LeftOut>,
    formats: &[FileFormat],
    counts: &Counts,
) -> Result<(), AllocError>
    ensures { OnOk result ((left : List LeftOut) → AreCountsOf left counts.now
        → all.new.items ≡ all.old.items ++ without left formats.now) }
{
    for place in 0..formats.len() {
        push_if_without(all, place, &formats[place], counts.at(place))?;
    }
    Ok(())
}

/// Appends that a format is left without a signature, if it had any and kept none. One that is left out as a whole is
/// not meant: `convert` does not list its signatures, so its `count` is 0.
fn push_if_without(
    all: &mut Vec<LeftOut>,
    place: usize,
    format: &FileFormat,
    count: u64,
) -> Result<(), AllocError>
    ensures { OnOk result (all.new.items ≡ all.old.items ++ spec.listed_if (is_without format.now count) place) }
{
    if is_without(format, count) {
        all.push(LeftOut {
            format: Some(place),
            item: Item::Format,
            why: Why::NoSignatureLeft,
        })?;
    }
    Ok(())
}

/// Returns whether a format has signatures, and as many are left out.
fn is_without(format: &FileFormat, count: u64) -> bool
    ensures { result ≡ is_without format.now count }
{
    let signatures = format.signatures().len() as u64;
    0 < signatures && count == signatures
}

/// Appends the signatures with these IDs, which no format names.
fn push_unnamed(all: &mut Vec<LeftOut>, ids: &[u32]) -> Result<(), AllocError>
    ensures { OnOk result (all.new.items ≡ all.old.items ++ map unnamed_item ids.now) }
{
    for id in ids {
        all.push(LeftOut {
            format: None,
            item: Item::Signature(*id),
            why: Why::Unnamed,
        })?;
    }
    Ok(())
}
