//! Compares the profile of a submission with what was submitted. In clauses 1073741824 is `EXPORT_LIMIT` of
//! `droid_remote`, which says where else it stands.

ghost use Rattle.std.specs.Prelude.{◌≡◌, ◌≤◌, [], None, IfErr, IfNone, IfOk, IfSome, length};
ghost use Rattle.droid_lists.specs.TextReading.{IsFaultOf};
ghost use Rattle.droid_remote.specs.Calls.{Wherever};
ghost use Rattle.droid_remote.specs.Exports.{Disturbs, Exports};
ghost use Rattle.droid_cmd_submit.specs.ProfileComparisons.{Compares, EndsOnce, EndsReading, ReadsExport, is_whole};

use crate::known_nodes::{known_of_nodes, unread_in};
use crate::reported_differences::{is_suggested, reported_in};
use droid_frame::HashKind;
use droid_lists::{Difference, Known, TextFault, check_text};
use droid_remote::{Connection, DownloadFault, Sender, TransferFault, export};
use droid_terminal::SkippedEntry;
use droid_upload::Submitted;
use std::alloc::Global;

/// How often an export is begun, if other requests come between its parts. `EndsReading` has the number too: the
/// prover refuses a lower one here, and `BEGINNINGS` of `submit_disturbed.py` any other. The sentence and the help of
/// the fault Disturbed (`faults.rt` of `droid_terminal`, `submit_help.rt` of `droid_arguments`) have it in words;
/// nothing ties it to these.
const BEGINNINGS: u32 = 100;

/// A submission whose profile was compared with what was submitted.
#[derive(Drop)]
pub struct Compared {
    /// The number of the profile.
    pub profile: u32,
    /// Whether the profile is the tree: nothing was skipped, and nothing differs.
    pub whole: bool,
    /// The CSV of the profile.
    pub csv: Vec<u8>,
    /// What is known of the folders and files that were submitted.
    pub known: Vec<Known>,
    /// How the CSV differs from that.
    pub differences: Vec<Difference>,
    /// Of each difference whether it is reported: neither its path nor a folder above it was reported as skipped.
    pub reported: Vec<bool>,
    /// How many files are in the profile and were not read in this run.
    pub unread: usize,
    /// Whether another name for the submission is suggested.
    pub is_suggested: bool,
}

/// Why the profile could not be compared.
#[derive(Clone, Copy)]
pub enum ComparisonFault {
    /// The export could not be read.
    NoExport(TransferFault),
    /// The export has this many bytes, more than a submission reads.
    TooLong(u64),
    /// Other requests came between the parts of the export, each time that it was begun.
    Disturbed,
    /// The CSV could not be compared.
    Unchecked(TextFault),
}

/// Reads the CSV of a profile, again from the start while other requests come between its parts. After [`BEGINNINGS`]
/// it is the fault `Disturbed`; other faults are those of [`read_once`].
pub(crate) fn read_export<C: Connection>(
    alloc: Global,
    sender: &mut Sender<C>,
    profile: u32,
) -> Result<Vec<u8>, ComparisonFault>
    ensures reads { IfOk result (λ csv.
        sender.old.in_flight.waiting.items ≡ [] → Wherever sender.old.in_flight (λ known facts.
        ReadsExport C.does sender.old.client sender.old.name profile known facts sender.old.in_flight
        sender.new.in_flight csv.items)) }
    ensures ended { IfErr result (λ fault.
        sender.old.stopped ≡ None → sender.old.in_flight.waiting.items ≡ []
        → Wherever sender.old.in_flight (λ known facts.
        EndsReading C.does sender.old.client sender.old.name profile known fault facts sender.old.in_flight
        sender.new.in_flight)) }
    ensures bound { IfOk result (λ csv. length csv.items ≤ 1073741824) }
    ensures same { sender.new ≡ record sender.old { in_flight = sender.new.in_flight } }
{
    for _ in 0..BEGINNINGS {
        match read_once(alloc, sender, profile)? {
            Some(csv) => return Ok(csv),
            None => {}
        }
    }
    Err(ComparisonFault::Disturbed)
}

/// Reads the CSV of a profile once. Returns `None` if other requests came between its parts. Any fault of the export
/// ends the comparison, under the name that it has here: no memory for the text is `Unchecked`.
fn read_once<C: Connection>(
    alloc: Global,
    sender: &mut Sender<C>,
    profile: u32,
) -> Result<Option<Vec<u8>>, ComparisonFault>
    ensures whole { IfOk result (λ text.
        IfSome text (λ csv. sender.old.in_flight.waiting.items ≡ [] → Wherever sender.old.in_flight (λ known facts.
        Exports sender.old.client sender.old.name profile C.does known facts sender.old.in_flight sender.new.in_flight
        [] csv.items))) }
    ensures disturbed { IfOk result (λ text.
        IfNone text (sender.old.in_flight.waiting.items ≡ [] → Wherever sender.old.in_flight (λ known facts.
        Disturbs sender.old.client sender.old.name profile C.does known facts sender.old.in_flight
        sender.new.in_flight))) }
    ensures ended { IfErr result (λ fault.
        sender.old.stopped ≡ None → sender.old.in_flight.waiting.items ≡ []
        → Wherever sender.old.in_flight (λ known facts.
        EndsOnce C.does sender.old.client sender.old.name profile known fault facts sender.old.in_flight
        sender.new.in_flight)) }
    ensures bound { IfOk result (λ text. IfSome text (λ csv. length csv.items ≤ 1073741824)) }
    ensures same { sender.new ≡ record sender.old { in_flight = sender.new.in_flight } }
{
    let mut text = Vec::new(alloc);
    match export(sender, profile, &mut text) {
        Ok(true) => Ok(Some(text)),
        Ok(false) => Ok(None),
        Err(DownloadFault::Sending(fault)) => Err(ComparisonFault::NoExport(fault)),
        Err(DownloadFault::Long(total)) => Err(ComparisonFault::TooLong(total)),
        Err(DownloadFault::NoRoom) => Err(ComparisonFault::Unchecked(TextFault::Memory)),
    }
}

/// Compares the CSV of a profile with what was submitted. `skipped` are the entries that were reported as skipped,
/// `hash` is the kind of the profile's hashes. Fails if memory runs out, or with the first record that no profile has.
pub(crate) fn compare_with(
    alloc: Global,
    skipped: &[SkippedEntry],
    submitted: Submitted,
    hash: HashKind,
    csv: Vec<u8>,
) -> Result<Compared, TextFault>
    ensures compared { IfOk result (λ compared. Compares skipped.now submitted hash csv.items compared) }
    ensures wrong { IfErr result (λ fault. IsFaultOf hash csv.items fault) }
{
    let Submitted {
        profile,
        whole,
        nodes,
    } = submitted;
    let unread = unread_in(nodes.as_slice());
    let known = known_of_nodes(alloc, nodes)?;
    let differences = check_text(alloc, hash, known.as_slice(), csv.as_slice())?;
    let reported = reported_in(alloc, skipped, known.as_slice(), differences.as_slice())?;
    Ok(Compared {
        profile,
        whole: is_whole(whole, differences.as_slice()),
        csv,
        known,
        differences,
        reported,
        unread,
        is_suggested: is_suggested(skipped),
    })
}

/// Returns whether the profile is the tree: nothing was skipped, which `whole` says, and nothing differs.
fn is_whole(whole: bool, differences: &[Difference]) -> bool
    ensures { result ≡ is_whole whole differences.now }
{
    if !whole {
        return false;
    }
    differences.is_empty()
}
