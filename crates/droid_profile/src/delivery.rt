//! Hands rows out: records to the recipient, and reports to the watcher.

ghost use Rattle.std.specs.Prelude.{◌≡◌, ◌&&◌, List, IfErr, IfOk, IsTrue, OnOk, length};
ghost use Rattle.std.specs.List.{flat_map, AllByRecursion};
ghost use Rattle.droid_core_spec.specs.Conditions.{is_moment};
ghost use Rattle.droid_frame.specs.declared.reply.Reply.TheVariants as replies;
ghost use Rattle.droid_pronom.specs.Registry.{Contents};
ghost use Rattle.droid_profile.specs.Kids.{heard_of_file};
ghost use Rattle.droid_profile.specs.Readings.{Reading};
ghost use Rattle.droid_profile.specs.declared.fault.ProfileFault.TheVariants as faults;
ghost use Rattle.droid_profile.specs.declared.options.Options.{Options};
ghost use Rattle.droid_profile.specs.declared.recipient.RecipientFault.{RecipientFault};
ghost use Rattle.droid_profile.specs.FilesRead.{IsSettled};
ghost use Rattle.droid_profile.specs.declared.lanes.file_row.FileRow.{FileRow};
ghost use Rattle.droid_profile.specs.RowsTaken.{HasMoment, IsReady, Readings, heard_of_row, is_link_reason, records_by};
ghost use Rattle.droid_profile.specs.RowsTaken.{records_of_row};
ghost use Rattle.droid_profile.specs.HandedOut.{AreSettled, Hands, HandsFront};

use crate::fault::ProfileFault;
use crate::lanes::file_row::{FileRow, FileState};
use crate::recipient::Recipient;
use crate::walk::row::Row;
use droid_frame::{Record, Reply};
use droid_tree::{Skipped, Watcher};
use std::alloc::{AllocError, Global};

/// Hands these rows out, one after the other; `files` are those of the batch, and each was read. Returns whether
/// nothing was skipped, symbolic links aside.
pub(crate) fn hand_out<W: Watcher, R: Recipient>(
    alloc: Global,
    watcher: &mut W,
    recipient: &mut R,
    rows: &[Row],
    files: &[FileRow],
) -> Result<bool, ProfileFault>
    requires ready { AllByRecursion (IsReady (length files.now)) rows.now }
    requires moments { AllByRecursion HasMoment files.now }
    // However the files were read.
    ensures handed { IfOk result (λ kept.
        (registry : Contents) (options : Options) (readings : Readings) (first : List FileRow)
        → AreSettled registry options readings first files.now
        → Hands W.hears R.takes (flat_map (heard_of_row registry options readings first) rows.now)
        (flat_map (records_of_row registry options readings first) rows.now) kept watcher.old watcher.new recipient.old
        recipient.new) }
    ensures ended { IfErr result (λ fault.
        (registry : Contents) (options : Options) (readings : Readings) (first : List FileRow)
        → AreSettled registry options readings first files.now
        → HandsFront W.hears R.takes R.fails (flat_map (heard_of_row registry options readings first) rows.now)
        (flat_map (records_of_row registry options readings first) rows.now) fault watcher.old watcher.new recipient.old
        recipient.new) }
{
    let mut whole = true;
    for row in rows {
        let kept = hand_row(alloc, watcher, recipient, row, files)?;
        whole = both(whole, kept);
    }
    Ok(whole)
}

/// Returns whether both are true. A function, so that the proofs of the loops that call it, here and in `profile`, do
/// not split.
pub(crate) fn both(first: bool, second: bool) -> bool
    ensures { result ≡ (first && second) }
{
    first && second
}

/// Hands out one row: its record to the recipient, if it has one, and then a report to the watcher. Returns false if it
/// was skipped, unless as a symbolic link.
fn hand_row<W: Watcher, R: Recipient>(
    alloc: Global,
    watcher: &mut W,
    recipient: &mut R,
    row: &Row,
    files: &[FileRow],
) -> Result<bool, ProfileFault>
    requires ready { IsReady (length files.now) row.now }
    requires moments { AllByRecursion HasMoment files.now }
    ensures handed { IfOk result (λ kept.
        (registry : Contents) (options : Options) (readings : Readings) (first : List FileRow)
        → AreSettled registry options readings first files.now
        → Hands W.hears R.takes (heard_of_row registry options readings first row.now)
        (records_of_row registry options readings first row.now) kept watcher.old watcher.new recipient.old
        recipient.new) }
    ensures ended { IfErr result (λ fault.
        (registry : Contents) (options : Options) (readings : Readings) (first : List FileRow)
        → AreSettled registry options readings first files.now
        → HandsFront W.hears R.takes R.fails (heard_of_row registry options readings first row.now)
        (records_of_row registry options readings first row.now) fault watcher.old watcher.new recipient.old
        recipient.new) }
{
    match row {
        Row::Left { path, why } => {
            watcher.skipped(path.as_slice(), *why);
            Ok(is_link(*why))
        }
        Row::Folder(record) => {
            give(recipient, record)?;
            watcher.took_folder(record.path.as_str());
            Ok(true)
        }
        Row::File(place) => {
            let kept = hand_file(alloc, watcher, recipient, &files[*place])?;
            Ok(kept)
        }
    }
}

/// Returns whether something was skipped as a symbolic link, which leaves a profile whole.
fn is_link(why: Skipped) -> bool
    ensures { result ≡ is_link_reason why }
{
    why == Skipped::Link
}

/// Hands out a file that was read, or reports why it was dropped. Returns false if it was dropped.
fn hand_file<W: Watcher, R: Recipient>(
    alloc: Global,
    watcher: &mut W,
    recipient: &mut R,
    file: &FileRow,
) -> Result<bool, ProfileFault>
    requires { HasMoment file.now }
    ensures handed { IfOk result (λ kept.
        (registry : Contents) (options : Options) (was : FileRow) (reading : Reading)
        → IsSettled registry options was file.now reading file.now.state
        → Hands W.hears R.takes (heard_of_file registry options was.record.path was.entry reading reading.ending)
        (records_by registry options was reading reading.ending) kept watcher.old watcher.new recipient.old
        recipient.new) }
    ensures ended { IfErr result (λ fault.
        (registry : Contents) (options : Options) (was : FileRow) (reading : Reading)
        → IsSettled registry options was file.now reading file.now.state
        → HandsFront W.hears R.takes R.fails
        (heard_of_file registry options was.record.path was.entry reading reading.ending)
        (records_by registry options was reading reading.ending) fault watcher.old watcher.new recipient.old
        recipient.new) }
{
    match file.state {
        FileState::Dropped(why) => {
            watcher.skipped(file.record.path.as_str().as_bytes(), why);
            Ok(false)
        }
        FileState::Whole => {
            let found = reply_of(alloc, &file.record)?;
            give(recipient, &file.record)?;
            watcher.took_file(file.record.path.as_str(), &found);
            Ok(true)
        }
        // Never so: every file of the batch was read.
        FileState::Waits | FileState::InLane(_) => Ok(false),
    }
}

/// Gives a record to the recipient. What it did with a record that it did not take, its own relation `fails` says.
fn give<R: Recipient>(recipient: &mut R, shown: &Record) -> Result<(), ProfileFault>
    requires { IsTrue (is_moment shown.now.modified) }
    ensures taken { OnOk result (R.takes recipient.old shown.now recipient.new) }
    ensures failed { IfErr result (λ fault.
        (why : RecipientFault) × (fault ≡ faults.Recipient why) × R.fails recipient.old shown.now why recipient.new) }
{
    match recipient.take(shown) {
        Ok(()) => Ok(()),
        Err(why) => Err(ProfileFault::Recipient(why)),
    }
}

/// Returns what a service replies when it has finished the file with this record: the watcher learns it in that form.
fn reply_of(alloc: Global, shown: &Record) -> Result<Reply, AllocError>
    ensures { IfOk result (λ reply.
        reply ≡ replies.Finished shown.now.method shown.now.mismatch shown.now.hash shown.now.puids) }
{
    Ok(Reply::Finished {
        method: shown.method,
        mismatch: shown.mismatch,
        hash: shown.hash,
        puids: shown.puids.try_clone(alloc)?,
    })
}
