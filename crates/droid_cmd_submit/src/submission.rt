//! The submission of a folder of this machine to a service on a port. `submit_and_check` is proved. What is here joins
//! it to the machine, without contracts. Which words and statuses an ending has is proved again (`submission_told.rt`).
//!
//! Modules of `tests/program/submissions` test it: `submit_outputs.py` the profile's number and which files are
//! written after which ending; `submit_lies.py` and `submit_texts.py` the lines of differences; `submit_check.py` and
//! `submit_states.py` the summary, the former also the advice; `submit_whole.py`, `submit_waits.py` and
//! `submit_begun.py` the endings without a folder, without a connection and with other options.

use crate::begun_options::begun_of;
use crate::checked_submission::{CommandFault, submit_and_check};
use crate::difference_line::DifferenceLine;
use crate::loopback::Loopback;
use crate::output_files::{see_outputs, write_export, write_report, write_skipped};
use crate::profile_comparison::{Compared, ComparisonFault};
use crate::submission_ending::SubmissionEnding;
use crate::submit_settings::{connection_of, sender_of, submission_name, walk_options};
use crate::timely::Timely;
use droid_arguments::SubmitOptions;
use droid_disk::{Folder, System};
use droid_frame::{Noted, Refusal};
use droid_remote::{RemoteFault, Sender, Streams, TransferFault, options_of};
use droid_terminal::{Recorder, Reporter, Verbosity, absolute_path, is_folder};
use droid_tree::NODE_LIMIT;
use droid_upload::{Options, SubmissionFault, Upload};
use std::alloc::AllocError;
use std::env::Env;
use std::fs::{File, Files};
use std::net::{Net, TcpListener, TcpStream};
use std::time::Clock;

/// What to do where the profile has a folder or file as it was before. `submit_check.py` has these words (`ADVICE`).
const ANOTHER_NAME: &str =
    "a file differs: give another --name to submit the folder as it is now, as a new profile";

/// A sender over connections to a port of this machine.
type PortSender<'a, R> = Sender<Streams<Loopback<'a, R>, Noted<Timely<'a, R>>>>;

/// All that the submission of a folder works with.
type FolderUpload<'a, R> = Upload<
    Folder<System<'a, R>>,
    PortSender<'a, R>,
    Recorder<Reporter<'a, R>>,
>;

/// Submits a folder, compares the profile with it, and writes the files that are named. What is skipped, and what
/// differs, is printed on standard error, and the profile's number on standard output.
pub fn submit_folder<R>(rt: &R, options: SubmitOptions<'_>, on_terminal: bool) -> SubmissionEnding
where
    R: Files<File = File> + Env + Clock + Print + Eprint + AllocGlobal,
    R: Net<Listener = TcpListener, Stream = TcpStream>,
{
    if !is_folder(rt, options.folder) {
        return SubmissionEnding::NoFolder;
    }
    let Ok(absolute) = absolute_path(rt, options.folder) else {
        return SubmissionEnding::NoMemory;
    };
    let absolute = absolute.as_str();
    if let Err(ending) = see_outputs(rt, options, absolute) {
        return ending;
    }
    let verbosity = Verbosity::of(options.quiet, on_terminal);
    match upload_of(rt, options, absolute, verbosity) {
        Ok(upload) => submit_by(rt, upload, options, absolute),
        Err(_) => SubmissionEnding::NoMemory,
    }
}

/// Makes all that the submission works with: name, folder, client and watcher. Connects to nothing yet. Fails only if
/// memory runs out.
fn upload_of<'a, R>(
    rt: &'a R,
    options: SubmitOptions<'_>,
    absolute: &str,
    verbosity: Verbosity,
) -> Result<FolderUpload<'a, R>, AllocError>
where
    R: Files<File = File> + Env + Clock + Eprint + AllocGlobal,
    R: Net<Listener = TcpListener, Stream = TcpStream>,
{
    let alloc = rt.alloc();
    let name = submission_name(alloc, options, absolute)?;
    let tree = Folder::new(alloc, System::new(rt), options.folder)?;
    let streams = Streams {
        opener: Loopback::new(rt, connection_of(options.to, verbosity)),
        stream: None,
    };
    let client = sender_of(alloc, streams, options, name);
    let watcher = Recorder::new(alloc, Reporter::new(rt, alloc, verbosity));
    Ok(Upload {
        alloc,
        tree,
        client,
        watcher,
    })
}

/// Submits the folder, and reports how that ended. Takes the upload apart, so that the client outlives the rest.
fn submit_by<'a, R>(
    rt: &'a R,
    upload: FolderUpload<'a, R>,
    options: SubmitOptions<'_>,
    absolute: &str,
) -> SubmissionEnding
where
    R: Files<File = File> + Env + Clock + Print + Eprint + AllocGlobal,
    R: Net<Listener = TcpListener, Stream = TcpStream>,
{
    let mut upload = upload;
    let checked = submit_and_check(&mut upload, walk_options(options), NODE_LIMIT);
    let Upload {
        client,
        watcher,
        ..
    } = upload;
    let mut client = client;
    end_checked(rt, &mut client, watcher, options, absolute, checked)
}

/// Ends the progress, prints and writes what there is by how the submission ended, and returns the ending. If the
/// folder could not be counted, there is no progress yet: the watcher has heard nothing. Where the submission ended
/// early, no file is written. The client is lent, so that it is dropped at one place.
fn end_checked<R>(
    rt: &R,
    client: &mut PortSender<'_, R>,
    watcher: Recorder<Reporter<'_, R>>,
    options: SubmitOptions<'_>,
    absolute: &str,
    checked: Result<Compared, CommandFault>,
) -> SubmissionEnding
where
    R: Files<File = File> + Env + Clock + Print + Eprint + AllocGlobal,
    R: Net<Listener = TcpListener, Stream = TcpStream>,
{
    match checked {
        Ok(compared) => {
            let ending = end_compared(rt, &watcher, options, absolute, &compared);
            watcher.watcher.end();
            print_unread(rt, options, &compared);
            ending
        }
        Err(CommandFault::Uncounted(fault)) => SubmissionEnding::Uncounted(fault),
        Err(CommandFault::Unsubmitted(fault)) => {
            let begun = client.in_flight.known.profile.is_some();
            end_progress(watcher.watcher, begun);
            unsubmitted(client, walk_options(options), fault)
        }
        Err(CommandFault::Uncompared { profile, fault }) => {
            let ending = end_uncompared(rt, &watcher, options, profile, fault);
            watcher.watcher.end();
            ending
        }
    }
}

/// Ends the progress, with a summary if a profile was begun: before that nothing of the folder was sent.
fn end_progress<R: Eprint + Clock>(reporter: Reporter<'_, R>, begun: bool) {
    if begun {
        reporter.end();
    } else {
        reporter.clear();
    }
}

/// Prints the profile's number and how the profile differs, and writes the files that are named: the skipped entries,
/// the CSV, the page. The first that fails is the ending, and those behind it are not written.
fn end_compared<R>(
    rt: &R,
    watcher: &Recorder<Reporter<'_, R>>,
    options: SubmitOptions<'_>,
    absolute: &str,
    compared: &Compared,
) -> SubmissionEnding
where
    R: Files<File = File> + Clock + Print + Eprint + AllocGlobal,
{
    watcher.watcher.clear();
    print_profile(rt, compared.profile);
    print_differences(rt, options, compared);
    if let Err(ending) = write_skipped(rt, options.skipped, watcher.skipped.as_slice()) {
        return ending;
    }
    if let Err(ending) = write_export(rt, options.export, compared.csv.as_slice()) {
        return ending;
    }
    let page = write_report(rt, options, absolute, compared.csv.as_slice());
    SubmissionEnding::of(compared.whole).with_page(page)
}

/// Prints the profile's number, and writes what was skipped, if all of that is known. The ending is why the profile
/// could not be compared, also where that file cannot be written.
fn end_uncompared<R>(
    rt: &R,
    watcher: &Recorder<Reporter<'_, R>>,
    options: SubmitOptions<'_>,
    profile: u32,
    fault: ComparisonFault,
) -> SubmissionEnding
where
    R: Files<File = File> + Clock + Print + Eprint + AllocGlobal,
{
    watcher.watcher.clear();
    print_profile(rt, profile);
    if watcher.has_all {
        let _ = write_skipped(rt, options.skipped, watcher.skipped.as_slice());
    }
    SubmissionEnding::uncompared(fault)
}

/// Prints the profile's number on standard output, where a script reads it.
fn print_profile<R: Print>(rt: &R, profile: u32) {
    let _ = println!(rt; "profile {profile}");
}

/// Prints a line on standard error for each difference that is reported, in their order.
fn print_differences<R: Eprint>(rt: &R, options: SubmitOptions<'_>, compared: &Compared) {
    for place in 0..compared.differences.len() {
        print_difference(rt, options, compared, place);
    }
}

/// Prints the line for the difference at this place, counted from 0, if it is reported. A line that cannot be printed
/// changes nothing.
fn print_difference<R: Eprint>(
    rt: &R,
    options: SubmitOptions<'_>,
    compared: &Compared,
    place: usize,
) {
    let Some(reported) = compared.reported.get(place) else {
        return;
    };
    let Some(difference) = compared.differences.get(place) else {
        return;
    };
    if *reported {
        let line = DifferenceLine {
            difference,
            known: compared.known.as_slice(),
            hash: options.hash,
        };
        let _ = eprint!(rt; "{line}");
    }
}

/// Prints how many files were not read in this run, and the advice for where the profile has the folder as it was
/// before. Prints nothing with --quiet.
fn print_unread<R: Eprint>(rt: &R, options: SubmitOptions<'_>, compared: &Compared) {
    if options.quiet {
        return;
    }
    let _ = eprintln!(rt; "files not read again: {}", compared.unread);
    if compared.is_suggested {
        let _ = eprintln!(rt; "{ANOTHER_NAME}");
    }
}

/// Returns the ending of a submission that ended early. Two faults say more when looked at: a broken connection, and a
/// number that is used.
fn unsubmitted<R>(
    client: &mut PortSender<'_, R>,
    options: Options,
    fault: RemoteFault,
) -> SubmissionEnding
where
    R: Clock + Eprint + Net<Listener = TcpListener, Stream = TcpStream>,
{
    match fault {
        RemoteFault::Sending(TransferFault::Broken) => {
            broken(&client.in_flight.connection.opener, fault)
        }
        RemoteFault::Walking(SubmissionFault::Refused(Refusal::NumberReused)) => {
            with_other_options(client, options, fault)
        }
        _ => SubmissionEnding::Unsubmitted(fault),
    }
}

/// Returns the ending of a submission whose connection broke. If no connection was ever made, it says why the last try
/// failed.
fn broken<R>(opener: &Loopback<'_, R>, fault: RemoteFault) -> SubmissionEnding {
    match opener.failed {
        Some(cause) if !opener.has_joined => SubmissionEnding::NoConnection(cause),
        _ => SubmissionEnding::Unsubmitted(fault),
    }
}

/// Returns the ending of a submission of which a number is used for another request. If it is the number of the request
/// for the profile, which no reply has come for yet, the submission was begun with other options, and the service is
/// asked which. If that is not found out, the ending names the fault alone.
fn with_other_options<R>(
    client: &mut PortSender<'_, R>,
    options: Options,
    fault: RemoteFault,
) -> SubmissionEnding
where
    R: Clock + Eprint + Net<Listener = TcpListener, Stream = TcpStream>,
{
    if client.in_flight.known.profile.is_some() {
        return SubmissionEnding::Unsubmitted(fault);
    }
    let Ok(begun) = options_of(client, options) else {
        return SubmissionEnding::Unsubmitted(fault);
    };
    match begun_of(options, begun) {
        Some(begun) => SubmissionEnding::OtherOptions(begun),
        None => SubmissionEnding::Unsubmitted(fault),
    }
}
