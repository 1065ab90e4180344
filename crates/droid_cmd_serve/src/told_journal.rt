//! The ending by the table of faults where a journal ends the program, for each form of `JournalFault`.

ghost use Rattle.std.specs.Prelude.{◌≡◌};
ghost use Rattle.droid_cmd_serve.specs.ToldJournals.{journal_of, told_closed, told_journal, told_not_smaller};
ghost use Rattle.droid_terminal.specs.Endings.{told};

use crate::command_end::Used;
use crate::journal_fault::JournalFault;
use droid_journal::Fault;
use droid_terminal::{About, Detail, Ending, faults};
use std::io::ErrorKind;

/// Returns the ending where a journal ends the program: its file, its records, or making it smaller. It names the path.
pub(crate) fn told_journal<'a>(fault: JournalFault, used: Used<'a>) -> Ending<'a>
    ensures { told result ≡ told_journal fault (journal_of used.entry) }
{
    let about = About::Path(journal_of(used));
    match fault {
        JournalFault::InUse => Ending::by(faults::JOURNAL_IN_USE, about),
        JournalFault::NotAFile => Ending::by(faults::JOURNAL_NO_FILE, about),
        JournalFault::Unopened(kind) => {
            Ending::detailed(faults::JOURNAL_UNOPENED, about, Detail::Cause(kind))
        }
        JournalFault::Closed(fault) => told_closed(fault, used),
        JournalFault::NotSmaller(cause) => told_not_smaller(cause, used),
        JournalFault::NotExchanged => Ending::by(faults::NOT_EXCHANGED, about),
    }
}

/// Returns the path of the journal that a command used, or `the journal` if it is not known. `Ended` always has it for
/// a fault of the journal.
fn journal_of<'a>(used: Used<'a>) -> &'a str
    ensures { result.now ≡ journal_of used.entry }
{
    match used {
        Used::Journal(path) => path,
        Used::Registry(_) => "the journal",
        Used::Port(_) => "the journal",
    }
}

/// Returns the ending where a journal could not be opened, or handles no further request. The header is record 0.
/// `Damage` has the number of whole records before it, so the damaged one has the next number.
fn told_closed<'a>(fault: Fault, used: Used<'a>) -> Ending<'a>
    ensures { told result ≡ told_closed fault (journal_of used.entry) }
{
    let about = About::Path(journal_of(used));
    match fault {
        Fault::Memory => Ending::by(faults::JOURNAL_MEMORY, about),
        Fault::Read => Ending::by(faults::JOURNAL_UNREAD, about),
        Fault::Write => Ending::by(faults::JOURNAL_UNWRITTEN, about),
        Fault::Header => Ending::at(faults::JOURNAL_OTHER, about, 0, Detail::Nothing),
        Fault::Record(at) => Ending::numbered(faults::JOURNAL_REPLY, about, at),
        Fault::Damage(records) => Ending::at(
            faults::JOURNAL_DAMAGED,
            about,
            records.saturating_add(1),
            Detail::Number(records),
        ),
    }
}

/// Returns the ending where the smaller journal beside the file, `PATH.new` (as `put_smaller` of `compaction.rt` names
/// it), could not be made for this cause of the
/// system, or without a cause not be written.
fn told_not_smaller<'a>(cause: Option<ErrorKind>, used: Used<'a>) -> Ending<'a>
    ensures { told result ≡ told_not_smaller cause (journal_of used.entry) }
{
    let path = journal_of(used);
    let about = About::Beside(path, ".new");
    match cause {
        Some(kind) => {
            Ending::detailed(
                faults::JOURNAL_NOT_SMALLER,
                about,
                Detail::CauseAt(kind, path),
            )
        }
        None => {
            Ending::detailed(
                faults::SMALLER_UNWRITTEN,
                about,
                Detail::Path(path.as_bytes()),
            )
        }
    }
}
