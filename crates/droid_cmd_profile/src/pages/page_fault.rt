//! Why the page of a CSV was not written, and how a command then ends.

ghost use Rattle.std.specs.Prelude.{◌≡◌};
ghost use Rattle.droid_cmd_profile.specs.Endings.{TellsPage, csv_fault};
ghost use Rattle.droid_terminal.specs.Endings.{told};

use crate::output_told::told_output;
use droid_disk::OutputFault;
use droid_export::ListFault;
use droid_frame::WriteFault;
use droid_report::ProfileFault;
use droid_terminal::{About, Ending, faults};
use std::alloc::AllocError;
use std::fs::Files;

/// Why the page of a CSV was not written.
#[derive(Clone, Copy)]
pub enum PageFault {
    /// The file for the page could not be created, or not be put in its place.
    NoOutput(OutputFault),
    /// Out of memory.
    Memory,
    /// The command's own CSV was refused, which it never is.
    Refused,
    /// Not all of the page could be written.
    Unwritten(WriteFault),
}

// The `ghost` line of each `from` is its contract.
impl From<AllocError> for PageFault {
    ghost use Rattle.droid_cmd_profile.specs.declared.pages.page_fault.PageFault.TheVariants.{Memory};

    ghost from_gives = { λ _ fault. fault ≡ Memory };

    fn from(_error: AllocError) -> PageFault {
        PageFault::Memory
    }
}

impl From<ProfileFault> for PageFault {
    ghost use Rattle.droid_cmd_profile.specs.Endings.{page_fault};

    ghost from_gives = { λ given fault. fault ≡ page_fault given };

    fn from(fault: ProfileFault) -> PageFault {
        match fault {
            ProfileFault::Csv(fault) => csv_fault(fault),
            ProfileFault::Twice(_) => PageFault::Refused,
        }
    }
}

/// Returns the fault of the page of a CSV that the command itself made: that memory ran out, or else that it was
/// refused, which it never is.
fn csv_fault(fault: ListFault) -> PageFault
    ensures { result ≡ csv_fault fault }
{
    match fault {
        ListFault::Memory => PageFault::Memory,
        _ => PageFault::Refused,
    }
}

impl PageFault {
    /// Returns the ending by the table of faults, given the paths of the CSV and of the page, of which one is at fault.
    pub fn told<'a, R: Files>(self, rt: &R, csv: &'a str, page: &'a str) -> Ending<'a>
        ensures { TellsPage self csv.now page.now (told result) }
    {
        match self {
            PageFault::NoOutput(fault) => told_output(rt, fault, page),
            PageFault::Memory => Ending::by(faults::MEMORY, About::Nothing),
            PageFault::Refused => Ending::by(faults::OWN_CSV_REFUSED, About::Path(csv)),
            PageFault::Unwritten(_) => Ending::by(faults::UNWRITTEN, About::Path(page)),
        }
    }
}
