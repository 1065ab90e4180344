//! The ending where a file that a command writes could not be created or replaced.

ghost use Rattle.droid_cmd_profile.specs.Endings.{TellsOutput};
ghost use Rattle.droid_terminal.specs.Endings.{told};

use droid_disk::OutputFault;
use droid_terminal::{About, Ending, faults, told_no_output};
use std::fs::Files;

/// Returns the ending where the file at this path could not be created or replaced. Looks at the path again, since the
/// fault does not say why it was refused.
pub fn told_output<'a, R: Files>(rt: &R, fault: OutputFault, path: &'a str) -> Ending<'a>
    ensures { TellsOutput fault path.now (told result) }
{
    match fault {
        OutputFault::Memory => Ending::by(faults::MEMORY, About::Nothing),
        OutputFault::Refused => told_no_output(rt, path),
    }
}
